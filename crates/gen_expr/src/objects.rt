//! Where named objects lie (C99 6.2.4, UPC 6.5.1).

ghost use Rattle.std.specs.Prelude.{◌≡◌, ◌++◌, OnOk};
ghost use Rattle.source_meaning.specs.Running as running;
ghost use Rattle.gen_expr.specs.layer.Sources.{running_of};
ghost use Rattle.gen_expr.specs.layer.Codes as pure;
ghost use Rattle.gen_expr.specs.layer.ViewSource.{view_source};

use crate::put::{put, put_push};
use crate::source::Source;
use block_layout::{LocalPtr, SharedPtr};
use stack_code::{Instr, ObjectWork, Operation};
use typed_tree::numbered;
use typing_rules::Home;
use upc_text::{OutOfMemory, Place};
use upc_values::{Scalar, Value};

// Where a declared shared object begins, by its number (UPC 6.5.1.1).
fn shared_object(source: Source<'_>, number: u32) -> Value
    ensures { result ≡ running.shared_object (running_of (view_source source.entry)) number }
{
    match numbered(source.shared, number) {
        Some(object) => Value::Scalar(Scalar::Shared(SharedPtr {
            object,
            thread: 0,
            phase: 0,
            offset: 0,
        })),
        None => Value::Scalar(Scalar::Shared(SharedPtr::NULL)),
    }
}

/// Appends the code of the place of a named object.
pub fn put_object(
    code: &mut Vec<Instr>,
    source: Source<'_>,
    place: Place,
    home: Home,
) -> Result<(), OutOfMemory>
    ensures { OnOk result (code.new.items ≡ code.old.items ++ pure.object_code (view_source source.entry) place home) }
{
    match home {
        Home::Private(number) => {
            let at = LocalPtr::Private {
                object: number as u64,
                offset: 0,
            };
            put_push(code, place, Value::Local(at))
        }
        Home::Shared(number) => put_push(code, place, shared_object(source, number)),
        Home::Local(number) => put(code, place, Operation::Object(ObjectWork::Local(number))),
    }
}
