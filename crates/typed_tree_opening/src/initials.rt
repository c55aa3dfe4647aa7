//! What shared objects begin with.

ghost use Rattle.std.specs.Prelude.{◌≡◌, ◌++◌, map, OnOk, IfOk};
ghost use Rattle.typed_tree.specs.Initials as pure;
ghost use Rattle.typed_tree_opening.specs.code.ViewSettings.{view_setting};
ghost use Rattle.typed_tree.specs.Objects.{shared_in};
ghost use Rattle.typed_tree.specs.ViewStatements.{view_initial, view_object};

use crate::objects::{is_shared, next};
use crate::setting::Setting;
use crate::values::{scalar_kind, value_in};
use block_layout::{Kind, Loc};
use std::alloc::Global;
use typed_tree::{Initial, Object};
use typing_rules::constants::constant_of;
use upc_text::OutOfMemory;
use upc_values::{Scalar, Value};

// What an object without braces begins with.
fn single(setting: &Setting<'_>, kind: Option<Kind>, initial: &Initial) -> Option<Value>
    ensures { result ≡ pure.single (view_setting setting.now) kind (view_initial initial.now) }
{
    match (kind, initial) {
        (Some(kind), Initial::Value(e)) => Some(value_in(setting, kind, constant_of(&e.attr))),
        _ => None,
    }
}

// Adds the value of a shared object.
fn push_start(
    initials: &mut Vec<(Loc, Scalar)>,
    number: u32,
    value: Option<Value>,
) -> Result<(), OutOfMemory>
    ensures { OnOk result (initials.new.items ≡ initials.old.items ++ pure.at_start number value) }
{
    if let Some(Value::Scalar(v)) = value {
        let start = Loc {
            object: number,
            thread: 0,
            offset: 0,
        };
        initials.push((start, v))?;
    }
    Ok(())
}

/// What the shared objects among these begin with.
#[tactic(auto, using(crate::proofs::Chosen::shared_walk))]
pub(crate) fn shared_initials(
    alloc: Global,
    setting: &Setting<'_>,
    objects: &[Object],
) -> Result<Vec<(Loc, Scalar)>, OutOfMemory>
    ensures { IfOk result (λ xs. xs.items
        ≡ pure.shared_from (view_setting setting.now) 1 (shared_in (map view_object objects.now))) }
{
    let mut initials = Vec::new(alloc);
    let mut number: u32 = 1;
    for object in objects {
        if is_shared(object.home) {
            let kind = scalar_kind(setting.structs, &object.ctype.base);
            let value = single(setting, kind, &object.initial);
            push_start(&mut initials, number, value)?;
            number = next(number)?;
        }
    }
    Ok(initials)
}
