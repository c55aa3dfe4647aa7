//! Where shared objects and their cells lie (UPC 6.5.1.1).

ghost use Rattle.std.specs.Prelude.{◌≡◌, IfOk};
ghost use Rattle.thread_steps.specs.Accesses as pure;
ghost use Rattle.source_meaning.specs.Running as running;
ghost use Rattle.upc_meaning_settings.specs.layer.Runners.{Fits, thread_seen};
ghost use Rattle.upc_meaning_settings.specs.layer.Settings.{running_seen};

use crate::ranges::is_held_scalar;
use crate::runner::Runner;
use crate::setting::Setting;
use block_layout::{Kind, Loc, SharedPtr};
use thread_values::cell;
use typed_tree::numbered;
use upc_text::OutOfMemory;
use upc_values::{Scalar, Value};

/// The location of the cell of a kind at a pointer-to-shared, or its run error.
pub fn cell_at(
    runner: Runner<'_>,
    kind: Kind,
    p: &SharedPtr,
) -> Result<Result<Loc, u8>, OutOfMemory>
    requires { Fits runner }
    ensures { IfOk result (λ r. r ≡ pure.cell (thread_seen runner.entry) kind p.now) }
{
    if !is_held_scalar(runner, &Scalar::Shared(*p)) {
        return Err(OutOfMemory);
    }
    Ok(cell(runner.threads, runner.shapes, kind, p))
}

/// Where a declared shared object begins, by its number (UPC 6.5.1.1).
pub fn shared_object(setting: Setting<'_>, number: u32) -> Value
    ensures { result ≡ running.shared_object (running_seen setting.entry) number }
{
    match numbered(setting.shared, number) {
        Some(object) => Value::Scalar(Scalar::Shared(SharedPtr {
            object,
            thread: 0,
            phase: 0,
            offset: 0,
        })),
        None => Value::Scalar(Scalar::Shared(SharedPtr::NULL)),
    }
}
