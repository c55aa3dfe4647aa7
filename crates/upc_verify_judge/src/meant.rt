//! What threads' sources come to.

ghost use Rattle.std.specs.Prelude.{◌≡◌, IfOk, map, option_copied};
ghost use Rattle.upc_values.specs.Outcomes as outcomes;

use std::alloc::Global;
use upc_text::OutOfMemory;
use upc_values::{Action, Actions, ToldEnd};
use upc_verify_parts::wanted;

/// What a thread's source comes to on given replies: its actions, its ticks and its end.
#[derive(Drop)]
pub struct Meant {
    pub actions: Actions,
    pub ticks: u64,
    pub end: ToldEnd,
}

/// The action that each thread wants where it ends for want of a reply.
pub(crate) fn wants_of(alloc: Global, meant: &[Meant]) -> Result<Vec<Option<&Action>>, OutOfMemory>
    ensures { IfOk result (λ wants. map option_copied wants.items ≡ map (λ m. outcomes.wanted m.«end») meant.now) }
{
    let mut wants = Vec::new(alloc);
    for one in meant {
        wants.push(wanted(&one.end))?;
    }
    Ok(wants)
}
