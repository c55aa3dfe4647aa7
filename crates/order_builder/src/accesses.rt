//! The operations of an action.

ghost use Rattle.std.specs.Prelude.{◌≡◌, map, IfOk};
ghost use Rattle.upc_values.specs.Operations.{accesses_of};
ghost use Rattle.order_builder.specs.layer.Commits.{named};

use crate::names::{Named, Names};
use std::alloc::Global;
use upc_text::OutOfMemory;
use upc_values::{Action, Op, Reply};

// The write or the read of an action of a thread.
fn operation(thread: u32, index: u32, write: bool, strict: bool) -> Named
    ensures name { result.name ≡ record { thread = thread; index = index; write = write } }
    ensures strict { result.strict ≡ strict }
{
    let name = Op {
        thread,
        index,
        write,
    };
    Named { name, strict }
}

/// The names of the operations of a thread's action with its reply.
pub fn names_of(
    alloc: Global,
    thread: u32,
    index: u32,
    action: &Action,
    reply: &Reply,
) -> Result<Names, OutOfMemory>
    ensures { IfOk result (λ names. names
        ≡ map named (accesses_of thread index action.now reply.now)) }
{
    let mut names = Names::new(alloc);
    match (action, reply) {
        (_, Reply::Refused(_)) => {}
        (Action::Read { strict, .. }, Reply::Value(_)) => {
            names.push(operation(thread, index, false, *strict))?;
        }
        (Action::Write { strict, .. }, _) => {
            names.push(operation(thread, index, true, *strict))?;
        }
        (Action::Fence, _) => {
            names.push(operation(thread, index, true, true))?;
            names.push(operation(thread, index, false, true))?;
        }
        (Action::Notify(_) | Action::Unlock(_), _) => {
            names.push(operation(thread, index, true, true))?;
        }
        (Action::Wait(_) | Action::Lock(_), _) | (Action::Attempt(_), Reply::Flag(true)) => {
            names.push(operation(thread, index, false, true))?;
        }
        _ => {}
    }
    Ok(names)
}
