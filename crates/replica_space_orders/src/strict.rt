//! The strict operations of a run, in the order of its events.

ghost use Rattle.std.specs.Prelude.{◌≡◌, ◌++◌, IfOk, OnOk};
ghost use Rattle.replica_space_orders.specs.code.Strict.{strict_names_of, strict_names};

use replica_space::{Deed, Events};
use std::alloc::{AllocError as OutOfMemory, Global};
use upc_values::{Action, Listing, Op, Order, Reply};

// Adds the names of the strict operations of a thread's action with its reply.
fn push_strict(
    thread: u32,
    index: u32,
    action: &Action,
    reply: &Reply,
    names: &mut Vec<Op>,
) -> Result<(), OutOfMemory>
    ensures { OnOk result (names.new.items ≡ names.old.items ++ strict_names_of thread index action.now reply.now) }
{
    let write = Op {
        thread,
        index,
        write: true,
    };
    let read = Op {
        thread,
        index,
        write: false,
    };
    match (action, reply) {
        (_, Reply::Refused(_)) => {}
        (Action::Read { strict: true, .. }, Reply::Value(_))
        | (Action::Wait(_) | Action::Lock(_), _)
        | (Action::Attempt(_), Reply::Flag(true)) => {
            names.push(read)?;
        }
        (Action::Write { strict: true, .. }, _) | (Action::Notify(_) | Action::Unlock(_), _) => {
            names.push(write)?;
        }
        (Action::Fence, _) => {
            names.push(write)?;
            names.push(read)?;
        }
        _ => {}
    }
    Ok(())
}

/// The strict list of these events, by names.
pub fn strict_order(alloc: Global, events: &Events) -> Result<Order, OutOfMemory>
    ensures { IfOk result (λ order. order ≡ strict_names events.now) }
{
    let mut names = Vec::new(alloc);
    for event in events.iter() {
        if let Deed::Did {
            index,
            action,
            reply,
        } = &event.deed
        {
            push_strict(event.by, *index, action, reply, &mut names)?;
        }
    }
    Ok(Listing::from_vec(names))
}
