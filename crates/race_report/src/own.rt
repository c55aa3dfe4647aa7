//! The operations of each thread by their names, in program order.

ghost use Rattle.std.specs.Prelude.{◌≡◌, ◌+◌, ◌++◌, length, map, IfOk, OnOk};
ghost use Rattle.upc_values.specs.Operations.{accesses_of};
ghost use Rattle.upc_values.specs.Orders.{operations_from};
ghost use Rattle.race_report.specs.code.Own.{own, AreOwn};

use std::alloc::Global;
use upc_text::OutOfMemory;
use upc_values::{Action, Item, Items, Journal, Listing, Op, Reply};

/// An operation of a thread by its name, and whether it is strict.
#[derive(Clone, Copy)]
pub struct OwnOperation {
    pub name: Op,
    pub strict: bool,
}

/// The operations of a thread, in program order.
pub type OwnOperations = Listing<OwnOperation>;

// The write or the read of an action of a thread.
fn operation(thread: u32, index: u32, write: bool, strict: bool) -> OwnOperation
    ensures name { result.name ≡ record { thread = thread; index = index; write = write } }
    ensures strict { result.strict ≡ strict }
{
    let name = Op {
        thread,
        index,
        write,
    };
    OwnOperation { name, strict }
}

// Adds the operations of a thread's action with its reply.
fn push_accesses(
    thread: u32,
    index: u32,
    action: &Action,
    reply: &Reply,
    list: &mut Vec<OwnOperation>,
) -> Result<(), OutOfMemory>
    ensures { OnOk result (list.new.items ≡ list.old.items
        ++ map own (accesses_of thread index action.now reply.now)) }
{
    match (action, reply) {
        (_, Reply::Refused(_)) => {}
        (Action::Read { strict, .. }, Reply::Value(_)) => {
            list.push(operation(thread, index, false, *strict))?;
        }
        (Action::Write { strict, .. }, _) => {
            list.push(operation(thread, index, true, *strict))?;
        }
        (Action::Fence, _) => {
            list.push(operation(thread, index, true, true))?;
            list.push(operation(thread, index, false, true))?;
        }
        (Action::Notify(_) | Action::Unlock(_), _) => {
            list.push(operation(thread, index, true, true))?;
        }
        (Action::Wait(_) | Action::Lock(_), _) | (Action::Attempt(_), Reply::Flag(true)) => {
            list.push(operation(thread, index, false, true))?;
        }
        _ => {}
    }
    Ok(())
}

// The number after this one, where there is one.
fn number_after(number: u32) -> Result<u32, OutOfMemory>
    ensures { IfOk result (λ next. next ≡ number + 1) }
{
    match number.checked_add(1) {
        Some(next) => Ok(next),
        None => Err(OutOfMemory),
    }
}

// The operations of a thread with this record.
fn operations_of(alloc: Global, thread: u32, items: &Items) -> Result<OwnOperations, OutOfMemory>
    ensures { IfOk result (λ list. list ≡ map own (operations_from thread 0 items.now)) }
{
    let mut list = Vec::new(alloc);
    let mut next = 0;
    for item in items.iter() {
        if let Item::Did(action, reply) = item {
            push_accesses(thread, next, action, reply, &mut list)?;
            next = number_after(next)?;
        }
    }
    Ok(Listing::from_vec(list))
}

/// Those of each thread of the journal, by number.
pub fn all_operations(alloc: Global, journal: &Journal) -> Result<Vec<OwnOperations>, OutOfMemory>
    requires { length journal.now.strands ≡ journal.now.threads }
    ensures { IfOk result (λ lists. AreOwn journal.now lists.items) }
{
    let strands = journal.strands.as_slice();
    let mut lists = Vec::new(alloc);
    for thread in 0..journal.threads {
        lists.push(operations_of(alloc, thread, &strands[thread as usize].items)?)?;
    }
    Ok(lists)
}
