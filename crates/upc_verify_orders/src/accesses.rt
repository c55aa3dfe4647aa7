//! The operations of a journal.

ghost use Rattle.std.specs.Prelude.{◌≡◌, [], ◌∷◌, ◌++◌, ◌↔◌, IfOk, OnOk};
ghost use Rattle.upc_values.specs.Lists.{Has};
ghost use Rattle.upc_values.specs.Operations as operations;
ghost use Rattle.upc_values.specs.Operations.{Operation};
ghost use Rattle.upc_values.specs.Orders.{operations_from, record_of, IsOf};
ghost use Rattle.upc_verify_orders.specs.code.Below.{operations_below};

use crate::operation::Operation;
use crate::place::Place;
use std::alloc::{AllocError as OutOfMemory, Global};
use upc_values::{Action, Item, Items, Journal, Reply, Scalar};

const ZERO: Scalar = Scalar::Int(0);

// An implied strict read.
fn read_sync(thread: usize, index: usize) -> Operation
    ensures { operations.operations_by thread index operations.Reads_sync ≡ result ∷ [] }
{
    Operation::read_at(thread, index, Place::Sync, true, ZERO)
}

// An implied strict write.
fn write_sync(thread: usize, index: usize) -> Operation
    ensures { operations.operations_by thread index operations.Writes_sync ≡ result ∷ [] }
{
    Operation::write_at(thread, index, Place::Sync, true, ZERO)
}

// Adds the operations of a thread's action with its reply.
fn push_accesses(
    thread: usize,
    index: usize,
    action: &Action,
    reply: &Reply,
    list: &mut Vec<Operation>,
) -> Result<(), OutOfMemory>
    ensures { OnOk result (list.new.items ≡ list.old.items
        ++ operations.accesses_of thread index action.now reply.now) }
{
    if let Reply::Refused(_) = reply {
        return Ok(());
    }
    match action {
        Action::Read { loc, strict } => {
            if let Reply::Value(value) = reply {
                list.push(Operation::read_at(thread, index, Place::Cell(*loc), *strict, *value))?;
            }
        }
        Action::Write { loc, value, strict } => {
            list.push(Operation::write_at(thread, index, Place::Cell(*loc), *strict, *value))?;
        }
        Action::Fence => {
            list.push(write_sync(thread, index))?;
            list.push(read_sync(thread, index))?;
        }
        Action::Notify(_) | Action::Unlock(_) => list.push(write_sync(thread, index))?,
        Action::Wait(_) | Action::Lock(_) => list.push(read_sync(thread, index))?,
        Action::Attempt(_) => {
            if let Reply::Flag(true) = reply {
                list.push(read_sync(thread, index))?;
            }
        }
        _ => {}
    }
    Ok(())
}

// Adds the operations of a thread's items.
fn push_items(thread: usize, items: &Items, list: &mut Vec<Operation>) -> Result<(), OutOfMemory>
    ensures { OnOk result (list.new.items ≡ list.old.items ++ operations_from thread 0 items.now) }
{
    list.reserve(items.len())?;
    let mut next = 0;
    for item in items.iter() {
        if let Item::Did(action, reply) = item {
            push_accesses(thread, next, action, reply, list)?;
            next += 1;
        }
    }
    Ok(())
}

// Adds the operations of a thread of the journal.
fn push_thread(
    journal: &Journal,
    thread: usize,
    list: &mut Vec<Operation>,
) -> Result<(), OutOfMemory>
    ensures { OnOk result (list.new.items ≡ list.old.items ++ operations_from thread 0 (record_of journal.now thread)) }
{
    match journal.strands.as_slice().get(thread) {
        Some(strand) => push_items(thread, &strand.items, list),
        None => Ok(()),
    }
}

/// The operations of a journal, those of thread 0 first, each thread's in program order.
pub fn operations_of(alloc: Global, journal: &Journal) -> Result<Vec<Operation>, OutOfMemory>
    ensures in_order { IfOk result (λ list. list.items ≡ operations_below journal.now journal.now.threads) }
    ensures all { IfOk result (λ list. (o : Operation) → Has list.items o ↔ IsOf journal.now o) }
{
    let mut list = Vec::new(alloc);
    for thread in 0..journal.threads {
        push_thread(journal, thread as usize, &mut list)?;
    }
    Ok(list)
}
