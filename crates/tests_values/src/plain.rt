//! Operations, orders and consistency of small journals, by plain search. A journal here is each thread's items, of
//! which none is a Stall, and the names of the history's entries.

use block_layout::Loc;
use std::alloc::{AllocError as OutOfMemory, Global};
use upc_values::{Action, Item, Reply, Scalar};

/// An action: its thread, and its number there.
#[derive(Clone, Copy, PartialEq, Eq)]
pub struct Name {
    pub thread: usize,
    pub index: usize,
}

/// A read or a write; the implied strict ones have no location.
#[derive(Clone, Copy)]
pub struct Operation {
    pub name: Name,
    pub write: bool,
    pub strict: bool,
    pub place: Option<Loc>,
    pub value: Scalar,
}

fn item_at(records: &[Vec<Item>], name: Name) -> Option<&Item> {
    match records.get(name.thread) {
        Some(items) => items.get(name.index),
        None => None,
    }
}

/// The location that the item reads or writes, with the value.
fn access_of(item: &Item) -> Option<(Loc, Scalar)> {
    match item {
        Item::Did(Action::Read { loc, .. }, Reply::Value(value)) => Some((*loc, *value)),
        Item::Did(Action::Write { loc, value, .. }, _) => Some((*loc, *value)),
        _ => None,
    }
}

fn is_write(item: &Item) -> bool {
    matches!(item, Item::Did(Action::Write { .. }, _))
}

fn is_relaxed_read(item: &Item) -> bool {
    matches!(item, Item::Did(Action::Read { strict: false, .. }, _))
}

fn is_read(item: &Item) -> bool {
    matches!(item, Item::Did(Action::Read { .. }, _))
}

fn is_notify(item: &Item) -> bool {
    matches!(item, Item::Did(Action::Notify(_), _))
}

fn is_wait(item: &Item) -> bool {
    matches!(item, Item::Did(Action::Wait(_), _))
}

fn writes_to(item: &Item, loc: Loc) -> Option<Scalar> {
    match access_of(item) {
        Some((place, value)) if is_write(item) && place == loc => Some(value),
        _ => None,
    }
}

/// The value of the last of these actions that writes the location, else 0.
fn last_value(records: &[Vec<Item>], before: &[Name], loc: Loc) -> Scalar {
    let mut last = Scalar::Int(0);
    for name in before {
        if let Some(item) = item_at(records, *name) {
            last = writes_to(item, loc).unwrap_or(last);
        }
    }
    last
}

/// How many of these are notifies, or else waits, of the thread.
fn how_many(records: &[Vec<Item>], before: &[Name], thread: usize, notify: bool) -> usize {
    let mut n: usize = 0;
    for name in before {
        if let Some(item) = item_at(records, *name) {
            if name.thread == thread
                && (if notify {
                    is_notify(item)
                } else {
                    is_wait(item)
                })
            {
                n = n.saturating_add(1);
            }
        }
    }
    n
}

/// Each thread has notified more often than so many.
fn all_notified(records: &[Vec<Item>], before: &[Name], waits: usize) -> bool {
    for thread in 0..records.len() {
        if how_many(records, before, thread, true) <= waits {
            return false;
        }
    }
    true
}

/// The action's reply is the lawful one after these actions.
fn is_lawful(records: &[Vec<Item>], before: &[Name], name: Name) -> bool {
    match item_at(records, name) {
        None => false,
        Some(item) if is_wait(item) => {
            all_notified(
                records,
                before,
                how_many(records, before, name.thread, false),
            )
        }
        Some(item) => match access_of(item) {
            Some((loc, value)) if is_read(item) => last_value(records, before, loc) == value,
            _ => true,
        },
    }
}

/// Each action's reply is the lawful one after those before it.
pub fn is_legal(
    alloc: Global,
    records: &[Vec<Item>],
    history: &[Name],
) -> Result<bool, OutOfMemory> {
    let mut before = Vec::new(alloc);
    for name in history {
        if !is_lawful(records, before.as_slice(), *name) {
            return Ok(false);
        }
        before.push(*name)?;
    }
    Ok(true)
}

fn make_operation(
    name: Name,
    write: bool,
    strict: bool,
    place: Option<Loc>,
    value: Scalar,
) -> Operation {
    Operation {
        name,
        write,
        strict,
        place,
        value,
    }
}

/// Adds the operations of an item.
fn push_own(name: Name, item: &Item, order: &mut Vec<Operation>) -> Result<(), OutOfMemory> {
    let zero = Scalar::Int(0);
    match item {
        Item::Did(_, Reply::Refused(_)) => {}
        Item::Did(Action::Read { loc, strict }, Reply::Value(value)) => {
            order.push(make_operation(name, false, *strict, Some(*loc), *value))?;
        }
        Item::Did(Action::Write { loc, value, strict }, _) => {
            order.push(make_operation(name, true, *strict, Some(*loc), *value))?;
        }
        Item::Did(Action::Fence, _) => {
            order.push(make_operation(name, true, true, None, zero))?;
            order.push(make_operation(name, false, true, None, zero))?;
        }
        Item::Did(Action::Notify(_), _) | Item::Did(Action::Unlock(_), _) => {
            order.push(make_operation(name, true, true, None, zero))?;
        }
        Item::Did(Action::Wait(_), _)
        | Item::Did(Action::Lock(_), _)
        | Item::Did(Action::Attempt(_), Reply::Flag(true)) => {
            order.push(make_operation(name, false, true, None, zero))?;
        }
        _ => {}
    }
    Ok(())
}

/// The last write of the location before this place in a record.
fn last_write(items: &[Item], place: usize, loc: Loc) -> Option<usize> {
    let mut last = None;
    for (index, item) in items.iter().enumerate() {
        if index < place && writes_to(item, loc).is_some() {
            last = Some(index);
        }
    }
    last
}

/// The item at this place is a relaxed read whose location the action last wrote.
fn reads_from(items: &[Item], place: usize, source: usize) -> bool {
    match items.get(place) {
        Some(item) if is_relaxed_read(item) => match access_of(item) {
            Some((loc, _)) => last_write(items, place, loc) == Some(source),
            None => false,
        },
        _ => false,
    }
}

fn is_among(names: &[Name], name: Name) -> bool {
    for other in names {
        if *other == name {
            return true;
        }
    }
    false
}

/// Adds the reads that a pending write has answered: those of its location that are no entries, up to its next write.
fn push_forwarded(
    records: &[Vec<Item>],
    history: &[Name],
    source: Name,
    order: &mut Vec<Operation>,
) -> Result<(), OutOfMemory> {
    if let Some(items) = records.get(source.thread) {
        for (index, item) in items.iter().enumerate() {
            let name = Name {
                thread: source.thread,
                index,
            };
            if reads_from(items.as_slice(), index, source.index) && !is_among(history, name) {
                push_own(name, item, order)?;
            }
        }
    }
    Ok(())
}

/// The history with each entry replaced by its operations.
pub fn global_order(
    alloc: Global,
    records: &[Vec<Item>],
    history: &[Name],
) -> Result<Vec<Operation>, OutOfMemory> {
    let mut order = Vec::new(alloc);
    for name in history {
        if let Some(item) = item_at(records, *name) {
            push_own(*name, item, &mut order)?;
            push_forwarded(records, history, *name, &mut order)?;
        }
    }
    Ok(order)
}

/// A thread's own operations, all writes and all strict reads.
pub fn thread_order(
    alloc: Global,
    order: &[Operation],
    thread: usize,
) -> Result<Vec<Operation>, OutOfMemory> {
    let mut shown = Vec::new(alloc);
    for o in order {
        if o.name.thread == thread || o.write || o.strict {
            shown.push(*o)?;
        }
    }
    Ok(shown)
}

/// Program order: by number, in a fence the write first.
fn is_before(a: &Operation, b: &Operation) -> bool {
    a.name.index < b.name.index || (a.name.index == b.name.index && a.write && !b.write)
}

fn conflict(a: &Operation, b: &Operation) -> bool {
    a.strict || b.strict || (a.place == b.place && (a.write || b.write))
}

/// What stands after an operation of a thread is not before it in program order, where they conflict.
fn keeps_program(first: &Operation, behind: &[Operation]) -> bool {
    for o in behind {
        if o.name.thread == first.name.thread && conflict(first, o) && is_before(o, first) {
            return false;
        }
    }
    true
}

/// The value of the last of these writes of the place, else 0.
fn value_before(before: &[Operation], place: Option<Loc>) -> Scalar {
    let mut last = Scalar::Int(0);
    for o in before {
        if o.write && o.place == place {
            last = o.value;
        }
    }
    last
}

/// Each read of the order has the value of the last write before it.
fn reads_last(alloc: Global, order: &[Operation]) -> Result<bool, OutOfMemory> {
    let mut before: Vec<Operation> = Vec::new(alloc);
    for o in order {
        if !o.write && value_before(before.as_slice(), o.place) != o.value {
            return Ok(false);
        }
        before.push(*o)?;
    }
    Ok(true)
}

/// No two operations of a thread that conflict stand against program order. With the strict operations in the order of
/// the history, no order then stands against the strict order.
fn is_in_order(alloc: Global, order: &[Operation]) -> Result<bool, OutOfMemory> {
    let mut before: Vec<Operation> = Vec::new(alloc);
    for o in order {
        for first in before.iter() {
            if !keeps_program(first, &[*o]) {
                return Ok(false);
            }
        }
        before.push(*o)?;
    }
    Ok(true)
}

/// The orders of these records and this history make their operations UPC consistent (UPC Appendix B).
pub fn is_consistent(
    alloc: Global,
    records: &[Vec<Item>],
    history: &[Name],
) -> Result<bool, OutOfMemory> {
    let order = global_order(alloc, records, history)?;
    if !is_in_order(alloc, order.as_slice())? {
        return Ok(false);
    }
    for thread in 0..records.len() {
        let shown = thread_order(alloc, order.as_slice(), thread)?;
        if !reads_last(alloc, shown.as_slice())? {
            return Ok(false);
        }
    }
    Ok(true)
}
