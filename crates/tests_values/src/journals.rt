//! Small journals, by plain search: what the definitions call legal and consistent.

use crate::plain::{Name, Operation, global_order, is_consistent, is_legal, thread_order};
use block_layout::Loc;
use std::alloc::{AllocError as OutOfMemory, Global};
use std::test::Fail;
use upc_values::{Action, Item, Mark, Reply, Scalar};

pub fn variable(object: u32) -> Loc {
    Loc {
        object,
        thread: 0,
        offset: 0,
    }
}

pub fn write(object: u32, value: i128, strict: bool) -> Item {
    let action = Action::Write {
        loc: variable(object),
        value: Scalar::Int(value),
        strict,
    };
    Item::Did(action, Reply::Done)
}

pub fn read(object: u32, value: i128, strict: bool) -> Item {
    read_of(object, Scalar::Int(value), strict)
}

pub fn read_of(object: u32, value: Scalar, strict: bool) -> Item {
    let action = Action::Read {
        loc: variable(object),
        strict,
    };
    Item::Did(action, Reply::Value(value))
}

/// What each thread does before `main`.
pub fn begin(alloc: Global) -> Result<Vec<Item>, OutOfMemory> {
    let mut items = Vec::new(alloc);
    items.push(Item::Did(Action::Notify(Mark::Start), Reply::Done))?;
    items.push(Item::Did(Action::Wait(Mark::Start), Reply::Done))?;
    Ok(items)
}

/// What each thread does after `main`.
pub fn finish(items: &mut Vec<Item>) -> Result<(), OutOfMemory> {
    items.push(Item::Did(Action::Notify(Mark::Finish), Reply::Done))?;
    items.push(Item::Did(Action::Wait(Mark::Finish), Reply::Done))?;
    Ok(())
}

/// Each of two threads writes 1 to its own variable and then reads the other's.
pub fn buffering(
    alloc: Global,
    strict: bool,
    reads: [i128; 2],
) -> Result<Vec<Vec<Item>>, OutOfMemory> {
    let mut records = Vec::new(alloc);
    for (own, other, value) in [(1, 2, reads[0]), (2, 1, reads[1])] {
        let mut items = begin(alloc)?;
        items.push(write(own, 1, strict))?;
        items.push(read(other, value, strict))?;
        finish(&mut items)?;
        records.push(items)?;
    }
    Ok(records)
}

/// Thread 0 writes 1 to a variable and reads it, thread 1 writes 2 to it.
pub fn forwarding(alloc: Global, value: i128) -> Result<Vec<Vec<Item>>, OutOfMemory> {
    let mut first = begin(alloc)?;
    first.push(write(1, 1, false))?;
    first.push(read(1, value, false))?;
    finish(&mut first)?;
    let mut second = begin(alloc)?;
    second.push(write(1, 2, false))?;
    finish(&mut second)?;
    let mut records = Vec::new(alloc);
    records.push(first)?;
    records.push(second)?;
    Ok(records)
}

fn names(alloc: Global, list: &[(usize, usize)]) -> Result<Vec<Name>, OutOfMemory> {
    let mut names = Vec::new(alloc);
    for (thread, index) in list {
        names.push(Name {
            thread: *thread,
            index: *index,
        })?;
    }
    Ok(names)
}

/// The names of operations.
fn names_of(alloc: Global, order: &[Operation]) -> Result<Vec<Name>, OutOfMemory> {
    let mut names = Vec::new(alloc);
    for o in order {
        names.push(o.name)?;
    }
    Ok(names)
}

/// The names of thread 0's order.
fn first_order(
    alloc: Global,
    small: Small,
    list: &[(usize, usize)],
) -> Result<Vec<Name>, OutOfMemory> {
    let history = names(alloc, list)?;
    let records = records_of(alloc, small)?;
    let order = global_order(alloc, records.as_slice(), history.as_slice())?;
    let shown = thread_order(alloc, order.as_slice(), 0)?;
    names_of(alloc, shown.as_slice())
}

/// Twelve entries, six of each thread: bit k of the mask is the thread of entry k.
fn merged(alloc: Global, mask: u32) -> Result<Vec<Name>, OutOfMemory> {
    let mut firsts = 0..6;
    let mut seconds = 0..6;
    let mut history = Vec::new(alloc);
    let mut rest = mask;
    for _ in 0..12 {
        let thread = if rest % 2 == 1 { 1 } else { 0 };
        rest /= 2;
        let next = if thread == 1 {
            seconds.next()
        } else {
            firsts.next()
        };
        if let Some(index) = next {
            history.push(Name { thread, index })?;
        }
    }
    Ok(history)
}

/// How many of the histories that take these records of six items as they stand are legal.
pub fn legal_histories(alloc: Global, records: &[Vec<Item>]) -> Result<u32, OutOfMemory> {
    let mut found: u32 = 0;
    for mask in 0..4096 {
        let history = merged(alloc, mask)?;
        if history.len() == 12 && is_legal(alloc, records, history.as_slice())? {
            found = found.saturating_add(1);
        }
    }
    Ok(found)
}

const BUFFERED: [(usize, usize); 12] = [
    (0, 0),
    (1, 0),
    (0, 1),
    (1, 1),
    (0, 3),
    (1, 3),
    (0, 2),
    (0, 4),
    (1, 2),
    (1, 4),
    (0, 5),
    (1, 5),
];

const AT_ONCE: [(usize, usize); 12] = [
    (0, 0),
    (1, 0),
    (0, 1),
    (1, 1),
    (0, 2),
    (0, 3),
    (1, 2),
    (1, 3),
    (0, 4),
    (1, 4),
    (0, 5),
    (1, 5),
];

const FORWARDED: [(usize, usize); 10] = [
    (0, 0),
    (1, 0),
    (0, 1),
    (1, 1),
    (1, 2),
    (1, 3),
    (0, 2),
    (0, 4),
    (0, 5),
    (1, 4),
];

// The records of a small run.
#[derive(Clone, Copy)]
enum Small {
    // The reads of `buffering`, where all is relaxed and where all is strict.
    Relaxed([i128; 2]),
    Strict([i128; 2]),
    // The read of `forwarding`.
    Forwarding(i128),
}

fn records_of(alloc: Global, small: Small) -> Result<Vec<Vec<Item>>, OutOfMemory> {
    match small {
        Small::Relaxed(reads) => buffering(alloc, false, reads),
        Small::Strict(reads) => buffering(alloc, true, reads),
        Small::Forwarding(value) => forwarding(alloc, value),
    }
}

// Whether a history of these records is legal, and whether it makes them consistent.
fn judged(
    alloc: Global,
    small: Small,
    list: &[(usize, usize)],
) -> Result<(bool, bool), OutOfMemory> {
    let history = names(alloc, list)?;
    let records = records_of(alloc, small)?;
    let legal = is_legal(alloc, records.as_slice(), history.as_slice())?;
    let consistent = is_consistent(alloc, records.as_slice(), history.as_slice())?;
    Ok((legal, consistent))
}

// Records, a history, and whether it is legal and consistent.
const JUDGED: [(Small, &[(usize, usize)], bool, bool); 8] = [
    (Small::Relaxed([0, 0]), &BUFFERED, true, true),
    (Small::Relaxed([1, 0]), &BUFFERED, false, false),
    (Small::Relaxed([0, 0]), &AT_ONCE, false, false),
    (Small::Relaxed([0, 1]), &AT_ONCE, true, true),
    (Small::Strict([0, 1]), &AT_ONCE, true, true),
    (Small::Strict([0, 0]), &BUFFERED, true, false),
    (Small::Forwarding(1), &FORWARDED, true, true),
    (Small::Forwarding(2), &FORWARDED, true, false),
];

#[test]
fn small_journals(rt: HostRuntime) -> Result<(), Fail> {
    for (small, list, legal, consistent) in &JUDGED {
        assert!(rt; judged(rt.alloc(), *small, list)? == (*legal, *consistent));
    }
    Ok(())
}

// The order of thread 0 where it reads its own pending write.
const OWN: [(usize, usize); 11] = [
    (0, 0),
    (1, 0),
    (0, 1),
    (1, 1),
    (1, 2),
    (1, 3),
    (0, 2),
    (0, 3),
    (0, 4),
    (0, 5),
    (1, 4),
];

#[test]
fn orders_of_thread_0(rt: HostRuntime) -> Result<(), Fail> {
    let alloc = rt.alloc();
    let order = first_order(alloc, Small::Forwarding(1), &FORWARDED)?;
    assert!(rt; order == names(alloc, &OWN)?);
    let order = first_order(alloc, Small::Relaxed([0, 0]), &BUFFERED)?;
    assert_eq!(rt; order.len(), 11);
    Ok(())
}
