//! Small journals with their orders, and orders that are not consistent.

use crate::given::is_consistent;
use crate::journals::{
    begin, buffering, finish, forwarding, legal_histories, read, read_of, variable, write,
};
use block_layout::{Kind, SharedPtr};
use std::alloc::{AllocError as OutOfMemory, Global};
use std::test::Fail;
use upc_values::{
    Action, End, Entries, Item, Items, Journal, Listing, Mark, Op, Order, Orders, Reply, Scalar,
    Strand, blank,
};
use upc_verify_orders::operations_of;

// The name of an operation: its thread, the number of its action there, and whether it writes or reads.
type Named = (u32, u32, char);

fn strand(alloc: Global, items: Vec<Item>) -> Result<Strand, OutOfMemory> {
    Ok(Strand {
        items: Items::from_vec(alloc, items)?,
        ticks: 0,
        end: End::Ended(0),
    })
}

// The journal of two threads with these records, without its history.
fn journal_of(alloc: Global, records: Vec<Vec<Item>>) -> Result<Journal, OutOfMemory> {
    let mut strands = Vec::new(alloc);
    for items in records {
        strands.push(strand(alloc, items)?)?;
    }
    Ok(Journal {
        threads: 2,
        budget: 1,
        actions: 100,
        strands: Listing::from_vec(strands),
        history: Entries::new(alloc),
    })
}

// The write, or else the read, by a thread's action of this number.
fn op(name: &Named) -> Op {
    Op {
        thread: name.0,
        index: name.1,
        write: name.2 == 'w',
    }
}

fn order(alloc: Global, names: &[Named]) -> Result<Order, OutOfMemory> {
    let mut list = Vec::new(alloc);
    for name in names {
        list.push(op(name))?;
    }
    Ok(Listing::from_vec(list))
}

fn orders(
    alloc: Global,
    strict: &[Named],
    first: &[Named],
    second: &[Named],
) -> Result<Orders, OutOfMemory> {
    let mut threads = Vec::new(alloc);
    threads.push(order(alloc, first)?)?;
    threads.push(order(alloc, second)?)?;
    Ok(Orders {
        strict: order(alloc, strict)?,
        threads: Listing::from_vec(threads),
    })
}

// Of the history 0.0 1.0 0.1 1.1 0.3 1.3 0.2 0.4 1.2 1.4 0.5 1.5.
const STRICT: [Named; 8] = [
    (0, 0, 'w'),
    (1, 0, 'w'),
    (0, 1, 'r'),
    (1, 1, 'r'),
    (0, 4, 'w'),
    (1, 4, 'w'),
    (0, 5, 'r'),
    (1, 5, 'r'),
];

const FIRST: [Named; 11] = [
    (0, 0, 'w'),
    (1, 0, 'w'),
    (0, 1, 'r'),
    (1, 1, 'r'),
    (0, 3, 'r'),
    (0, 2, 'w'),
    (0, 4, 'w'),
    (1, 2, 'w'),
    (1, 4, 'w'),
    (0, 5, 'r'),
    (1, 5, 'r'),
];

const SECOND: [Named; 11] = [
    (0, 0, 'w'),
    (1, 0, 'w'),
    (0, 1, 'r'),
    (1, 1, 'r'),
    (1, 3, 'r'),
    (0, 2, 'w'),
    (0, 4, 'w'),
    (1, 2, 'w'),
    (1, 4, 'w'),
    (0, 5, 'r'),
    (1, 5, 'r'),
];

// Thread 1's read stands after thread 0's write.
const LATE: [Named; 11] = [
    (0, 0, 'w'),
    (1, 0, 'w'),
    (0, 1, 'r'),
    (1, 1, 'r'),
    (0, 2, 'w'),
    (1, 3, 'r'),
    (0, 4, 'w'),
    (1, 2, 'w'),
    (1, 4, 'w'),
    (0, 5, 'r'),
    (1, 5, 'r'),
];

// The last two notifies stand the other way round.
const TURNED: [Named; 11] = [
    (0, 0, 'w'),
    (1, 0, 'w'),
    (0, 1, 'r'),
    (1, 1, 'r'),
    (1, 3, 'r'),
    (0, 2, 'w'),
    (1, 2, 'w'),
    (1, 4, 'w'),
    (0, 4, 'w'),
    (0, 5, 'r'),
    (1, 5, 'r'),
];

// Thread 1's write stands after its notify.
const PASSED: [Named; 11] = [
    (0, 0, 'w'),
    (1, 0, 'w'),
    (0, 1, 'r'),
    (1, 1, 'r'),
    (1, 3, 'r'),
    (0, 2, 'w'),
    (0, 4, 'w'),
    (1, 4, 'w'),
    (1, 2, 'w'),
    (0, 5, 'r'),
    (1, 5, 'r'),
];

// Whether the orders make the buffered writes consistent, where x begins with a value.
fn buffered_so(
    alloc: Global,
    reads: [i128; 2],
    begins: i128,
    strict: &[Named],
    second: &[Named],
) -> Result<bool, OutOfMemory> {
    let journal = journal_of(alloc, buffering(alloc, false, reads)?)?;
    let orders = orders(alloc, strict, &FIRST, second)?;
    let initials = [(variable(1), Scalar::Int(begins))];
    is_consistent(alloc, &journal, &initials, &orders)
}

// Reads, what x begins with, the strict order, thread 1's order, and whether they are consistent.
const BUFFERED: [([i128; 2], i128, &[Named], &[Named], bool); 11] = [
    ([0, 0], 0, &STRICT, &SECOND, true),
    ([0, 0], 5, &STRICT, &SECOND, false),
    ([0, 5], 5, &STRICT, &SECOND, true),
    ([0, 1], 0, &STRICT, &SECOND, false),
    ([0, 1], 0, &STRICT, &LATE, true),
    ([0, 0], 0, &STRICT, &LATE, false),
    ([0, 0], 0, &STRICT, &TURNED, false),
    ([0, 0], 0, &STRICT, &PASSED, false),
    ([0, 0], 0, &STRICT, &FIRST, false),
    ([0, 0], 0, &STRICT, &STRICT, false),
    ([0, 0], 0, &FIRST, &SECOND, false),
];

#[test]
fn buffered_writes(rt: HostRuntime) -> Result<(), Fail> {
    for (reads, begins, strict, second, consistent) in &BUFFERED {
        let answer = buffered_so(rt.alloc(), *reads, *begins, strict, second)?;
        assert_eq!(rt; answer, *consistent);
    }
    Ok(())
}

// Of the history 0.0 1.0 0.1 1.1 1.2 1.3 0.2 0.4 0.5 1.4: thread 0's read stands after its write, which it has read
// from the buffer.
const STRICT_FORWARDED: [Named; 8] = [
    (0, 0, 'w'),
    (1, 0, 'w'),
    (0, 1, 'r'),
    (1, 1, 'r'),
    (1, 3, 'w'),
    (0, 4, 'w'),
    (0, 5, 'r'),
    (1, 4, 'r'),
];

const FIRST_FORWARDED: [Named; 11] = [
    (0, 0, 'w'),
    (1, 0, 'w'),
    (0, 1, 'r'),
    (1, 1, 'r'),
    (1, 2, 'w'),
    (1, 3, 'w'),
    (0, 2, 'w'),
    (0, 3, 'r'),
    (0, 4, 'w'),
    (0, 5, 'r'),
    (1, 4, 'r'),
];

const SECOND_FORWARDED: [Named; 10] = [
    (0, 0, 'w'),
    (1, 0, 'w'),
    (0, 1, 'r'),
    (1, 1, 'r'),
    (1, 2, 'w'),
    (1, 3, 'w'),
    (0, 2, 'w'),
    (0, 4, 'w'),
    (0, 5, 'r'),
    (1, 4, 'r'),
];

// Whether these orders are consistent where thread 0 reads a value.
fn forwarded_so(alloc: Global, value: i128) -> Result<bool, OutOfMemory> {
    let journal = journal_of(alloc, forwarding(alloc, value)?)?;
    let orders = orders(
        alloc,
        &STRICT_FORWARDED,
        &FIRST_FORWARDED,
        &SECOND_FORWARDED,
    )?;
    is_consistent(alloc, &journal, &[], &orders)
}

#[test]
fn forwarded_read(rt: HostRuntime) -> Result<(), Fail> {
    assert!(rt; forwarded_so(rt.alloc(), 1)?);
    assert!(rt; !forwarded_so(rt.alloc(), 2)?);
    assert!(rt; !forwarded_so(rt.alloc(), 0)?);
    Ok(())
}

// Thread 0 reads variable 1, which nobody writes; all that is strict are the barriers around main.
const BARRIERS: [Named; 8] = [
    (0, 0, 'w'),
    (1, 0, 'w'),
    (0, 1, 'r'),
    (1, 1, 'r'),
    (0, 3, 'w'),
    (1, 2, 'w'),
    (0, 4, 'r'),
    (1, 3, 'r'),
];

const READING: [Named; 9] = [
    (0, 0, 'w'),
    (1, 0, 'w'),
    (0, 1, 'r'),
    (1, 1, 'r'),
    (0, 2, 'r'),
    (0, 3, 'w'),
    (1, 2, 'w'),
    (0, 4, 'r'),
    (1, 3, 'r'),
];

// The journal in which thread 0 reads a value of variable 1.
fn reading(alloc: Global, value: Scalar) -> Result<Journal, OutOfMemory> {
    let mut first = begin(alloc)?;
    first.push(read_of(1, value, false))?;
    finish(&mut first)?;
    let mut second = begin(alloc)?;
    finish(&mut second)?;
    let mut records = Vec::new(alloc);
    records.push(first)?;
    records.push(second)?;
    journal_of(alloc, records)
}

// Whether a cell of a kind may be read so.
fn begins_so(alloc: Global, kind: Kind, value: Scalar) -> Result<bool, OutOfMemory> {
    let journal = reading(alloc, value)?;
    let orders = orders(alloc, &BARRIERS, &READING, &BARRIERS)?;
    is_consistent(alloc, &journal, &[(variable(1), blank(kind))], &orders)
}

const NULL: Scalar = Scalar::Shared(SharedPtr::NULL);

// A kind, a value, and whether a cell of the kind begins with it.
const BLANK: [(Kind, Scalar, bool); 7] = [
    (Kind::Int, Scalar::Int(0), true),
    (Kind::Int, NULL, false),
    (Kind::Shared(0, 1), NULL, true),
    (Kind::Shared(0, 1), Scalar::Int(0), false),
    (Kind::Lock, Scalar::Lock(0), true),
    (Kind::Lock, Scalar::Lock(1), false),
    (Kind::Lock, Scalar::Int(0), false),
];

// A cell that no initial value is given begins with 0, one of pointers or locks with null.
#[test]
fn cells_begin_blank(rt: HostRuntime) -> Result<(), Fail> {
    for (kind, value, consistent) in &BLANK {
        assert_eq!(rt; begins_so(rt.alloc(), *kind, *value)?, *consistent);
    }
    Ok(())
}

// The order in which bit k of the mask is the thread of the k-th of twelve operations, six of each thread.
fn merged(alloc: Global, mask: u32) -> Result<Vec<Named>, OutOfMemory> {
    let mut firsts = 0..6;
    let mut seconds = 0..6;
    let mut list = Vec::new(alloc);
    let mut rest = mask;
    for _ in 0..12 {
        let thread = rest % 2;
        rest /= 2;
        let next = if thread == 1 {
            seconds.next()
        } else {
            firsts.next()
        };
        if let Some(index) = next {
            let kind = if index % 2 == 0 { 'w' } else { 'r' };
            list.push((thread, index, kind))?;
        }
    }
    Ok(list)
}

// Whether the order by a mask, of all twelve strict operations, is consistent.
fn is_order_by(alloc: Global, journal: &Journal, mask: u32) -> Result<bool, OutOfMemory> {
    let list = merged(alloc, mask)?;
    let names = list.as_slice();
    let orders = orders(alloc, names, names, names)?;
    Ok(names.len() == 12 && is_consistent(alloc, journal, &[], &orders)?)
}

// How many of the orders of all twelve strict operations are consistent.
fn consistent_orders(alloc: Global, journal: &Journal) -> Result<u32, OutOfMemory> {
    let mut found: u32 = 0;
    for mask in 0..4096 {
        if is_order_by(alloc, journal, mask)? {
            found = found.saturating_add(1);
        }
    }
    Ok(found)
}

// How many histories of strict variables with these reads are legal, and how many orders are consistent.
fn counts(alloc: Global, reads: [i128; 2]) -> Result<(u32, u32), OutOfMemory> {
    let records = buffering(alloc, true, reads)?;
    let legal = legal_histories(alloc, records.as_slice())?;
    let journal = journal_of(alloc, records)?;
    Ok((legal, consistent_orders(alloc, &journal)?))
}

// What both threads read, and whether they may.
const STRICT_READS: [([i128; 2], bool); 4] = [
    ([0, 0], false),
    ([0, 1], true),
    ([1, 0], true),
    ([1, 1], true),
];

// With strict variables no legal history, and no consistent order, has both reads 0.
#[test]
fn strict_variables(rt: HostRuntime) -> Result<(), Fail> {
    for (reads, some) in &STRICT_READS {
        let (legal, consistent) = counts(rt.alloc(), *reads)?;
        assert!(rt; (legal > 0) == *some && (consistent > 0) == *some);
    }
    Ok(())
}

// An item of each kind that is an operation or is none, by number.
fn item(number: u32) -> Item {
    match number {
        0 => Item::Did(Action::Fence, Reply::Done),
        1 => Item::Stall,
        2 => Item::Did(Action::Lock(1), Reply::Done),
        3 => Item::Did(Action::Attempt(2), Reply::Flag(true)),
        4 => Item::Did(Action::Attempt(2), Reply::Flag(false)),
        5 => Item::Did(Action::Unlock(1), Reply::Done),
        6 => Item::Did(Action::Beat, Reply::Done),
        7 => Item::Did(Action::Wait(Mark::Absent), Reply::Refused(9)),
        8 => write(1, 7, false),
        _ => read(1, 7, true),
    }
}

// The journal of one thread with these ten items.
fn one_of_each(alloc: Global) -> Result<Journal, OutOfMemory> {
    let mut items = Vec::new(alloc);
    for number in 0..10 {
        items.push(item(number))?;
    }
    let mut records = Vec::new(alloc);
    records.push(items)?;
    journal_of(alloc, records)
}

// The operations of these items, each with whether it is strict.
const OPERATIONS: [(Named, bool); 7] = [
    ((0, 0, 'w'), true),
    ((0, 0, 'r'), true),
    ((0, 1, 'r'), true),
    ((0, 2, 'r'), true),
    ((0, 4, 'w'), true),
    ((0, 7, 'w'), false),
    ((0, 8, 'r'), true),
];

// A fence is a strict write, then a strict read; what was refused, and an attempt that failed, is no operation.
#[test]
fn operations_of_actions(rt: HostRuntime) -> Result<(), Fail> {
    let journal = one_of_each(rt.alloc())?;
    let list = operations_of(rt.alloc(), &journal)?;
    assert_eq!(rt; list.len(), 7);
    for (operation, (name, strict)) in list.iter().zip(&OPERATIONS) {
        assert!(rt; operation.is_named(op(name)));
        assert_eq!(rt; operation.is_strict(), *strict);
    }
    Ok(())
}
