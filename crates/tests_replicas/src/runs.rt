//! Runs by hand: what the threads read, what is delivered, and their orders.

ghost use Rattle.std.specs.Prelude.{◌≤◌};

use crate::play::{Answer, Asked, DONE, Line, X, Y, played};
use replica_space::{Deed, Event, Events};
use replica_space_walk::replica_orders;
use std::alloc::Global;
use upc_text::OutOfMemory;
use upc_values::{Order, Reply, Scalar};

const ZERO: Answer = Answer::Got(Reply::Value(Scalar::Int(0)));

const ONE: Answer = Answer::Got(Reply::Value(Scalar::Int(1)));

const TWO: Answer = Answer::Got(Reply::Value(Scalar::Int(2)));

const THREE: Answer = Answer::Got(Reply::Value(Scalar::Int(3)));

const LOCK: Answer = Answer::Got(Reply::Value(Scalar::Lock(1)));

const TAKEN: Answer = Answer::Got(Reply::Flag(false));

// The thread and the number of an action, and whether the operation is its write.
type Name = (u32, u32, bool);

// A read.
const R: bool = false;

// A write.
const W: bool = true;

// All lines of a run, and the order of the strict operations and that of each thread, which it has after `from` lines
// and after each further one.
struct Case {
    lines: &'static [Line],
    from: usize,
    strict: &'static [Name],
    orders: &'static [&'static [Name]],
}

const CASES: [Case; 4] = [
    // Threads 0 and 1 each write a location; thread 2 hears of the first write alone, and thread 3 of the second alone.
    // It makes no difference whether mail still waits in the end, or is delivered.
    Case {
        lines: &[
            (0, Asked::Write(X, 1), DONE),
            (1, Asked::Write(Y, 1), DONE),
            (2, Asked::Deliver(2, 0), Answer::Delivered),
            (2, Asked::Read(X), ONE),
            (2, Asked::Read(Y), ZERO),
            (3, Asked::Deliver(3, 1), Answer::Delivered),
            (3, Asked::Read(Y), ONE),
            (3, Asked::Read(X), ZERO),
            (0, Asked::Deliver(0, 1), Answer::Delivered),
            (1, Asked::Deliver(1, 0), Answer::Delivered),
            (2, Asked::Deliver(2, 1), Answer::Delivered),
            (3, Asked::Deliver(3, 0), Answer::Delivered),
        ],
        from: 8,
        strict: &[],
        orders: &[
            &[(0, 0, W), (1, 0, W)],
            &[(1, 0, W), (0, 0, W)],
            &[(0, 0, W), (2, 0, R), (2, 1, R), (1, 0, W)],
            &[(1, 0, W), (3, 0, R), (3, 1, R), (0, 0, W)],
        ],
    },
    // The same with strict accesses: thread 3 reads the first write too, and there is one order for all.
    Case {
        lines: &[
            (0, Asked::StrictWrite(X, 1), DONE),
            (2, Asked::StrictRead(X), ONE),
            (2, Asked::StrictRead(Y), ZERO),
            (1, Asked::StrictWrite(Y, 1), DONE),
            (3, Asked::StrictRead(Y), ONE),
            (3, Asked::StrictRead(X), ONE),
        ],
        from: 6,
        strict: STRICT,
        orders: &[STRICT, STRICT, STRICT, STRICT],
    },
    // After a barrier two threads write one location. Both stamps have clock 1, so that of thread 1 is the later one.
    Case {
        lines: &[
            (0, Asked::Notify, DONE),
            (1, Asked::Notify, DONE),
            (0, Asked::Wait, DONE),
            (1, Asked::Wait, DONE),
            (0, Asked::Write(X, 1), DONE),
            (1, Asked::Write(X, 2), DONE),
            (0, Asked::Deliver(0, 1), Answer::Delivered),
            (1, Asked::Deliver(1, 0), Answer::Delivered),
            (0, Asked::Read(X), TWO),
            (1, Asked::Read(X), TWO),
        ],
        from: 10,
        strict: &[(0, 0, W), (1, 0, W), (0, 1, R), (1, 1, R)],
        orders: &[
            &[
                (0, 0, W),
                (1, 0, W),
                (0, 1, R),
                (1, 1, R),
                (0, 2, W),
                (1, 2, W),
                (0, 3, R),
            ],
            &[
                (0, 0, W),
                (1, 0, W),
                (0, 1, R),
                (1, 1, R),
                (0, 2, W),
                (1, 2, W),
                (1, 3, R),
            ],
        ],
    },
    // The first write by thread 1, of clock 1, stands between those by thread 0, of clocks 1 and 2, in whichever order
    // they are delivered. Thread 1 has then clock 2, so its second write, of clock 3, is the last one.
    Case {
        lines: &[
            (0, Asked::Write(X, 1), DONE),
            (0, Asked::Write(X, 2), DONE),
            (1, Asked::Write(X, 3), DONE),
            (0, Asked::Deliver(0, 1), Answer::Delivered),
            (0, Asked::Read(X), TWO),
            (1, Asked::Deliver(1, 0), Answer::Delivered),
            (1, Asked::Read(X), THREE),
            (1, Asked::Deliver(1, 0), Answer::Delivered),
            (1, Asked::Read(X), TWO),
            (1, Asked::Write(X, 1), DONE),
            (0, Asked::Deliver(0, 1), Answer::Delivered),
        ],
        from: 10,
        strict: &[],
        orders: &[
            &[(0, 0, W), (1, 0, W), (0, 1, W), (0, 2, R), (1, 3, W)],
            &[
                (0, 0, W),
                (1, 0, W),
                (1, 1, R),
                (0, 1, W),
                (1, 2, R),
                (1, 3, W),
            ],
        ],
    },
];

const STRICT: &[Name] = &[
    (0, 0, W),
    (2, 0, R),
    (2, 1, R),
    (1, 0, W),
    (3, 0, R),
    (3, 1, R),
];

// Whether the order has just these operations.
fn has_names(order: &Order, names: &[Name]) -> bool {
    let all = order.as_slice();
    all.len() == names.len()
        && all
            .iter()
            .zip(names)
            .all(|(op, name)| (op.thread, op.index, op.write) == *name)
}

// Whether each thread's order has just these.
fn have_names(orders: &[Order], threads: &[&[Name]]) -> bool {
    orders.len() == threads.len()
        && orders
            .iter()
            .zip(threads)
            .all(|(order, names)| has_names(order, names))
}

// Whether a run that goes by these lines has the orders of the case.
fn has_orders(alloc: Global, threads: u32, lines: &[Line], case: &Case) -> Result<bool, OutOfMemory>
    requires { (1 ≤ threads) × (threads ≤ 32) }
{
    let (wrong, journal) = played(alloc, threads, lines)?;
    let found = replica_orders(alloc, &journal)?;
    Ok(
        wrong.is_none()
            && has_names(&found.strict, case.strict)
            && have_names(found.threads.as_slice(), case.orders),
    )
}

// Whether the run has its orders after `from` of its lines and after each further one.
fn orders_stand(alloc: Global, case: &Case) -> Result<bool, OutOfMemory> {
    let threads = case.orders.len();
    if threads < 1 || threads > 32 || case.from > case.lines.len() {
        return Ok(false);
    }
    for count in case.from..=case.lines.len() {
        if !has_orders(alloc, threads as u32, &case.lines[..count], case)? {
            return Ok(false);
        }
    }
    Ok(true)
}

#[test]
fn orders_of_runs(rt: HostRuntime) -> Result<(), OutOfMemory> {
    for (number, case) in CASES.iter().enumerate() {
        assert!(rt; orders_stand(rt.alloc(), case)?, "{number}");
    }
    Ok(())
}

// How many threads a run has, and all its lines.
const REPLIES: [(u32, &[Line]); 4] = [
    // A lock that is held delivers nothing to who waits for it; an attempt, though in vain, and an unlock deliver all.
    (
        2,
        &[
            (0, Asked::LockMake, LOCK),
            (0, Asked::Lock(1), DONE),
            (0, Asked::Write(X, 1), DONE),
            (1, Asked::Lock(1), Answer::Disabled),
            (1, Asked::Read(X), ZERO),
            (1, Asked::Attempt(1), TAKEN),
            (1, Asked::Read(X), ONE),
            (0, Asked::Write(X, 2), DONE),
            (0, Asked::Unlock(1), DONE),
            (1, Asked::Read(X), TWO),
            (1, Asked::Lock(1), DONE),
            (1, Asked::Lock(2), Answer::Forbidden),
        ],
    ),
    // A wait that waits delivers nothing; the notify that it waits for delivers all.
    (
        2,
        &[
            (0, Asked::Wait, Answer::Disabled),
            (0, Asked::Notify, DONE),
            (0, Asked::Notify, Answer::Forbidden),
            (0, Asked::Write(X, 1), DONE),
            (0, Asked::Wait, Answer::Disabled),
            (1, Asked::Read(X), ZERO),
            (1, Asked::Notify, DONE),
            (1, Asked::Read(X), ONE),
            (0, Asked::Wait, DONE),
            (1, Asked::Wait, DONE),
        ],
    ),
    // A message is delivered once, by whomever, and none waits for its writer.
    (
        2,
        &[
            (0, Asked::Deliver(1, 0), Answer::NoneWaits),
            (0, Asked::Write(X, 1), DONE),
            (0, Asked::Deliver(0, 0), Answer::NoneWaits),
            (0, Asked::Deliver(1, 0), Answer::Delivered),
            (0, Asked::Deliver(1, 0), Answer::NoneWaits),
            (1, Asked::Read(X), ONE),
            (0, Asked::Deliver(2, 0), Answer::Forbidden),
        ],
    ),
    // All threads read a strict write at once, and a relaxed one after a fence of any thread.
    (
        4,
        &[
            (0, Asked::StrictWrite(X, 2), DONE),
            (0, Asked::Read(X), TWO),
            (1, Asked::Read(X), TWO),
            (2, Asked::Read(X), TWO),
            (3, Asked::Read(X), TWO),
            (1, Asked::Write(X, 1), DONE),
            (2, Asked::Read(X), TWO),
            (3, Asked::Fence, DONE),
            (2, Asked::Read(X), ONE),
            (0, Asked::Read(X), ONE),
        ],
    ),
];

#[test]
fn replies_of_runs(rt: HostRuntime) -> Result<(), OutOfMemory> {
    for (number, (threads, lines)) in REPLIES.iter().enumerate() {
        assert!(rt; 1 <= *threads && *threads <= 32);
        let (wrong, _) = played(rt.alloc(), *threads, lines)?;
        assert_eq!(rt; wrong, None, "{number}");
    }
    Ok(())
}

// An event: the thread and the number of an action, or by whom, to whom and from whom a message is delivered.
#[derive(Clone, Copy, PartialEq, Eq)]
enum Happened {
    Did(u32, u32),
    Delivered(u32, u32, u32),
}

// What an event shows.
fn shown(event: &Event) -> Happened {
    match &event.deed {
        Deed::Did { index, .. } => Happened::Did(event.by, *index),
        Deed::Delivered { to, from } => Happened::Delivered(event.by, *to, *from),
    }
}

// Whether these are the events, and no other.
fn are_shown(events: &Events, all: &[Happened]) -> bool {
    events.len() == all.len()
        && events
            .iter()
            .zip(all)
            .all(|(event, one)| shown(event) == *one)
}

// A strict read by thread 3 of four, two of which have written.
const MAIL: [Line; 3] = [
    (0, Asked::Write(X, 1), DONE),
    (1, Asked::Write(Y, 1), DONE),
    (3, Asked::StrictRead(Y), ONE),
];

// It delivers all mail first, by receiver, then sender.
const MAIL_SHOWN: [Happened; 9] = [
    Happened::Did(0, 0),
    Happened::Did(1, 0),
    Happened::Delivered(3, 0, 1),
    Happened::Delivered(3, 1, 0),
    Happened::Delivered(3, 2, 0),
    Happened::Delivered(3, 2, 1),
    Happened::Delivered(3, 3, 0),
    Happened::Delivered(3, 3, 1),
    Happened::Did(3, 0),
];

#[test]
fn strict_reads_deliver_all_mail(rt: HostRuntime) -> Result<(), OutOfMemory> {
    let (wrong, journal) = played(rt.alloc(), 4, &MAIL)?;
    assert_eq!(rt; wrong, None);
    assert!(rt; are_shown(&journal.events, &MAIL_SHOWN));
    Ok(())
}

// Thread 0 of 32 writes 200 times, and then the last thread reads strictly.
fn many_lines(alloc: Global) -> Result<Vec<Line>, OutOfMemory> {
    let mut lines: Vec<Line> = Vec::new(alloc);
    for number in 0..200u32 {
        lines.push((0, Asked::Write(X, number as i128), DONE))?;
    }
    let last = Answer::Got(Reply::Value(Scalar::Int(199)));
    lines.push((31, Asked::StrictRead(X), last))?;
    Ok(lines)
}

// Whether this is the event of this number.
fn is_shown(events: &Events, number: usize, wanted: Happened) -> bool {
    match events.get(number) {
        Some(event) => shown(event) == wanted,
        None => false,
    }
}

// Each write waits for 31 threads, so there are more events than a part or a chunk of them has, which is 4096.
#[test]
fn many_messages(rt: HostRuntime) -> Result<(), OutOfMemory> {
    let lines = many_lines(rt.alloc())?;
    let (wrong, journal) = played(rt.alloc(), 32, lines.as_slice())?;
    assert_eq!(rt; wrong, None);
    assert_eq!(rt; journal.events.len(), 6401);
    for (number, wanted) in [
        (199, Happened::Did(0, 199)),
        (200, Happened::Delivered(31, 1, 0)),
        (4096, Happened::Delivered(31, 20, 0)),
        (6399, Happened::Delivered(31, 31, 0)),
        (6400, Happened::Did(31, 0)),
    ] {
        assert!(rt; is_shown(&journal.events, number, wanted), "{number}");
    }
    Ok(())
}
