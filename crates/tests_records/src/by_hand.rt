//! Runs written by hand: the orders that Appendix B of UPC 1.3 gives them, and which histories are legal.

ghost use Rattle.std.specs.Prelude.{◌≡◌, ◌<◌, true, All, IfOk, IsTrue};
ghost use Rattle.upc_values.specs.Drain as drains;
ghost use Rattle.upc_values.specs.Consistent.{FollowsBuffers};

use crate::histories::{X, Y, read, write, zeros};
use memory_history::{Step, World};
use order_builder::{drain, global_order, orders, strict_order, thread_order};
use run_recorder::read_record;
use std::alloc::{AllocError as OutOfMemory, Global};
use std::test::Fail;
use upc_values::{
    Action, Entries, Entry, Items, Journal, Op, Order, Orders, Reply, Scalar, same_action,
    same_reply,
};
use upc_verify_orders::{broken_order, operations_of};

// A run and its orders, and other orders that Appendix B does not allow, all as in the text of a run.
struct ByHand {
    run: &'static str,
    orders: &'static str,
    wrong: &'static str,
}

const RUNS: [ByHand; 4] = [
    // `int main(void){return 0;}` on one thread. Wrong: a wait before its notify.
    ByHand {
        run: "upc-record 1\nthreads 1 budget 1000 actions 100\n\
thread 0 items 4 ticks 0 ended 0\n\
notify start -> done\nwait start -> done\nnotify finish -> done\nwait finish -> done\n\
history 4\n0.0\n0.1\n0.2\n0.3\n",
        orders: "strict 4\n0.0.w\n0.1.r\n0.2.w\n0.3.r\n\
order 0 4\n0.0.w\n0.1.r\n0.2.w\n0.3.r\nend\n",
        wrong: "strict 4\n0.0.w\n0.1.r\n0.2.w\n0.3.r\n\
order 0 4\n0.1.r\n0.0.w\n0.2.w\n0.3.r\nend\n",
    },
    // `x = 1; x = y + x;` on one thread, relaxed. The first write is combined into the second and is no entry; in the
    // order it stands before the second, with the read after it. Wrong: the read of x where it was issued, before its
    // write.
    ByHand {
        run: "upc-record 2\nthreads 1 budget 1000 actions 100\nrule places 64 combine\n\
thread 0 items 8 ticks 0 ended 0\n\
notify start -> done\nwait start -> done\n\
write relaxed @1.0.0 1 -> done\nread relaxed @2.0.0 -> value 0\nread relaxed @1.0.0 -> value 1\n\
write relaxed @1.0.0 1 -> done\nnotify finish -> done\nwait finish -> done\n\
history 6\n0.0\n0.1\n0.3\n0.5\n0.6\n0.7\n",
        orders: "strict 4\n0.0.w\n0.1.r\n0.6.w\n0.7.r\n\
order 0 8\n0.0.w\n0.1.r\n0.3.r\n0.2.w\n0.4.r\n0.5.w\n0.6.w\n0.7.r\nend\n",
        wrong: "strict 4\n0.0.w\n0.1.r\n0.6.w\n0.7.r\n\
order 0 8\n0.0.w\n0.1.r\n0.3.r\n0.4.r\n0.2.w\n0.5.w\n0.6.w\n0.7.r\nend\n",
    },
    // Store buffering: thread 0 does `x = 1; r = y;`, thread 1 `y = 1; r = x;`, all relaxed, and both read 0. The order
    // of a thread has not the other's read. Wrong: thread 0 reads y after thread 1's write.
    ByHand {
        run: "upc-record 1\nthreads 2 budget 1000 actions 100\n\
thread 0 items 6 ticks 0 ended 0\n\
notify start -> done\nwait start -> done\n\
write relaxed @1.0.0 1 -> done\nread relaxed @2.0.0 -> value 0\n\
notify finish -> done\nwait finish -> done\n\
thread 1 items 6 ticks 0 ended 0\n\
notify start -> done\nwait start -> done\n\
write relaxed @2.0.0 1 -> done\nread relaxed @1.0.0 -> value 0\n\
notify finish -> done\nwait finish -> done\n\
history 12\n0.0\n1.0\n0.1\n1.1\n0.3\n1.3\n0.2\n0.4\n1.2\n1.4\n0.5\n1.5\n",
        orders: "strict 8\n0.0.w\n1.0.w\n0.1.r\n1.1.r\n0.4.w\n1.4.w\n0.5.r\n1.5.r\n\
order 0 11\n0.0.w\n1.0.w\n0.1.r\n1.1.r\n0.3.r\n0.2.w\n0.4.w\n1.2.w\n1.4.w\n0.5.r\n1.5.r\n\
order 1 11\n0.0.w\n1.0.w\n0.1.r\n1.1.r\n1.3.r\n0.2.w\n0.4.w\n1.2.w\n1.4.w\n0.5.r\n1.5.r\nend\n",
        wrong: "strict 8\n0.0.w\n1.0.w\n0.1.r\n1.1.r\n0.4.w\n1.4.w\n0.5.r\n1.5.r\n\
order 0 11\n0.0.w\n1.0.w\n0.1.r\n1.1.r\n1.2.w\n0.3.r\n0.2.w\n0.4.w\n1.4.w\n0.5.r\n1.5.r\n\
order 1 11\n0.0.w\n1.0.w\n0.1.r\n1.1.r\n1.3.r\n0.2.w\n0.4.w\n1.2.w\n1.4.w\n0.5.r\n1.5.r\nend\n",
    },
    // Thread 0 does `x = 1; r = x;`, thread 1 `x = 2;`, all relaxed. The read gives 1 and is no entry; in the order of
    // thread 0 it stands after its write. Wrong: where it was issued, while the write was pending.
    ByHand {
        run: "upc-record 2\nthreads 2 budget 1000 actions 100\nrule places 64 combine\n\
thread 0 items 6 ticks 0 ended 0\n\
notify start -> done\nwait start -> done\n\
write relaxed @1.0.0 1 -> done\nread relaxed @1.0.0 -> value 1\n\
notify finish -> done\nwait finish -> done\n\
thread 1 items 5 ticks 0 ended 0\n\
notify start -> done\nwait start -> done\nwrite relaxed @1.0.0 2 -> done\n\
notify finish -> done\nwait finish -> done\n\
history 10\n0.0\n1.0\n0.1\n1.1\n1.2\n1.3\n0.2\n0.4\n0.5\n1.4\n",
        orders: "strict 8\n0.0.w\n1.0.w\n0.1.r\n1.1.r\n1.3.w\n0.4.w\n0.5.r\n1.4.r\n\
order 0 11\n0.0.w\n1.0.w\n0.1.r\n1.1.r\n1.2.w\n1.3.w\n0.2.w\n0.3.r\n0.4.w\n0.5.r\n1.4.r\n\
order 1 10\n0.0.w\n1.0.w\n0.1.r\n1.1.r\n1.2.w\n1.3.w\n0.2.w\n0.4.w\n0.5.r\n1.4.r\nend\n",
        wrong: "strict 8\n0.0.w\n1.0.w\n0.1.r\n1.1.r\n1.3.w\n0.4.w\n0.5.r\n1.4.r\n\
order 0 11\n0.0.w\n1.0.w\n0.1.r\n1.1.r\n0.3.r\n1.2.w\n1.3.w\n0.2.w\n0.4.w\n0.5.r\n1.4.r\n\
order 1 10\n0.0.w\n1.0.w\n0.1.r\n1.1.r\n1.2.w\n1.3.w\n0.2.w\n0.4.w\n0.5.r\n1.4.r\nend\n",
    },
];

/// The one text, and the other after it.
pub fn joined(alloc: Global, first: &str, second: &str) -> Result<Vec<u8>, OutOfMemory> {
    let mut text = Vec::new(alloc);
    text.extend_from_slice(first.as_bytes())?;
    text.extend_from_slice(second.as_bytes())?;
    Ok(text)
}

/// Whether both are one entry.
pub fn same_entry(a: &Entry, b: &Entry) -> bool
    ensures { IsTrue result → a.now ≡ b.now }
{
    a.thread == b.thread
        && a.index == b.index
        && same_action(&a.action, &b.action)
        && same_reply(&a.reply, &b.reply)
}

// Whether these are the thread's entries in the history, in order.
fn are_entries_of(thread: u32, history: &Entries, entries: &Entries) -> bool
    ensures { IsTrue result → drains.entries_of thread history.now ≡ entries.now }
{
    let count = entries.len();
    let mut next = 0usize;
    for entry in history.iter() {
        if entry.thread == thread {
            match entries.get(next) {
                Some(other) if same_entry(entry, other) => next += 1,
                _ => return false,
            }
        }
    }
    next == count
}

// Whether the history takes the thread's items as its write buffer drains.
fn is_drained(
    alloc: Global,
    thread: u32,
    items: &Items,
    history: &Entries,
) -> Result<bool, OutOfMemory>
    ensures agrees { IfOk result (λ is. IsTrue is → (drains.walked thread items.now).agrees ≡ true) }
    ensures drains { IfOk result (λ is. IsTrue is
        → drains.entries_of thread history.now ≡ drains.drain thread items.now) }
{
    match drain(alloc, thread, items)? {
        Some(entries) => Ok(are_entries_of(thread, history, &entries)),
        None => Ok(false),
    }
}

fn are_below(threads: u32, history: &Entries) -> bool
    ensures { IsTrue result → All (λ e. e.thread < threads) history.now }
{
    history.iter().all(|entry| entry.thread < threads)
}

/// Whether the history takes each thread's items so.
pub fn follows_buffers(alloc: Global, journal: &Journal) -> Result<bool, OutOfMemory>
    ensures { IfOk result (λ follows. IsTrue follows → FollowsBuffers journal.now) }
{
    let strands = journal.strands.as_slice();
    let history = &journal.history;
    if strands.len() != journal.threads as usize || !are_below(journal.threads, history) {
        return Ok(false);
    }
    for thread in 0..journal.threads {
        let items = &strands[thread as usize].items;
        if !is_drained(alloc, thread, items, history)? {
            return Ok(false);
        }
    }
    Ok(true)
}

fn same_order(a: &Order, b: &Order) -> bool {
    a.as_slice() == b.as_slice()
}

/// Whether both are the same orders, thread by thread.
pub fn same_orders(a: &[Order], b: &[Order]) -> bool {
    a.len() == b.len() && a.iter().zip(b).all(|(one, other)| same_order(one, other))
}

// Whether the orders are those of the journal, as each call answers.
fn are_orders_of(alloc: Global, journal: &Journal, given: &Orders) -> Result<bool, OutOfMemory>
    requires { FollowsBuffers journal.now }
{
    let found = orders(alloc, journal)?;
    let mut threads = Vec::new(alloc);
    for thread in 0..journal.threads {
        threads.push(thread_order(alloc, journal, thread)?)?;
    }
    Ok(
        same_order(&found.strict, &given.strict)
            && same_orders(found.threads.as_slice(), given.threads.as_slice())
            && same_order(&strict_order(alloc, journal)?, &given.strict)
            && same_orders(threads.as_slice(), given.threads.as_slice()),
    )
}

// Whether the orders of a run are those that its text has, and are consistent.
fn has_orders(alloc: Global, case: &ByHand) -> Result<bool, Fail> {
    let text = joined(alloc, case.run, case.orders)?;
    let (_, journal, given) = read_record(alloc, text.as_slice())?;
    if !follows_buffers(alloc, &journal)? {
        return Ok(false);
    }
    Ok(are_orders_of(alloc, &journal, &given)? && is_consistent(alloc, &journal, &given)?)
}

// Whether the orders make the journal's operations consistent, where each location begins with 0.
fn is_consistent(alloc: Global, journal: &Journal, orders: &Orders) -> Result<bool, OutOfMemory> {
    let operations = operations_of(alloc, journal)?;
    let firsts = vec![in alloc; Scalar::Int(0); operations.len()]?;
    let many = journal.threads as usize;
    if many == 0 || orders.threads.len() != many || firsts.len() != operations.len() {
        return Ok(false);
    }
    Ok(broken_order(alloc, journal, firsts.as_slice(), orders)?.is_none())
}

// Whether the other orders are consistent.
fn passes_wrong(alloc: Global, case: &ByHand) -> Result<bool, Fail> {
    let text = joined(alloc, case.run, case.wrong)?;
    let (_, journal, wrong) = read_record(alloc, text.as_slice())?;
    Ok(is_consistent(alloc, &journal, &wrong)?)
}

#[test]
fn orders_by_hand(rt: HostRuntime) -> Result<(), Fail> {
    for (number, case) in RUNS.iter().enumerate() {
        assert!(rt; has_orders(rt.alloc(), case)?, "{number}");
        assert!(rt; !passes_wrong(rt.alloc(), case)?, "{number}");
    }
    Ok(())
}

// Whether these operations are by the actions of these entries in turn.
fn are_by(operations: &[Op], history: &Entries) -> bool {
    if operations.len() != history.len() {
        return false;
    }
    for (operation, entry) in operations.iter().zip(history.iter()) {
        if operation.thread != entry.thread || operation.index != entry.index {
            return false;
        }
    }
    true
}

// Whether each entry of a run is one operation, in the order of the history.
fn is_one_by_one(alloc: Global, case: &ByHand) -> Result<bool, Fail> {
    let text = joined(alloc, case.run, case.orders)?;
    let (_, journal, _) = read_record(alloc, text.as_slice())?;
    if !follows_buffers(alloc, &journal)? {
        return Ok(false);
    }
    let order = global_order(alloc, &journal)?;
    Ok(are_by(order.as_slice(), &journal.history))
}

// All operations in the order of the history: here each entry is one operation, and no read is forwarded.
#[test]
fn all_operations_by_hand(rt: HostRuntime) -> Result<(), Fail> {
    assert!(rt; is_one_by_one(rt.alloc(), &RUNS[0])?);
    assert!(rt; is_one_by_one(rt.alloc(), &RUNS[2])?);
    Ok(())
}

// What the world answers, where that may be asked for.
fn answer(
    world: &mut World,
    thread: u32,
    index: u32,
    action: &Action,
) -> Result<Option<Reply>, OutOfMemory> {
    if thread >= world.threads() || !world.is_well_formed(action) {
        return Ok(None);
    }
    if !world.takes_turn(thread, action) {
        return Ok(None);
    }
    match world.perform(thread, index, action)? {
        Step::Done(reply) => Ok(Some(reply)),
        Step::Disabled => Ok(None),
    }
}

// Whether each entry has the reply that is lawful there, from two variables that begin with 0.
fn is_legal(alloc: Global, history: &Entries) -> Result<bool, OutOfMemory> {
    let mut world = zeros(alloc)?;
    for entry in history.iter() {
        if answer(&mut world, entry.thread, entry.index, &entry.action)? != Some(entry.reply) {
            return Ok(false);
        }
    }
    Ok(true)
}

// Whether the history of a run is legal.
fn has_legal(alloc: Global, case: &ByHand) -> Result<bool, Fail> {
    let text = joined(alloc, case.run, case.orders)?;
    let (_, journal, _) = read_record(alloc, text.as_slice())?;
    Ok(is_legal(alloc, &journal.history)?)
}

#[test]
fn histories_by_hand_are_legal(rt: HostRuntime) -> Result<(), Fail> {
    assert!(rt; has_legal(rt.alloc(), &RUNS[2])?);
    assert!(rt; has_legal(rt.alloc(), &RUNS[3])?);
    Ok(())
}

// What a thread does at its first turn, its own write, or at its second, a read of the other variable: all strict.
fn access(thread: u32, second: bool) -> Action {
    let (own, other) = if thread == 0 { (X, Y) } else { (Y, X) };
    if second {
        read(other, true)
    } else {
        write(own, 1, true)
    }
}

// Whether both threads read 0, where each first writes its own variable and then reads the other's, all strict.
fn both_read_0(alloc: Global, turns: &[u32]) -> Result<bool, OutOfMemory> {
    let mut world = zeros(alloc)?;
    let mut both = true;
    for (at, thread) in turns.iter().enumerate() {
        let second = turns[..at].contains(thread);
        let action = access(*thread, second);
        let reply = answer(&mut world, *thread, if second { 1 } else { 0 }, &action)?;
        both = both && (!second || reply == Some(Reply::Value(Scalar::Int(0))));
    }
    Ok(both)
}

const TURNS: [[u32; 4]; 6] = [
    [0, 0, 1, 1],
    [0, 1, 0, 1],
    [0, 1, 1, 0],
    [1, 0, 0, 1],
    [1, 0, 1, 0],
    [1, 1, 0, 0],
];

// In whatever order strict accesses stand, one of the reads gives 1.
#[test]
fn strict_accesses_have_one_order(rt: HostRuntime) -> Result<(), Fail> {
    for turns in &TURNS {
        assert!(rt; !both_read_0(rt.alloc(), turns)?);
    }
    Ok(())
}
