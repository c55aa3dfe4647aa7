//! The text of a run, written and read back.

use crate::by_hand::{follows_buffers, joined, same_entry, same_orders};
use crate::histories::{read, write};
use order_builder::orders;
use run_recorder::{ReadRecord, is_short, read_record, render};
use std::alloc::{AllocError as OutOfMemory, Global};
use std::test::Fail;
use upc_values::{
    Action, End, Entries, Entry, Item, Items, Journal, Listing, Loc, Orders, Reply, Scalar, Strand,
    agrees, same_action, same_reply,
};

// The first lines of version 1, of version 2, and of version 2 without its rule.
const OLD_HEAD: &str = "upc-record 1\nthreads 1 budget 100000000 actions 4194304\n";

const HEAD: &str = "upc-record 2\nthreads 1 budget 100000000 actions 4194304\n\
rule places 64 combine\n";

const NO_RULE: &str = "upc-record 2\nthreads 1 budget 100000000 actions 4194304\n";

// The other lines of a run of one thread that does nothing.
const BODY: &str = "thread 0 items 4 ticks 0 ended 0\n\
notify start -> done\n\
wait start -> done\n\
notify finish -> done\n\
wait finish -> done\n\
history 4\n0.0\n0.1\n0.2\n0.3\n\
strict 4\n0.0.w\n0.1.r\n0.2.w\n0.3.r\n\
order 0 4\n0.0.w\n0.1.r\n0.2.w\n0.3.r\n\
end\n";

// A text with every kind of value.
const EACH: &str = "upc-record 2\n\
threads 2 budget 1 actions 7\n\
rule places 64 combine\n\
thread 0 items 8 ticks 18446744073709551615 fault 5 3:14\n\
read relaxed @1.0.4 -> value -170141183460469231731687303715884105728\n\
write strict @1.0.4 l:7 -> done\n\
stall\n\
alloc 3 8 any 0 -> value p:1:2:3:0:0:0:1:0:-9223372036854775808\n\
meet 5 2 -1 p:0:0:0:0:0:0:0:0:0 -> refused 17\n\
free p:1:2:3:0:0:0:1:0:8 -> flag 1\n\
print 00ff7a -> done\n\
print - -> done\n\
thread 1 items 0 ticks 0 deadlocked alloc 1 1 31 0\n\
history 2\n0.6\n0.0\n\
strict 0\n\
order 0 0\n\
order 1 1\n0.1.w\n\
end\n";

// The text of a run, where it has one.
fn text_of(alloc: Global, journal: &Journal, orders: &Orders) -> Result<Option<Vec<u8>>, Fail> {
    if journal.strands.len() != journal.threads as usize
        || orders.threads.len() != journal.threads as usize
        || !agrees(journal)
        || !is_short(journal)
    {
        return Ok(None);
    }
    Ok(Some(render(alloc, journal, orders)?))
}

// Whether no run has this text, as its line of this number shows.
fn is_bad(alloc: Global, text: &[u8], line: u32) -> bool {
    match read_record(alloc, text) {
        Err(ReadRecord::Bad(place)) => place.line == line,
        _ => false,
    }
}

// Whether a text is read, as one of this version, and its run is written so.
fn is_written_as(alloc: Global, text: &[u8], version: u8, written: &[u8]) -> Result<bool, Fail> {
    let (found, journal, orders) = read_record(alloc, text)?;
    match text_of(alloc, &journal, &orders)? {
        Some(again) => Ok(found == version && again.as_slice() == written),
        None => Ok(false),
    }
}

// A text of version 2 comes back as it was; the run of an old text is written in version 2.
#[test]
fn texts_are_read_back(rt: HostRuntime) -> Result<(), Fail> {
    let alloc = rt.alloc();
    let old = joined(alloc, OLD_HEAD, BODY)?;
    let text = joined(alloc, HEAD, BODY)?;
    assert!(rt; is_written_as(alloc, old.as_slice(), 1, text.as_slice())?);
    assert!(rt; is_written_as(alloc, text.as_slice(), 2, text.as_slice())?);
    assert!(rt; is_written_as(alloc, EACH.as_bytes(), 2, EACH.as_bytes())?);
    Ok(())
}

// Texts of no run, with the line that shows it.
const BAD: [(&[u8], u32); 6] = [
    (b"", 1),
    (
        b"upc-record 3\nthreads 0 budget 1 actions 1\nhistory 0\nstrict 0\nend\n",
        1,
    ),
    (
        b"upc-record 1\nthreads 00 budget 1 actions 1\nhistory 0\nstrict 0\nend\n",
        2,
    ),
    (
        b"upc-record 1\nthreads 0 budget 1  actions 1\nhistory 0\nstrict 0\nend\n",
        2,
    ),
    (
        b"upc-record 1\nthreads 0 budget 1 actions 1\nrule places 64 combine\nhistory 0\nstrict 0\nend\n",
        3,
    ),
    (
        b"upc-record 2\nthreads 0 budget 1 actions 1\nrule places 64 combine\nhistory 0\nstrict 0\nend\n\n",
        7,
    ),
];

#[test]
fn other_texts_are_bad(rt: HostRuntime) -> Result<(), Fail> {
    let text = joined(rt.alloc(), HEAD, BODY)?;
    let cut = text.as_slice().split_last().expect(&rt, "a byte").1;
    assert!(rt; is_bad(rt.alloc(), cut, 24));
    for (text, line) in &BAD {
        assert!(rt; is_bad(rt.alloc(), text, *line));
    }
    Ok(())
}

// An old text whose first line alone was changed lacks the line of the rule.
#[test]
fn the_rule_is_not_passed_over(rt: HostRuntime) -> Result<(), Fail> {
    let text = joined(rt.alloc(), NO_RULE, BODY)?;
    assert!(rt; is_bad(rt.alloc(), text.as_slice(), 3));
    Ok(())
}

// The greatest run that has a text: so many threads, each with so many items, of which each fourth is an entry.
const THREADS: u32 = 4;

const ITEMS: u32 = 32_768;

// An item of a thread, by its number: a relaxed write of this number, or a read of what was last written, which is
// pending.
fn nth(thread: u32, number: u32) -> (Action, Reply) {
    let last = number - number % 4;
    let loc = Loc {
        object: 1,
        thread,
        offset: 4 * (last / 4 % 100),
    };
    let value = i128::from(last);
    if number == last {
        (write(loc, value, false), Reply::Done)
    } else {
        (read(loc, false), Reply::Value(Scalar::Int(value)))
    }
}

fn long_strand(alloc: Global, thread: u32) -> Result<Strand, OutOfMemory> {
    let mut items = Vec::new(alloc);
    for number in 0..ITEMS {
        let (action, reply) = nth(thread, number);
        items.push(Item::Did(action, reply))?;
    }
    Ok(Strand {
        items: Items::from_vec(alloc, items)?,
        ticks: 0,
        end: End::Ended(0),
    })
}

fn long_history(alloc: Global) -> Result<Entries, OutOfMemory> {
    let mut history = Vec::new(alloc);
    for at in 0..THREADS * (ITEMS / 4) {
        let thread = at % THREADS;
        let index = at / THREADS * 4;
        let (action, reply) = nth(thread, index);
        history.push(Entry {
            thread,
            index,
            action,
            reply,
        })?;
    }
    Entries::from_vec(alloc, history)
}

fn long_journal(alloc: Global) -> Result<Journal, OutOfMemory> {
    let mut strands = Vec::new(alloc);
    for thread in 0..THREADS {
        strands.push(long_strand(alloc, thread)?)?;
    }
    Ok(Journal {
        threads: THREADS,
        budget: 1,
        actions: u64::from(ITEMS),
        strands: Listing::from_vec(strands),
        history: long_history(alloc)?,
    })
}

fn same_item(a: &Item, b: &Item) -> bool {
    match (a, b) {
        (Item::Did(action, reply), Item::Did(other, answer)) => {
            same_action(action, other) && same_reply(reply, answer)
        }
        (Item::Stall, Item::Stall) => true,
        _ => false,
    }
}

fn same_items(a: &Items, b: &Items) -> bool {
    if a.len() != b.len() {
        return false;
    }
    for (one, other) in a.iter().zip(b.iter()) {
        if !same_item(one, other) {
            return false;
        }
    }
    true
}

fn same_history(a: &Entries, b: &Entries) -> bool {
    if a.len() != b.len() {
        return false;
    }
    for (one, other) in a.iter().zip(b.iter()) {
        if !same_entry(one, other) {
            return false;
        }
    }
    true
}

fn orders_of(alloc: Global, journal: &Journal) -> Result<Option<Orders>, OutOfMemory> {
    if follows_buffers(alloc, journal)? {
        Ok(Some(orders(alloc, journal)?))
    } else {
        Ok(None)
    }
}

// Whether both have the same items, thread by thread.
fn same_strands(a: &[Strand], b: &[Strand]) -> bool {
    if a.len() != b.len() {
        return false;
    }
    for (one, other) in a.iter().zip(b) {
        if !same_items(&one.items, &other.items) {
            return false;
        }
    }
    true
}

// Whether a text of version 2 is read as this run with these orders.
fn is_read_as(
    alloc: Global,
    text: &[u8],
    journal: &Journal,
    orders: &Orders,
) -> Result<bool, Fail> {
    let (version, again, given) = read_record(alloc, text)?;
    Ok(
        version == 2
            && same_history(&again.history, &journal.history)
            && same_orders(given.threads.as_slice(), orders.threads.as_slice())
            && same_strands(again.strands.as_slice(), journal.strands.as_slice()),
    )
}

// Of 131,072 items and 32,768 entries, with the orders. The number of its bytes was counted from outside.
#[test]
fn a_long_text_is_written_and_read_back(rt: HostRuntime) -> Result<(), Fail> {
    let alloc = rt.alloc();
    let journal = long_journal(alloc)?;
    let orders = orders_of(alloc, &journal)?.expect(&rt, "its orders");
    let text = text_of(alloc, &journal, &orders)?.expect(&rt, "a text");
    assert_eq!(rt; text.len(), 7_235_796);
    assert!(rt; is_read_as(alloc, text.as_slice(), &journal, &orders)?);
    Ok(())
}
