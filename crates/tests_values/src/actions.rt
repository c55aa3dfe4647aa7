//! One of each kind of action, and a small journal.

use std::alloc::{AllocError as OutOfMemory, Global};
use upc_text::Text;
use upc_values::{
    Action, Args, End, Entries, Entry, Item, Items, Journal, Listing, Loc, Mark, ObjectRef, Reply,
    Scalar, SharedPtr, Strand, agrees, copy_action, copy_scalar, same_action, same_loc, same_reply,
    same_scalar,
};

const X: Loc = Loc {
    object: 1,
    thread: 0,
    offset: 4,
};

const POINTER: SharedPtr = SharedPtr {
    object: ObjectRef {
        number: 1,
        total: 80,
        block: 12,
        home: 0,
        shape: 2,
        base: 16,
    },
    thread: 2,
    phase: 1,
    offset: -4,
};

// The action of each of 16 kinds, by number, with fields that differ.
fn kind(alloc: Global, number: u32) -> Result<Action, OutOfMemory> {
    Ok(match number {
        0 => Action::Read {
            loc: X,
            strict: true,
        },
        1 => Action::Write {
            loc: X,
            value: Scalar::Int(-7),
            strict: false,
        },
        2 => Action::Fence,
        3 => Action::Beat,
        4 => Action::Notify(Mark::Start),
        5 => Action::Wait(Mark::Given(5)),
        6 => Action::Lock(1),
        7 => Action::Attempt(2),
        8 => Action::Unlock(3),
        9 => Action::LockMake,
        10 => Action::LockFree(4),
        11 => Action::Alloc {
            nblocks: 2,
            nbytes: 8,
            home: Some(1),
            shape: 3,
        },
        12 => Action::Free(POINTER),
        13 => Action::Meet {
            call: 5,
            args: two_arguments(alloc)?,
        },
        14 => Action::Print(Text::from_slice(alloc, b"42\n")?),
        _ => Action::Exit(9),
    })
}

fn two_arguments(alloc: Global) -> Result<Args, OutOfMemory> {
    let list = Vec::from_array(alloc, [Scalar::Shared(POINTER), Scalar::Int(8)])?;
    Ok(Listing::from_vec(list))
}

// One of each kind.
fn kinds(alloc: Global) -> Result<Vec<Action>, OutOfMemory> {
    let mut actions = Vec::new(alloc);
    for number in 0..16 {
        actions.push(kind(alloc, number)?)?;
    }
    Ok(actions)
}

// Whether a copy of an action is another one.
fn copy_is(alloc: Global, action: &Action, other: &Action) -> Result<bool, OutOfMemory> {
    let copy = copy_action(alloc, action)?;
    Ok(same_action(&copy, other))
}

// A copy of each kind is the same action, and no two kinds are the same.
#[test]
fn copies_of_each_kind(rt: HostRuntime) -> Result<(), OutOfMemory> {
    let actions = kinds(rt.alloc())?;
    assert_eq!(rt; actions.len(), 16);
    for (i, a) in actions.iter().enumerate() {
        for (k, b) in actions.iter().enumerate() {
            assert!(rt; copy_is(rt.alloc(), a, b)? == (i == k), "{i} {k}");
        }
    }
    assert!(rt;
        same_scalar(
            &copy_scalar(&Scalar::Shared(POINTER)),
            &Scalar::Shared(POINTER)
        )
    );
    assert!(rt; !same_loc(&X, &Loc { offset: 0, ..X }));
    assert!(rt; !same_reply(&Reply::Flag(true), &Reply::Flag(false)));
    Ok(())
}

// What a thread does by number: a Fence or a Beat.
fn step(is_beat: bool) -> Action {
    if is_beat { Action::Beat } else { Action::Fence }
}

// A history of steps, each by its thread, its number there, and whether it is a Beat.
fn history_of(alloc: Global, steps: &[(u32, u32, bool)]) -> Result<Vec<Entry>, OutOfMemory> {
    let mut history = Vec::new(alloc);
    for (thread, index, is_beat) in steps {
        history.push(Entry {
            thread: *thread,
            index: *index,
            action: step(*is_beat),
            reply: Reply::Done,
        })?;
    }
    Ok(history)
}

// A record of Fence, Stall and Beat.
fn record(alloc: Global) -> Result<Vec<Item>, OutOfMemory> {
    let mut items = Vec::new(alloc);
    items.push(Item::Did(Action::Fence, Reply::Done))?;
    items.push(Item::Stall)?;
    items.push(Item::Did(Action::Beat, Reply::Done))?;
    Ok(items)
}

// The journal of one thread with that record, and a history.
fn journal(alloc: Global, history: Vec<Entry>) -> Result<Journal, OutOfMemory> {
    let mut strands = Vec::new(alloc);
    strands.push(Strand {
        items: Items::from_vec(alloc, record(alloc)?)?,
        ticks: 0,
        end: End::Budget,
    })?;
    Ok(Journal {
        threads: 1,
        budget: 1,
        actions: 3,
        strands: Listing::from_vec(strands),
        history: Entries::from_vec(alloc, history)?,
    })
}

// Whether the journal of one thread with this history agrees.
fn agrees_with(alloc: Global, steps: &[(u32, u32, bool)]) -> Result<bool, OutOfMemory> {
    let run = journal(alloc, history_of(alloc, steps)?)?;
    Ok(agrees(&run))
}

// A history of steps, and whether it agrees with the record, in which the Beat is action 1.
const HISTORIES: [(&[(u32, u32, bool)], bool); 5] = [
    (&[(0, 1, true), (0, 0, false)], true),
    (&[(0, 0, true)], false),
    (&[(0, 2, true)], false),
    (&[(1, 0, false)], false),
    (&[], true),
];

#[test]
fn agreement(rt: HostRuntime) -> Result<(), OutOfMemory> {
    for (steps, wanted) in &HISTORIES {
        assert!(rt; agrees_with(rt.alloc(), steps)? == *wanted);
    }
    Ok(())
}
