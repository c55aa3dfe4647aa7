//! Runs by hand, line by line: what each thread is asked to do, and what comes of it.

ghost use Rattle.std.specs.Prelude.{◌≡◌, ◌≤◌, [], ◌∷◌, IfOk};
ghost use Rattle.block_layout.specs.declared.kind.Kind.TheVariants as kind;
ghost use Rattle.upc_values.specs.Openings.{Opening};
ghost use Rattle.replica_space.specs.Runs.{IsReplicaRun};

use memory_history::Step;
use replica_space::ReplicaJournal;
use replica_space_acts::Replicas;
use std::alloc::Global;
use upc_text::OutOfMemory;
use upc_values::{Action, Cells, Kind, Loc, Mark, ObjectRef, Reply, Scalar, Shape, Strands};

/// The first int of an array of two.
pub const X: Loc = Loc {
    object: 1,
    thread: 0,
    offset: 0,
};

/// The second one.
pub const Y: Loc = Loc {
    object: 1,
    thread: 0,
    offset: 4,
};

const ARRAY: ObjectRef = ObjectRef {
    number: 1,
    total: 8,
    block: 8,
    home: 0,
    shape: 0,
    base: 0,
};

// The shape of an int.
fn ints(alloc: Global) -> Result<Vec<Shape>, OutOfMemory>
    ensures { IfOk result (λ shapes. shapes.items ≡ record { size = 4; cells = (0, kind.Int) ∷ [] } ∷ []) }
{
    let mut cells = Vec::new(alloc);
    cells.push((0, Kind::Int))?;
    let mut shapes = Vec::new(alloc);
    shapes.push(Shape {
        size: 4,
        cells: Cells::from_vec(cells),
    })?;
    Ok(shapes)
}

// A run of so many threads with X and Y, which begin with 0.
fn begun(alloc: Global, threads: u32) -> Result<Replicas, OutOfMemory>
    requires { (1 ≤ threads) × (threads ≤ 32) }
{
    let shapes = ints(alloc)?;
    Replicas::make(alloc, &[ARRAY], &[], shapes.as_slice(), threads)
}

/// What a thread is asked to do, in a form that constants can have.
#[derive(Clone, Copy)]
pub enum Asked {
    Notify,
    Wait,
    Fence,
    Read(Loc),
    Write(Loc, i128),
    StrictRead(Loc),
    StrictWrite(Loc, i128),
    LockMake,
    Lock(u32),
    Attempt(u32),
    Unlock(u32),
    /// To deliver the oldest message to a thread from another one.
    Deliver(u32, u32),
}

/// What comes of it.
#[derive(Clone, Copy, PartialEq, Eq)]
pub enum Answer {
    Got(Reply),
    /// It has to wait.
    Disabled,
    Delivered,
    /// No message waits to be delivered.
    NoneWaits,
    /// It may not be asked for.
    Forbidden,
}

/// The reply to what gives no value.
pub const DONE: Answer = Answer::Got(Reply::Done);

/// A thread, what it is asked to do, and what comes of it.
pub type Line = (u32, Asked, Answer);

// The action that a thread is asked to do, if it is not asked to deliver.
fn action_of(asked: Asked) -> Option<Action> {
    let action = match asked {
        Asked::Notify => Action::Notify(Mark::Start),
        Asked::Wait => Action::Wait(Mark::Start),
        Asked::Fence => Action::Fence,
        Asked::Read(loc) => Action::Read { loc, strict: false },
        Asked::Write(loc, value) => Action::Write {
            strict: false,
            loc,
            value: Scalar::Int(value),
        },
        Asked::StrictRead(loc) => Action::Read { loc, strict: true },
        Asked::StrictWrite(loc, value) => Action::Write {
            strict: true,
            loc,
            value: Scalar::Int(value),
        },
        Asked::LockMake => Action::LockMake,
        Asked::Lock(lock) => Action::Lock(lock),
        Asked::Attempt(lock) => Action::Attempt(lock),
        Asked::Unlock(lock) => Action::Unlock(lock),
        Asked::Deliver(_, _) => return None,
    };
    Some(action)
}

// What comes of a delivery.
fn delivered(run: &mut Replicas, by: u32, to: u32, from: u32) -> Result<Answer, OutOfMemory> {
    let threads = run.threads();
    if by >= threads || to >= threads || from >= threads {
        return Ok(Answer::Forbidden);
    }
    if run.deliver(by, to, from)? {
        Ok(Answer::Delivered)
    } else {
        Ok(Answer::NoneWaits)
    }
}

// What comes of an action, of which it is said before whether it would get a reply.
fn acted(run: &mut Replicas, thread: u32, action: &Action) -> Result<Answer, OutOfMemory> {
    if thread >= run.threads() || !run.is_well_formed(action) || !run.takes_turn(thread, action) {
        return Ok(Answer::Forbidden);
    }
    let index = run.next_index(thread);
    if index >= 1000 {
        return Ok(Answer::Forbidden);
    }
    let goes = run.would_go(thread, action);
    match run.act(thread, index as u32, action)? {
        Step::Done(reply) if goes => Ok(Answer::Got(reply)),
        Step::Disabled if !goes => Ok(Answer::Disabled),
        _ => Ok(Answer::Forbidden),
    }
}

// What comes of what a thread is asked to do.
fn take(run: &mut Replicas, thread: u32, asked: Asked) -> Result<Answer, OutOfMemory> {
    match asked {
        Asked::Deliver(to, from) => delivered(run, thread, to, from),
        _ => match action_of(asked) {
            Some(action) => acted(run, thread, &action),
            None => Ok(Answer::Forbidden),
        },
    }
}

// The number of the first line that goes otherwise, if one does: something else comes of it, or it adds events where
// nothing happens, or none where something does.
fn play(run: &mut Replicas, lines: &[Line]) -> Result<Option<usize>, OutOfMemory> {
    for (number, (thread, asked, answer)) in lines.iter().enumerate() {
        let before = run.len();
        let found = take(run, *thread, *asked)?;
        let happens = matches!(found, Answer::Got(_) | Answer::Delivered);
        if found != *answer || happens == (run.len() == before) {
            return Ok(Some(number));
        }
    }
    Ok(None)
}

/// A run of so many threads that goes by these lines: the number of the first line that goes otherwise, if one does,
/// and the journal, of which the strands are left out.
pub fn played(
    alloc: Global,
    threads: u32,
    lines: &[Line],
) -> Result<(Option<usize>, ReplicaJournal), OutOfMemory>
    requires { (1 ≤ threads) × (threads ≤ 32) }
    ensures { IfOk result (λ r. (o : Opening) × (o.threads ≡ r.1.threads) × IsReplicaRun o r.1.events) }
{
    let mut run = begun(alloc, threads)?;
    let wrong = play(&mut run, lines);
    let threads = run.threads();
    let events = run.into_events()?;
    let journal = ReplicaJournal {
        threads,
        budget: 1,
        actions: 1,
        strands: Strands::new(alloc),
        events,
    };
    Ok((wrong?, journal))
}
