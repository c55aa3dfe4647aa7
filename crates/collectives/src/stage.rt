//! How far a collective call is (UPC 7.3).

ghost use Rattle.std.specs.Prelude.{◌≡◌, ℕ, List, IfOk, IfErr};
ghost use Rattle.block_layout.specs.declared.kind.Shape.{Shape};
ghost use Rattle.upc_values.specs.Expansion.{Expansion, after_reply, bind};
ghost use Rattle.upc_values.specs.layer.Parts.{unless_refused};
ghost use Rattle.collectives.specs.layer.Walks.{exit_by, from_entry, from_work, stage_rest, work_left};
ghost use Rattle.collectives.specs.layer.Wishes.{IsWish, RefusesSo, kind_read};

use crate::asked::Asked;
use crate::reply::done;
use crate::thread::Thread;
use crate::wish::CollWish;
use crate::work::Work;
use block_layout::Kind;
use std::alloc::{AllocError as OutOfMemory, Global};
use upc_values::{Action, Args, Listing, Mark, Refused, Reply, Scalar};

/// What comes next in a collective call.
#[derive(Drop)]
pub enum Stage {
    /// The Meet of the call, by its number and arguments.
    Meets(u8, Args, Asked),
    /// The notify at the entry.
    Notifies(Asked),
    /// The wait at the entry.
    Waits(Asked),
    /// Work, and then the exit that these bits of flags say.
    Works(u32, Work),
    /// The notify at the exit.
    Leaves,
    /// The wait at the exit.
    Left,
    /// Nothing.
    Over,
}

// The exit that these bits of flags say.
fn exit(bits: u32) -> Stage
    ensures { (threads : ℕ) (shapes : List Shape) (me : ℕ)
        → stage_rest threads shapes me result ≡ exit_by bits }
{
    if bits / 8 == 1 {
        Stage::Over
    } else {
        Stage::Leaves
    }
}

// Work that is left, or the exit where there is none.
fn left(bits: u32, work: Option<Work>) -> Stage
    ensures { (threads : ℕ) (shapes : List Shape) (me : ℕ) → stage_rest threads shapes me result
        ≡ bind (work_left threads shapes me work) (λ u. exit_by bits) }
{
    match work {
        Some(work) => Stage::Works(bits, work),
        None => exit(bits),
    }
}

// The work of a call, or its exit where there is none.
fn begun(alloc: Global, thread: &Thread<'_>, asked: &Asked) -> Result<Stage, Refused>
    ensures made { IfOk result (λ s. stage_rest thread.now.threads thread.now.shapes.now
        thread.now.number s ≡ from_work thread.now.threads thread.now.shapes.now
        thread.now.number asked.now) }
    ensures refused { IfErr result (λ e. RefusesSo e (from_work thread.now.threads
        thread.now.shapes.now thread.now.number asked.now)) }
{
    let bits = asked.bits();
    match Work::begin(alloc, thread, &asked.call()) {
        Ok(work) => Ok(left(bits, work)),
        Err(e) => Err(e),
    }
}

// The entry of a call.
fn entered(alloc: Global, thread: &Thread<'_>, asked: Asked) -> Result<Stage, Refused>
    ensures made { IfOk result (λ s. stage_rest thread.now.threads thread.now.shapes.now
        thread.now.number s ≡ from_entry thread.now.threads thread.now.shapes.now
        thread.now.number asked) }
    ensures refused { IfErr result (λ e. RefusesSo e (from_entry thread.now.threads
        thread.now.shapes.now thread.now.number asked)) }
{
    let group = asked.bits() % 8;
    if group == 1 {
        begun(alloc, thread, &asked)
    } else {
        Ok(Stage::Notifies(asked))
    }
}

// The work that is left after a reply, or the exit.
fn worked(
    alloc: Global,
    thread: &Thread<'_>,
    bits: u32,
    work: Work,
    reply: &Reply,
) -> Result<Stage, Refused>
    ensures rest { IfOk result (λ s. stage_rest thread.now.threads thread.now.shapes.now
        thread.now.number s ≡ after_reply (stage_rest thread.now.threads thread.now.shapes.now
        thread.now.number (Stage.Works bits work)) reply.now) }
    ensures refused { IfErr result (λ e. RefusesSo e (after_reply (stage_rest thread.now.threads
        thread.now.shapes.now thread.now.number (Stage.Works bits work)) reply.now)) }
{
    match work.take(alloc, thread, reply) {
        Ok(work) => Ok(left(bits, work)),
        Err(e) => Err(e),
    }
}

// The arguments, once more.
pub fn listed(alloc: Global, args: &[Scalar]) -> Result<Args, OutOfMemory>
    ensures { IfOk result (λ l. l ≡ args.now) }
{
    Ok(Listing::from_vec(args.to_vec(alloc)?))
}

// What comes after the reply to the Meet.
fn met(alloc: Global, thread: &Thread<'_>, asked: Asked, reply: &Reply) -> Result<Stage, Refused>
    ensures rest { IfOk result (λ s. stage_rest thread.now.threads thread.now.shapes.now thread.now.number s
        ≡ bind (unless_refused reply.now) (λ u. from_entry thread.now.threads thread.now.shapes.now
        thread.now.number asked)) }
    ensures refused { IfErr result (λ e. RefusesSo e (bind (unless_refused reply.now) (λ u.
        from_entry thread.now.threads thread.now.shapes.now thread.now.number asked))) }
{
    match done(reply) {
        Ok(()) => entered(alloc, thread, asked),
        Err(e) => Err(e),
    }
}

// What comes after the reply to the wait at the entry.
fn waited(
    alloc: Global,
    thread: &Thread<'_>,
    asked: &Asked,
    reply: &Reply,
) -> Result<Stage, Refused>
    ensures rest { IfOk result (λ s. stage_rest thread.now.threads thread.now.shapes.now thread.now.number s
        ≡ bind (unless_refused reply.now) (λ u. from_work thread.now.threads thread.now.shapes.now
        thread.now.number asked.now)) }
    ensures refused { IfErr result (λ e. RefusesSo e (bind (unless_refused reply.now) (λ u.
        from_work thread.now.threads thread.now.shapes.now thread.now.number asked.now))) }
{
    match done(reply) {
        Ok(()) => begun(alloc, thread, asked),
        Err(e) => Err(e),
    }
}

// The stage that comes after the reply to what was asked for, unless it refuses.
fn unless_refused(reply: &Reply, next: Stage) -> Result<Stage, Refused>
    ensures rest { IfOk result (λ s. (threads : ℕ) (shapes : List Shape) (me : ℕ)
        → stage_rest threads shapes me s
        ≡ bind (unless_refused reply.now) (λ u. stage_rest threads shapes me next)) }
    ensures refused { IfErr result (λ e. (go : Unit {0} → Expansion (Unit {0}))
        → RefusesSo e (bind (unless_refused reply.now) go)) }
{
    match done(reply) {
        Ok(()) => Ok(next),
        Err(e) => Err(e),
    }
}

// The wish for the Meet of a call.
fn meet(alloc: Global, call: u8, args: &Args) -> Result<CollWish, OutOfMemory>
    ensures { IfOk result (λ w. w ≡ CollWish.Act (Action.Meet call args.now)) }
{
    let args = listed(alloc, args.as_slice())?;
    Ok(CollWish::Act(Action::Meet { call, args }))
}

impl Stage {
    /// What comes next after a reply.
    pub fn take(self, alloc: Global, thread: &Thread<'_>, reply: &Reply) -> Result<Stage, Refused>
        ensures rest { IfOk result (λ s. stage_rest thread.now.threads thread.now.shapes.now
            thread.now.number s ≡ after_reply (stage_rest thread.now.threads thread.now.shapes.now
            thread.now.number self) reply.now) }
        ensures refused { IfErr result (λ e. RefusesSo e (after_reply (stage_rest
            thread.now.threads thread.now.shapes.now thread.now.number self) reply.now)) }
    {
        match self {
            Stage::Meets(_call, _args, asked) => met(alloc, thread, asked, reply),
            Stage::Notifies(asked) => unless_refused(reply, Stage::Waits(asked)),
            Stage::Waits(asked) => waited(alloc, thread, &asked, reply),
            Stage::Works(bits, work) => worked(alloc, thread, bits, work, reply),
            Stage::Leaves => unless_refused(reply, Stage::Left),
            Stage::Left => unless_refused(reply, Stage::Over),
            Stage::Over => Ok(Stage::Over),
        }
    }

    /// What is asked for; a Meet's arguments are copied.
    pub fn wish(&self, alloc: Global) -> Result<CollWish, OutOfMemory>
        ensures { IfOk result (λ w. (threads : ℕ) (shapes : List Shape) (me : ℕ)
            → IsWish (stage_rest threads shapes me self.now) w) }
    {
        match self {
            Stage::Meets(call, args, _) => meet(alloc, *call, args),
            Stage::Notifies(_) | Stage::Leaves => {
                Ok(CollWish::Act(Action::Notify(Mark::Absent)))
            }
            Stage::Waits(_) | Stage::Left => Ok(CollWish::Act(Action::Wait(Mark::Absent))),
            Stage::Works(_, work) => Ok(CollWish::Act(work.action())),
            Stage::Over => Ok(CollWish::Finished),
        }
    }

    /// The kind of the cell that is read, None where anything else is asked for.
    pub fn reads(&self) -> Option<Kind>
        ensures { (threads : ℕ) (shapes : List Shape) (me : ℕ)
            → result ≡ kind_read (stage_rest threads shapes me self.now) }
    {
        match self {
            Stage::Works(_, work) => work.reads(),
            _ => None,
        }
    }
}
