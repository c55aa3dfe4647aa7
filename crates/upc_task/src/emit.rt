//! What an action does to a write buffer and the history.

ghost use Rattle.std.specs.Prelude.{ℕ, ◌≡◌, ◌<◌, ◌+◌, ◌||◌, List, [], ◌∷◌, ◌++◌, length, nat_lt, true, false, Some};
ghost use Rattle.std.specs.Prelude.{is_some, IfOk, OnErr, IfSome, IsNone, map};
ghost use mathlib.Core.List.{IsPrefix};
ghost use Rattle.upc_values.specs.declared.journal.Entry.{Entry};
ghost use Rattle.upc_values.specs.Openings.{Opening, IsOpening};
ghost use Rattle.upc_values.specs.History.{IsLegal};
ghost use Rattle.upc_values.specs.Records as records;
ghost use Rattle.upc_values.specs.declared.action.Action.TheVariants.{Write};
ghost use Rattle.upc_values.specs.declared.action.Reply.TheVariants.{Done};
ghost use Rattle.upc_values.specs.Drain.{Walk, gone, entry_of};
ghost use Rattle.upc_values.specs.Formed.{IsWellFormed, AreWellFormed};
ghost use Rattle.memory_history.specs.layer.World.{answer_of};
ghost use Rattle.memory_history.specs.layer.Turns.{takes_turn};
ghost use Rattle.write_buffer.specs.layer.Buffer.{committed, youngest};
ghost use Rattle.upc_task.specs.layer.Kept.{AreFormed, Holds, Grew};
ghost use Rattle.upc_task.specs.code.Emits.{way_of, Emitted, IsAnswer};

use memory_history::{Step, World};
use std::alloc::AllocError as OutOfMemory;
use upc_values::{Action, Loc, Reply, Scalar};
use write_buffer::{PLACES, Pending, WriteBuffer};

// How an action goes by the write buffer.
#[derive(Clone, Copy)]
enum Way {
    Stores(Loc, Scalar),
    Looks(Loc),
    Passes,
    Empties,
}

fn way_through(action: &Action) -> Way
    ensures { result ≡ way_of action.now }
{
    match action {
        Action::Write {
            loc,
            value,
            strict: false,
        } => Way::Stores(*loc, *value),
        Action::Read { loc, strict: false } => Way::Looks(*loc),
        Action::Print(_) => Way::Passes,
        _ => Way::Empties,
    }
}

// A pending write becomes an entry.
#[tactic(auto, using(crate::proofs::Buffers::grows))]
fn commit(thread: u32, world: &mut World, write: Pending) -> Result<(), OutOfMemory>
    requires below { thread < world.old.0.threads }
    requires formed { IsWellFormed world.old.0 world.old.1 (Write false write.loc write.value) }
    ensures one { IfOk result (λ _. world.new.1 ≡ world.old.1 ++ committed thread write ∷ []) }
    ensures lacks { OnErr result (world.new.1 ≡ world.old.1) }
    ensures grew { Grew thread world.old.1 world.new.1 }
    ensures opening { world.new.0 ≡ world.old.0 }
{
    let action = Action::Write {
        loc: write.loc,
        value: write.value,
        strict: false,
    };
    world.perform_owned(thread, write.index, action)?;
    Ok(())
}

/// All pending writes are committed, in order. After want of memory the first of them are.
#[tactic(auto, using(crate::proofs::Buffers::grown))]
pub fn empty(thread: u32, world: &mut World, buffer: &mut WriteBuffer) -> Result<(), OutOfMemory>
    requires below { thread < world.old.0.threads }
    requires formed { AreFormed world.old.0 world.old.1 buffer.old }
    ensures all { IfOk result (λ _.
        (buffer.new ≡ []) × (world.new.1 ≡ world.old.1 ++ map (committed thread) buffer.old)) }
    ensures lacks { OnErr result (IsPrefix world.new.1 (world.old.1 ++ map (committed thread) buffer.old)) }
    ensures grew { Grew thread world.old.1 world.new.1 }
    ensures opening { world.new.0 ≡ world.old.0 }
{
    while let Some(oldest) = buffer.take_oldest() {
        commit(thread, world, oldest)?;
    }
    Ok(())
}

// A relaxed write becomes pending.
fn store(
    thread: u32,
    next: u32,
    world: &mut World,
    buffer: &mut WriteBuffer,
    loc: Loc,
    value: Scalar,
) -> Result<(), OutOfMemory>
    requires below { thread < world.old.0.threads }
    requires formed { AreFormed world.old.0 world.old.1 buffer.old }
    requires asked { IsWellFormed world.old.0 world.old.1 (Write false loc value) }
    ensures holds { IfOk result (λ _. (w : Walk)
        → Holds world.old.0 thread world.old.1 buffer.old next w
        → Emitted world.old.0 thread world.new.1 buffer.new next (Write false loc value) (Some Done) w) }
    ensures lacks { OnErr result (world.new.1 ≡ world.old.1) }
    ensures grew { Grew thread world.old.1 world.new.1 }
    ensures opening { world.new.0 ≡ world.old.0 }
{
    if let Some(oldest) = buffer.store(next, loc, value) {
        commit(thread, world, oldest)?;
    }
    Ok(())
}

// Whether a write of this location can become pending without that another leaves.
fn has_place(buffer: &WriteBuffer, loc: Loc) -> bool
    ensures { result ≡ (nat_lt (length buffer.now) 64 || is_some (youngest loc buffer.now)) }
{
    (buffer.len() as usize) < PLACES || buffer.forward(loc).is_some()
}

/// The reply of an action that the buffer alone answers: a relaxed write that pushes none out, or a relaxed read of a
/// pending write. None, with nothing changed, where the action takes the turn. It takes no memory.
pub fn emit_alone(next: u32, buffer: &mut WriteBuffer, action: &Action) -> Option<Reply>
    ensures holds { IfSome result (λ r. (o : Opening) (t : ℕ) (seen : List Entry) (w : Walk)
        → IsWellFormed o seen action.now → Holds o t seen buffer.old next w
        → Holds o t seen buffer.new (next + 1) (gone (entry_of t next action.now r) action.now w)) }
    ensures answer { IfSome result (λ r. (o : Opening) (t : ℕ) (seen : List Entry)
        → IsOpening o → IsLegal o seen → AreWellFormed o seen → AreFormed o seen buffer.old
        → IsAnswer o t seen action.now (Some r)) }
    ensures plain { IfSome result (λ _. records.is_beat action.now ≡ false) }
    ensures none { IsNone result → buffer.new ≡ buffer.old }
{
    match way_through(action) {
        Way::Stores(loc, value) => {
            if !has_place(buffer, loc) {
                return None;
            }
            let None = buffer.store(next, loc, value) else {
                unreachable!()
            };
            Some(Reply::Done)
        }
        Way::Looks(loc) => match buffer.forward(loc) {
            Some((_, value)) => Some(Reply::Value(value)),
            None => None,
        },
        _ => None,
    }
}

/// Acts on the buffer and the history, which takes the action: the reply, or only an emptied buffer where the action is
/// not legal. After want of memory the history has gained the first of the pending writes at most.
#[tactic(auto, using(crate::proofs::Buffers::grows))]
pub fn emit(
    thread: u32,
    next: u32,
    world: &mut World,
    buffer: &mut WriteBuffer,
    action: Action,
) -> Result<Step, OutOfMemory>
    requires below { thread < world.old.0.threads }
    requires pending { AreFormed world.old.0 world.old.1 buffer.old }
    requires asked { IsWellFormed world.old.0 world.old.1 action }
    requires turns { takes_turn world.old.1 thread action ≡ true }
    ensures holds { IfOk result (λ s. (w : Walk)
        → Holds world.old.0 thread world.old.1 buffer.old next w
        → Emitted world.old.0 thread world.new.1 buffer.new next action (answer_of s) w) }
    ensures answer { IfOk result (λ s. IsAnswer world.old.0 thread world.new.1 action (answer_of s)) }
    ensures lacks { OnErr result (IsPrefix world.new.1 (world.old.1 ++ map (committed thread) buffer.old)) }
    ensures grew { Grew thread world.old.1 world.new.1 }
    ensures opening { world.new.0 ≡ world.old.0 }
{
    match way_through(&action) {
        Way::Stores(loc, value) => {
            store(thread, next, world, buffer, loc, value)?;
            Ok(Step::Done(Reply::Done))
        }
        Way::Looks(loc) => match buffer.forward(loc) {
            Some((_, value)) => {
                world.keeps();
                Ok(Step::Done(Reply::Value(value)))
            }
            None => {
                let step = world.perform_owned(thread, next, action)?;
                Ok(step)
            }
        },
        Way::Passes => {
            let step = world.perform_owned(thread, next, action)?;
            Ok(step)
        }
        Way::Empties => {
            empty(thread, world, buffer)?;
            let step = world.perform_owned(thread, next, action)?;
            Ok(step)
        }
    }
}
