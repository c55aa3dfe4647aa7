//! A history, entry by entry.

ghost use Rattle.std.specs.Prelude.{◌≡◌, ◌<◌, ◌↔◌, [], ◌∷◌, ◌++◌, true, IsTrue, IfOk};
ghost use Rattle.upc_values.specs.History.{EachBelow};
ghost use Rattle.memory_history.specs.layer.Turns.{takes_turn};
ghost use Rattle.upc_verify_parts.specs.Parts.{HistoryHolds};
ghost use Rattle.upc_verify_history.specs.layer.Turns.{AreInTurn};
ghost use Rattle.upc_verify_history.specs.layer.Lawful.{IsLawful};

use memory_history::{Step, World};
use upc_text::OutOfMemory;
use upc_values::{Entries, Entry, same_reply};

/// Whether the entry is well formed and has its lawful reply after the history of this memory; if so, it is one more
/// there.
pub fn goes_on(world: &mut World, entry: &Entry) -> Result<bool, OutOfMemory>
    requires below { entry.now.thread < world.old.0.threads }
    requires turn { takes_turn world.old.1 entry.now.thread entry.now.action ≡ true }
    ensures lawful { IfOk result (λ b. IsTrue b ↔ IsLawful world.old.0 world.old.1 entry.now) }
    ensures grown { IfOk result (λ b. IsTrue b → world.new.1 ≡ world.old.1 ++ entry.now ∷ []) }
    ensures opening { world.new.0 ≡ world.old.0 }
{
    if !world.is_well_formed(&entry.action) {
        return Ok(false);
    }
    match world.perform(entry.thread, entry.index, &entry.action)? {
        Step::Done(reply) => Ok(same_reply(&reply, &entry.reply)),
        Step::Disabled => Ok(false),
    }
}

/// Whether each entry of a history was well formed and has its lawful reply, from a memory that has no entry; if so,
/// the memory then has this history.
pub fn is_lawful(world: &mut World, history: &Entries) -> Result<bool, OutOfMemory>
    requires empty { world.old.1 ≡ [] }
    requires below { EachBelow world.old.0.threads history.now }
    requires turns { AreInTurn history.now }
    ensures lawful { IfOk result (λ b. IsTrue b ↔ HistoryHolds world.old.0 history.now) }
    ensures whole { IfOk result (λ b. IsTrue b → world.new.1 ≡ history.now) }
    ensures opening { world.new.0 ≡ world.old.0 }
{
    for entry in history.iter() {
        let lawful = goes_on(world, entry)?;
        if !lawful {
            return Ok(false);
        }
    }
    world.keeps();
    Ok(true)
}
