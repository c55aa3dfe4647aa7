//! The parts, one after another.

ghost use Rattle.std.specs.Prelude.{◌≡◌, ◌<◌, ℕ, [], length, IfOk};
ghost use Rattle.upc_values.specs.Outcomes.{Outcome};
ghost use Rattle.thread_steps.specs.layer.Fronts.{IsInTurn};
ghost use Rattle.upc_verify_parts.specs.Parts.{HasShape, HoldsOfEach};
ghost use Rattle.upc_verify_history.specs.layer.Turns.{AreInTurn};
ghost use Rattle.upc_verify_judge.specs.layer.Meanings.{outcome_in};
ghost use Rattle.upc_verify_judge.specs.Verdicts.{IsVerdict, PartsAreASoundRun};
ghost use Rattle.upc_verify_judge.specs.code.Judging.{case_in, AreJudged, HoldBelow};

use crate::ends::broken_ends;
use crate::meant::{Meant, wants_of};
use crate::orders::broken_orders;
use crate::strands::broken_strands;
use crate::verdict::Verdict;
use memory_history::World;
use std::alloc::Global;
use upc_text::OutOfMemory;
use upc_values::{Journal, Orders};
use upc_verify_history::{broken_entries, is_lawful};
use upc_verify_stalls::broken_stalls;

// The verdict where all parts but the orders hold, whatever the sources come to.
fn judge_orders(
    alloc: Global,
    world: &World,
    journal: &Journal,
    orders: &Orders,
) -> Result<Verdict, OutOfMemory>
    requires some { 0 < world.now.0.threads }
    requires shape { HasShape world.now.0.threads journal.now orders.now }
    requires history { world.now.1 ≡ journal.now.history }
    ensures { IfOk result (λ v. (outcome : ℕ → Outcome)
        → HoldBelow (record { opening = world.now.0; outcome = outcome; journal = journal.now; orders = orders.now }) 6
        → IsVerdict (record { opening = world.now.0; outcome = outcome; journal = journal.now; orders = orders.now })
        v) }
{
    let broken = broken_orders(alloc, world, journal, orders)?;
    match broken {
        Some(thread) => Ok(Verdict::Broken { part: 6, thread }),
        None => Ok(Verdict::Sound),
    }
}

// The verdict where the parts before the ends hold, and the memory has the journal's history.
fn judge_ends(
    alloc: Global,
    world: &World,
    journal: &Journal,
    orders: &Orders,
    meant: &[Meant],
) -> Result<Verdict, OutOfMemory>
    requires judged { AreJudged world.now.0 journal.now orders.now meant.now 5 }
    requires history { world.now.1 ≡ journal.now.history }
    ensures { IfOk result (IsVerdict (case_in world.now.0 journal.now orders.now meant.now)) }
{
    match broken_ends(world, journal, meant) {
        Some(thread) => Ok(Verdict::Broken { part: 5, thread }),
        None => {
            let verdict = judge_orders(alloc, world, journal, orders)?;
            Ok(verdict)
        }
    }
}

// The verdict where the parts before the Stalls hold, and one memory has the journal's history, the other no entry.
fn judge_stalls(
    alloc: Global,
    world: &World,
    again: &mut World,
    journal: &Journal,
    orders: &Orders,
    meant: &[Meant],
) -> Result<Verdict, OutOfMemory>
    requires judged { AreJudged world.now.0 journal.now orders.now meant.now 4 }
    requires turns { AreInTurn journal.now.history }
    requires history { world.now.1 ≡ journal.now.history }
    requires empty { again.old.1 ≡ [] }
    requires same { again.old.0 ≡ world.now.0 }
    ensures { IfOk result (IsVerdict (case_in world.now.0 journal.now orders.now meant.now)) }
{
    let wants = wants_of(alloc, meant)?;
    let broken = broken_stalls(alloc, again, journal, wants.as_slice())?;
    match broken {
        Some(thread) => Ok(Verdict::Broken { part: 4, thread }),
        None => judge_ends(alloc, world, journal, orders, meant),
    }
}

// The verdict where the parts before the history hold, from two memories that have no entry.
fn judge_history(
    alloc: Global,
    world: &mut World,
    again: &mut World,
    journal: &Journal,
    orders: &Orders,
    meant: &[Meant],
) -> Result<Verdict, OutOfMemory>
    requires judged { AreJudged world.old.0 journal.now orders.now meant.now 3 }
    requires empty { world.old.1 ≡ [] }
    requires empty_again { again.old.1 ≡ [] }
    requires same { again.old.0 ≡ world.old.0 }
    ensures { IfOk result (IsVerdict (case_in world.old.0 journal.now orders.now meant.now)) }
{
    let lawful = is_lawful(world, &journal.history)?;
    if !lawful {
        return Ok(Verdict::Broken { part: 3, thread: 0 });
    }
    let verdict = judge_stalls(alloc, world, again, journal, orders, meant)?;
    Ok(verdict)
}

// The verdict where the parts before the entries hold, from two memories that have no entry.
fn judge_entries(
    alloc: Global,
    world: &mut World,
    again: &mut World,
    journal: &Journal,
    orders: &Orders,
    meant: &[Meant],
) -> Result<Verdict, OutOfMemory>
    requires judged { AreJudged world.old.0 journal.now orders.now meant.now 2 }
    requires empty { world.old.1 ≡ [] }
    requires empty_again { again.old.1 ≡ [] }
    requires same { again.old.0 ≡ world.old.0 }
    ensures { IfOk result (IsVerdict (case_in world.old.0 journal.now orders.now meant.now)) }
{
    let broken = broken_entries(alloc, journal)?;
    match broken {
        Some(thread) => Ok(Verdict::Broken { part: 2, thread }),
        None => judge_history(alloc, world, again, journal, orders, meant),
    }
}

/// The verdict on a journal and orders of the right shape, by what each thread's source comes to, from two memories
/// that have no entry and the same opening. The sources notify and wait in turn.
pub fn judge_by(
    alloc: Global,
    world: &mut World,
    again: &mut World,
    journal: &Journal,
    orders: &Orders,
    meant: &[Meant],
) -> Result<Verdict, OutOfMemory>
    requires some { 0 < world.old.0.threads }
    requires empty { world.old.1 ≡ [] }
    requires empty_again { again.old.1 ≡ [] }
    requires same { again.old.0 ≡ world.old.0 }
    requires shape { HasShape world.old.0.threads journal.now orders.now }
    requires many { length meant.now ≡ world.old.0.threads }
    requires turns { HoldsOfEach world.old.0.threads (λ t. IsInTurn (outcome_in meant.now t).actions) }
    ensures { IfOk result (IsVerdict (record {
      opening = world.old.0;
      outcome = outcome_in meant.now;
      journal = journal.now;
      orders = orders.now;
    })) }
{
    match broken_strands(journal, meant) {
        Some(thread) => Ok(Verdict::Broken { part: 1, thread }),
        None => judge_entries(alloc, world, again, journal, orders, meant),
    }
}

/// A law: all parts hold of all threads just where the journal is sound and the orders make its operations UPC
/// consistent (UPC Appendix B).
pub fn parts_are_a_sound_run()
    ensures { PartsAreASoundRun }
{}
