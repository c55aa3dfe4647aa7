//! The lists of picks that the words ask for.

ghost use Rattle.std.specs.Prelude.{◌≡◌, ◌≤◌, [], ◌∷◌, IfOk, map, length};
ghost use Rattle.upc_outcomes_words.specs.Values.{IsFit};
ghost use Rattle.upc_outcomes_words.specs.layer.Views.{view_plan};
ghost use Rattle.upc_outcomes.specs.Plans.{IsPlanned};

use outcomes::{every_list, seeded};
use std::alloc::{AllocError as OutOfMemory, Global};
use upc_outcomes_words::Plan;

// A list alone.
fn alone(alloc: Global, picks: &[u32]) -> Result<Vec<Vec<u32>>, OutOfMemory>
    ensures { IfOk result (λ all. map (λ v. v.items) all.items ≡ picks.now ∷ []) }
{
    let mut all = Vec::new(alloc);
    all.push(Vec::from_slice(alloc, picks)?)?;
    Ok(all)
}

/// The lists of picks of a plan.
pub fn lists_of(alloc: Global, threads: u32, plan: &Plan) -> Result<Vec<Vec<u32>>, OutOfMemory>
    requires one { 1 ≤ threads }
    requires fit { IsFit threads (view_plan plan.now) }
    ensures planned { IfOk result (λ all. IsPlanned (view_plan plan.now) threads (map (λ v. v.items) all.items)) }
    ensures few { IfOk result (λ all. length all.items ≤ 100000) }
{
    match plan {
        Plan::Seeded(many, seed) => seeded(alloc, threads, *many as u32, *seed),
        Plan::Every(most) => every_list(alloc, threads, *most as u32),
        Plan::Given(picks) => alone(alloc, picks.as_slice()),
        Plan::Recorded(picks) => alone(alloc, picks.as_slice()),
    }
}
