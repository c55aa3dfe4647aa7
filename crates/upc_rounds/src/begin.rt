//! The beginning of a run.

ghost use Rattle.std.specs.Prelude.{ℕ, ◌≡◌, ◌≤◌, [], IfOk, false, None, length};
ghost use Rattle.upc_values.specs.Lists.{Numbered};
ghost use Rattle.upc_values.specs.Openings.{Opening, IsOpening};
ghost use Rattle.turn_cell.specs.layer.Seats.{TableId, AreNew};
ghost use Rattle.upc_task.specs.layer.Sources.{Outcomes, HasOutcomes};
ghost use Rattle.upc_task.specs.layer.Kept.{AreLimits};
ghost use Rattle.upc_rounds.specs.layer.Openings.{opening_of};
ghost use Rattle.upc_rounds_teams.specs.layer.Runs.{standing_of};
ghost use Rattle.upc_rounds_teams.specs.layer.Teams.{IsCrew, worker_of, workers_of, seen_among};

use memory_history::World;
use stack_code::Code;
use std::alloc::{AllocError as OutOfMemory, Global};
use turn_cell::Seat;
use typed_tree::Program;
use upc_rounds_base::objects_of;
use upc_rounds_teams::place::Place;
use upc_task::{Limits, Task};

/// The shared memory with which a program begins.
pub fn begin(alloc: Global, program: &Program, threads: u32) -> Result<World, OutOfMemory>
    requires { program.now.threads ≡ threads }
    ensures { IfOk result (λ w. (w.1 ≡ []) × (w.0 ≡ opening_of program.now)) }
{
    let declared = objects_of(alloc, program.shared_objects())?;
    World::make(
        alloc,
        declared.as_slice(),
        program.initials(),
        program.shapes(),
        threads,
    )
}

/// A task for each seat.
pub fn make_all(
    alloc: Global,
    code: &Code,
    limits: Limits,
    seats: Vec<Seat<World>>,
) -> Result<Vec<Place>, OutOfMemory>
    requires limits { AreLimits limits }
    requires code { code.now.threads ≡ limits.threads }
    requires seats { (z : TableId) × (o : Opening) × AreNew z o 0 seats.items }
    requires many { length seats.items ≡ limits.threads }
    ensures many { IfOk result (λ ks. length ks.items ≡ limits.threads) }
    ensures crew { IfOk result (λ ks. (z : TableId) (o : Opening) (f : Outcomes) → AreNew z o 0 seats.items
        → IsOpening o → HasOutcomes o code.now limits f
        → IsCrew z o code.now f ks.items × (seen_among ks.items ≡ [])) }
    ensures limits { IfOk result (λ ks. Numbered (λ i k. k.limits ≡ limits) (workers_of ks.items)) }
    ensures fresh { IfOk result (λ ks.
        Numbered (λ i k. standing_of k ≡ record { items = []; «end» = None }) (workers_of ks.items)) }
{
    let mut places = Vec::new(alloc);
    let mut number = 0u32;
    for seat in seats {
        let task = Task::make(alloc, code, number, limits, seat)?;
        places.push(Place {
            task,
            failed: false,
        })?;
        number += 1;
    }
    Ok(places)
}
