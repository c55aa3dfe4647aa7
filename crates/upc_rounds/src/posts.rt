//! The boxes through which the conductor of a run hands tasks to the other threads.

ghost use Rattle.std.specs.Prelude.{◌≡◌, IfOk, length};
ghost use Rattle.post_box.specs.layer.Rows.{AreIdle, AreFree};
ghost use Rattle.turn_cell.specs.layer.Seats.{id_of, started};
ghost use Rattle.upc_rounds.specs.code.Posts.{AreFor};
ghost use Rattle.upc_task.specs.layer.Sources.{Outcomes};
ghost use Rattle.upc_task.specs.layer.Seated.{IsTask};
ghost use Rattle.upc_rounds_teams.specs.layer.Places.{Did};

use memory_history::World;
use post_box::{Row, Work, make_row};
use stack_code::Code;
use std::alloc::{AllocError as OutOfMemory, Global};
use std::snapshot::Snapshot;
use turn_cell::TurnCell;
use upc_rounds_teams::place::Place;

/// The cell and the code of a run: a thread's part in a round goes on with a task of them.
#[derive(Drop)]
pub(crate) struct Part {
    cell: Snapshot<TurnCell<World>>,
    code: Snapshot<Code>,
}

impl Work for Part {
    type Item = Place;

    ghost takes = { λ p k. (f : Outcomes)
        × IsTask (id_of p.cell.value) (started p.cell.value).0 p.code.value f k.task };

    ghost did = { λ p k m. Did (id_of p.cell.value) (started p.cell.value).0 p.code.value k m };
}

/// So many boxes for this cell and this code.
pub(crate) fn make_posts(
    alloc: Global,
    cell: &TurnCell<World>,
    code: &Code,
    many: u32,
    looks: u32,
) -> Result<Row<Part>, OutOfMemory>
    ensures many { IfOk result (λ r. length r.boxes.items ≡ many) }
    ensures work { IfOk result (λ r. AreFor cell.now code.now r.boxes.items) }
    ensures owners { IfOk result (λ r. AreIdle r.boxes.items r.owners.items) }
    ensures doers { IfOk result (λ r. AreFree r.boxes.items r.doers.items) }
{
    let part = Part {
        cell: Snapshot::of(cell),
        code: Snapshot::of(code),
    };
    make_row(alloc, &part, many, looks)
}
