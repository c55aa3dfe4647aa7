//! Runs without pointers to private objects.

ghost use Rattle.std.specs.Arc.{arc_value};
ghost use Rattle.std.specs.Prelude.{◌≡◌, ◌++◌, IfOk, OnOk};
ghost use Rattle.block_layout.specs.Cells as pure;
ghost use Rattle.block_layout.specs.code.Runs.{run_cells, runs_cells};

use crate::cell_lists::{same_lists, sharable_list};
use crate::kind::Kind;
use crate::run::Run;
use crate::runs::push_run;
use std::alloc::{AllocError as OutOfMemory, Global};
use std::sync::Arc;

// A pattern is looked for in so many runs before it.
const NEAR: usize = 16;

// These cells as a pattern. A pattern of the last runs that has the same cells is shared.
#[tactic(auto, using(crate::proofs::Same::same_exact))]
fn shared_pattern(
    alloc: Global,
    runs: &[Run],
    cells: Vec<(u32, Kind)>,
) -> Result<Arc<Vec<(u32, Kind)>>, OutOfMemory>
    ensures { IfOk result (λ pattern. (arc_value pattern).items ≡ cells.items) }
{
    let last = &runs[runs.len().saturating_sub(NEAR)..];
    for run in last {
        if same_lists(run.cells.as_slice(), cells.as_slice()) {
            return Arc::try_clone(&run.cells);
        }
    }
    Ok(Arc::new(alloc, cells)?)
}

// Adds those cells of a run that a shared object can have.
#[tactic(auto, using(crate::proofs::RunLists::runs_push, crate::proofs::SharableCells::without_private))]
fn push_sharable(alloc: Global, to: &mut Vec<Run>, run: &Run) -> Result<(), OutOfMemory>
    ensures { OnOk result (runs_cells to.new.items ≡ runs_cells to.old.items ++ pure.sharable (run_cells run.now)) }
{
    if !run.has_private() {
        return push_run(to, run.copy()?);
    }
    let cells = sharable_list(alloc, run.cells.as_slice())?;
    if cells.is_empty() {
        return Ok(());
    }
    let pattern = shared_pattern(alloc, to.as_slice(), cells)?;
    push_run(to, run.with_cells(pattern))
}

// The cells of runs that a shared object can have.
pub(crate) fn sharable_runs(alloc: Global, runs: &[Run]) -> Result<Vec<Run>, OutOfMemory>
    ensures { IfOk result (λ list. runs_cells list.items ≡ pure.sharable (runs_cells runs.now)) }
{
    let mut list = Vec::new(alloc);
    for run in runs {
        push_sharable(alloc, &mut list, run)?;
    }
    Ok(list)
}
