//! Where cells end, by one copy of each pattern.

ghost use Rattle.std.specs.Prelude.{IfSome};
ghost use Rattle.block_layout.specs.code.Runs.{run_cells, runs_cells};
ghost use Rattle.block_layout.specs.Shapes.{LieUpTo};

use crate::kind::Kind;
use crate::run::Run;

// Where these cells end, if they lie from there on, ascending and without overlap.
pub(crate) fn end_of_list(cells: &[(u32, Kind)], from: u32) -> Option<u32>
    ensures { IfSome result (λ end. LieUpTo cells.now from end) }
{
    let mut end = from;
    for (place, kind) in cells {
        if *place < end {
            return None;
        }
        end = place.checked_add(kind.size())?;
    }
    Some(end)
}

// Where the cells of a run end, if one copy shows that they lie from there on, ascending and without overlap.
fn end_of_run(run: &Run, from: u32) -> Option<u32>
    ensures { IfSome result (λ end. LieUpTo (run_cells run.now) from end) }
{
    let end = end_of_list(run.cells.as_slice(), from.saturating_sub(run.start))?;
    if run.count == 1 {
        return run.start.checked_add(end);
    }
    if from > run.start || end > run.stride {
        return None;
    }
    run.stride.checked_mul(run.count)?.checked_add(run.start)
}

// Where the cells of runs end, if one copy of each shows that they lie ascending and without overlap.
pub(crate) fn end_of_runs(runs: &[Run]) -> Option<u32>
    ensures { IfSome result (λ end. LieUpTo (runs_cells runs.now) 0 end) }
{
    let mut end = 0;
    for run in runs {
        end = end_of_run(run, end)?;
    }
    Some(end)
}
