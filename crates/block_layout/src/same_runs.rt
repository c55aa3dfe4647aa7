//! Runs that are compared without a walk of their copies.

ghost use Rattle.std.specs.Prelude.{IfSome};
ghost use Rattle.block_layout.specs.code.Runs.{run_cells, runs_cells};
ghost use Rattle.block_layout.specs.code.SameRuns.{IsTold};

use crate::cell_lists::same_lists;
use crate::run::Run;

// Whether the cells of two runs are the same, where their patterns decide that.
fn same_run(a: &Run, b: &Run) -> Option<bool>
    ensures { IfSome result (λ same. IsTold same (run_cells a.now) (run_cells b.now)) }
{
    if a.start != b.start || a.stride != b.stride || a.count != b.count {
        return None;
    }
    if a.cells.len() != b.cells.len() {
        return None;
    }
    Some(same_lists(a.cells.as_slice(), b.cells.as_slice()))
}

/// Whether the cells of two lists of runs are the same, where their patterns decide that.
pub(crate) fn same_runs(a: &[Run], b: &[Run]) -> Option<bool>
    ensures { IfSome result (λ same. IsTold same (runs_cells a.now) (runs_cells b.now)) }
{
    if a.len() != b.len() {
        return None;
    }
    for i in 0..a.len() {
        let same = same_run(&a[i], &b[i])?;
        if !same {
            return Some(false);
        }
    }
    Some(true)
}
