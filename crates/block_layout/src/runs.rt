//! Lists of runs.

ghost use Rattle.std.specs.Prelude.{◌≡◌, ℕ, ◌++◌, ◌+◌, ◌-◌, ◌*◌, ◌<◌, ◌≤◌, [], length, drop, slice_index_or, IfOk, OnOk};
ghost use Rattle.block_layout.specs.Moved.{moved, copies};
ghost use Rattle.block_layout.specs.Lists.{under};
ghost use Rattle.block_layout.specs.code.Runs.{AreNear, BeginsBehind, Repeated, first_of, run_cells, runs_cells};
ghost use Rattle.block_layout.specs.Shapes.{CellsWithin, has_cell};

use crate::kind::Kind;
use crate::run::Run;
use std::alloc::{AllocError as OutOfMemory, Global};
use std::mem;

// The same runs once more. They share their patterns.
#[tactic(auto, using(crate::proofs::RunLists::runs_push, crate::proofs::RunLists::runs_take))]
pub(crate) fn copy_runs(alloc: Global, runs: &[Run]) -> Result<Vec<Run>, OutOfMemory>
    ensures { IfOk result (λ copy. runs_cells copy.items ≡ runs_cells runs.now) }
{
    let mut copy = Vec::with_capacity(alloc, runs.len())?;
    for run in runs {
        copy.push(run.copy()?)?;
    }
    Ok(copy)
}

// Adds a run. Where its copies go on after those of the last one, the last one has them too.
#[tactic(auto, using(crate::proofs::RunLists::runs_push, crate::proofs::Joined::joined_behind))]
pub(crate) fn push_run(to: &mut Vec<Run>, run: Run) -> Result<(), OutOfMemory>
    ensures { OnOk result (runs_cells to.new.items ≡ runs_cells to.old.items ++ run_cells run) }
{
    let Some(last) = to.pop() else {
        to.push(run)?;
        return Ok(());
    };
    match last.joined(&run)? {
        Some(whole) => to.push(whole)?,
        None => {
            to.push(last)?;
            to.push(run)?;
        }
    }
    Ok(())
}

// Adds these runs, so many bytes further.
#[tactic(auto, using(crate::proofs::RunLists::run_near))]
pub(crate) fn push_moved_runs(
    to: &mut Vec<Run>,
    start: u32,
    runs: &[Run],
) -> Result<(), OutOfMemory>
    requires { AreNear (moved start (runs_cells runs.now)) }
    ensures { OnOk result (runs_cells to.new.items ≡ runs_cells to.old.items ++ moved start (runs_cells runs.now)) }
{
    for run in runs {
        push_run(to, run.moved(start)?)?;
    }
    Ok(())
}

// Adds copies of the cells of these runs.
pub(crate) fn push_run_copies(
    to: &mut Vec<Run>,
    start: u32,
    count: u32,
    size: u32,
    runs: &[Run],
) -> Result<(), OutOfMemory>
    requires within { CellsWithin (runs_cells runs.now) 0 size }
    requires near { start + count * size ≤ 4294967295 }
    ensures { OnOk result (runs_cells to.new.items
        ≡ runs_cells to.old.items ++ moved start (copies count size (runs_cells runs.now))) }
{
    for i in 0..count {
        push_moved_runs(to, start + i * size, runs)?;
    }
    Ok(())
}

// Makes the tail a run, where it has a cell.
#[tactic(auto, using(crate::proofs::RunLists::runs_push))]
pub(crate) fn seal(runs: &mut Vec<Run>, tail: &mut Vec<(u32, Kind)>) -> Result<(), OutOfMemory>
    ensures cells { OnOk result (runs_cells runs.new.items ≡ runs_cells runs.old.items ++ tail.old.items) }
    ensures empty { OnOk result (tail.new.items ≡ []) }
{
    if tail.is_empty() {
        return Ok(());
    }
    let alloc = *tail.allocator();
    let cells = mem::replace(tail, Vec::new(alloc));
    push_run(runs, Run::once(alloc, cells)?)
}

pub(crate) fn runs_have(runs: &[Run], place: u32, kind: Kind) -> bool
    ensures { result ≡ has_cell (runs_cells runs.now) place kind }
{
    for run in runs {
        if run.has(place, kind) {
            return true;
        }
    }
    false
}

// How many of these runs begin at a byte or before it, where they ascend: the last of them does, and what follows it
// begins after that byte.
pub(crate) fn runs_by(runs: &[Run], place: u32) -> usize
    ensures within { result ≤ length runs.now }
    ensures by { (d : Repeated) → let last = run_cells (slice_index_or runs.now (result - 1) d) in
        0 < result → (0 < length last) × (first_of last ≤ place) }
    ensures behind { BeginsBehind place (runs_cells (drop result runs.now)) }
{
    let mut low = 0;
    let mut high = runs.len();
    while low < high {
        let middle = low + (high - low) / 2;
        if runs[middle].first() <= u64::from(place) {
            low = middle + 1;
        } else {
            high = middle;
        }
    }
    low
}

// The kind of the cell of these runs that begins at this byte.
pub(crate) fn kind_in_runs(runs: &[Run], place: u32) -> Option<Kind>
    requires { (size : ℕ) × CellsWithin (runs_cells runs.now) 0 size }
    ensures { result ≡ under place (runs_cells runs.now) }
{
    let by = runs_by(runs, place);
    if by == 0 {
        return None;
    }
    runs[by - 1].kind_at(place)
}
