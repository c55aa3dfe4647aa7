//! Copies of a pattern of cells.

ghost use Rattle.std.specs.Arc.{arc_value};
ghost use Rattle.std.specs.List.{list_any};
ghost use Rattle.std.specs.Prelude.{◌≡◌, ℕ, ◌+◌, ◌*◌, ◌<◌, ◌≤◌, ◌++◌, IfOk, IfSome, length};
ghost use Rattle.block_layout.specs.Cells as pure;
ghost use Rattle.block_layout.specs.Lists.{under};
ghost use Rattle.block_layout.specs.code.Runs.{AreNear, GoesOn, IsLastBy, IsRun};
ghost use Rattle.block_layout.specs.code.Runs.{first_of, hits, repeated, run_cells};
ghost use Rattle.block_layout.specs.Shapes.{CellsWithin, has_cell};

use crate::cell_lists::{first_place, kind_among, same_lists};
use crate::kind::Kind;
use std::alloc::{AllocError as OutOfMemory, Global};
use std::marker::Model;
use std::sync::Arc;

/// So many copies of a pattern: the first begins at `start`, each next one `stride` bytes further. Contracts see these
/// four. There is a copy, and the pattern has a cell.
#[derive(Drop)]
pub(crate) struct Run {
    pub(crate) start: u32,
    pub(crate) stride: u32,
    pub(crate) count: u32,
    pub(crate) cells: Arc<Vec<(u32, Kind)>>,
}

impl Model for Run {
    ghost use Rattle.std.specs.Arc.{arc_value};
    ghost use Rattle.block_layout.specs.code.Runs.{Repeated, IsRun, repeated};

    ghost Value = { Repeated };

    ghost view = { λ r. repeated r.start r.stride r.count (arc_value r.cells).items };

    ghost invariant = { λ r. IsRun (repeated r.start r.stride r.count (arc_value r.cells).items) };
}

impl Run {
    /// Copies of this pattern.
    pub(crate) fn of(start: u32, stride: u32, count: u32, cells: Arc<Vec<(u32, Kind)>>) -> Run
        requires { IsRun (repeated start stride count (arc_value cells).items) }
        ensures { result ≡ repeated start stride count (arc_value cells).items }
    {
        Run {
            start,
            stride,
            count,
            cells,
        }
    }

    /// Elements of one size, one after the other.
    #[tactic(auto, using(crate::proofs::Near::elements_are_run))]
    pub(crate) fn elements(
        alloc: Global,
        start: u32,
        count: u32,
        size: u32,
        cells: &[(u32, Kind)],
    ) -> Result<Run, OutOfMemory>
        requires some { 0 < count }
        requires cell { 0 < length cells.now }
        requires within { CellsWithin cells.now 0 size }
        requires near { start + count * size ≤ 4294967295 }
        ensures { IfOk result (λ run. run ≡ repeated start size count cells.now) }
    {
        let pattern = Arc::new(alloc, cells.to_vec(alloc)?)?;
        Ok(Run::of(start, size, count, pattern))
    }

    /// These cells once.
    #[tactic(auto, using(crate::proofs::Near::once_is_run, crate::proofs::Near::once_cells))]
    pub(crate) fn once(alloc: Global, cells: Vec<(u32, Kind)>) -> Result<Run, OutOfMemory>
        requires { 0 < length cells.items }
        ensures { IfOk result (λ run. run_cells run ≡ cells.items) }
    {
        Ok(Run::of(0, 0, 1, Arc::new(alloc, cells)?))
    }

    /// The same copies once more.
    pub(crate) fn copy(&self) -> Result<Run, OutOfMemory>
        ensures { IfOk result (λ run. run ≡ self.now) }
    {
        Ok(Run {
            start: self.start,
            stride: self.stride,
            count: self.count,
            cells: Arc::try_clone(&self.cells)?,
        })
    }

    /// The same copies, so many bytes further.
    #[tactic(auto, using(crate::proofs::Near::moved_start, crate::proofs::Near::moved_is_run, crate::proofs::Near::moved_run_cells))]
    pub(crate) fn moved(&self, by: u32) -> Result<Run, OutOfMemory>
        requires { AreNear (pure.moved by (run_cells self.now)) }
        ensures { IfOk result (λ run. run_cells run ≡ pure.moved by (run_cells self.now)) }
    {
        Ok(Run {
            start: by + self.start,
            stride: self.stride,
            count: self.count,
            cells: Arc::try_clone(&self.cells)?,
        })
    }

    // The bytes from one copy to the next, where the copies of the other run go on after these.
    fn stride_to(&self, next: &Run) -> Option<u32>
        ensures { IfSome result (λ stride. GoesOn stride self.now next.now) }
    {
        let stride = if self.count > 1 {
            self.stride
        } else if next.count > 1 {
            next.stride
        } else {
            next.start.checked_sub(self.start)?
        };
        let end = stride.checked_mul(self.count)?.checked_add(self.start)?;
        let goes_on = stride > 0 && next.start == end && (next.count == 1 || next.stride == stride);
        goes_on.then_some(stride)
    }

    /// The copies of both as one run, where those of the other go on after these.
    pub(crate) fn joined(&self, next: &Run) -> Result<Option<Run>, OutOfMemory>
        ensures { IfOk result (λ joined. IfSome joined (λ run. run_cells run
            ≡ run_cells self.now ++ run_cells next.now)) }
    {
        let Some(stride) = self.stride_to(next) else {
            return Ok(None);
        };
        let Some(count) = self.count.checked_add(next.count) else {
            return Ok(None);
        };
        if !same_lists(self.cells.as_slice(), next.cells.as_slice()) {
            return Ok(None);
        }
        Ok(Some(Run {
            start: self.start,
            stride,
            count,
            cells: Arc::try_clone(&self.cells)?,
        }))
    }

    /// Whether the pattern has a pointer to a private object.
    pub(crate) fn has_private(&self) -> bool
        ensures { result ≡ list_any (λ c. pure.is_private c.1) self.now.cells }
    {
        self.cells.as_slice().iter().any(|cell| cell.1.is_private())
    }

    /// Copies of those cells of the pattern that a shared object can have.
    #[tactic(auto, using(crate::proofs::SharableCells::sharable_is_run, crate::proofs::SharableCells::sharable_run))]
    pub(crate) fn with_cells(&self, cells: Arc<Vec<(u32, Kind)>>) -> Run
        requires sharable { (arc_value cells).items ≡ pure.sharable self.now.cells }
        requires cell { 0 < length (arc_value cells).items }
        ensures { run_cells result ≡ pure.sharable (run_cells self.now) }
    {
        Run {
            start: self.start,
            stride: self.stride,
            count: self.count,
            cells,
        }
    }

    /// The byte at which the first cell begins.
    pub(crate) fn first(&self) -> u64
        ensures value { result ≡ first_of (run_cells self.now) }
        ensures some { 0 < length (run_cells self.now) }
    {
        u64::from(self.start) + u64::from(first_place(self.cells.as_slice()))
    }

    /// The number of the last copy that begins at a byte or before it; 0 where none does.
    pub(crate) fn last_by(&self, place: u32) -> u32
        ensures { IsLastBy place result self.now }
    {
        let first = self.first();
        let place = u64::from(place);
        if place < first || self.stride == 0 {
            return 0;
        }
        let copy = (place - first) / u64::from(self.stride);
        copy.min(u64::from(self.count - 1)) as u32
    }

    // Whether one of the copies of a cell of the pattern begins at a byte.
    fn reaches(&self, offset: u32, place: u32) -> bool
        ensures { result ≡ hits self.now.start self.now.stride self.now.count offset place }
    {
        let first = u64::from(self.start) + u64::from(offset);
        let place = u64::from(place);
        if place < first {
            return false;
        }
        let gap = place - first;
        if self.stride == 0 {
            return gap == 0;
        }
        let stride = u64::from(self.stride);
        gap % stride == 0 && gap / stride < u64::from(self.count)
    }

    /// Whether a cell of this kind begins at this byte.
    pub(crate) fn has(&self, place: u32, kind: Kind) -> bool
        ensures { result ≡ has_cell (run_cells self.now) place kind }
    {
        for (offset, here) in self.cells.as_slice() {
            if here.is(kind) && self.reaches(*offset, place) {
                return true;
            }
        }
        false
    }

    /// The kind of the cell that begins at this byte: the copy is found by division, the cell of the pattern by search.
    pub(crate) fn kind_at(&self, place: u32) -> Option<Kind>
        requires { (size : ℕ) × CellsWithin (run_cells self.now) 0 size }
        ensures { result ≡ under place (run_cells self.now) }
    {
        let start = self.start + self.last_by(place) * self.stride;
        kind_among(self.cells.as_slice(), start, place)
    }
}
