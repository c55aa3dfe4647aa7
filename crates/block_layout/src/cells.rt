//! The cells of elements (UPC 6.5.1).

ghost use Rattle.std.specs.Prelude.{◌≡◌, ◌+◌, ◌*◌, ◌≤◌, ◌++◌, ◌∷◌, ◌↔◌, ℕ, [], IfOk, IsTrue, OnOk, Contains};
ghost use Rattle.block_layout.specs.Cells as pure;
ghost use Rattle.block_layout.specs.Lists.{under};
ghost use Rattle.block_layout.specs.code.Runs.{AreNear, runs_cells};
ghost use Rattle.block_layout.specs.Shapes.{CellsWithin, has_cell};
ghost use Rattle.block_layout.specs.declared.kind.Kind.{Kind};

use crate::cell_lists::{
    begins_by, kind_among, list_has, push_lists, same_cell, same_lists, sharable_list,
};
use crate::cells_iter::CellsIter;
use crate::ends::{end_of_list, end_of_runs};
use crate::kind::Kind;
use crate::run::Run;
use crate::runs::{
    copy_runs, kind_in_runs, push_moved_runs, push_run, push_run_copies, runs_have, seal,
};
use crate::same_runs::same_runs;
use crate::sharable::sharable_runs;
use std::alloc::{AllocError as OutOfMemory, Global};
use std::marker::Model;

// Where the tail has so many cells, it becomes a run before one more comes.
const MOST: usize = 256;

// The most bytes of a cell.
const LONGEST: u32 = 16;

/// Cells of an element: the byte offset and the kind of each. Contracts see the list.
#[derive(Drop)]
pub struct Cells {
    // Copies of patterns, and the cells after them.
    runs: Vec<Run>,
    tail: Vec<(u32, Kind)>,
}

impl Model for Cells {
    ghost use Rattle.std.specs.Prelude.{ℕ, ◌++◌, List};
    ghost use Rattle.block_layout.specs.code.Runs.{runs_cells};
    ghost use Rattle.block_layout.specs.declared.kind.Kind.{Kind};

    ghost Value = { List (ℕ × Kind) };

    ghost view = { λ c. runs_cells c.runs.items ++ c.tail.items };
}

// Whether so many copies of so many cells are few enough to stand after these one by one.
fn are_few(before: usize, count: u32, cells: usize) -> bool {
    cells.saturating_mul(count as usize) <= MOST.saturating_sub(before)
}

impl Cells {
    // The kind of the cell that begins at this byte: it is searched for among the last cells, or in one of the runs.
    pub(crate) fn kind_at(&self, place: u32) -> Option<Kind>
        requires { (size : ℕ) × CellsWithin self.now 0 size }
        ensures { result ≡ under place self.now }
    {
        let tail = self.tail.as_slice();
        if begins_by(tail, place) {
            return kind_among(tail, 0, place);
        }
        kind_in_runs(self.runs.as_slice(), place)
    }

    /// No cell.
    pub fn new(alloc: Global) -> Cells
        ensures { result ≡ [] }
    {
        Cells {
            runs: Vec::new(alloc),
            tail: Vec::new(alloc),
        }
    }

    /// The cells of a list. Takes no memory.
    pub fn from_vec(list: Vec<(u32, Kind)>) -> Cells
        ensures { result ≡ list.items }
    {
        Cells {
            runs: Vec::new(*list.allocator()),
            tail: list,
        }
    }

    /// The cells as a list.
    pub fn to_vec(&self, alloc: Global) -> Result<Vec<(u32, Kind)>, OutOfMemory>
        ensures { IfOk result (λ list. list.items ≡ self.now) }
    {
        let mut list = Vec::with_capacity(alloc, self.tail.len())?;
        for cell in self.iter() {
            list.push(cell)?;
        }
        Ok(list)
    }

    /// The same cells once more.
    pub fn copy(&self, alloc: Global) -> Result<Cells, OutOfMemory>
        ensures { IfOk result (λ copy. copy ≡ self.now) }
    {
        Ok(Cells {
            runs: copy_runs(alloc, self.runs.as_slice())?,
            tail: self.tail.as_slice().to_vec(alloc)?,
        })
    }

    /// The cells in order.
    pub fn iter(&self) -> CellsIter<'_>
        ensures { result ≡ self.now }
    {
        CellsIter::of(self.runs.as_slice(), self.tail.as_slice())
    }

    /// The cells that begin at a byte of the element or after it, in order. Those before it are not walked: in a run of
    /// copies the first one is found by division.
    pub fn from(&self, place: u32) -> CellsIter<'_>
        requires { (size : ℕ) × CellsWithin self.now 0 size }
        ensures { result ≡ pure.cells_from place self.now }
    {
        CellsIter::from(self.runs.as_slice(), self.tail.as_slice(), place)
    }

    /// Whether a cell begins before this byte of the element and ends after it.
    pub fn cuts(&self, place: u32) -> bool
        requires { (size : ℕ) × CellsWithin self.now 0 size }
        ensures { result ≡ pure.has_cut self.now place }
    {
        for (start, kind) in self.from(place.saturating_sub(LONGEST)) {
            if start >= place {
                return false;
            }
            if place - start < kind.size() {
                return true;
            }
        }
        false
    }

    /// Whether a cell of this kind begins at this byte of the element.
    #[tactic(auto, using(crate::proofs::FoundRuns::has_append))]
    pub fn has(&self, place: u32, kind: Kind) -> bool
        ensures value { result ≡ has_cell self.now place kind }
        ensures exact { IsTrue result ↔ Contains self.now (place, kind) }
    {
        runs_have(self.runs.as_slice(), place, kind) || list_has(self.tail.as_slice(), place, kind)
    }

    /// One cell more, after the others.
    pub fn push(&mut self, place: u32, kind: Kind) -> Result<(), OutOfMemory>
        ensures { OnOk result (self.new ≡ self.old ++ (place, kind) ∷ []) }
    {
        if self.tail.len() >= MOST {
            seal(&mut self.runs, &mut self.tail)?;
        }
        self.tail.push((place, kind))?;
        Ok(())
    }

    /// The cells of so many elements of one size, the first of which begins at a byte, after the others.
    #[tactic(auto, using(crate::proofs::Within::one_copy))]
    pub fn push_copies(
        &mut self,
        start: u32,
        count: u32,
        size: u32,
        part: &Cells,
    ) -> Result<(), OutOfMemory>
        requires within { CellsWithin part.now 0 size }
        requires near { start + count * size ≤ 4294967295 }
        ensures { OnOk result (self.new ≡ self.old ++ pure.moved start (pure.copies count size part.now)) }
    {
        if part.runs.is_empty() {
            return self.push_pattern(start, count, size, part.tail.as_slice());
        }
        if count == 1 {
            return self.push_part(start, size, part);
        }
        let runs = part.all_runs()?;
        seal(&mut self.runs, &mut self.tail)?;
        push_run_copies(&mut self.runs, start, count, size, runs.as_slice())
    }

    // The cells of one element, after the others.
    fn push_part(&mut self, start: u32, size: u32, part: &Cells) -> Result<(), OutOfMemory>
        requires within { CellsWithin part.now 0 size }
        requires near { start + size ≤ 4294967295 }
        ensures { OnOk result (self.new ≡ self.old ++ pure.moved start part.now) }
    {
        seal(&mut self.runs, &mut self.tail)?;
        push_moved_runs(&mut self.runs, start, part.runs.as_slice())?;
        self.push_pattern(start, 1, size, part.tail.as_slice())
    }

    // Copies of these cells, after the others.
    fn push_pattern(
        &mut self,
        start: u32,
        count: u32,
        size: u32,
        cells: &[(u32, Kind)],
    ) -> Result<(), OutOfMemory>
        requires within { CellsWithin cells.now 0 size }
        requires near { start + count * size ≤ 4294967295 }
        ensures { OnOk result (self.new ≡ self.old ++ pure.moved start (pure.copies count size cells.now)) }
    {
        if count == 0 || cells.is_empty() {
            return Ok(());
        }
        if are_few(self.tail.len(), count, cells.len()) {
            return push_lists(&mut self.tail, start, count, size, cells);
        }
        let run = Run::elements(*self.tail.allocator(), start, count, size, cells)?;
        seal(&mut self.runs, &mut self.tail)?;
        push_run(&mut self.runs, run)
    }

    // The cells with the tail as a run.
    fn all_runs(&self) -> Result<Vec<Run>, OutOfMemory>
        ensures { IfOk result (λ runs. runs_cells runs.items ≡ self.now) }
    {
        let alloc = *self.tail.allocator();
        let mut runs = copy_runs(alloc, self.runs.as_slice())?;
        let mut tail = self.tail.as_slice().to_vec(alloc)?;
        seal(&mut runs, &mut tail)?;
        Ok(runs)
    }

    /// Those that a shared object can have: pointers to private objects are none (UPC 6.5.1.1).
    #[tactic(auto, using(crate::proofs::SharableCells::sharable_append))]
    pub fn sharable(&self, alloc: Global) -> Result<Cells, OutOfMemory>
        ensures { IfOk result (λ cells. cells ≡ pure.sharable self.now) }
    {
        Ok(Cells {
            runs: sharable_runs(alloc, self.runs.as_slice())?,
            tail: sharable_list(alloc, self.tail.as_slice())?,
        })
    }

    /// Whether the cells are those of the other element.
    #[tactic(auto, using(crate::proofs::Told::told_tails))]
    pub fn same(&self, other: &Cells) -> bool
        ensures { result ≡ pure.same_cells self.now other.now }
    {
        match same_runs(self.runs.as_slice(), other.runs.as_slice()) {
            Some(true) => same_lists(self.tail.as_slice(), other.tail.as_slice()),
            Some(false) => false,
            None => self.same_in_step(other),
        }
    }

    // The same, cell by cell.
    fn same_in_step(&self, other: &Cells) -> bool
        ensures { result ≡ pure.same_cells self.now other.now }
    {
        let mut others = other.iter();
        for cell in self.iter() {
            match others.next() {
                Some(other) if same_cell(cell, other) => {}
                _ => return false,
            }
        }
        others.next().is_none()
    }

    /// Whether the cells lie in so many bytes, ascending and without overlap.
    pub fn lie_within(&self, size: u32) -> bool
        ensures { IsTrue result ↔ CellsWithin self.now 0 size }
    {
        if self.end_within(size) {
            return true;
        }
        self.lie_in_step(size)
    }

    // Whether one copy of each pattern shows that the cells lie in so many bytes.
    fn end_within(&self, size: u32) -> bool
        ensures { IsTrue result → CellsWithin self.now 0 size }
    {
        match end_of_runs(self.runs.as_slice()) {
            Some(end) => match end_of_list(self.tail.as_slice(), end) {
                Some(last) => last <= size,
                None => false,
            },
            None => false,
        }
    }

    // Whether the cells lie in so many bytes, cell by cell.
    fn lie_in_step(&self, size: u32) -> bool
        ensures { IsTrue result ↔ CellsWithin self.now 0 size }
    {
        let mut end: u64 = 0;
        for cell in self.iter() {
            if u64::from(cell.0) < end {
                return false;
            }
            end = u64::from(cell.0) + u64::from(cell.1.size());
            if end > u64::from(size) {
                return false;
            }
        }
        true
    }
}
