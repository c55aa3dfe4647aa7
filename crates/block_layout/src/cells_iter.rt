//! The cells of an element, one after another.

ghost use Rattle.std.specs.Prelude.{ℕ, ◌≡◌, ◌++◌};
ghost use Rattle.block_layout.specs.Cells.{cells_from};
ghost use Rattle.block_layout.specs.Shapes.{CellsWithin};
ghost use Rattle.block_layout.specs.code.Runs.{AreNear, run_cells, runs_cells};

use crate::cell_lists::{begins_by, list_from};
use crate::kind::Kind;
use crate::run::Run;
use crate::runs::runs_by;
use std::marker::Model;

/// The cells that are still to come, in order. Contracts see the list of them.
#[derive(Drop)]
pub struct CellsIter<'a> {
    // The cells of this copy that are left, and where the copy begins.
    left: &'a [(u32, Kind)],
    start: u32,
    // The copies of the run after this one.
    stride: u32,
    more: u32,
    pattern: &'a [(u32, Kind)],
    // The runs after this one, and the last cells.
    runs: &'a [Run],
    tail: &'a [(u32, Kind)],
}

impl<'a> Model for CellsIter<'a> {
    ghost use Rattle.std.specs.Prelude.{ℕ, ◌+◌, ◌++◌, List};
    ghost use Rattle.block_layout.specs.Moved.{moved, copies};
    ghost use Rattle.block_layout.specs.code.Runs.{AreNear, IsLeft, copies_left, runs_cells};
    ghost use Rattle.block_layout.specs.declared.kind.Kind.{Kind};

    ghost Value = { List (ℕ × Kind) };

    ghost view = { λ it. copies_left it.left.now it.start it.stride it.more it.pattern.now
        ++ (runs_cells it.runs.now ++ it.tail.now) };

    ghost invariant = { λ it. IsLeft it.left.now it.start it.stride it.more it.pattern.now };
}

impl<'a> Iterator for CellsIter<'a> {
    ghost use Rattle.std.specs.Iterator.{YieldsFirst, item_count};

    type Item = (u32, Kind);

    ghost next_gives = { YieldsFirst (λ left. left) };

    ghost remaining = { item_count (λ left. left) };

    fn next(&mut self) -> Option<(u32, Kind)> {
        if self.left.is_empty() {
            if self.more > 0 {
                self.more -= 1;
                self.start += self.stride;
                self.left = self.pattern;
            } else if let Some((run, runs)) = self.runs.split_first() {
                self.runs = runs;
                self.start = run.start;
                self.stride = run.stride;
                self.more = run.count - 1;
                self.pattern = run.cells.as_slice();
                self.left = self.pattern;
            } else {
                self.start = 0;
                self.left = self.tail;
                self.tail = &[];
            }
        }
        let (first, left) = self.left.split_first()?;
        self.left = left;
        Some((self.start + first.0, first.1))
    }
}

impl<'a> CellsIter<'a> {
    // The cells of these runs, and these after them, from a byte on.
    pub(crate) fn from(runs: &'a [Run], tail: &'a [(u32, Kind)], place: u32) -> CellsIter<'a>
        requires { (size : ℕ) × CellsWithin (runs_cells runs.now ++ tail.now) 0 size }
        ensures { result ≡ cells_from place (runs_cells runs.now ++ tail.now) }
    {
        if begins_by(tail, place) {
            return CellsIter::of(&[], list_from(tail, 0, place));
        }
        let by = runs_by(runs, place);
        if by == 0 {
            return CellsIter::of(runs, tail);
        }
        CellsIter::in_run(&runs[by - 1], place, &runs[by..], tail)
    }

    // The cells of a run from a byte on, those of these runs, and these after them.
    fn in_run(run: &'a Run, place: u32, runs: &'a [Run], tail: &'a [(u32, Kind)]) -> CellsIter<'a>
        requires { (size : ℕ) × CellsWithin (run_cells run.now) 0 size }
        ensures { result ≡ cells_from place (run_cells run.now) ++ (runs_cells runs.now ++ tail.now) }
    {
        let copy = run.last_by(place);
        let start = run.start + copy * run.stride;
        let pattern = run.cells.as_slice();
        CellsIter {
            left: list_from(pattern, start, place),
            start,
            stride: run.stride,
            more: run.count - 1 - copy,
            pattern,
            runs,
            tail,
        }
    }

    // The cells of these runs, and these after them.
    pub(crate) fn of(runs: &'a [Run], tail: &'a [(u32, Kind)]) -> CellsIter<'a>
        ensures { result ≡ runs_cells runs.now ++ tail.now }
    {
        CellsIter {
            left: &[],
            start: 0,
            stride: 0,
            more: 0,
            pattern: &[],
            runs,
            tail,
        }
    }
}
