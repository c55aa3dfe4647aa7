//! Lists of cells.

ghost use Rattle.std.specs.Prelude.{ℕ, ◌≡◌, ◌+◌, ◌*◌, ◌≤◌, ◌++◌, ◌<◌, length, IfOk, OnOk, IsTrue, IsFalse};
ghost use Rattle.block_layout.specs.Cells as pure;
ghost use Rattle.block_layout.specs.Lists.{under};
ghost use Rattle.block_layout.specs.Shapes.{CellsWithin, has_cell};
ghost use Rattle.block_layout.specs.code.Runs.{BeginsBehind, first_of};

use crate::kind::Kind;
use std::alloc::{AllocError as OutOfMemory, Global};

// Adds these cells, moved on by so many bytes.
fn push_moved(
    cells: &mut Vec<(u32, Kind)>,
    start: u32,
    size: u32,
    part: &[(u32, Kind)],
) -> Result<(), OutOfMemory>
    requires within { CellsWithin part.now 0 size }
    requires near { start + size ≤ 4294967295 }
    ensures { OnOk result (cells.new.items ≡ cells.old.items ++ pure.moved start part.now) }
{
    for (offset, kind) in part {
        cells.push((start + *offset, *kind))?;
    }
    Ok(())
}

// Adds the cells of so many elements, one after the other from there.
pub(crate) fn push_lists(
    cells: &mut Vec<(u32, Kind)>,
    start: u32,
    count: u32,
    size: u32,
    part: &[(u32, Kind)],
) -> Result<(), OutOfMemory>
    requires within { CellsWithin part.now 0 size }
    requires near { start + count * size ≤ 4294967295 }
    ensures { OnOk result (cells.new.items ≡ cells.old.items ++ pure.moved start (pure.copies count size part.now)) }
{
    for i in 0..count {
        push_moved(cells, start + i * size, size, part)?;
    }
    Ok(())
}

pub(crate) fn same_cell(a: (u32, Kind), b: (u32, Kind)) -> bool
    ensures { result ≡ pure.same_cell a b }
{
    a.0 == b.0 && a.1.is(b.1)
}

pub(crate) fn same_lists(a: &[(u32, Kind)], b: &[(u32, Kind)]) -> bool
    ensures { result ≡ pure.same_cells a.now b.now }
{
    if a.len() != b.len() {
        return false;
    }
    for i in 0..a.len() {
        if !same_cell(a[i], b[i]) {
            return false;
        }
    }
    true
}

// Whether a cell of this kind begins at this byte.
pub(crate) fn list_has(cells: &[(u32, Kind)], place: u32, kind: Kind) -> bool
    ensures { result ≡ has_cell cells.now place kind }
{
    cells.iter().any(|cell| cell.0 == place && cell.1.is(kind))
}

// The kind of the cell that begins at a byte, where each of these cells is moved on by so many bytes.
pub(crate) fn kind_among(cells: &[(u32, Kind)], start: u32, place: u32) -> Option<Kind>
    requires { (size : ℕ) × CellsWithin (pure.moved start cells.now) 0 size }
    ensures { result ≡ under place (pure.moved start cells.now) }
{
    let left = list_from(cells, start, place);
    if left.is_empty() {
        return None;
    }
    let (first, kind) = left[0];
    if u64::from(start) + u64::from(first) != u64::from(place) {
        return None;
    }
    Some(kind)
}

// The byte at which the first of these cells begins.
pub(crate) fn first_place(cells: &[(u32, Kind)]) -> u32
    requires { 0 < length cells.now }
    ensures { result ≡ first_of cells.now }
{
    cells[0].0
}

// Whether the first of these cells begins at a byte or before it.
pub(crate) fn begins_by(cells: &[(u32, Kind)], place: u32) -> bool
    ensures by { IsTrue result → (0 < length cells.now) × (first_of cells.now ≤ place) }
    ensures behind { IsFalse result → BeginsBehind place cells.now }
{
    !cells.is_empty() && cells[0].0 <= place
}

// Those of these cells, each moved on by so many bytes, that begin at a byte or after it; before they are moved.
pub(crate) fn list_from(cells: &[(u32, Kind)], start: u32, place: u32) -> &[(u32, Kind)]
    requires { (size : ℕ) × CellsWithin (pure.moved start cells.now) 0 size }
    ensures { pure.moved start result.now ≡ pure.cells_from place (pure.moved start cells.now) }
{
    let before = cells.partition_point(|cell| u64::from(start) + u64::from(cell.0)
        < u64::from(place));
    &cells[before..]
}

// The cells without pointers to private objects.
pub(crate) fn sharable_list(
    alloc: Global,
    cells: &[(u32, Kind)],
) -> Result<Vec<(u32, Kind)>, OutOfMemory>
    ensures { IfOk result (λ list. list.items ≡ pure.sharable cells.now) }
{
    cells
        .iter()
        .filter(|c| !c.1.is_private())
        .copied()
        .collect(alloc)
}
