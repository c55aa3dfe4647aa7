//! The cells of objects.

ghost use Rattle.std.specs.Prelude.{◌≡◌, ◌<◌, ◌≤◌, ◌+◌, ◌%◌, ◌^◌, ◌&&◌, nat_lt, IfOk, slice_get};
ghost use Rattle.std.specs.Option.{option_copied};
ghost use Rattle.std.specs.List.{All, list_any};
ghost use Rattle.block_layout.specs.Lists.{under};
ghost use Rattle.block_layout.specs.Shapes.{kind_size};
ghost use Rattle.upc_values.specs.Shapes as shapes;
ghost use Rattle.block_layout.specs.Cells.{same_cells};
ghost use Rattle.upc_values.specs.Views.{cuts, cuts_cell, cells_within};

use block_layout::{Cells, Kind, Shape};
use std::alloc::{AllocError as OutOfMemory, Global};

/// A cell: how many bytes after the first byte it begins, and its kind.
pub type Cell = (u64, Kind);

// The place of a byte in its element.
fn place_in(shape: &Shape, byte: u128) -> u128
    ensures { result ≡ byte % shape.now.size }
{
    if shape.size == 0 {
        return byte;
    }
    byte % u128::from(shape.size)
}

// The kind of the first cell that begins at this place of an element.
fn kind_under(place: u128, cells: &Cells) -> Option<Kind>
    ensures { result ≡ under place cells.now }
{
    for cell in cells.iter() {
        if u128::from(cell.0) == place {
            return Some(cell.1);
        }
    }
    None
}

/// The kind of the cell that begins at this byte, where elements of the shape follow one another.
pub fn kind_at(shape: Option<&Shape>, byte: u128) -> Option<Kind>
    ensures { result ≡ shapes.kind_at (option_copied shape.entry) byte }
{
    match shape {
        Some(shape) => kind_under(place_in(shape, byte), &shape.cells),
        None => None,
    }
}

// Whether a cell begins before this place of an element and ends after it.
fn cuts_one(place: u128, cells: &Cells) -> bool
    ensures { result ≡ list_any (λ c. nat_lt c.0 place && nat_lt place (c.0 + kind_size c.1)) cells.now }
{
    for cell in cells.iter() {
        let end = u128::from(cell.0) + u128::from(cell.1.size());
        if u128::from(cell.0) < place && place < end {
            return true;
        }
    }
    false
}

// Whether a cell begins before this byte and ends after it.
fn cuts(shape: Option<&Shape>, byte: u128) -> bool
    ensures { result ≡ cuts (option_copied shape.entry) byte }
{
    match shape {
        Some(shape) => cuts_one(place_in(shape, byte), &shape.cells),
        None => false,
    }
}

/// Whether so many bytes from this one on cut a cell at either end.
pub fn cuts_cell(shape: Option<&Shape>, byte: u128, bytes: u64) -> bool
    requires { byte ≤ 2 ^ 127 }
    ensures { result ≡ cuts_cell (option_copied shape.entry) byte bytes }
{
    cuts(shape, byte) || cuts(shape, byte + u128::from(bytes))
}

/// The cells in so many bytes from this one on.
pub fn cells_within(
    alloc: Global,
    shape: Option<&Shape>,
    byte: u128,
    bytes: u64,
) -> Result<Vec<Cell>, OutOfMemory>
    requires { byte ≤ 2 ^ 127 }
    ensures cells { IfOk result (λ cells. cells.items ≡ cells_within (option_copied shape.entry) byte bytes) }
    ensures within { IfOk result (λ cells. All (λ c. c.0 < bytes) cells.items) }
{
    let mut cells = Vec::new(alloc);
    for i in 0..bytes {
        if let Some(kind) = kind_at(shape, byte + u128::from(i)) {
            cells.push((i, kind))?;
        }
    }
    Ok(cells)
}

/// Whether they are the same cells, in place and kind.
pub fn same_cells(a: &[Cell], b: &[Cell]) -> bool
    ensures { result ≡ same_cells a.now b.now }
{
    if a.len() != b.len() {
        return false;
    }
    for at in 0..a.len() {
        if a[at].0 != b[at].0 || !a[at].1.is(b[at].1) {
            return false;
        }
    }
    true
}

/// The shape of this number.
pub fn shape_of(shapes: &[Shape], number: u32) -> Option<&Shape>
    ensures { option_copied result ≡ slice_get shapes.now number }
{
    shapes.get(number as usize)
}
