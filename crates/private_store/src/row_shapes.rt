//! ObjectList whose cells are all of one kind, each right behind the one before it.

ghost use Rattle.std.specs.Prelude.{◌≡◌, ℕ, false, Err, IfOk, IfSome, length, take};
ghost use Rattle.block_layout.specs.Shapes.{IsShape, same_kind};
ghost use Rattle.block_layout.specs.declared.kind.Kind.{Kind};
ghost use Rattle.private_store.specs.Live.{Thing};
ghost use Rattle.private_store.specs.code.Kept.{IsPlace};
ghost use Rattle.private_store.specs.code.Laid.{AreRows, IsKnown, IsRow, is_row_from, row_shape};

use crate::finding::byte_at;
use block_layout::run_error::{CELL_TYPE, PRIVATE_RANGE};
use block_layout::{Kind, Shape};
use std::alloc::Global;
use upc_text::OutOfMemory;
use upc_values::copy_shape;

// So many shapes of rows are known at most: each object of another one has a copy of its own.
const MOST_KNOWN: usize = 32;

/// A shape that objects share: a row of cells of one kind.
#[derive(Drop)]
pub(crate) struct Known {
    pub kind: Kind,
    pub size: u32,
    pub shape: Shape,
}

// The kind of the only cell of a shape, where it has all bytes.
fn single(shape: &Shape) -> Option<Kind>
    requires { IsShape shape.now }
    ensures { IfSome result (λ kind. IsRow kind shape.now) }
{
    match shape.cells.iter().next() {
        None => None,
        Some(cell) => {
            if cell.0 == 0 && cell.1.size() == shape.size {
                Some(cell.1)
            } else {
                None
            }
        }
    }
}

// The kind of the first cell.
fn first_kind(shape: &Shape) -> Option<Kind> {
    match shape.cells.iter().next() {
        None => None,
        Some(cell) => Some(cell.1),
    }
}

// Whether the shape is a row of cells of this kind.
fn is_row(shape: &Shape, kind: Kind) -> bool
    ensures { result ≡ is_row_from kind 0 shape.now.size shape.now.cells }
{
    let width = u64::from(kind.size());
    let mut end: u64 = 0;
    for cell in shape.cells.iter() {
        if u64::from(cell.0) != end || !cell.1.is(kind) {
            return false;
        }
        end = u64::from(cell.0) + width;
    }
    end == u64::from(shape.size)
}

/// The kind of all cells of a shape that is a row.
#[tactic(auto, using(crate::proofs::RowCells::row_from))]
pub(crate) fn row_kind(shape: &Shape) -> Option<Kind>
    requires { IsShape shape.now }
    ensures { IfSome result (λ kind. IsRow kind shape.now) }
{
    if let Some(kind) = single(shape) {
        return Some(kind);
    }
    match first_kind(shape) {
        None => None,
        Some(kind) => {
            if is_row(shape, kind) {
                Some(kind)
            } else {
                None
            }
        }
    }
}

// The place of this row of cells of a kind among those that are known.
#[tactic(auto, using(crate::proofs::RowCells::known_is))]
fn place_among(known: &[Known], shape: &Shape, kind: Kind) -> Option<usize>
    requires rows { AreRows known.now }
    requires row { IsRow kind shape.now }
    ensures { IfSome result (λ place. IsKnown known.now place shape.now) }
{
    for place in 0..known.len() {
        let row = &known[place];
        if row.size == shape.size && row.kind.is(kind) {
            return Some(place);
        }
    }
    None
}

/// The place of this row of cells of a kind among those that are known, None where too many others are.
#[tactic(auto, using(crate::proofs::RowCells::knowing))]
pub(crate) fn known_place(
    alloc: Global,
    known: &mut Vec<Known>,
    shape: &Shape,
    kind: Kind,
) -> Result<Option<usize>, OutOfMemory>
    requires rows { AreRows known.old.items }
    requires row { IsRow kind shape.now }
    ensures place { IfOk result (λ at. IfSome at (λ place. IsKnown known.new.items place shape.now)) }
    ensures kept { take (length known.old.items) known.new.items ≡ known.old.items }
    ensures rows { AreRows known.new.items }
{
    if let Some(place) = place_among(known, shape, kind) {
        return Ok(Some(place));
    }
    let place = known.len();
    if place >= MOST_KNOWN {
        return Ok(None);
    }
    let copy = copy_shape(alloc, shape)?;
    known.push(Known {
        kind,
        size: shape.size,
        shape: copy,
    })?;
    Ok(Some(place))
}

/// The place of the cell that an access reaches in a row of its kind, or the code of the run error.
#[inline(always)]
pub(crate) fn place_in_row(kind: Kind, size: u32, offset: i64) -> Result<usize, u8>
    ensures { (x : Thing) (n : ℕ) → x.shape ≡ row_shape kind n → size ≡ x.shape.size
        → IsPlace x offset kind result }
{
    let width = kind.size();
    match byte_at(offset, width, size) {
        None => Err(PRIVATE_RANGE),
        Some(byte) => {
            if byte % width == 0 {
                Ok((byte / width) as usize)
            } else {
                Err(CELL_TYPE)
            }
        }
    }
}

/// The code of the run error of an access in a row of another kind.
#[inline(never)]
pub(crate) fn code_in_other_row(kind: Kind, size: u32, offset: i64) -> u8
    ensures { (x : Thing) (own : Kind) (n : ℕ) → x.shape ≡ row_shape own n → size ≡ x.shape.size
        → same_kind own kind ≡ false → IsPlace x offset kind (Err result) }
{
    match byte_at(offset, kind.size(), size) {
        None => PRIVATE_RANGE,
        Some(_) => CELL_TYPE,
    }
}
