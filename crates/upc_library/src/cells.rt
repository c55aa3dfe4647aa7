//! The cells of elements of a shape that follow one another.

ghost use Rattle.std.specs.Prelude.{ℕ, ◌≡◌, ◌<◌, ◌≤◌, ◌%◌, ◌^◌, ◌↔◌, IfSome, IsTrue, MatchOption, Some, [], not};
ghost use Rattle.std.specs.Prelude.{slice_get};
ghost use Rattle.std.specs.Option.{option_copied};
ghost use Rattle.std.specs.List.{list_any};
ghost use Rattle.block_layout.specs.Lists.{under};
ghost use Rattle.block_layout.specs.Shapes.{IsShape};
ghost use Rattle.block_layout.specs.Cells.{same_cells};
ghost use Rattle.upc_values.specs.Shapes as shapes;
ghost use Rattle.upc_values.specs.Views.{cuts, cuts_cell, cells_within};
ghost use Rattle.upc_library.specs.code.Cursors.{IsCursor, IsPassed, Passes};
ghost use Rattle.upc_library.specs.code.Ranges.{IsGap, IsNext, is_no_integer};

use block_layout::{CellsIter, Kind, Shape};
use upc_values::is_integer;

/// A cell: how many bytes after the first byte it begins, and its kind.
pub type Cell = (u32, Kind);

// Where the next cell is looked for in an element.
#[derive(Drop)]
struct Cursor<'a> {
    place: u32,
    next: Option<(u32, Kind)>,
    left: CellsIter<'a>,
}

// The first byte of an element.
fn begin(shape: &Shape) -> Cursor<'_>
    requires { IsShape shape.now }
    ensures cursor { IsCursor shape.now result.place result.next result.left }
    ensures place { result.place ≡ 0 }
{
    let mut left = shape.cells.iter();
    let next = left.next();
    Cursor {
        place: 0,
        next,
        left,
    }
}

// The cursor at a byte of the element. The cells before it are not walked.
fn at(shape: &Shape, place: u32) -> Cursor<'_>
    requires shape { IsShape shape.now }
    requires inside { place < shape.now.size }
    ensures cursor { IsCursor shape.now result.place result.next result.left }
    ensures place { result.place ≡ place }
{
    let mut left = shape.cells.from(place);
    let next = left.next();
    Cursor { place, next, left }
}

// The kind of the cell that begins at the cursor's byte, if one does, which is then passed.
fn found(cursor: &mut Cursor<'_>, shape: &Shape) -> Option<Kind>
    requires cursor { IsCursor shape.now cursor.old.place cursor.old.next cursor.old.left }
    ensures kind { result ≡ under cursor.old.place shape.now.cells }
    ensures place { cursor.new.place ≡ cursor.old.place }
    ensures passed { IsPassed shape.now cursor.old.place cursor.new.next cursor.new.left }
{
    match cursor.next {
        None => None,
        Some((start, kind)) => {
            if start != cursor.place {
                return None;
            }
            cursor.next = cursor.left.next();
            Some(kind)
        }
    }
}

// The byte behind it; the kind of the cell that begins at this one, if one does.
fn pass<'a>(cursor: &mut Cursor<'a>, shape: &'a Shape) -> Option<Kind>
    requires shape { IsShape shape.now }
    requires cursor { IsCursor shape.now cursor.old.place cursor.old.next cursor.old.left }
    ensures cursor { IsCursor shape.now cursor.new.place cursor.new.next cursor.new.left }
    ensures passes { Passes shape.now cursor.old.place result cursor.new.place }
{
    let kind = found(cursor, shape);
    if cursor.place >= shape.size - 1 {
        *cursor = begin(shape);
    } else {
        cursor.place += 1;
    }
    kind
}

// The place of a byte in its element.
pub(crate) fn place_in(shape: &Shape, byte: u128) -> u32
    requires { IsShape shape.now }
    ensures value { result ≡ byte % shape.now.size }
    ensures inside { result < shape.now.size }
{
    (byte % u128::from(shape.size)) as u32
}

/// The next cell from a place of an element on, where elements of the shape follow one another: how many bytes after
/// the place it begins, and its kind. The cells before it are not walked. None where the shape has no cell.
pub(crate) fn next_from(shape: &Shape, place: u32) -> Option<(u64, Kind)>
    requires shape { IsShape shape.now }
    requires inside { place < shape.now.size }
    ensures { MatchOption result ((n : ℕ) → IsGap shape.now place n) (IsNext shape.now place) }
{
    let here = at(shape, place);
    match here.next {
        Some((start, kind)) => Some((u64::from(start - place), kind)),
        None => {
            let further = begin(shape);
            let (start, kind) = further.next?;
            Some((u64::from(shape.size - place) + u64::from(start), kind))
        }
    }
}

/// The kind of the cell that begins at this byte, where elements of the shape follow one another.
pub fn kind_at(shape: Option<&Shape>, byte: u128) -> Option<Kind>
    requires { IfSome (option_copied shape) IsShape }
    ensures { result ≡ shapes.kind_at (option_copied shape.entry) byte }
{
    match shape {
        Some(shape) => shape.kind_at(place_in(shape, byte)),
        None => None,
    }
}

// Whether a cell begins before this byte and ends after it.
fn cuts(shape: Option<&Shape>, byte: u128) -> bool
    requires { IfSome (option_copied shape) IsShape }
    ensures { result ≡ cuts (option_copied shape.entry) byte }
{
    match shape {
        Some(shape) => shape.cells.cuts(place_in(shape, byte)),
        None => false,
    }
}

/// Whether so many bytes from this one on cut a cell at either end.
pub fn cuts_cell(shape: Option<&Shape>, byte: u128, bytes: u64) -> bool
    requires shape { IfSome (option_copied shape) IsShape }
    requires near { byte ≤ 2 ^ 127 }
    ensures { result ≡ cuts_cell (option_copied shape.entry) byte bytes }
{
    cuts(shape, byte) || cuts(shape, byte + u128::from(bytes))
}

// Whether two cells have the same kind, or there is none in either place.
fn are_alike(a: Option<Kind>, b: Option<Kind>) -> bool
    ensures { IsTrue result ↔ (a ≡ b) }
{
    match (a, b) {
        (Some(a), Some(b)) => a.is(b),
        (None, None) => true,
        _ => false,
    }
}

// Whether the cells in so many bytes from one byte on, where elements of a shape follow one another, are in place and
// kind those from another byte on, where those of another shape do.
fn same_in_step(a: &Shape, first: u128, b: &Shape, second: u128, bytes: u64) -> bool
    requires a { IsShape a.now }
    requires b { IsShape b.now }
    ensures { result ≡ same_cells (cells_within (Some a.now) first bytes) (cells_within (Some b.now) second bytes) }
{
    let mut here = at(a, place_in(a, first));
    let mut there = at(b, place_in(b, second));
    for i in 0..bytes {
        if !are_alike(pass(&mut here, a), pass(&mut there, b)) {
            return false;
        }
    }
    true
}

// Whether no cell begins in so many bytes from this one on.
fn is_bare(shape: &Shape, byte: u128, bytes: u64) -> bool
    requires { IsShape shape.now }
    ensures { result ≡ same_cells (cells_within (Some shape.now) byte bytes) [] }
{
    match next_from(shape, place_in(shape, byte)) {
        Some((gap, _)) => gap >= bytes,
        None => true,
    }
}

/// Whether the cells in so many bytes from one byte on, where elements of a shape follow one another, are in place and
/// kind those from another byte on, where those of another shape do; there are none without a shape. Makes no list.
pub(crate) fn same_cells(
    a: Option<&Shape>,
    first: u128,
    b: Option<&Shape>,
    second: u128,
    bytes: u64,
) -> bool
    requires a { IfSome (option_copied a) IsShape }
    requires b { IfSome (option_copied b) IsShape }
    ensures { result ≡ same_cells (cells_within (option_copied a.entry) first bytes)
        (cells_within (option_copied b.entry) second bytes) }
{
    match (a, b) {
        (Some(a), Some(b)) => same_in_step(a, first, b, second, bytes),
        (Some(shape), None) => is_bare(shape, first, bytes),
        (None, Some(shape)) => is_bare(shape, second, bytes),
        (None, None) => true,
    }
}

// Whether there is a cell, and it holds a pointer or a lock.
fn holds_pointer(kind: Option<Kind>) -> bool
    ensures { result ≡ is_no_integer kind }
{
    match kind {
        Some(kind) => !is_integer(kind),
        None => false,
    }
}

// Whether one of the cells in so many bytes from this one on holds a pointer or a lock.
fn hold_pointers(shape: &Shape, byte: u128, bytes: u64) -> bool
    requires { IsShape shape.now }
    ensures { result ≡ list_any (λ x. not (shapes.is_integer x.1)) (cells_within (Some shape.now) byte bytes) }
{
    let mut cursor = at(shape, place_in(shape, byte));
    for i in 0..bytes {
        if holds_pointer(pass(&mut cursor, shape)) {
            return true;
        }
    }
    false
}

/// Whether one of the cells in so many bytes from this one on holds a pointer or a lock; without a shape none is
/// there.
pub(crate) fn cells_hold_pointers(shape: Option<&Shape>, byte: u128, bytes: u64) -> bool
    requires { IfSome (option_copied shape) IsShape }
    ensures { result ≡ list_any (λ x. not (shapes.is_integer x.1))
        (cells_within (option_copied shape.entry) byte bytes) }
{
    match shape {
        Some(shape) => hold_pointers(shape, byte, bytes),
        None => false,
    }
}

/// The shape of this number.
pub fn shape_of(shapes: &[Shape], number: u32) -> Option<&Shape>
    ensures { option_copied result ≡ slice_get shapes.now number }
{
    shapes.get(number as usize)
}
