//! Elements of a view, each of which is to be a cell.

ghost use Rattle.std.specs.Prelude.{◌≡◌, ◌<◌, false, not, map, unsigned_abs};
ghost use Rattle.std.specs.List.{All, list_any};
ghost use Rattle.block_layout.specs.Shapes.{kind_size};
ghost use Rattle.upc_values.specs.Shapes as shapes;
ghost use Rattle.upc_values.specs.Views as views;
ghost use Rattle.upc_library.specs.layer.Spots.{pointer_of, IsRoomFor};

use crate::cells::{kind_at, shape_of};
use crate::thread::Thread;
use block_layout::Kind;
use upc_library::Spot;

/// Whether one of the elements, as a cell of this kind, has its first or its last byte at an offset out of range.
pub fn leave_range(kind: Kind, elements: &[Spot]) -> bool
    ensures { result ≡ list_any (views.leaves_range (kind_size kind)) (map pointer_of elements.now) }
{
    for element in elements {
        if element.leaves_range(u64::from(kind.size())) {
            return true;
        }
    }
    false
}

// Whether a cell of this kind leaves the piece of its thread.
fn leaves_piece(thread: &Thread<'_>, kind: Kind, element: &Spot) -> bool
    ensures value { result ≡ views.leaves_piece thread.now.threads (kind_size kind) (pointer_of element.now) }
    ensures inside { result ≡ false → IsRoomFor 1 element.now.offset }
{
    element.leaves_piece(thread.threads, u64::from(kind.size()))
}

/// Whether one of the elements, as a cell of this kind, leaves the piece of its thread.
pub fn leave_pieces(thread: &Thread<'_>, kind: Kind, elements: &[Spot]) -> bool
    ensures value { result ≡ list_any (views.leaves_piece thread.now.threads (kind_size kind))
        (map pointer_of elements.now) }
    ensures inside { result ≡ false → All (λ p. IsRoomFor 1 p.offset) elements.now }
{
    for element in elements {
        if leaves_piece(thread, kind, element) {
            return true;
        }
    }
    false
}

// The kind of the cell that begins at the element.
fn kind_of(thread: &Thread<'_>, element: &Spot) -> Option<Kind>
    ensures { result ≡ shapes.kind_at (views.shape_at thread.now.shapes.now (pointer_of element.now))
        (unsigned_abs element.now.offset) }
{
    let shape = shape_of(thread.shapes, element.object.shape);
    kind_at(shape, element.offset.unsigned_abs())
}

// Whether a cell of this kind begins at the element.
fn is_cell(thread: &Thread<'_>, kind: Kind, element: &Spot) -> bool
    ensures { result ≡ views.is_cell thread.now.shapes.now kind (pointer_of element.now) }
{
    match kind_of(thread, element) {
        Some(other) => kind.is(other),
        None => false,
    }
}

/// Whether at one of the elements no cell of this kind begins.
pub fn are_not_cells(thread: &Thread<'_>, kind: Kind, elements: &[Spot]) -> bool
    ensures { result ≡ list_any (λ p. not (views.is_cell thread.now.shapes.now kind p)) (map pointer_of elements.now) }
{
    for element in elements {
        if !is_cell(thread, kind, element) {
            return true;
        }
    }
    false
}
