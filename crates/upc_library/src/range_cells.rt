//! The cells in a range of bytes, one after another.

ghost use Rattle.std.specs.Prelude.{◌≡◌, ◌+◌, ◌<◌, ◌≤◌, ◌%◌, ◌^◌, ◌∷◌, [], IfOk, IfSome, MatchOption, Some};
ghost use Rattle.std.specs.Option.{option_copied};
ghost use Rattle.block_layout.specs.Shapes.{IsShape};
ghost use Rattle.upc_values.specs.Views.{cells_within};

use crate::cells::{Cell, next_from, place_in};
use block_layout::{Cells, Shape};
use std::alloc::{AllocError as OutOfMemory, Global};
use std::marker::Model;

/// The cells in a range of bytes that are still to come, where elements of a shape follow one another. Contracts see
/// the list of them. It is not made: the next cell is found in the element, so that cells that repeat take no memory.
#[derive(Drop)]
pub(crate) struct RangeCells {
    element: Shape,
    // Where in its element the next byte is, and how many bytes of the range are before it and left.
    place: u32,
    before: u64,
    left: u64,
}

impl Model for RangeCells {
    ghost use Rattle.std.specs.Prelude.{ℕ, List};
    ghost use Rattle.block_layout.specs.declared.kind.Kind.{Kind};
    ghost use Rattle.upc_library.specs.code.Ranges.{cells_left, IsRange};

    ghost Value = { List (ℕ × Kind) };

    ghost view = { λ r. cells_left r.element r.place r.before r.left };

    ghost invariant = { λ r. IsRange r.element r.place r.before r.left };
}

// The place in its element of the byte after so many and one more.
fn place_behind(shape: &Shape, place: u32, gap: u64) -> u32
    requires { IsShape shape.now }
    ensures value { result ≡ (place + gap + 1) % shape.now.size }
    ensures inside { result < shape.now.size }
{
    place_in(shape, u128::from(place) + u128::from(gap) + 1)
}

impl RangeCells {
    /// No cells.
    pub(crate) fn none(alloc: Global) -> RangeCells
        ensures { result ≡ [] }
    {
        let element = Shape {
            size: 1,
            cells: Cells::new(alloc),
        };
        RangeCells {
            element,
            place: 0,
            before: 0,
            left: 0,
        }
    }

    // The cells in so many bytes from this one on.
    fn in_elements(
        alloc: Global,
        shape: &Shape,
        byte: u128,
        bytes: u64,
    ) -> Result<RangeCells, OutOfMemory>
        requires shape { IsShape shape.now }
        requires few { bytes ≤ 2 ^ 32 }
        ensures { IfOk result (λ cells. cells ≡ cells_within (Some shape.now) byte bytes) }
    {
        let element = Shape {
            size: shape.size,
            cells: shape.cells.copy(alloc)?,
        };
        Ok(RangeCells {
            element,
            place: place_in(shape, byte),
            before: 0,
            left: bytes,
        })
    }

    /// The cells in so many bytes from this one on; none without a shape. Keeps a copy of the shape.
    pub(crate) fn of(
        alloc: Global,
        shape: Option<&Shape>,
        byte: u128,
        bytes: u64,
    ) -> Result<RangeCells, OutOfMemory>
        requires shape { IfSome (option_copied shape) IsShape }
        requires few { bytes ≤ 2 ^ 32 }
        ensures { IfOk result (λ cells. cells ≡ cells_within (option_copied shape.entry) byte bytes) }
    {
        match shape {
            Some(shape) => RangeCells::in_elements(alloc, shape, byte, bytes),
            None => Ok(RangeCells::none(alloc)),
        }
    }

    /// The next cell.
    pub(crate) fn next(&mut self) -> Option<Cell>
        ensures { MatchOption result ((self.old ≡ []) × (self.new ≡ [])) (λ c. self.old ≡ c ∷ self.new) }
    {
        let (gap, kind) = next_from(&self.element, self.place)?;
        if gap >= self.left {
            return None;
        }
        let start = self.before + gap;
        let place = place_behind(&self.element, self.place, gap);
        self.place = place;
        self.before = start + 1;
        self.left -= gap + 1;
        Some((start as u32, kind))
    }
}
