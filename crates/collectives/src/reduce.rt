//! The elements of `upc_all_reduce` and `upc_all_prefix_reduce`, and the tests of them (UPC 7.3).

ghost use Rattle.std.specs.Prelude.{◌≡◌, ◌≤◌, ◌∷◌, ◌++◌, [], None, not, false, length, map, IfOk};
ghost use Rattle.std.specs.List.{All, list_any};
ghost use Rattle.block_layout.specs.Shapes.{kind_size};
ghost use Rattle.upc_values.specs.Expansions as said;
ghost use Rattle.upc_values.specs.Reductions as reductions;
ghost use Rattle.upc_values.specs.Views as views;
ghost use Rattle.collectives.specs.code.Calls.{refusal_in};
ghost use Rattle.upc_library.specs.layer.Spots.{pointer_of, IsRoomFor};

use crate::call::Operands;
use crate::elements::{are_not_cells, leave_pieces, leave_range};
use crate::reduction::element_kind;
use crate::thread::Thread;
use block_layout::run_error::{CELL_TYPE, OUT_OF_OBJECT, POINTER_RANGE};
use block_layout::{Kind, SharedPtr};
use std::alloc::{AllocError as OutOfMemory, Global};
use upc_library::{Spot, element, from_phase_0};

// With an indefinite block the phase is 0.
fn with_block(p: &SharedPtr, block: u32) -> SharedPtr
    ensures { result ≡ views.with_block p.now block }
{
    if block == 0 { from_phase_0(p) } else { *p }
}

/// The elements of an operand.
pub fn operands(
    alloc: Global,
    thread: &Thread<'_>,
    p: &SharedPtr,
    of: &Operands,
) -> Result<Vec<Spot>, OutOfMemory>
    requires { of.now.block ≤ 16777216 }
    ensures elements { IfOk result (λ ps. map pointer_of ps.items
        ≡ said.operands thread.now.threads thread.now.shapes.now thread.now.number p.now
        of.now.block of.now.kind of.now.count) }
    ensures many { IfOk result (λ ps. length ps.items ≡ of.now.count) }
{
    let block = of.block as u32;
    let start = with_block(p, block);
    let size = element_kind(of.kind).size();
    let mut elements = Vec::new(alloc);
    for i in 0..of.count {
        elements.push(element(&start, block, size, thread.threads, i))?;
    }
    Ok(elements)
}

// Whether the offset of one of the elements leaves its range.
#[tactic(auto, using(crate::proofs::Truths::any_of_both))]
fn range_is_left(kind: Kind, a: &[Spot], b: &[Spot]) -> bool
    ensures { result ≡ list_any (views.leaves_range (kind_size kind)) (map pointer_of a.now ++ map pointer_of b.now) }
{
    leave_range(kind, a) || leave_range(kind, b)
}

// Whether one of them leaves the piece of its thread.
#[tactic(auto, using(crate::proofs::Truths::any_of_both))]
fn piece_is_left(thread: &Thread<'_>, kind: Kind, a: &[Spot], b: &[Spot]) -> bool
    ensures value { result ≡ list_any (views.leaves_piece thread.now.threads (kind_size kind))
        (map pointer_of a.now ++ map pointer_of b.now) }
    ensures first { result ≡ false → All (λ p. IsRoomFor 1 p.offset) a.now }
    ensures second { result ≡ false → All (λ p. IsRoomFor 1 p.offset) b.now }
{
    leave_pieces(thread, kind, a) || leave_pieces(thread, kind, b)
}

// Whether at one of them no cell of this kind begins.
#[tactic(auto, using(crate::proofs::Truths::any_of_both))]
fn lack_cells(thread: &Thread<'_>, kind: Kind, a: &[Spot], b: &[Spot]) -> bool
    ensures { result ≡ list_any (λ p. not (views.is_cell thread.now.shapes.now kind p))
        (map pointer_of a.now ++ map pointer_of b.now) }
{
    are_not_cells(thread, kind, a) || are_not_cells(thread, kind, b)
}

/// The run error where one of the elements is no cell of the call's kind.
pub fn test_cells(thread: &Thread<'_>, of: &Operands, a: &[Spot], b: &[Spot]) -> Option<u8>
    ensures value { result ≡ refusal_in (let kind = reductions.element_kind of.now.kind
        in (
          list_any (views.leaves_range (kind_size kind)) (map pointer_of a.now
              ++ map pointer_of b.now),
          POINTER_RANGE,
        )
        ∷ (
          list_any (views.leaves_piece thread.now.threads (kind_size kind))
              (map pointer_of a.now ++ map pointer_of b.now),
          OUT_OF_OBJECT,
        )
        ∷ (
          list_any (λ p. not (views.is_cell thread.now.shapes.now kind p))
              (map pointer_of a.now ++ map pointer_of b.now),
          CELL_TYPE,
        ) ∷ []) }
    ensures first { result ≡ None → All (λ p. IsRoomFor 1 p.offset) a.now }
    ensures second { result ≡ None → All (λ p. IsRoomFor 1 p.offset) b.now }
{
    let kind = element_kind(of.kind);
    if range_is_left(kind, a, b) {
        return Some(POINTER_RANGE);
    }
    if piece_is_left(thread, kind, a, b) {
        return Some(OUT_OF_OBJECT);
    }
    if lack_cells(thread, kind, a, b) {
        return Some(CELL_TYPE);
    }
    None
}
