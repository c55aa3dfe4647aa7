//! The cell that an access through a pointer names.

ghost use Rattle.std.specs.Prelude.{◌≡◌, ◌<◌, ◌≤◌, ◌⊎◌, ◌↔◌, IfOk, IfErr, IsErrOf, IsTrue, Contains, pos, ◌≤ℤ◌};
ghost use Rattle.block_layout.specs.Places.{InRange};
ghost use Rattle.block_layout.specs.Pointers.{IsNull, location};
ghost use Rattle.block_layout.specs.Shapes.{IsShape, kind_size};
ghost use Rattle.shared_pointers.specs.layer.Ranges.{IsThreads};
ghost use Rattle.shared_pointers.specs.layer.Parts.{byte_of_element};
ghost use Rattle.shared_pointers.specs.Access.{IsInPiece, in_piece, cell_at};

use block_layout::run_error::{CELL_TYPE, NULL_ACCESS, OUT_OF_OBJECT};
use block_layout::{Kind, Loc, Shape, SharedPtr, piece_bytes};

/// The location of the cell that an access of this kind through a pointer names. `shape` is the shape of the elements
/// of the pointer's object.
///
/// In this order: `NULL_ACCESS` for the null pointer, `OUT_OF_OBJECT` where a byte of the cell lies outside the piece
/// of the pointer's thread, `CELL_TYPE` where no cell of the kind begins there.
pub fn cell(p: &SharedPtr, shape: &Shape, kind: Kind, threads: u32) -> Result<Loc, u8>
    requires offset { InRange p.now.offset }
    requires a_thread { p.now.thread < threads }
    requires some_threads { IsThreads threads }
    requires shape { IsShape shape.now }
    requires small { p.now.object.total ≤ 16777216 }
    requires small_block { p.now.object.block ≤ 16777216 }
    ensures value { result ≡ cell_at p.now shape.now kind threads }
    ensures null { IsErrOf result NULL_ACCESS ↔ IsNull p.now }
    ensures outside { IsErrOf result OUT_OF_OBJECT
        ↔ ((¬ (IsNull p.now)) × (¬ (IsInPiece p.now (kind_size kind) threads))) }
    ensures no_cell { IsErrOf result CELL_TYPE
        ↔ ((¬ (IsNull p.now)) × IsInPiece p.now (kind_size kind) threads
        × (¬ (Contains shape.now.cells (byte_of_element p.now shape.now, kind)))) }
    ensures ok { IfOk result (λ l. l ≡ location p.now) }
    ensures codes { IfErr result (λ code. (code ≡ NULL_ACCESS) ⊎ (code ≡ OUT_OF_OBJECT) ⊎ (code ≡ CELL_TYPE)) }
{
    if p.is_null() {
        return Err(NULL_ACCESS);
    }
    if !lies_in_piece(p, kind.size(), threads) {
        return Err(OUT_OF_OBJECT);
    }
    let offset = p.offset as u32;
    if !shape.cells.has(offset % shape.size, kind) {
        return Err(CELL_TYPE);
    }
    Ok(Loc {
        object: p.object.number,
        thread: p.thread,
        offset,
    })
}

// Whether an access of so many bytes at a pointer lies inside the piece of the pointer's thread.
fn lies_in_piece(p: &SharedPtr, width: u32, threads: u32) -> bool
    requires offset { InRange p.now.offset }
    requires a_thread { p.now.thread < threads }
    requires small { p.now.object.total ≤ 16777216 }
    requires small_block { p.now.object.block ≤ 16777216 }
    ensures value { result ≡ in_piece p.now width threads }
    ensures exact { IsTrue result ↔ IsInPiece p.now width threads }
    ensures small { IsTrue result → p.now.offset ≤ℤ pos 16777216 }
{
    let bytes = piece_bytes(&p.object, p.thread, threads);
    0 <= p.offset && p.offset + i64::from(width) <= i64::from(bytes)
}
