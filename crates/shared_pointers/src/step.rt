//! A pointer moved by a number of elements.

ghost use Rattle.std.specs.Prelude.{◌≡◌, ◌<◌, ◌↔◌, ℤ, ◌+ℤ◌, IfOk, IfErr, IsErrOf, ◌⊎◌};
ghost use Rattle.block_layout.specs.Places.{InRange};
ghost use Rattle.block_layout.specs.Pointers.{IsNull, StandsFor, element_offset, moved};
ghost use Rattle.shared_pointers.specs.layer.Ranges.{IsPhase, IsPointer, IsTarget, IsThreads, IsStep};
ghost use Rattle.shared_pointers.specs.layer.Parts.{moved_by_blocks};
ghost use Rattle.shared_pointers.specs.Steps.{LiesBehind, advanced};

use crate::row::{element_in_row, row_offset};
use block_layout::run_error::{NULL_ACCESS, POINTER_RANGE};
use block_layout::{FARTHEST, SharedPtr, wide};

// The greatest distance of an offset from 0.
const MOST: i128 = FARTHEST as i128;

/// What `p + i` gives (UPC 6.4.2): the pointer that lies `i` elements after `p`, for a type with this block, 0 for
/// indefinite, and this size of an element in bytes.
///
/// `NULL_ACCESS` for the null pointer, `POINTER_RANGE` where the offset leaves -2^40 to 2^40.
pub fn advance(p: &SharedPtr, i: i128, block: u32, size: u32, threads: u32) -> Result<SharedPtr, u8>
    requires pointer { IsPointer p.now block threads }
    requires target { IsTarget block size }
    requires some_threads { IsThreads threads }
    requires step { IsStep i }
    ensures value { result ≡ advanced p.now i block size threads }
    ensures null { IsErrOf result NULL_ACCESS ↔ IsNull p.now }
    ensures behind { IfOk result (λ q. LiesBehind p.now q i block size threads) }
    ensures pointer { IfOk result (λ q. IsPointer q block threads) }
    // an offset out of range is that of the element `i` on
    ensures range { (e d : ℤ) → StandsFor p.now e d block size threads
        → (IsErrOf result POINTER_RANGE ↔ ((¬ (IsNull p.now))
        × (¬ (InRange (element_offset (e +ℤ i) block size threads +ℤ d))))) }
    ensures codes { IfErr result (λ code. (code ≡ NULL_ACCESS) ⊎ (code ≡ POINTER_RANGE)) }
{
    if p.is_null() {
        return Err(NULL_ACCESS);
    }
    let place = place_behind(p, i, block, size, threads);
    if place.offset < -MOST || place.offset > MOST {
        return Err(POINTER_RANGE);
    }
    Ok(SharedPtr {
        object: p.object,
        thread: place.thread,
        phase: place.phase,
        offset: place.offset as i64,
    })
}

// A place on a thread whose offset may be out of range.
#[derive(Clone, Copy)]
pub struct Place {
    pub thread: u32,
    pub phase: u32,
    pub offset: i128,
}

// The place `i` elements after a pointer, with a block of at least 1.
fn place_by_blocks(p: &SharedPtr, i: i128, block: u32, size: u32, threads: u32) -> Place
    requires pointer { IsPointer p.now block threads }
    requires target { IsTarget block size }
    requires some_threads { IsThreads threads }
    requires step { IsStep i }
    requires some_block { 0 < block }
    ensures thread { result.thread ≡ (moved_by_blocks p.now i block size threads).thread }
    ensures phase { result.phase ≡ (moved_by_blocks p.now i block size threads).phase }
    ensures offset { result.offset ≡ (moved_by_blocks p.now i block size threads).offset }
    ensures below { result.thread < threads }
    ensures in_block { result.phase < block }
{
    let e = i128::from(element_in_row(p, block, threads)) + i;
    let thread = wide::thread_of(e, block, threads);
    let phase = wide::phase_of(e, block);
    let offset = wide::offset_of(e, block, size, threads);
    let row = i128::from(row_offset(p, block, size, threads));
    Place {
        thread,
        phase,
        offset: offset + row,
    }
}

// The place `i` elements after a pointer.
pub fn place_behind(p: &SharedPtr, i: i128, block: u32, size: u32, threads: u32) -> Place
    requires pointer { IsPointer p.now block threads }
    requires target { IsTarget block size }
    requires some_threads { IsThreads threads }
    requires step { IsStep i }
    ensures thread { result.thread ≡ (moved p.now i block size threads).thread }
    ensures phase { result.phase ≡ (moved p.now i block size threads).phase }
    ensures offset { result.offset ≡ (moved p.now i block size threads).offset }
    ensures below { result.thread < threads }
    ensures in_block { IsPhase result.phase block }
{
    if block != 0 {
        return place_by_blocks(p, i, block, size, threads);
    }
    Place {
        thread: p.thread,
        phase: p.phase,
        offset: i128::from(p.offset) + i * i128::from(size),
    }
}
