//! Pointers to bytes and elements of arrays that a call sees.

ghost use Rattle.std.specs.Prelude.{◌≡◌, ◌<◌, ◌≤◌, ◌+◌, ◌*◌, ◌^◌, ◌-ℤ◌, pos, false, unsigned_abs};
ghost use Rattle.block_layout.specs.Pointers.{location};
ghost use Rattle.upc_values.specs.Views as views;
ghost use Rattle.upc_values.specs.Views.{leaves_piece, leaves_range, location_behind, byte_at};
ghost use Rattle.upc_library.specs.layer.Spots.{pointer_of, IsRoomFor};

use crate::piece::{is_within, piece, stays_in_range};
use block_layout::{Loc, ObjectRef, SharedPtr, wide};

/// A pointer-to-shared whose offset may be any number.
#[derive(Clone, Copy)]
pub struct Spot {
    pub object: ObjectRef,
    pub thread: u32,
    pub phase: u32,
    pub offset: i128,
}

/// The same pointer.
pub fn spot_at(p: &SharedPtr) -> Spot
    ensures { pointer_of result ≡ p.now }
{
    Spot {
        object: p.object,
        thread: p.thread,
        phase: p.phase,
        offset: i128::from(p.offset),
    }
}

// Element `i` of an array with an indefinite block, whose element 0 is at the pointer.
fn further(p: &SharedPtr, size: u32, i: u64) -> Spot
    ensures { pointer_of result ≡ views.element p.now 0 size 1 i }
{
    Spot {
        offset: i128::from(p.offset) + i128::from(i) * i128::from(size),
        ..spot_at(p)
    }
}

// The number of the element that is `i` after the one of a pointer's thread and phase.
fn number_behind(p: &SharedPtr, block: u32, i: u64) -> i128
    ensures value { result ≡ pos (p.now.thread * block + p.now.phase + i) }
    ensures near { unsigned_abs result ≤ 2 ^ 91 }
{
    let number = u128::from(p.thread) * u128::from(block) + u128::from(p.phase) + u128::from(i);
    number as i128
}

// The offset of the first element of a pointer's block.
fn block_offset(p: &SharedPtr, size: u32) -> i128
    ensures value { result ≡ p.now.offset -ℤ pos (p.now.phase * size) }
    ensures near { unsigned_abs result ≤ 2 ^ 91 }
{
    let before = u128::from(p.phase) * u128::from(size);
    i128::from(p.offset) - before as i128
}

/// Element `i` of an array with this block and element size, whose element 0 is at the pointer (UPC 6.4.2, 6.5.1.1).
pub fn element(p: &SharedPtr, block: u32, size: u32, threads: u32, i: u64) -> Spot
    requires { 0 < threads }
    ensures { pointer_of result ≡ views.element p.now block size threads i }
{
    if block == 0 {
        return further(p, size, i);
    }
    let number = number_behind(p, block, i);
    Spot {
        object: p.object,
        thread: wide::thread_of(number, block, threads),
        phase: wide::phase_of(number, block),
        offset: wide::offset_of(number, block, size, threads) + block_offset(p, size),
    }
}

/// The pointer with phase 0.
pub fn from_phase_0(p: &SharedPtr) -> SharedPtr
    ensures { result ≡ views.from_phase_0 p.now }
{
    SharedPtr { phase: 0, ..*p }
}

/// Byte `i` of an array of char with this block.
pub fn byte_at(p: &SharedPtr, block: u32, threads: u32, i: u64) -> Spot
    requires { 0 < threads }
    ensures { pointer_of result ≡ byte_at p.now block threads i }
{
    element(&from_phase_0(p), block, 1, threads, i)
}

impl Spot {
    /// Whether the offset of one of so many bytes leaves its range.
    pub fn leaves_range(&self, bytes: u64) -> bool
        ensures { result ≡ leaves_range bytes (pointer_of self.now) }
    {
        !stays_in_range(self.offset, bytes)
    }

    /// Whether so many bytes leave the piece of their thread.
    pub fn leaves_piece(&self, threads: u32, bytes: u64) -> bool
        requires { 0 < threads }
        ensures value { result ≡ leaves_piece threads bytes (pointer_of self.now) }
        ensures inside { result ≡ false → IsRoomFor bytes self.now.offset }
    {
        !is_within(
            self.offset,
            bytes,
            piece(&self.object, self.thread, threads),
        )
    }

    /// The location so many bytes after it.
    pub fn location_behind(&self, bytes: u64, i: u64) -> Loc
        requires room { IsRoomFor bytes self.now.offset }
        requires inside { i < bytes }
        ensures { result ≡ location_behind (pointer_of self.now) i }
    {
        Loc {
            object: self.object.number,
            thread: self.thread,
            offset: (self.offset + i128::from(i)) as u32,
        }
    }

    /// The location that the pointer names.
    pub fn location(&self) -> Loc
        requires { IsRoomFor 1 self.now.offset }
        ensures { result ≡ location (pointer_of self.now) }
    {
        Loc {
            object: self.object.number,
            thread: self.thread,
            offset: self.offset as u32,
        }
    }
}
