//! The place of an element whose number has up to 91 bits, as the arithmetic of pointers meets it before its result is
//! known to be in range.

ghost use Rattle.std.specs.Prelude.{◌≡◌, ◌*◌, ◌<◌, ◌≤◌, ◌^◌, unsigned_abs, pos, ◌*ℤ◌};
ghost use Rattle.block_layout.specs.Floor.{floor_div};
ghost use Rattle.block_layout.specs.Places.{thread_at, phase_at, offset_at};

use crate::floor::{floor_quotient, floor_rest};

/// The thread on which element `e` lies (UPC 6.5.1.1).
pub fn thread_of(e: i128, block: u32, threads: u32) -> u32
    requires some_block { 0 < block }
    requires some_thread { 0 < threads }
    ensures value { result ≡ thread_at e block threads }
    ensures bound { result < threads }
{
    let number = floor_quotient(e, u64::from(block));
    floor_rest(number, u64::from(threads)) as u32
}

/// The place of element `e` in its block (UPC 6.5.1.1).
pub fn phase_of(e: i128, block: u32) -> u32
    requires some_block { 0 < block }
    ensures value { result ≡ phase_at e block }
    ensures bound { result < block }
{
    floor_rest(e, u64::from(block)) as u32
}

/// The offset in bytes of element `e`, of `size` bytes, on its thread (UPC 6.5.2.1).
pub fn offset_of(e: i128, block: u32, size: u32, threads: u32) -> i128
    requires near { unsigned_abs e ≤ 2 ^ 91 }
    requires some_block { 0 < block }
    requires some_thread { 0 < threads }
    ensures value { result ≡ offset_at e block size threads }
    ensures bound { unsigned_abs result ≤ 2 ^ 125 }
{
    let before = elements_before(e, block, threads) + i128::from(phase_of(e, block));
    scaled(before, size)
}

// The elements of the blocks on the thread before the block of element `e`.
fn elements_before(e: i128, block: u32, threads: u32) -> i128
    requires near { unsigned_abs e ≤ 2 ^ 91 }
    requires some_block { 0 < block }
    requires some_thread { 0 < threads }
    ensures value { result ≡ floor_div e (block * threads) *ℤ pos block }
    ensures bound { unsigned_abs result ≤ 2 ^ 92 }
{
    let row = floor_quotient(e, u64::from(block) * u64::from(threads));
    scaled(row, block)
}

// A number times a factor of 32 bits.
fn scaled(z: i128, factor: u32) -> i128
    requires { unsigned_abs z ≤ 2 ^ 93 }
    ensures value { result ≡ z *ℤ pos factor }
    ensures size { unsigned_abs result ≤ unsigned_abs z * factor }
    ensures bound { unsigned_abs result ≤ 2 ^ 125 }
{
    z * i128::from(factor)
}
