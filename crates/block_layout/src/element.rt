//! The place of an element of a shared array with a block of at least 1.

ghost use Rattle.std.specs.Prelude.{ℕ, ◌≡◌, ◌<◌, ◌≤◌};
ghost use Rattle.block_layout.specs.Places.{thread_at, phase_at, offset_at, OneBlockPerThread, InRange};

use crate::wide;

/// The thread on which element `e` lies. Blocks of `block` elements go to the threads in turn (UPC 6.5.1.1).
pub fn thread_of(e: i64, block: u32, threads: u32) -> u32
    requires near { InRange e }
    requires some_block { 0 < block }
    requires some_thread { 0 < threads }
    ensures value { result ≡ thread_at e block threads }
    ensures bound { result < threads }
{
    wide::thread_of(i128::from(e), block, threads)
}

/// The place of element `e` in its block (UPC 6.5.1.1).
pub fn phase_of(e: i64, block: u32) -> u32
    requires near { InRange e }
    requires some_block { 0 < block }
    ensures value { result ≡ phase_at e block }
    ensures bound { result < block }
{
    wide::phase_of(i128::from(e), block)
}

/// The offset in bytes of element `e`, of `size` bytes, on its thread (UPC 6.5.2.1).
pub fn offset_of(e: i64, block: u32, size: u32, threads: u32) -> i64
    requires near { InRange e }
    requires some_block { 0 < block }
    requires some_byte { 0 < size }
    requires some_thread { 0 < threads }
    requires near_offset { InRange (offset_at e block size threads) }
    ensures { result ≡ offset_at e block size threads }
{
    wide::offset_of(i128::from(e), block, size, threads) as i64
}

/// The block of the layout `[*]` for `n` elements: the least with which no thread has two blocks (UPC 6.5.2.1).
pub fn star_block(n: u32, threads: u32) -> u32
    requires some_element { 0 < n }
    requires few_elements { n ≤ 16777216 }
    requires some_thread { 0 < threads }
    requires few_threads { threads ≤ 32 }
    ensures some_block { 0 < result }
    ensures suffices { OneBlockPerThread n result threads }
    ensures least { (block : ℕ) → 0 < block → block < result → ¬ (OneBlockPerThread n block threads) }
{
    (n + threads - 1) / threads
}
