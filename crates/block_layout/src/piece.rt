//! The bytes of a shared object on each thread.

ghost use Rattle.std.specs.Prelude.{◌≡◌, ◌<◌, ◌≤◌, ◌/◌, ◌%◌, ◌==◌};
ghost use Rattle.block_layout.specs.Pieces.{piece_of, count_below};

use crate::place::ObjectRef;

/// How many bytes of an object lie on a thread: those of its blocks that fall to the thread, or all of an indefinite
/// object on its home (UPC 6.5.1.1).
pub fn piece_bytes(object: &ObjectRef, thread: u32, threads: u32) -> u32
    requires a_thread { thread < threads }
    requires small { object.now.total ≤ 16777216 }
    requires small_block { object.now.block ≤ 16777216 }
    ensures value { result ≡ piece_of object.now thread threads }
    ensures bound { result ≤ object.now.total }
{
    if object.block != 0 {
        return blocks_of(object.total, object.block, thread, threads);
    }
    if object.home == thread {
        object.total
    } else {
        0
    }
}

// The bytes below `total` whose block falls to the thread: whole rows of blocks, and what the last row has for the
// thread.
fn blocks_of(total: u32, block: u32, thread: u32, threads: u32) -> u32
    requires some_block { 0 < block }
    requires a_thread { thread < threads }
    ensures value { result ≡ count_below (λ x. x / block % threads == thread) total }
    ensures bound { result ≤ total }
{
    let block = u64::from(block);
    let row = block * u64::from(threads);
    let rows = u64::from(total) / row;
    let left = u64::from(total) % row;
    let mine = left.saturating_sub(u64::from(thread) * block).min(block);
    (rows * block + mine) as u32
}
