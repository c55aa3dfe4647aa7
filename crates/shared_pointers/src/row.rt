//! Where a pointer lies in its row of blocks: a row has one block of each thread.

ghost use Rattle.std.specs.Prelude.{◌≡◌, ◌≤◌, ◌^◌, unsigned_abs};
ghost use Rattle.shared_pointers.specs.layer.Ranges.{IsPointer, IsTarget, IsThreads};
ghost use Rattle.block_layout.specs.Pointers.{element_in_row, row_offset};

use block_layout::SharedPtr;

/// The element that a pointer stands for, counted from the first element of its row.
pub fn element_in_row(p: &SharedPtr, block: u32, threads: u32) -> u32
    requires pointer { IsPointer p.now block threads }
    requires small_block { block ≤ 16777216 }
    requires some_threads { IsThreads threads }
    ensures value { result ≡ element_in_row p.now block }
    ensures bound { result ≤ 2 ^ 30 }
{
    p.thread * block + p.phase
}

/// The bytes on a pointer's thread before its row.
pub fn row_offset(p: &SharedPtr, block: u32, size: u32, threads: u32) -> i64
    requires pointer { IsPointer p.now block threads }
    requires target { IsTarget block size }
    ensures value { result ≡ row_offset p.now size }
    ensures bound { unsigned_abs result ≤ 2 ^ 49 }
{
    p.offset - i64::from(p.phase) * i64::from(size)
}
