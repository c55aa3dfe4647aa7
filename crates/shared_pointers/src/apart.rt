//! How far two pointers lie apart.

ghost use Rattle.std.specs.Prelude.{◌≡◌, ◌*◌, ◌<◌, ◌≤◌, ◌^◌, ◌↔◌, ℤ, pos, ◌-ℤ◌, ◌*ℤ◌, Ok, IfErr, unsigned_abs};
ghost use Rattle.block_layout.specs.Floor.{floor_div};
ghost use Rattle.block_layout.specs.Pointers.{IsNull, same_pointer, element_in_row, row_offset};
ghost use Rattle.shared_pointers.specs.layer.Ranges.{IsPointer, IsTarget, IsThreads};
ghost use Rattle.shared_pointers.specs.layer.Parts.{apart_by_blocks};
ghost use Rattle.shared_pointers.specs.Steps.{LiesBehind, apart};
ghost use Rattle.shared_pointers.specs.Steps.{difference};

use crate::row::{element_in_row, row_offset};
use crate::step::{Place, place_behind};
use block_layout::run_error::POINTER_PAIR;
use block_layout::{ObjectRef, SharedPtr, floor_quotient};

/// What `q - p` gives (UPC 6.4.2): how many elements `q` lies after `p`, for a type with this block, 0 for indefinite,
/// and this size of an element in bytes.
///
/// `POINTER_PAIR` where one is null, or where no number of elements leads from `p` to `q`.
pub fn distance(
    q: &SharedPtr,
    p: &SharedPtr,
    block: u32,
    size: u32,
    threads: u32,
) -> Result<i64, u8>
    requires later { IsPointer q.now block threads }
    requires pointer { IsPointer p.now block threads }
    requires target { IsTarget block size }
    requires some_threads { IsThreads threads }
    ensures value { result ≡ difference q.now p.now block size threads }
    // exactly where q stands for the element of p plus x
    ensures exact { (x : ℤ) → ((result ≡ Ok x)
        ↔ ((¬ (IsNull p.now)) × (¬ (IsNull q.now)) × LiesBehind p.now q.now x block size threads)) }
    ensures codes { IfErr result (λ code. code ≡ POINTER_PAIR) }
{
    let x = elements_apart(q, p, block, size, threads);
    let place = place_behind(p, x, block, size, threads);
    if !p.is_null() && !q.is_null() && is_at(q, p.object, place) {
        Ok(x as i64)
    } else {
        Err(POINTER_PAIR)
    }
}

// Whether a pointer lies in an object at a place.
fn is_at(q: &SharedPtr, object: ObjectRef, place: Place) -> bool
    ensures { result ≡ same_pointer q.now (record {
      object = object;
      thread = place.thread;
      phase = place.phase;
      offset = place.offset;
    }) }
{
    q.object == object
        && q.thread == place.thread
        && q.phase == place.phase
        && i128::from(q.offset) == place.offset
}

// How many elements `q` would lie after `p`.
fn elements_apart(q: &SharedPtr, p: &SharedPtr, block: u32, size: u32, threads: u32) -> i128
    requires later { IsPointer q.now block threads }
    requires pointer { IsPointer p.now block threads }
    requires target { IsTarget block size }
    requires some_threads { IsThreads threads }
    ensures value { result ≡ apart q.now p.now block size threads }
    ensures bound { unsigned_abs result ≤ 2 ^ 60 }
{
    if block != 0 {
        return apart_by_blocks(q, p, block, size, threads);
    }
    let bytes = i128::from(q.offset) - i128::from(p.offset);
    floor_quotient(bytes, u64::from(size))
}

// The same with a block of at least 1.
fn apart_by_blocks(q: &SharedPtr, p: &SharedPtr, block: u32, size: u32, threads: u32) -> i128
    requires later { IsPointer q.now block threads }
    requires pointer { IsPointer p.now block threads }
    requires target { IsTarget block size }
    requires some_threads { IsThreads threads }
    requires some_block { 0 < block }
    ensures value { result ≡ apart_by_blocks q.now p.now block size threads }
    ensures bound { unsigned_abs result ≤ 2 ^ 60 }
{
    rows_apart(q, p, block, size, threads) + places_apart(q, p, block, threads)
}

// How many elements the row of `q` begins after the row of `p`.
fn rows_apart(q: &SharedPtr, p: &SharedPtr, block: u32, size: u32, threads: u32) -> i128
    requires later { IsPointer q.now block threads }
    requires pointer { IsPointer p.now block threads }
    requires target { IsTarget block size }
    requires some_threads { IsThreads threads }
    requires some_block { 0 < block }
    ensures value { result ≡ floor_div (row_offset q.now size -ℤ row_offset p.now size)
        (block * size) *ℤ pos block *ℤ pos threads }
    ensures bound { unsigned_abs result ≤ 2 ^ 56 }
{
    let bytes = row_offset(q, block, size, threads) - row_offset(p, block, size, threads);
    elements_of_all_rows(i128::from(bytes), block, size, threads)
}

// How much further `q` lies in its row than `p` in its row.
fn places_apart(q: &SharedPtr, p: &SharedPtr, block: u32, threads: u32) -> i128
    requires later { IsPointer q.now block threads }
    requires pointer { IsPointer p.now block threads }
    requires small_block { block ≤ 16777216 }
    requires some_threads { IsThreads threads }
    ensures value { result ≡ pos (element_in_row q.now block) -ℤ pos (element_in_row p.now block) }
    ensures bound { unsigned_abs result ≤ 2 ^ 31 }
{
    i128::from(element_in_row(q, block, threads)) - i128::from(element_in_row(p, block, threads))
}

// The elements of all threads in the whole rows of that many bytes of one thread.
fn elements_of_all_rows(bytes: i128, block: u32, size: u32, threads: u32) -> i128
    requires near { unsigned_abs bytes ≤ 2 ^ 50 }
    requires target { IsTarget block size }
    requires some_threads { IsThreads threads }
    requires some_block { 0 < block }
    ensures value { result ≡ floor_div bytes (block * size) *ℤ pos block *ℤ pos threads }
    ensures bound { unsigned_abs result ≤ 2 ^ 56 }
{
    times(elements_of_rows(bytes, block, size), threads)
}

// The elements of a thread in the whole rows of that many bytes of the thread.
fn elements_of_rows(bytes: i128, block: u32, size: u32) -> i128
    requires near { unsigned_abs bytes ≤ 2 ^ 50 }
    requires target { IsTarget block size }
    requires some_block { 0 < block }
    ensures value { result ≡ floor_div bytes (block * size) *ℤ pos block }
    ensures bound { unsigned_abs result ≤ 2 ^ 51 }
{
    let rows = floor_quotient(bytes, u64::from(block) * u64::from(size));
    times(rows, block)
}

// A number times a factor.
fn times(z: i128, factor: u32) -> i128
    requires { unsigned_abs z ≤ 2 ^ 60 }
    ensures value { result ≡ z *ℤ pos factor }
    ensures bound { unsigned_abs result ≤ unsigned_abs z * factor }
{
    z * i128::from(factor)
}
