//! The strict list by threads.

ghost use Rattle.std.specs.Prelude.{◌≡◌, ◌<◌, ◌≤◌, IfOk, length, ℕ, slice_index_or};
ghost use Rattle.upc_values.specs.Lists.{Each, Pairwise};
ghost use Rattle.upc_verify_orders.specs.code.Tables as said;
ghost use Rattle.upc_verify_orders.specs.declared.table.Point.{Point};

use std::alloc::{AllocError, Global};
use upc_values::{Listing, Op};

/// A strict operation of a thread: its rank in program order, and its place in the list.
#[derive(Clone, Copy)]
pub struct Point {
    pub rank: u64,
    pub place: usize,
}

/// The rank of an operation in its thread's program order.
pub fn rank_of(name: Op) -> u64
    ensures rank { result ≡ said.op_rank name }
    ensures few { result < 8589934592 }
{
    2 * u64::from(name.index) + if name.write { 0 } else { 1 }
}

/// The points of a thread in the list.
pub fn points_of(alloc: Global, thread: u32, strict: &[Op]) -> Result<Vec<Point>, AllocError>
    ensures { IfOk result (λ points. points.items ≡ said.points thread 0 strict.now) }
{
    let mut points = Vec::new(alloc);
    for (place, name) in strict.iter().enumerate() {
        if name.thread == thread {
            let rank = rank_of(*name);
            points.push(Point { rank, place })?;
        }
    }
    Ok(points)
}

/// Those of each of so many threads.
pub fn tables_of(
    alloc: Global,
    threads: u32,
    strict: &[Op],
) -> Result<Vec<Listing<Point>>, AllocError>
    ensures { IfOk result (λ tables. tables.items ≡ said.tables threads strict.now) }
{
    let mut tables = Vec::new(alloc);
    for thread in 0..threads {
        let points = points_of(alloc, thread, strict)?;
        tables.push(Listing::from_vec(points))?;
    }
    Ok(tables)
}

// How many points have a rank below this, by halving.
fn below(points: &[Point], rank: u64) -> usize
    requires { Pairwise (λ a b. a.rank < b.rank) points.now }
    ensures within { result ≤ length points.now }
    ensures less { (i : ℕ) (d : Point) → i < result → (slice_index_or points.now i d).rank < rank }
    ensures more { (i : ℕ) (d : Point) → result ≤ i → i < length points.now
        → rank ≤ (slice_index_or points.now i d).rank }
{
    let mut low = 0;
    let mut high = points.len();
    while low < high {
        let middle = low + (high - low) / 2;
        if points[middle].rank < rank {
            low = middle + 1;
        } else {
            high = middle;
        }
    }
    low
}

/// One more than the place of the last point of at most this rank, 0 where none is.
pub fn reached(points: &[Point], rank: u64, none: usize) -> usize
    requires sorted { Pairwise (λ a b. a.rank < b.rank) points.now }
    requires fits { rank < 9223372036854775808 }
    requires within { Each (λ p. p.place < none) points.now }
    ensures { result ≡ said.up_to rank points.now }
{
    let _ = none;
    let count = below(points, rank + 1);
    if count == 0 {
        0
    } else {
        points[count - 1].place + 1
    }
}

/// The place of the first point of at least this rank, `none` where there is none.
pub fn reaches(points: &[Point], rank: u64, none: usize) -> usize
    requires sorted { Pairwise (λ a b. a.rank < b.rank) points.now }
    ensures { result ≡ said.from_on rank none points.now }
{
    let count = below(points, rank);
    if count < points.len() {
        points[count].place
    } else {
        none
    }
}
