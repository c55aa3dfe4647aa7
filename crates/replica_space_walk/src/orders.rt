//! The orders of a run.

ghost use Rattle.std.specs.Prelude.{◌≡◌, ◌<◌, ℕ, [], map, length, slice_index_or, IfOk};
ghost use Rattle.upc_values.specs.Openings.{Opening};
ghost use Rattle.replica_space.specs.Runs.{IsReplicaRun};
ghost use Rattle.replica_space_copies.specs.layer.Copies.{space_of, threads_of};
ghost use Rattle.replica_space_walk.specs.code.Walking.{row_of, with_mail_of};
ghost use Rattle.replica_space_walk.specs.code.Given.{AreConsistentOrders, strict_names, thread_names};

use crate::mail::place_all;
use crate::walk::{Walk, walk_over};
use replica_space::ReplicaJournal;
use replica_space_copies::Copies;
use replica_space_orders::strict_order;
use replica_space_rows::Row;
use std::alloc::{AllocError as OutOfMemory, Global};
use std::mem::replace;
use upc_values::{Listing, OrderList, Orders};

// The names of the lists of so many threads, each with the mail that waits for it.
fn thread_orders(
    alloc: Global,
    threads: u32,
    copies: &Copies,
    rows: Vec<Row>,
) -> Result<OrderList, OutOfMemory>
    requires all { threads ≡ threads_of copies.now }
    requires even { length rows.items ≡ threads }
    ensures many { IfOk result (λ orders. length orders ≡ threads) }
    ensures each { IfOk result (λ orders. (t : ℕ) → t < threads → slice_index_or orders t []
        ≡ map (λ m. m.name) (with_mail_of threads ((space_of copies.now).mail t) (row_of t rows.items))) }
{
    let mut orders = Vec::new(alloc);
    let mut left = rows;
    for thread in 0..threads {
        let mut row = replace(&mut left[thread as usize], Row::new(alloc));
        place_all(&mut row, copies, thread, threads)?;
        orders.push(row.into_order(alloc)?)?;
    }
    Ok(Listing::from_vec(orders))
}

/// The strict order and the order of each thread of a run with a copy of the shared memory for each thread. They make
/// its operations UPC consistent.
pub fn replica_orders(alloc: Global, journal: &ReplicaJournal) -> Result<Orders, OutOfMemory>
    requires run { (o : Opening) × (o.threads ≡ journal.now.threads) × IsReplicaRun o journal.now.events }
    ensures strict { IfOk result (λ orders. orders.strict ≡ strict_names journal.now.events) }
    ensures many { IfOk result (λ orders. length orders.threads ≡ journal.now.threads) }
    ensures orders { IfOk result (λ orders. (t : ℕ) → t < journal.now.threads
        → slice_index_or orders.threads t [] ≡ thread_names journal.now.threads journal.now.events t) }
    ensures consistent { IfOk result (λ orders. (o : Opening) → o.threads ≡ journal.now.threads
        → IsReplicaRun o journal.now.events → AreConsistentOrders o journal.now.events orders) }
{
    let Walk { copies, rows } = walk_over(alloc, journal.threads, &journal.events)?;
    let strict = strict_order(alloc, &journal.events)?;
    let threads = thread_orders(alloc, journal.threads, &copies, rows)?;
    Ok(Orders { strict, threads })
}
