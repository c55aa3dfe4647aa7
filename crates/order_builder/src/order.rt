//! The orders of a journal's operations.

ghost use Rattle.std.specs.Prelude.{◌≡◌, ◌<◌, map, IfOk};
ghost use Rattle.upc_values.specs.Orders as said;
ghost use Rattle.upc_values.specs.Orders.{name_of, strict_list};
ghost use Rattle.upc_values.specs.Consistent.{FollowsBuffers};
ghost use Rattle.order_builder.specs.Named.{orders_of};
ghost use Rattle.order_builder.specs.code.Parts.{shown_below};

use crate::history::global_names;
use crate::names::Named;
use crate::part::{Part, order_of};
use std::alloc::Global;
use upc_text::OutOfMemory;
use upc_values::{Journal, Listing, Order, OrderList, Orders};

/// All operations of a journal, in the order of the history.
pub fn global_order(alloc: Global, journal: &Journal) -> Result<Order, OutOfMemory>
    requires { FollowsBuffers journal.now }
    ensures { IfOk result (λ order. order ≡ map name_of (said.global_order journal.now)) }
{
    let names = global_names(alloc, journal)?;
    order_of(alloc, Part::Whole, names.as_slice())
}

/// The strict operations of a journal, in the order of the history.
pub fn strict_order(alloc: Global, journal: &Journal) -> Result<Order, OutOfMemory>
    requires { FollowsBuffers journal.now }
    ensures { IfOk result (λ order. order ≡ map name_of (strict_list journal.now)) }
{
    let names = global_names(alloc, journal)?;
    order_of(alloc, Part::Strict, names.as_slice())
}

/// The order of a thread: its own operations, all writes and all strict reads, in the order of the history.
pub fn thread_order(alloc: Global, journal: &Journal, thread: u32) -> Result<Order, OutOfMemory>
    requires follows { FollowsBuffers journal.now }
    requires thread { thread < journal.now.threads }
    ensures { IfOk result (λ order. order ≡ map name_of (said.thread_order journal.now thread)) }
{
    let names = global_names(alloc, journal)?;
    order_of(alloc, Part::Shown(thread), names.as_slice())
}

// The order of each of so many threads.
fn thread_orders(alloc: Global, threads: u32, names: &[Named]) -> Result<OrderList, OutOfMemory>
    ensures { IfOk result (λ orders. orders ≡ shown_below names.now threads) }
{
    let mut orders = Vec::new(alloc);
    for thread in 0..threads {
        orders.push(order_of(alloc, Part::Shown(thread), names)?)?;
    }
    Ok(Listing::from_vec(orders))
}

/// The strict order of a journal and the order of each thread.
pub fn orders(alloc: Global, journal: &Journal) -> Result<Orders, OutOfMemory>
    requires { FollowsBuffers journal.now }
    ensures { IfOk result (λ orders. orders ≡ orders_of journal.now) }
{
    let names = global_names(alloc, journal)?;
    Ok(Orders {
        strict: order_of(alloc, Part::Strict, names.as_slice())?,
        threads: thread_orders(alloc, journal.threads, names.as_slice())?,
    })
}
