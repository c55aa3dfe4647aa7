//! Given orders, judged.

ghost use Rattle.std.specs.Prelude.{◌≡◌, ◌<◌, ℕ, [], IfOk, MatchOption, length, slice_index_or};
ghost use Rattle.block_layout.specs.declared.place.Loc.{Loc};
ghost use Rattle.upc_values.specs.declared.scalar.Scalar.{Scalar};
ghost use Rattle.upc_values.specs.Lists.{Each, Pairwise};
ghost use Rattle.upc_verify_orders.specs.Given.{OrdersHold, OrderBreaks, OrdersAreConsistent};
ghost use Rattle.upc_verify_orders.specs.code.Below.{operations_below};
ghost use Rattle.upc_verify_orders.specs.layer.Numbers.{AreKnown, firsts_in};
ghost use Rattle.upc_verify_orders.specs.code.Orders.{IsOrderFound, FirstBroken};
ghost use Rattle.upc_verify_orders.specs.code.Tables as said;
ghost use Rattle.upc_verify_orders.specs.code.Tables.{InThread};

use crate::known::Known;
use crate::table::{Point, tables_of};
use std::alloc::{AllocError as OutOfMemory, Global};
use upc_values::{Journal, Listing, Op, Order, Orders, Scalar};

// The first thread whose order fails.
fn first_broken(
    alloc: Global,
    known: &Known,
    firsts: &[Scalar],
    strict: &[Op],
    tables: &[Listing<Point>],
    orders: &[Order],
) -> Result<Option<u32>, OutOfMemory>
    requires known { AreKnown known.now.operations.items known.now.numbers.items }
    requires below { Each (λ o. o.thread < length tables.now) known.now.operations.items }
    requires even { length firsts.now ≡ length known.now.operations.items }
    requires tables { tables.now ≡ said.tables (length tables.now) strict.now }
    requires kept { Pairwise InThread strict.now }
    requires fits { length orders.now < 4294967296 }
    ensures { IfOk result (λ broken. (initial : Loc → Scalar)
        → firsts.now ≡ firsts_in initial known.now.operations.items
        → MatchOption broken ((t : ℕ) → t < length orders.now
        → IsOrderFound initial known.now.operations.items strict.now t (slice_index_or orders.now t []))
        (FirstBroken initial known.now.operations.items strict.now orders.now)) }
{
    let threads = orders.len() as u32;
    for thread in 0..threads {
        let names = orders[thread as usize].as_slice();
        let holds = known.is_order(alloc, firsts, strict, tables, thread, names)?;
        if !holds {
            return Ok(Some(thread));
        }
    }
    Ok(None)
}

/// The first thread whose order fails, thread 0 where the list of the strict operations does, none where all hold (UPC
/// Appendix B). `firsts` is what the places of the journal's operations begin with, in the order of `operations_of`.
pub fn broken_order(
    alloc: Global,
    journal: &Journal,
    firsts: &[Scalar],
    orders: &Orders,
) -> Result<Option<u32>, OutOfMemory>
    requires some { 0 < journal.now.threads }
    requires many { length orders.now.threads ≡ journal.now.threads }
    requires even { length firsts.now ≡ length (operations_below journal.now journal.now.threads) }
    ensures { IfOk result (λ broken. (initial : Loc → Scalar)
        → firsts.now ≡ firsts_in initial (operations_below journal.now journal.now.threads)
        → MatchOption broken (OrdersHold initial journal.now orders.now) (OrderBreaks initial journal.now orders.now)) }
{
    let known = Known::make(alloc, journal)?;
    let strict = orders.strict.as_slice();
    let listed = known.is_strict_list(alloc, journal.threads, strict)?;
    if !listed {
        return Ok(Some(0));
    }
    let tables = tables_of(alloc, journal.threads, strict)?;
    let broken = first_broken(
        alloc,
        &known,
        firsts,
        strict,
        tables.as_slice(),
        orders.threads.as_slice(),
    )?;
    Ok(broken)
}

/// A law: the orders of all threads hold just where operations with their names make the journal's operations UPC
/// consistent (UPC Appendix B).
pub fn orders_are_consistent()
    ensures { OrdersAreConsistent }
{}
