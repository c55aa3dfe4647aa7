//! A journal's operations, and whether given names are orders of them.

ghost use Rattle.std.specs.Prelude.{◌≡◌, ◌↔◌, ◌<◌, IsTrue, IfOk, length};
ghost use Rattle.block_layout.specs.declared.place.Loc.{Loc};
ghost use Rattle.upc_values.specs.declared.scalar.Scalar.{Scalar};
ghost use Rattle.upc_values.specs.Lists.{Each, Pairwise};
ghost use Rattle.upc_verify_orders.specs.code.Below.{operations_below};
ghost use Rattle.upc_verify_orders.specs.layer.Numbers.{AreKnown, firsts_in};
ghost use Rattle.upc_verify_orders.specs.code.Orders.{IsStrictFound, IsOrderFound};
ghost use Rattle.upc_verify_orders.specs.code.Tables as said;
ghost use Rattle.upc_verify_orders.specs.code.Tables.{InThread};

use crate::accesses::operations_of;
use crate::list::keeps_program;
use crate::numbers::numbers_of;
use crate::operation::Operation;
use crate::order::order_of;
use crate::own::keeps_program_order;
use crate::part::Part;
use crate::reads::reads_last;
use crate::table::Point;
use crate::walk::walk;
use std::alloc::{AllocError as OutOfMemory, Global};
use upc_values::{Journal, Listing, Op, Scalar};

/// A journal's operations, thread after thread and in program order, and the numbers of their places.
#[derive(Drop)]
pub(crate) struct Known {
    operations: Vec<Operation>,
    numbers: Vec<usize>,
}

impl Known {
    pub(crate) fn make(alloc: Global, journal: &Journal) -> Result<Known, OutOfMemory>
        ensures operations { IfOk result (λ k. k.operations.items ≡ operations_below journal.now journal.now.threads) }
        ensures known { IfOk result (λ k. AreKnown k.operations.items k.numbers.items) }
    {
        let operations = operations_of(alloc, journal)?;
        let numbers = numbers_of(alloc, operations.as_slice())?;
        Ok(Known {
            operations,
            numbers,
        })
    }

    /// Whether these are the names of the strict operations, once each, and in program order.
    pub(crate) fn is_strict_list(
        &self,
        alloc: Global,
        threads: u32,
        strict: &[Op],
    ) -> Result<bool, OutOfMemory>
        requires known { AreKnown self.now.operations.items self.now.numbers.items }
        requires below { Each (λ o. o.thread < threads) self.now.operations.items }
        ensures { IfOk result (λ b. IsTrue b ↔ IsStrictFound self.now.operations.items strict.now) }
    {
        let _at = match order_of(alloc, Part::Strict, self.operations.as_slice(), strict)? {
            Some(found) => found,
            None => return Ok(false),
        };
        let kept = keeps_program(alloc, threads, strict)?;
        Ok(kept)
    }

    /// Whether these are the names of an order of the thread that satisfies UPC's memory model with the strict list;
    /// `firsts` is what the operations' places begin with.
    pub(crate) fn is_order(
        &self,
        alloc: Global,
        firsts: &[Scalar],
        strict: &[Op],
        tables: &[Listing<Point>],
        thread: u32,
        names: &[Op],
    ) -> Result<bool, OutOfMemory>
        requires known { AreKnown self.now.operations.items self.now.numbers.items }
        requires below { Each (λ o. o.thread < length tables.now) self.now.operations.items }
        requires even { length firsts.now ≡ length self.now.operations.items }
        requires tables { tables.now ≡ said.tables (length tables.now) strict.now }
        requires kept { Pairwise InThread strict.now }
        ensures { IfOk result (λ b. (initial : Loc → Scalar) → firsts.now ≡ firsts_in initial self.now.operations.items
            → IsTrue b ↔ IsOrderFound initial self.now.operations.items strict.now thread names.now) }
    {
        let operations = self.operations.as_slice();
        let numbers = self.numbers.as_slice();
        let found = match order_of(alloc, Part::Shown(thread as usize), operations, names)? {
            Some(at) => at,
            None => return Ok(false),
        };
        let at = found.as_slice();
        let reads = reads_last(alloc, operations, numbers, firsts, at)?;
        if !reads {
            return Ok(false);
        }
        let keeps = keeps_program_order(alloc, thread, operations, numbers, names, at)?;
        if !keeps {
            return Ok(false);
        }
        Ok(walk(strict, tables, names))
    }
}
