//! Whether the orders make the operations UPC consistent (UPC Appendix B).

ghost use Rattle.std.specs.Prelude.{◌≡◌, ◌<◌, length, IfOk, MatchOption};
ghost use Rattle.upc_values.specs.Consistent.{begins, initial_at};
ghost use Rattle.upc_verify_orders.specs.Given.{OrdersHold, OrderBreaks};
ghost use Rattle.upc_verify_orders.specs.layer.Numbers.{firsts_in};
ghost use Rattle.upc_verify_orders.specs.layer.Parts.{place_of};

use memory_history::World;
use std::alloc::Global;
use upc_text::OutOfMemory;
use upc_values::{Journal, Orders, Scalar};
use upc_verify_history::first_value;
use upc_verify_orders::{Operation, Place, broken_order, operations_of};

// What a place begins with; that of the implied accesses begins with 0.
fn first_at(world: &World, place: Place) -> Scalar
    ensures { result ≡ initial_at (begins world.now.0 world.now.1) (place_of place) }
{
    match place {
        Place::Cell(loc) => first_value(world, loc),
        Place::Sync => Scalar::Int(0),
    }
}

// What the places of the operations begin with.
fn firsts_of(
    alloc: Global,
    world: &World,
    operations: &[Operation],
) -> Result<Vec<Scalar>, OutOfMemory>
    ensures { IfOk result (λ firsts. firsts.items ≡ firsts_in (begins world.now.0 world.now.1) operations.now) }
{
    let mut firsts = Vec::new(alloc);
    for operation in operations {
        firsts.push(first_at(world, operation.place()))?;
    }
    Ok(firsts)
}

/// The first thread whose order fails, thread 0 where the list of the strict operations does, none where all hold.
pub(crate) fn broken_orders(
    alloc: Global,
    world: &World,
    journal: &Journal,
    orders: &Orders,
) -> Result<Option<u32>, OutOfMemory>
    requires some { 0 < journal.now.threads }
    requires many { length orders.now.threads ≡ journal.now.threads }
    ensures { IfOk result (λ broken. MatchOption broken
        (OrdersHold (begins world.now.0 world.now.1) journal.now orders.now)
        (OrderBreaks (begins world.now.0 world.now.1) journal.now orders.now)) }
{
    let operations = operations_of(alloc, journal)?;
    let firsts = firsts_of(alloc, world, operations.as_slice())?;
    broken_order(alloc, journal, firsts.as_slice(), orders)
}
