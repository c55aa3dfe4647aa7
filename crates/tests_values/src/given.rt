//! Given orders of a journal, judged.

use block_layout::Loc;
use std::alloc::{AllocError as OutOfMemory, Global};
use upc_values::{Journal, Orders, Scalar};
use upc_verify_orders::{Place, broken_order, operations_of};

// What a place begins with: the first value that the list gives it, else 0.
fn first_value(initials: &[(Loc, Scalar)], place: Place) -> Scalar {
    if let Place::Cell(loc) = place {
        for initial in initials {
            if initial.0 == loc {
                return initial.1;
            }
        }
    }
    Scalar::Int(0)
}

/// Whether the orders make the journal's operations consistent, from these initial values; a location without one
/// begins with 0.
pub fn is_consistent(
    alloc: Global,
    journal: &Journal,
    initials: &[(Loc, Scalar)],
    orders: &Orders,
) -> Result<bool, OutOfMemory> {
    let operations = operations_of(alloc, journal)?;
    let mut firsts = Vec::new(alloc);
    for operation in operations.iter() {
        firsts.push(first_value(initials, operation.place()))?;
    }
    let many = journal.threads as usize;
    if many == 0 || orders.threads.len() != many || firsts.len() != operations.len() {
        return Ok(false);
    }
    Ok(broken_order(alloc, journal, firsts.as_slice(), orders)?.is_none())
}
