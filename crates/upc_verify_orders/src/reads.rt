//! Whether each read of an order has the last value, where the order is given by numbers.

ghost use Rattle.std.specs.Prelude.{◌≡◌, ◌↔◌, IsTrue, IfOk, map, length};
ghost use Rattle.block_layout.specs.declared.place.Loc.{Loc};
ghost use Rattle.upc_values.specs.declared.scalar.Scalar.{Scalar};
ghost use Rattle.upc_values.specs.Consistent.{ReadsLast};
ghost use Rattle.upc_verify_orders.specs.code.Found.{AreWithin, taken};
ghost use Rattle.upc_verify_orders.specs.layer.Numbers.{number_in, numbers_in, firsts_in};
ghost use Rattle.upc_verify_orders.specs.code.Values.{access_by};

use crate::operation::Operation;
use crate::values::{Access, reads_held};
use std::alloc::{AllocError as OutOfMemory, Global};
use upc_values::Scalar;

// The operations with these numbers, by the numbers of their places.
fn accesses_at(
    alloc: Global,
    operations: &[Operation],
    numbers: &[usize],
    at: &[usize],
) -> Result<Vec<Access>, OutOfMemory>
    requires within { AreWithin operations.now at.now }
    requires numbered { numbers.now ≡ numbers_in operations.now }
    ensures { IfOk result (λ list. list.items
        ≡ map (access_by (number_in operations.now)) (taken operations.now at.now)) }
{
    let mut list = Vec::new(alloc);
    for number in at {
        let write = operations[*number].is_write();
        let value = operations[*number].value();
        let place = numbers[*number];
        list.push(Access {
            write,
            place,
            value,
        })?;
    }
    Ok(list)
}

/// Whether each read of the order of these numbers has the value of the last write of its place before it; `firsts` is
/// what the operations' places begin with.
pub(crate) fn reads_last(
    alloc: Global,
    operations: &[Operation],
    numbers: &[usize],
    firsts: &[Scalar],
    at: &[usize],
) -> Result<bool, OutOfMemory>
    requires within { AreWithin operations.now at.now }
    requires numbered { numbers.now ≡ numbers_in operations.now }
    requires even { length firsts.now ≡ length operations.now }
    ensures { IfOk result (λ b. (initial : Loc → Scalar) → firsts.now ≡ firsts_in initial operations.now
        → IsTrue b ↔ ReadsLast initial (taken operations.now at.now)) }
{
    let accesses = accesses_at(alloc, operations, numbers, at)?;
    let mut held = firsts.to_vec(alloc)?;
    Ok(reads_held(held.as_mut_slice(), accesses.as_slice()))
}
