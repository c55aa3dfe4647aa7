//! Operations by their names.

ghost use Rattle.std.specs.Prelude.{◌≡◌, ◌≢◌, ◌≤◌, ◌<◌, ℕ, List, IfOk, MatchOption, length, map, slice_index_or};
ghost use Rattle.upc_values.specs.Lists.{Each, Has};
ghost use Rattle.upc_values.specs.Operations as said;
ghost use Rattle.upc_values.specs.Orders.{name_of};
ghost use Rattle.upc_verify_orders.specs.code.Found.{IsBefore, AreSorted, AreFound, nothing};

use crate::operation::Operation;
use std::alloc::{AllocError as OutOfMemory, Global};
use upc_values::Op;

// How many operations stand before the one with the name, by halving.
fn count_before(operations: &[Operation], name: Op) -> usize
    requires { AreSorted operations.now }
    ensures within { result ≤ length operations.now }
    ensures less { (i : ℕ) (d : said.Operation) → i < result → IsBefore (slice_index_or operations.now i d) name }
    ensures more { (i : ℕ) (d : said.Operation) → result ≤ i → i < length operations.now
        → IsBefore (slice_index_or operations.now i d) name → ⊥ }
{
    let mut low = 0;
    let mut high = operations.len();
    while low < high {
        let middle = low + (high - low) / 2;
        if operations[middle].is_before(name) {
            low = middle + 1;
        } else {
            high = middle;
        }
    }
    low
}

// The number of the operation with the name.
fn find(operations: &[Operation], name: Op) -> Option<usize>
    requires { AreSorted operations.now }
    ensures { MatchOption result (Each (λ o. name_of o ≢ name) operations.now) (λ i. (i < length operations.now)
        × (name_of (slice_index_or operations.now i nothing) ≡ name)) }
{
    let count = count_before(operations, name);
    if count >= operations.len() {
        return None;
    }
    if operations[count].is_named(name) {
        return Some(count);
    }
    None
}

/// The numbers of the operations with these names, none where a name has no operation.
pub(crate) fn find_all(
    alloc: Global,
    operations: &[Operation],
    names: &[Op],
) -> Result<Option<Vec<usize>>, OutOfMemory>
    requires { AreSorted operations.now }
    ensures { IfOk result (λ found. MatchOption found
        ((list : List said.Operation) → map name_of list ≡ names.now → Each (Has operations.now) list → ⊥)
        (λ at. AreFound operations.now names.now at.items)) }
{
    let mut at = Vec::new(alloc);
    for name in names {
        match find(operations, *name) {
            Some(number) => at.push(number)?,
            None => return Ok(None),
        }
    }
    Ok(Some(at))
}
