//! Whether names are those of each operation of a part, once each.

ghost use Rattle.std.specs.Prelude.{◌≡◌, ◌<◌, ◌↔◌, ℕ, IsTrue, IfOk, MatchOption, true, false, length, slice_index_or};
ghost use Rattle.upc_values.specs.Lists.{Each};
ghost use Rattle.upc_verify_orders.specs.layer.Parts as parts;
ghost use Rattle.upc_verify_orders.specs.code.Found.{AreSorted, AreWithin, AreApart, nothing};
ghost use Rattle.upc_verify_orders.specs.code.Found.{IsPartFound, HasNoOrder, IsMarked};

use crate::find::find_all;
use crate::operation::Operation;
use crate::part::{Part, is_in};
use std::alloc::{AllocError as OutOfMemory, Global};
use upc_values::Op;

// Marks at these numbers, none where one of them stands twice.
fn marked(alloc: Global, many: usize, at: &[usize]) -> Result<Option<Vec<bool>>, OutOfMemory>
    requires { Each (λ i. i < many) at.now }
    ensures { IfOk result (λ found. MatchOption found (AreApart at.now → ⊥)
        (λ marks. IsMarked many at.now marks.items)) }
{
    let mut marks: Vec<bool> = vec![in alloc; false; many]?;
    for number in at {
        if marks[*number] {
            return Ok(None);
        }
        marks[*number] = true;
    }
    Ok(Some(marks))
}

// Whether each operation with these numbers is of the part.
fn has_only(part: Part, operations: &[Operation], at: &[usize]) -> bool
    requires { AreWithin operations.now at.now }
    ensures { IsTrue result ↔ Each (λ i. parts.is_in part (slice_index_or operations.now i nothing) ≡ true) at.now }
{
    for number in at {
        if !is_in(part, &operations[*number]) {
            return false;
        }
    }
    true
}

// Whether each operation of the part is marked.
fn has_all(part: Part, operations: &[Operation], marks: &[bool]) -> bool
    requires { length marks.now ≡ length operations.now }
    ensures { IsTrue result ↔ ((i : ℕ) → i < length operations.now
        → parts.is_in part (slice_index_or operations.now i nothing) ≡ true → slice_index_or marks.now i false ≡ true) }
{
    for i in 0..operations.len() {
        if is_in(part, &operations[i]) && !marks[i] {
            return false;
        }
    }
    true
}

/// The numbers of the operations with these names, none where the names are not those of each operation of the part,
/// once each.
pub(crate) fn order_of(
    alloc: Global,
    part: Part,
    operations: &[Operation],
    names: &[Op],
) -> Result<Option<Vec<usize>>, OutOfMemory>
    requires { AreSorted operations.now }
    ensures { IfOk result (λ found. MatchOption found (HasNoOrder part operations.now names.now)
        (λ at. IsPartFound part operations.now names.now at.items)) }
{
    let found = match find_all(alloc, operations, names)? {
        Some(found) => found,
        None => return Ok(None),
    };
    let at = found.as_slice();
    let made = match marked(alloc, operations.len(), at)? {
        Some(made) => made,
        None => return Ok(None),
    };
    let marks = made.as_slice();
    if !has_only(part, operations, at) {
        return Ok(None);
    }
    if !has_all(part, operations, marks) {
        return Ok(None);
    }
    Ok(Some(found))
}
