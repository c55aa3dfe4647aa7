//! Whether a thread's own operations that conflict stand in program order, where the order is given by numbers.

ghost use Rattle.std.specs.Prelude.{◌≡◌, ◌↔◌, IsTrue, IfOk, length};
ghost use Rattle.upc_values.specs.Lists.{Each, Pairwise};
ghost use Rattle.upc_values.specs.Consistent.{KeepsProgram};
ghost use Rattle.upc_verify_orders.specs.code.Found.{AreFound, taken};
ghost use Rattle.upc_verify_orders.specs.layer.Numbers.{number_in, numbers_in, marks_by};
ghost use Rattle.upc_verify_orders.specs.code.Program.{IsMark};

use crate::operation::Operation;
use crate::program::{Mark, keeps_own};
use crate::table::rank_of;
use std::alloc::{AllocError as OutOfMemory, Global};
use upc_values::Op;

// The thread's own operations among those with these numbers.
fn marks_of(
    alloc: Global,
    thread: u32,
    operations: &[Operation],
    numbers: &[usize],
    names: &[Op],
    at: &[usize],
) -> Result<Vec<Mark>, OutOfMemory>
    requires found { AreFound operations.now names.now at.now }
    requires numbered { numbers.now ≡ numbers_in operations.now }
    ensures marks { IfOk result (λ list. list.items
        ≡ marks_by (number_in operations.now) thread (taken operations.now at.now)) }
    ensures fit { IfOk result (λ list. Each (IsMark (length operations.now)) list.items) }
{
    let mut list = Vec::new(alloc);
    for (i, name) in names.iter().enumerate() {
        if name.thread == thread {
            let number = at[i];
            list.push(Mark {
                rank: rank_of(*name),
                strict: operations[number].is_strict(),
                write: name.write,
                place: numbers[number],
            })?;
        }
    }
    Ok(list)
}

/// Whether the thread's own operations that conflict stand in program order, in the order of these numbers.
pub(crate) fn keeps_program_order(
    alloc: Global,
    thread: u32,
    operations: &[Operation],
    numbers: &[usize],
    names: &[Op],
    at: &[usize],
) -> Result<bool, OutOfMemory>
    requires found { AreFound operations.now names.now at.now }
    requires numbered { numbers.now ≡ numbers_in operations.now }
    ensures { IfOk result (λ b. IsTrue b ↔ Pairwise (KeepsProgram thread) (taken operations.now at.now)) }
{
    let marks = marks_of(alloc, thread, operations, numbers, names, at)?;
    let keeps = keeps_own(alloc, operations.len(), marks.as_slice())?;
    Ok(keeps)
}
