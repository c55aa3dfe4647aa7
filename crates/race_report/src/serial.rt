//! The serial order of a journal's operations.

ghost use Rattle.std.specs.Prelude.{◌≡◌, ◌++◌, length, map, IfOk, OnOk};
ghost use Rattle.upc_values.specs.Orders as said;
ghost use Rattle.upc_values.specs.Orders.{name_of};
ghost use Rattle.race_report.specs.Serial.{serial_list, IsRun, NamesSerial};
ghost use Rattle.race_report.specs.code.Own.{relaxed_first, AreOwn};

use crate::own::{OwnOperation, OwnOperations, all_operations};
use order_builder::strict_order;
use std::alloc::Global;
use upc_text::OutOfMemory;
use upc_values::{Journal, Listing, Op, Order};

// Adds the operations before the first strict one, and answers how many they are.
fn push_relaxed(list: &[OwnOperation], order: &mut Vec<Op>) -> Result<usize, OutOfMemory>
    ensures names { OnOk result (order.new.items ≡ order.old.items ++ relaxed_first list.now) }
    ensures many { IfOk result (λ n. n ≡ length (relaxed_first list.now)) }
{
    for (at, operation) in list.iter().enumerate() {
        if operation.strict {
            return Ok(at);
        }
        order.push(operation.name)?;
    }
    Ok(list.len())
}

// Each strict operation, followed by what its thread does before its next strict one.
fn place_phases(
    alloc: Global,
    journal: &Journal,
    strict: &[Op],
    own: &[OwnOperations],
) -> Result<Order, OutOfMemory>
    requires run { IsRun journal.now }
    requires strict { strict.now ≡ map name_of (said.strict_list journal.now) }
    requires own { AreOwn journal.now own.now }
    ensures { IfOk result (λ order. order ≡ map name_of (serial_list journal.now)) }
{
    let mut order = Vec::new(alloc);
    let mut cursors: Vec<usize> = vec![in alloc; 0; journal.threads as usize]?;
    for first in strict {
        let thread = first.thread as usize;
        let list = own[thread].as_slice();
        let next = cursors[thread] + 1;
        order.push(*first)?;
        let count = push_relaxed(&list[next..], &mut order)?;
        cursors[thread] = next + count;
    }
    Ok(Listing::from_vec(order))
}

/// The serial order of a run: the strict operations in the order of the history, each followed by what its thread does
/// before its next strict one.
pub fn serial_order(alloc: Global, journal: &Journal) -> Result<Order, OutOfMemory>
    requires { IsRun journal.now }
    ensures list { IfOk result (λ order. order ≡ map name_of (serial_list journal.now)) }
    // Where the history is legal and no two operations race, each read has the value of the last write before it.
    ensures right { IfOk result (λ order. NamesSerial journal.now order) }
{
    let strict = strict_order(alloc, journal)?;
    let own = all_operations(alloc, journal)?;
    place_phases(alloc, journal, strict.as_slice(), own.as_slice())
}
