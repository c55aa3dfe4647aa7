//! The last operations on a location, of each thread and kind.

ghost use Rattle.std.specs.Prelude.{◌≡◌, ◌<◌, [], length, slice_index, slice_index_or, IsTrue, IfSome, OnOk};
ghost use Rattle.race_report_cells.specs.code.Lasts as said;
ghost use Rattle.race_report_cells.specs.code.Lasts.{IsSameKind, AreNoted, IsFound, races_by};

use order_builder::Named;
use race_report_tables::Row;
use std::alloc::Global;
use std::marker::Model;
use upc_text::OutOfMemory;

/// A list of operations by their names.
#[derive(Drop)]
pub struct Lasts {
    list: Vec<Named>,
}

impl Model for Lasts {
    ghost use Rattle.std.specs.Prelude.{List};
    ghost use Rattle.order_builder.specs.declared.names.Named.{Named};

    ghost Value = { List Named };

    ghost view = { λ l. l.list.items };
}

// Whether two operations are of one thread and kind.
#[inline]
fn is_same_kind(a: Named, b: Named) -> bool
    ensures { IsTrue result → IsSameKind a b }
{
    a.name.thread == b.name.thread && a.name.write == b.name.write && a.strict == b.strict
}

// The place of one of the same thread and kind.
fn place_of_kind(list: &[Named], now: Named) -> Option<usize>
    ensures within { IfSome result (λ i. i < length list.now) }
    ensures kind { IfSome result (λ i. IsSameKind (slice_index_or list.now i now) now) }
{
    for (place, last) in list.iter().enumerate() {
        if is_same_kind(*last, now) {
            return Some(place);
        }
    }
    None
}

// Keeps the operation, in place of one of its thread and kind that is not after it.
fn note(list: &mut Vec<Named>, now: Named) -> Result<(), OutOfMemory>
    ensures { OnOk result (AreNoted now list.old.items list.new.items) }
{
    match place_of_kind(list.as_slice(), now) {
        Some(place) => {
            if list[place].name.index < now.name.index {
                list[place] = now;
            }
            Ok(())
        }
        None => {
            list.push(now)?;
            Ok(())
        }
    }
}

// Whether the operation, where so much is known, races with an earlier one on its location.
#[inline]
fn races_with(last: Named, now: Named, known: &Row) -> bool
    ensures { result ≡ races_by (λ u. slice_index known.now u) now last }
{
    last.name.thread != now.name.thread
        && (last.name.write || now.name.write)
        && !(last.strict && now.strict)
        && known.at(last.name.thread) <= last.name.index
}

// Whether an operation is of a lower thread than the one that was found, or of the same thread and later.
#[inline]
fn is_before(last: Named, found: Option<Named>) -> bool
    ensures { result ≡ said.is_before last found }
{
    match found {
        Some(first) => {
            last.name.thread < first.name.thread
                || (last.name.thread == first.name.thread && first.name.index < last.name.index)
        }
        None => true,
    }
}

// What is found with one more operation.
#[inline]
fn chosen(found: Option<Named>, last: Named, now: Named, known: &Row) -> Option<Named>
    ensures { result ≡ said.chosen (races_by (λ u. slice_index known.now u) now) found last }
{
    if races_with(last, now, known) && is_before(last, found) {
        Some(last)
    } else {
        found
    }
}

// The operation with which this one races: of the lowest thread that has one, the last.
fn first_racing(list: &[Named], now: Named, known: &Row) -> Option<Named>
    ensures { IsFound (races_by (λ u. slice_index known.now u) now) list.now result }
{
    let mut found = None;
    for last in list {
        found = chosen(found, *last, now, known);
    }
    found
}

impl Lasts {
    /// None.
    pub fn new(alloc: Global) -> Lasts
        ensures { result ≡ [] }
    {
        Lasts {
            list: Vec::new(alloc),
        }
    }

    /// Keeps an operation.
    pub fn note(&mut self, now: Named) -> Result<(), OutOfMemory>
        ensures { OnOk result (AreNoted now self.old self.new) }
    {
        note(&mut self.list, now)
    }

    /// The operation with which this one races: of the lowest thread that has one, the last.
    pub fn first_racing(&self, now: Named, known: &Row) -> Option<Named>
        ensures { IsFound (races_by (λ u. slice_index known.now u) now) self.now result }
    {
        first_racing(self.list.as_slice(), now, known)
    }
}
