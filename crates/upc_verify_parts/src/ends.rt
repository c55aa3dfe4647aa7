//! The ends of a journal's strands.

ghost use Rattle.std.specs.Prelude.{◌≡◌, ◌↔◌, true, IsTrue};
ghost use Rattle.upc_values.specs.Lists.{Numbered};
ghost use Rattle.upc_values.specs.Records.{last_item};
ghost use Rattle.upc_values.specs.Records as records;
ghost use Rattle.upc_values.specs.Ends as said;
ghost use Rattle.upc_values.specs.Ends.{AnotherStops, OwnEnd, is_pause};

use crate::record::{is_beat_item, is_stall, last};
use upc_values::{End, Items, Strand, ToldEnd, same_action};

// Whether the last item is a Stall.
fn ends_in_stall(items: &Items) -> bool
    ensures { result ≡ records.is_stall (last_item items.now) }
{
    match last(items) {
        Some(item) => is_stall(item),
        None => false,
    }
}

// Whether the last item is a Beat or a Stall.
fn ends_in_pause(items: &Items) -> bool
    ensures { result ≡ is_pause (last_item items.now) }
{
    match last(items) {
        Some(item) => is_stall(item) || is_beat_item(item),
        None => false,
    }
}

/// Whether the end of the source's outcome and the items allow a strand's end, where a record has at most so many
/// items.
pub fn has_own_end(actions: u64, told: &ToldEnd, items: &Items, end: &End) -> bool
    ensures { IsTrue result ↔ OwnEnd actions told.now items.now end.now }
{
    match end {
        End::Ended(value) => matches!(told, ToldEnd::Ended(v) if *v == *value),
        End::Fault(code, place) => {
            matches!(told, ToldEnd::Fault(c, p) if *c == *code && *p == *place)
        }
        End::Exit(value) => matches!(told, ToldEnd::Exit(v) if *v == *value),
        End::Budget => matches!(told, ToldEnd::OutOfTicks),
        End::ActionsFull => { matches!(told, ToldEnd::Wants(_)) && items.len() as u64 == actions }
        End::Halted => ends_in_pause(items),
        End::Deadlocked(action) => {
            matches!(told, ToldEnd::Wants(a) if same_action(a, action)) && ends_in_stall(items)
        }
    }
}

// Whether it ends the run.
fn stops(end: &End) -> bool
    ensures { result ≡ said.stops end.now }
{
    matches!(
        end,
        End::Fault(_, _) | End::Budget | End::ActionsFull | End::Exit(_)
    )
}

// Whether it is Ended or Deadlocked.
fn settles(end: &End) -> bool
    ensures { result ≡ said.settles end.now }
{
    matches!(end, End::Ended(_) | End::Deadlocked(_))
}

/// Whether the end of another strand than the thread's ends the run.
pub fn another_stops(thread: usize, strands: &[Strand]) -> bool
    ensures { IsTrue result ↔ AnotherStops thread strands.now }
{
    for (number, strand) in strands.iter().enumerate() {
        if number != thread && stops(&strand.end) {
            return true;
        }
    }
    false
}

/// Whether every strand is Ended or Deadlocked.
pub fn all_settle(strands: &[Strand]) -> bool
    ensures { IsTrue result ↔ Numbered (λ t s. said.settles s.«end» ≡ true) strands.now }
{
    strands.iter().all(|strand| settles(&strand.end))
}
