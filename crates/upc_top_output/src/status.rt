//! Which thread's end decides, and the status of a run.

ghost use Rattle.std.specs.Prelude.{◌≡◌, ◌<◌, ◌^◌, MatchOption, None, Some, length};
ghost use Rattle.upc_values.specs.Ends;
ghost use Rattle.upc_top_output.specs.Output.{clipped, first_stop, status_by, stop_status, all_ended, is_ended};
ghost use Rattle.upc_top_output.specs.Output.{first_value};

use upc_values::{End, Strand};

/// A thread and its end.
#[derive(Clone, Copy)]
pub struct Stop<'a> {
    pub thread: u32,
    pub end: &'a End,
}

fn stops(end: &End) -> bool
    ensures { result ≡ Ends.stops «end».now }
{
    matches!(
        end,
        End::Fault(_, _) | End::Budget | End::ActionsFull | End::Exit(_)
    )
}

/// The lowest thread whose end ends the run.
pub fn first_stop(strands: &[Strand]) -> Option<Stop<'_>>
    requires { length strands.now < 2 ^ 32 }
    ensures { MatchOption result (first_stop 0 strands.now ≡ None) (λ s.
        first_stop 0 strands.now ≡ Some record { thread = s.thread; «end» = s.«end».now }) }
{
    for (thread, strand) in strands.iter().enumerate() {
        if stops(&strand.end) {
            return Some(Stop {
                thread: thread as u32,
                end: &strand.end,
            });
        }
    }
    None
}

fn clip(value: i32) -> u8
    ensures { result ≡ clipped value }
{
    if 0 <= value && value < 100 {
        value as u8
    } else {
        99
    }
}

fn is_ended(end: &End) -> bool
    ensures { result ≡ is_ended «end».now }
{
    matches!(end, End::Ended(_))
}

/// Whether every thread is Ended.
pub fn all_ended(strands: &[Strand]) -> bool
    ensures { result ≡ all_ended strands.now }
{
    strands.iter().all(|strand| is_ended(&strand.end))
}

fn first_value(strands: &[Strand]) -> i32
    ensures { result ≡ first_value strands.now }
{
    match strands {
        [] => 0,
        [first, ..] => match &first.end {
            End::Ended(value) => *value,
            _ => 0,
        },
    }
}

fn stop_status(end: &End) -> u8
    ensures { result ≡ stop_status «end».now }
{
    match end {
        End::Fault(_, _) => 105,
        End::Budget => 107,
        End::ActionsFull => 108,
        End::Exit(value) => clip(*value),
        _ => 106,
    }
}

/// The status of a run with these strands.
pub fn status_of(strands: &[Strand]) -> u8
    requires { length strands.now < 2 ^ 32 }
    ensures { result ≡ status_by (first_stop 0 strands.now) strands.now }
{
    if let Some(stop) = first_stop(strands) {
        return stop_status(stop.end);
    }
    if all_ended(strands) {
        clip(first_value(strands))
    } else {
        106
    }
}
