//! What the clocks of a history tell of its operations.

ghost use Rattle.race_report_bridge.specs.layer.Telling.{ClocksTell, ComesForward, ClocksShowRaces};

/// A law: an operation on a location comes before one of another thread just where the clocks say so.
pub fn clocks_tell_what_comes_before()
    ensures { ClocksTell }
{}

/// A law: what comes before an operation of another thread stands before it in the order of the history.
pub fn what_comes_before_stands_before()
    ensures { ComesForward }
{}

/// A law: an operation and a later one race just where the clocks show it.
pub fn clocks_show_races()
    ensures { ClocksShowRaces }
{}
