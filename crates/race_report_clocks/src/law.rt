//! What the clocks of a history hold.

ghost use Rattle.race_report_clocks.specs.layer.Knowing.{ClocksHold};

/// A law: a clock is above a number just where an action with that number, or a later one of its thread, is known.
pub fn clocks_hold_what_is_known()
    ensures { ClocksHold }
{}
