//! What the operations in the order of the history show, each with what its thread knows there.

ghost use Rattle.race_report_places.specs.layer.Sights.{SightsShowRaces};
ghost use Rattle.race_report_places.specs.Report.{ShownIsReported};

/// A law: they are the operations of the journal, and show just which of them race.
pub fn sights_show_races()
    ensures { SightsShowRaces }
{}

/// A law: what they show first at a location is the race that is reported of it.
pub fn shown_is_reported()
    ensures { ShownIsReported }
{}
