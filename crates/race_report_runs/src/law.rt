//! Sound journals, and what is asked of a run.

ghost use Rattle.race_report_runs.specs.code.Sound.{SoundIsARun};

/// A law: a journal that is sound for a program, with a budget and actions of at least 1, is a run of which races are
/// told: each record begins with the notify before main, answered Done.
pub fn sound_journals_are_runs()
    ensures { SoundIsARun }
{}
