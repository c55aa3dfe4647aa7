//! Every sound journal is a run of which races are told.
#![tactic(auto)]

mod law;

pub use law::sound_journals_are_runs;
