//! Whether a record is sound, by what each thread's source comes to: which part fails first, and of which thread.
#![tactic(auto)]

mod ends;
mod judge;
mod meant;
mod orders;
mod strands;
mod verdict;

pub use judge::{judge_by, parts_are_a_sound_run};
pub use meant::Meant;
pub use verdict::Verdict;
