//! What runs of a program by lists of picks show: the lists, the runs, and each thing that they show with how often.
#![tactic(auto)]

mod row;
mod runs;
mod schedules;
mod tally;
mod text;

pub use row::Row;
pub use runs::explore;
pub use schedules::{every_list, seeded};
pub use text::list_text;
