//! Whether the history of a journal takes its records as the write buffers drain, whether it is legal, and whether ends
//! have their causes after it.
#![tactic(auto)]

mod ends;
mod entries;
mod first;
mod history;
mod waiting;

pub use ends::end_holds;
pub use entries::broken_entries;
pub use first::first_value;
pub use history::{goes_on, is_lawful};
pub use waiting::has_reply;
