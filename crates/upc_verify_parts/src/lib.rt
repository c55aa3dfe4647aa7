//! What a verdict asks of a journal by itself: its shape, what each strand is to the source's outcome, what each
//! thread's entries are to its record, and the ends.
#![tactic(auto)]

mod conforming;
mod ends;
mod record;
mod shape;

pub use conforming::{conforms, stalls_stand, wanted};
pub use ends::{all_settle, another_stops, has_own_end};
pub use record::replies_of;
pub use shape::has_shape;
