//! One world that threads take in turns: of each number its list has just what that number's seat added, in order.
#![tactic(auto)]

mod calls;
mod cell;
mod kept;
mod plays;
mod seat;
mod view;

pub use cell::{Turn, TurnCell};
pub use kept::Kept;
pub use seat::Seat;
