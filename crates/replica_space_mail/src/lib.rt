//! How threads deliver the mail between them, and the events that say so (UPC 5.1.2.3, Appendix B).
#![tactic(auto)]

mod deliveries;
mod ready;
mod roll;

pub use deliveries::{deliver_all, deliver_one};
pub use ready::{is_synchronising, make_room, prepare};
pub use roll::Roll;
