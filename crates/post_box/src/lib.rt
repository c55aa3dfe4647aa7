//! A box between two threads: an item that one posts comes back to it with what the other has done to it.
#![tactic(auto)]

mod calls;
mod plays;
mod post;
mod row;
mod view;
mod work;

pub use post::{Doer, Owner, PostBox};
pub use row::{Row, dismiss_all, make_row, post_all};
pub use work::Work;
