//! The tokens of a whole tree, written from the last to the first, and its height.
#![tactic(auto)]

mod unit_height;
mod unit_tokens;

pub use unit_height::height;
pub use unit_tokens::tokens_of;
