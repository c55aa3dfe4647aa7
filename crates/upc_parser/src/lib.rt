//! From tokens to syntax trees (C99 6.7 to 6.9; UPC 6.4 to 6.7): exactly the proper trees of at most 256 levels.
#![tactic(auto)]

mod source;

pub use source::{one_tree, parse};
