//! From tokens to statements (C99 6.8; UPC 6.6), by a definition on lists of tokens.
#![tactic(auto)]

mod knot;
mod start;
mod statements;

pub use knot::compound;
