//! From tokens to whole sources (C99 6.9; UPC 6.7), by a definition on lists of tokens.
#![tactic(auto)]

mod externals;

pub use externals::unit;
