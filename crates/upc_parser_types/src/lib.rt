//! From tokens to types and declarators (C99 6.7; UPC 6.5), over functions that parse expressions and structs; and the
//! parser of expressions and types, as a function on lists of tokens.
#![tactic(auto)]

mod declarators;
mod grammar;
mod types;

pub use grammar::Grammar;
