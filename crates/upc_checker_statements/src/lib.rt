//! Statements: from a syntax tree to trees with types, or to the first rule that is broken.
#![tactic(auto)]

pub mod statements;
