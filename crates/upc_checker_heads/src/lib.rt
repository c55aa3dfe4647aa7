//! Heads of statements: from a syntax tree to parts of trees with types, or to the first rule that is broken.
#![tactic(auto)]

pub mod heads;
