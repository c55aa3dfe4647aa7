//! Nodes that are finished: the tree with its types from its parts, each node judged after its parts.
#![tactic(auto)]

pub mod build;
pub mod build_statements;
pub mod called;
pub mod calls;
mod format;
mod judgements;
pub mod lists;
pub mod marks;
pub mod nodes;
mod parts;
pub mod statement_parts;
pub mod statements;
