//! From a syntax tree to a program that is well typed, or to the first rule that is broken.
#![tactic(auto)]

mod accept;
mod functions;
pub mod laws;
mod limits;
mod units;
mod whole;

pub use accept::{accepts, check};
pub use typed_tree::{Program, SharedDecl};
pub use upc_values::Value;
