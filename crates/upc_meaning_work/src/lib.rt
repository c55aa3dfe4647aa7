//! What a thread has left to do, item by item, the values that are under way, and what both give.
#![tactic(auto)]

mod evaluation;
mod flow;
mod standing;
mod values;
mod works;

pub use evaluation::Evaluation;
pub use flow::Flow;
pub use standing::{Standing, with_objects, with_strict};
pub use values::Values;
pub use works::{Parameters, Work, Works};
