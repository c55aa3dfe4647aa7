//! What a thread does at each item of an expression, and of a call: its arguments, the bodies of functions, the way
//! back.
#![tactic(auto)]

pub mod arguments;
mod bodies;
mod calling;
mod calls;
pub mod expressions;
pub mod functions;
