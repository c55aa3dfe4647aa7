//! The private objects of one thread: those that live, what their cells hold, and the blocks and calls that they live
//! in.
#![tactic(auto)]

mod beginning;
mod blocks;
mod finding;
mod frame;
mod held;
mod marks;
mod object;
mod object_list;
mod row_shapes;
mod store;

pub use block_layout::{Kind, LocalPtr, Shape};
pub use store::{MOST_BYTES, MOST_CALLS, MOST_OBJECTS, Store};
pub use upc_values::{Refused, Value};
