//! A thread as it runs a program: its number, the threads and the shapes of the run, and the program; which values are
//! in range for it, and what operators, cells and allocations give on it.
#![tactic(auto)]

mod allocations;
mod operands;
mod places;
mod ranges;
mod runner;
mod setting;
mod shapes;

pub use allocations::allocated_shape;
pub use operands::{advanced_on, cast_on, difference_on, member_on, order_on, right_kind};
pub use places::{cell_at, shared_object};
pub use ranges::is_numeric;
pub use runner::Runner;
pub use setting::Setting;
pub use shapes::Shapes;
