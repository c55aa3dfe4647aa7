//! The values of a machine: its stacks, ints and private cells, and what values are made of values.
#![tactic(auto)]

pub mod ints;
pub mod private_cells;
pub mod private_pointers;
pub mod stack_work;
pub mod stacks;
pub mod worths;
