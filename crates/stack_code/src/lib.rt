//! Code that cannot go wrong, and what it means, instruction by instruction.
#![tactic(auto)]

mod builder;
mod code;
mod fitting;
mod instruction;
mod laws;

pub use builder::Builder;
pub use code::Code;
pub use fitting::work_fits;
pub use instruction::{
    CallWork, CellAccess, Instr, Jump, ObjectWork, Operation, StackWork, ThreadWork, ValueWork,
};
pub use laws::{ends_are_kept, one_outcome_at_most};
