//! Which typing rule a node breaks first, by what its children are; what each expression is to the node above it (type,
//! form, constant value), and conversions.
#![tactic(auto)]

mod addresses;
pub mod attributes;
pub mod calls;
pub mod constants;
pub mod conversion;
pub mod declarations;
pub mod elements;
pub mod members;
pub mod reached;
pub mod rules;
pub mod sizes;
pub mod statements;
pub mod switch;
