//! Declarations: from a syntax tree to the objects and functions that they declare, or to the first rule that is
//! broken.
#![tactic(auto)]

pub mod declarations;
