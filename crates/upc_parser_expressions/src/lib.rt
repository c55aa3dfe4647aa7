//! From tokens to expressions, and with them to types and declarators (C99 6.5, 6.7; UPC 6.4, 6.5).
#![tactic(auto)]

mod expression;
mod knot;
mod parts;

pub use knot::expr;
pub use parts::{declarator, dimensions, next_exprs, parameters, pointers, specs};
