//! Integers of C's kinds: conversions and operators (C99 6.3, 6.5).
#![tactic(auto)]

mod arithmetic;
mod integer;
mod operator;

pub use arithmetic::{binary, truth, unary};
pub use integer::{convert, lies_in};
pub use operator::{BinOp, UnOp};
