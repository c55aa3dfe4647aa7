//! What every parser stands on: tokens read from the front (which are left, what comes next, what a token begins or
//! continues, items one after the other), and syntax trees from their parts, where memory allows (C99 6.5, 6.7;
//! UPC 6.4, 6.5).
#![tactic(auto)]

mod ahead;
mod boxes;
mod cursor;
pub mod expressions;
mod items;
mod start;
pub mod statements;

pub use ahead::{Ahead, Sign, starts, starts_two};
pub use boxes::boxed;
pub use cursor::{Fail, Fault, Tokens, expect_punct, expect_word, name, span_of};
pub use items::many;
pub use start::{
    Joint, Prefix, QualWord, SpecStart, Suffix, joint_level, joint_of, left_least, operand_level,
    prefix_of, qual_start, spec_start, suffix_of,
};
