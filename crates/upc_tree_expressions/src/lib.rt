//! The tokens of expressions and types, written from the last to the first.
#![tactic(auto)]

mod backwards;
mod expressions;

pub use backwards::Backwards;
pub use expressions::{
    put_declarator, put_expr, put_next_exprs, put_parameters, put_pointers, put_specs,
};
