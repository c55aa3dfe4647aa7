//! Code of expressions, which keeps their meaning.
#![tactic(auto)]

mod access;
mod branches;
mod building;
mod calls;
mod expressions;
mod laws;
mod objects;
mod operators;
mod places;
mod put;
mod source;

pub use access::put_kept;
pub use building::expr_code;
pub use expressions::{put_address_code, put_effect_code, put_value_code};
pub use laws::{
    effects_keep_their_meaning, effects_leave_nothing, expressions_keep_their_meaning,
    expressions_leave_a_value,
};
pub use objects::put_object;
pub use operators::put_advance;
pub use put::{put_cast, put_jump, put_push, put_stack};
pub use source::Source;
