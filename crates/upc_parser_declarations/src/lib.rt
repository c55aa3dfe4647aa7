//! From tokens to declarations, and to what holds no statement: parts of statements, single statements, and parts of a
//! source (C99 6.7 to 6.9; UPC 6.4 to 6.7), by a definition on lists of tokens.
#![tactic(auto)]

mod declarations;
mod heads;
mod parts;
mod single;

pub use heads::{for_head, forall_head, pragmas, test};
pub use parts::{behind_declarator, none_declared, pragma_part};
pub use single::{
    barrier_statement, break_statement, case_item, continue_statement, declaration_item,
    default_item, fence_statement, return_statement, value_statement,
};
