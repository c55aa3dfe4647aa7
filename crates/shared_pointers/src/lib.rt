//! Arithmetic of pointers-to-shared (UPC 6.4.2, 6.4.3).
#![tactic(auto)]

mod access;
mod apart;
mod cast;
mod compare;
mod element;
mod row;
mod step;

pub use access::cell;
pub use apart::distance;
pub use cast::{member, to_block, to_local};
pub use compare::{order, same};
pub use element::stands_for_some_element;
pub use step::advance;
