//! The types of the language: their sizes, the cells of their objects, and their conversions.
#![tactic(auto)]

mod arithmetic;
mod codes;
mod conversion;
mod copy;
mod ctype;
mod layout;
mod made_alike;
mod member_names;
mod number_places;
mod reaching;
mod same;
mod shape;
mod size;
mod stars;
mod structs;
mod target;
mod targets;

pub use arithmetic::{promoted, usual};
pub use conversion::{
    assignable, castable, is_integer, is_lock_pointer, is_void, to_shared_void, to_void_pointer,
};
pub use copy::{copy_base, copy_type};
pub use ctype::{Access, Base, CType};
pub use layout::Layout;
pub use same::{same_base, same_block, same_type};
pub use shape::{is_marked, leaf_of, object_shape, shape_of};
pub use size::{size_of, takes_allocation};
pub use structs::{Completed, Member, Structs};
pub use target::Target;
pub use targets::alike;
