//! What a checked program begins with, made: the shapes of its shared elements, its shared objects and the initial
//! values of its file-scope objects.
#![tactic(auto)]

mod allocated;
mod beginning;
mod elements;
mod initials;
mod inside;
mod known_shapes;
mod objects;
mod privates;
mod setting;
mod shape_codes;
mod targets;
mod values;

pub use allocated::allocated_types;
pub use beginning::{begin, open};
pub use elements::{element_shape, number_among};
pub use inside::types_inside;
pub use setting::Setting;
