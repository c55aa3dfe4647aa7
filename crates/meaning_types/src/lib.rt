//! What the types and nodes of a program say to its code and its meaning.
#![tactic(auto)]

mod casts;
mod elements;
mod members;
mod nodes;
mod shapes;
mod types;

pub use casts::{conversion, parameter_conversion, promotion};
pub use elements::{elements_of, leaves_of};
pub use members::{member_offset, target_offset};
pub use nodes::{dimension, format_of, inner_place, is_main, is_printf, known_or_zero};
pub use shapes::shape_of;
pub use types::{cell_kind, element_type, integer_of, is_strict, target_of};
