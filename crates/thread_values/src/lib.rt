//! What the steps of a thread make of values.
#![tactic(auto)]

mod calls;
mod casts;
mod cells;
mod collectives;
mod copies;
mod library;
mod meetings;
mod operators;
mod pointers;
mod replies;
mod values;

pub use calls::{has_turn, library_value, pointer_to, printed, printed_count};
pub use casts::cast;
pub use cells::{cell, into_shared, is_read};
pub use collectives::{collective_number, scalars_met};
pub use copies::{is_copying, private_of, spec_of};
pub use library::{LibraryStep, library_step};
pub use meetings::{is_collective, is_formed};
pub use operators::{applied, int_of, operated};
pub use pointers::{advanced, difference, in_row, member_behind, order, same};
pub use replies::{reply_fits, reply_value};
pub use values::{first_int, is_zero, kept, kept_scalar, number_of, scalar_of, truth_value};
