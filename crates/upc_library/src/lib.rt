//! The text of printf (C99 7.19.6.1), and the memory calls, step by step (UPC 7.2.5).
#![tactic(auto)]

mod areas;
mod cells;
mod copying;
mod piece;
mod printing;
mod range_cells;
mod spot;

pub use cells::{Cell, cuts_cell, kind_at, shape_of};
pub use copying::{CopySpec, CopyWish, Copying, Side};
pub use printing::print_text;
pub use spot::{Spot, byte_at, element, from_phase_0, spot_at};
