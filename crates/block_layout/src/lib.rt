//! Where the elements of a shared array lie (UPC 6.5.1.1, 6.5.2.1), and the types that name shared and private places.
#![tactic(auto)]

mod cell_lists;
mod cells;
mod cells_iter;
mod element;
mod ends;
mod floor;
mod kind;
pub mod limits;
mod piece;
mod place;
mod range;
mod run;
pub mod run_error;
mod runs;
mod same_runs;
mod sharable;
pub mod wide;

pub use cells::Cells;
pub use cells_iter::CellsIter;
pub use element::{offset_of, phase_of, star_block, thread_of};
pub use floor::floor_quotient;
pub use kind::{Kind, Shape};
pub use piece::piece_bytes;
pub use place::{Loc, LocalPtr, ObjectRef, SharedPtr};
pub use range::{FARTHEST, is_in_range};
