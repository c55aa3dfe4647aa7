//! What threads do and what the memory answers: scalars, actions and replies, records, histories and journals.
#![tactic(auto)]

mod action;
mod agree;
mod chunked;
mod chunks;
mod consistent;
mod copy;
mod equal;
mod fit;
mod format;
mod journal;
mod library;
mod listing;
mod members;
mod order;
mod record;
mod refused;
mod scalar;

pub use action::{Action, Actions, Reply};
pub use agree::agrees;
pub use block_layout::{Cells, Kind, Loc, LocalPtr, ObjectRef, Shape, SharedPtr};
pub use chunked::Chunked;
pub use chunks::Chunks;
pub use consistent::{orders_are_consistent, pending_locations_differ};
pub use copy::{copy_action, copy_scalar, copy_shape, copy_shapes};
pub use equal::{same_action, same_loc, same_reply, same_scalar};
pub use fit::{blank, blank_value, fits_kind, is_integer, value_fits};
pub use format::{Conversion, Found, Piece, Style, first_piece};
pub use integers::{BinOp, UnOp, binary, convert, unary};
pub use journal::{Entries, Entry, Journal, Strand, Strands};
pub use library::{ElementKind, LibraryCall};
pub use listing::Listing;
pub use members::Members;
pub use order::{Op, Order, OrderList, Orders};
pub use record::{End, Item, Items, ToldEnd};
pub use refused::Refused;
pub use scalar::{Args, Mark, Scalar, Value};
