//! What a thread's items emit through its write buffer, and the orders of a run: the strict order and each thread's
//! order of a journal's operations (UPC Appendix B).
#![tactic(auto)]

mod accesses;
mod commits;
mod consistent;
mod emitted;
mod entries;
mod entry;
mod history;
mod names;
mod order;
mod part;
mod records;
mod walk;
mod written;

pub use commits::Commits;
pub use consistent::answered_orders_are_consistent;
pub use entries::drain;
pub use names::{Named, Names};
pub use order::{global_order, orders, strict_order, thread_order};
pub use records::all_commits;
