//! The names of operations, and orders of them (UPC Appendix B).

use crate::listing::Listing;

/// An operation: the write or the read of an action of a thread.
#[derive(Clone, Copy, PartialEq, Eq, Debug)]
pub struct Op {
    pub thread: u32,
    pub index: u32,
    pub write: bool,
}

/// A list of operations.
pub type Order = Listing<Op>;

/// An order for each thread.
pub type OrderList = Listing<Order>;

/// The strict operations in their order, and the order of each thread.
#[derive(Drop)]
pub struct Orders {
    pub strict: Order,
    pub threads: OrderList,
}
