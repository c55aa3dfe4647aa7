//! What a cell holds, and what an expression gives.

use crate::listing::Listing;
use block_layout::{LocalPtr, SharedPtr};

/// The value of a shared cell.
#[derive(Clone, Copy, PartialEq, Eq, Debug)]
pub enum Scalar {
    Int(i128),
    Shared(SharedPtr),
    /// The number of a lock; 0 is null.
    Lock(u32),
}

/// The value of an expression.
#[derive(Clone, Copy, PartialEq, Eq, Debug)]
pub enum Value {
    Scalar(Scalar),
    Local(LocalPtr),
}

/// The value of a notify or a wait (UPC 6.6.1): none, the implicit barriers before and after `main`, or an int.
#[derive(Clone, Copy, PartialEq, Eq, Debug)]
pub enum Mark {
    Absent,
    Start,
    Finish,
    Given(i32),
}

/// The arguments of a collective call.
pub type Args = Listing<Scalar>;
