//! A relaxed write that waits.

use upc_values::{Loc, Scalar};

/// A relaxed write that is not committed yet: its number among the thread's actions, its location and its value.
#[derive(Clone, Copy, PartialEq, Eq, Debug)]
pub struct Pending {
    pub index: u32,
    pub loc: Loc,
    pub value: Scalar,
}
