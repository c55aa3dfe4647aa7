//! Writes with their stamps.

ghost use Rattle.std.specs.Prelude.{◌≡◌};
ghost use Rattle.replica_space.specs.Spaces as said;

use upc_values::{Loc, Scalar};

/// When a write was made: the clock of its thread, and the thread. Stamps are compared in this order.
#[derive(Clone, Copy)]
pub struct Stamp {
    pub clock: u64,
    pub thread: u32,
}

/// A write of a value to a location, by action `index` of its stamp's thread.
#[derive(Clone, Copy)]
pub struct Message {
    pub index: u32,
    pub loc: Loc,
    pub value: Scalar,
    pub stamp: Stamp,
}

impl Stamp {
    /// Whether this stamp is later than the other.
    pub fn is_later(&self, other: &Stamp) -> bool
        ensures { result ≡ said.is_later self.now other.now }
    {
        self.clock > other.clock || (self.clock == other.clock && self.thread > other.thread)
    }
}
