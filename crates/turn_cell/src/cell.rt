//! The cell, and a turn of it.
ghost use Rattle.std.specs.Prelude.{◌≡◌};

use crate::kept::Kept;
use crate::plays::Law;
use crate::view::{Begun, View};
use atomic_table::Table;
use std::alloc::Global;

/// A world that its seats take in turns. Each number from 0 on has one seat.
///
/// A turn is the time from `enter` to `leave`, in which one seat alone has the world.
#[derive(Drop)]
pub struct TurnCell<W: Kept> {
    pub(crate) table: Table<Option<W>, View<W::Member, W::Opening>, Begun<W>, Law, Global>,
    ghost sized: { (table.shared.table_id.words ≡ 1) × (table.shared.table_id.slots ≡ 1) },
}

// It has no `Drop`, so that no turn gets lost.
pub(crate) struct Held;

/// A turn, with the world. It cannot be dropped: `leave` alone ends it.
pub struct Turn<W> {
    /// What the seats share. Whoever has the turn may change it.
    pub world: W,
    pub(crate) held: Held,
}
