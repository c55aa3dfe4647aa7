//! The box, and the two places at it.
ghost use Rattle.std.specs.Prelude.{◌≡◌};

use crate::plays::Law;
use crate::view::View;
use crate::work::Work;
use atomic_table::{Seat, Table};
use std::alloc::Global;

/// A box between two threads, for one item at a time.
#[derive(Drop)]
pub struct PostBox<W: Work> {
    pub(crate) table: Table<Option<(W::Item, u64)>, View<W::Item, W>, W, Law, Global>,
    ghost sized: { (table.shared.table_id.words ≡ 1) × (table.shared.table_id.slots ≡ 1) },
}

/// The place of the thread that posts items and has them back, and how often it looks before it sleeps.
#[derive(Drop)]
pub struct Owner<W: Work> {
    pub(crate) place: Seat<Option<(W::Item, u64)>, View<W::Item, W>>,
    pub(crate) looks: u32,
}

/// The place of the thread that takes items, works on them and gives them back, and how often it looks before it
/// sleeps.
#[derive(Drop)]
pub struct Doer<W: Work> {
    pub(crate) place: Seat<Option<(W::Item, u64)>, View<W::Item, W>>,
    pub(crate) looks: u32,
}
