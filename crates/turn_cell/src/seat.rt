//! A place at a cell.
use crate::kept::Kept;
use crate::view::View;

/// A place at a cell, by which one thread takes turns: its number, the list that it has seen, and what it added. It has
/// no bytes. No seat can be made but by `TurnCell::start`.
#[derive(Drop)]
pub struct Seat<W: Kept> {
    pub(crate) place: atomic_table::Seat<Option<W>, View<W::Member, W::Opening>>,
}
