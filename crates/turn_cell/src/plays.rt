//! The rule, and what each step on the table tells.
ghost use Rattle.turn_cell.specs.code.Rule.{Turned, starting, entered, left, met, joined, spent, note};
ghost use Rattle.turn_cell.specs.code.Rule.{without_first, first_alone};

use crate::kept::Kept;
use crate::view::{Begun, View};
use atomic_table::{Join, Play, Split, TableRule};

/// The rule of the cell, over its one word, its one slot and the views of its seats.
pub struct Law;

impl<W: Kept> TableRule<Option<W>, View<W::Member, W::Opening>, Begun<W>> for Law {
    ghost holds = { λ key. Turned W.members W.opening W.number (W.opening key.world.value) key.seats };

    ghost first = { λ key. starting (W.opening key.world.value) 0 key.seats };
}

// The compare-exchange that takes the turn.
pub(crate) struct Enter;

impl<W: Kept> Play<Option<W>, View<W::Member, W::Opening>> for Enter {
    ghost then = { entered W.members W.opening W.number };
}

// The store that leaves the turn.
pub(crate) struct Leave;

impl<W: Kept> Play<Option<W>, View<W::Member, W::Opening>> for Leave {
    ghost then = { left W.members W.number };
}

// The load that shows what was joined to be fronts of one list.
pub(crate) struct Meet;

impl<W: Kept> Play<Option<W>, View<W::Member, W::Opening>> for Meet {
    ghost then = { met W.number };
}

// A view that has seen as much, and has no number.
pub(crate) struct Note;

impl<M, O> Split<View<M, O>> for Note {
    ghost left = { λ v. v };

    ghost right = { note };
}

// The first number goes to a seat of its own.
pub(crate) struct Deal;

impl<M, O> Split<View<M, O>> for Deal {
    ghost left = { without_first };

    ghost right = { first_alone };
}

// One seat takes in another.
pub(crate) struct Both;

impl<M, O> Join<View<M, O>> for Both {
    ghost both = { joined };

    ghost spent = { spent };
}
