//! The rule, and what each step on the table tells.
ghost use Rattle.post_box.specs.declared.view.Role.TheVariants.{First};
ghost use Rattle.post_box.specs.layer.Boxes.{view};
ghost use Rattle.std.specs.Prelude.{None};
ghost use Rattle.post_box.specs.code.Rule.{Stands, begun, posted_as, taken, given, had_back, retracted};
ghost use Rattle.post_box.specs.code.Rule.{as_owner, as_doer};

use crate::view::View;
use crate::work::Work;
use atomic_table::{Play, Split, TableRule};

/// The rule of the box, over its one word, its one slot and the views of the two.
pub struct Law;

impl<W: Work> TableRule<Option<(W::Item, u64)>, View<W::Item, W>, W> for Law {
    ghost holds = { Stands W.takes W.did };

    ghost first = { λ work. view work First None };
}

// The load that takes the slot in hand for the first time.
pub(crate) struct Begin;

impl<W: Work> Play<Option<(W::Item, u64)>, View<W::Item, W>> for Begin {
    ghost then = { begun };
}

// The store that posts an item.
pub(crate) struct Post;

impl<W: Work> Play<Option<(W::Item, u64)>, View<W::Item, W>> for Post {
    ghost then = { posted_as };
}

// The compare-exchange by which the doer takes the item.
pub(crate) struct Take;

impl<W: Work> Play<Option<(W::Item, u64)>, View<W::Item, W>> for Take {
    ghost then = { taken W.takes };
}

// The store that gives the item back.
pub(crate) struct Give;

impl<W: Work> Play<Option<(W::Item, u64)>, View<W::Item, W>> for Give {
    ghost then = { given };
}

// The compare-exchange by which the owner has the item back.
pub(crate) struct Back;

impl<W: Work> Play<Option<(W::Item, u64)>, View<W::Item, W>> for Back {
    ghost then = { had_back W.did };
}

// The compare-exchange by which the owner has an item back that nobody has taken.
pub(crate) struct Retract;

impl<W: Work> Play<Option<(W::Item, u64)>, View<W::Item, W>> for Retract {
    ghost then = { retracted };
}

// The store that dismisses the doer, which tells nothing.
pub(crate) struct Dismiss;

impl<W: Work> Play<Option<(W::Item, u64)>, View<W::Item, W>> for Dismiss {
    ghost then = { λ _ _ _ _. Unit {0} };
}

// The ready view is cut into the owner's and the doer's.
pub(crate) struct Deal;

impl<I, W> Split<View<I, W>> for Deal {
    ghost left = { as_owner };

    ghost right = { as_doer };
}
