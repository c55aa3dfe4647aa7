//! Whether a strand is what its source comes to on its replies.

ghost use Rattle.std.specs.Prelude.{◌≡◌, ◌↔◌, IsTrue, MatchOption, option_copied};
ghost use Rattle.upc_values.specs.Records.{actions_of};
ghost use Rattle.upc_values.specs.Outcomes as outcomes;
ghost use Rattle.upc_values.specs.Strands as said;
ghost use Rattle.upc_values.specs.Strands.{Conforms, MayWait, StallsStand, strand_ticks};
ghost use Rattle.upc_verify_parts.specs.code.Stalls.{FollowsStall};

use crate::record::{beats, is_beat_item, is_stall, last};
use upc_values::{Action, End, Item, Items, Strand, ToldEnd, same_action};

/// The action that a thread wants where it ends for want of a reply.
pub fn wanted(end: &ToldEnd) -> Option<&Action>
    ensures { option_copied result ≡ outcomes.wanted end.now }
{
    match end {
        ToldEnd::Wants(action) => Some(action),
        _ => None,
    }
}

// Whether these are the actions of the record.
fn are_actions_of(actions: &[Action], items: &Items) -> bool
    ensures { IsTrue result ↔ (actions.now ≡ actions_of items.now) }
{
    let mut left = actions;
    for item in items.iter() {
        if let Item::Did(action, _) = item {
            match left {
                [first, rest @ ..] => {
                    if !same_action(first, action) {
                        return false;
                    }
                    left = rest;
                }
                [] => return false,
            }
        }
    }
    left.is_empty()
}

fn may_wait(action: &Action) -> bool
    ensures { result ≡ said.may_wait action.now }
{
    matches!(action, Action::Lock(_) | Action::Wait(_))
}

// Whether the item may stand after a Stall.
fn follows_stall(item: &Item) -> bool
    ensures { IsTrue result ↔ FollowsStall item.now }
{
    match item {
        Item::Did(action, _) => may_wait(action),
        Item::Stall => false,
    }
}

// Whether there is an action, and it may wait.
fn is_waiting(want: Option<&Action>) -> bool
    ensures { IsTrue result ↔ MayWait (option_copied want.entry) }
{
    match want {
        Some(action) => may_wait(action),
        None => false,
    }
}

/// Whether no two Stalls are adjacent, and each stands before a Lock or a Wait, or is last while one is wanted.
pub fn stalls_stand(want: Option<&Action>, items: &Items) -> bool
    ensures { IsTrue result ↔ StallsStand (option_copied want.entry) items.now }
{
    let mut stalled = false;
    for item in items.iter() {
        if stalled && !follows_stall(item) {
            return false;
        }
        stalled = is_stall(item);
    }
    !stalled || is_waiting(want)
}

// Whether the ticks of a strand with this end and record are those of its outcome, or of the Beats where it was halted
// at one.
fn has_ticks(actions: &[Action], ticks: u64, strand: &Strand) -> bool
    requires { actions.now ≡ actions_of strand.now.items }
    ensures { IsTrue result ↔ (strand.now.ticks ≡ strand_ticks strand.now.«end» strand.now.items ticks) }
{
    let halted = matches!(strand.end, End::Halted);
    let at_beat = match last(&strand.items) {
        Some(item) => is_beat_item(item),
        None => false,
    };
    if halted && at_beat {
        strand.ticks % 1024 == 0 && strand.ticks / 1024 == beats(actions) as u64
    } else {
        strand.ticks == ticks
    }
}

/// Whether the strand's actions, Stalls and ticks are those of an outcome of its source, which has these actions, these
/// ticks and this end.
pub fn conforms(actions: &[Action], ticks: u64, end: &ToldEnd, strand: &Strand) -> bool
    ensures { IsTrue result ↔ Conforms
        (record { actions = actions.now; ticks = ticks; «end» = end.now }) strand.now }
{
    are_actions_of(actions, &strand.items)
        && stalls_stand(wanted(end), &strand.items)
        && has_ticks(actions, ticks, strand)
}
