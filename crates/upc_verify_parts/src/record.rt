//! What a record has.

ghost use Rattle.std.specs.Prelude.{◌≡◌, Some, IfOk, option_copied};
ghost use Rattle.upc_values.specs.Records as said;

use std::alloc::Global;
use upc_text::OutOfMemory;
use upc_values::{Action, Item, Items, Reply};

/// The replies of a record's actions, in order.
pub fn replies_of(alloc: Global, items: &Items) -> Result<Vec<Reply>, OutOfMemory>
    ensures { IfOk result (λ replies. replies.items ≡ said.replies_of items.now) }
{
    let mut replies = Vec::new(alloc);
    for item in items.iter() {
        if let Item::Did(_, reply) = item {
            replies.push(*reply)?;
        }
    }
    Ok(replies)
}

/// The last item, if there is one.
pub(crate) fn last(items: &Items) -> Option<&Item>
    ensures { option_copied result ≡ said.last_item items.now }
{
    let count = items.len();
    if count == 0 {
        None
    } else {
        items.get(count - 1)
    }
}

/// Whether the item is a Stall.
pub(crate) fn is_stall(item: &Item) -> bool
    ensures { result ≡ said.is_stall (Some item.now) }
{
    matches!(item, Item::Stall)
}

fn is_beat(action: &Action) -> bool
    ensures { result ≡ said.is_beat action.now }
{
    matches!(action, Action::Beat)
}

/// Whether the item is a Beat.
pub(crate) fn is_beat_item(item: &Item) -> bool
    ensures { result ≡ said.is_beat_item (Some item.now) }
{
    match item {
        Item::Did(action, _) => is_beat(action),
        Item::Stall => false,
    }
}

/// How many of the actions are Beats.
pub(crate) fn beats(actions: &[Action]) -> usize
    ensures { result ≡ said.beats actions.now }
{
    let mut count = 0;
    for action in actions {
        if is_beat(action) {
            count += 1;
        }
    }
    count
}
