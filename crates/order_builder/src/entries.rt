//! The entries that a thread's items emit.

ghost use Rattle.std.specs.Prelude.{◌≡◌, map, IfOk, IfSome, is_some};
ghost use Rattle.upc_values.specs.Drain as drain;
ghost use Rattle.order_builder.specs.code.Views.{entry_in};

use crate::entry::EntryRef;
use crate::records::drained;
use std::alloc::Global;
use upc_text::OutOfMemory;
use upc_values::{Chunks, Entries, Entry, Items, copy_action};

// The entries, with their actions.
fn entries_of(alloc: Global, emitted: &[EntryRef]) -> Result<Entries, OutOfMemory>
    ensures { IfOk result (λ entries. entries ≡ map entry_in emitted.now) }
{
    let mut entries = Chunks::new(alloc);
    for entry in emitted {
        let action = copy_action(alloc, entry.action)?;
        entries.reserve()?;
        entries.push_reserved(Entry {
            thread: entry.thread,
            index: entry.index,
            action,
            reply: *entry.reply,
        });
    }
    Ok(Entries::from_chunks(entries))
}

/// The entries that the thread's items emit, none where a relaxed write is not Done, or a read does not have the value
/// of the pending write that answers it.
pub fn drain(alloc: Global, thread: u32, items: &Items) -> Result<Option<Entries>, OutOfMemory>
    ensures entries { IfOk result (λ found. IfSome found (λ es. es ≡ drain.drain thread items.now)) }
    ensures agrees { IfOk result (λ found. is_some found ≡ (drain.walked thread items.now).agrees) }
{
    let walk = drained(alloc, thread, items)?;
    if walk.agrees {
        Ok(Some(entries_of(alloc, walk.emitted.entries.as_slice())?))
    } else {
        Ok(None)
    }
}
