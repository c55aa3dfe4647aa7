//! The entries of a history, from their names.

ghost use Rattle.std.specs.Prelude.{◌≡◌, IfOk, OnOk};
ghost use Rattle.run_recorder.specs.code.Finding.{AreTables, IsTable, after, did_at, did_of_item};
ghost use Rattle.run_recorder.specs.code.Finding.{entries_of, entry_of, entry_by};
ghost use Rattle.run_recorder_parts.specs.layer.Readers.{Gives, same};

use run_recorder_parts::{Fail, Name};
use std::alloc::Global;
use upc_text::OutOfMemory;
use upc_values::{Chunks, Entries, Entry, Item, Items, Strand, copy_action};

// Adds the place of one more item, if it is an action.
fn note(places: &mut Vec<usize>, at: usize, item: &Item) -> Result<(), OutOfMemory>
    ensures { OnOk result (places.new.items ≡ after at item.now places.old.items) }
{
    match item {
        Item::Did(_, _) => places.push(at)?,
        Item::Stall => {}
    }
    Ok(())
}

// The places of the actions, by number.
fn places(alloc: Global, items: &Items) -> Result<Vec<usize>, OutOfMemory>
    ensures { IfOk result (λ v. IsTable items.now v.items) }
{
    let mut places = Vec::new(alloc);
    for at in 0..items.len() {
        let Some(item) = items.get(at) else {
            unreachable!()
        };
        note(&mut places, at, item)?;
    }
    Ok(places)
}

// Those of each thread.
fn tables(alloc: Global, strands: &[Strand]) -> Result<Vec<Vec<usize>>, OutOfMemory>
    ensures { IfOk result (λ v. AreTables strands.now v.items) }
{
    let mut tables = Vec::new(alloc);
    for strand in strands {
        let table = places(alloc, &strand.items)?;
        tables.push(table)?;
    }
    Ok(tables)
}

// The entry of this name, if the item is an action.
fn found(alloc: Global, name: Name, item: &Item) -> Result<Entry, Fail>
    ensures { Gives same result (entry_by name (did_of_item item.now)) }
{
    match item {
        Item::Did(action, reply) => Ok(Entry {
            thread: name.thread,
            index: name.index,
            action: copy_action(alloc, action)?,
            reply: *reply,
        }),
        Item::Stall => Err(Fail::Bad),
    }
}

// The entry of this name, by the places of its thread.
fn in_thread(alloc: Global, items: &Items, places: &[usize], name: Name) -> Result<Entry, Fail>
    requires { IsTable items.now places.now }
    ensures { Gives same result (entry_by name (did_at items.now name.index)) }
{
    let Some(place) = places.get(name.index as usize) else {
        return Err(Fail::Bad);
    };
    let Some(item) = items.get(*place) else {
        return Err(Fail::Bad);
    };
    found(alloc, name, item)
}

// The entry of this name.
fn one_entry(
    alloc: Global,
    strands: &[Strand],
    tables: &[Vec<usize>],
    name: Name,
) -> Result<Entry, Fail>
    requires { AreTables strands.now tables.now }
    ensures { Gives same result (entry_of strands.now name) }
{
    let Some(strand) = strands.get(name.thread as usize) else {
        return Err(Fail::Bad);
    };
    let Some(places) = tables.get(name.thread as usize) else {
        return Err(Fail::Bad);
    };
    in_thread(alloc, &strand.items, places.as_slice(), name)
}

/// The entries of these names. Each is found by the places of its thread.
pub fn entries(alloc: Global, strands: &[Strand], names: &[Name]) -> Result<Entries, Fail>
    ensures { Gives same result (entries_of strands.now names.now) }
{
    let tables = tables(alloc, strands)?;
    let mut entries = Chunks::new(alloc);
    for name in names {
        let found = one_entry(alloc, strands, tables.as_slice(), *name)?;
        entries.reserve()?;
        entries.push_reserved(found);
    }
    Ok(Entries::from_chunks(entries))
}
