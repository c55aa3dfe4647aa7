//! Whether the history and the records of a journal agree.

ghost use Rattle.std.specs.Prelude.{◌≡◌, ◌≤◌, ◌<◌, ◌↔◌, IsTrue, All, length, slice_index_or};
ghost use Rattle.upc_values.specs.declared.record.Item.{Item};
ghost use Rattle.upc_values.specs.declared.record.Item.TheVariants.{Did};
ghost use Rattle.upc_values.specs.Agrees.{IsIn, Agrees, is_did, IsPlace, IsPlaceOf};

use crate::equal::{same_action, same_reply};
use crate::journal::{Entries, Entry, Journal};
use crate::record::{Item, Items};

// A place in a record: how many items stand before it, and how many of them are actions.
#[derive(Clone, Copy)]
struct Place {
    at: usize,
    number: usize,
}

fn is_action(item: &Item) -> bool
    ensures { result ≡ is_did item.now }
{
    matches!(item, Item::Did(_, _))
}

fn is_action_at(items: &Items, at: usize) -> bool
    requires { at < length items.now }
    ensures { (d : Item) → result ≡ is_did (slice_index_or items.now at d) }
{
    match items.get(at) {
        Some(item) => is_action(item),
        None => unreachable!(),
    }
}

// Goes back to a place with at most this many actions before it.
fn back(items: &Items, from: Place, number: usize) -> Place
    requires { IsPlace items.now from.at from.number }
    ensures place { IsPlace items.now result.at result.number }
    ensures most { result.number ≤ number }
{
    let mut place = from;
    while place.number > number {
        place.at -= 1;
        if is_action_at(items, place.at) {
            place.number -= 1;
        }
    }
    place
}

// Goes on to the action of this number.
fn forward(items: &Items, from: Place, number: usize) -> Place
    requires place { IsPlace items.now from.at from.number }
    requires most { from.number ≤ number }
    ensures { IsPlaceOf items.now number result.at result.number }
{
    let mut place = from;
    while place.at < items.len() {
        if is_action_at(items, place.at) {
            if place.number == number {
                return place;
            }
            place.number += 1;
        }
        place.at += 1;
    }
    place
}

// The place of the action of this number.
fn seek(items: &Items, from: Place, number: usize) -> Place
    requires { IsPlace items.now from.at from.number }
    ensures { IsPlaceOf items.now number result.at result.number }
{
    forward(items, back(items, from, number), number)
}

fn is_did_as(item: &Item, entry: &Entry) -> bool
    ensures { IsTrue result ↔ (item.now ≡ Did entry.now.action entry.now.reply) }
{
    match item {
        Item::Did(action, reply) => {
            same_action(action, &entry.action) && same_reply(reply, &entry.reply)
        }
        Item::Stall => false,
    }
}

// Whether the entry is the action at its place.
fn is_at(items: &Items, place: Place, entry: &Entry) -> bool
    requires { IsPlaceOf items.now entry.now.index place.at place.number }
    ensures { IsTrue result ↔ IsIn items.now entry.now }
{
    match items.get(place.at) {
        Some(item) => is_did_as(item, entry),
        None => false,
    }
}

// Whether each entry of the thread is an action of the record.
fn are_in(items: &Items, thread: usize, history: &Entries) -> bool
    ensures { IsTrue result ↔ All (λ e. e.thread ≡ thread → IsIn items.now e) history.now }
{
    let mut place = Place { at: 0, number: 0 };
    for entry in history.iter() {
        if entry.thread as usize == thread {
            place = seek(items, place, entry.index as usize);
            if !is_at(items, place, entry) {
                return false;
            }
        }
    }
    true
}

// Whether each entry's thread is one of the first `count`.
fn are_below(count: usize, history: &Entries) -> bool
    ensures { IsTrue result ↔ All (λ e. e.thread < count) history.now }
{
    history.iter().all(|entry| (entry.thread as usize) < count)
}

/// Whether each entry of the history equals the item that its thread and its number name. It takes no memory.
pub fn agrees(journal: &Journal) -> bool
    ensures { IsTrue result ↔ Agrees journal.now }
{
    let history = &journal.history;
    let strands = journal.strands.as_slice();
    if !are_below(strands.len(), history) {
        return false;
    }
    for (thread, strand) in strands.iter().enumerate() {
        if !are_in(&strand.items, thread, history) {
            return false;
        }
    }
    true
}
