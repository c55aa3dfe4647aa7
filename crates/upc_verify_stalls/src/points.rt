//! The Stalls of a record.

ghost use Rattle.std.specs.Prelude.{◌≡◌, ◌≤◌, ◌<◌, ◌+◌, ◌↔◌, [], ◌∷◌, ℕ, List, Option, Some, false};
ghost use Rattle.std.specs.Prelude.{length, map, slice_index_or, option_copied, IsTrue, IfOk, OnOk};
ghost use Rattle.upc_values.specs.declared.action.Action.{Action};
ghost use Rattle.upc_values.specs.declared.action.Reply.{Reply};
ghost use Rattle.upc_values.specs.declared.record.Item.{Item};
ghost use Rattle.upc_values.specs.declared.record.Item.TheVariants.{Did};
ghost use Rattle.upc_values.specs.declared.journal.Entry.{Entry};
ghost use Rattle.upc_values.specs.Drain.{drain};
ghost use Rattle.upc_values.specs.Strands.{StallsStand, next_action};
ghost use Rattle.upc_verify_stalls.specs.code.Points.{waiting_of, waitings, AreBelow};
ghost use Rattle.upc_verify_stalls.specs.code.Searches.{IsReady, IsAt};

use std::alloc::Global;
use upc_text::OutOfMemory;
use upc_values::{Action, Entries, Item, Items, Listing};

/// A Stall: how many entries of its thread stand before it, and the action after it, which waits.
#[derive(Clone, Copy)]
pub struct Point<'a> {
    pub entries: usize,
    pub action: &'a Action,
}

// Whether the entry at this place is numbered below this.
fn is_below(entries: &Entries, place: usize, number: u32) -> bool
    requires { place < length entries.now }
    ensures { (d : Entry) → IsTrue result ↔ ((slice_index_or entries.now place d).index < number) }
{
    match entries.get(place) {
        Some(entry) => entry.index < number,
        None => unreachable!(),
    }
}

// The place of the first entry, from this one on, that is not numbered below this.
fn place_from(entries: &Entries, from: usize, number: u32) -> usize
    requires within { from ≤ length entries.now }
    requires less { (i : ℕ) (d : Entry) → i < from → (slice_index_or entries.now i d).index < number }
    ensures { AreBelow entries.now number result }
{
    let mut place = from;
    while place < entries.len() {
        if !is_below(entries, place, number) {
            return place;
        }
        place += 1;
    }
    place
}

// What has been seen of a record: its Stalls but for one right before, the place of the next entry to look at, the
// number of the next action, and whether a Stall stands right before.
#[derive(Drop)]
struct Search<'a> {
    points: Vec<Point<'a>>,
    place: usize,
    number: u32,
    stalled: bool,
}

impl<'a> Search<'a> {
    // The Stall right before, if there is one, stands before this action.
    fn settle(&mut self, entries: &Entries, action: &'a Action) -> Result<(), OutOfMemory>
        requires { IsReady entries.now self.old }
        ensures ready { OnOk result (IsReady entries.now self.new) }
        ensures stalled { OnOk result (self.new.stalled ≡ false) }
        ensures settled { OnOk result ((t : ℕ) (want : Option Action) (items left : List Item)
            → entries.now ≡ drain t items → next_action want left ≡ Some action.now
            → IsAt t want items left self.old → IsAt t want items left self.new) }
    {
        if !self.stalled {
            return Ok(());
        }
        let place = place_from(entries, self.place, self.number);
        self.points.push(Point {
            entries: place,
            action,
        })?;
        self.place = place;
        self.stalled = false;
        Ok(())
    }

    // One more action has its number.
    fn count(&mut self) -> Result<(), OutOfMemory>
        ensures number { OnOk result (self.new.number ≡ self.old.number + 1) }
        ensures points { self.new.points.items ≡ self.old.points.items }
        ensures place { self.new.place ≡ self.old.place }
        ensures stalled { self.new.stalled ≡ self.old.stalled }
    {
        let Some(next) = self.number.checked_add(1) else {
            return Err(OutOfMemory);
        };
        self.number = next;
        Ok(())
    }

    // The next item is an action.
    fn pass_action(&mut self, entries: &Entries, action: &'a Action) -> Result<(), OutOfMemory>
        requires { IsReady entries.now self.old }
        ensures ready { OnOk result (IsReady entries.now self.new) }
        ensures passed { OnOk result ((t : ℕ) (want : Option Action) (items left : List Item) (r : Reply)
            → entries.now ≡ drain t items → IsAt t want items (Did action.now r ∷ left) self.old
            → IsAt t want items left self.new) }
    {
        self.settle(entries, action)?;
        self.count()?;
        Ok(())
    }

    // The next item.
    fn pass(&mut self, entries: &Entries, item: &'a Item) -> Result<(), OutOfMemory>
        requires { IsReady entries.now self.old }
        ensures ready { OnOk result (IsReady entries.now self.new) }
        ensures passed { OnOk result ((t : ℕ) (want : Option Action) (items left : List Item)
            → entries.now ≡ drain t items → IsAt t want items (item.now ∷ left) self.old
            → IsAt t want items left self.new) }
    {
        match item {
            Item::Stall => {
                self.stalled = true;
                Ok(())
            }
            Item::Did(action, _) => {
                self.pass_action(entries, action)?;
                Ok(())
            }
        }
    }

    // No item is left, and this action is wanted.
    fn close(&mut self, entries: &Entries, want: Option<&'a Action>) -> Result<(), OutOfMemory>
        requires { IsReady entries.now self.old }
        ensures { OnOk result ((t : ℕ) (items : List Item) → entries.now ≡ drain t items
            → IsAt t (option_copied want.entry) items [] self.old
            → map waiting_of self.new.points.items ≡ waitings t (option_copied want.entry) [] items) }
    {
        match want {
            Some(action) => {
                self.settle(entries, action)?;
                Ok(())
            }
            None => Ok(()),
        }
    }
}

/// The Stalls of a record, which emits these entries, of whatever thread, and after which this action is wanted.
pub fn points_of<'a>(
    alloc: Global,
    items: &'a Items,
    want: Option<&'a Action>,
    entries: &Entries,
) -> Result<Listing<Point<'a>>, OutOfMemory>
    requires { StallsStand (option_copied want) items.now }
    ensures { (t : ℕ) → entries.now ≡ drain t items.now → IfOk result (λ points. map waiting_of points
        ≡ waitings t (option_copied want.entry) [] items.now) }
{
    let mut search = Search {
        points: Vec::new(alloc),
        place: 0,
        number: 0,
        stalled: false,
    };
    for item in items.iter() {
        search.pass(entries, item)?;
    }
    search.close(entries, want)?;
    Ok(Listing::from_vec(search.points))
}
