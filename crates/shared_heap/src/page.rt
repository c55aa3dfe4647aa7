//! The values last saved at 1,024 offsets.

ghost use Rattle.std.specs.Prelude.{ℕ, ◌≡◌, ◌<◌, ◌==◌, cond, [], length, slice_index_or, Some, None, OnOk, OnErr};

use std::alloc::Global;
use std::marker::Model;
use upc_text::OutOfMemory;

/// How many offsets a page has.
pub(crate) const OFFSETS: u32 = 1024;

// The most values that a page has: a place has 16 bits. Only offsets that are forgotten and saved again and again, as
// where a location's values change from one kind to another and back, make more than one for each offset.
const MOST_VALUES: usize = 65535;

/// The values last saved at 1,024 offsets. An offset has a place among the values, from 1, or 0 where nothing is saved,
/// as it has past the last place. Contracts see the value of each offset up to there, if it has one.
#[derive(Drop)]
pub struct Page<T> {
    places: Vec<u16>,
    values: Vec<T>,
}

impl<T> Model for Page<T> {
    ghost use Rattle.std.specs.Prelude.{List, Option, map};
    ghost use Rattle.shared_heap.specs.code.Page.{value_at, IsPage};

    ghost Value = { List (Option T) };

    ghost view = { λ p. map (value_at p.values.items) p.places.items };

    ghost invariant = { λ p. IsPage p.values.items p.places.items };
}

// The place of an offset, 0 where it has none.
fn place_at(places: &[u16], at: usize) -> usize
    ensures { result ≡ slice_index_or places.now at 0 }
{
    match places.get(at) {
        Some(place) => usize::from(*place),
        None => 0,
    }
}

// Makes room for the place of an offset: a power of two of places, so that a page has few whose offsets are low. Where
// there is no memory, nothing changes.
fn make_room(places: &mut Vec<u16>, at: usize) -> Result<(), OutOfMemory>
    requires { at < 1024 }
    ensures room { OnOk result (at < length places.new.items) }
    ensures same { (k : ℕ) → slice_index_or places.new.items k 0 ≡ slice_index_or places.old.items k 0 }
    ensures kept { OnErr result (places.new.items ≡ places.old.items) }
{
    if at < places.len() {
        return Ok(());
    }
    places.resize((at + 1).next_power_of_two(), 0)?;
    Ok(())
}

impl<T: Copy + Drop> Page<T> {
    // A page where nothing is saved.
    pub(crate) fn new(alloc: Global) -> Page<T>
        ensures { result ≡ [] }
    {
        Page {
            places: Vec::new(alloc),
            values: Vec::new(alloc),
        }
    }

    // The value last saved at an offset, if one is.
    pub(crate) fn get(&self, at: usize) -> Option<T>
        ensures { result ≡ slice_index_or self.now at None }
    {
        let place = place_at(&self.places, at);
        if place == 0 {
            return None;
        }
        Some(self.values[place - 1])
    }

    // Saves a value at an offset. Where there is no memory or no place, nothing changes.
    pub(crate) fn save(&mut self, at: usize, value: T) -> Result<(), OutOfMemory>
        requires { at < 1024 }
        ensures saved { OnOk result ((k : ℕ)
            → slice_index_or self.new k None ≡ cond (at == k) (Some value) (slice_index_or self.old k None)) }
        ensures kept { OnErr result (self.new ≡ self.old) }
    {
        let place = place_at(&self.places, at);
        if place > 0 {
            self.values[place - 1] = value;
            return Ok(());
        }
        let many = self.values.len();
        if many >= MOST_VALUES {
            return Err(OutOfMemory);
        }
        self.values.reserve(1)?;
        make_room(&mut self.places, at)?;
        self.values.push_reserved(value);
        self.places[at] = (many + 1) as u16;
        Ok(())
    }

    // Forgets what was saved at an offset. It takes no memory.
    pub(crate) fn forget(&mut self, at: usize)
        ensures { (k : ℕ)
            → slice_index_or self.new k None ≡ cond (at == k) None (slice_index_or self.old k None) }
    {
        if at >= self.places.len() {
            return;
        }
        self.places[at] = 0;
    }
}
