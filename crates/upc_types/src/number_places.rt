//! Where numbers stand in a list, found by a map.

ghost use Rattle.std.specs.Prelude.{◌≡◌, ℕ, nat_eq, ◌<◌, if◌then◌else◌, ◌∷◌, ◌++◌, [], length, get_or, Some, OnOk};
ghost use Rattle.std.specs.Prelude.{OnErr};
ghost use Rattle.std.specs.BTreeMap.{get};
ghost use Rattle.std.specs.Ordering.{nat_cmp};
ghost use Rattle.upc_types.specs.layer.Places.{place_below, IsLinked, IsPlaced};

use std::alloc::Global;
use std::collections::BTreeMap;
use upc_text::OutOfMemory;

/// Numbers in order; the latest place of each, and of each place the one before it of the same number. A tree, since
/// no choice of numbers makes it slow.
#[derive(Drop)]
pub struct Places {
    numbers: Vec<u64>,
    links: Vec<Option<usize>>,
    latest: BTreeMap<u64, usize>,
    ghost even: { length links.items ≡ length numbers.items },
    ghost linked: { IsLinked numbers.items links.items },
    ghost placed: { IsPlaced latest numbers.items },
}

// Keeps the place of a number. After want of memory nothing is changed.
fn keep(latest: &mut BTreeMap<u64, usize>, number: u64, place: usize) -> Result<(), OutOfMemory>
    ensures ok { OnOk result ((q : ℕ) → get nat_cmp latest.new q ≡ (if nat_eq number q then Some place
        else get nat_cmp latest.old q)) }
    ensures err { OnErr result ((q : ℕ) → get nat_cmp latest.new q ≡ get nat_cmp latest.old q) }
{
    latest.insert(number, place)?;
    Ok(())
}

impl Places {
    /// No number.
    pub fn new(alloc: Global) -> Places
        ensures { result.numbers.items ≡ [] }
    {
        Places {
            numbers: Vec::new(alloc),
            links: Vec::new(alloc),
            latest: BTreeMap::new(alloc),
        }
    }

    /// The latest place of a number. Takes no memory.
    pub fn last(&self, number: u64) -> Option<usize>
        ensures { result ≡ place_below self.now.numbers.items number (length self.now.numbers.items) }
    {
        self.latest.get(&number).copied()
    }

    /// The latest place below this one of the number that stands there. Takes no memory.
    pub fn before(&self, place: usize) -> Option<usize>
        requires { place < length self.now.numbers.items }
        ensures { result ≡ place_below self.now.numbers.items (get_or self.now.numbers.items place 0) place }
    {
        self.links[place]
    }

    /// One more number. After want of memory nothing is changed.
    pub fn note(&mut self, number: u64) -> Result<(), OutOfMemory>
        ensures ok { OnOk result (self.new.numbers.items ≡ self.old.numbers.items ++ (number ∷ [])) }
        ensures err { OnErr result (self.new.numbers.items ≡ self.old.numbers.items) }
    {
        let place = self.numbers.len();
        let link = self.last(number);
        self.numbers.reserve(1)?;
        self.links.reserve(1)?;
        keep(&mut self.latest, number, place)?;
        self.numbers.push(number).unwrap();
        self.links.push(link).unwrap();
        Ok(())
    }

    /// No number any longer.
    pub fn clear(&mut self)
        ensures { self.new.numbers.items ≡ [] }
    {
        self.numbers.clear();
        self.links.clear();
        self.latest.clear();
    }
}
