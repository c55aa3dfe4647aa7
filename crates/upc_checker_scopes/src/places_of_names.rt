//! Where names stand in a list, found by a map.

ghost use Rattle.std.specs.Prelude.{◌≡◌, ℕ, nat_eq, ◌<◌, if◌then◌else◌, ◌∷◌, ◌++◌, [], length, get_or, Some, OnOk};
ghost use Rattle.std.specs.Prelude.{OnErr};
ghost use Rattle.std.specs.HashMap.{get};
ghost use Rattle.upc_types.specs.layer.Places.{place_below, IsLinked};
ghost use Rattle.upc_checker_scopes.specs.code.ViewPlaces.{IsPlaced};

use std::alloc::Global;
use std::collections::HashMap;
use upc_text::OutOfMemory;

/// Names by their numbers, in order; the latest place of each, and of each place the one before it of the same name.
#[derive(Drop)]
pub struct Places {
    names: Vec<u32>,
    links: Vec<Option<usize>>,
    latest: HashMap<u32, usize>,
    ghost even: { length links.items ≡ length names.items },
    ghost linked: { IsLinked names.items links.items },
    ghost placed: { IsPlaced latest names.items },
}

/// No name.
pub fn no_places(alloc: Global) -> Places
    ensures { result.names.items ≡ [] }
{
    Places {
        names: Vec::new(alloc),
        links: Vec::new(alloc),
        latest: HashMap::new(alloc),
    }
}

/// The latest place of a name. Takes no memory.
pub fn last_place(places: &Places, name: u32) -> Option<usize>
    ensures { result ≡ place_below places.now.names.items name (length places.now.names.items) }
{
    places.latest.get(&name).copied()
}

/// The latest place below this one of the name that stands there. Takes no memory.
pub fn place_before(places: &Places, place: usize) -> Option<usize>
    requires { place < length places.now.names.items }
    ensures { result ≡ place_below places.now.names.items (get_or places.now.names.items place 0)
        place }
{
    places.links[place]
}

/// Keeps the place of a name. After want of memory nothing is changed.
pub fn keep(places: &mut HashMap<u32, usize>, name: u32, place: usize) -> Result<(), OutOfMemory>
    ensures ok { OnOk result ((q : ℕ) → get nat_eq places.new q ≡ (if nat_eq name q then Some place
        else get nat_eq places.old q)) }
    ensures err { OnErr result ((q : ℕ) → get nat_eq places.new q ≡ get nat_eq places.old q) }
{
    places.insert(name, place)?;
    Ok(())
}

/// One more name. After want of memory nothing is changed.
pub fn note_place(places: &mut Places, name: u32) -> Result<(), OutOfMemory>
    ensures ok { OnOk result (places.new.names.items ≡ places.old.names.items ++ (name ∷ [])) }
    ensures err { OnErr result (places.new.names.items ≡ places.old.names.items) }
{
    let place = places.names.len();
    let link = last_place(places, name);
    places.names.reserve(1)?;
    places.links.reserve(1)?;
    keep(&mut places.latest, name, place)?;
    places.names.push(name).unwrap();
    places.links.push(link).unwrap();
    Ok(())
}
