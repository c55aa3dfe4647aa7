//! The races that were found.

ghost use Rattle.std.specs.Prelude.{◌≡◌, [], map, IfOk, OnOk};
ghost use Rattle.std.specs.List.Sorted.{IsStrictlySortedBy};
ghost use Rattle.upc_values.specs.Lists.{Pairwise};
ghost use Rattle.race_report_places.specs.Report.{IsBelow};
ghost use Rattle.race_report_cells.specs.layer.Found as said;
ghost use Rattle.race_report_cells.specs.layer.Found.{IsKeyed, races_in, ArePut};

use race_report_places::{Race, Races};
use std::alloc::Global;
use std::collections::BTreeMap;
use upc_text::OutOfMemory;
use upc_values::{Listing, Loc};

/// A location as a key, by object, thread and offset.
#[derive(Clone, Copy, PartialEq, Eq, PartialOrd, Ord)]
pub struct Spot {
    pub object: u32,
    pub thread: u32,
    pub offset: u32,
}

/// A race for each location at which one was found.
#[derive(Drop)]
pub struct Found {
    races: BTreeMap<Spot, Race>,
}

// The key of a location.
fn spot_of(loc: Loc) -> Spot
    ensures { result ≡ said.spot_of loc }
{
    Spot {
        object: loc.object,
        thread: loc.thread,
        offset: loc.offset,
    }
}

impl Found {
    /// None.
    pub fn new(alloc: Global) -> Found
        ensures keyed { IsKeyed result }
        ensures none { races_in result ≡ [] }
    {
        Found {
            races: BTreeMap::new(alloc),
        }
    }

    /// One more race.
    pub fn put(&mut self, race: Race) -> Result<(), OutOfMemory>
        requires { IsKeyed self.old }
        ensures keyed { OnOk result (IsKeyed self.new) }
        ensures put { OnOk result (ArePut race (races_in self.old) (races_in self.new)) }
    {
        self.races.insert(spot_of(race.loc), race)?;
        Ok(())
    }

    // All of them, in the order of the map.
    fn values(&self, alloc: Global) -> Result<Races, OutOfMemory>
        ensures list { IfOk result (λ races. races ≡ races_in self.now) }
        ensures ordered { OnOk result (IsStrictlySortedBy said.spot_cmp (map (λ e. e.0) self.now.races.entries)) }
    {
        let races = self.races.values().copied().collect(alloc)?;
        Ok(Listing::from_vec(races))
    }

    /// All of them, ascending by object, thread and offset.
    pub fn list(&self, alloc: Global) -> Result<Races, OutOfMemory>
        requires { IsKeyed self.now }
        ensures list { IfOk result (λ races. races ≡ races_in self.now) }
        ensures ascending { IfOk result (λ races. Pairwise (λ r s. IsBelow r.loc s.loc) races) }
    {
        let races = self.values(alloc)?;
        Ok(races)
    }
}
