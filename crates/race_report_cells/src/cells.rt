//! What is kept of all locations.

ghost use Rattle.std.specs.Prelude.{◌≡◌, ℕ, [], ◌∷◌, ◌++◌, List, Some, None, map, slice_index, length, IfOk, OnOk};
ghost use Rattle.block_layout.specs.declared.place.Loc.{Loc};
ghost use Rattle.upc_values.specs.Lists.{Each, Pairwise};
ghost use Rattle.upc_values.specs.Operations.{Operation};
ghost use Rattle.order_builder.specs.layer.Commits.{named};
ghost use Rattle.race_report_clocks.specs.declared.channel.Channel.TheVariants as over;
ghost use Rattle.race_report_clocks.specs.layer.Clocks.{Clock};
ghost use Rattle.race_report_tables.specs.layer.Places.{place_of, ArePlaced};
ghost use Rattle.race_report_places.specs.layer.Sights.{Sight, seen_with};
ghost use Rattle.race_report_places.specs.Report.{IsBelow};
ghost use Rattle.race_report_cells.specs.layer.Found.{races_in};
ghost use Rattle.race_report_cells.specs.layer.Cells.{cell_at, IsOn, IsKept, IsWalked};

use crate::cell::Cell;
use crate::found::Found;
use order_builder::Named;
use race_report_clocks::Channel;
use race_report_places::{Race, Races};
use race_report_tables::{Places, Row};
use std::alloc::Global;
use upc_text::OutOfMemory;
use upc_values::Loc;

/// What is kept of each location that has operations, and the races that were found.
#[derive(Drop)]
pub struct Cells {
    pub places: Places,
    pub cells: Vec<Cell>,
    pub found: Found,
}

// Two operations that race on a location.
fn race_of(loc: Loc, first: Named, second: Named) -> Race
    ensures { result ≡ record { loc = loc; first = first.name; second = second.name } }
{
    Race {
        loc,
        first: first.name,
        second: second.name,
    }
}

impl Cells {
    /// No location has operations.
    pub fn new(alloc: Global) -> Cells
        ensures { IsWalked result [] }
    {
        Cells {
            places: Places::new(alloc),
            cells: Vec::new(alloc),
            found: Found::new(alloc),
        }
    }

    // One more location has a place, without operations.
    fn add(&mut self, alloc: Global, loc: Loc) -> Result<usize, OutOfMemory>
        requires placed { ArePlaced self.old.places (length self.old.cells.items) }
        requires absent { place_of self.old.places (over.Cell loc) ≡ None }
        ensures placed { OnOk result (ArePlaced self.new.places (length self.new.cells.items)) }
        ensures place { IfOk result (λ i. place_of self.new.places (over.Cell loc) ≡ Some i) }
        ensures same { OnOk result ((k : Loc) → cell_at self.new k ≡ cell_at self.old k) }
        ensures found { self.new.found ≡ self.old.found }
    {
        let place = self.cells.len();
        self.cells.push(Cell::new(alloc))?;
        self.places.put(Channel::Cell(loc), place)?;
        Ok(place)
    }

    // The place of what is kept of a location; it is made where there was none.
    fn open(&mut self, alloc: Global, loc: Loc) -> Result<usize, OutOfMemory>
        requires { ArePlaced self.old.places (length self.old.cells.items) }
        ensures placed { OnOk result (ArePlaced self.new.places (length self.new.cells.items)) }
        ensures place { IfOk result (λ i. place_of self.new.places (over.Cell loc) ≡ Some i) }
        ensures same { OnOk result ((k : Loc) → cell_at self.new k ≡ cell_at self.old k) }
        ensures found { self.new.found ≡ self.old.found }
    {
        match self.places.get(Channel::Cell(loc)) {
            Some(place) => Ok(place),
            None => self.add(alloc, loc),
        }
    }

    // One more operation, on a location, where so much is known.
    fn look(&mut self, alloc: Global, loc: Loc, now: Named, known: &Row) -> Result<(), OutOfMemory>
        requires { IsKept self.old }
        ensures kept { OnOk result (IsKept self.new) }
        ensures walked { OnOk result ((before : List Sight) (b : Sight) → IsOn loc b.operation
            → named b.operation ≡ now → ((u : ℕ) → slice_index known.now u ≡ b.known u)
            → IsWalked self.old before → IsWalked self.new (before ++ b ∷ [])) }
    {
        let place = self.open(alloc, loc)?;
        let racing = self.cells[place].look(alloc, now, known)?;
        match racing {
            Some(first) => {
                self.found.put(race_of(loc, first, now))?;
                Ok(())
            }
            None => Ok(()),
        }
    }

    /// More operations, on a location, where so much is known.
    pub fn look_all(
        &mut self,
        alloc: Global,
        loc: Loc,
        names: &[Named],
        known: &Row,
    ) -> Result<(), OutOfMemory>
        requires { IsKept self.old }
        ensures { OnOk result ((before : List Sight) (k : Clock) (os : List Operation) → names.now ≡ map named os
            → Each (IsOn loc) os → ((u : ℕ) → slice_index known.now u ≡ k u)
            → IsWalked self.old before → IsWalked self.new (before ++ seen_with k os)) }
    {
        for name in names {
            self.look(alloc, loc, *name, known)?;
        }
        Ok(())
    }

    /// The races that were found, ascending by object, thread and offset.
    pub fn races(&self, alloc: Global) -> Result<Races, OutOfMemory>
        requires { IsKept self.now }
        ensures list { IfOk result (λ races. races ≡ races_in self.now.found) }
        ensures ascending { IfOk result (λ races. Pairwise (λ r s. IsBelow r.loc s.loc) races) }
    {
        self.found.list(alloc)
    }
}
