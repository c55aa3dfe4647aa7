//! The values of cells.

ghost use Rattle.std.specs.Prelude.{◌≡◌, cond, Some, [], IfOk, OnErr};
ghost use Rattle.block_layout.specs.declared.place.Loc.{Loc};
ghost use Rattle.upc_values.specs.Openings as openings;
ghost use Rattle.upc_values.specs.Scalars.{same_loc};

use crate::pages::Pages;
use std::alloc::Global;
use std::marker::Model;
use upc_text::OutOfMemory;
use upc_values::{Loc, Scalar, SharedPtr};

/// The values last saved at locations, in pages of its own for each kind of value. Contracts see a list of both, where
/// the first value of a location counts.
#[derive(Drop)]
pub struct SavedCells {
    integers: Pages<i128>,
    pointers: Pages<SharedPtr>,
    locks: Pages<u32>,
}

impl Model for SavedCells {
    ghost use Rattle.std.specs.Prelude.{List};
    ghost use Rattle.block_layout.specs.declared.place.Loc.{Loc};
    ghost use Rattle.upc_values.specs.declared.scalar.Scalar.{Scalar};
    ghost use Rattle.shared_heap.specs.code.Cells.{all_cells};

    ghost Value = { List (Loc × Scalar) };

    ghost view = { λ c. all_cells c.integers c.pointers c.locks };
}

impl SavedCells {
    // No value.
    pub(crate) fn new(alloc: Global) -> SavedCells
        ensures { result ≡ [] }
    {
        SavedCells {
            integers: Pages::new(alloc),
            pointers: Pages::new(alloc),
            locks: Pages::new(alloc),
        }
    }

    // The value last saved at the location, if any was.
    pub(crate) fn get(&self, loc: Loc) -> Option<Scalar>
        ensures { result ≡ openings.given loc self.now }
    {
        if let Some(value) = self.integers.get(loc) {
            return Some(Scalar::Int(value));
        }
        if let Some(value) = self.pointers.get(loc) {
            return Some(Scalar::Shared(value));
        }
        match self.locks.get(loc) {
            Some(value) => Some(Scalar::Lock(value)),
            None => None,
        }
    }

    // Saves a value at the location. Where there is no memory, nothing changes. A value of another kind that stands
    // there is forgotten where it would be found before this one; after this one it does not count.
    pub(crate) fn save(&mut self, loc: Loc, value: Scalar) -> Result<(), OutOfMemory>
        ensures saved { IfOk result (λ _. (k : Loc)
            → openings.given k self.new ≡ cond (same_loc loc k) (Some value) (openings.given k self.old)) }
        ensures kept { OnErr result (self.new ≡ self.old) }
    {
        match value {
            Scalar::Int(value) => {
                self.integers.save(loc, value)?;
                Ok(())
            }
            Scalar::Shared(value) => {
                self.pointers.save(loc, value)?;
                self.integers.forget(loc);
                Ok(())
            }
            Scalar::Lock(value) => {
                self.locks.save(loc, value)?;
                self.integers.forget(loc);
                self.pointers.forget(loc);
                Ok(())
            }
        }
    }
}
