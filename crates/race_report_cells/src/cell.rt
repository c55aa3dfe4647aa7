//! What is kept of a location.

ghost use Rattle.std.specs.Prelude.{◌≡◌, true, false, None, is_some, slice_index, IfOk};
ghost use Rattle.race_report_cells.specs.code.Lasts.{AreNoted, IsFound, races_by};
ghost use Rattle.race_report_cells.specs.layer.Cells.{fresh};

use crate::lasts::Lasts;
use order_builder::Named;
use race_report_tables::Row;
use std::alloc::Global;
use upc_text::OutOfMemory;

/// The last operations on a location, or that a race was found there; then nothing more is kept.
#[derive(Drop)]
pub struct Cell {
    pub lasts: Lasts,
    pub raced: bool,
}

impl Cell {
    /// No operation.
    pub fn new(alloc: Global) -> Cell
        ensures { result ≡ fresh }
    {
        Cell {
            lasts: Lasts::new(alloc),
            raced: false,
        }
    }

    /// One more operation on the location: the one with which it races, where it is the first there that races.
    pub fn look(
        &mut self,
        alloc: Global,
        now: Named,
        known: &Row,
    ) -> Result<Option<Named>, OutOfMemory>
        ensures over { IfOk result (λ first. self.old.raced ≡ true → (self.new.raced ≡ true) × (first ≡ None)) }
        ensures found { IfOk result (λ first. self.old.raced ≡ false
            → IsFound (races_by (λ u. slice_index known.now u) now) self.old.lasts first) }
        ensures raced { IfOk result (λ first. self.old.raced ≡ false → self.new.raced ≡ is_some first) }
        ensures noted { IfOk result (λ first. self.new.raced ≡ false → AreNoted now self.old.lasts self.new.lasts) }
    {
        if self.raced {
            return Ok(None);
        }
        let first = self.lasts.first_racing(now, known);
        if first.is_some() {
            self.raced = true;
            self.lasts = Lasts::new(alloc);
        } else {
            self.lasts.note(now)?;
        }
        Ok(first)
    }
}
