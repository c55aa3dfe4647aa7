//! Saved values, in pages.

ghost use Rattle.std.specs.Prelude.{◌≡◌, cond, Some, None, [], IfOk, OnErr};
ghost use Rattle.block_layout.specs.declared.place.Loc.{Loc};
ghost use Rattle.upc_values.specs.Scalars.{same_loc};
ghost use Rattle.shared_heap.specs.code.Cells.{found};

use crate::page::Page;
use crate::page_number::{PageNumber, offset_in_page, page_of};
use std::alloc::Global;
use std::collections::BTreeMap;
use std::marker::Model;
use upc_text::OutOfMemory;
use upc_values::Loc;

/// The values of one type last saved at locations, in pages of 1,024 offsets, each made at the first save into it.
/// Contracts see a list of both.
#[derive(Drop)]
pub struct Pages<T> {
    map: BTreeMap<PageNumber, Page<T>>,
    alloc: Global,
}

impl<T> Model for Pages<T> {
    ghost use Rattle.std.specs.Prelude.{List};
    ghost use Rattle.block_layout.specs.declared.place.Loc.{Loc};
    ghost use Rattle.shared_heap.specs.code.Cells.{by_loc};

    ghost Value = { List (Loc × T) };

    ghost view = { λ p. by_loc p.map.entries };
}

impl<T: Copy + Drop> Pages<T> {
    // No page.
    pub(crate) fn new(alloc: Global) -> Pages<T>
        ensures { result ≡ [] }
    {
        Pages {
            map: BTreeMap::new(alloc),
            alloc,
        }
    }

    // The value last saved at the location, if any is.
    pub(crate) fn get(&self, loc: Loc) -> Option<T>
        ensures { result ≡ found loc self.now }
    {
        // The count spares the search of an empty map, and says that the pages are in order.
        if self.map.len() == 0 {
            return None;
        }
        match self.map.get(&page_of(loc)) {
            Some(page) => page.get(offset_in_page(loc)),
            None => None,
        }
    }

    // Saves a value at the location. Where there is no memory, nothing changes.
    pub(crate) fn save(&mut self, loc: Loc, value: T) -> Result<(), OutOfMemory>
        ensures saved { IfOk result (λ _. (k : Loc)
            → found k self.new ≡ cond (same_loc loc k) (Some value) (found k self.old)) }
        ensures kept { OnErr result (self.new ≡ self.old) }
    {
        let number = page_of(loc);
        let at = offset_in_page(loc);
        if let Some(page) = self.map.get_mut(&number) {
            page.save(at, value)?;
            return Ok(());
        }
        let mut page = Page::new(self.alloc);
        page.save(at, value)?;
        self.map.insert(number, page)?;
        Ok(())
    }

    // Forgets what was saved at the location. It takes no memory.
    pub(crate) fn forget(&mut self, loc: Loc)
        ensures { (k : Loc) → found k self.new ≡ cond (same_loc loc k) None (found k self.old) }
    {
        let Some(page) = self.map.get_mut(&page_of(loc)) else {
            return;
        };
        page.forget(offset_in_page(loc));
    }
}
