//! The numbers of pointer types.

ghost use Rattle.std.specs.Prelude.{◌≡◌, ◌≤◌, length, map};
ghost use Rattle.upc_types.specs.Cells as pure;
ghost use Rattle.upc_types.specs.code.Targets.{AreApart, codes_of};
ghost use Rattle.upc_types.specs.View.{view};

use crate::codes::code_of;
use crate::copy::copy_type;
use crate::ctype::CType;
use crate::number_places::Places;
use crate::same::{same_base, same_block};
use std::alloc::Global;
use upc_text::OutOfMemory;

/// Whether pointers to these targets have one type, but for const, strict and relaxed of the targets.
pub fn alike(a: &CType, b: &CType) -> bool
    ensures { result ≡ pure.alike (view a.now) (view b.now) }
{
    same_block(a.shared, b.shared) && same_base(&a.base, &b.base)
}

/// Targets of pointers by number, found by their codes.
#[derive(Drop)]
pub struct Targets {
    list: Vec<CType>,
    places: Places,
    ghost coded: { places.numbers.items ≡ codes_of (map view list.items) },
    ghost apart: { AreApart (map view list.items) },
    ghost numbered: { length list.items ≤ 4294967295 },
}

impl Targets {
    ghost use Rattle.std.specs.Prelude.{◌≡◌, ◌<◌, ◌≤◌, [], ◌∷◌, ◌++◌, IfOk, OnOk, OnErr, map, length};

    /// No target.
    pub fn new(alloc: Global) -> Targets
        ensures { map view result.list.items ≡ [] }
    {
        Targets {
            list: Vec::new(alloc),
            places: Places::new(alloc),
        }
    }

    /// The place of the first target that is alike, and where none is, their count. Takes no memory.
    pub fn number_of(&self, target: &CType) -> u32
        ensures value { result ≡ pure.number_of (map view self.now.list.items) (view target.now) }
        ensures most { result ≤ length (map view self.now.list.items) }
    {
        let mut at = self.places.last(code_of(target));
        loop {
            match at {
                Some(place) => {
                    if alike(&self.list[place], target) {
                        return place as u32;
                    }
                    at = self.places.before(place);
                }
                None => return self.list.len() as u32,
            }
        }
    }

    /// How many targets have a number.
    pub fn len(&self) -> usize
        ensures { result ≡ length (map view self.now.list.items) }
    {
        self.list.len()
    }

    // One more target, where none is alike. After want of memory nothing is changed.
    fn add(&mut self, target: &CType) -> Result<(), OutOfMemory>
        requires new { pure.number_of (map view self.old.list.items) (view target.now)
            ≡ length (map view self.old.list.items) }
        ensures ok { OnOk result (map view self.new.list.items
            ≡ map view self.old.list.items ++ (view target.now ∷ [])) }
        ensures err { OnErr result (map view self.new.list.items ≡ map view self.old.list.items) }
    {
        let count = self.list.len();
        if count >= u32::MAX as usize {
            return Err(OutOfMemory);
        }
        let copy = copy_type(target)?;
        self.list.reserve(1)?;
        self.places.note(code_of(target))?;
        self.list.push(copy).unwrap();
        Ok(())
    }

    /// Gives a target a number where it has none; answers the number. After want of memory nothing is changed.
    pub fn note(&mut self, target: &CType) -> Result<u32, OutOfMemory>
        ensures number { IfOk result (λ n. n ≡ pure.number_of (map view self.new.list.items) (view target.now)) }
        ensures below { IfOk result (λ n. n < length (map view self.new.list.items)) }
        ensures ok { OnOk result (map view self.new.list.items
            ≡ pure.noted (map view self.old.list.items) (view target.now)) }
        ensures err { OnErr result (map view self.new.list.items ≡ map view self.old.list.items) }
    {
        let number = self.number_of(target);
        let count = self.list.len();
        if (number as usize) < count {
            return Ok(number);
        }
        self.add(target)?;
        Ok(number)
    }

    /// No target has a number any longer.
    pub fn clear(&mut self)
        ensures { map view self.new.list.items ≡ [] }
    {
        self.list.clear();
        self.places.clear();
    }
}
