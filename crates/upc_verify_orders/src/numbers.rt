//! Numbers of places.

ghost use Rattle.std.specs.Prelude.{◌≡◌, cond, Some, OnOk, IfOk, unwrap_or};
ghost use Rattle.upc_values.specs.Operations as said;
ghost use Rattle.upc_values.specs.Consistent.{same_place};
ghost use Rattle.upc_verify_orders.specs.layer.Parts.{place_of};
ghost use Rattle.upc_verify_orders.specs.layer.Numbers.{numbers_in};
ghost use Rattle.upc_verify_orders.specs.code.Keys.{looked};
ghost use Rattle.upc_verify_orders.specs.code.Keys as keys;

use crate::operation::Operation;
use crate::place::Place;
use block_layout::Loc;
use std::alloc::{AllocError as OutOfMemory, Global};
use std::collections::BTreeMap;

// A location, in an order.
#[derive(Clone, Copy, PartialEq, Eq, PartialOrd, Ord)]
struct Key {
    object: u32,
    thread: u32,
    offset: u32,
}

// The number of the first operation at each place.
#[derive(Drop)]
struct Firsts {
    cells: BTreeMap<Key, usize>,
    sync: Option<usize>,
}

fn key_of(loc: Loc) -> Key
    ensures { result ≡ keys.key_of loc }
{
    Key {
        object: loc.object,
        thread: loc.thread,
        offset: loc.offset,
    }
}

impl Firsts {
    fn get(&self, place: Place) -> Option<usize>
        ensures { result ≡ looked self.now (place_of place) }
    {
        match place {
            Place::Cell(loc) => self.cells.get(&key_of(loc)).copied(),
            Place::Sync => self.sync,
        }
    }

    fn set(&mut self, place: Place, number: usize) -> Result<(), OutOfMemory>
        ensures { OnOk result ((p : said.Place) → looked self.new p
            ≡ cond (same_place (place_of place) p) (Some number) (looked self.old p)) }
    {
        match place {
            Place::Cell(loc) => {
                self.cells.insert(key_of(loc), number)?;
            }
            Place::Sync => self.sync = Some(number),
        }
        Ok(())
    }

    // The number of the first operation at the place, which is this one where there was none.
    fn number(&mut self, place: Place, number: usize) -> Result<usize, OutOfMemory>
        ensures first { IfOk result (λ n. n ≡ unwrap_or (looked self.old (place_of place)) number) }
        ensures kept { IfOk result (λ n. (p : said.Place) → looked self.new p
            ≡ cond (same_place (place_of place) p) (Some n) (looked self.old p)) }
    {
        if let Some(first) = self.get(place) {
            return Ok(first);
        }
        self.set(place, number)?;
        Ok(number)
    }
}

/// The numbers of the operations' places: of each, that of the first operation there.
pub(crate) fn numbers_of(alloc: Global, operations: &[Operation]) -> Result<Vec<usize>, OutOfMemory>
    ensures { IfOk result (λ numbers. numbers.items ≡ numbers_in operations.now) }
{
    let mut firsts = Firsts {
        cells: BTreeMap::new(alloc),
        sync: None,
    };
    let mut numbers = Vec::new(alloc);
    for i in 0..operations.len() {
        let number = firsts.number(operations[i].place(), i)?;
        numbers.push(number)?;
    }
    Ok(numbers)
}
