//! Shapes by number, found by their codes.

ghost use Rattle.std.specs.Prelude.{◌≡◌, ℕ, nat_eq, ◌<◌, ◌≤◌, if◌then◌else◌, ◌∷◌, ◌++◌, [], length, Some, IfOk, OnOk};
ghost use Rattle.std.specs.Prelude.{OnErr, get_or};
ghost use Rattle.std.specs.BTreeMap.{get};
ghost use Rattle.std.specs.Ordering.{nat_cmp};
ghost use Rattle.block_layout.specs.Shapes.{IsShape};
ghost use Rattle.upc_types.specs.layer.Places.{place_below, IsLinked, IsPlaced};
ghost use Rattle.typed_tree.specs.Elements as pure;
ghost use Rattle.typed_tree_opening.specs.code.Apart.{code_of, codes_of, AreApart};

use crate::elements::same_shape;
use crate::shape_codes::code_of;
use block_layout::Shape;
use std::alloc::Global;
use std::collections::BTreeMap;
use upc_text::OutOfMemory;

/// Shapes in the order of their numbers, no two of them equal; the latest place of each code, and of each place the
/// one before it of the same code.
#[derive(Drop)]
pub(crate) struct KnownShapes {
    pub(crate) list: Vec<Shape>,
    links: Vec<Option<usize>>,
    latest: BTreeMap<u64, usize>,
    ghost even: { length links.items ≡ length list.items },
    ghost linked: { IsLinked (codes_of list.items) links.items },
    ghost placed: { IsPlaced latest (codes_of list.items) },
    ghost apart: { AreApart list.items },
    ghost numbered: { length list.items ≤ 4294967295 },
}

// Keeps the place of a code. After want of memory nothing is changed.
fn keep(latest: &mut BTreeMap<u64, usize>, code: u64, place: usize) -> Result<(), OutOfMemory>
    ensures ok { OnOk result ((q : ℕ) → get nat_cmp latest.new q ≡ (if nat_eq code q then Some place
        else get nat_cmp latest.old q)) }
    ensures err { OnErr result ((q : ℕ) → get nat_cmp latest.new q ≡ get nat_cmp latest.old q) }
{
    latest.insert(code, place)?;
    Ok(())
}

impl KnownShapes {
    /// No shape.
    pub(crate) fn new(alloc: Global) -> KnownShapes
        ensures { result.list.items ≡ [] }
    {
        KnownShapes {
            list: Vec::new(alloc),
            links: Vec::new(alloc),
            latest: BTreeMap::new(alloc),
        }
    }

    // The latest place of a code.
    fn last(&self, code: u64) -> Option<usize>
        ensures { result ≡ place_below (codes_of self.now.list.items) code (length self.now.list.items) }
    {
        self.latest.get(&code).copied()
    }

    // The latest place below this one of the code that stands there.
    fn before(&self, place: usize) -> Option<usize>
        requires { place < length self.now.list.items }
        ensures { result ≡ place_below (codes_of self.now.list.items)
            (get_or (codes_of self.now.list.items) place 0) place }
    {
        self.links[place]
    }

    // The number of a shape, and where it has none, the count of all.
    fn number_of(&self, shape: &Shape, code: u64) -> u32
        requires { code ≡ code_of shape.now }
        ensures value { result ≡ pure.number_among self.now.list.items shape.now }
        ensures most { result ≤ length self.now.list.items }
    {
        let mut at = self.last(code);
        loop {
            match at {
                Some(place) => {
                    if same_shape(&self.list[place], shape) {
                        return place as u32;
                    }
                    at = self.before(place);
                }
                None => return self.list.len() as u32,
            }
        }
    }

    // One more shape, where none is equal.
    fn add(&mut self, shape: Shape, code: u64) -> Result<(), OutOfMemory>
        requires code { code ≡ code_of shape }
        requires new { pure.number_among self.old.list.items shape ≡ length self.old.list.items }
        ensures { OnOk result (self.new.list.items ≡ self.old.list.items ++ (shape ∷ [])) }
    {
        let place = self.list.len();
        if place >= u32::MAX as usize {
            return Err(OutOfMemory);
        }
        let link = self.last(code);
        self.list.reserve(1)?;
        self.links.reserve(1)?;
        keep(&mut self.latest, code, place)?;
        self.list.push(shape).unwrap();
        self.links.push(link).unwrap();
        Ok(())
    }

    /// The number of a shape, which it gets where it has none.
    pub(crate) fn number(&mut self, shape: Shape) -> Result<u32, OutOfMemory>
        requires { IsShape shape }
        ensures value { OnOk result (self.new.list.items ≡ pure.with_shape self.old.list.items shape) }
        ensures number { IfOk result (λ n. n ≡ pure.number_among self.old.list.items shape) }
    {
        let code = code_of(&shape);
        let number = self.number_of(&shape, code);
        let count = self.list.len();
        if (number as usize) < count {
            return Ok(number);
        }
        self.add(shape, code)?;
        Ok(number)
    }
}
