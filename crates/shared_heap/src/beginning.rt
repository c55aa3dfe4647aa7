//! What a run begins with.

ghost use Rattle.std.specs.Prelude.{◌≡◌, ◌<◌, ◌≤◌, ◌^◌, Some, IfOk, slice_get, length};
ghost use Rattle.block_layout.specs.declared.place.Loc.{Loc};
ghost use Rattle.upc_values.specs.Shapes as shapes;
ghost use Rattle.upc_values.specs.Openings as openings;
ghost use Rattle.upc_values.specs.Openings.{IsOpening, bytes_of};
ghost use Rattle.upc_values.specs.Formed as formed;

use crate::cells::SavedCells;
use block_layout::piece_bytes;
use std::alloc::Global;
use std::marker::Model;
use upc_text::OutOfMemory;
use upc_values::{Kind, Loc, ObjectRef, Scalar, Shape, copy_shapes};

/// What a run begins with: the number of threads, the declared shared objects, the initial values of some of their
/// cells, and the shapes of elements. Contracts see the opening, which is a valid one.
#[derive(Drop)]
pub struct Beginning {
    threads: u32,
    declared: Vec<ObjectRef>,
    initials: Vec<(Loc, Scalar)>,
    firsts: SavedCells,
    shapes: Vec<Shape>,
}

impl Model for Beginning {
    ghost use Rattle.upc_values.specs.Openings.{Opening};
    ghost use Rattle.shared_heap.specs.code.Kept.{IsBegun};

    ghost Value = { Opening };

    ghost view = { λ b. record {
      threads = b.threads;
      declared = b.declared.items;
      initials = b.initials.items;
      shapes = b.shapes.items;
    } };

    ghost invariant = { λ b. IsBegun
        record {
          threads = b.threads;
          declared = b.declared.items;
          initials = b.initials.items;
          shapes = b.shapes.items;
        }
        b.firsts };
}

// The initial values, to be found by location. The last ones are saved first.
fn find_by_loc(alloc: Global, initials: &[(Loc, Scalar)]) -> Result<SavedCells, OutOfMemory>
    ensures { IfOk result (λ cells. (l : Loc) → openings.given l cells ≡ openings.given l initials.now) }
{
    let mut cells = SavedCells::new(alloc);
    for at in (0..initials.len()).rev() {
        let initial = initials[at];
        cells.save(initial.0, initial.1)?;
    }
    Ok(cells)
}

impl Beginning {
    /// A run with these threads, objects, initial values and shapes. Want of memory also comes where there would be
    /// 2^32 - 1 shapes.
    pub fn make(
        alloc: Global,
        declared: &[ObjectRef],
        initials: &[(Loc, Scalar)],
        shapes: &[Shape],
        threads: u32,
    ) -> Result<Beginning, OutOfMemory>
        requires { IsOpening record {
          threads = threads;
          declared = declared.now;
          initials = initials.now;
          shapes = shapes.now;
        } }
        ensures { IfOk result (λ b. b ≡ record {
          threads = threads;
          declared = declared.now;
          initials = initials.now;
          shapes = shapes.now;
        }) }
    {
        if shapes.len() >= u32::MAX as usize {
            return Err(OutOfMemory);
        }
        Ok(Beginning {
            threads,
            declared: Vec::from_slice(alloc, declared)?,
            initials: Vec::from_slice(alloc, initials)?,
            firsts: find_by_loc(alloc, initials)?,
            shapes: copy_shapes(alloc, shapes)?,
        })
    }

    /// How many threads there are: 1 to 32.
    pub fn threads(&self) -> u32
        ensures threads { result ≡ self.now.threads }
        ensures few { result ≤ 32 }
    {
        self.threads
    }

    /// The declared shared objects, by number from 1 on.
    pub fn declared(&self) -> &[ObjectRef]
        ensures { result.now ≡ self.now.declared }
    {
        self.declared.as_slice()
    }

    /// The initial values.
    pub fn initials(&self) -> &[(Loc, Scalar)]
        ensures { result.now ≡ self.now.initials }
    {
        self.initials.as_slice()
    }

    /// The shapes of elements, by number from 0 on.
    pub fn shapes(&self) -> &[Shape]
        ensures shapes { result.now ≡ self.now.shapes }
        ensures few { length self.now.shapes < 2 ^ 32 }
    {
        self.shapes.as_slice()
    }

    /// The initial value of a location, if one is given.
    pub fn initial(&self, loc: Loc) -> Option<Scalar>
        ensures { result ≡ openings.given loc self.now.initials }
    {
        self.firsts.get(loc)
    }

    /// Whether an object of so many blocks of so many bytes may be asked for, whose elements have the shape of this
    /// number: it has at least one byte, in whole elements (UPC 7.2.2).
    pub fn may_alloc(&self, nblocks: u64, nbytes: u64, shape: u64) -> bool
        ensures { result ≡ formed.may_alloc self.now nblocks nbytes shape }
    {
        nblocks != 0 && nbytes != 0 && self.is_whole(nbytes, shape)
    }

    // Whether so many bytes are whole elements of the shape.
    fn is_whole(&self, nbytes: u64, shape: u64) -> bool
        ensures { result ≡ formed.is_whole (slice_get self.now.shapes shape) nbytes }
    {
        match self.shapes.get(shape as usize) {
            Some(element) => nbytes % u64::from(element.size) == 0,
            None => false,
        }
    }

    // The kind of the cell at this byte of elements of the shape, one after another.
    fn kind_at(&self, shape: u32, byte: u32) -> Option<Kind>
        ensures { result ≡ shapes.kind_at (slice_get self.now.shapes shape) byte }
    {
        match self.shapes.get(shape as usize) {
            Some(element) => element.kind_at(byte % element.size),
            None => None,
        }
    }

    // The kind of the cell of an object at a location.
    pub(crate) fn cell_in(&self, object: ObjectRef, loc: Loc) -> Option<Kind>
        requires { (object.total ≤ 16777216) × (object.block ≤ 16777216) × (object.home < self.now.threads) }
        ensures { result ≡ shapes.cell_in self.now.threads self.now.shapes (Some object) loc }
    {
        if loc.thread >= self.threads {
            return None;
        }
        if loc.offset >= piece_bytes(&object, loc.thread, self.threads) {
            return None;
        }
        self.kind_at(object.shape, loc.offset)
    }
}
