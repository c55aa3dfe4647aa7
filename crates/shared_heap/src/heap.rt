//! The shared heap.

ghost use Rattle.std.specs.Prelude.{◌≡◌, ◌<◌, ◌≤◌, ◌==◌, true, is_some, Some, IfOk, OnOk, OnErr, IfSome, slice_get};
ghost use Rattle.std.specs.List.{find, list_any};
ghost use Rattle.block_layout.specs.Pointers as pointers;
ghost use Rattle.upc_values.specs.Openings as openings;
ghost use Rattle.upc_values.specs.Openings.{IsOpening, bytes_of};
ghost use Rattle.upc_values.specs.Formed.{may_alloc, is_home};
ghost use Rattle.shared_heap.specs.layer.Heap as said;
ghost use Rattle.shared_heap.specs.layer.Heap.{all_objects, IsSaved, IsHeap};

use crate::beginning::Beginning;
use crate::cells::SavedCells;
use block_layout::is_in_range;
use std::alloc::Global;
use std::marker::Model;
use upc_text::OutOfMemory;
use upc_values::{Kind, Loc, ObjectRef, Scalar, Shape, SharedPtr, blank};

/// The shared objects of a run and the values of their cells. Contracts see what the run began with, the objects made
/// since, which of them were released, and what was last saved at each location.
#[derive(Drop)]
pub struct Heap {
    pub(crate) beginning: Beginning,
    pub(crate) made: Vec<ObjectRef>,
    pub(crate) released: Vec<bool>,
    cells: SavedCells,
    pub(crate) bytes: u32,
}

impl Model for Heap {
    ghost use Rattle.shared_heap.specs.layer.Heap.{HeapState};
    ghost use Rattle.shared_heap.specs.code.Kept.{IsKept};

    ghost Value = { HeapState };

    ghost view = { λ h. record {
      opening = h.beginning;
      made = h.made.items;
      released = h.released.items;
      cells = h.cells;
    } };

    ghost invariant = { λ h. IsKept
        record {
          opening = h.beginning;
          made = h.made.items;
          released = h.released.items;
          cells = h.cells;
        }
        h.bytes };
}

fn same_object(a: &ObjectRef, b: &ObjectRef) -> bool
    ensures { result ≡ pointers.same_object a.now b.now }
{
    *a == *b
}

// The bytes of all these objects.
fn count_bytes(objects: &[ObjectRef]) -> u32
    requires { bytes_of objects.now ≤ 16777216 }
    ensures { result ≡ bytes_of objects.now }
{
    let mut bytes = 0;
    for object in objects {
        bytes += object.total;
    }
    bytes
}

impl Heap {
    /// A heap with these declared objects, initial values and shapes, for this many threads. No object is made, and
    /// nothing is saved.
    pub fn make(
        alloc: Global,
        declared: &[ObjectRef],
        initials: &[(Loc, Scalar)],
        shapes: &[Shape],
        threads: u32,
    ) -> Result<Heap, OutOfMemory>
        requires { IsOpening record {
          threads = threads;
          declared = declared.now;
          initials = initials.now;
          shapes = shapes.now;
        } }
        ensures { IfOk result (λ h. h ≡ said.begun record {
          threads = threads;
          declared = declared.now;
          initials = initials.now;
          shapes = shapes.now;
        }) }
    {
        Ok(Heap {
            beginning: Beginning::make(alloc, declared, initials, shapes, threads)?,
            made: Vec::new(alloc),
            released: Vec::new(alloc),
            cells: SavedCells::new(alloc),
            bytes: count_bytes(declared),
        })
    }

    /// What the run began with.
    pub fn beginning(&self) -> &Beginning
        ensures { result.now ≡ self.now.opening }
    {
        &self.beginning
    }

    /// A law: the opening is valid, the objects made stand as declared ones after those would, and all have at most
    /// 16,777,216 bytes.
    pub fn keeps(&self)
        ensures { IsHeap self.now }
    {
        let _ = &self.bytes;
    }

    // The object at a place among all, from 0.
    pub(crate) fn object_at(&self, place: usize) -> Option<ObjectRef>
        ensures { result ≡ slice_get (all_objects self.now) place }
    {
        let declared = self.beginning.declared();
        if place < declared.len() {
            return Some(declared[place]);
        }
        match self.made.get(place - declared.len()) {
            Some(object) => Some(*object),
            None => None,
        }
    }

    // The object of this number.
    fn object(&self, number: u32) -> Option<ObjectRef>
        ensures found { result ≡ find (λ x. x.number == number) (all_objects self.now) }
        ensures size { IfSome result (λ x.
            (x.total ≤ 16777216) × (x.block ≤ 16777216) × (x.home < self.now.opening.threads)) }
    {
        self.keeps();
        if number == 0 {
            return None;
        }
        self.object_at(number as usize - 1)
    }

    /// The kind of the cell at a location, None where there is none. It takes no memory.
    pub fn cell_of(&self, loc: Loc) -> Option<Kind>
        ensures { result ≡ said.cell_at self.now loc }
    {
        match self.object(loc.object) {
            Some(object) => self.beginning.cell_in(object, loc),
            None => None,
        }
    }

    // Whether one of the objects is this one.
    fn has(&self, object: &ObjectRef) -> bool
        ensures { result ≡ list_any (pointers.same_object object.now) (all_objects self.now) }
    {
        self.keeps();
        if object.number == 0 {
            return false;
        }
        match self.object_at(object.number as usize - 1) {
            Some(found) => same_object(object, &found),
            None => false,
        }
    }

    /// Whether the pointer is null or names one of the objects. It takes no memory.
    pub fn knows(&self, pointer: &SharedPtr) -> bool
        ensures { result ≡ openings.is_named self.now.opening.threads (all_objects self.now) pointer.now }
    {
        pointer.is_null()
            || (self.has(&pointer.object)
                && pointer.thread < self.beginning.threads()
                && is_in_range(i128::from(pointer.offset)))
    }

    // What the cell at a location begins with: its initial value, else 0 or null (C99 6.7.8, UPC 7.2.2).
    fn first(&self, loc: Loc) -> Scalar
        requires { is_some (said.cell_at self.now loc) ≡ true }
        ensures { Some result ≡ openings.initial_of self.now.opening (all_objects self.now) loc }
    {
        match self.beginning.initial(loc) {
            Some(value) => value,
            None => match self.cell_of(loc) {
                Some(kind) => blank(kind),
                None => unreachable!(),
            },
        }
    }

    /// What the cell at a location holds. It takes no memory.
    pub fn load(&self, loc: Loc) -> Scalar
        requires { is_some (said.cell_at self.now loc) ≡ true }
        ensures { Some result ≡ said.content self.now loc }
    {
        match self.cells.get(loc) {
            Some(value) => value,
            None => self.first(loc),
        }
    }

    /// Saves a value at a location. Where there is no memory, the heap stays as it was.
    pub fn save(&mut self, loc: Loc, value: Scalar) -> Result<(), OutOfMemory>
        ensures saved { IfOk result (λ _. IsSaved self.old loc value self.new) }
        ensures kept { OnErr result (self.new ≡ self.old) }
    {
        self.cells.save(loc, value)?;
        Ok(())
    }
}
