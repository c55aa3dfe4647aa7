//! The live objects, with one list of the values of all.

ghost use Rattle.std.specs.Prelude.{◌≡◌, ◌+◌, ◌<◌, ◌≤◌, ◌∷◌, ◌++◌, ◌==◌, [], true, length, take};
ghost use Rattle.std.specs.Prelude.{slice_index_or, slice_set};
ghost use Rattle.std.specs.Prelude.{OnOk, OnErr};
ghost use Rattle.std.specs.List.{position};
ghost use Rattle.block_layout.specs.Shapes.{IsShape};
ghost use Rattle.upc_values.specs.declared.scalar.Value.{Value};
ghost use Rattle.upc_values.specs.Shapes as shapes;
ghost use Rattle.private_store.specs.Live.{Thing, blank_thing, thing_bytes};
ghost use Rattle.private_store.specs.code.Kept.{AreNumbered, CellIs, IsPlace};

use crate::held::Held;
use crate::object::{Object, bytes_among, fill, form_of};
use crate::row_shapes::Known;
use block_layout::{Kind, Shape};
use std::alloc::Global;
use std::marker::Model;
use upc_text::OutOfMemory;
use upc_values::Value;

/// The live objects, oldest first. Contracts see what each is.
#[derive(Drop)]
pub(crate) struct ObjectList {
    list: Vec<Object>,
    // The values of all, oldest object first.
    held: Vec<Held>,
    // Shapes that objects share, those that lived too.
    known: Vec<Known>,
}

impl Model for ObjectList {
    ghost use Rattle.std.specs.Prelude.{List};
    ghost use Rattle.private_store.specs.Live.{Thing};
    ghost use Rattle.private_store.specs.code.Held.{held_values};
    ghost use Rattle.private_store.specs.code.Laid.{AreLaid, things_of};

    ghost Value = { List Thing };

    ghost view = { λ o. things_of (held_values o.held.items) o.list.items };

    ghost invariant = { λ o. AreLaid o.list.items (held_values o.held.items) o.known.items };
}

impl ObjectList {
    /// No object.
    pub(crate) fn new(alloc: Global) -> ObjectList
        ensures { result ≡ [] }
    {
        ObjectList {
            list: Vec::new(alloc),
            held: Vec::new(alloc),
            known: Vec::new(alloc),
        }
    }

    /// How many they are.
    #[inline(always)]
    pub(crate) fn len(&self) -> usize
        ensures { result ≡ length self.now }
    {
        self.list.len()
    }

    /// The number of the object at a place.
    #[inline(always)]
    pub(crate) fn number(&self, at: usize) -> u64
        requires { at < length self.now }
        ensures { (d : Thing) → result ≡ (slice_index_or self.now at d).number }
    {
        self.list[at].number
    }

    /// The shape of the object at a place.
    pub(crate) fn shape(&self, at: usize) -> &Shape
        requires { at < length self.now }
        ensures value { (d : Thing) → result.now ≡ (slice_index_or self.now at d).shape }
        ensures valid { IsShape result.now }
    {
        self.list[at].shape(self.known.as_slice())
    }

    /// The place of the object with a number, where numbers rise.
    pub(crate) fn search(&self, number: u64) -> Option<usize>
        requires { AreNumbered self.now }
        ensures { result ≡ position (λ x. x.number == number) self.now }
    {
        self.list
            .binary_search_by_key(&number, |object| object.number)
            .ok()
    }

    /// The place of the cell of an object that an access reaches, or the code of the run error.
    #[inline(always)]
    pub(crate) fn place(&self, at: usize, offset: i64, kind: Kind) -> Result<usize, u8>
        requires { at < length self.now }
        ensures { (d : Thing) → IsPlace (slice_index_or self.now at d) offset kind result }
    {
        self.list[at].place(offset, kind)
    }

    /// What a cell of an object holds.
    #[inline(always)]
    pub(crate) fn get(&self, at: usize, place: usize, kind: Kind) -> Value
        requires there { at < length self.now }
        requires cell { (d : Thing) → CellIs (slice_index_or self.now at d).shape.cells place kind }
        ensures value { (d : Thing) (e : Value)
            → result ≡ slice_index_or (slice_index_or self.now at d).values place e }
        ensures fits { shapes.value_fits result kind ≡ true }
    {
        self.held[self.list[at].first + place].value()
    }

    /// Another value in a cell of an object. It takes no memory.
    #[inline(always)]
    pub(crate) fn set(&mut self, at: usize, place: usize, kind: Kind, v: Value)
        requires there { at < length self.old }
        requires cell { (d : Thing) → CellIs (slice_index_or self.old at d).shape.cells place kind }
        requires fits { shapes.value_fits v kind ≡ true }
        ensures { (d : Thing) → let x = slice_index_or self.old at d in
            self.new ≡ slice_set self.old at (record x { values = slice_set x.values place v }) }
    {
        let spot = self.list[at].first + place;
        self.held[spot].put(v);
    }

    /// A new object, with 0 or null in each cell. After want of memory all is as it was.
    pub(crate) fn push(
        &mut self,
        alloc: Global,
        number: u64,
        shape: &Shape,
    ) -> Result<(), OutOfMemory>
        requires { IsShape shape.now }
        ensures ok { OnOk result (self.new ≡ self.old ++ blank_thing number shape.now ∷ []) }
        ensures err { OnErr result (self.new ≡ self.old) }
    {
        let first = self.held.len();
        let size = shape.size;
        let form = form_of(alloc, &mut self.known, shape)?;
        let count = fill(&mut self.held, &form, shape)?;
        self.list.push(Object {
            number,
            first,
            count,
            size,
            form,
        })?;
        Ok(())
    }

    /// Ends all objects but the first `kept`.
    pub(crate) fn truncate(&mut self, kept: usize)
        ensures { self.new ≡ take kept self.old }
    {
        if kept < self.list.len() {
            let first = self.list[kept].first;
            self.list.truncate(kept);
            self.held.truncate(first);
        }
    }

    /// How many bytes all objects but the first `kept` have.
    pub(crate) fn bytes_behind(&self, kept: usize) -> usize
        requires { thing_bytes self.now ≤ 1048576 }
        ensures { thing_bytes (take kept self.now) + result ≡ thing_bytes self.now }
    {
        if kept >= self.list.len() {
            return 0;
        }
        bytes_among(&self.list[kept..])
    }
}
