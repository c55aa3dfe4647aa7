//! The cells of objects (C99 6.2.5, 6.5.2.1, 6.7.2.1; UPC 6.5.1).

ghost use Rattle.std.specs.Prelude.{◌≡◌, ◌+◌, ◌≤◌, ◌++◌, ◌∷◌, [], true, false, ℕ, List, IfOk, IfSome, OnOk};
ghost use Rattle.std.specs.Prelude.{get_or};
ghost use Rattle.block_layout.specs.declared.kind.Kind.{Kind};
ghost use Rattle.block_layout.specs.Cells.{moved};
ghost use Rattle.block_layout.specs.Shapes.{IsShape};
ghost use Rattle.upc_types.specs.Cells as pure;
ghost use Rattle.upc_types.specs.code.KeptCells.{AreKept};
ghost use Rattle.upc_types.specs.Layout.{base_layout, base_complete, layout_in, complete_in, is_complete, size};
ghost use Rattle.upc_types.specs.Layout.{most_bytes};
ghost use Rattle.upc_types.specs.View.{view, view_base};
ghost use Rattle.upc_types.specs.ViewStructs.{view_structs};

use crate::ctype::{Base, CType};
use crate::layout::aligned;
use crate::structs::Structs;
use block_layout::{Cells, Kind, Shape};
use std::alloc::Global;
use std::collections::BTreeMap;
use upc_text::OutOfMemory;

/// The shape of one leaf element of an object of this type: of an array of arrays, the innermost element; else the
/// object itself.
pub fn shape_of(alloc: Global, t: &CType, structs: &Structs) -> Result<Shape, OutOfMemory>
    requires complete { is_complete (view_structs structs.now) (view t.now) ≡ true }
    requires few { size (view_structs structs.now) (view t.now) ≤ most_bytes }
    ensures value { IfOk result (λ s. s ≡ pure.leaf_shape (view_structs structs.now) (view_base t.now.base)) }
    ensures shape { IfOk result IsShape }
{
    let leaf = leaf_of(&t.base);
    let size = structs.whole_layout(leaf).size;
    let cells = structs.leaf_cells(alloc, leaf)?;
    Ok(Shape { size, cells })
}

/// The shape of a whole object of this type.
pub fn object_shape(alloc: Global, t: &CType, structs: &Structs) -> Result<Shape, OutOfMemory>
    requires complete { is_complete (view_structs structs.now) (view t.now) ≡ true }
    requires few { size (view_structs structs.now) (view t.now) ≤ most_bytes }
    ensures value { IfOk result (λ s. s ≡ pure.object_shape (view_structs structs.now) (view_base t.now.base)) }
    ensures shape { IfOk result IsShape }
{
    let size = structs.whole_layout(&t.base).size;
    let part = structs.leaf_cells(alloc, leaf_of(&t.base))?;
    let mut cells = Cells::new(alloc);
    structs.push_leaves(&mut cells, 0, &t.base, &part)?;
    Ok(Shape { size, cells })
}

/// The cells of a struct, kept for those that hold it.
#[derive(Drop)]
pub struct KeptCells {
    pub number: u32,
    pub cells: Cells,
}

// So many structs may lie in one another until the cells of one are kept: so no call goes deeper, while a source may
// declare 65,535 structs that each hold the one before.
const LEVELS: u32 = 4_096;

impl Structs {
    /// Puts the cells of every complete struct whose number is marked together once, in the order of completion, so
    /// that shapes are found quickly until another struct is completed or another target is noted. A number past the
    /// end of the list is not marked. Where one is marked, those that lie in it should be: cells that are not held are
    /// put together anew wherever they are wanted, by calls as deep as these structs lie in one another.
    pub fn hold_cells(&mut self, alloc: Global, wanted: &[bool]) -> Result<(), OutOfMemory>
        ensures { view_structs self.new ≡ view_structs self.old }
    {
        let mut latest = BTreeMap::new(alloc);
        for place in 0..self.completed().len() {
            self.hold_at(alloc, wanted, &mut latest, place)?;
        }
        Ok(())
    }

    // Holds the cells of a struct by its place in the order of completion, where its number is marked.
    fn hold_at(
        &mut self,
        alloc: Global,
        wanted: &[bool],
        latest: &mut BTreeMap<u64, u32>,
        place: usize,
    ) -> Result<(), OutOfMemory>
        ensures { view_structs self.new ≡ view_structs self.old }
    {
        let Some(completed) = self.completed().get(place) else {
            return Ok(());
        };
        let number = completed.number;
        if is_marked(wanted, number)
            && self.is_complete(&Base::Struct(number))
            && self.held(number).is_none()
        {
            self.hold_next(alloc, latest, number)?;
        }
        Ok(())
    }

    // Holds the cells of a struct. Where the latest one of its code is made alike, they have them together.
    fn hold_next(
        &mut self,
        alloc: Global,
        latest: &mut BTreeMap<u64, u32>,
        number: u32,
    ) -> Result<(), OutOfMemory>
        requires { complete_in (view_structs self.old).completed number ≡ true }
        ensures { view_structs self.new ≡ view_structs self.old }
    {
        let code = self.members_code(number);
        if let Some(other) = latest.get(&code).copied()
            && self.is_complete(&Base::Struct(other))
            && self.are_alike(number, other)
        {
            return self.hold_like(number, other);
        }
        let cells = self.struct_cells(alloc, &[], number)?;
        self.hold(number, cells)?;
        latest.insert(code, number)?;
        Ok(())
    }

    // Whether the cells of this object are those of a struct and held.
    fn holds(&self, leaf: &Base) -> bool {
        match leaf {
            Base::Struct(number) => self.held(*number).is_some(),
            _ => false,
        }
    }

    // The cells of an object that is no array.
    pub fn leaf_cells(&self, alloc: Global, leaf: &Base) -> Result<Cells, OutOfMemory>
        requires complete { base_complete (complete_in (view_structs self.now).completed) (view_base leaf.now) ≡ true }
        ensures { IfOk result (λ cells. cells
            ≡ pure.leaf_cells (view_structs self.now).targets
            (pure.struct_cells (view_structs self.now).targets (view_structs self.now).completed)
            (view_base leaf.now)) }
    {
        let kept = self.kept_cells(alloc, leaf)?;
        self.leaf_cells_by(alloc, kept.as_slice(), leaf)
    }

    // The cells of structs inside an object, of one in so many levels, where its own are not held.
    fn kept_cells(&self, alloc: Global, leaf: &Base) -> Result<Vec<KeptCells>, OutOfMemory>
        ensures { IfOk result (λ kept. AreKept (pure.struct_cells (view_structs self.now).targets
            (view_structs self.now).completed) kept.items) }
    {
        let mut kept = Vec::new(alloc);
        if self.depth_of(leaf) <= LEVELS || self.holds(leaf) {
            return Ok(kept);
        }
        let inside = self.structs_inside(alloc, leaf)?;
        for place in 0..inside.len() {
            if inside[place] {
                self.keep_cells(alloc, &mut kept, place)?;
            }
        }
        Ok(kept)
    }

    // Keeps the cells of a struct by its place in the order of completion, where it stands on such a level.
    fn keep_cells(
        &self,
        alloc: Global,
        kept: &mut Vec<KeptCells>,
        place: usize,
    ) -> Result<(), OutOfMemory>
        requires kept { AreKept (pure.struct_cells (view_structs self.now).targets
            (view_structs self.now).completed) kept.old.items }
        ensures { OnOk result (AreKept (pure.struct_cells (view_structs self.now).targets
            (view_structs self.now).completed) kept.new.items) }
    {
        let Some(completed) = self.completed().get(place) else {
            return Ok(());
        };
        let number = completed.number;
        if completed.depth % LEVELS == LEVELS - 1 && self.is_complete(&Base::Struct(number)) {
            let cells = self.struct_cells(alloc, kept.as_slice(), number)?;
            kept.push(KeptCells { number, cells })?;
        }
        Ok(())
    }

    // The cells of a struct, where they are held or kept.
    fn found<'a>(&'a self, kept: &'a [KeptCells], number: u32) -> Option<&'a Cells>
        requires kept { AreKept (pure.struct_cells (view_structs self.now).targets
            (view_structs self.now).completed) kept.now }
        ensures { IfSome result (λ cells. cells.now ≡ pure.struct_cells (view_structs self.now).targets
            (view_structs self.now).completed number) }
    {
        match self.held(number) {
            Some(cells) => Some(cells),
            None => kept_among(kept, number),
        }
    }

    // The cells of an object that is no array, where these are kept.
    #[cycle(cells)]
    fn leaf_cells_by(
        &self,
        alloc: Global,
        kept: &[KeptCells],
        leaf: &Base,
    ) -> Result<Cells, OutOfMemory>
        requires complete { base_complete (complete_in (view_structs self.now).completed) (view_base leaf.now) ≡ true }
        requires kept { AreKept (pure.struct_cells (view_structs self.now).targets
            (view_structs self.now).completed) kept.now }
        ensures { IfOk result (λ cells. cells
            ≡ pure.leaf_cells (view_structs self.now).targets
            (pure.struct_cells (view_structs self.now).targets (view_structs self.now).completed)
            (view_base leaf.now)) }
    {
        match leaf {
            Base::Integer(kind) => one_cell(alloc, *kind),
            Base::Pointer(target) => one_cell(alloc, self.pointer_kind(target)),
            Base::Struct(number) => match self.found(kept, *number) {
                Some(cells) => Ok(cells.copy(alloc)?),
                None => self.struct_cells(alloc, kept, *number),
            },
            Base::Void | Base::Array(_, _) | Base::LockObject => Ok(Cells::new(alloc)),
        }
    }

    // The cells of a complete struct, where these are kept.
    #[cycle(cells)]
    fn struct_cells(
        &self,
        alloc: Global,
        kept: &[KeptCells],
        number: u32,
    ) -> Result<Cells, OutOfMemory>
        requires complete { complete_in (view_structs self.now).completed number ≡ true }
        requires kept { AreKept (pure.struct_cells (view_structs self.now).targets
            (view_structs self.now).completed) kept.now }
        ensures { IfOk result (λ cells. cells
            ≡ pure.struct_cells (view_structs self.now).targets
            (view_structs self.now).completed number) }
    {
        let members = self.members(number);
        let mut cells = Cells::new(alloc);
        let mut end = 0;
        for member in members {
            let base = &member.ctype.base;
            let layout = self.whole_layout(base);
            let part = self.leaf_cells_by(alloc, kept, leaf_of(base))?;
            let start = aligned(end, layout.align);
            self.push_leaves(&mut cells, start, base, &part)?;
            end = start + layout.size;
        }
        Ok(cells)
    }

    // Adds the cells of an object that begins there, where these are the cells of a leaf element.
    fn push_leaves(
        &self,
        cells: &mut Cells,
        start: u32,
        base: &Base,
        part: &Cells,
    ) -> Result<(), OutOfMemory>
        requires complete { base_complete (complete_in (view_structs self.now).completed) (view_base base.now) ≡ true }
        requires near { start + (base_layout (layout_in (view_structs self.now).completed)
            (view_base base.now)).size ≤ most_bytes }
        requires leaf { part.now
            ≡ pure.leaf_cells (view_structs self.now).targets
            (pure.struct_cells (view_structs self.now).targets (view_structs self.now).completed)
            (pure.leaf_base (view_base base.now)) }
        ensures { OnOk result (cells.new ≡ cells.old
            ++ moved start (pure.object_cells (view_structs self.now).targets
            (layout_in (view_structs self.now).completed)
            (pure.struct_cells (view_structs self.now).targets
            (view_structs self.now).completed) (view_base base.now))) }
    {
        let size = self.whole_layout(leaf_of(base)).size;
        let count = self.whole_layout(base).size / size;
        cells.push_copies(start, count, size, part)?;
        Ok(())
    }
}

// The cells of a struct, where they are kept.
fn kept_among(kept: &[KeptCells], number: u32) -> Option<&Cells>
    ensures { (f : ℕ → List (ℕ × Kind)) → AreKept f kept.now → IfSome result (λ cells. cells.now ≡ f number) }
{
    for x in kept {
        if x.number == number {
            return Some(&x.cells);
        }
    }
    None
}

/// Whether a struct is marked by its number.
pub fn is_marked(marks: &[bool], number: u32) -> bool
    ensures { result ≡ get_or marks.now number false }
{
    match marks.get(number as usize) {
        Some(marked) => *marked,
        None => false,
    }
}

// One cell, at the beginning.
fn one_cell(alloc: Global, kind: Kind) -> Result<Cells, OutOfMemory>
    ensures { IfOk result (λ cells. cells ≡ (0, kind) ∷ []) }
{
    let mut cells = Cells::new(alloc);
    cells.push(0, kind)?;
    Ok(cells)
}

/// The type of the leaf elements of an object.
pub fn leaf_of(base: &Base) -> &Base
    ensures { view_base result.now ≡ pure.leaf_base (view_base base.now) }
{
    let mut leaf = base;
    while let Base::Array(element, _) = leaf {
        leaf = &element.base;
    }
    leaf
}
