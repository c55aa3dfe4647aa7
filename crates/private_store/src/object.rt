//! One private object.

ghost use Rattle.std.specs.Prelude.{◌≡◌, ◌++◌, ◌<◌, ◌≤◌, List, IfOk, length, map, take, OnOk};
ghost use Rattle.std.specs.List.{AllPairs, sum_by};
ghost use Rattle.block_layout.specs.Shapes.{IsShape};
ghost use Rattle.upc_values.specs.Shapes as shapes;
ghost use Rattle.private_store.specs.Live.{Thing};
ghost use Rattle.private_store.specs.code.Held.{held_values};
ghost use Rattle.private_store.specs.code.Kept.{IsPlace};
ghost use Rattle.private_store.specs.code.Laid.{AreRows, IsForm, IsLent, IsSound, form_shape, row_cells};
ghost use Rattle.private_store.specs.declared.row_shapes.Known.{Known};

use crate::finding::{byte_at, cell_place};
use crate::held::Held;
use crate::row_shapes::{Known, code_in_other_row, known_place, place_in_row, row_kind};
use block_layout::run_error::{CELL_TYPE, PRIVATE_RANGE};
use block_layout::{Kind, Shape};
use std::alloc::Global;
use upc_text::OutOfMemory;
use upc_values::{blank_value, copy_shape};

/// What the cells of an object are.
#[derive(Drop)]
pub(crate) enum Form {
    /// All of one kind, each right behind the one before it, in all bytes of the object. Its shape stands at this place
    /// among those that are known.
    Row(Kind, usize),
    /// Any cells, one by one, with their shape.
    Listed(Shape, Vec<(u32, Kind)>),
}

/// A live object. The values of its cells are so many of all values, from a place on.
#[derive(Drop)]
pub(crate) struct Object {
    pub number: u64,
    pub first: usize,
    pub count: usize,
    pub size: u32,
    pub form: Form,
}

// A form with a copy of the shape.
fn listed(alloc: Global, shape: &Shape) -> Result<Form, OutOfMemory>
    ensures form { IfOk result (λ form. IsForm form shape.now) }
    ensures lent { IfOk result (λ form. (known : List Known) → IsLent form known shape.now) }
{
    let cells = shape.cells.to_vec(alloc)?;
    let copy = copy_shape(alloc, shape)?;
    Ok(Form::Listed(copy, cells))
}

/// What the cells of a shape are.
pub(crate) fn form_of(
    alloc: Global,
    known: &mut Vec<Known>,
    shape: &Shape,
) -> Result<Form, OutOfMemory>
    requires rows { AreRows known.old.items }
    requires shape { IsShape shape.now }
    ensures form { IfOk result (λ form. IsForm form shape.now) }
    ensures lent { IfOk result (λ form. IsLent form known.new.items shape.now) }
    ensures kept { take (length known.old.items) known.new.items ≡ known.old.items }
    ensures rows { AreRows known.new.items }
{
    match row_kind(shape) {
        None => listed(alloc, shape),
        Some(kind) => match known_place(alloc, known, shape, kind)? {
            None => listed(alloc, shape),
            Some(place) => Ok(Form::Row(kind, place)),
        },
    }
}

// Adds what so many cells of a kind begin with.
#[tactic(auto, using(crate::proofs::RowCells::row_more))]
fn add_row(held: &mut Vec<Held>, kind: Kind, count: usize) -> Result<(), OutOfMemory>
    ensures all { OnOk result (held_values held.new.items
        ≡ held_values held.old.items ++ map (λ c. shapes.blank_value c.1) (row_cells kind 0 count)) }
    ensures kept { take (length held.old.items) (held_values held.new.items) ≡ held_values held.old.items }
{
    for at in 0..count {
        held.push(Held::of(blank_value(kind)))?;
    }
    Ok(())
}

// Adds what these cells begin with.
fn add_blanks(held: &mut Vec<Held>, cells: &[(u32, Kind)]) -> Result<(), OutOfMemory>
    ensures all { OnOk result (held_values held.new.items
        ≡ held_values held.old.items ++ map (λ c. shapes.blank_value c.1) cells.now) }
    ensures kept { take (length held.old.items) (held_values held.new.items) ≡ held_values held.old.items }
{
    for cell in cells {
        held.push(Held::of(blank_value(cell.1)))?;
    }
    Ok(())
}

/// Adds what the cells of a shape begin with, and answers how many they are.
pub(crate) fn fill(held: &mut Vec<Held>, form: &Form, shape: &Shape) -> Result<usize, OutOfMemory>
    requires { IsForm form.now shape.now }
    ensures all { OnOk result (held_values held.new.items
        ≡ held_values held.old.items ++ map (λ c. shapes.blank_value c.1) shape.now.cells) }
    ensures count { IfOk result (λ count. count ≡ length shape.now.cells) }
    ensures kept { take (length held.old.items) (held_values held.new.items) ≡ held_values held.old.items }
{
    match form {
        Form::Row(kind, _) => {
            let width = kind.size();
            let count = (shape.size / width) as usize;
            add_row(held, *kind, count)?;
            Ok(count)
        }
        Form::Listed(_, cells) => {
            add_blanks(held, cells.as_slice())?;
            Ok(cells.len())
        }
    }
}

/// The bytes of some objects.
pub(crate) fn bytes_among(objects: &[Object]) -> usize
    requires { sum_by (λ o. o.size) objects.now ≤ 1048576 }
    ensures { result ≡ sum_by (λ o. o.size) objects.now }
{
    objects.iter().map(|object| object.size as usize).sum()
}

// The place of the cell that an access reaches among these, or the code of the run error.
fn place_among(cells: &[(u32, Kind)], size: u32, offset: i64, kind: Kind) -> Result<usize, u8>
    requires { AllPairs (λ a b. a.0 < b.0) cells.now }
    ensures { (x : Thing) → x.shape.cells ≡ cells.now → size ≡ x.shape.size → IsPlace x offset kind result }
{
    match byte_at(offset, kind.size(), size) {
        None => Err(PRIVATE_RANGE),
        Some(byte) => match cell_place(cells, byte, kind) {
            None => Err(CELL_TYPE),
            Some(place) => Ok(place),
        },
    }
}

impl Object {
    /// The place of the cell that an access reaches, or the code of the run error.
    #[inline(always)]
    pub(crate) fn place(&self, offset: i64, kind: Kind) -> Result<usize, u8>
        requires { IsSound self.now }
        ensures { (x : Thing) → x.shape ≡ form_shape self.now.form self.now.count → IsPlace x offset kind result }
    {
        match &self.form {
            Form::Row(own, _) => {
                if own.is(kind) {
                    place_in_row(kind, self.size, offset)
                } else {
                    Err(code_in_other_row(kind, self.size, offset))
                }
            }
            Form::Listed(_, cells) => place_among(cells.as_slice(), self.size, offset, kind),
        }
    }

    /// Its shape.
    pub(crate) fn shape<'a>(&'a self, known: &'a [Known]) -> &'a Shape
        requires sound { IsShape (form_shape self.now.form self.now.count) }
        requires lent { IsLent self.now.form known.now (form_shape self.now.form self.now.count) }
        ensures value { result.now ≡ form_shape self.now.form self.now.count }
        ensures valid { IsShape result.now }
    {
        match &self.form {
            Form::Row(_, place) => &known[*place].shape,
            Form::Listed(shape, _) => shape,
        }
    }
}
