//! The elements of shared objects, and their shapes by number.

ghost use Rattle.std.specs.Prelude.{◌≡◌, ◌≤◌, true, length, map, IfOk, IfSome, OnOk};
ghost use Rattle.block_layout.specs.Shapes.{IsShape};
ghost use Rattle.upc_values.specs.Lists.{Each};
ghost use Rattle.upc_values.specs.Openings.{IsSharable};
ghost use Rattle.upc_types.specs.View.{view};
ghost use Rattle.upc_types.specs.ViewStructs.{view_structs};
ghost use Rattle.typed_tree.specs.Elements as pure;
ghost use Rattle.typed_tree.specs.layer.Parts as parts;
ghost use Rattle.typed_tree_opening.specs.code.Apart.{struct_shape, AreNumbered};
ghost use Rattle.typing_rules.specs.Rules.{has_size};

use crate::known_shapes::KnownShapes;
use crate::targets::mark_done;
use block_layout::Shape;
use std::alloc::Global;
use upc_text::OutOfMemory;
use upc_types::{Base, CType, Structs, is_marked, leaf_of, shape_of};

/// The shape of one leaf element of a shared object of this type.
pub fn element_shape(alloc: Global, t: &CType, structs: &Structs) -> Result<Shape, OutOfMemory>
    requires layout { has_size (view_structs structs.now) (view t.now) ≡ true }
    ensures value { IfOk result (λ s. s ≡ pure.element_shape (view_structs structs.now) (view t.now)) }
    ensures shape { IfOk result IsShape }
    ensures sharable { IfOk result IsSharable }
{
    let leaf = shape_of(alloc, t, structs)?;
    let cells = leaf.cells.sharable(alloc)?;
    Ok(Shape {
        size: leaf.size,
        cells,
    })
}

pub(crate) fn same_shape(a: &Shape, b: &Shape) -> bool
    ensures { result ≡ parts.same_shape a.now b.now }
{
    a.size == b.size && a.cells.same(&b.cells)
}

/// The place of the first shape that is equal, and where none is, their count.
pub fn number_among(shapes: &[Shape], shape: &Shape) -> u32
    requires { length shapes.now ≤ 4294967295 }
    ensures value { result ≡ pure.number_among shapes.now shape.now }
    ensures most { result ≤ length shapes.now }
{
    let mut number = 0;
    for known in shapes {
        if same_shape(known, shape) {
            return number;
        }
        number += 1;
    }
    number
}

// The struct that stands for the leaf elements of an object of this type, None where these are no structs: one for all
// structs that are made alike.
#[tactic(auto, using(crate::proofs::Seen::shape_like))]
fn leaf_struct(structs: &Structs, t: &CType) -> Option<u32>
    ensures { IfSome result (λ number. pure.element_shape (view_structs structs.now) (view t.now)
        ≡ struct_shape (view_structs structs.now) number) }
{
    match leaf_of(&t.base) {
        Base::Struct(number) => Some(structs.like(*number)),
        _ => None,
    }
}

// Gives the shape of the elements of objects of this type a number. The shapes of the structs that are marked have one.
#[tactic(auto, using(crate::proofs::Seen::has_number))]
fn number_type(
    alloc: Global,
    structs: &Structs,
    shapes: &mut KnownShapes,
    seen: &mut [bool],
    t: &CType,
) -> Result<(), OutOfMemory>
    requires layout { has_size (view_structs structs.now) (view t.now) ≡ true }
    requires seen { AreNumbered (view_structs structs.now) shapes.old.list.items seen.old }
    ensures shapes { OnOk result (shapes.new.list.items ≡ pure.with_shape shapes.old.list.items
        (pure.element_shape (view_structs structs.now) (view t.now))) }
    ensures seen { OnOk result (AreNumbered (view_structs structs.now) shapes.new.list.items seen.new) }
{
    let Some(number) = leaf_struct(structs, t) else {
        shapes.number(element_shape(alloc, t, structs)?)?;
        return Ok(());
    };
    if is_marked(seen, number) {
        return Ok(());
    }
    shapes.number(element_shape(alloc, t, structs)?)?;
    mark_done(seen, number);
    Ok(())
}

/// Gives the shapes of the elements of objects of these types numbers.
#[tactic(auto, using(crate::proofs::Chosen::type_layouts, crate::proofs::Seen::numbered_none))]
pub(crate) fn number_types(
    alloc: Global,
    structs: &Structs,
    shapes: &mut KnownShapes,
    types: &[CType],
) -> Result<(), OutOfMemory>
    requires { Each (λ t. has_size (view_structs structs.now) t ≡ true) (map view types.now) }
    ensures { OnOk result (shapes.new.list.items ≡ parts.with_shapes shapes.old.list.items
        (map (pure.element_shape (view_structs structs.now)) (map view types.now))) }
{
    let mut seen = vec![in alloc; false; structs.declared() as usize]?;
    for t in types {
        number_type(alloc, structs, shapes, &mut seen, t)?;
    }
    Ok(())
}
