//! The objects of a file, and where the shared ones lie.

ghost use Rattle.std.specs.Prelude.{◌≡◌, ◌+◌, ◌++◌, ◌<◌, ◌≤◌, true, length, List, map, IfOk, OnOk};
ghost use Rattle.block_layout.specs.declared.kind.Shape.{Shape};
ghost use Rattle.upc_values.specs.Lists.{Each};
ghost use Rattle.upc_types.specs.View.{view};
ghost use Rattle.upc_types.specs.ViewStructs.{view_structs};
ghost use Rattle.typing_rules.specs.Constants.{block_or_none};
ghost use Rattle.typing_rules.specs.Rules.{has_size};
ghost use Rattle.typed_tree.specs.Elements as elements;
ghost use Rattle.typed_tree.specs.layer.Parts as parts;
ghost use Rattle.typed_tree.specs.Objects as pure;
ghost use Rattle.typed_tree.specs.ViewStatements.{view_object};

use crate::elements::{element_shape, number_types};
use crate::known_shapes::KnownShapes;
use block_layout::{ObjectRef, Shape};
use std::alloc::Global;
use typed_tree::{Object, SharedDecl};
use typing_rules::Home;
use upc_text::OutOfMemory;
use upc_types::{CType, Structs, size_of};

pub(crate) fn is_shared(home: Home) -> bool
    ensures { result ≡ pure.is_shared home }
{
    matches!(home, Home::Shared(_))
}

pub(crate) fn is_private(home: Home) -> bool
    ensures { result ≡ parts.is_private home }
{
    matches!(home, Home::Private(_))
}

/// How many private objects there are.
#[tactic(auto, using(crate::proofs::Chosen::private_walk))]
pub(crate) fn count_private(objects: &[Object]) -> u64
    ensures { result ≡ length (pure.private_in (map view_object objects.now)) }
{
    let mut count = 0;
    for object in objects {
        if is_private(object.home) {
            count += 1;
        }
    }
    count
}

/// The next number.
pub(crate) fn next(number: u32) -> Result<u32, OutOfMemory>
    ensures { IfOk result (λ n. n ≡ number + 1) }
{
    number.checked_add(1).ok_or(OutOfMemory)
}

fn block_or_none(block: Option<u32>) -> u32
    ensures { result ≡ block_or_none block }
{
    block.unwrap_or(0)
}

// A shared object with this number, after so many bytes of others, whose elements have this shape and so many bytes.
#[tactic(auto, using(crate::proofs::Chosen::sizes))]
fn placed(
    alloc: Global,
    structs: &Structs,
    shape: u32,
    size: u32,
    number: u32,
    base: u32,
    declared: &Object,
) -> Result<SharedDecl, OutOfMemory>
    requires layout { has_size (view_structs structs.now) (view declared.now.ctype) ≡ true }
    requires some { 0 < size }
    requires size { size ≡ (elements.element_shape (view_structs structs.now) (view declared.now.ctype)).size }
    ensures { IfOk result (λ x. (shapes : List Shape)
        → shape ≡ elements.number_among shapes
        (elements.element_shape (view_structs structs.now) (view declared.now.ctype))
        → x ≡ pure.placed (view_structs structs.now) shapes number base (view_object declared.now)) }
{
    let t = &declared.ctype;
    let total = size_of(t, structs);
    let block = block_or_none(t.shared);
    let bytes = u64::from(block) * u64::from(size);
    let name = declared.name.copy(alloc)?;
    Ok(SharedDecl {
        name,
        object: ObjectRef {
            number,
            total,
            block: bytes.min(u64::from(total)) as u32,
            home: 0,
            shape,
            base,
        },
        block,
        elements: total / size,
        size,
    })
}

// The same, where the shape of its elements gets a number if it has none.
fn placed_next(
    alloc: Global,
    structs: &Structs,
    shapes: &mut KnownShapes,
    number: u32,
    base: u32,
    declared: &Object,
) -> Result<SharedDecl, OutOfMemory>
    requires layout { has_size (view_structs structs.now) (view declared.now.ctype) ≡ true }
    ensures shapes { OnOk result (shapes.new.list.items ≡ elements.with_shape shapes.old.list.items
        (elements.element_shape (view_structs structs.now) (view declared.now.ctype))) }
    ensures object { IfOk result (λ x. (more : List Shape)
        → x ≡ pure.placed (view_structs structs.now) (parts.with_shapes shapes.new.list.items more) number base
        (view_object declared.now)) }
{
    let element = element_shape(alloc, &declared.ctype, structs)?;
    let size = element.size;
    let shape = shapes.number(element)?;
    let one = placed(alloc, structs, shape, size, number, base, declared)?;
    Ok(one)
}

// The shared objects among these, one after the other, and the shapes of their elements by number.
#[tactic(auto, using(crate::proofs::Chosen::shared_objects))]
fn placed_objects(
    alloc: Global,
    structs: &Structs,
    shapes: &mut KnownShapes,
    objects: &[Object],
) -> Result<Vec<SharedDecl>, OutOfMemory>
    requires layouts { Each (λ x. has_size (view_structs structs.now) x.ctype ≡ true) (map view_object objects.now) }
    requires bytes { pure.bytes_in (view_structs structs.now)
        (pure.shared_in (map view_object objects.now)) ≤ 16777216 }
    ensures shapes { OnOk result (shapes.new.list.items ≡ parts.with_shapes shapes.old.list.items
        (map (elements.element_shape (view_structs structs.now))
        (map pure.type_of (pure.shared_in (map view_object objects.now))))) }
    ensures objects { IfOk result (λ xs. (more : List Shape) → xs.items
        ≡ pure.placed_from (view_structs structs.now) (parts.with_shapes shapes.new.list.items more) 1 0
        (pure.shared_in (map view_object objects.now))) }
{
    let mut shared = Vec::new(alloc);
    let mut number: u32 = 1;
    let mut base = 0;
    for object in objects {
        if is_shared(object.home) {
            shared.push(placed_next(alloc, structs, shapes, number, base, object)?)?;
            number = next(number)?;
            base += size_of(&object.ctype, structs);
        }
    }
    Ok(shared)
}

/// The shared objects of a file, and the shapes of their elements and of other types by number.
#[derive(Drop)]
pub(crate) struct SharedPart {
    pub(crate) shapes: Vec<Shape>,
    pub(crate) objects: Vec<SharedDecl>,
}

/// The shared objects among these, one after the other, with the shapes of their elements and of objects of these
/// types.
pub(crate) fn shared_part(
    alloc: Global,
    structs: &Structs,
    objects: &[Object],
    types: &[CType],
) -> Result<SharedPart, OutOfMemory>
    requires layouts { Each (λ x. has_size (view_structs structs.now) x.ctype ≡ true) (map view_object objects.now) }
    requires types { Each (λ t. has_size (view_structs structs.now) t ≡ true) (map view types.now) }
    requires bytes { pure.bytes_in (view_structs structs.now)
        (pure.shared_in (map view_object objects.now)) ≤ 16777216 }
    ensures shapes { IfOk result (λ x. x.shapes.items ≡ elements.element_shapes (view_structs structs.now)
        (map pure.type_of (pure.shared_in (map view_object objects.now)) ++ map view types.now)) }
    ensures objects { IfOk result (λ x. x.objects.items
        ≡ pure.placed_from (view_structs structs.now) x.shapes.items 1 0
        (pure.shared_in (map view_object objects.now))) }
{
    let mut shapes = KnownShapes::new(alloc);
    let objects = placed_objects(alloc, structs, &mut shapes, objects)?;
    number_types(alloc, structs, &mut shapes, types)?;
    let KnownShapes { list, .. } = shapes;
    Ok(SharedPart {
        shapes: list,
        objects,
    })
}
