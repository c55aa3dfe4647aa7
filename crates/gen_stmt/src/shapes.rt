//! The cells of the objects of a block.

ghost use Rattle.std.specs.Prelude.{◌≡◌, ◌+◌, ◌++◌, ◌∷◌, [], map, length, IfOk, OnOk};
ghost use Rattle.upc_types.specs.View.{view};
ghost use Rattle.upc_types.specs.ViewStructs.{view_structs};
ghost use Rattle.typed_tree.specs.Tree.{NoItems};
ghost use Rattle.typed_tree.specs.ViewStatements.{view_item, view_items, view_object};
ghost use Rattle.source_meaning.specs.Types as pure;
ghost use Rattle.source_meaning.specs.Statements.{shapes_of, objects_in};
ghost use Rattle.gen_expr.specs.layer.Sources.{running_of};
ghost use Rattle.gen_expr.specs.layer.ViewSource.{view_source};

use crate::exits::sum;
use block_layout::Shape;
use gen_expr::Source;
use meaning_types::shape_of;
use std::alloc::Global;
use typed_tree::{Item, Object};
use upc_text::OutOfMemory;
use upc_types::{CType, Structs};

fn push_shape(
    shapes: &mut Vec<Shape>,
    alloc: Global,
    structs: &Structs,
    t: &CType,
) -> Result<(), OutOfMemory>
    ensures { OnOk result (shapes.new.items
        ≡ shapes.old.items ++ (pure.shape_of (view_structs structs.now) (view t.now) ∷ [])) }
{
    let shape = shape_of(alloc, structs, t)?;
    shapes.push(shape)?;
    Ok(())
}

/// Adds the cells of objects of these types.
pub(crate) fn push_type_shapes(
    shapes: &mut Vec<Shape>,
    alloc: Global,
    structs: &Structs,
    types: &[CType],
) -> Result<(), OutOfMemory>
    ensures { OnOk result (shapes.new.items
        ≡ shapes.old.items ++ map (pure.shape_of (view_structs structs.now)) (map view types.now)) }
{
    for t in types {
        push_shape(shapes, alloc, structs, t)?;
    }
    Ok(())
}

/// Adds the cells of some objects.
pub(crate) fn push_shapes(
    shapes: &mut Vec<Shape>,
    alloc: Global,
    source: Source<'_>,
    objects: &[Object],
) -> Result<(), OutOfMemory>
    ensures { OnOk result (shapes.new.items
        ≡ shapes.old.items ++ shapes_of (running_of (view_source source.entry)) (map view_object objects.now)) }
{
    for object in objects {
        push_shape(shapes, alloc, source.structs, &object.ctype)?;
    }
    Ok(())
}

/// Adds the cells of the objects that a block itself declares.
pub(crate) fn push_block_shapes(
    shapes: &mut Vec<Shape>,
    alloc: Global,
    source: Source<'_>,
    items: &[Item],
) -> Result<(), OutOfMemory>
    ensures { OnOk result (shapes.new.items
        ≡ shapes.old.items
        ++ shapes_of (running_of (view_source source.entry)) (objects_in (view_items items.now))) }
{
    for item in items {
        push_item_shapes(shapes, alloc, source, item)?;
    }
    Ok(())
}

fn push_item_shapes(
    shapes: &mut Vec<Shape>,
    alloc: Global,
    source: Source<'_>,
    item: &Item,
) -> Result<(), OutOfMemory>
    ensures { OnOk result (shapes.new.items
        ≡ shapes.old.items
        ++ shapes_of (running_of (view_source source.entry)) (objects_in (view_item item.now NoItems))) }
{
    match item {
        Item::Declare(objects) => push_shapes(shapes, alloc, source, objects.as_slice()),
        Item::Do(_) => Ok(()),
    }
}

/// How many objects a part of a block declares.
pub(crate) fn count_in(item: &Item) -> usize
    ensures { result ≡ length (objects_in (view_item item.now NoItems)) }
{
    match item {
        Item::Declare(objects) => objects.len(),
        Item::Do(_) => 0,
    }
}

/// How many objects are in scope after the parts of a block, if so many are before it.
pub(crate) fn count_all(count: usize, items: &[Item]) -> Result<usize, OutOfMemory>
    ensures { IfOk result (λ n. n ≡ count + length (objects_in (view_items items.now))) }
{
    let mut all = count;
    for item in items {
        all = sum(all, count_in(item))?;
    }
    Ok(all)
}
