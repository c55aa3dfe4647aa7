//! The cells of objects.

ghost use Rattle.std.specs.Prelude.{◌≡◌, IfOk};
ghost use Rattle.block_layout.specs.Shapes.{IsShape};
ghost use Rattle.upc_types.specs.View.{view};
ghost use Rattle.upc_types.specs.ViewStructs.{view_structs};
ghost use Rattle.source_meaning.specs.Types as pure;

use block_layout::{Cells, Shape};
use std::alloc::Global;
use upc_text::OutOfMemory;
use upc_types::{CType, Structs, object_shape};

/// The cells of an object.
pub fn shape_of(alloc: Global, structs: &Structs, t: &CType) -> Result<Shape, OutOfMemory>
    ensures value { IfOk result (λ s. s ≡ pure.shape_of (view_structs structs.now) (view t.now)) }
    ensures shape { IfOk result IsShape }
{
    match structs.layout_of(&t.base) {
        Some(_) => object_shape(alloc, t, structs),
        None => Ok(Shape {
            size: 1,
            cells: Cells::from_vec(Vec::new(alloc)),
        }),
    }
}
