//! The cells that initial values are for.

ghost use Rattle.std.specs.Prelude.{◌≡◌};
ghost use Rattle.block_layout.specs.Shapes.{IsShape};
ghost use Rattle.upc_values.specs.Lists.{Each};
ghost use Rattle.private_store.specs.Beginnings.{private_cell};
ghost use Rattle.private_store.specs.code.Kept.{kind_there};

use crate::finding::byte_at;
use block_layout::{Kind, LocalPtr, Shape};

// The kind of the cell of a shape that begins at an offset.
#[tactic(auto, using(crate::proofs::CellKinds::offsets))]
fn kind_at(shape: &Shape, offset: i64) -> Option<Kind>
    requires { IsShape shape.now }
    ensures { result ≡ kind_there offset shape.now.cells }
{
    match byte_at(offset, 1, shape.size) {
        None => None,
        Some(byte) => shape.kind_at(byte),
    }
}

#[tactic(auto, using(crate::proofs::CellKinds::private_kinds))]
fn private_kind(shapes: &[Shape], object: u64, offset: i64) -> Option<Kind>
    requires { Each IsShape shapes.now }
    ensures { result ≡ private_cell shapes.now (LocalPtr.Private object offset) }
{
    let at = object as usize;
    if at >= shapes.len() {
        return None;
    }
    kind_at(&shapes[at], offset)
}

/// The kind of the cell of these objects, numbered from 0, that a pointer names.
pub(crate) fn cell_kind(shapes: &[Shape], p: &LocalPtr) -> Option<Kind>
    requires { Each IsShape shapes.now }
    ensures { result ≡ private_cell shapes.now p.now }
{
    match p {
        LocalPtr::Private { object, offset } => private_kind(shapes, *object, *offset),
        _ => None,
    }
}
