//! Shapes for tests.

ghost use Rattle.std.specs.Prelude.{◌≡◌, ◌<◌, ◌≤◌, ◌∷◌, [], IfOk};
ghost use Rattle.block_layout.specs.Shapes.{IsShape};

use block_layout::{Cells, Kind, Shape};
use std::alloc::Global;
use upc_text::OutOfMemory;

/// So many cells of one kind, one after another.
#[tactic(auto, using(crate::proofs::Rows::one_more))]
pub(crate) fn row(alloc: Global, kind: Kind, count: u32) -> Result<Shape, OutOfMemory>
    requires some { 0 < count }
    requires few { count ≤ 1048576 }
    ensures { IfOk result (λ s. IsShape s) }
{
    let mut cells = Vec::new(alloc);
    let mut size: u32 = 0;
    for cell in 0..count {
        cells.push((size, kind))?;
        size += kind.size();
    }
    Ok(Shape {
        size,
        cells: Cells::from_vec(cells),
    })
}

/// Two integers of type int, one after another.
pub(crate) fn two_ints(alloc: Global) -> Result<Shape, OutOfMemory>
    ensures { IfOk result (λ s. s ≡ record { size = 8; cells = (0, Kind.Int) ∷ (4, Kind.Int) ∷ [] }) }
{
    let cells = vec![in alloc; (0, Kind::Int), (4, Kind::Int)]?;
    Ok(Shape {
        size: 8,
        cells: Cells::from_vec(cells),
    })
}
