//! Copies.

ghost use Rattle.std.specs.Prelude.{◌≡◌, IfOk};

use crate::action::Action;
use crate::listing::Listing;
use crate::scalar::Scalar;
use block_layout::Shape;
use std::alloc::{AllocError as OutOfMemory, Global};
use upc_text::Text;

/// An equal scalar. It takes no memory.
pub fn copy_scalar(v: &Scalar) -> Scalar
    ensures { result ≡ v.now }
{
    *v
}

/// An equal action.
pub fn copy_action(alloc: Global, a: &Action) -> Result<Action, OutOfMemory>
    ensures { IfOk result (λ b. b ≡ a.now) }
{
    Ok(match a {
        Action::Read { loc, strict } => Action::Read {
            loc: *loc,
            strict: *strict,
        },
        Action::Write { loc, value, strict } => Action::Write {
            loc: *loc,
            value: *value,
            strict: *strict,
        },
        Action::Fence => Action::Fence,
        Action::Beat => Action::Beat,
        Action::Notify(mark) => Action::Notify(*mark),
        Action::Wait(mark) => Action::Wait(*mark),
        Action::Lock(lock) => Action::Lock(*lock),
        Action::Attempt(lock) => Action::Attempt(*lock),
        Action::Unlock(lock) => Action::Unlock(*lock),
        Action::LockMake => Action::LockMake,
        Action::LockFree(lock) => Action::LockFree(*lock),
        Action::Alloc {
            nblocks,
            nbytes,
            home,
            shape,
        } => Action::Alloc {
            nblocks: *nblocks,
            nbytes: *nbytes,
            home: *home,
            shape: *shape,
        },
        Action::Free(pointer) => Action::Free(*pointer),
        Action::Meet { call, args } => Action::Meet {
            call: *call,
            args: copy_args(alloc, args)?,
        },
        Action::Print(text) => Action::Print(text.copy(alloc)?),
        Action::Exit(value) => Action::Exit(*value),
    })
}

fn copy_args(alloc: Global, args: &Listing<Scalar>) -> Result<Listing<Scalar>, OutOfMemory>
    ensures { IfOk result (λ b. b ≡ args.now) }
{
    Ok(Listing::from_vec(args.as_slice().to_vec(alloc)?))
}

/// An equal shape.
pub fn copy_shape(alloc: Global, shape: &Shape) -> Result<Shape, OutOfMemory>
    ensures { IfOk result (λ s. s ≡ shape.now) }
{
    Ok(Shape {
        size: shape.size,
        cells: shape.cells.copy(alloc)?,
    })
}

/// Equal shapes.
pub fn copy_shapes(alloc: Global, shapes: &[Shape]) -> Result<Vec<Shape>, OutOfMemory>
    ensures { IfOk result (λ copies. copies.items ≡ shapes.now) }
{
    let mut copies = Vec::new(alloc);
    for shape in shapes {
        copies.push(copy_shape(alloc, shape)?)?;
    }
    Ok(copies)
}
