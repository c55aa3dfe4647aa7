//! Cells of shared objects (UPC 6.5.1.1).

ghost use Rattle.std.specs.Prelude.{◌≡◌, ◌≤◌, ◌&&◌, nat_le, IsTrue, Some, ℕ, List};
ghost use Rattle.block_layout.specs.Shapes.{IsShape};
ghost use Rattle.shared_pointers.specs.layer.Ranges.{IsThreads};
ghost use Rattle.thread_steps.specs.Accesses as pure;
ghost use Rattle.thread_steps.specs.layer.Ranges.{IsHeldScalar, IsShared};
ghost use Rattle.thread_steps.specs.States.{Thread};
ghost use Rattle.upc_values.specs.Formed as formed;
ghost use Rattle.upc_values.specs.Lists.{Each};
ghost use Rattle.upc_values.specs.declared.scalar.Scalar.TheVariants as scalar;

use block_layout::run_error::NULL_ACCESS;
use block_layout::{Kind, Loc, ObjectRef, Shape, SharedPtr, is_in_range, limits};
use upc_values::{Scalar, fits_kind};

/// The pointer-to-shared to the place of a pointer-to-local (UPC 6.4.3).
pub fn into_shared(object: ObjectRef, thread: u32, offset: i64) -> SharedPtr
    ensures value { result ≡ pure.into_shared object thread offset }
    ensures held { (threads : ℕ) (shapes : List Shape)
        → IsShared threads shapes object thread offset
        → IsHeldScalar threads shapes (scalar.Shared result) }
{
    SharedPtr {
        object,
        thread,
        phase: 0,
        offset,
    }
}

/// The location of the cell of a kind at a pointer-to-shared.
///
/// In this order: `NULL_ACCESS` for the null pointer, `OUT_OF_OBJECT` where a byte of the cell lies outside the piece
/// of the pointer's thread, `CELL_TYPE` where no cell of the kind begins there.
pub fn cell(threads: u32, shapes: &[Shape], kind: Kind, p: &SharedPtr) -> Result<Loc, u8>
    requires some_threads { IsThreads threads }
    requires shapes { Each IsShape shapes.now }
    requires pointer { IsHeldScalar threads shapes.now (scalar.Shared p.now) }
    ensures { (τ : Thread) → τ.threads ≡ threads → τ.shapes ≡ shapes.now
        → result ≡ pure.cell τ kind p.now }
{
    if p.is_null() {
        return Err(NULL_ACCESS);
    }
    shared_pointers::cell(p, &shapes[p.object.shape as usize], kind, threads)
}

/// Whether a read of a cell of this kind may give a scalar: it fits the cell, and a pointer-to-shared is null or lies
/// in range.
pub fn is_read(threads: u32, shapes: &[Shape], kind: Kind, v: &Scalar) -> bool
    ensures value { result ≡ formed.is_read threads shapes.now (Some kind) v.now }
    ensures held { IsTrue result → IsHeldScalar threads shapes.now v.now }
{
    match v {
        Scalar::Shared(p) => fits_kind(v, kind) && is_pointer(threads, shapes, p),
        _ => fits_kind(v, kind),
    }
}

// A null pointer, or one in range.
pub(crate) fn is_pointer(threads: u32, shapes: &[Shape], p: &SharedPtr) -> bool
    ensures value { result ≡ formed.is_pointer threads shapes.now p.now }
    ensures held { IsTrue result → IsHeldScalar threads shapes.now (scalar.Shared p.now) }
{
    if p.is_null() {
        return true;
    }
    if p.object.number == 0 || p.object.shape as usize >= shapes.len() {
        return false;
    }
    if p.thread >= threads || p.object.home >= threads {
        return false;
    }
    is_in_range(i128::from(p.offset)) && is_small(&p.object)
}

// Whether an object and its blocks are no larger than objects may be.
fn is_small(object: &ObjectRef) -> bool
    ensures value { result
        ≡ (nat_le object.now.total 16777216 && nat_le object.now.block 16777216) }
    ensures total { IsTrue result → object.now.total ≤ 16777216 }
    ensures block { IsTrue result → object.now.block ≤ 16777216 }
{
    object.total <= limits::SHARED_BYTES && object.block <= limits::SHARED_BYTES
}
