//! Tests of what code may name.

ghost use Rattle.std.specs.Prelude.{◌↔◌, IsTrue, length};
ghost use Rattle.block_layout.specs.declared.kind.Shape.{Shape};
ghost use Rattle.block_layout.specs.Shapes.{IsShape};
ghost use Rattle.integers.specs.Integers.{IsPromoted};
ghost use Rattle.shared_pointers.specs.layer.Ranges.{IsTarget};
ghost use Rattle.thread_steps.specs.layer.Ranges.{IsNumber, IsObject, IsShared};
ghost use Rattle.upc_values.specs.Lists.{Each};
ghost use Rattle.stack_code.specs.layer.Kept.{IsKnownScalar, IsKnown, IsFitting, StackFits, ObjectsFit};
ghost use Rattle.stack_code.specs.layer.Kept.{CastFits, ElementsFit, RightFits, ValuesFit};

use crate::instruction::{Instr, ObjectWork, Operation, StackWork, ValueWork};
use block_layout::{Kind, LocalPtr, ObjectRef, Shape, is_in_range, limits};
use integers::BinOp;
use thread_steps::{CastTo, Elements};
use upc_values::{Scalar, Value, is_integer};

fn is_number(v: i128) -> bool
    ensures { IsTrue result ↔ IsNumber v }
{
    v >= -9_223_372_036_854_775_808 && v < 18_446_744_073_709_551_616
}

fn is_promoted(kind: Kind) -> bool
    ensures { IsTrue result ↔ IsPromoted kind }
{
    matches!(kind, Kind::Int | Kind::UInt | Kind::Long | Kind::ULong)
}

fn is_target(elements: &Elements) -> bool
    ensures { IsTrue result ↔ IsTarget elements.now.block elements.now.size }
{
    elements.block <= limits::SHARED_BYTES
        && elements.size > 0
        && elements.size <= limits::SHARED_BYTES
}

fn is_object(threads: u32, shapes: &[Shape], object: &ObjectRef) -> bool
    ensures { IsTrue result ↔ IsObject threads shapes.now object.now }
{
    object.number > 0
        && (object.shape as usize) < shapes.len()
        && object.home < threads
        && object.total <= limits::SHARED_BYTES
        && object.block <= limits::SHARED_BYTES
}

fn is_shared(threads: u32, shapes: &[Shape], object: &ObjectRef, thread: u32, offset: i64) -> bool
    ensures { IsTrue result ↔ IsShared threads shapes.now object.now thread offset }
{
    is_object(threads, shapes, object) && thread < threads && is_in_range(i128::from(offset))
}

fn is_known_scalar(threads: u32, shapes: &[Shape], scalar: &Scalar) -> bool
    ensures { IsTrue result ↔ IsKnownScalar threads shapes.now scalar.now }
{
    match scalar {
        Scalar::Int(v) => is_number(*v),
        Scalar::Shared(p) => p.is_null()
            || is_shared(threads, shapes, &p.object, p.thread, p.offset),
        Scalar::Lock(l) => *l == 0,
    }
}

fn is_known_local(threads: u32, shapes: &[Shape], local: &LocalPtr) -> bool
    ensures { IsTrue result ↔ IsKnown threads shapes.now (Value.Local local.now) }
{
    match local {
        LocalPtr::Null => true,
        LocalPtr::Private { offset, .. } => is_in_range(i128::from(*offset)),
        LocalPtr::Shared {
            object,
            thread,
            offset,
        } => is_shared(threads, shapes, object, *thread, *offset),
    }
}

/// Whether code for so many threads with these shapes may name a value.
pub(crate) fn is_known(threads: u32, shapes: &[Shape], value: &Value) -> bool
    ensures { IsTrue result ↔ IsKnown threads shapes.now value.now }
{
    match value {
        Value::Scalar(scalar) => is_known_scalar(threads, shapes, scalar),
        Value::Local(local) => is_known_local(threads, shapes, local),
    }
}

fn cast_fits(into: &CastTo) -> bool
    ensures { IsTrue result ↔ CastFits into.now }
{
    match into {
        CastTo::Integer(kind) => is_integer(*kind),
        _ => true,
    }
}

fn elements_fit(elements: &Elements, count: u32) -> bool
    ensures { IsTrue result ↔ ElementsFit elements.now count }
{
    is_target(elements) && count <= limits::SHARED_BYTES
}

fn right_fits(operator: BinOp, left: Kind, right: Kind) -> bool
    ensures { IsTrue result ↔ RightFits operator left right }
{
    match operator {
        BinOp::ShiftLeft | BinOp::ShiftRight => true,
        _ => right == left,
    }
}

/// Whether code may make values so: operators work at kinds that promotion leaves as they are, and elements are in
/// range.
pub fn work_fits(work: &ValueWork) -> bool
    ensures { IsTrue result ↔ ValuesFit work.now }
{
    match work {
        ValueWork::Operate {
            operator,
            left,
            right,
        } => { is_promoted(*left) && is_promoted(*right) && right_fits(*operator, *left, *right) }
        ValueWork::Apply { kind, .. } => is_promoted(*kind),
        ValueWork::Cast(into) => cast_fits(into),
        ValueWork::Advance { elements, count } | ValueWork::Retreat { elements, count } => {
            elements_fit(elements, *count)
        }
        ValueWork::Difference(elements) | ValueWork::Order { elements, .. } => is_target(elements),
        ValueWork::InRow(_) | ValueWork::Member(_) | ValueWork::Same => true,
    }
}

fn is_shape(shape: &Shape) -> bool
    ensures { IsTrue result ↔ IsShape shape.now }
{
    shape.size > 0 && shape.cells.lie_within(shape.size)
}

fn are_shapes(shapes: &[Shape]) -> bool
    ensures { IsTrue result ↔ Each IsShape shapes.now }
{
    for shape in shapes {
        if !is_shape(shape) {
            return false;
        }
    }
    true
}

fn stack_fits(threads: u32, shapes: &[Shape], work: &StackWork) -> bool
    ensures { IsTrue result ↔ StackFits threads shapes.now work.now }
{
    match work {
        StackWork::Push(value) => is_known(threads, shapes, value),
        _ => true,
    }
}

fn objects_fit(work: &ObjectWork) -> bool
    ensures { IsTrue result ↔ ObjectsFit work.now }
{
    match work {
        ObjectWork::Enter { shapes, .. } => are_shapes(shapes.as_slice()),
        _ => true,
    }
}

fn is_fitting(threads: u32, shapes: &[Shape], instr: &Instr) -> bool
    ensures { IsTrue result ↔ IsFitting threads shapes.now instr.now }
{
    match &instr.does {
        Operation::Stack(work) => stack_fits(threads, shapes, work),
        Operation::Value(work) => work_fits(work),
        Operation::Object(work) => objects_fit(work),
        _ => true,
    }
}

/// Whether code for so many threads with these shapes may have these instructions.
pub(crate) fn are_fitting(threads: u32, shapes: &[Shape], code: &[Instr]) -> bool
    ensures { IsTrue result ↔ Each (IsFitting threads shapes.now) code.now }
{
    for instr in code {
        if !is_fitting(threads, shapes, instr) {
            return false;
        }
    }
    true
}
