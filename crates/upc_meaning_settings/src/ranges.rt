//! The ranges of values. In a typed program each value that a thread can have lies in them; what does not is refused
//! as for want of memory.

ghost use Rattle.std.specs.Prelude.{IsTrue};
ghost use Rattle.integers.specs.Integers.{IsPromoted};
ghost use Rattle.shared_pointers.specs.layer.Ranges.{IsStep, IsTarget};
ghost use Rattle.thread_steps.specs.layer.Ranges.{IsHeld, IsHeldScalar, IsNumber, IsObject, IsShared};
ghost use Rattle.thread_steps.specs.Values as values;
ghost use Rattle.thread_values.specs.layer.Results.{IsCast};
ghost use Rattle.upc_meaning_settings.specs.layer.Runners.{IsHeldThere};

use crate::runner::Runner;
use block_layout::{Kind, LocalPtr, ObjectRef, is_in_range, limits};
use thread_steps::{CastTo, Elements};
use thread_values::number_of;
use upc_values::{Scalar, Value};

const LEAST_NUMBER: i128 = -0x8000_0000_0000_0000;

const MOST_NUMBER: i128 = 0xFFFF_FFFF_FFFF_FFFF;

const MOST_STEP: i128 = 0x0400_0000_0000_0000_0000_0000;

fn is_number(v: i128) -> bool
    ensures { IsTrue result → IsNumber v }
{
    LEAST_NUMBER <= v && v <= MOST_NUMBER
}

/// Whether the number that a value is lies in range.
pub fn is_numeric(v: &Value) -> bool
    ensures { IsTrue result → IsNumber (values.number_of v.now) }
{
    is_number(number_of(v))
}

/// Whether a step of a pointer lies in range.
pub(crate) fn is_step(i: i128) -> bool
    ensures { IsTrue result → IsStep i }
{
    -MOST_STEP <= i && i <= MOST_STEP
}

// Whether an object is one that a program may name.
fn is_object(runner: Runner<'_>, object: &ObjectRef) -> bool
    ensures { IsTrue result → IsObject runner.entry.threads runner.entry.shapes.now object.now }
{
    if object.number == 0 || object.shape as usize >= runner.shapes.len() {
        return false;
    }
    object.home < runner.threads
        && object.total <= limits::SHARED_BYTES
        && object.block <= limits::SHARED_BYTES
}

fn is_shared(runner: Runner<'_>, object: &ObjectRef, thread: u32, offset: i64) -> bool
    ensures { IsTrue result → IsShared runner.entry.threads runner.entry.shapes.now object.now thread offset }
{
    is_object(runner, object) && thread < runner.threads && is_in_range(i128::from(offset))
}

/// Whether a scalar lies in range.
pub(crate) fn is_held_scalar(runner: Runner<'_>, v: &Scalar) -> bool
    ensures { IsTrue result → IsHeldScalar runner.entry.threads runner.entry.shapes.now v.now }
{
    match v {
        Scalar::Int(number) => is_number(*number),
        Scalar::Shared(p) => p.is_null() || is_shared(runner, &p.object, p.thread, p.offset),
        Scalar::Lock(_) => true,
    }
}

fn is_held_local(runner: Runner<'_>, p: &LocalPtr) -> bool
    ensures { IsTrue result → IsHeld runner.entry.threads runner.entry.shapes.now (Value.Local p.now) }
{
    match p {
        LocalPtr::Null => true,
        LocalPtr::Private { offset, .. } => is_in_range(i128::from(*offset)),
        LocalPtr::Shared {
            object,
            thread,
            offset,
        } => is_shared(runner, object, *thread, *offset),
    }
}

/// Whether a value lies in range.
pub(crate) fn is_held(runner: Runner<'_>, v: &Value) -> bool
    ensures { IsTrue result → IsHeldThere runner.entry v.now }
{
    match v {
        Value::Scalar(scalar) => is_held_scalar(runner, scalar),
        Value::Local(p) => is_held_local(runner, p),
    }
}

/// Whether the elements that a pointer names are in range.
pub(crate) fn is_target(elements: &Elements) -> bool
    ensures { IsTrue result → IsTarget elements.now.block elements.now.size }
{
    elements.block <= limits::SHARED_BYTES
        && 0 < elements.size
        && elements.size <= limits::SHARED_BYTES
}

/// Whether a conversion into an integer names an integer kind.
pub(crate) fn is_cast(into: &CastTo) -> bool
    ensures { IsTrue result → IsCast into.now }
{
    match into {
        CastTo::Integer(Kind::Shared(_, _) | Kind::Lock | Kind::Private(_)) => false,
        _ => true,
    }
}

/// Whether promotion leaves a kind as it is.
pub(crate) fn is_promoted(kind: Kind) -> bool
    ensures { IsTrue result → IsPromoted kind }
{
    matches!(kind, Kind::Int | Kind::UInt | Kind::Long | Kind::ULong)
}
