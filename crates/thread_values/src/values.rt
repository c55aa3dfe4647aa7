//! Values as numbers and truths, and what cells keep of them.

ghost use Rattle.std.specs.Prelude.{◌≡◌, ℕ, List, IfSome};
ghost use Rattle.block_layout.specs.declared.kind.Shape.{Shape};
ghost use Rattle.thread_steps.specs.layer.Parts as parts;
ghost use Rattle.thread_steps.specs.Values as pure;
ghost use Rattle.thread_steps.specs.layer.Ranges.{IsHeld, IsHeldScalar, IsNumber};

use block_layout::{Kind, LocalPtr};
use upc_values::{Scalar, Value, blank, blank_value, fits_kind, value_fits};

// A number as a value.
pub(crate) fn number(v: i128) -> Value
    ensures { result ≡ pure.number v }
{
    Value::Scalar(Scalar::Int(v))
}

/// The integer that a value is; what is none counts as 0.
pub fn number_of(v: &Value) -> i128
    ensures value { result ≡ pure.number_of v.now }
    ensures held { (threads : ℕ) (shapes : List Shape) → IsHeld threads shapes v.now
        → IsNumber result }
{
    match v {
        Value::Scalar(Scalar::Int(number)) => *number,
        _ => 0,
    }
}

// The first argument as a number, 0 where there is none.
fn first_number(args: &[Value]) -> i128
    ensures { result ≡ parts.first_number args.now }
{
    match args.first() {
        None => 0,
        Some(v) => number_of(v),
    }
}

/// The first argument, where it is an int. What is none cannot come of a typed program.
pub fn first_int(args: &[Value]) -> Option<i32>
    ensures { IfSome result (λ v. v ≡ parts.first_number args.now) }
{
    let v = first_number(args);
    if v < -2_147_483_648 || v > 2_147_483_647 {
        None
    } else {
        Some(v as i32)
    }
}

/// 1 for true, 0 for false (C99 6.5.8, 6.5.9, 6.5.13, 6.5.14).
pub fn truth_value(holds: bool) -> Value
    ensures value { result ≡ pure.truth_value holds }
    ensures held { (threads : ℕ) (shapes : List Shape) → IsHeld threads shapes result }
{
    number(if holds { 1 } else { 0 })
}

/// Whether a value compares equal to 0: the integer 0, or a null pointer (C99 6.5.3.3, 6.8.4.1).
#[inline(always)]
pub fn is_zero(v: &Value) -> bool
    ensures { result ≡ pure.is_zero v.now }
{
    match v {
        Value::Scalar(Scalar::Int(number)) => *number == 0,
        Value::Scalar(Scalar::Shared(pointer)) => pointer.is_null(),
        Value::Scalar(Scalar::Lock(lock)) => *lock == 0,
        Value::Local(LocalPtr::Null) => true,
        Value::Local(_) => false,
    }
}

/// The scalar that a value is; a pointer-to-local counts as 0.
pub fn scalar_of(v: &Value) -> Scalar
    ensures value { result ≡ pure.scalar_of v.now }
    ensures held { (threads : ℕ) (shapes : List Shape) → IsHeld threads shapes v.now
        → IsHeldScalar threads shapes result }
{
    match v {
        Value::Scalar(scalar) => *scalar,
        Value::Local(_) => Scalar::Int(0),
    }
}

/// What a cell keeps of a value: the value, where it fits the cell's kind; else 0 or null.
pub fn kept(kind: Kind, v: Value) -> Value
    ensures value { result ≡ pure.kept kind v }
    ensures held { (threads : ℕ) (shapes : List Shape) → IsHeld threads shapes v
        → IsHeld threads shapes result }
{
    if value_fits(&v, kind) {
        v
    } else {
        blank_value(kind)
    }
}

/// What a cell of a shared object keeps of a scalar.
pub fn kept_scalar(kind: Kind, v: Scalar) -> Scalar
    ensures value { result ≡ pure.kept_scalar kind v }
    ensures held { (threads : ℕ) (shapes : List Shape) → IsHeldScalar threads shapes v
        → IsHeldScalar threads shapes result }
{
    if fits_kind(&v, kind) { v } else { blank(kind) }
}
