//! Conversions of values (C99 6.3, 6.5.4; UPC 6.4.3).

ghost use Rattle.std.specs.Prelude.{◌≡◌, ℕ, List, IfOk};
ghost use Rattle.block_layout.specs.declared.kind.Shape.{Shape};
ghost use Rattle.thread_steps.specs.Operators.{cast_value};
ghost use Rattle.thread_steps.specs.layer.Ranges.{IsHeld, IsNumber};
ghost use Rattle.thread_steps.specs.States.{Thread};
ghost use Rattle.thread_steps.specs.Values.{number_of};
ghost use Rattle.thread_steps.specs.declared.cast.CastTo.TheVariants as to;
ghost use Rattle.thread_values.specs.layer.Results.{IsCast};

use crate::values::{number, number_of};
use block_layout::{LocalPtr, SharedPtr};
use integers::convert;
use shared_pointers::to_local;
use thread_steps::CastTo;
use upc_values::{Scalar, Value};

/// What a conversion gives on thread `me`: what is none of the values that it names becomes 0 or null.
///
/// `NOT_LOCAL` where a pointer-to-shared becomes a pointer-to-local and leads to another thread.
pub fn cast(me: u32, into: CastTo, v: Value) -> Result<Value, u8>
    requires integer { IsCast into }
    requires number { IsNumber (number_of v) }
    ensures value { (τ : Thread) → τ.number ≡ me → result ≡ cast_value τ into v }
    ensures held { (threads : ℕ) (shapes : List Shape) → IsHeld threads shapes v
        → IfOk result (IsHeld threads shapes) }
{
    match into {
        CastTo::Integer(kind) => Ok(number(convert(number_of(&v), kind))),
        CastTo::Shared => Ok(to_shared(v)),
        CastTo::OtherBlock => Ok(to_other_block(v)),
        CastTo::Local => into_local(me, v),
        CastTo::Lock => Ok(to_lock(v)),
        CastTo::Nothing => Ok(number(0)),
    }
}

// Into a pointer-to-shared with the same block.
fn to_shared(v: Value) -> Value
    ensures value { (τ : Thread) → Ok result ≡ cast_value τ to.Shared v }
    ensures held { (threads : ℕ) (shapes : List Shape) → IsHeld threads shapes v
        → IsHeld threads shapes result }
{
    match v {
        Value::Scalar(Scalar::Shared(_)) => v,
        _ => Value::Scalar(Scalar::Shared(SharedPtr::NULL)),
    }
}

// Into a pointer-to-shared with another block.
fn to_other_block(v: Value) -> Value
    ensures value { (τ : Thread) → Ok result ≡ cast_value τ to.OtherBlock v }
    ensures held { (threads : ℕ) (shapes : List Shape) → IsHeld threads shapes v
        → IsHeld threads shapes result }
{
    match v {
        Value::Scalar(Scalar::Shared(p)) => Value::Scalar(Scalar::Shared(SharedPtr {
            object: p.object,
            thread: p.thread,
            phase: 0,
            offset: p.offset,
        })),
        _ => Value::Scalar(Scalar::Shared(SharedPtr::NULL)),
    }
}

// Into a pointer to a lock.
fn to_lock(v: Value) -> Value
    ensures value { (τ : Thread) → Ok result ≡ cast_value τ to.Lock v }
    ensures held { (threads : ℕ) (shapes : List Shape) → IsHeld threads shapes result }
{
    match v {
        Value::Scalar(Scalar::Lock(_)) => v,
        _ => Value::Scalar(Scalar::Lock(0)),
    }
}

// Into a pointer-to-local.
fn into_local(me: u32, v: Value) -> Result<Value, u8>
    ensures value { (τ : Thread) → τ.number ≡ me → result ≡ cast_value τ to.Local v }
    ensures held { (threads : ℕ) (shapes : List Shape) → IsHeld threads shapes v
        → IfOk result (IsHeld threads shapes) }
{
    match v {
        Value::Scalar(Scalar::Shared(p)) => Ok(Value::Local(to_local(&p, me)?)),
        Value::Local(_) => Ok(v),
        _ => Ok(Value::Local(LocalPtr::Null)),
    }
}
