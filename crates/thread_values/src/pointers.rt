//! Pointers of both kinds (C99 6.5.6, 6.5.8, 6.5.9; UPC 6.4.2 to 6.4.4).

ghost use Rattle.std.specs.Prelude.{◌≡◌, ◌<◌, ◌≤◌, ◌^◌, ℕ, pos, ◌+ℤ◌, ◌-ℤ◌, ◌*ℤ◌, unsigned_abs};
ghost use Rattle.std.specs.Prelude.{List, Ok, Err, IfOk, if◌then◌else◌};
ghost use Rattle.std.specs.Ordering.{int_eq};
ghost use Rattle.block_layout.specs.Floor.{floor_div};
ghost use Rattle.block_layout.specs.Places.{InRange, in_range};
ghost use Rattle.block_layout.specs.declared.kind.Shape.{Shape};
ghost use Rattle.shared_pointers.specs.Casts.{member_of};
ghost use Rattle.shared_pointers.specs.layer.Ranges.{IsPointer, IsStep, IsTarget, IsThreads};
ghost use Rattle.shared_pointers.specs.Steps as step;
ghost use Rattle.thread_steps.specs.Pointers as pure;
ghost use Rattle.thread_steps.specs.layer.Ranges.{IsHeld, IsHeldScalar};
ghost use Rattle.thread_steps.specs.States.{Thread};
ghost use Rattle.thread_steps.specs.Values as values;
ghost use Rattle.upc_values.specs.declared.scalar.Scalar.TheVariants as scalar;
ghost use Rattle.upc_values.specs.declared.scalar.Value.TheVariants as value;
ghost use Rattle.thread_values.specs.layer.Results.{number_value, ordered, row_test};
ghost use Rattle.thread_values.specs.code.Parts.{IsNear};

use crate::values::{is_zero, number, truth_value};
use block_layout::run_error::{
    NULL_ACCESS, OUT_OF_OBJECT, POINTER_PAIR, POINTER_RANGE, PRIVATE_RANGE,
};
use block_layout::{Kind, LocalPtr, SharedPtr, floor_quotient, is_in_range};
use integers::{BinOp, binary};
use shared_pointers as shared;
use thread_steps::Elements;
use upc_values::{Scalar, Value};

// ---- `p + i`

/// `p + i`: the pointer so many elements after another; what is no pointer is as null (C99 6.5.6, UPC 6.4.2).
///
/// `NULL_ACCESS` for a null pointer, `POINTER_RANGE` where the offset leaves -2^40 to 2^40.
pub fn advanced(threads: u32, elements: Elements, p: Value, i: i128) -> Result<Value, u8>
    requires some_threads { IsThreads threads }
    requires target { IsTarget elements.block elements.size }
    requires pointer { (shapes : List Shape) × IsHeld threads shapes p }
    requires step { IsStep i }
    ensures value { (τ : Thread) → τ.threads ≡ threads → result ≡ pure.advanced τ elements i p }
    ensures held { (shapes : List Shape) → IsHeld threads shapes p
        → IfOk result (IsHeld threads shapes) }
{
    match p {
        Value::Scalar(Scalar::Shared(p)) => advanced_shared(threads, elements, &p, i),
        Value::Local(p) => moved(&p, bytes_of(i, elements.size)),
        _ => Err(NULL_ACCESS),
    }
}

// The pointer, whose phase is 0 where it is none of the block.
fn phased(elements: Elements, p: &SharedPtr) -> SharedPtr
    ensures value { result ≡ pure.phased elements p.now }
    ensures pointer { (threads : ℕ) → InRange p.now.offset → p.now.thread < threads
        → IsPointer result elements.block threads }
{
    let phase = if p.phase < elements.block { p.phase } else { 0 };
    SharedPtr {
        object: p.object,
        thread: p.thread,
        phase,
        offset: p.offset,
    }
}

// `p + i` of a pointer-to-shared.
fn advanced_shared(threads: u32, elements: Elements, p: &SharedPtr, i: i128) -> Result<Value, u8>
    requires some_threads { IsThreads threads }
    requires target { IsTarget elements.block elements.size }
    requires offset { InRange p.now.offset }
    requires thread { p.now.thread < threads }
    requires step { IsStep i }
    ensures value { result ≡ pure.shared_value (step.advanced (pure.phased elements p.now) i
        elements.block elements.size threads) }
    ensures held { (shapes : List Shape) → IsHeldScalar threads shapes (scalar.Shared p.now)
        → IfOk result (IsHeld threads shapes) }
{
    let from = phased(elements, p);
    let q = shared::advance(&from, i, elements.block, elements.size, threads)?;
    Ok(Value::Scalar(Scalar::Shared(q)))
}

// The bytes of so many elements.
fn bytes_of(i: i128, size: u32) -> i128
    requires { unsigned_abs i ≤ 2 ^ 93 }
    ensures value { result ≡ i *ℤ pos size }
    ensures bound { unsigned_abs result ≤ 2 ^ 125 }
{
    i * i128::from(size)
}

// The pointer-to-local so many bytes after another.
fn moved(p: &LocalPtr, bytes: i128) -> Result<Value, u8>
    requires { unsigned_abs bytes ≤ 2 ^ 126 }
    ensures value { result ≡ pure.local_value (pure.local_moved p.now bytes) }
    ensures held { (threads : ℕ) (shapes : List Shape) → IsHeld threads shapes (value.Local p.now)
        → IfOk result (IsHeld threads shapes) }
{
    match *p {
        LocalPtr::Null => Err(NULL_ACCESS),
        LocalPtr::Private { object, offset } => {
            let offset = offset_behind(offset, bytes)?;
            Ok(Value::Local(LocalPtr::Private { object, offset }))
        }
        LocalPtr::Shared {
            object,
            thread,
            offset,
        } => {
            let offset = offset_behind(offset, bytes)?;
            Ok(Value::Local(LocalPtr::Shared {
                object,
                thread,
                offset,
            }))
        }
    }
}

// The offset so many bytes after another, where it is in range.
fn offset_behind(offset: i64, bytes: i128) -> Result<i64, u8>
    requires { unsigned_abs bytes ≤ 2 ^ 126 }
    ensures value { result ≡ (if in_range (offset +ℤ bytes)
        then Ok (offset +ℤ bytes)
        else Err POINTER_RANGE) }
    ensures range { IfOk result InRange }
{
    near_offset(sum(offset, bytes))
}

fn sum(offset: i64, bytes: i128) -> i128
    requires { unsigned_abs bytes ≤ 2 ^ 126 }
    ensures { result ≡ offset +ℤ bytes }
{
    i128::from(offset) + bytes
}

// The offset, where it is in range.
fn near_offset(offset: i128) -> Result<i64, u8>
    ensures value { result ≡ (if in_range offset then Ok offset else Err POINTER_RANGE) }
    ensures range { IfOk result InRange }
{
    if is_in_range(offset) {
        Ok(offset as i64)
    } else {
        Err(POINTER_RANGE)
    }
}

// ---- `p->m`

/// `p->m`, as a place: the pointer to the member at this offset of the struct that a pointer leads to; what is no
/// pointer is as null (C99 6.5.2.3, UPC 6.4.4).
///
/// `NULL_ACCESS` for a null pointer, `POINTER_RANGE` where the offset leaves -2^40 to 2^40.
pub fn member_behind(offset: u32, p: Value) -> Result<Value, u8>
    requires { (threads : ℕ) × ((shapes : List Shape) × IsHeld threads shapes p) }
    ensures value { (τ : Thread) → result ≡ pure.member_behind τ offset p }
    ensures held { (threads : ℕ) (shapes : List Shape) → IsHeld threads shapes p
        → IfOk result (IsHeld threads shapes) }
{
    match p {
        Value::Scalar(Scalar::Shared(p)) => member_shared(offset, &p),
        Value::Local(p) => moved(&p, i128::from(offset)),
        _ => Err(NULL_ACCESS),
    }
}

// `p->m` of a pointer-to-shared.
fn member_shared(offset: u32, p: &SharedPtr) -> Result<Value, u8>
    requires { InRange p.now.offset }
    ensures value { result ≡ pure.shared_value (member_of p.now offset) }
    ensures held { (threads : ℕ) (shapes : List Shape)
        → IsHeldScalar threads shapes (scalar.Shared p.now)
        → IfOk result (IsHeld threads shapes) }
{
    let q = shared::member(p, offset)?;
    Ok(Value::Scalar(Scalar::Shared(q)))
}

// ---- `q - p`, `q < p`

/// `q - p`: how many elements q lies after p (C99 6.5.6, UPC 6.4.2).
///
/// `POINTER_PAIR` where there is no such number, or they are no two pointers of one kind.
pub fn difference(threads: u32, elements: Elements, q: &Value, p: &Value) -> Result<Value, u8>
    requires some_threads { IsThreads threads }
    requires target { IsTarget elements.block elements.size }
    requires later { (shapes : List Shape) × IsHeld threads shapes q.now }
    requires pointer { (shapes : List Shape) × IsHeld threads shapes p.now }
    ensures value { (τ : Thread) → τ.threads ≡ threads
        → result ≡ number_value (pure.apart τ elements q.now p.now) }
    ensures held { (shapes : List Shape) → IfOk result (IsHeld threads shapes) }
{
    let x = apart(threads, elements, q, p)?;
    Ok(number(i128::from(x)))
}

/// `q < p` and its kin: the difference against 0 (C99 6.5.8, UPC 6.4.2).
///
/// `POINTER_PAIR` where there is no difference.
pub fn order(op: BinOp, threads: u32, elements: Elements, q: &Value, p: &Value) -> Result<Value, u8>
    requires some_threads { IsThreads threads }
    requires target { IsTarget elements.block elements.size }
    requires later { (shapes : List Shape) × IsHeld threads shapes q.now }
    requires pointer { (shapes : List Shape) × IsHeld threads shapes p.now }
    ensures value { (τ : Thread) → τ.threads ≡ threads
        → result ≡ ordered op (pure.apart τ elements q.now p.now) }
    ensures held { (shapes : List Shape) → IfOk result (IsHeld threads shapes) }
{
    let x = apart(threads, elements, q, p)?;
    against_zero(op, x)
}

// A difference against 0.
fn against_zero(op: BinOp, x: i64) -> Result<Value, u8>
    ensures value { result ≡ ordered op (Ok x) }
    ensures held { (threads : ℕ) (shapes : List Shape) → IfOk result (IsHeld threads shapes) }
{
    Ok(number(binary(op, Kind::Long, i128::from(x), 0)?))
}

// How many elements q lies after p.
fn apart(threads: u32, elements: Elements, q: &Value, p: &Value) -> Result<i64, u8>
    requires some_threads { IsThreads threads }
    requires target { IsTarget elements.block elements.size }
    requires later { (shapes : List Shape) × IsHeld threads shapes q.now }
    requires pointer { (shapes : List Shape) × IsHeld threads shapes p.now }
    ensures { (τ : Thread) → τ.threads ≡ threads → result ≡ pure.apart τ elements q.now p.now }
{
    match (*q, *p) {
        (Value::Scalar(Scalar::Shared(q)), Value::Scalar(Scalar::Shared(p))) => {
            apart_shared(threads, elements, &q, &p)
        }
        (Value::Local(q), Value::Local(p)) => apart_local(elements.size, &q, &p),
        _ => Err(POINTER_PAIR),
    }
}

// How many elements a pointer-to-shared lies after another.
fn apart_shared(threads: u32, elements: Elements, q: &SharedPtr, p: &SharedPtr) -> Result<i64, u8>
    requires some_threads { IsThreads threads }
    requires target { IsTarget elements.block elements.size }
    requires later_offset { InRange q.now.offset }
    requires later_thread { q.now.thread < threads }
    requires offset { InRange p.now.offset }
    requires thread { p.now.thread < threads }
    ensures { result ≡ step.difference (pure.phased elements q.now) (pure.phased elements p.now)
        elements.block elements.size threads }
{
    let later = phased(elements, q);
    let from = phased(elements, p);
    shared::distance(&later, &from, elements.block, elements.size, threads)
}

// How many elements a pointer-to-local lies after another: they lie in one object, and whole elements apart.
fn apart_local(size: u32, q: &LocalPtr, p: &LocalPtr) -> Result<i64, u8>
    requires size { 0 < size }
    requires later { IsNear q.now }
    requires pointer { IsNear p.now }
    ensures { result ≡ pure.local_difference q.now p.now size }
{
    match *q {
        LocalPtr::Null => Err(POINTER_PAIR),
        LocalPtr::Private { object, offset } => match *p {
            LocalPtr::Private {
                object: other,
                offset: from,
            } if other == object => elements_between(offset, from, size),
            _ => Err(POINTER_PAIR),
        },
        LocalPtr::Shared {
            object,
            thread,
            offset,
        } => match *p {
            LocalPtr::Shared {
                object: other,
                thread: on,
                offset: from,
            } if object == other && thread == on => elements_between(offset, from, size),
            _ => Err(POINTER_PAIR),
        },
    }
}

// How many elements of a size lie between two offsets, where it is a whole number of them.
fn elements_between(q: i64, p: i64, size: u32) -> Result<i64, u8>
    requires size { 0 < size }
    requires later { InRange q }
    requires pointer { InRange p }
    ensures { result ≡ pure.elements_between q p size }
{
    elements_in(bytes_between(q, p), size)
}

// The bytes between two offsets.
fn bytes_between(q: i64, p: i64) -> i128
    requires later { InRange q }
    requires pointer { InRange p }
    ensures value { result ≡ q -ℤ p }
    ensures bound { unsigned_abs result ≤ 2 ^ 41 }
{
    i128::from(q) - i128::from(p)
}

// How many elements of a size so many bytes are, where it is a whole number of them.
fn elements_in(bytes: i128, size: u32) -> Result<i64, u8>
    requires size { 0 < size }
    requires near { unsigned_abs bytes ≤ 2 ^ 41 }
    ensures { result ≡ (if int_eq bytes (floor_div bytes size *ℤ pos size)
        then Ok (floor_div bytes size)
        else Err POINTER_PAIR) }
{
    let x = floor_quotient(bytes, u64::from(size));
    if x * i128::from(size) == bytes {
        Ok(x as i64)
    } else {
        Err(POINTER_PAIR)
    }
}

// ---- `q == p`

/// `q == p`, as 1 or 0. An integer beside a pointer is the constant 0, which equals a null one; two pointers of
/// different kinds are not equal (C99 6.5.9, UPC 6.4.2).
pub fn same(q: &Value, p: &Value) -> Value
    ensures value { result ≡ values.truth_value (pure.same_value q.now p.now) }
    ensures held { (threads : ℕ) (shapes : List Shape) → IsHeld threads shapes result }
{
    truth_value(same_value(q, p))
}

fn same_value(q: &Value, p: &Value) -> bool
    ensures { result ≡ pure.same_value q.now p.now }
{
    match q {
        Value::Scalar(Scalar::Int(_)) => is_zero(p),
        Value::Scalar(later) => match p {
            Value::Scalar(Scalar::Int(_)) => is_zero(q),
            Value::Scalar(from) => same_scalar(later, from),
            Value::Local(_) => false,
        },
        Value::Local(later) => match p {
            Value::Scalar(Scalar::Int(_)) => is_zero(q),
            Value::Scalar(_) => false,
            Value::Local(from) => same_local(later, from),
        },
    }
}

// Whether two scalars that are no integers are equal.
fn same_scalar(q: &Scalar, p: &Scalar) -> bool
    ensures { result ≡ pure.same_value (value.Scalar q.now) (value.Scalar p.now) }
{
    match q {
        Scalar::Int(_) => is_zero(&Value::Scalar(*p)),
        Scalar::Shared(later) => match p {
            Scalar::Int(_) => later.is_null(),
            Scalar::Shared(from) => shared::same(later, from),
            Scalar::Lock(_) => false,
        },
        Scalar::Lock(later) => match p {
            Scalar::Int(_) => *later == 0,
            Scalar::Shared(_) => false,
            Scalar::Lock(from) => *later == *from,
        },
    }
}

// Whether two pointers-to-local are equal.
fn same_local(q: &LocalPtr, p: &LocalPtr) -> bool
    ensures { result ≡ pure.same_local q.now p.now }
{
    *q == *p
}

// ---- rows

/// Whether an index lies in a row of an array of arrays, which has so many elements (C99 6.5.2.1, 6.5.6).
///
/// Else the run error of the pointer's object: `OUT_OF_OBJECT` of a shared one, `PRIVATE_RANGE` of a private one.
pub fn in_row(count: u32, p: &Value, i: i128) -> Result<(), u8>
    ensures { result ≡ row_test count p.now i }
{
    if 0 <= i && i < i128::from(count) {
        return Ok(());
    }
    Err(match p {
        Value::Scalar(_) => OUT_OF_OBJECT,
        Value::Local(_) => PRIVATE_RANGE,
    })
}
