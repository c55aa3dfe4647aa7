//! Local names, affinities, and calls of the library (C99 7.19.6.3; UPC 6.6.2, 7.2).

ghost use Rattle.std.specs.Prelude.{◌≡◌, ◌<◌, ◌≤◌, ◌^◌, ◌&&◌, ℕ, pos, unsigned_abs, if◌then◌else◌};
ghost use Rattle.std.specs.Prelude.{List, [], ◌∷◌, All, map, length, Option, Some, None, Ok, IfOk, IfSome};
ghost use Rattle.block_layout.specs.declared.kind.Kind.TheVariants as kind;
ghost use Rattle.block_layout.specs.declared.kind.Shape.{Shape};
ghost use Rattle.integers.specs.Integers.{converted};
ghost use Rattle.thread_steps.specs.Blocks as pure;
ghost use Rattle.thread_steps.specs.layer.Parts as parts;
ghost use Rattle.thread_steps.specs.layer.Ranges.{IsHeld, IsNumber};
ghost use Rattle.thread_steps.specs.States.{Thread};
ghost use Rattle.thread_steps.specs.Values.{number, number_of};
ghost use Rattle.upc_values.specs.LibraryCalls.{library_call, affinity_size};
ghost use Rattle.upc_values.specs.Printing as printing;
ghost use Rattle.thread_values.specs.layer.Results.{asks_nothing, given_at_once};
ghost use Rattle.thread_values.specs.code.Parts.{IsGiven, is_integer};

use crate::values::{number, number_of};
use block_layout::run_error::{LIBRARY_ARGS, NULL_ACCESS};
use block_layout::{Kind, LocalPtr, ObjectRef, limits, piece_bytes};
use integers::convert;
use std::alloc::Global;
use upc_library::print_text;
use upc_text::{OutOfMemory, Text};
use upc_values::{LibraryCall, Scalar, Value};

// The most bytes of an object and of a block.
const MOST_BYTES: u128 = limits::SHARED_BYTES as u128;

/// The pointer to a private object of this number, or a null one.
pub fn pointer_to(object: Option<u64>) -> Value
    ensures value { result ≡ parts.pointer_to object }
    ensures held { (threads : ℕ) (shapes : List Shape) → IsHeld threads shapes result }
{
    match object {
        Some(object) => Value::Local(LocalPtr::Private { object, offset: 0 }),
        None => Value::Local(LocalPtr::Null),
    }
}

/// Whether a turn of a `upc_forall` with this affinity is that of thread `me`: the one of a pointer's target, or the
/// one with that number, modulo the number of threads (UPC 6.6.2).
///
/// `NULL_ACCESS` for a null pointer.
pub fn has_turn(threads: u32, me: u32, v: &Value) -> Result<bool, u8>
    requires { 0 < threads }
    ensures { (τ : Thread) → τ.threads ≡ threads → τ.number ≡ me → result ≡ pure.has_turn τ v.now }
{
    if let Value::Scalar(Scalar::Shared(p)) = v {
        if p.is_null() {
            return Err(NULL_ACCESS);
        }
        return Ok(p.thread == me);
    }
    Ok(number_of(v).rem_euclid(i128::from(threads)) == i128::from(me))
}

/// What a call of the library gives that asks for nothing, or its run error: `upc_threadof`, `upc_phaseof`,
/// `upc_addrfield` and `upc_affinitysize` (UPC 7.2.3). None for every other call.
pub fn library_value(threads: u32, call: LibraryCall, args: &[Value]) -> Option<Result<Value, u8>>
    ensures value { (shapes : List Shape) (me : ℕ) (private : ℕ → Option Shape) (shape : ℕ)
        → result ≡ (if asks_nothing call
        then given_at_once (library_call threads shapes me private call shape args.now)
        else None) }
    ensures held { (shapes : List Shape) → IfSome result (λ r. IfOk r (IsHeld threads shapes)) }
{
    match call {
        LibraryCall::ThreadOf => Some(Ok(thread_of(args))),
        LibraryCall::PhaseOf => Some(Ok(phase_of(args))),
        LibraryCall::AddressField => Some(Ok(address_field(args))),
        LibraryCall::AffinitySize => Some(affinity_size(threads, args)),
        _ => None,
    }
}

// A number as a size_t.
fn size(v: i128) -> Value
    requires { unsigned_abs v ≤ 2 ^ 66 }
    ensures value { result ≡ number (converted kind.ULong v) }
    ensures held { (threads : ℕ) (shapes : List Shape) → IsHeld threads shapes result }
{
    number(convert(v, Kind::ULong))
}

// The thread of a pointer-to-shared.
fn thread_of(args: &[Value]) -> Value
    ensures value { (threads : ℕ) → IsGiven threads LibraryCall.ThreadOf args.now (Ok result) }
    ensures held { (threads : ℕ) (shapes : List Shape) → IsHeld threads shapes result }
{
    match args {
        [Value::Scalar(Scalar::Shared(p))] => size(i128::from(p.thread)),
        _ => number(0),
    }
}

// The phase of a pointer-to-shared.
fn phase_of(args: &[Value]) -> Value
    ensures value { (threads : ℕ) → IsGiven threads LibraryCall.PhaseOf args.now (Ok result) }
    ensures held { (threads : ℕ) (shapes : List Shape) → IsHeld threads shapes result }
{
    match args {
        [Value::Scalar(Scalar::Shared(p))] => size(i128::from(p.phase)),
        _ => number(0),
    }
}

// The bytes of all objects with lower numbers, and the offset of a pointer-to-shared.
fn address_field(args: &[Value]) -> Value
    ensures value { (threads : ℕ) → IsGiven threads LibraryCall.AddressField args.now (Ok result) }
    ensures held { (threads : ℕ) (shapes : List Shape) → IsHeld threads shapes result }
{
    match args {
        [Value::Scalar(Scalar::Shared(p))] => {
            size(i128::from(p.object.base) + i128::from(p.offset))
        }
        _ => number(0),
    }
}

// The bytes of an object on a thread, by the object's bytes, those of a block, and the thread.
fn affinity_size(threads: u32, args: &[Value]) -> Result<Value, u8>
    ensures value { IsGiven threads LibraryCall.AffinitySize args.now result }
    ensures held { (shapes : List Shape) → IfOk result (IsHeld threads shapes) }
{
    match args {
        [total, block, thread] => affinity_of(threads, total, block, thread),
        _ => Ok(number(0)),
    }
}

// The bytes of an object on a thread, by three arguments.
fn affinity_of(threads: u32, total: &Value, block: &Value, thread: &Value) -> Result<Value, u8>
    ensures value { IsGiven threads LibraryCall.AffinitySize
        (total.now ∷ block.now ∷ thread.now ∷ []) result }
    ensures held { (shapes : List Shape) → IfOk result (IsHeld threads shapes) }
{
    if !are_integers(total, block, thread) {
        return Ok(number(0));
    }
    piece(
        threads,
        number_of(total).unsigned_abs(),
        number_of(block).unsigned_abs(),
        number_of(thread).unsigned_abs(),
    )
}

fn are_integers(a: &Value, b: &Value, c: &Value) -> bool
    ensures { result ≡ (is_integer a.now && (is_integer b.now && is_integer c.now)) }
{
    is_integer(a) && is_integer(b) && is_integer(c)
}

fn is_integer(v: &Value) -> bool
    ensures { result ≡ is_integer v.now }
{
    matches!(v, Value::Scalar(Scalar::Int(_)))
}

// The bytes on a thread of an object of so many bytes with this block in bytes.
fn piece(threads: u32, total: u128, block: u128, thread: u128) -> Result<Value, u8>
    ensures value { (shapes : List Shape) (me : ℕ) (private : ℕ → Option Shape)
        → Some result ≡ given_at_once (affinity_size threads shapes me private total block thread) }
    ensures held { (shapes : List Shape) → IfOk result (IsHeld threads shapes) }
{
    if thread >= u128::from(threads) || total > MOST_BYTES || block > MOST_BYTES {
        return Err(LIBRARY_ARGS);
    }
    let object = ObjectRef {
        number: 0,
        total: total as u32,
        block: block as u32,
        home: 0,
        shape: 0,
        base: 0,
    };
    Ok(size(i128::from(piece_bytes(&object, thread as u32, threads))))
}

/// The text that printf prints, by its format and the values after it (C99 7.19.6.3).
pub fn printed(alloc: Global, format: &[u8], args: &[Value]) -> Result<Text, OutOfMemory>
    requires { All (λ v. IsNumber (number_of v)) args.now }
    ensures { IfOk result (λ text. text ≡ printing.printed format.now (map number_of args.now)) }
{
    let numbers = numbers_of(alloc, args)?;
    print_text(alloc, format, numbers.as_slice())
}

// The integers that values are.
fn numbers_of(alloc: Global, values: &[Value]) -> Result<Vec<i128>, OutOfMemory>
    ensures { IfOk result (λ numbers. numbers.items ≡ map number_of values.now) }
{
    let mut numbers = Vec::new(alloc);
    for v in values {
        numbers.push(number_of(v))?;
    }
    Ok(numbers)
}

/// What printf gives: how many bytes the text has, as an int (C99 7.19.6.3).
pub fn printed_count(text: &Text) -> Value
    ensures value { result ≡ number (converted kind.Int (pos (length text.now))) }
    ensures held { (threads : ℕ) (shapes : List Shape) → IsHeld threads shapes result }
{
    number(convert(text.len() as i128, Kind::Int))
}
