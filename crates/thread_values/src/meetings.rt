//! Arguments with which all threads may meet in a collective call (UPC 7.2.2, 7.2.4).

ghost use Rattle.std.specs.Prelude.{◌≡◌, ◌<◌, ◌&&◌, IfOk, is_some, slice_get, true};
ghost use Rattle.thread_steps.specs.Library as pure;
ghost use Rattle.upc_values.specs.Calls.{call_of, is_size};
ghost use Rattle.upc_values.specs.LibraryCalls.{meet_number, scalars};
ghost use Rattle.thread_values.specs.layer.Asking.{asks_once};
ghost use Rattle.thread_values.specs.code.Parts.{is_allocating, is_lock_making};

use block_layout::{Kind, Shape};
use integers::lies_in;
use std::alloc::Global;
use upc_text::OutOfMemory;
use upc_values::{LibraryCall, Scalar, Value};

// Whether three numbers are sizes.
fn are_sizes(a: i128, b: i128, c: i128) -> bool
    ensures { result ≡ (is_size a && (is_size b && is_size c)) }
{
    lies_in(Kind::ULong, a) && lies_in(Kind::ULong, b) && lies_in(Kind::ULong, c)
}

// Whether all threads meet so in upc_all_alloc.
pub(crate) fn is_allocating(call: u8, args: &[Scalar]) -> bool
    ensures { result ≡ is_allocating (call_of call args.now) }
{
    match args {
        [Scalar::Int(n), Scalar::Int(b), Scalar::Int(s)] => call == 1 && are_sizes(*n, *b, *s),
        _ => false,
    }
}

// Whether they meet so in upc_all_lock_alloc.
pub(crate) fn is_lock_making(call: u8, args: &[Scalar]) -> bool
    ensures { result ≡ is_lock_making (call_of call args.now) }
{
    call == 2 && args.is_empty()
}

// Whether they may meet so in one of the first four calls.
fn is_met(call: u8, args: &[Scalar]) -> bool
    requires { call < 5 }
    ensures { result ≡ pure.is_call (call_of call args.now) }
{
    match args {
        [] => call == 2,
        [Scalar::Shared(_)] => call == 3,
        [Scalar::Lock(_)] => call == 4,
        _ => is_allocating(call, args),
    }
}

// The scalars among values.
pub(crate) fn scalars(alloc: Global, values: &[Value]) -> Result<Vec<Scalar>, OutOfMemory>
    ensures { IfOk result (λ v. v.items ≡ scalars values.now) }
{
    let mut found = Vec::new(alloc);
    for v in values {
        if let Value::Scalar(scalar) = v {
            found.push(*scalar)?;
        }
    }
    Ok(found)
}

// Whether all threads may meet with these arguments in one of the first four calls.
fn are_met(alloc: Global, call: u8, args: &[Value]) -> Result<bool, OutOfMemory>
    requires { call < 5 }
    ensures { IfOk result (λ b. b ≡ pure.is_call (call_of call (scalars args.now))) }
{
    let met = scalars(alloc, args)?;
    Ok(is_met(call, met.as_slice()))
}

// Whether a program has a shape with this number.
fn has_shape(shapes: &[Shape], shape: u32) -> bool
    ensures { result ≡ is_some (slice_get shapes.now shape) }
{
    shapes.get(shape as usize).is_some()
}

// Whether all threads may meet with these arguments in upc_all_alloc.
fn is_allocation(
    alloc: Global,
    shapes: &[Shape],
    shape: u32,
    args: &[Value],
) -> Result<bool, OutOfMemory>
    ensures { IfOk result (λ b. b ≡ pure.is_formed shapes.now LibraryCall.AllAlloc shape args.now) }
{
    if !has_shape(shapes, shape) {
        return Ok(false);
    }
    let mut met = scalars(alloc, args)?;
    met.push(Scalar::Int(i128::from(shape)))?;
    Ok(is_met(1, met.as_slice()))
}

/// Whether all threads meet in a call that asks for one action at most.
pub fn is_collective(call: LibraryCall) -> bool
    requires { asks_once call ≡ true }
    ensures { result ≡ is_some (meet_number call) }
{
    matches!(
        call,
        LibraryCall::AllAlloc
            | LibraryCall::AllLockAlloc
            | LibraryCall::AllFree
            | LibraryCall::AllLockFree
    )
}

/// Whether all threads may meet with the arguments of such a call; a call in which they do not meet is formed with
/// any arguments.
pub fn is_formed(
    alloc: Global,
    shapes: &[Shape],
    call: LibraryCall,
    shape: u32,
    args: &[Value],
) -> Result<bool, OutOfMemory>
    requires { asks_once call ≡ true }
    ensures { IfOk result (λ b. b ≡ pure.is_formed shapes.now call shape args.now) }
{
    match call {
        LibraryCall::AllAlloc => is_allocation(alloc, shapes, shape, args),
        LibraryCall::AllLockAlloc => are_met(alloc, 2, args),
        LibraryCall::AllFree => are_met(alloc, 3, args),
        LibraryCall::AllLockFree => are_met(alloc, 4, args),
        _ => Ok(true),
    }
}
