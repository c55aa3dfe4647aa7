//! Calls of the library that ask the shared memory for one action (UPC 7.2.2, 7.2.4).

ghost use Rattle.std.specs.Prelude.{◌≡◌, ◌*◌, ◌==◌, ℕ, List, [], ◌∷◌, Option, IfOk, IfSome, is_some};
ghost use Rattle.std.specs.Prelude.{slice_get, All, if◌then◌else◌};
ghost use Rattle.block_layout.specs.declared.kind.Shape.{Shape};
ghost use Rattle.block_layout.specs.Shapes.{IsShape};
ghost use Rattle.thread_steps.specs.layer.Ranges.{IsNumber};
ghost use Rattle.thread_steps.specs.Values.{number_of};
ghost use Rattle.upc_values.specs.Formed as formed;
ghost use Rattle.upc_values.specs.LibraryCalls as calls;
ghost use Rattle.upc_values.specs.Lists.{Each};
ghost use Rattle.thread_values.specs.layer.Asking.{expansion_of, asks_once, DoesSoThere};
ghost use Rattle.thread_values.specs.code.Parts.{DoesSo, size_of, both_sizes, two_sizes, one_size};

use block_layout::Shape;
use block_layout::run_error::{CELL_TYPE, NULL_ACCESS};
use std::alloc::Global;
use upc_text::OutOfMemory;
use upc_values::{Action, LibraryCall, Listing, Scalar, Value};

/// What a call of the library does that asks for one action at most.
#[derive(Drop)]
pub enum LibraryStep {
    /// It gives 0, which nothing uses.
    Nothing,
    /// It gives the null pointer.
    Null,
    /// It ends the thread by the run error of this number.
    Fails(u8),
    /// It asks for an action, whose reply gives the value (`reply_value`).
    Asks(Action),
}

// An action on a lock, which must not be null.
fn on_lock(lock: u32, action: Action) -> LibraryStep
    ensures { result ≡ (if lock == 0 then LibraryStep.Fails NULL_ACCESS else LibraryStep.Asks action) }
{
    if lock == 0 {
        LibraryStep::Fails(NULL_ACCESS)
    } else {
        LibraryStep::Asks(action)
    }
}

// upc_lock.
fn lock(args: &[Value]) -> LibraryStep
    ensures { DoesSo LibraryCall.Lock args.now result }
{
    match args {
        [Value::Scalar(Scalar::Lock(lock))] => on_lock(*lock, Action::Lock(*lock)),
        _ => LibraryStep::Nothing,
    }
}

// upc_lock_attempt.
fn lock_attempt(args: &[Value]) -> LibraryStep
    ensures { DoesSo LibraryCall.LockAttempt args.now result }
{
    match args {
        [Value::Scalar(Scalar::Lock(lock))] => on_lock(*lock, Action::Attempt(*lock)),
        _ => LibraryStep::Nothing,
    }
}

// upc_unlock.
fn unlock(args: &[Value]) -> LibraryStep
    ensures { DoesSo LibraryCall.Unlock args.now result }
{
    match args {
        [Value::Scalar(Scalar::Lock(lock))] => on_lock(*lock, Action::Unlock(*lock)),
        _ => LibraryStep::Nothing,
    }
}

// upc_lock_free: null does nothing.
fn lock_free(args: &[Value]) -> LibraryStep
    ensures { DoesSo LibraryCall.LockFree args.now result }
{
    match args {
        [Value::Scalar(Scalar::Lock(lock))] => {
            if *lock == 0 {
                LibraryStep::Nothing
            } else {
                LibraryStep::Asks(Action::LockFree(*lock))
            }
        }
        _ => LibraryStep::Nothing,
    }
}

// upc_free: null does nothing.
fn free(args: &[Value]) -> LibraryStep
    ensures { DoesSo LibraryCall.Free args.now result }
{
    match args {
        [Value::Scalar(Scalar::Shared(p))] => {
            if p.is_null() {
                LibraryStep::Nothing
            } else {
                LibraryStep::Asks(Action::Free(*p))
            }
        }
        _ => LibraryStep::Nothing,
    }
}

// upc_global_lock_alloc.
fn global_lock_alloc(args: &[Value]) -> LibraryStep
    ensures { DoesSo LibraryCall.GlobalLockAlloc args.now result }
{
    match args {
        [] => LibraryStep::Asks(Action::LockMake),
        _ => LibraryStep::Nothing,
    }
}

// A meeting of all threads with one argument.
fn meeting(alloc: Global, call: u8, argument: Scalar) -> Result<LibraryStep, OutOfMemory>
    ensures { IfOk result (λ s. s ≡ LibraryStep.Asks (Action.Meet call (argument ∷ []))) }
{
    let mut args = Vec::new(alloc);
    args.push(argument)?;
    Ok(LibraryStep::Asks(Action::Meet {
        call,
        args: Listing::from_vec(args),
    }))
}

// Whether an allocation is of no byte.
fn is_empty(nblocks: u64, nbytes: u64) -> bool
    ensures { result ≡ (nblocks * nbytes == 0) }
{
    nblocks == 0 || nbytes == 0
}

// Whether bytes are whole elements of a shape.
fn is_whole(shapes: &[Shape], shape: u32, nbytes: u64) -> bool
    requires { Each IsShape shapes.now }
    ensures { result ≡ formed.is_whole (slice_get shapes.now shape) nbytes }
{
    match shapes.get(shape as usize) {
        None => false,
        Some(element) => nbytes % u64::from(element.size) == 0,
    }
}

// A size of an allocation.
fn size_of(v: &Value) -> Option<u64>
    requires { IsNumber (number_of v.now) }
    ensures { result ≡ size_of v.now }
{
    match v {
        Value::Scalar(Scalar::Int(v)) => Some(v.unsigned_abs() as u64),
        _ => None,
    }
}

// Two sizes of an allocation.
fn both_sizes(nblocks: &Value, nbytes: &Value) -> Option<(u64, u64)>
    requires nblocks { IsNumber (number_of nblocks.now) }
    requires nbytes { IsNumber (number_of nbytes.now) }
    ensures { result ≡ both_sizes (size_of nblocks.now) (size_of nbytes.now) }
{
    match size_of(nblocks) {
        None => None,
        Some(nblocks) => match size_of(nbytes) {
            None => None,
            Some(nbytes) => Some((nblocks, nbytes)),
        },
    }
}

// The two arguments of an allocation.
fn two_sizes(args: &[Value]) -> Option<(u64, u64)>
    requires { All (λ v. IsNumber (number_of v)) args.now }
    ensures { result ≡ two_sizes args.now }
{
    match args {
        [nblocks, nbytes] => both_sizes(nblocks, nbytes),
        _ => None,
    }
}

// The only argument of one.
fn one_size(args: &[Value]) -> Option<u64>
    requires { All (λ v. IsNumber (number_of v)) args.now }
    ensures { result ≡ one_size args.now }
{
    match args {
        [nbytes] => size_of(nbytes),
        _ => None,
    }
}

// An allocation on a thread, or on all.
fn allocation(
    shapes: &[Shape],
    home: Option<u32>,
    shape: u32,
    nblocks: u64,
    nbytes: u64,
) -> LibraryStep
    requires { Each IsShape shapes.now }
    ensures { (threads me : ℕ) (private : ℕ → Option Shape)
        → calls.allocation threads shapes.now me private home shape nblocks nbytes
        ≡ expansion_of result }
{
    if is_empty(nblocks, nbytes) {
        return LibraryStep::Null;
    }
    if !is_whole(shapes, shape, nbytes) {
        return LibraryStep::Fails(CELL_TYPE);
    }
    LibraryStep::Asks(Action::Alloc {
        nblocks,
        nbytes,
        home,
        shape,
    })
}

// upc_global_alloc.
fn global_alloc(shapes: &[Shape], shape: u32, args: &[Value]) -> LibraryStep
    requires shapes { Each IsShape shapes.now }
    requires numbers { All (λ v. IsNumber (number_of v)) args.now }
    ensures { (threads me : ℕ) → DoesSoThere threads shapes.now me shape LibraryCall.GlobalAlloc args.now result }
{
    match two_sizes(args) {
        Some((nblocks, nbytes)) => allocation(shapes, None, shape, nblocks, nbytes),
        None => LibraryStep::Nothing,
    }
}

// upc_alloc.
fn local_alloc(me: u32, shapes: &[Shape], shape: u32, args: &[Value]) -> LibraryStep
    requires shapes { Each IsShape shapes.now }
    requires numbers { All (λ v. IsNumber (number_of v)) args.now }
    ensures { (threads : ℕ) → DoesSoThere threads shapes.now me shape LibraryCall.Alloc args.now result }
{
    match one_size(args) {
        Some(nbytes) => allocation(shapes, Some(me), shape, 1, nbytes),
        None => LibraryStep::Nothing,
    }
}

// upc_all_alloc of so many blocks of so many bytes each.
fn meeting_to_alloc(
    alloc: Global,
    shapes: &[Shape],
    shape: u32,
    nblocks: u64,
    nbytes: u64,
) -> Result<LibraryStep, OutOfMemory>
    requires { Each IsShape shapes.now }
    ensures { (threads me : ℕ) → IfOk result (λ s. (private : ℕ → Option Shape)
        → calls.all_alloc threads shapes.now me private shape nblocks nbytes ≡ expansion_of s) }
{
    if !is_empty(nblocks, nbytes) && !is_whole(shapes, shape, nbytes) {
        return Ok(LibraryStep::Fails(CELL_TYPE));
    }
    let mut args = Vec::new(alloc);
    args.push(Scalar::Int(i128::from(nblocks)))?;
    args.push(Scalar::Int(i128::from(nbytes)))?;
    args.push(Scalar::Int(i128::from(shape)))?;
    Ok(LibraryStep::Asks(Action::Meet {
        call: 1,
        args: Listing::from_vec(args),
    }))
}

// upc_all_alloc: an allocation of no byte is met for too.
fn all_alloc(
    alloc: Global,
    shapes: &[Shape],
    shape: u32,
    args: &[Value],
) -> Result<LibraryStep, OutOfMemory>
    requires shapes { Each IsShape shapes.now }
    requires numbers { All (λ v. IsNumber (number_of v)) args.now }
    ensures { (threads me : ℕ) → IfOk result
        (DoesSoThere threads shapes.now me shape LibraryCall.AllAlloc args.now) }
{
    match two_sizes(args) {
        Some((nblocks, nbytes)) => meeting_to_alloc(alloc, shapes, shape, nblocks, nbytes),
        None => Ok(LibraryStep::Nothing),
    }
}

// upc_all_free: null is met for too.
fn all_free(alloc: Global, args: &[Value]) -> Result<LibraryStep, OutOfMemory>
    ensures { IfOk result (DoesSo LibraryCall.AllFree args.now) }
{
    match args {
        [Value::Scalar(Scalar::Shared(p))] => meeting(alloc, 3, Scalar::Shared(*p)),
        _ => Ok(LibraryStep::Nothing),
    }
}

// upc_all_lock_free: null is met for too.
fn all_lock_free(alloc: Global, args: &[Value]) -> Result<LibraryStep, OutOfMemory>
    ensures { IfOk result (DoesSo LibraryCall.AllLockFree args.now) }
{
    match args {
        [Value::Scalar(Scalar::Lock(lock))] => meeting(alloc, 4, Scalar::Lock(*lock)),
        _ => Ok(LibraryStep::Nothing),
    }
}

// upc_all_lock_alloc.
fn all_lock_alloc(alloc: Global, args: &[Value]) -> LibraryStep
    ensures { DoesSo LibraryCall.AllLockAlloc args.now result }
{
    match args {
        [] => LibraryStep::Asks(Action::Meet {
            call: 2,
            args: Listing::new(alloc),
        }),
        _ => LibraryStep::Nothing,
    }
}

/// What a call of the library does that asks for one action at most: the calls that allocate and free, and those on
/// locks (UPC 7.2.2, 7.2.4), on thread `me`, with elements of the shape of this number. None for every other call.
///
/// The step may fail by `NULL_ACCESS`, for a null lock, and by `CELL_TYPE`, for bytes that are no whole elements.
pub fn library_step(
    alloc: Global,
    me: u32,
    shapes: &[Shape],
    call: LibraryCall,
    shape: u32,
    args: &[Value],
) -> Result<Option<LibraryStep>, OutOfMemory>
    requires shapes { Each IsShape shapes.now }
    requires numbers { All (λ v. IsNumber (number_of v)) args.now }
    ensures built { IfOk result (λ s. is_some s ≡ asks_once call) }
    ensures does { (threads : ℕ) → IfOk result (λ s.
        IfSome s (DoesSoThere threads shapes.now me shape call args.now)) }
{
    let step = match call {
        LibraryCall::GlobalAlloc => global_alloc(shapes, shape, args),
        LibraryCall::AllAlloc => all_alloc(alloc, shapes, shape, args)?,
        LibraryCall::Alloc => local_alloc(me, shapes, shape, args),
        LibraryCall::Free => free(args),
        LibraryCall::AllFree => all_free(alloc, args)?,
        LibraryCall::GlobalLockAlloc => global_lock_alloc(args),
        LibraryCall::AllLockAlloc => all_lock_alloc(alloc, args),
        LibraryCall::Lock => lock(args),
        LibraryCall::LockAttempt => lock_attempt(args),
        LibraryCall::Unlock => unlock(args),
        LibraryCall::LockFree => lock_free(args),
        LibraryCall::AllLockFree => all_lock_free(alloc, args)?,
        _ => return Ok(None),
    };
    Ok(Some(step))
}
