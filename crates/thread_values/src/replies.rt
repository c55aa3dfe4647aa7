//! Which replies fit an action, and what the last reply of a call of the library gives.

ghost use Rattle.std.specs.Prelude.{◌≡◌, ◌==◌, ◌||◌, ℕ, List, [], Option, IfOk, None, Some, IsTrue};
ghost use Rattle.block_layout.specs.declared.kind.Shape.{Shape};
ghost use Rattle.upc_values.specs.Calls.{call_of};
ghost use Rattle.upc_values.specs.Formed as formed;
ghost use Rattle.upc_values.specs.LibraryCalls.{given_by};
ghost use Rattle.thread_steps.specs.layer.Ranges.{IsHeld, IsHeldScalar};
ghost use Rattle.upc_values.specs.declared.scalar.Scalar.TheVariants as scalar;
ghost use Rattle.thread_values.specs.layer.Asking.{IsHeldReply};
ghost use Rattle.thread_values.specs.layer.Results.{given_at_once};
ghost use Rattle.thread_values.specs.code.Parts.{done_or};

use crate::cells::is_pointer;
use crate::meetings::{is_allocating, is_lock_making};
use crate::values::truth_value;
use block_layout::run_error::{
    BAD_FREE, BARRIER_MISMATCH, COLLECTIVE_MISMATCH, LOCK_AGAIN, LOCK_FREED, LOCK_NOT_HELD,
    SHARED_SPACE,
};
use block_layout::{Shape, SharedPtr};
use upc_values::{Action, Reply, Scalar, Value};

/// What a call of the library gives by the reply of its last action: a value, or the number of a run error. A call
/// without a result gives 0.
pub fn reply_value(reply: &Reply) -> Result<Value, u8>
    ensures value { Some result ≡ given_at_once (given_by reply.now) }
    ensures held { (threads : ℕ) (shapes : List Shape) → IsHeldReply threads shapes reply.now
        → IfOk result (IsHeld threads shapes) }
{
    match reply {
        Reply::Done => Ok(Value::Scalar(Scalar::Int(0))),
        Reply::Value(v) => Ok(Value::Scalar(*v)),
        Reply::Flag(flag) => Ok(truth_value(*flag)),
        Reply::Refused(code) => Err(*code),
    }
}

// Done, or one of two refusals.
fn is_done_or(first: u8, second: u8, reply: &Reply) -> bool
    ensures { result ≡ done_or first second reply.now }
{
    match reply {
        Reply::Done => true,
        Reply::Refused(code) => *code == first || *code == second,
        _ => false,
    }
}

fn is_done(reply: &Reply) -> bool
    ensures { result ≡ formed.fits 0 [] None Action.Fence reply.now }
{
    matches!(reply, Reply::Done)
}

// What upc_lock_attempt is answered.
fn fits_attempt(reply: &Reply) -> bool
    ensures value { (threads lock : ℕ) (shapes : List Shape)
        → result ≡ formed.fits threads shapes None (Action.Attempt lock) reply.now }
    ensures held { (threads : ℕ) (shapes : List Shape) → IsTrue result
        → IsHeldReply threads shapes reply.now }
{
    match reply {
        Reply::Flag(_) => true,
        Reply::Refused(code) => *code == LOCK_FREED,
        _ => false,
    }
}

// A new lock.
fn is_new_lock(reply: &Reply) -> bool
    ensures value { (threads : ℕ) (shapes : List Shape)
        → result ≡ formed.fits threads shapes None Action.LockMake reply.now }
    ensures held { (threads : ℕ) (shapes : List Shape) → IsTrue result
        → IsHeldReply threads shapes reply.now }
{
    match reply {
        Reply::Value(Scalar::Lock(lock)) => *lock > 0,
        _ => false,
    }
}

// The pointer to a new object.
fn is_start(threads: u32, shapes: &[Shape], p: &SharedPtr) -> bool
    ensures value { result ≡ formed.is_start threads shapes.now p.now }
    ensures held { IsTrue result → IsHeldScalar threads shapes.now (scalar.Shared p.now) }
{
    is_pointer(threads, shapes, p) && p.phase == 0
}

// What an allocation is answered.
fn fits_alloc(threads: u32, shapes: &[Shape], reply: &Reply) -> bool
    ensures value { (nblocks nbytes shape : ℕ) (home : Option ℕ)
        → result ≡ formed.fits threads shapes.now None (Action.Alloc nblocks nbytes home shape) reply.now }
    ensures held { IsTrue result → IsHeldReply threads shapes.now reply.now }
{
    match reply {
        Reply::Value(Scalar::Shared(p)) => is_start(threads, shapes, p),
        Reply::Refused(code) => *code == SHARED_SPACE,
        _ => false,
    }
}

// Whether a collective call may be refused so.
fn is_meeting_refusal(code: u8) -> bool
    ensures { result ≡ ((code == LOCK_FREED)
        || ((code == BAD_FREE) || ((code == COLLECTIVE_MISMATCH) || (code == SHARED_SPACE)))) }
{
    code == LOCK_FREED || code == BAD_FREE || code == COLLECTIVE_MISMATCH || code == SHARED_SPACE
}

// What a collective call is answered.
fn fits_meet(threads: u32, shapes: &[Shape], call: u8, args: &[Scalar], reply: &Reply) -> bool
    ensures value { result
        ≡ formed.fits_call threads shapes.now (call_of call args.now) reply.now }
    ensures held { IsTrue result → IsHeldReply threads shapes.now reply.now }
{
    match reply {
        Reply::Value(Scalar::Shared(p)) => {
            is_allocating(call, args) && is_start(threads, shapes, p)
        }
        Reply::Value(Scalar::Lock(lock)) => is_lock_making(call, args) && *lock > 0,
        Reply::Done => !is_allocating(call, args) && !is_lock_making(call, args),
        Reply::Refused(code) => is_meeting_refusal(*code),
        _ => false,
    }
}

/// Whether a reply fits an action that is no read; no reply fits a read here.
pub fn reply_fits(threads: u32, shapes: &[Shape], action: &Action, reply: &Reply) -> bool
    ensures value { result ≡ formed.fits threads shapes.now None action.now reply.now }
    ensures held { IsTrue result → IsHeldReply threads shapes.now reply.now }
{
    match action {
        Action::Read { .. } => false,
        Action::Wait(_) => is_done_or(BARRIER_MISMATCH, BARRIER_MISMATCH, reply),
        Action::Lock(_) => is_done_or(LOCK_AGAIN, LOCK_FREED, reply),
        Action::Unlock(_) => is_done_or(LOCK_NOT_HELD, LOCK_FREED, reply),
        Action::LockFree(_) => is_done_or(LOCK_FREED, LOCK_FREED, reply),
        Action::Free(_) => is_done_or(BAD_FREE, BAD_FREE, reply),
        Action::Attempt(_) => fits_attempt(reply),
        Action::LockMake => is_new_lock(reply),
        Action::Alloc { .. } => fits_alloc(threads, shapes, reply),
        Action::Meet { call, args } => fits_meet(threads, shapes, *call, args.as_slice(), reply),
        _ => is_done(reply),
    }
}
