//! What a collective call asks of the memory.

ghost use Rattle.std.specs.Prelude.{◌≡◌, ◌∷◌, [], is_some};
ghost use Rattle.upc_values.specs.Calls.{call_of, way_of};
ghost use Rattle.memory_history.specs.code.Calls.{asked_of};
ghost use Rattle.memory_history.specs.code.Calls as said;

use block_layout::{Kind, SharedPtr};
use integers::lies_in;
use upc_values::Scalar;

/// The collective calls of the library, by the numbers that stand for them in a Meet (UPC 7.2.2, 7.2.4, 7.3).
enum Collective {
    AllAlloc = 1,
    AllLockAlloc = 2,
    AllFree = 3,
    AllLockFree = 4,
    Broadcast = 5,
    Scatter = 6,
    Gather = 7,
    GatherAll = 8,
    Exchange = 9,
    Permute = 10,
    Reduce = 11,
    PrefixReduce = 12,
}

/// What a collective call asks for, by its number and arguments (UPC 7.2, 7.3).
#[derive(Clone, Copy)]
pub enum Asked {
    /// Of upc_all_alloc: an object.
    Allocates {
        nblocks: u64,
        nbytes: u64,
        shape: u64,
    },
    /// Of upc_all_lock_alloc: a lock.
    MakesLock,
    /// Of upc_all_free: that an object is released.
    Frees(SharedPtr),
    /// Of upc_all_lock_free: that a lock is given up.
    FreesLock(u32),
    /// Of a call that copies or reduces: nothing, but that these objects are there.
    Uses(SharedPtr, SharedPtr),
    /// The same of a call that permutes.
    UsesThree(SharedPtr, SharedPtr, SharedPtr),
    /// Of what is no call: nothing.
    Nothing,
}

// The pointer, if it is one.
fn as_shared(value: Scalar) -> Option<SharedPtr>
    ensures { result ≡ said.shared_in value }
{
    match value {
        Scalar::Shared(p) => Some(p),
        _ => None,
    }
}

// The number, if it is a size_t.
fn as_size(value: Scalar) -> Option<u64>
    ensures { result ≡ said.size_in value }
{
    match value {
        Scalar::Int(v) if lies_in(Kind::ULong, v) => Some(v as u64),
        _ => None,
    }
}

// Whether it is an int.
fn is_int(value: Scalar) -> bool
    ensures { result ≡ said.has_int value }
{
    match value {
        Scalar::Int(v) => lies_in(Kind::Int, v),
        _ => false,
    }
}

// Whether it is the number of a type of elements.
fn is_kind(value: Scalar) -> bool
    ensures { result ≡ said.has_kind value }
{
    match as_size(value) {
        Some(kind) => kind < 8,
        None => false,
    }
}

// Whether the number is that of a call that copies.
fn is_way(call: u8) -> bool
    ensures { result ≡ is_some (way_of call) }
{
    call == Collective::Broadcast as u8
        || call == Collective::Scatter as u8
        || call == Collective::Gather as u8
        || call == Collective::GatherAll as u8
        || call == Collective::Exchange as u8
}

// What was read, if anything was.
fn or_nothing(read: Option<Asked>) -> Asked
    ensures { result ≡ said.or_nothing read }
{
    match read {
        Some(asked) => asked,
        None => Asked::Nothing,
    }
}

// The call with this argument.
fn one(call: u8, value: Scalar) -> Asked
    ensures { result ≡ asked_of (call_of call (value ∷ [])) }
{
    match value {
        Scalar::Shared(p) if call == Collective::AllFree as u8 => Asked::Frees(p),
        Scalar::Lock(l) if call == Collective::AllLockFree as u8 => Asked::FreesLock(l),
        _ => Asked::Nothing,
    }
}

// The call with these three arguments.
fn three(call: u8, nblocks: Scalar, nbytes: Scalar, shape: Scalar) -> Option<Asked>
    ensures { said.or_nothing result ≡ asked_of (call_of call (nblocks ∷ nbytes ∷ shape ∷ [])) }
{
    let nblocks = as_size(nblocks)?;
    let nbytes = as_size(nbytes)?;
    let shape = as_size(shape)?;
    if call != Collective::AllAlloc as u8 {
        return None;
    }
    Some(Asked::Allocates {
        nblocks,
        nbytes,
        shape,
    })
}

// The call with these four arguments.
fn four(call: u8, dst: Scalar, src: Scalar, bytes: Scalar, flags: Scalar) -> Option<Asked>
    ensures { said.or_nothing result ≡ asked_of (call_of call (dst ∷ src ∷ bytes ∷ flags ∷ [])) }
{
    let dst = as_shared(dst)?;
    let src = as_shared(src)?;
    as_size(bytes)?;
    if is_int(flags) && is_way(call) {
        Some(Asked::Uses(dst, src))
    } else {
        None
    }
}

// The call with these five arguments.
fn five(
    call: u8,
    dst: Scalar,
    src: Scalar,
    perm: Scalar,
    bytes: Scalar,
    flags: Scalar,
) -> Option<Asked>
    ensures { said.or_nothing result ≡ asked_of (call_of call (dst ∷ src ∷ perm ∷ bytes ∷ flags ∷ [])) }
{
    let dst = as_shared(dst)?;
    let src = as_shared(src)?;
    let perm = as_shared(perm)?;
    as_size(bytes)?;
    if is_int(flags) && call == Collective::Permute as u8 {
        Some(Asked::UsesThree(dst, src, perm))
    } else {
        None
    }
}

// Whether these five are the numbers of a reduction.
fn are_numbers(op: Scalar, count: Scalar, block: Scalar, kind: Scalar, flags: Scalar) -> bool
    ensures { result ≡ said.are_numbers op count block kind flags }
{
    is_int(op)
        && as_size(count).is_some()
        && as_size(block).is_some()
        && is_kind(kind)
        && is_int(flags)
}

// The call with these two pointers, and whether its five numbers are such.
fn seven(call: u8, dst: Scalar, src: Scalar, numbers: bool) -> Option<Asked>
    ensures { said.or_nothing result ≡ said.reduced call (said.shared_in dst) (said.shared_in src) numbers }
{
    let dst = as_shared(dst)?;
    let src = as_shared(src)?;
    if numbers && (call == Collective::Reduce as u8 || call == Collective::PrefixReduce as u8) {
        Some(Asked::Uses(dst, src))
    } else {
        None
    }
}

/// What the call with this number and these arguments asks for.
#[tactic(auto, using(crate::proofs::Reading::seven_read, crate::proofs::Reading::others_read))]
pub fn read_call(call: u8, args: &[Scalar]) -> Asked
    ensures { result ≡ asked_of (call_of call args.now) }
{
    match *args {
        [] => {
            if call == Collective::AllLockAlloc as u8 {
                Asked::MakesLock
            } else {
                Asked::Nothing
            }
        }
        [value] => one(call, value),
        [nblocks, nbytes, shape] => or_nothing(three(call, nblocks, nbytes, shape)),
        [dst, src, bytes, flags] => or_nothing(four(call, dst, src, bytes, flags)),
        [dst, src, perm, bytes, flags] => or_nothing(five(call, dst, src, perm, bytes, flags)),
        [dst, src, op, count, block, kind, flags] => {
            let numbers = are_numbers(op, count, block, kind, flags);
            or_nothing(seven(call, dst, src, numbers))
        }
        _ => Asked::Nothing,
    }
}
