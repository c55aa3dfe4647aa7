//! What a collective call asks for.

ghost use Rattle.std.specs.Prelude.{◌≡◌, ◌∷◌, [], ◌<◌};
ghost use Rattle.upc_values.specs.Calls as said;
ghost use Rattle.upc_values.specs.Calls.{call_of};
ghost use Rattle.collectives.specs.layer.Arguments.{copies_or_reduces};
ghost use Rattle.collectives.specs.code.Calls.{call_in, called, kept, shared_in};
ghost use Rattle.collectives.specs.code.Calls.{int_in, size_in, kind_in, way_option};

use block_layout::{Kind, SharedPtr};
use integers::lies_in;
use upc_values::Scalar;

/// How blocks are copied (UPC 7.3).
#[derive(Clone, Copy)]
pub enum Way {
    Broadcast,
    Scatter,
    Gather,
    GatherAll,
    Exchange,
}

/// What a reduction joins, and how.
#[derive(Clone, Copy)]
pub struct Operands {
    pub dst: SharedPtr,
    pub src: SharedPtr,
    /// The number of the operator.
    pub op: i32,
    pub count: u64,
    pub block: u64,
    /// The number of the elements' type, below 8.
    pub kind: u32,
}

/// A collective call that copies or reduces, with its arguments (UPC 7.3), or any other.
#[derive(Clone, Copy)]
pub enum Call {
    Copies {
        way: Way,
        dst: SharedPtr,
        src: SharedPtr,
        bytes: u64,
        flags: i32,
    },
    Permutes {
        dst: SharedPtr,
        src: SharedPtr,
        perm: SharedPtr,
        bytes: u64,
        flags: i32,
    },
    Reduces(Operands, i32),
    ReducesPrefixes(Operands, i32),
    Other,
}

// The pointer, if it is one.
fn as_shared(value: Scalar) -> Option<SharedPtr>
    ensures { result ≡ shared_in value }
{
    match value {
        Scalar::Shared(p) => Some(p),
        _ => None,
    }
}

// The number, if it is a size_t.
fn as_size(value: Scalar) -> Option<u64>
    ensures { result ≡ size_in value }
{
    match value {
        Scalar::Int(v) if lies_in(Kind::ULong, v) => Some(v as u64),
        _ => None,
    }
}

// The number, if it is an int.
fn as_int(value: Scalar) -> Option<i32>
    ensures { result ≡ int_in value }
{
    match value {
        Scalar::Int(v) if lies_in(Kind::Int, v) => Some(v as i32),
        _ => None,
    }
}

// The way of copying, by number of call.
fn way_of(call: u8) -> Option<Way>
    ensures { way_option result ≡ said.way_of call }
{
    match call {
        5 => Some(Way::Broadcast),
        6 => Some(Way::Scatter),
        7 => Some(Way::Gather),
        8 => Some(Way::GatherAll),
        9 => Some(Way::Exchange),
        _ => None,
    }
}

// The call with these four arguments.
#[tactic(auto, using(crate::proofs::Reading::copies_read))]
fn copies(call: u8, dst: Scalar, src: Scalar, bytes: Scalar, flags: Scalar) -> Option<Call>
    ensures { called result ≡ kept (call_of call (dst ∷ src ∷ bytes ∷ flags ∷ [])) }
{
    let dst = as_shared(dst)?;
    let src = as_shared(src)?;
    let bytes = as_size(bytes)?;
    let flags = as_int(flags)?;
    let way = way_of(call)?;
    Some(Call::Copies {
        way,
        dst,
        src,
        bytes,
        flags,
    })
}

// The call with these five arguments.
#[tactic(auto, using(crate::proofs::Reading::permutes_read))]
fn permutes(
    call: u8,
    dst: Scalar,
    src: Scalar,
    perm: Scalar,
    bytes: Scalar,
    flags: Scalar,
) -> Option<Call>
    ensures { called result ≡ kept (call_of call (dst ∷ src ∷ perm ∷ bytes ∷ flags ∷ [])) }
{
    let dst = as_shared(dst)?;
    let src = as_shared(src)?;
    let perm = as_shared(perm)?;
    let bytes = as_size(bytes)?;
    let flags = as_int(flags)?;
    match call {
        10 => Some(Call::Permutes {
            dst,
            src,
            perm,
            bytes,
            flags,
        }),
        _ => None,
    }
}

// The number of a type of elements, if it is one.
fn as_kind(value: Scalar) -> Option<u32>
    ensures { result ≡ kind_in value }
{
    match as_size(value) {
        Some(kind) if kind < 8 => Some(kind as u32),
        _ => None,
    }
}

// The call with these seven arguments.
#[tactic(auto, using(crate::proofs::Reading::reduces_read))]
fn reduces(
    call: u8,
    dst: Scalar,
    src: Scalar,
    op: Scalar,
    count: Scalar,
    block: Scalar,
    kind: Scalar,
    flags: Scalar,
) -> Option<Call>
    ensures { called result ≡ kept (call_of call (dst ∷ src ∷ op ∷ count ∷ block ∷ kind ∷ flags ∷ [])) }
{
    let dst = as_shared(dst)?;
    let src = as_shared(src)?;
    let op = as_int(op)?;
    let count = as_size(count)?;
    let block = as_size(block)?;
    let kind = as_kind(kind)?;
    let flags = as_int(flags)?;
    let operands = Operands {
        dst,
        src,
        op,
        count,
        block,
        kind,
    };
    match call {
        11 => Some(Call::Reduces(operands, flags)),
        12 => Some(Call::ReducesPrefixes(operands, flags)),
        _ => None,
    }
}

/// The call with this number and these arguments.
#[tactic(auto, using(crate::proofs::Reading::others_read))]
pub fn call_of(call: u8, args: &[Scalar]) -> Call
    ensures { call_in result ≡ kept (call_of call args.now) }
{
    let read = match *args {
        [dst, src, bytes, flags] => copies(call, dst, src, bytes, flags),
        [dst, src, perm, bytes, flags] => permutes(call, dst, src, perm, bytes, flags),
        [dst, src, op, count, block, kind, flags] => {
            reduces(call, dst, src, op, count, block, kind, flags)
        }
        _ => None,
    };
    read.unwrap_or(Call::Other)
}

// Whether a call copies or reduces.
fn is_known(call: &Call) -> bool
    ensures { result ≡ copies_or_reduces (call_in call.now) }
{
    !matches!(call, Call::Other)
}

/// Whether the arguments are of the types of the parameters of the collective call with this number, from 5 to 12.
pub fn may_meet(call: u8, args: &[Scalar]) -> bool
    ensures { result ≡ copies_or_reduces (call_of call args.now) }
{
    is_known(&call_of(call, args))
}
