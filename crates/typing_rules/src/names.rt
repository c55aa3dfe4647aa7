//! Library names by their spelling.

ghost use Rattle.std.specs.Prelude.{◌≡◌};
ghost use Rattle.typing_rules.specs.Library as pure;

use crate::library::LibraryConstant;
use upc_values::{ElementKind, LibraryCall};

const CALLS: [LibraryCall; 44] = [
    LibraryCall::Printf,
    LibraryCall::ThreadOf,
    LibraryCall::PhaseOf,
    LibraryCall::AddressField,
    LibraryCall::AffinitySize,
    LibraryCall::GlobalAlloc,
    LibraryCall::AllAlloc,
    LibraryCall::Alloc,
    LibraryCall::Free,
    LibraryCall::AllFree,
    LibraryCall::GlobalLockAlloc,
    LibraryCall::AllLockAlloc,
    LibraryCall::Lock,
    LibraryCall::LockAttempt,
    LibraryCall::Unlock,
    LibraryCall::LockFree,
    LibraryCall::AllLockFree,
    LibraryCall::Memcpy,
    LibraryCall::Memget,
    LibraryCall::Memput,
    LibraryCall::Memset,
    LibraryCall::GlobalExit,
    LibraryCall::Broadcast,
    LibraryCall::Scatter,
    LibraryCall::Gather,
    LibraryCall::GatherAll,
    LibraryCall::Exchange,
    LibraryCall::Permute,
    LibraryCall::Reduce(ElementKind::Char),
    LibraryCall::Reduce(ElementKind::UnsignedChar),
    LibraryCall::Reduce(ElementKind::Short),
    LibraryCall::Reduce(ElementKind::UnsignedShort),
    LibraryCall::Reduce(ElementKind::Int),
    LibraryCall::Reduce(ElementKind::UnsignedInt),
    LibraryCall::Reduce(ElementKind::Long),
    LibraryCall::Reduce(ElementKind::UnsignedLong),
    LibraryCall::PrefixReduce(ElementKind::Char),
    LibraryCall::PrefixReduce(ElementKind::UnsignedChar),
    LibraryCall::PrefixReduce(ElementKind::Short),
    LibraryCall::PrefixReduce(ElementKind::UnsignedShort),
    LibraryCall::PrefixReduce(ElementKind::Int),
    LibraryCall::PrefixReduce(ElementKind::UnsignedInt),
    LibraryCall::PrefixReduce(ElementKind::Long),
    LibraryCall::PrefixReduce(ElementKind::UnsignedLong),
];

const CONSTANTS: [LibraryConstant; 15] = [
    LibraryConstant::Add,
    LibraryConstant::Multiply,
    LibraryConstant::BitAnd,
    LibraryConstant::BitOr,
    LibraryConstant::BitXor,
    LibraryConstant::LogicalAnd,
    LibraryConstant::LogicalOr,
    LibraryConstant::Least,
    LibraryConstant::Greatest,
    LibraryConstant::InNoSync,
    LibraryConstant::InMySync,
    LibraryConstant::InAllSync,
    LibraryConstant::OutNoSync,
    LibraryConstant::OutMySync,
    LibraryConstant::OutAllSync,
];

fn reduce_name(kind: ElementKind) -> &'static [u8]
    ensures { result.now ≡ pure.call_name (LibraryCall.Reduce kind) }
{
    match kind {
        ElementKind::Char => b"upc_all_reduceC",
        ElementKind::UnsignedChar => b"upc_all_reduceUC",
        ElementKind::Short => b"upc_all_reduceS",
        ElementKind::UnsignedShort => b"upc_all_reduceUS",
        ElementKind::Int => b"upc_all_reduceI",
        ElementKind::UnsignedInt => b"upc_all_reduceUI",
        ElementKind::Long => b"upc_all_reduceL",
        ElementKind::UnsignedLong => b"upc_all_reduceUL",
    }
}

fn prefix_reduce_name(kind: ElementKind) -> &'static [u8]
    ensures { result.now ≡ pure.call_name (LibraryCall.PrefixReduce kind) }
{
    match kind {
        ElementKind::Char => b"upc_all_prefix_reduceC",
        ElementKind::UnsignedChar => b"upc_all_prefix_reduceUC",
        ElementKind::Short => b"upc_all_prefix_reduceS",
        ElementKind::UnsignedShort => b"upc_all_prefix_reduceUS",
        ElementKind::Int => b"upc_all_prefix_reduceI",
        ElementKind::UnsignedInt => b"upc_all_prefix_reduceUI",
        ElementKind::Long => b"upc_all_prefix_reduceL",
        ElementKind::UnsignedLong => b"upc_all_prefix_reduceUL",
    }
}

/// How a call is spelled.
pub fn call_name(call: LibraryCall) -> &'static [u8]
    ensures { result.now ≡ pure.call_name call }
{
    match call {
        LibraryCall::Printf => b"printf",
        LibraryCall::ThreadOf => b"upc_threadof",
        LibraryCall::PhaseOf => b"upc_phaseof",
        LibraryCall::AddressField => b"upc_addrfield",
        LibraryCall::AffinitySize => b"upc_affinitysize",
        LibraryCall::GlobalAlloc => b"upc_global_alloc",
        LibraryCall::AllAlloc => b"upc_all_alloc",
        LibraryCall::Alloc => b"upc_alloc",
        LibraryCall::Free => b"upc_free",
        LibraryCall::AllFree => b"upc_all_free",
        LibraryCall::GlobalLockAlloc => b"upc_global_lock_alloc",
        LibraryCall::AllLockAlloc => b"upc_all_lock_alloc",
        LibraryCall::Lock => b"upc_lock",
        LibraryCall::LockAttempt => b"upc_lock_attempt",
        LibraryCall::Unlock => b"upc_unlock",
        LibraryCall::LockFree => b"upc_lock_free",
        LibraryCall::AllLockFree => b"upc_all_lock_free",
        LibraryCall::Memcpy => b"upc_memcpy",
        LibraryCall::Memget => b"upc_memget",
        LibraryCall::Memput => b"upc_memput",
        LibraryCall::Memset => b"upc_memset",
        LibraryCall::GlobalExit => b"upc_global_exit",
        LibraryCall::Broadcast => b"upc_all_broadcast",
        LibraryCall::Scatter => b"upc_all_scatter",
        LibraryCall::Gather => b"upc_all_gather",
        LibraryCall::GatherAll => b"upc_all_gather_all",
        LibraryCall::Exchange => b"upc_all_exchange",
        LibraryCall::Permute => b"upc_all_permute",
        LibraryCall::Reduce(kind) => reduce_name(kind),
        LibraryCall::PrefixReduce(kind) => prefix_reduce_name(kind),
    }
}

/// How a constant is spelled.
pub fn constant_name(constant: LibraryConstant) -> &'static [u8]
    ensures { result.now ≡ pure.constant_name constant }
{
    match constant {
        LibraryConstant::Add => b"UPC_ADD",
        LibraryConstant::Multiply => b"UPC_MULT",
        LibraryConstant::BitAnd => b"UPC_AND",
        LibraryConstant::BitOr => b"UPC_OR",
        LibraryConstant::BitXor => b"UPC_XOR",
        LibraryConstant::LogicalAnd => b"UPC_LOGAND",
        LibraryConstant::LogicalOr => b"UPC_LOGOR",
        LibraryConstant::Least => b"UPC_MIN",
        LibraryConstant::Greatest => b"UPC_MAX",
        LibraryConstant::InNoSync => b"UPC_IN_NOSYNC",
        LibraryConstant::InMySync => b"UPC_IN_MYSYNC",
        LibraryConstant::InAllSync => b"UPC_IN_ALLSYNC",
        LibraryConstant::OutNoSync => b"UPC_OUT_NOSYNC",
        LibraryConstant::OutMySync => b"UPC_OUT_MYSYNC",
        LibraryConstant::OutAllSync => b"UPC_OUT_ALLSYNC",
    }
}

/// The value of a constant, an int.
pub fn constant_value(constant: LibraryConstant) -> u32
    ensures { result ≡ pure.constant_value constant }
{
    match constant {
        LibraryConstant::Add => 1,
        LibraryConstant::Multiply => 2,
        LibraryConstant::BitAnd => 4,
        LibraryConstant::BitOr => 8,
        LibraryConstant::BitXor => 16,
        LibraryConstant::LogicalAnd => 32,
        LibraryConstant::LogicalOr => 64,
        LibraryConstant::Least => 128,
        LibraryConstant::Greatest => 256,
        LibraryConstant::InNoSync => 1,
        LibraryConstant::InMySync => 2,
        LibraryConstant::InAllSync => 4,
        LibraryConstant::OutNoSync => 8,
        LibraryConstant::OutMySync => 16,
        LibraryConstant::OutAllSync => 32,
    }
}

fn call_among(calls: &[LibraryCall], name: &[u8]) -> Option<LibraryCall>
    ensures { result ≡ pure.spelled pure.call_name calls.now name.now }
{
    for call in calls {
        if call_name(*call) == name {
            return Some(*call);
        }
    }
    None
}

fn constant_among(constants: &[LibraryConstant], name: &[u8]) -> Option<LibraryConstant>
    ensures { result ≡ pure.spelled pure.constant_name constants.now name.now }
{
    for constant in constants {
        if constant_name(*constant) == name {
            return Some(*constant);
        }
    }
    None
}

/// The call of that name.
pub fn call_named(name: &[u8]) -> Option<LibraryCall>
    ensures { result ≡ pure.call_named name.now }
{
    call_among(&CALLS, name)
}

/// The constant of that name.
pub fn constant_named(name: &[u8]) -> Option<LibraryConstant>
    ensures { result ≡ pure.constant_named name.now }
{
    constant_among(&CONSTANTS, name)
}
