//! What calls of the library take and give.

ghost use Rattle.std.specs.Prelude.{◌≡◌};
ghost use Rattle.typing_rules.specs.Library as library;

use crate::library::LibraryParameter;
use LibraryParameter::{Int, LockPointer, NoFunction, PrivatePointer, SharedPointer, Size};
use upc_values::LibraryCall;

/// What a call of the library takes. The arguments of printf are judged by its format.
pub fn call_parameters(call: LibraryCall) -> &'static [LibraryParameter]
    ensures { result.now ≡ library.call_parameters call }
{
    match call {
        LibraryCall::Printf | LibraryCall::GlobalLockAlloc | LibraryCall::AllLockAlloc => &[],
        LibraryCall::ThreadOf
        | LibraryCall::PhaseOf
        | LibraryCall::AddressField
        | LibraryCall::Free
        | LibraryCall::AllFree => &[SharedPointer],
        LibraryCall::AffinitySize => &[Size, Size, Size],
        LibraryCall::GlobalAlloc | LibraryCall::AllAlloc => &[Size, Size],
        LibraryCall::Alloc => &[Size],
        LibraryCall::Lock
        | LibraryCall::LockAttempt
        | LibraryCall::Unlock
        | LibraryCall::LockFree
        | LibraryCall::AllLockFree => &[LockPointer],
        LibraryCall::Memcpy => &[SharedPointer, SharedPointer, Size],
        LibraryCall::Memget => &[PrivatePointer, SharedPointer, Size],
        LibraryCall::Memput => &[SharedPointer, PrivatePointer, Size],
        LibraryCall::Memset => &[SharedPointer, Int, Size],
        LibraryCall::GlobalExit => &[Int],
        LibraryCall::Broadcast
        | LibraryCall::Scatter
        | LibraryCall::Gather
        | LibraryCall::GatherAll
        | LibraryCall::Exchange => &[SharedPointer, SharedPointer, Size, Int],
        LibraryCall::Permute => &[SharedPointer, SharedPointer, SharedPointer, Size, Int],
        LibraryCall::Reduce(_) | LibraryCall::PrefixReduce(_) => {
            &[
                SharedPointer,
                SharedPointer,
                Int,
                Size,
                Size,
                NoFunction,
                Int,
            ]
        }
    }
}

/// Whether a call's result has its type only where it is converted (UPC 7.2.3).
pub fn is_allocation(call: LibraryCall) -> bool
    ensures { result ≡ library.is_allocation call }
{
    matches!(
        call,
        LibraryCall::GlobalAlloc | LibraryCall::AllAlloc | LibraryCall::Alloc
    )
}
