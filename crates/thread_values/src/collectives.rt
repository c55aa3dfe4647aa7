//! Collective calls that ask for many actions, by their arguments (UPC 7.3).

ghost use Rattle.std.specs.Prelude.{◌≡◌, true, IfOk, is_some};
ghost use Rattle.upc_values.specs.LibraryCalls as library;
ghost use Rattle.upc_values.specs.LibraryCalls.{with_element};
ghost use Rattle.thread_values.specs.layer.Collectives.{collective_number, scalars_met};

use crate::meetings::scalars;
use std::alloc::Global;
use upc_text::OutOfMemory;
use upc_values::{ElementKind, LibraryCall, Scalar, Value};

/// The number of a collective call that asks for many actions, from 5 to 12.
pub fn collective_number(call: LibraryCall) -> Option<u8>
    ensures { result ≡ collective_number call }
{
    match call {
        LibraryCall::Broadcast => Some(5),
        LibraryCall::Scatter => Some(6),
        LibraryCall::Gather => Some(7),
        LibraryCall::GatherAll => Some(8),
        LibraryCall::Exchange => Some(9),
        LibraryCall::Permute => Some(10),
        LibraryCall::Reduce(_) => Some(11),
        LibraryCall::PrefixReduce(_) => Some(12),
        _ => None,
    }
}

// The number of an element type.
fn element_number(kind: ElementKind) -> u8
    ensures { result ≡ library.element_number kind }
{
    match kind {
        ElementKind::Char => 0,
        ElementKind::UnsignedChar => 1,
        ElementKind::Short => 2,
        ElementKind::UnsignedShort => 3,
        ElementKind::Int => 4,
        ElementKind::UnsignedInt => 5,
        ElementKind::Long => 6,
        ElementKind::UnsignedLong => 7,
    }
}

// The scalars with which all threads meet in a reduction.
fn with_element(
    alloc: Global,
    kind: ElementKind,
    args: &[Value],
) -> Result<Vec<Scalar>, OutOfMemory>
    ensures { IfOk result (λ v. v.items ≡ library.scalars (with_element kind args.now)) }
{
    match *args {
        [dst, src, op, count, block, _, flags] => {
            let number = Value::Scalar(Scalar::Int(i128::from(element_number(kind))));
            scalars(alloc, &[dst, src, op, count, block, number, flags])
        }
        _ => scalars(alloc, args),
    }
}

/// The scalars with which all threads meet in a collective call that asks for many actions.
pub fn scalars_met(
    alloc: Global,
    call: LibraryCall,
    args: &[Value],
) -> Result<Vec<Scalar>, OutOfMemory>
    requires { is_some (collective_number call) ≡ true }
    ensures { IfOk result (λ v. v.items ≡ scalars_met call args.now) }
{
    match call {
        LibraryCall::Reduce(kind) | LibraryCall::PrefixReduce(kind) => {
            with_element(alloc, kind, args)
        }
        _ => scalars(alloc, args),
    }
}
