//! The calls of the library, and what a call must meet beside its arguments.

ghost use Rattle.std.specs.Prelude.{◌≡◌};
ghost use Rattle.upc_types.specs.View.{view};
ghost use Rattle.upc_types.specs.ViewStructs.{view_structs};
ghost use Rattle.typing_rules.specs.layer.Views.{view_meaning, view_use};
ghost use Rattle.typing_rules.specs.Nodes.{view_attr};
ghost use Rattle.typing_rules.specs.Rules as rules;

use crate::declarations::shares_private;
use typing_rules::calls::{call_parameters, is_allocation};
use typing_rules::types::is_zero;
use typing_rules::{Attr, LibraryParameter, Meaning, Use};
use upc_types::{Base, CType, Structs, takes_allocation};
use upc_values::LibraryCall;

fn library_takes(call: LibraryCall, n: usize) -> bool
    ensures { result ≡ rules.library_takes call n }
{
    match call {
        LibraryCall::Printf => n > 0,
        _ => n == call_parameters(call).len(),
    }
}

/// Whether a name stands for what can be called with so many arguments.
pub fn can_be_called(meaning: Meaning<'_>, runs: bool, n: usize) -> bool
    ensures { result ≡ rules.can_be_called (view_meaning meaning.entry) runs n }
{
    match meaning {
        Meaning::Function(s) => runs && n == s.parameters.len(),
        Meaning::Library(call) => library_takes(call, n),
        _ => false,
    }
}

/// Whether the argument of this parameter is the constant 0, where it is to be.
pub fn no_function(x: LibraryParameter, a: &Attr) -> bool
    ensures { result ≡ rules.no_function x (view_attr a.now) }
{
    match x {
        LibraryParameter::NoFunction => is_zero(a),
        _ => true,
    }
}

/// Whether it is printf, whose arguments its format judges.
pub fn is_printf(call: LibraryCall) -> bool
    ensures { result ≡ rules.is_printf call }
{
    matches!(call, LibraryCall::Printf)
}

fn is_allocated_at(structs: &Structs, how: Use<'_>) -> bool
    ensures { result ≡ rules.is_allocated_at (view_structs structs.now) (view_use how.entry) }
{
    match how {
        Use::Into(t) => takes_allocation(t, structs),
        _ => false,
    }
}

/// Whether an allocation is converted into a pointer to shared elements.
pub fn allocates_well(structs: &Structs, how: Use<'_>, meaning: Meaning<'_>) -> bool
    ensures { result ≡ rules.allocates_well (view_structs structs.now) (view_use how.entry)
        (view_meaning meaning.entry) }
{
    match meaning {
        Meaning::Library(call) => !is_allocation(call) || is_allocated_at(structs, how),
        _ => true,
    }
}

fn target_shares_private(structs: &Structs, t: &CType) -> bool
    ensures { result ≡ rules.leads_to_private (view_structs structs.now) (view t.now) }
{
    match &t.base {
        Base::Pointer(target) => shares_private(structs, target),
        Base::Array(element, _) => shares_private(structs, element),
        _ => false,
    }
}

fn is_private_at(structs: &Structs, how: Use<'_>) -> bool
    ensures { result ≡ rules.is_private_at (view_structs structs.now) (view_use how.entry) }
{
    match how {
        Use::Into(t) => target_shares_private(structs, t),
        _ => false,
    }
}

/// Whether it allocates elements that hold pointers to private objects.
pub fn allocates_private(structs: &Structs, how: Use<'_>, meaning: Meaning<'_>) -> bool
    ensures { result ≡ rules.allocates_private (view_structs structs.now) (view_use how.entry)
        (view_meaning meaning.entry) }
{
    match meaning {
        Meaning::Library(call) => is_allocation(call) && is_private_at(structs, how),
        _ => false,
    }
}
