//! Conversions of the values of expressions. An array is a pointer to its first element.

ghost use Rattle.std.specs.Prelude.{◌≡◌, Bool};
ghost use Rattle.upc_types.specs.Types.{Pointer};
ghost use Rattle.upc_types.specs.Conversions as pure;
ghost use Rattle.upc_types.specs.View.{view, view_base};
ghost use Rattle.typing_rules.specs.Values.{plainly};
ghost use Rattle.typing_rules.specs.Nodes.{view_attr};
ghost use Rattle.typing_rules.specs.Rules as rules;

use typing_rules::types::{counts, gives_void, is_lock, is_shared, is_zero};
use typing_rules::{Attr, LibraryParameter};
use upc_types::{
    Base, CType, assignable, castable, is_lock_pointer, is_void, same_base, same_block,
    to_shared_void, to_void_pointer,
};

fn keeps_const(from: bool, into: bool) -> bool
    ensures { result ≡ pure.keeps_const from into }
{
    !from || into
}

fn array_same_target(element: &CType, into: &Base) -> bool
    ensures { result ≡ pure.same_target (Pointer (view element.now)) (view_base into.now) }
{
    match into {
        Base::Pointer(target) => {
            same_base(&element.base, &target.base)
                && same_block(element.shared, target.shared)
                && keeps_const(element.constant, target.constant)
        }
        _ => false,
    }
}

fn array_lock(element: &CType, into: &Base) -> bool
    ensures { result ≡ pure.lock_to_lock (Pointer (view element.now)) (view_base into.now) }
{
    is_lock(element) && is_lock_pointer(into) && array_same_target(element, into)
}

fn array_to_other_block(element: &CType, into: &Base) -> bool
    ensures { result ≡ pure.to_other_block (Pointer (view element.now)) (view_base into.now) }
{
    match into {
        Base::Pointer(target) => {
            same_base(&element.base, &target.base)
                && !is_lock(element)
                && is_shared(element)
                && is_shared(target)
                && keeps_const(element.constant, target.constant)
        }
        _ => false,
    }
}

fn array_to_private(element: &CType, into: &Base) -> bool
    ensures { result ≡ pure.to_private (Pointer (view element.now)) (view_base into.now) }
{
    match into {
        Base::Pointer(target) => {
            same_base(&element.base, &target.base)
                && !is_lock(element)
                && is_shared(element)
                && !is_shared(target)
                && keeps_const(element.constant, target.constant)
        }
        _ => false,
    }
}

fn array_assigns(element: &CType, into: &CType) -> bool
    ensures { (zero : Bool) → result ≡ pure.assignable (plainly (Pointer (view element.now))) (view into.now) zero }
{
    array_same_target(element, &into.base) || array_lock(element, &into.base)
}

fn array_casts(element: &CType, into: &CType) -> bool
    ensures { (zero : Bool) → result ≡ pure.castable (plainly (Pointer (view element.now))) (view into.now) zero }
{
    array_assigns(element, into)
        || array_to_other_block(element, &into.base)
        || array_to_private(element, &into.base)
        || is_void(&into.base)
}

/// Whether the value converts into the type without a cast.
pub fn converts(a: &Attr, t: &CType) -> bool
    ensures { result ≡ rules.converts (view_attr a.now) (view t.now) }
{
    match &a.ctype.base {
        Base::Array(element, _) => array_assigns(element, t),
        _ => assignable(&a.ctype, t, is_zero(a)),
    }
}

/// Whether a cast converts the value into the type.
pub fn casts(a: &Attr, t: &CType) -> bool
    ensures { result ≡ rules.casts (view_attr a.now) (view t.now) }
{
    match &a.ctype.base {
        Base::Array(element, _) => array_casts(element, t),
        _ => castable(&a.ctype, t, is_zero(a)),
    }
}

fn takes_shared(a: &Attr) -> bool
    ensures { result ≡ rules.takes LibraryParameter.SharedPointer (view_attr a.now) }
{
    match &a.ctype.base {
        Base::Array(element, _) => is_shared(element) && !is_lock(element),
        _ => to_shared_void(&a.ctype, is_zero(a)),
    }
}

fn takes_private(a: &Attr) -> bool
    ensures { result ≡ rules.takes LibraryParameter.PrivatePointer (view_attr a.now) }
{
    match &a.ctype.base {
        Base::Array(element, _) => !is_shared(element) && !is_lock(element),
        _ => to_void_pointer(&a.ctype, is_zero(a)),
    }
}

fn takes_lock(a: &Attr) -> bool
    ensures { result ≡ rules.takes LibraryParameter.LockPointer (view_attr a.now) }
{
    match &a.ctype.base {
        Base::Integer(_) => is_zero(a),
        Base::Pointer(target) => is_plain_lock(target),
        Base::Array(element, _) => is_plain_lock(element),
        _ => false,
    }
}

fn is_plain_lock(t: &CType) -> bool
    ensures { result ≡ rules.leads_to_lock (view t.now) }
{
    is_lock(t) && !is_shared(t) && !t.constant
}

/// Whether the value may be given for a parameter of a library call.
pub fn takes(x: LibraryParameter, a: &Attr) -> bool
    ensures { result ≡ rules.takes x (view_attr a.now) }
{
    match x {
        LibraryParameter::SharedPointer => takes_shared(a),
        LibraryParameter::PrivatePointer => takes_private(a),
        LibraryParameter::LockPointer => takes_lock(a),
        LibraryParameter::Size | LibraryParameter::Int => counts(a),
        LibraryParameter::NoFunction => !gives_void(a),
    }
}
