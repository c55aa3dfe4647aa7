//! Which conversions are allowed (C99 6.3.2.3, 6.5.4, 6.5.16.1; UPC 6.4.3, 6.5.1.1).

ghost use Rattle.std.specs.Prelude.{◌≡◌};
ghost use Rattle.upc_types.specs.Conversions as pure;
ghost use Rattle.upc_types.specs.Same as same;
ghost use Rattle.upc_types.specs.View.{view, view_base};

use crate::ctype::{Base, CType};
use crate::same::{same_base, same_block};

/// Whether a value of one type converts to the other without a cast; `zero` says that it is the constant 0. Takes no
/// memory.
pub fn assignable(from: &CType, into: &CType, zero: bool) -> bool
    ensures { result ≡ pure.assignable (view from.now) (view into.now) zero }
{
    let (from, into) = (&from.base, &into.base);
    integer_to_integer(from, into)
        || zero_to_pointer(zero, from, into)
        || same_target(from, into)
        || lock_to_lock(from, into)
}

/// Whether a cast converts a value of one type to the other; `zero` says that it is the constant 0. Takes no memory.
pub fn castable(from: &CType, into: &CType, zero: bool) -> bool
    ensures { result ≡ pure.castable (view from.now) (view into.now) zero }
{
    assignable(from, into, zero)
        || to_other_block(&from.base, &into.base)
        || to_private(&from.base, &into.base)
        || is_void(&into.base)
}

/// Whether a value may be given for a parameter of the library of type `shared void *`; `zero` says that it is the
/// constant 0.
pub fn to_shared_void(from: &CType, zero: bool) -> bool
    ensures { result ≡ pure.to_shared_void (view_base from.now.base) zero }
{
    is_shared_pointer(&from.base) || zero && is_integer(&from.base)
}

/// Whether a value may be given for a parameter of the library of type `void *`; `zero` says that it is the constant 0.
pub fn to_void_pointer(from: &CType, zero: bool) -> bool
    ensures { result ≡ pure.to_void_pointer (view_base from.now.base) zero }
{
    is_private_pointer(&from.base) || zero && is_integer(&from.base)
}

/// Whether a type is an integer type.
pub fn is_integer(base: &Base) -> bool
    ensures { result ≡ pure.is_integer (view_base base.now) }
{
    matches!(base, Base::Integer(_))
}

/// Whether a type is void.
pub fn is_void(base: &Base) -> bool
    ensures { result ≡ same.is_void (view_base base.now) }
{
    matches!(base, Base::Void)
}

/// Whether a type is a pointer.
pub fn is_pointer(base: &Base) -> bool
    ensures { result ≡ pure.is_pointer (view_base base.now) }
{
    matches!(base, Base::Pointer(_))
}

/// Whether a type is a lock pointer (UPC 7.2.4).
pub fn is_lock_pointer(base: &Base) -> bool
    ensures { result ≡ pure.is_lock_pointer (view_base base.now) }
{
    match base {
        Base::Pointer(target) => is_lock_object(&target.base),
        _ => false,
    }
}

/// Whether a type is a pointer to a shared object. A lock pointer is none.
pub fn is_shared_pointer(base: &Base) -> bool
    ensures { result ≡ pure.is_shared_pointer (view_base base.now) }
{
    match base {
        Base::Pointer(target) => is_shared(target.shared) && !is_lock_object(&target.base),
        _ => false,
    }
}

/// Whether a type is a pointer to a private object.
pub fn is_private_pointer(base: &Base) -> bool
    ensures { result ≡ pure.is_private_pointer (view_base base.now) }
{
    match base {
        Base::Pointer(target) => !is_shared(target.shared) && !is_lock_object(&target.base),
        _ => false,
    }
}

fn is_lock_object(base: &Base) -> bool
    ensures { result ≡ same.is_lock_object (view_base base.now) }
{
    matches!(base, Base::LockObject)
}

fn is_shared(block: Option<u32>) -> bool
    ensures { result ≡ pure.is_shared block }
{
    block.is_some()
}

fn keeps_const(from: bool, into: bool) -> bool
    ensures { result ≡ pure.keeps_const from into }
{
    !from || into
}

fn integer_to_integer(from: &Base, into: &Base) -> bool
    ensures { result ≡ pure.integer_to_integer (view_base from.now) (view_base into.now) }
{
    is_integer(from) && is_integer(into)
}

fn zero_to_pointer(zero: bool, from: &Base, into: &Base) -> bool
    ensures { result ≡ pure.zero_to_pointer zero (view_base from.now) (view_base into.now) }
{
    zero && is_integer(from) && is_pointer(into)
}

fn same_target(from: &Base, into: &Base) -> bool
    ensures { result ≡ pure.same_target (view_base from.now) (view_base into.now) }
{
    match (from, into) {
        (Base::Pointer(from), Base::Pointer(into)) => {
            same_base(&from.base, &into.base)
                && same_block(from.shared, into.shared)
                && keeps_const(from.constant, into.constant)
        }
        _ => false,
    }
}

fn to_other_block(from: &Base, into: &Base) -> bool
    ensures { result ≡ pure.to_other_block (view_base from.now) (view_base into.now) }
{
    match (from, into) {
        (Base::Pointer(from), Base::Pointer(into)) => {
            same_base(&from.base, &into.base)
                && !is_lock_object(&from.base)
                && is_shared(from.shared)
                && is_shared(into.shared)
                && keeps_const(from.constant, into.constant)
        }
        _ => false,
    }
}

fn to_private(from: &Base, into: &Base) -> bool
    ensures { result ≡ pure.to_private (view_base from.now) (view_base into.now) }
{
    match (from, into) {
        (Base::Pointer(from), Base::Pointer(into)) => {
            same_base(&from.base, &into.base)
                && !is_lock_object(&from.base)
                && is_shared(from.shared)
                && !is_shared(into.shared)
                && keeps_const(from.constant, into.constant)
        }
        _ => false,
    }
}

fn lock_to_lock(from: &Base, into: &Base) -> bool
    ensures { result ≡ pure.lock_to_lock (view_base from.now) (view_base into.now) }
{
    is_lock_pointer(from) && is_lock_pointer(into) && same_target(from, into)
}
