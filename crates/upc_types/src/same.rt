//! Equal types.

ghost use Rattle.std.specs.Prelude.{◌≡◌};
ghost use Rattle.upc_types.specs.Same as pure;
ghost use Rattle.upc_types.specs.View.{view, view_base};

use crate::ctype::{Access, Base, CType};
use crate::target::Target;

/// Whether two types are equal, with all their qualifiers.
pub fn same_type(a: &CType, b: &CType) -> bool
    ensures { result ≡ pure.same_type (view a.now) (view b.now) }
{
    same_qualifiers(a, b) && same_base(&a.base, &b.base)
}

// Whether two types have the same qualifiers of their own.
fn same_qualifiers(a: &CType, b: &CType) -> bool
    ensures { result ≡ pure.same_qualifiers a.now.constant a.now.shared a.now.access b.now.constant
        b.now.shared b.now.access }
{
    a.constant == b.constant && same_block(a.shared, b.shared) && same_access(a.access, b.access)
}

/// Whether both are shared with one block size, or neither is shared.
pub fn same_block(a: Option<u32>, b: Option<u32>) -> bool
    ensures { result ≡ pure.same_block a b }
{
    match (a, b) {
        (None, None) => true,
        (Some(m), Some(n)) => m == n,
        _ => false,
    }
}

/// Whether both say strict, both relaxed, or both neither.
pub(crate) fn same_access(a: Access, b: Access) -> bool
    ensures { result ≡ pure.same_access a b }
{
    match (a, b) {
        (Access::Unsaid, Access::Unsaid) => true,
        (Access::Strict, Access::Strict) => true,
        (Access::Relaxed, Access::Relaxed) => true,
        _ => false,
    }
}

/// Whether two types are equal but for the qualifiers of their own.
pub fn same_base(mut a: &Base, mut b: &Base) -> bool
    ensures { result ≡ pure.same_base (view_base a.now) (view_base b.now) }
{
    loop {
        match (a, b) {
            (Base::Void, Base::Void) => return true,
            (Base::Integer(k), Base::Integer(l)) => return k.is(*l),
            (Base::Struct(m), Base::Struct(n)) => return *m == *n,
            (Base::Array(s, m), Base::Array(t, n)) => {
                if *m != *n || !same_qualifiers(s, t) {
                    return false;
                }
                (a, b) = Target::after_same(s, t);
            }
            (Base::Pointer(s), Base::Pointer(t)) => {
                if !same_qualifiers(s, t) {
                    return false;
                }
                (a, b) = Target::after_same(s, t);
            }
            (Base::LockObject, Base::LockObject) => return true,
            _ => return false,
        }
    }
}
