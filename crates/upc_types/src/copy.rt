//! Copies of types, which share what is pointed to and the elements of arrays.

ghost use Rattle.std.specs.Prelude.{◌≡◌, IfOk};
ghost use Rattle.upc_types.specs.View.{view, view_base};

use crate::ctype::{Base, CType};
use std::alloc::AllocError as OutOfMemory;

/// A copy of a type. It takes no memory, and is refused only where a target has as many owners as can be counted.
pub fn copy_type(t: &CType) -> Result<CType, OutOfMemory>
    ensures { IfOk result (λ x. view x ≡ view t.now) }
{
    Ok(CType {
        base: copy_base(&t.base)?,
        constant: t.constant,
        shared: t.shared,
        access: t.access,
    })
}

/// A copy of a type without its qualifiers.
pub fn copy_base(base: &Base) -> Result<Base, OutOfMemory>
    ensures { IfOk result (λ x. view_base x ≡ view_base base.now) }
{
    Ok(match base {
        Base::Void => Base::Void,
        Base::Integer(kind) => Base::Integer(*kind),
        Base::Struct(number) => Base::Struct(*number),
        Base::Array(element, count) => Base::Array(element.copy()?, *count),
        Base::Pointer(target) => Base::Pointer(target.copy()?),
        Base::LockObject => Base::LockObject,
    })
}
