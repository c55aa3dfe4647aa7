//! The size of a type (C99 6.5.3.4).

ghost use Rattle.std.specs.Prelude.{◌≡◌, ◌<◌, ◌≤◌, true};
ghost use Rattle.upc_types.specs.Layout as pure;
ghost use Rattle.upc_types.specs.View.{view, view_base};
ghost use Rattle.upc_types.specs.Conversions.{takes_allocation};
ghost use Rattle.upc_types.specs.ViewStructs.{view_structs};

use crate::conversion::is_shared_pointer;
use crate::ctype::{Base, CType};
use crate::structs::Structs;

/// The bytes of a type: from 1 to 16,777,216. Takes no memory.
pub fn size_of(t: &CType, structs: &Structs) -> u32
    requires complete { pure.is_complete (view_structs structs.now) (view t.now) ≡ true }
    requires few { pure.size (view_structs structs.now) (view t.now) ≤ pure.most_bytes }
    ensures value { result ≡ pure.size (view_structs structs.now) (view t.now) }
    ensures low { 0 < result }
    ensures high { result ≤ pure.most_bytes }
{
    match structs.layout_of(&t.base) {
        Some(layout) => layout.size,
        None => 0,
    }
}

/// Whether the result of an allocation call may become a value of this type: a pointer-to-shared to a complete type.
pub fn takes_allocation(into: &CType, structs: &Structs) -> bool
    ensures { result ≡ takes_allocation (view_structs structs.now) (view_base into.now.base) }
{
    match &into.base {
        Base::Pointer(target) => {
            is_shared_pointer(&into.base) && structs.is_complete(&target.base)
        }
        _ => false,
    }
}
