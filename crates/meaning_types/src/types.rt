//! What a value of a type is.

ghost use Rattle.std.specs.Prelude.{◌≡◌, IfSome};
ghost use Rattle.integers.specs.Integers.{IsInteger};
ghost use Rattle.upc_types.specs.Types.{base_of};
ghost use Rattle.upc_types.specs.View.{view};
ghost use Rattle.upc_types.specs.ViewStructs.{view_structs};
ghost use Rattle.typing_rules.specs.layer.Views.{view_target};
ghost use Rattle.source_meaning.specs.Statements as statements;
ghost use Rattle.source_meaning.specs.Types as pure;

use block_layout::Kind;
use typing_rules::types::base_kind;
use upc_types::{Access, Base, CType, Structs};

/// What a value of this type points to, an array being the pointer to its first element (C99 6.3.2.1).
pub fn target_of(t: &CType) -> Option<&CType>
    ensures { view_target result ≡ pure.target_of (view t.now) }
{
    match &t.base {
        Base::Pointer(target) => Some(target),
        Base::Array(element, _) => Some(element),
        _ => None,
    }
}

/// The kind of an integer type.
pub fn integer_of(t: &CType) -> Option<Kind>
    ensures value { result ≡ pure.integer_of (view t.now) }
    ensures integer { IfSome result IsInteger }
{
    base_kind(&t.base)
}

/// Whether an access to an object of this type is strict: by the type, else by the block that it stands in (UPC
/// 6.5.1.1, 6.7).
pub fn is_strict(block: bool, t: &CType) -> bool
    ensures { result ≡ pure.is_strict block (view t.now) }
{
    match t.access {
        Access::Unsaid => block,
        Access::Strict => true,
        Access::Relaxed => false,
    }
}

/// The kind of the cell of a scalar; an array or a struct has none of its own.
pub fn cell_kind(structs: &Structs, t: &CType) -> Option<Kind>
    ensures { result ≡ pure.cell_kind (view_structs structs.now) (view t.now) }
{
    match &t.base {
        Base::Integer(kind) => Some(*kind),
        Base::Pointer(target) => Some(structs.pointer_kind(target)),
        _ => None,
    }
}

/// The type of the elements of an array.
pub fn element_type(t: &CType) -> &CType
    ensures { view result.now ≡ statements.element_type (base_of (view t.now)) (view t.now) }
{
    match &t.base {
        Base::Array(element, _) => element,
        _ => t,
    }
}
