//! Conversions (C99 6.3, 6.5.4; UPC 6.4.3).

ghost use Rattle.std.specs.Prelude.{◌≡◌};
ghost use Rattle.upc_types.specs.View.{view};
ghost use Rattle.typing_rules.specs.layer.Views.{view_target};
ghost use Rattle.typing_rules.specs.Attributes as attributes;
ghost use Rattle.source_meaning.specs.Types as pure;

use crate::types::{integer_of, target_of};
use block_layout::Kind;
use thread_steps::CastTo;
use typing_rules::LibraryParameter;
use upc_types::{Base, CType, promoted, same_block};

// The block of a pointer's target, where it is shared.
fn target_block(target: Option<&CType>) -> Option<u32>
    ensures { result ≡ attributes.target_block (view_target target.entry) }
{
    match target {
        Some(t) => t.shared,
        None => None,
    }
}

// Into a pointer to this target, from a pointer whose target has this block.
fn pointer_conversion(from: Option<u32>, target: &CType) -> CastTo
    ensures { result ≡ pure.pointer_conversion from (view target.now) }
{
    if matches!(target.base, Base::LockObject) {
        CastTo::Lock
    } else if target.shared.is_none() {
        CastTo::Local
    } else if same_block(from, target.shared) {
        CastTo::Shared
    } else {
        CastTo::OtherBlock
    }
}

/// From a value of one type into another type.
pub fn conversion(from: &CType, into: &CType) -> CastTo
    ensures { result ≡ pure.conversion (view from.now) (view into.now) }
{
    match &into.base {
        Base::Integer(kind) => CastTo::Integer(*kind),
        Base::Pointer(target) => pointer_conversion(target_block(target_of(from)), target),
        _ => CastTo::Nothing,
    }
}

/// Into the type of a parameter of the library. A pointer-to-shared keeps its phase there.
pub fn parameter_conversion(parameter: LibraryParameter) -> CastTo
    ensures { result ≡ pure.parameter_conversion parameter }
{
    match parameter {
        LibraryParameter::SharedPointer => CastTo::Shared,
        LibraryParameter::PrivatePointer => CastTo::Local,
        LibraryParameter::LockPointer => CastTo::Lock,
        LibraryParameter::Size => CastTo::Integer(Kind::ULong),
        LibraryParameter::Int | LibraryParameter::NoFunction => CastTo::Integer(Kind::Int),
    }
}

/// The integer promotion of a value of this type (C99 6.3.1.1, 6.5.2.2).
pub fn promotion(t: &CType) -> CastTo
    ensures { result ≡ pure.promotion (view t.now) }
{
    match integer_of(t) {
        Some(kind) => CastTo::Integer(promoted(kind)),
        None => CastTo::Nothing,
    }
}
