//! The bytes before members (C99 6.7.2.1).

ghost use Rattle.std.specs.Prelude.{◌≡◌};
ghost use Rattle.upc_types.specs.Layout as layout;
ghost use Rattle.upc_types.specs.View.{view};
ghost use Rattle.upc_types.specs.ViewStructs.{view_structs};
ghost use Rattle.typing_rules.specs.layer.Views.{view_target};
ghost use Rattle.source_meaning.specs.Types as pure;
ghost use Rattle.source_meaning.specs.layer.Parts as parts;

use upc_types::{Base, CType, Structs};

// The bytes before a member of a struct, by their numbers; one that is incomplete has no members.
fn offset_in(structs: &Structs, number: u32, index: u32) -> u32
    ensures { result ≡ layout.member_offset (view_structs structs.now) number index }
{
    if structs.is_complete(&Base::Struct(number)) {
        structs.member_offset(number, index)
    } else {
        0
    }
}

/// The bytes before a member of a struct of this type.
pub fn member_offset(structs: &Structs, t: &CType, index: u32) -> u32
    ensures { result ≡ pure.member_offset (view_structs structs.now) (view t.now) index }
{
    match t.base {
        Base::Struct(number) => offset_in(structs, number, index),
        _ => 0,
    }
}

/// The bytes before a member of the struct that a pointer leads to.
pub fn target_offset(structs: &Structs, target: Option<&CType>, index: u32) -> u32
    ensures { result ≡ parts.target_offset (view_structs structs.now) index (view_target target.entry) }
{
    match target {
        Some(t) => member_offset(structs, t, index),
        None => 0,
    }
}
