//! Members by their names.

ghost use Rattle.std.specs.Prelude.{◌≡◌, ℕ};
ghost use Rattle.upc_types.specs.View.{view};
ghost use Rattle.upc_types.specs.ViewStructs.{view_structs};
ghost use Rattle.typing_rules.specs.layer.Views.{view_target};
ghost use Rattle.typing_rules.specs.Nodes as node;
ghost use Rattle.typing_rules.specs.Nodes.{view_attr};
ghost use Rattle.typing_rules.specs.Rules as rules;
ghost use Rattle.typing_rules.specs.Rules.{lowest};

use typing_rules::Attr;
use typing_rules::types::{gives_void, target_of};
use upc_types::{Base, CType, Structs};

fn names_member(structs: &Structs, t: &CType, name: &[u8]) -> bool
    ensures { result ≡ rules.names_member (view_structs structs.now) (view t.now) name.now }
{
    match &t.base {
        Base::Struct(number) => structs.member_named(*number, name).is_some(),
        _ => false,
    }
}

fn target_names(structs: &Structs, target: Option<&CType>, name: &[u8]) -> bool
    ensures { result ≡ rules.target_names (view_structs structs.now) (view_target target.entry) name.now }
{
    match target {
        Some(t) => names_member(structs, t, name),
        None => false,
    }
}

/// `a.name`.
pub fn member_of(structs: &Structs, a: &Attr, name: &[u8]) -> Option<u8>
    ensures { (threads : ℕ) → result
        ≡ lowest (record { structs = view_structs structs.now; threads = threads })
        (node.MemberOf (view_attr a.now) name.now) }
{
    if gives_void(a) {
        Some(14)
    } else if !names_member(structs, &a.ctype, name) {
        Some(19)
    } else {
        None
    }
}

/// `a->name`.
pub fn member_behind(structs: &Structs, a: &Attr, name: &[u8]) -> Option<u8>
    ensures { (threads : ℕ) → result
        ≡ lowest (record { structs = view_structs structs.now; threads = threads })
        (node.MemberBehind (view_attr a.now) name.now) }
{
    if gives_void(a) {
        Some(14)
    } else if !target_names(structs, target_of(a), name) {
        Some(19)
    } else {
        None
    }
}
