//! The lowest typing rule that nodes with lists of children break.

ghost use Rattle.std.specs.Prelude.{◌≡◌, map};
ghost use Rattle.std.specs.List.{list_any};
ghost use Rattle.upc_types.specs.View.{view};
ghost use Rattle.typed_tree.specs.ViewTree.{attr_seen};
ghost use Rattle.typed_tree.specs.ViewStatements.{attr_tested};
ghost use Rattle.typing_rules.specs.Nodes as node;
ghost use Rattle.typing_rules.specs.Attributes.{Facts};
ghost use Rattle.typing_rules.specs.Rules as rules;
ghost use Rattle.typing_rules.specs.Rules.{lowest};

use typed_tree::{Arm, Expr};
use typing_rules::types::{gives_void, is_scalar};
use typing_rules_checks::conversion::converts;
use typing_rules_checks::declarations::{is_list_type, is_variable};
use upc_types::{Base, CType};

fn any_void(arms: &[Arm]) -> bool
    ensures { result ≡ list_any rules.gives_void (map attr_tested arms.now) }
{
    for arm in arms {
        if gives_void(&arm.test.attr) {
            return true;
        }
    }
    false
}

fn any_unscaled(arms: &[Arm]) -> bool
    ensures { result ≡ list_any rules.is_no_condition (map attr_tested arms.now) }
{
    for arm in arms {
        if !is_scalar(&arm.test.attr) {
            return true;
        }
    }
    false
}

/// The conditions of an `if` with its `else if`s.
pub fn tests(arms: &[Arm]) -> Option<u8>
    ensures { (φ : Facts) → result ≡ lowest φ (node.Tests (map attr_tested arms.now)) }
{
    if any_void(arms) {
        Some(14)
    } else if any_unscaled(arms) {
        Some(22)
    } else {
        None
    }
}

fn any_variable(values: &[Expr]) -> bool
    ensures { result ≡ list_any rules.is_variable (map attr_seen values.now) }
{
    for x in values {
        if is_variable(&x.attr) {
            return true;
        }
    }
    false
}

fn all_fit(t: &CType, values: &[Expr]) -> bool
    ensures { result ≡ rules.all_fit (view t.now) (map attr_seen values.now) }
{
    for x in values {
        if !converts(&x.attr, t) {
            return false;
        }
    }
    true
}

fn elements_take(t: &CType, values: &[Expr]) -> bool
    ensures { result ≡ rules.elements_take (view t.now) (map attr_seen values.now) }
{
    match &t.base {
        Base::Array(element, _) => all_fit(element, values),
        Base::Pointer(target) => all_fit(target, values),
        _ => true,
    }
}

fn has_too_many(t: &CType, values: &[Expr]) -> bool
    ensures { result ≡ rules.has_too_many (view t.now) (map attr_seen values.now) }
{
    match &t.base {
        Base::Array(_, count) => values.len() as u64 > u64::from(*count),
        _ => values.len() > 0,
    }
}

/// An initialiser with braces, of an object or of what is none.
pub fn initial_list(file: bool, object: bool, t: &CType, values: &[Expr]) -> Option<u8>
    ensures { (φ : Facts) → result ≡ lowest φ (node.InitialList file object (view t.now) (map attr_seen values.now)) }
{
    if !(object && is_list_type(t)) || has_too_many(t, values) || (file && any_variable(values)) {
        Some(9)
    } else if !elements_take(t, values) {
        Some(12)
    } else {
        None
    }
}
