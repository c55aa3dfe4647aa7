//! The lowest typing rule that each node of a statement breaks.

ghost use Rattle.std.specs.Prelude.{◌≡◌, [], ◌∷◌};
ghost use Rattle.typing_rules.specs.layer.Views.{view_around};
ghost use Rattle.typing_rules.specs.Nodes as nodes;
ghost use Rattle.typing_rules.specs.Nodes.{view_attr};
ghost use Rattle.typing_rules.specs.Attributes.{Facts};
ghost use Rattle.typing_rules.specs.Rules as rules;
ghost use Rattle.typing_rules.specs.Rules.{lowest};

use crate::conversion::converts;
use typing_rules::types::{counts, gives_void, is_scalar, is_void_type, leads_to_shared};
use typing_rules::{Around, Attr, Enclosing};

/// The condition of a loop.
pub fn test(a: &Attr) -> Option<u8>
    ensures { (φ : Facts) → result ≡ lowest φ (nodes.Tests (view_attr a.now ∷ [])) }
{
    if gives_void(a) {
        Some(14)
    } else if !is_scalar(a) {
        Some(22)
    } else {
        None
    }
}

/// An affinity.
pub fn affinity(a: &Attr) -> Option<u8>
    ensures { (φ : Facts) → result ≡ lowest φ (nodes.Affinity (view_attr a.now)) }
{
    if gives_void(a) {
        Some(14)
    } else if !(counts(a) || leads_to_shared(a)) {
        Some(23)
    } else {
        None
    }
}

fn jumps_nowhere(breaks: Enclosing) -> bool
    ensures { result ≡ rules.jumps_nowhere breaks }
{
    matches!(breaks, Enclosing::Nothing)
}

fn leaves_forall(breaks: Enclosing) -> bool
    ensures { result ≡ rules.leaves_forall breaks }
{
    matches!(breaks, Enclosing::Forall)
}

/// `break`.
pub fn breaks(around: Around<'_>) -> Option<u8>
    ensures { (φ : Facts) → result ≡ lowest φ (nodes.Break (view_around around.entry)) }
{
    if jumps_nowhere(around.breaks) {
        Some(23)
    } else if leaves_forall(around.breaks) {
        Some(24)
    } else {
        None
    }
}

/// `continue`.
pub fn continues(around: Around<'_>) -> Option<u8>
    ensures { (φ : Facts) → result ≡ lowest φ (nodes.Continue (view_around around.entry)) }
{
    if around.loops { None } else { Some(23) }
}

/// `return` with a value.
pub fn returns(around: Around<'_>, a: &Attr) -> Option<u8>
    ensures { (φ : Facts) → result ≡ lowest φ (nodes.Returns (view_around around.entry) (view_attr a.now)) }
{
    if !is_void_type(around.result) && !converts(a, around.result) {
        Some(12)
    } else if around.forall {
        Some(24)
    } else if is_void_type(around.result) {
        Some(26)
    } else {
        None
    }
}

/// `return` without a value.
pub fn returns_nothing(around: Around<'_>) -> Option<u8>
    ensures { (φ : Facts) → result ≡ lowest φ (nodes.ReturnsNothing (view_around around.entry)) }
{
    if around.forall {
        Some(24)
    } else if !is_void_type(around.result) {
        Some(26)
    } else {
        None
    }
}

/// The value of a notify, a wait or a barrier.
pub fn barrier(a: &Attr) -> Option<u8>
    ensures { (φ : Facts) → result ≡ lowest φ (nodes.Barrier (view_attr a.now)) }
{
    if gives_void(a) {
        Some(14)
    } else if !counts(a) {
        Some(27)
    } else {
        None
    }
}
