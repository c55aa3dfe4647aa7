//! The values of constant expressions (C99 6.6).

ghost use Rattle.std.specs.Prelude.{◌≡◌, IfSome};
ghost use Rattle.integers.specs.Integers.{IsInteger, IsPromoted, InKind};
ghost use Rattle.integers.specs.Integers as numbers;
ghost use Rattle.typing_rules.specs.Attributes as attributes;
ghost use Rattle.typing_rules.specs.Constants as pure;
ghost use Rattle.typing_rules.specs.Constants.{IsWithin, NamesWithin};
ghost use Rattle.typing_rules.specs.Nodes.{view_attr};
ghost use Rattle.typing_rules.specs.Rules as rules;

use crate::attribute::{Attr, Constant, Element, Form};
use block_layout::Kind;
use integers::{BinOp, convert};
use upc_types::{Base, promoted, usual};

const ALL: i128 = 18_446_744_073_709_551_616;

/// The number of a kind's range that is congruent to v (C99 6.3.1.3).
pub fn converted(kind: Kind, v: i128) -> i128
    requires integer { IsInteger kind }
    ensures value { result ≡ numbers.converted kind v }
    ensures range { InKind result kind }
{
    convert(v.rem_euclid(ALL), kind)
}

/// The kind at which a binary operator works.
pub fn working_kind(op: BinOp, a: Kind, b: Kind) -> Kind
    requires left { IsInteger a }
    requires right { IsInteger b }
    ensures value { result ≡ pure.working_kind op a b }
    ensures promoted { IsPromoted result }
{
    match op {
        BinOp::ShiftLeft | BinOp::ShiftRight => promoted(a),
        _ => usual(a, b),
    }
}

/// A constant, converted to an integer kind (C99 6.3.1.3).
pub fn cast_constant(kind: Kind, x: Constant) -> Constant
    requires { IsInteger kind }
    ensures value { result ≡ pure.cast_constant kind x }
    ensures within { IsWithin result }
{
    match x {
        Constant::Known(v) => Constant::Known(converted(kind, v)),
        Constant::Undefined => Constant::Undefined,
        _ => Constant::Variable,
    }
}

/// The value with which a `switch` of this kind compares (C99 6.8.4.2).
pub fn label_kind(kind: Option<Kind>, v: i128) -> i128
    requires { IfSome kind IsInteger }
    ensures { result ≡ rules.label_kind kind v }
{
    match kind {
        Some(kind) => converted(promoted(kind), v),
        None => v,
    }
}

/// The address that an expression names.
pub fn address_in(form: Form) -> Constant
    ensures value { result ≡ attributes.address_in form }
    ensures within { NamesWithin form → IsWithin result }
{
    match form {
        Form::Lvalue(address) => address,
        _ => Constant::Variable,
    }
}

fn first_element(count: u32, address: Constant) -> Constant
    ensures value { result ≡ pure.first_element count address }
    ensures within { IsWithin address → IsWithin result }
{
    match address {
        Constant::Address(place, _) => Constant::Address(place, Element { index: 0, count }),
        other => other,
    }
}

/// The constant that an expression's value is.
pub fn constant_of(a: &Attr) -> Constant
    ensures value { result ≡ attributes.constant_of (view_attr a.now) }
    ensures within { IsWithin result }
{
    match &a.ctype.base {
        Base::Array(_, count) => first_element(*count, address_in(a.form)),
        _ => a.constant,
    }
}
