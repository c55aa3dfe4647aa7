//! The values of constant expressions (C99 6.6).

ghost use Rattle.std.specs.Prelude.{◌≡◌, IfOk};
ghost use Rattle.integers.specs.Integers.{IsInteger, IsPromoted, converted, promoted};
ghost use Rattle.integers.specs.Operators.{binary_of, unary_of};
ghost use Rattle.typing_rules.specs.Constants as pure;
ghost use Rattle.typing_rules.specs.Constants.{IsKindValue, IsWithin};

use block_layout::Kind;
use integers::{BinOp, UnOp, binary, unary};
use typing_rules::Constant;
use typing_rules::constants::{cast_constant, converted, working_kind};
use upc_types::{promoted, usual};

fn right_kind(op: BinOp, a: Kind, b: Kind) -> Kind
    requires left { IsInteger a }
    requires right { IsInteger b }
    ensures value { result ≡ pure.right_kind op a b }
    ensures promoted { IsPromoted result }
{
    match op {
        BinOp::ShiftLeft | BinOp::ShiftRight => promoted(b),
        _ => usual(a, b),
    }
}

fn valued(v: Result<i128, u8>) -> Constant
    requires { IfOk v IsKindValue }
    ensures value { result ≡ pure.known_value v }
    ensures within { IsWithin result }
{
    match v {
        Ok(v) => Constant::Known(v),
        Err(_) => Constant::Undefined,
    }
}

fn binary_known(op: BinOp, a: Kind, b: Kind, v: i128, w: i128) -> Constant
    requires left { IsInteger a }
    requires right { IsInteger b }
    ensures value { result
        ≡ pure.known_value (binary_of op (pure.working_kind op a b)
        (converted (pure.working_kind op a b) v) (converted (pure.right_kind op a b) w)) }
    ensures within { IsWithin result }
{
    let kind = working_kind(op, a, b);
    let left = converted(kind, v);
    let right = converted(right_kind(op, a, b), w);
    valued(binary(op, kind, left, right))
}

/// A binary operator on two constants of these kinds (C99 6.5.5 to 6.5.12).
pub fn binary_constant(op: BinOp, a: Kind, b: Kind, x: Constant, y: Constant) -> Constant
    requires left { IsInteger a }
    requires right { IsInteger b }
    ensures value { result ≡ pure.binary_constant op a b x y }
    ensures within { IsWithin result }
{
    match (x, y) {
        (Constant::Known(v), Constant::Known(w)) => binary_known(op, a, b, v, w),
        (Constant::Known(_), Constant::Undefined)
        | (Constant::Undefined, Constant::Known(_))
        | (Constant::Undefined, Constant::Undefined) => Constant::Undefined,
        _ => Constant::Variable,
    }
}

fn unary_known(op: UnOp, a: Kind, v: i128) -> Constant
    requires { IsInteger a }
    ensures value { result ≡ pure.known_value (unary_of op (promoted a) (converted (promoted a) v)) }
    ensures within { IsWithin result }
{
    let kind = promoted(a);
    valued(unary(op, kind, converted(kind, v)))
}

/// A unary operator on a constant of this kind (C99 6.5.3.3).
pub fn unary_constant(op: UnOp, a: Kind, x: Constant) -> Constant
    requires { IsInteger a }
    ensures value { result ≡ pure.unary_constant op a x }
    ensures within { IsWithin result }
{
    match x {
        Constant::Known(v) => unary_known(op, a, v),
        Constant::Undefined => Constant::Undefined,
        _ => Constant::Variable,
    }
}

fn is_integral(x: Constant) -> bool
    ensures { result ≡ pure.is_integral x }
{
    matches!(x, Constant::Known(_) | Constant::Undefined)
}

// 1 for what is not 0.
fn truth_of(x: Constant) -> Constant
    ensures value { result ≡ pure.truth_constant x }
    ensures within { IsWithin result }
{
    match x {
        Constant::Known(v) => Constant::Known(if v == 0 { 0 } else { 1 }),
        Constant::Undefined => Constant::Undefined,
        _ => Constant::Variable,
    }
}

fn if_integral(x: Constant, chosen: Constant) -> Constant
    requires { IsWithin chosen }
    ensures value { result ≡ pure.if_integral x chosen }
    ensures within { IsWithin result }
{
    if is_integral(x) {
        chosen
    } else {
        Constant::Variable
    }
}

/// `a && b` (C99 6.5.13).
pub fn and_constant(x: Constant, y: Constant) -> Constant
    ensures value { result ≡ pure.and_constant x y }
    ensures within { IsWithin result }
{
    match x {
        Constant::Known(v) => {
            if v == 0 {
                if_integral(y, Constant::Known(0))
            } else {
                truth_of(y)
            }
        }
        Constant::Undefined => if_integral(y, Constant::Undefined),
        _ => Constant::Variable,
    }
}

/// `a || b` (C99 6.5.14).
pub fn or_constant(x: Constant, y: Constant) -> Constant
    ensures value { result ≡ pure.or_constant x y }
    ensures within { IsWithin result }
{
    match x {
        Constant::Known(v) => {
            if v == 0 {
                truth_of(y)
            } else {
                if_integral(y, Constant::Known(1))
            }
        }
        Constant::Undefined => if_integral(y, Constant::Undefined),
        _ => Constant::Variable,
    }
}

/// `test ? a : b` of integers at their common kind (C99 6.5.15).
pub fn choice_constant(kind: Kind, test: Constant, a: Constant, b: Constant) -> Constant
    requires { IsInteger kind }
    ensures value { result ≡ pure.choice_constant kind test a b }
    ensures within { IsWithin result }
{
    if !(is_integral(a) && is_integral(b)) {
        return Constant::Variable;
    }
    match test {
        Constant::Known(v) => cast_constant(kind, if v == 0 { b } else { a }),
        Constant::Undefined => Constant::Undefined,
        _ => Constant::Variable,
    }
}
