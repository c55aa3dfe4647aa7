//! Operators on integers (C99 6.3, 6.5).

ghost use Rattle.std.specs.Prelude.{◌≡◌, ℕ, List, IfOk};
ghost use Rattle.block_layout.specs.declared.kind.Kind.TheVariants as kind;
ghost use Rattle.block_layout.specs.declared.kind.Shape.{Shape};
ghost use Rattle.integers.specs.Integers.{IsPromoted, converted};
ghost use Rattle.thread_steps.specs.Values.{number_of};
ghost use Rattle.thread_steps.specs.layer.Ranges.{IsHeld, IsNumber};
ghost use Rattle.thread_values.specs.layer.Results as results;
ghost use Rattle.thread_values.specs.layer.Results.{IsRightKind};

use crate::values::{number, number_of};
use block_layout::Kind;
use integers::{BinOp, UnOp, binary, convert, unary};
use upc_values::Value;

/// A value as an int (C99 6.3.1.3).
pub fn int_of(v: &Value) -> i32
    requires { IsNumber (number_of v.now) }
    ensures { result ≡ converted kind.Int (number_of v.now) }
{
    convert(number_of(v), Kind::Int) as i32
}

/// What a binary operator gives, the left operand at the kind at which it works and the right one at its own (C99
/// 6.5.5 to 6.5.12), or its run error.
#[inline(always)]
pub fn operated(op: BinOp, left: Kind, right: Kind, a: &Value, b: &Value) -> Result<Value, u8>
    requires left_kind { IsPromoted left }
    requires right_kind { IsPromoted right }
    requires kinds { IsRightKind op left right }
    requires first { IsNumber (number_of a.now) }
    requires second { IsNumber (number_of b.now) }
    ensures value { result ≡ results.operated op left right a.now b.now }
    ensures held { (threads : ℕ) (shapes : List Shape) → IfOk result (IsHeld threads shapes) }
{
    let first = convert(number_of(a), left);
    let second = convert(number_of(b), right);
    match binary(op, left, first, second) {
        Ok(v) => Ok(number(v)),
        Err(code) => Err(code),
    }
}

/// What a unary operator gives on an integer of a kind (C99 6.5.3.3), or its run error.
pub fn applied(op: UnOp, kind: Kind, a: &Value) -> Result<Value, u8>
    requires promoted { IsPromoted kind }
    requires operand { IsNumber (number_of a.now) }
    ensures value { result ≡ results.applied op kind a.now }
    ensures held { (threads : ℕ) (shapes : List Shape) → IfOk result (IsHeld threads shapes) }
{
    let operand = convert(number_of(a), kind);
    Ok(number(unary(op, kind, operand)?))
}
