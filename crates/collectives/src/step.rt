//! One step of a reduction (UPC 7.3), at any two numbers.

ghost use Rattle.std.specs.Prelude.{◌≡◌, ◌≢◌, ◌≤◌, ◌<◌, ◌^◌, ℤ, true, false, pos, ◌+ℤ◌, ◌*ℤ◌, unsigned_abs, SomeIff};
ghost use Rattle.std.specs.Prelude.{FitsSigned, Ok};
ghost use mir.Syntax.{w128};
ghost use Rattle.integers.specs.Integers.{is_signed, values, converted, brought, promoted, IsInteger, IsPromoted};
ghost use Rattle.integers.specs.Operators.{bits_of};
ghost use Rattle.upc_values.specs.Reductions as said;
ghost use Rattle.collectives.specs.code.Reductions.{reduction_in};

use crate::reduction::Reduction;
use block_layout::Kind;
use block_layout::run_error::SIGNED_OVERFLOW;
use integers::{convert, lies_in, truth};

// The kind after promotion (C99 6.3.1.1).
fn promoted(kind: Kind) -> Kind
    requires { IsInteger kind }
    ensures value { result ≡ promoted kind }
    ensures kept { IsPromoted result }
{
    match kind {
        Kind::Char | Kind::UChar | Kind::Short | Kind::UShort => Kind::Int,
        _ => kind,
    }
}

// Whether a kind has negative values.
fn is_signed(kind: Kind) -> bool
    ensures { result ≡ is_signed kind }
{
    matches!(kind, Kind::Char | Kind::Short | Kind::Int | Kind::Long)
}

// Any number converted to a kind (C99 6.3.1.3).
fn wrapped(kind: Kind, v: i128) -> i128
    requires { IsInteger kind }
    ensures value { result ≡ converted kind v }
    ensures near { unsigned_abs result ≤ 2 ^ 64 }
{
    convert(v.rem_euclid(18_446_744_073_709_551_616), kind)
}

// An exact result at a signed kind, if it has at most 128 bits.
fn signed_result(kind: Kind, exact: Option<i128>) -> Result<i128, u8>
    requires { is_signed kind ≡ true }
    ensures { (z : ℤ) → SomeIff exact (FitsSigned w128 z) z → result ≡ brought kind z }
{
    match exact {
        Some(v) if lies_in(kind, v) => Ok(v),
        _ => Err(SIGNED_OVERFLOW),
    }
}

fn unsigned_sum(kind: Kind, a: i128, b: i128) -> i128
    requires { IsInteger kind }
    ensures { result ≡ converted kind (a +ℤ b) }
{
    wrapped(kind, wrapped(kind, a) + wrapped(kind, b))
}

fn sum(kind: Kind, a: i128, b: i128) -> Result<i128, u8>
    requires { IsPromoted kind }
    ensures { result ≡ brought kind (a +ℤ b) }
{
    if is_signed(kind) {
        signed_result(kind, a.checked_add(b))
    } else {
        Ok(unsigned_sum(kind, a, b))
    }
}

// The product of any two numbers at an unsigned kind: that of what they are converted to.
fn unsigned_product(kind: Kind, a: i128, b: i128) -> i128
    requires promoted { IsPromoted kind }
    requires unsigned { is_signed kind ≡ false }
    ensures { result ≡ converted kind (a *ℤ b) }
{
    let product = class(kind, a) * class(kind, b);
    convert((product % 18_446_744_073_709_551_616) as i128, kind)
}

// Any number converted to an unsigned kind.
fn class(kind: Kind, v: i128) -> u128
    requires promoted { IsPromoted kind }
    requires unsigned { is_signed kind ≡ false }
    ensures value { pos result ≡ converted kind v }
    ensures near { result < 2 ^ 64 }
{
    wrapped(kind, v) as u128
}

fn product(kind: Kind, a: i128, b: i128) -> Result<i128, u8>
    requires { IsPromoted kind }
    ensures { result ≡ brought kind (a *ℤ b) }
{
    if is_signed(kind) {
        signed_result(kind, a.checked_mul(b))
    } else {
        Ok(unsigned_product(kind, a, b))
    }
}

// How many values a promoted kind has.
fn values_of(kind: Kind) -> i128
    requires { IsPromoted kind }
    ensures value { result ≡ pos (values kind) }
    ensures some { result ≢ pos 0 }
{
    match kind {
        Kind::Int | Kind::UInt => 4_294_967_296,
        _ => 18_446_744_073_709_551_616,
    }
}

// The bits of a value in two's complement.
fn bits(kind: Kind, v: i128) -> u64
    requires { IsPromoted kind }
    ensures { result ≡ bits_of kind v }
{
    v.rem_euclid(values_of(kind)) as u64
}

// What an operator gives at two numbers of a promoted kind (C99 6.5).
fn reduced(op: Reduction, kind: Kind, a: i128, b: i128) -> Result<i128, u8>
    requires { IsPromoted kind }
    ensures { result ≡ said.reduced (reduction_in op) kind a b }
{
    match op {
        Reduction::Sum => sum(kind, a, b),
        Reduction::Product => product(kind, a, b),
        Reduction::BitsAnd => Ok(wrapped(kind, i128::from(bits(kind, a) & bits(kind, b)))),
        Reduction::BitsOr => Ok(wrapped(kind, i128::from(bits(kind, a) | bits(kind, b)))),
        Reduction::BitsXor => Ok(wrapped(kind, i128::from(bits(kind, a) ^ bits(kind, b)))),
        Reduction::Both => Ok(truth(a != 0 && b != 0)),
        Reduction::Either => Ok(truth(a != 0 || b != 0)),
        Reduction::Least => Ok(if b < a { b } else { a }),
        Reduction::Greatest => Ok(if b < a { a } else { b }),
    }
}

/// What an operator gives at two numbers: after promotion, then brought back to the elements' type.
pub fn step(op: Reduction, kind: Kind, a: i128, b: i128) -> Result<i128, u8>
    requires { IsInteger kind }
    ensures { result ≡ said.step (reduction_in op) kind a b }
{
    match reduced(op, promoted(kind), a, b) {
        Ok(v) => Ok(wrapped(kind, v)),
        Err(code) => Err(code),
    }
}
