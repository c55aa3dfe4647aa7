//! What operators give at integers.

ghost use Rattle.std.specs.Prelude.{◌≡◌, ◌≢◌, ◌≤◌, ◌<◌, ◌^◌, ◌↔◌, ◌⊎◌, pos, ◌+ℤ◌, ◌-ℤ◌, ◌*ℤ◌, ◌≤ℤ◌, ◌<ℤ◌, int_div};
ghost use Rattle.std.specs.Prelude.{int_rem, neg_ℤ, unsigned_abs, IsTrue, IfOk, IfErr, IsErrOf};
ghost use Rattle.integers.specs.Integers.{IsLost, width, InKind, IsPromoted, converted, brought};
ghost use Rattle.integers.specs.Operators.{truth, is_count, quotient_of, remainder_of, left_shift_of};
ghost use Rattle.integers.specs.Operators.{right_shift_of, binary_of, unary_of, binary_kind, unary_kind, RightFits};
ghost use Rattle.integers.specs.Operators.{IsDivision, Overflows, LacksCount};

use crate::integer::{bring, bring_int, is_signed, lies_in, low_bits, taken};
use crate::operator::{BinOp, UnOp};
use block_layout::Kind;
use block_layout::run_error::{SHIFT_RANGE, SIGNED_OVERFLOW, ZERO_DIVISOR};

/// What a binary operator gives at operands of a promoted kind (C99 6.5.5 to 6.5.12). A shift's count may be of any
/// promoted kind. A comparison gives 0 or 1.
///
/// `SIGNED_OVERFLOW` where a signed result does not fit, a negative value is shifted left, or the quotient of a
/// remainder does not fit; `ZERO_DIVISOR`; `SHIFT_RANGE` where a count is negative or at least the width, and no
/// negative value is shifted left.
#[inline(always)]
pub fn binary(op: BinOp, kind: Kind, a: i128, b: i128) -> Result<i128, u8>
    requires promoted { IsPromoted kind }
    requires left { InKind a kind }
    requires right { RightFits op kind b }
    ensures value { result ≡ binary_of op kind a b }
    ensures range { IfOk result (λ r. InKind r (binary_kind op kind)) }
    ensures overflow { IsErrOf result SIGNED_OVERFLOW ↔ Overflows op kind a b }
    ensures zero { IsErrOf result ZERO_DIVISOR ↔ (IsDivision op × (b ≡ pos 0)) }
    ensures count { IsErrOf result SHIFT_RANGE ↔ LacksCount op kind a b }
    ensures codes { IfErr result (λ code. (code ≡ SIGNED_OVERFLOW) ⊎ (code ≡ ZERO_DIVISOR) ⊎ (code ≡ SHIFT_RANGE)) }
{
    match op {
        BinOp::Multiply => product(kind, a, b),
        BinOp::Divide => quotient(kind, a, b),
        BinOp::Remainder => remainder(kind, a, b),
        BinOp::Add => sum(kind, a, b),
        BinOp::Subtract => difference(kind, a, b),
        BinOp::ShiftLeft => shift_left(kind, a, b),
        BinOp::ShiftRight => shift_right(kind, a, b),
        BinOp::Less => Ok(truth(a < b)),
        BinOp::Greater => Ok(truth(a > b)),
        BinOp::LessEqual => Ok(truth(a <= b)),
        BinOp::GreaterEqual => Ok(truth(a >= b)),
        BinOp::Equal => Ok(truth(a == b)),
        BinOp::NotEqual => Ok(truth(a != b)),
        BinOp::BitAnd => Ok(taken(low_bits(a) & low_bits(b), kind)),
        BinOp::BitXor => Ok(taken(low_bits(a) ^ low_bits(b), kind)),
        BinOp::BitOr => Ok(taken(low_bits(a) | low_bits(b), kind)),
    }
}

/// What a unary operator gives at an operand of a promoted kind (C99 6.5.3.3).
///
/// `SIGNED_OVERFLOW` where the result does not fit a signed kind.
pub fn unary(op: UnOp, kind: Kind, a: i128) -> Result<i128, u8>
    requires promoted { IsPromoted kind }
    requires operand { InKind a kind }
    ensures value { result ≡ unary_of op kind a }
    ensures range { IfOk result (λ r. InKind r (unary_kind op kind)) }
    ensures overflow { IsErrOf result SIGNED_OVERFLOW ↔ ((op ≡ UnOp.Minus) × IsLost kind (neg_ℤ a)) }
    ensures code { IfErr result (λ code. code ≡ SIGNED_OVERFLOW) }
{
    match op {
        UnOp::Plus => Ok(a),
        UnOp::Minus => bring(kind, -a),
        UnOp::Complement => bring(kind, -a - 1),
        UnOp::Not => Ok(truth(a == 0)),
    }
}

/// The int 1 or 0.
pub fn truth(holds: bool) -> i128
    ensures value { result ≡ truth holds }
    ensures range { InKind result Kind.Int }
{
    if holds { 1 } else { 0 }
}

// The sum of two values of a kind; of int in 64 bits.
#[inline(always)]
fn sum(kind: Kind, a: i128, b: i128) -> Result<i128, u8>
    requires left { InKind a kind }
    requires right { InKind b kind }
    ensures value { result ≡ brought kind (a +ℤ b) }
    ensures range { IfOk result (λ r. InKind r kind) }
    ensures overflow { IsErrOf result SIGNED_OVERFLOW ↔ IsLost kind (a +ℤ b) }
    ensures code { IfErr result (λ code. code ≡ SIGNED_OVERFLOW) }
{
    match kind {
        Kind::Int => bring_int(a as i64 + b as i64),
        _ => bring(kind, a + b),
    }
}

// Their difference.
#[inline(always)]
fn difference(kind: Kind, a: i128, b: i128) -> Result<i128, u8>
    requires left { InKind a kind }
    requires right { InKind b kind }
    ensures value { result ≡ brought kind (a -ℤ b) }
    ensures range { IfOk result (λ r. InKind r kind) }
    ensures overflow { IsErrOf result SIGNED_OVERFLOW ↔ IsLost kind (a -ℤ b) }
    ensures code { IfErr result (λ code. code ≡ SIGNED_OVERFLOW) }
{
    match kind {
        Kind::Int => bring_int(a as i64 - b as i64),
        _ => bring(kind, a - b),
    }
}

fn product(kind: Kind, a: i128, b: i128) -> Result<i128, u8>
    requires promoted { IsPromoted kind }
    requires left { InKind a kind }
    requires right { InKind b kind }
    ensures value { result ≡ brought kind (a *ℤ b) }
    ensures range { IfOk result (λ r. InKind r kind) }
    ensures overflow { IsErrOf result SIGNED_OVERFLOW ↔ IsLost kind (a *ℤ b) }
    ensures code { IfErr result (λ code. code ≡ SIGNED_OVERFLOW) }
{
    match kind {
        Kind::Int => bring_int(a as i64 * b as i64),
        Kind::Long => bring(kind, signed_product(a, b)),
        _ => Ok(unsigned_product(kind, a, b)),
    }
}

// The product of two numbers of up to 64 bits.
fn signed_product(a: i128, b: i128) -> i128
    requires left { unsigned_abs a ≤ 2 ^ 63 }
    requires right { unsigned_abs b ≤ 2 ^ 63 }
    ensures value { result ≡ a *ℤ b }
    ensures bound { unsigned_abs result ≤ 2 ^ 126 }
{
    a * b
}

// The product of two numbers of up to 64 bits that are not negative, converted to a kind.
fn unsigned_product(kind: Kind, a: i128, b: i128) -> i128
    requires left { (pos 0 ≤ℤ a) × (a <ℤ pos (2 ^ 64)) }
    requires right { (pos 0 ≤ℤ b) × (b <ℤ pos (2 ^ 64)) }
    ensures value { result ≡ converted kind (a *ℤ b) }
    ensures range { InKind result kind }
{
    taken((a as u64).wrapping_mul(b as u64), kind)
}

fn quotient(kind: Kind, a: i128, b: i128) -> Result<i128, u8>
    requires promoted { IsPromoted kind }
    requires left { InKind a kind }
    requires right { InKind b kind }
    ensures value { result ≡ quotient_of kind a b }
    ensures range { IfOk result (λ r. InKind r kind) }
    ensures overflow { IsErrOf result SIGNED_OVERFLOW ↔ Overflows BinOp.Divide kind a b }
    ensures zero { IsErrOf result ZERO_DIVISOR ↔ (b ≡ pos 0) }
    ensures codes { IfErr result (λ code. (code ≡ SIGNED_OVERFLOW) ⊎ (code ≡ ZERO_DIVISOR)) }
{
    if b == 0 {
        return Err(ZERO_DIVISOR);
    }
    bring(kind, divided(kind, a, b))
}

// The quotient, rounded towards zero: in 64 bits, but for that of the least number of 64 bits by -1.
fn divided(kind: Kind, a: i128, b: i128) -> i128
    requires left { InKind a kind }
    requires right { InKind b kind }
    requires divisor { b ≢ pos 0 }
    ensures value { result ≡ int_div a b }
    ensures bound { unsigned_abs result ≤ unsigned_abs a }
{
    match kind {
        Kind::Int | Kind::UInt => i128::from(a as i64 / b as i64),
        Kind::ULong => i128::from(a as u64 / b as u64),
        Kind::Long if b != -1 => i128::from(a as i64 / b as i64),
        _ => a / b,
    }
}

fn remainder(kind: Kind, a: i128, b: i128) -> Result<i128, u8>
    requires promoted { IsPromoted kind }
    requires left { InKind a kind }
    requires right { InKind b kind }
    ensures value { result ≡ remainder_of kind a b }
    ensures range { IfOk result (λ r. InKind r kind) }
    ensures overflow { IsErrOf result SIGNED_OVERFLOW ↔ Overflows BinOp.Remainder kind a b }
    ensures zero { IsErrOf result ZERO_DIVISOR ↔ (b ≡ pos 0) }
    ensures codes { IfErr result (λ code. (code ≡ SIGNED_OVERFLOW) ⊎ (code ≡ ZERO_DIVISOR)) }
{
    if b == 0 {
        return Err(ZERO_DIVISOR);
    }
    if !lies_in(kind, divided(kind, a, b)) {
        return Err(SIGNED_OVERFLOW);
    }
    Ok(left_over(kind, a, b))
}

// What the quotient rounded towards zero leaves.
fn left_over(kind: Kind, a: i128, b: i128) -> i128
    requires left { InKind a kind }
    requires right { InKind b kind }
    requires divisor { b ≢ pos 0 }
    ensures value { result ≡ int_rem a b }
{
    match kind {
        Kind::Int | Kind::UInt => i128::from(a as i64 % b as i64),
        Kind::ULong => i128::from(a as u64 % b as u64),
        Kind::Long if b != -1 => i128::from(a as i64 % b as i64),
        _ => a % b,
    }
}

fn shift_left(kind: Kind, a: i128, b: i128) -> Result<i128, u8>
    requires promoted { IsPromoted kind }
    requires left { InKind a kind }
    ensures value { result ≡ left_shift_of kind a b }
    ensures range { IfOk result (λ r. InKind r kind) }
    ensures overflow { IsErrOf result SIGNED_OVERFLOW ↔ Overflows BinOp.ShiftLeft kind a b }
    ensures count { IsErrOf result SHIFT_RANGE ↔ LacksCount BinOp.ShiftLeft kind a b }
    ensures codes { IfErr result (λ code. (code ≡ SIGNED_OVERFLOW) ⊎ (code ≡ SHIFT_RANGE)) }
{
    if a < 0 {
        return Err(SIGNED_OVERFLOW);
    }
    if !is_count(kind, b) {
        return Err(SHIFT_RANGE);
    }
    let factor = i128::from(power_of_two(b as u32));
    if is_signed(kind) {
        bring(kind, signed_product(a, factor))
    } else {
        Ok(unsigned_product(kind, a, factor))
    }
}

// 2 to the count.
fn power_of_two(count: u32) -> u64
    requires { count < 64 }
    ensures value { result ≡ 2 ^ count }
    ensures bound { result ≤ 2 ^ 63 }
    ensures some { 0 < result }
{
    1 << count
}

fn shift_right(kind: Kind, a: i128, b: i128) -> Result<i128, u8>
    requires promoted { IsPromoted kind }
    requires left { InKind a kind }
    ensures value { result ≡ right_shift_of kind a b }
    ensures range { IfOk result (λ r. InKind r kind) }
    ensures count { IsErrOf result SHIFT_RANGE ↔ LacksCount BinOp.ShiftRight kind a b }
    ensures codes { IfErr result (λ code. code ≡ SHIFT_RANGE) }
{
    if !is_count(kind, b) {
        return Err(SHIFT_RANGE);
    }
    match kind {
        Kind::Int | Kind::Long => Ok(i128::from(a as i64 >> b as u32)),
        _ => Ok(i128::from(a as u64 >> b as u32)),
    }
}

// Whether a number is a count of bits below the width of a kind.
fn is_count(kind: Kind, b: i128) -> bool
    requires { IsPromoted kind }
    ensures value { result ≡ is_count kind b }
    ensures bound { IsTrue result → unsigned_abs b < 64 }
{
    let width = if matches!(kind, Kind::Int | Kind::UInt) {
        32
    } else {
        64
    };
    0 <= b && b < width
}
