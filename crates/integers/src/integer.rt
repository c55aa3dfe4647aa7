//! The ranges of the integer kinds, and conversions.

ghost use Rattle.std.specs.Prelude.{◌≡◌, ◌≤◌, ◌<◌, ◌^◌, ◌↔◌, pos, unsigned_abs, IsTrue, IfOk, IfErr, IsErrOf};
ghost use Rattle.block_layout.specs.Floor.{floor_mod};
ghost use Rattle.integers.specs.Integers.{IsLost, is_signed, in_kind, InKind, IsInteger, AreCongruent};
ghost use Rattle.integers.specs.Integers.{converted, brought};

use block_layout::Kind;
use block_layout::run_error::SIGNED_OVERFLOW;

/// A number converted to a kind: the number of the kind's range that is congruent to it (C99 6.3.1.3).
#[inline(always)]
pub fn convert(v: i128, kind: Kind) -> i128
    requires integer { IsInteger kind }
    requires near { unsigned_abs v ≤ 2 ^ 66 }
    ensures value { result ≡ converted kind v }
    ensures range { InKind result kind }
    ensures congruent { AreCongruent result v kind }
{
    wrap(v, kind)
}

// The same for any number that arithmetic can give.
#[inline(always)]
pub fn wrap(v: i128, kind: Kind) -> i128
    requires { unsigned_abs v ≤ 2 ^ 126 }
    ensures value { result ≡ converted kind v }
    ensures range { InKind result kind }
    ensures congruent { AreCongruent result v kind }
    ensures bound { unsigned_abs result ≤ 2 ^ 64 }
{
    taken(low_bits(v), kind)
}

// The lowest 64 bits of a number in two's complement.
#[inline(always)]
pub fn low_bits(v: i128) -> u64
    ensures { result ≡ floor_mod v (2 ^ 64) }
{
    (v.cast_unsigned() & 18_446_744_073_709_551_615) as u64
}

// The number of a kind that has the lowest of these bits, as many as the kind is wide.
#[inline(always)]
pub fn taken(bits: u64, kind: Kind) -> i128
    ensures value { result ≡ converted kind (pos bits) }
    ensures range { InKind result kind }
    ensures bound { unsigned_abs result ≤ 2 ^ 64 }
{
    match kind {
        Kind::Char => i128::from(((bits & 255) as u8).cast_signed()),
        Kind::UChar => i128::from(bits & 255),
        Kind::Short => i128::from(((bits & 65_535) as u16).cast_signed()),
        Kind::UShort => i128::from(bits & 65_535),
        Kind::Int => i128::from(((bits & 4_294_967_295) as u32).cast_signed()),
        Kind::UInt => i128::from(bits & 4_294_967_295),
        Kind::Long => i128::from(bits.cast_signed()),
        Kind::ULong => i128::from(bits),
        _ => 0,
    }
}

// An exact result at a kind: an unsigned one wraps, a signed one has to lie in the range.
#[inline(always)]
pub fn bring(kind: Kind, v: i128) -> Result<i128, u8>
    requires { unsigned_abs v ≤ 2 ^ 126 }
    ensures value { result ≡ brought kind v }
    ensures range { IfOk result (λ r. InKind r kind) }
    ensures overflow { IsErrOf result SIGNED_OVERFLOW ↔ IsLost kind v }
    ensures code { IfErr result (λ code. code ≡ SIGNED_OVERFLOW) }
{
    let near = wrap(v, kind);
    if is_signed(kind) && near != v {
        return Err(SIGNED_OVERFLOW);
    }
    Ok(near)
}

// The same at int, of a number of 64 bits.
#[inline(always)]
pub fn bring_int(v: i64) -> Result<i128, u8>
    ensures value { result ≡ brought Kind.Int v }
    ensures range { IfOk result (λ r. InKind r Kind.Int) }
    ensures overflow { IsErrOf result SIGNED_OVERFLOW ↔ IsLost Kind.Int v }
    ensures code { IfErr result (λ code. code ≡ SIGNED_OVERFLOW) }
{
    let near = ((v.cast_unsigned() & 4_294_967_295) as u32).cast_signed();
    if i64::from(near) != v {
        return Err(SIGNED_OVERFLOW);
    }
    Ok(i128::from(near))
}

// Whether a kind has negative values.
#[inline(always)]
pub fn is_signed(kind: Kind) -> bool
    ensures { result ≡ is_signed kind }
{
    matches!(kind, Kind::Char | Kind::Short | Kind::Int | Kind::Long)
}

/// Whether a number lies in the range of a kind; a kind that is no integer has 0 alone.
#[inline(always)]
pub fn lies_in(kind: Kind, v: i128) -> bool
    ensures value { result ≡ in_kind kind v }
    ensures exact { IsTrue result ↔ InKind v kind }
{
    taken(low_bits(v), kind) == v
}
