//! Integer constants (C99 6.4.4.1).
ghost use Rattle.std.specs.Prelude.{◌≡◌, ◌<◌, ◌^◌, IfOk, IfErr, SomeIff};
ghost use Rattle.std.specs.List.{prefix_len};
ghost use Rattle.upc_lexer.specs.Numbers.{is_digit_in, radix, digit_value, value_in, is_u, is_l, is_ll, suffix_of};
ghost use Rattle.upc_lexer.specs.Numbers.{kinds, greatest, kind_of, IsNumber, RefusesNumber};
ghost use Rattle.upc_lexer.specs.code.NumberParts.{base_of, behind_prefix};

use crate::bytes::is_digit;
use crate::token::NumberKind;
use upc_text::Code;

#[derive(Clone, Copy)]
pub(crate) enum Base {
    Decimal,
    Octal,
    Hexadecimal,
}

/// What stands after the digits: whether there is `u`, and whether there is `l` or `ll`.
#[derive(Clone, Copy)]
pub(crate) struct Suffix {
    pub(crate) unsigned: bool,
    pub(crate) long: bool,
}

/// The base, and what stands after its prefix.
fn split_base(text: &[u8]) -> (Base, &[u8])
    ensures base { result.0 ≡ base_of text.now }
    ensures rest { result.1.now ≡ behind_prefix text.now }
{
    match text {
        [b'0', b'x' | b'X', rest @ ..] => (Base::Hexadecimal, rest),
        [b'0', ..] => (Base::Octal, text),
        _ => (Base::Decimal, text),
    }
}

fn radix(base: Base) -> u64
    ensures { result ≡ radix base }
{
    match base {
        Base::Decimal => 10,
        Base::Octal => 8,
        Base::Hexadecimal => 16,
    }
}

fn is_digit_in(base: Base, byte: u8) -> bool
    ensures { result ≡ is_digit_in base byte }
{
    match base {
        Base::Decimal => is_digit(byte),
        Base::Octal => b'0' <= byte && byte <= b'7',
        Base::Hexadecimal => byte.is_ascii_hexdigit(),
    }
}

/// The value of a hexadecimal digit.
fn digit_value(byte: u8) -> u8
    ensures { result ≡ digit_value byte }
{
    if is_digit(byte) {
        byte - b'0'
    } else if byte >= b'a' {
        byte - b'a' + 10
    } else {
        byte.saturating_sub(b'A' - 10)
    }
}

/// How many digits of the base stand at the front.
fn digit_count(base: Base, bytes: &[u8]) -> usize
    ensures { result ≡ prefix_len (is_digit_in base) bytes.now }
{
    bytes
        .iter()
        .take_while(|byte| is_digit_in(base, **byte))
        .count()
}

fn is_u(byte: u8) -> bool
    ensures { result ≡ is_u byte }
{
    matches!(byte, b'u' | b'U')
}

fn is_l(byte: u8) -> bool
    ensures { result ≡ is_l byte }
{
    matches!(byte, b'l' | b'L')
}

/// `ll` or `LL`.
fn is_ll(first: u8, second: u8) -> bool
    ensures { result ≡ is_ll first second }
{
    matches!((first, second), (b'l', b'l') | (b'L', b'L'))
}

fn suffix_of(text: &[u8]) -> Option<Suffix>
    ensures { result ≡ suffix_of text.now }
{
    match text {
        [] => Some(Suffix {
            unsigned: false,
            long: false,
        }),
        [a] if is_u(*a) => Some(Suffix {
            unsigned: true,
            long: false,
        }),
        [a] if is_l(*a) => Some(Suffix {
            unsigned: false,
            long: true,
        }),
        [a, b] if is_u(*a) && is_l(*b) || is_l(*a) && is_u(*b) => Some(Suffix {
            unsigned: true,
            long: true,
        }),
        [a, b] if is_ll(*a, *b) => Some(Suffix {
            unsigned: false,
            long: true,
        }),
        [a, b, c] if is_u(*a) && is_ll(*b, *c) || is_ll(*a, *b) && is_u(*c) => Some(Suffix {
            unsigned: true,
            long: true,
        }),
        _ => None,
    }
}

fn kinds(base: Base, suffix: Suffix) -> &'static [NumberKind]
    ensures { result.now ≡ kinds base suffix }
{
    match (base, suffix.unsigned, suffix.long) {
        (Base::Decimal, false, false) => &[NumberKind::Int, NumberKind::Long],
        (_, false, false) => &[
            NumberKind::Int,
            NumberKind::UInt,
            NumberKind::Long,
            NumberKind::ULong,
        ],
        (Base::Decimal, false, true) => &[NumberKind::Long],
        (_, false, true) => &[NumberKind::Long, NumberKind::ULong],
        (_, true, false) => &[NumberKind::UInt, NumberKind::ULong],
        (_, true, true) => &[NumberKind::ULong],
    }
}

fn greatest(kind: NumberKind) -> u64
    ensures { result ≡ greatest kind }
{
    match kind {
        NumberKind::Int => i32::MAX as u64,
        NumberKind::UInt => u32::MAX as u64,
        NumberKind::Long => i64::MAX as u64,
        NumberKind::ULong => u64::MAX,
    }
}

fn kind_of(base: Base, suffix: Suffix, value: u64) -> Option<NumberKind>
    ensures { result ≡ kind_of base suffix value }
{
    kinds(base, suffix)
        .iter()
        .copied()
        .find(|kind| value <= greatest(*kind))
}

fn value_in(base: Base, digits: &[u8]) -> Option<u64>
    ensures { SomeIff result (value_in base digits.now < 2 ^ 64) (value_in base digits.now) }
{
    let mut value: u64 = 0;
    for digit in digits {
        let shifted = value.checked_mul(radix(base))?;
        value = shifted.checked_add(digit_value(*digit) as u64)?;
    }
    Some(value)
}

/// The value and the type of a number. `Code::Lex` says that it is no constant, `Code::Limit(2)` that its value has no
/// type.
pub(crate) fn number(text: &[u8]) -> Result<(u64, NumberKind), Code>
    ensures ok { IfOk result (λ r. IsNumber text.now r.0 r.1) }
    ensures err { IfErr result (RefusesNumber text.now) }
{
    let (base, unprefixed) = split_base(text);
    let count = digit_count(base, unprefixed);
    if count == 0 {
        return Err(Code::Lex);
    }
    let (digits, tail) = unprefixed.split_at(count);
    let Some(suffix) = suffix_of(tail) else {
        return Err(Code::Lex);
    };
    let Some(value) = value_in(base, digits) else {
        return Err(Code::Limit(2));
    };
    match kind_of(base, suffix, value) {
        Some(kind) => Ok((value, kind)),
        None => Err(Code::Limit(2)),
    }
}
