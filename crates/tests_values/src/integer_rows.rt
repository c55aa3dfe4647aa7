//! C99's conversions, unary operators, comparisons, bitwise operators and operators on operands of two kinds, at the
//! edges of the integer kinds, as gcc answers them.
//!
//! The rows are what conformance/tables/integers.c prints, built by gcc 12.2.0 for x86-64 with
//! `-std=c99 -O0 -fsigned-char`. Where C99 leaves a result undefined, the row has the run error that stands for it.
//! Where C99 leaves a result to the compiler, it is gcc's.

use block_layout::Kind;
use block_layout::run_error::{SHIFT_RANGE, SIGNED_OVERFLOW, ZERO_DIVISOR};
use integers::{BinOp, UnOp, binary, convert, lies_in, unary};

/// What an operator gives: a value, or the code of a run error.
pub type Answer = Result<i128, u8>;

// The limits of the wide kinds, by their names in C (C99 5.2.4.2.1).
pub const INT_MIN: i128 = -2_147_483_648;

pub const INT_MAX: i128 = 2_147_483_647;

pub const UINT_MAX: i128 = 4_294_967_295;

pub const LONG_MIN: i128 = -9_223_372_036_854_775_808;

pub const LONG_MAX: i128 = 9_223_372_036_854_775_807;

pub const ULONG_MAX: i128 = 18_446_744_073_709_551_615;

/// The run error of a signed result that does not fit.
pub const OVERFLOW: Answer = Err(SIGNED_OVERFLOW);

/// The run error of a quotient or a remainder by 0.
pub const BY_ZERO: Answer = Err(ZERO_DIVISOR);

/// The run error of a shift by a count that is negative or at least the width.
pub const BAD_COUNT: Answer = Err(SHIFT_RANGE);

/// What a binary operator gives; `None` where the kind is not promoted, or an operand is none that the operator takes.
pub fn binary_at(op: BinOp, kind: Kind, a: i128, b: i128) -> Option<Answer> {
    if !matches!(kind, Kind::Int | Kind::UInt | Kind::Long | Kind::ULong) || !lies_in(kind, a) {
        return None;
    }
    let fits = match op {
        BinOp::ShiftLeft | BinOp::ShiftRight => lies_in(Kind::Long, b) || lies_in(Kind::ULong, b),
        _ => lies_in(kind, b),
    };
    if !fits {
        return None;
    }
    Some(binary(op, kind, a, b))
}

/// What a unary operator gives; `None` where the kind is not promoted, or has no such value.
pub fn unary_at(op: UnOp, kind: Kind, a: i128) -> Option<Answer> {
    if !matches!(kind, Kind::Int | Kind::UInt | Kind::Long | Kind::ULong) || !lies_in(kind, a) {
        return None;
    }
    Some(unary(op, kind, a))
}

/// A value of any kind, converted; `None` where no kind has the value, or the kind is no integer's.
pub fn converted(v: i128, kind: Kind) -> Option<i128> {
    if matches!(kind, Kind::Shared(_, _) | Kind::Lock | Kind::Private(_)) {
        return None;
    }
    if !lies_in(Kind::Long, v) && !lies_in(Kind::ULong, v) {
        return None;
    }
    Some(convert(v, kind))
}

// The same, of operands that are converted first. A shift's count is not.
fn mixed_at(op: BinOp, kind: Kind, a: i128, b: i128) -> Option<Answer> {
    let left = converted(a, kind)?;
    let right = match op {
        BinOp::ShiftLeft | BinOp::ShiftRight => b,
        _ => converted(b, kind)?,
    };
    binary_at(op, kind, left, right)
}

// Whether each operator of a group gives its value.
fn give(ops: &[BinOp], kind: Kind, a: i128, b: i128, wants: &[i128]) -> bool {
    ops.len() == wants.len()
        && ops
            .iter()
            .zip(wants)
            .all(|(op, want)| binary_at(*op, kind, a, b) == Some(Ok(*want)))
}

// A value, the kind that it is converted to, and what that gives (C99 6.3.1.3).
const CONVERSIONS: [(i128, Kind, i128); 208] = [
    (0, Kind::Char, 0),
    (0, Kind::UChar, 0),
    (0, Kind::Short, 0),
    (0, Kind::UShort, 0),
    (0, Kind::Int, 0),
    (0, Kind::UInt, 0),
    (0, Kind::Long, 0),
    (0, Kind::ULong, 0),
    (1, Kind::Char, 1),
    (1, Kind::UChar, 1),
    (1, Kind::Short, 1),
    (1, Kind::UShort, 1),
    (1, Kind::Int, 1),
    (1, Kind::UInt, 1),
    (1, Kind::Long, 1),
    (1, Kind::ULong, 1),
    (-1, Kind::Char, -1),
    (-1, Kind::UChar, 255),
    (-1, Kind::Short, -1),
    (-1, Kind::UShort, 65_535),
    (-1, Kind::Int, -1),
    (-1, Kind::UInt, UINT_MAX),
    (-1, Kind::Long, -1),
    (-1, Kind::ULong, ULONG_MAX),
    (-128, Kind::Char, -128),
    (-128, Kind::UChar, 128),
    (-128, Kind::Short, -128),
    (-128, Kind::UShort, 65_408),
    (-128, Kind::Int, -128),
    (-128, Kind::UInt, 4_294_967_168),
    (-128, Kind::Long, -128),
    (-128, Kind::ULong, 18_446_744_073_709_551_488),
    (-129, Kind::Char, 127),
    (-129, Kind::UChar, 127),
    (-129, Kind::Short, -129),
    (-129, Kind::UShort, 65_407),
    (-129, Kind::Int, -129),
    (-129, Kind::UInt, 4_294_967_167),
    (-129, Kind::Long, -129),
    (-129, Kind::ULong, 18_446_744_073_709_551_487),
    (127, Kind::Char, 127),
    (127, Kind::UChar, 127),
    (127, Kind::Short, 127),
    (127, Kind::UShort, 127),
    (127, Kind::Int, 127),
    (127, Kind::UInt, 127),
    (127, Kind::Long, 127),
    (127, Kind::ULong, 127),
    (128, Kind::Char, -128),
    (128, Kind::UChar, 128),
    (128, Kind::Short, 128),
    (128, Kind::UShort, 128),
    (128, Kind::Int, 128),
    (128, Kind::UInt, 128),
    (128, Kind::Long, 128),
    (128, Kind::ULong, 128),
    (255, Kind::Char, -1),
    (255, Kind::UChar, 255),
    (255, Kind::Short, 255),
    (255, Kind::UShort, 255),
    (255, Kind::Int, 255),
    (255, Kind::UInt, 255),
    (255, Kind::Long, 255),
    (255, Kind::ULong, 255),
    (256, Kind::Char, 0),
    (256, Kind::UChar, 0),
    (256, Kind::Short, 256),
    (256, Kind::UShort, 256),
    (256, Kind::Int, 256),
    (256, Kind::UInt, 256),
    (256, Kind::Long, 256),
    (256, Kind::ULong, 256),
    (-32_768, Kind::Char, 0),
    (-32_768, Kind::UChar, 0),
    (-32_768, Kind::Short, -32_768),
    (-32_768, Kind::UShort, 32_768),
    (-32_768, Kind::Int, -32_768),
    (-32_768, Kind::UInt, 4_294_934_528),
    (-32_768, Kind::Long, -32_768),
    (-32_768, Kind::ULong, 18_446_744_073_709_518_848),
    (-32_769, Kind::Char, -1),
    (-32_769, Kind::UChar, 255),
    (-32_769, Kind::Short, 32_767),
    (-32_769, Kind::UShort, 32_767),
    (-32_769, Kind::Int, -32_769),
    (-32_769, Kind::UInt, 4_294_934_527),
    (-32_769, Kind::Long, -32_769),
    (-32_769, Kind::ULong, 18_446_744_073_709_518_847),
    (32_767, Kind::Char, -1),
    (32_767, Kind::UChar, 255),
    (32_767, Kind::Short, 32_767),
    (32_767, Kind::UShort, 32_767),
    (32_767, Kind::Int, 32_767),
    (32_767, Kind::UInt, 32_767),
    (32_767, Kind::Long, 32_767),
    (32_767, Kind::ULong, 32_767),
    (32_768, Kind::Char, 0),
    (32_768, Kind::UChar, 0),
    (32_768, Kind::Short, -32_768),
    (32_768, Kind::UShort, 32_768),
    (32_768, Kind::Int, 32_768),
    (32_768, Kind::UInt, 32_768),
    (32_768, Kind::Long, 32_768),
    (32_768, Kind::ULong, 32_768),
    (65_535, Kind::Char, -1),
    (65_535, Kind::UChar, 255),
    (65_535, Kind::Short, -1),
    (65_535, Kind::UShort, 65_535),
    (65_535, Kind::Int, 65_535),
    (65_535, Kind::UInt, 65_535),
    (65_535, Kind::Long, 65_535),
    (65_535, Kind::ULong, 65_535),
    (65_536, Kind::Char, 0),
    (65_536, Kind::UChar, 0),
    (65_536, Kind::Short, 0),
    (65_536, Kind::UShort, 0),
    (65_536, Kind::Int, 65_536),
    (65_536, Kind::UInt, 65_536),
    (65_536, Kind::Long, 65_536),
    (65_536, Kind::ULong, 65_536),
    (INT_MIN, Kind::Char, 0),
    (INT_MIN, Kind::UChar, 0),
    (INT_MIN, Kind::Short, 0),
    (INT_MIN, Kind::UShort, 0),
    (INT_MIN, Kind::Int, INT_MIN),
    (INT_MIN, Kind::UInt, 2_147_483_648),
    (INT_MIN, Kind::Long, INT_MIN),
    (INT_MIN, Kind::ULong, 18_446_744_071_562_067_968),
    (-2_147_483_649, Kind::Char, -1),
    (-2_147_483_649, Kind::UChar, 255),
    (-2_147_483_649, Kind::Short, -1),
    (-2_147_483_649, Kind::UShort, 65_535),
    (-2_147_483_649, Kind::Int, INT_MAX),
    (-2_147_483_649, Kind::UInt, INT_MAX),
    (-2_147_483_649, Kind::Long, -2_147_483_649),
    (-2_147_483_649, Kind::ULong, 18_446_744_071_562_067_967),
    (INT_MAX, Kind::Char, -1),
    (INT_MAX, Kind::UChar, 255),
    (INT_MAX, Kind::Short, -1),
    (INT_MAX, Kind::UShort, 65_535),
    (INT_MAX, Kind::Int, INT_MAX),
    (INT_MAX, Kind::UInt, INT_MAX),
    (INT_MAX, Kind::Long, INT_MAX),
    (INT_MAX, Kind::ULong, INT_MAX),
    (2_147_483_648, Kind::Char, 0),
    (2_147_483_648, Kind::UChar, 0),
    (2_147_483_648, Kind::Short, 0),
    (2_147_483_648, Kind::UShort, 0),
    (2_147_483_648, Kind::Int, INT_MIN),
    (2_147_483_648, Kind::UInt, 2_147_483_648),
    (2_147_483_648, Kind::Long, 2_147_483_648),
    (2_147_483_648, Kind::ULong, 2_147_483_648),
    (UINT_MAX, Kind::Char, -1),
    (UINT_MAX, Kind::UChar, 255),
    (UINT_MAX, Kind::Short, -1),
    (UINT_MAX, Kind::UShort, 65_535),
    (UINT_MAX, Kind::Int, -1),
    (UINT_MAX, Kind::UInt, UINT_MAX),
    (UINT_MAX, Kind::Long, UINT_MAX),
    (UINT_MAX, Kind::ULong, UINT_MAX),
    (4_294_967_296, Kind::Char, 0),
    (4_294_967_296, Kind::UChar, 0),
    (4_294_967_296, Kind::Short, 0),
    (4_294_967_296, Kind::UShort, 0),
    (4_294_967_296, Kind::Int, 0),
    (4_294_967_296, Kind::UInt, 0),
    (4_294_967_296, Kind::Long, 4_294_967_296),
    (4_294_967_296, Kind::ULong, 4_294_967_296),
    (LONG_MIN, Kind::Char, 0),
    (LONG_MIN, Kind::UChar, 0),
    (LONG_MIN, Kind::Short, 0),
    (LONG_MIN, Kind::UShort, 0),
    (LONG_MIN, Kind::Int, 0),
    (LONG_MIN, Kind::UInt, 0),
    (LONG_MIN, Kind::Long, LONG_MIN),
    (LONG_MIN, Kind::ULong, 9_223_372_036_854_775_808),
    (-9_223_372_036_854_775_807, Kind::Char, 1),
    (-9_223_372_036_854_775_807, Kind::UChar, 1),
    (-9_223_372_036_854_775_807, Kind::Short, 1),
    (-9_223_372_036_854_775_807, Kind::UShort, 1),
    (-9_223_372_036_854_775_807, Kind::Int, 1),
    (-9_223_372_036_854_775_807, Kind::UInt, 1),
    (
        -9_223_372_036_854_775_807,
        Kind::Long,
        -9_223_372_036_854_775_807,
    ),
    (
        -9_223_372_036_854_775_807,
        Kind::ULong,
        9_223_372_036_854_775_809,
    ),
    (LONG_MAX, Kind::Char, -1),
    (LONG_MAX, Kind::UChar, 255),
    (LONG_MAX, Kind::Short, -1),
    (LONG_MAX, Kind::UShort, 65_535),
    (LONG_MAX, Kind::Int, -1),
    (LONG_MAX, Kind::UInt, UINT_MAX),
    (LONG_MAX, Kind::Long, LONG_MAX),
    (LONG_MAX, Kind::ULong, LONG_MAX),
    (9_223_372_036_854_775_808, Kind::Char, 0),
    (9_223_372_036_854_775_808, Kind::UChar, 0),
    (9_223_372_036_854_775_808, Kind::Short, 0),
    (9_223_372_036_854_775_808, Kind::UShort, 0),
    (9_223_372_036_854_775_808, Kind::Int, 0),
    (9_223_372_036_854_775_808, Kind::UInt, 0),
    (9_223_372_036_854_775_808, Kind::Long, LONG_MIN),
    (
        9_223_372_036_854_775_808,
        Kind::ULong,
        9_223_372_036_854_775_808,
    ),
    (ULONG_MAX, Kind::Char, -1),
    (ULONG_MAX, Kind::UChar, 255),
    (ULONG_MAX, Kind::Short, -1),
    (ULONG_MAX, Kind::UShort, 65_535),
    (ULONG_MAX, Kind::Int, -1),
    (ULONG_MAX, Kind::UInt, UINT_MAX),
    (ULONG_MAX, Kind::Long, -1),
    (ULONG_MAX, Kind::ULong, ULONG_MAX),
];

// An operator, the kind of its operand, the operand, and what they give (C99 6.5.3.3).
const UNARY: [(UnOp, Kind, i128, Answer); 72] = [
    (UnOp::Plus, Kind::Int, INT_MIN, Ok(INT_MIN)),
    (UnOp::Plus, Kind::Int, -1, Ok(-1)),
    (UnOp::Plus, Kind::Int, 0, Ok(0)),
    (UnOp::Plus, Kind::Int, 1, Ok(1)),
    (UnOp::Plus, Kind::Int, INT_MAX, Ok(INT_MAX)),
    (UnOp::Minus, Kind::Int, INT_MIN, OVERFLOW),
    (UnOp::Minus, Kind::Int, -1, Ok(1)),
    (UnOp::Minus, Kind::Int, 0, Ok(0)),
    (UnOp::Minus, Kind::Int, 1, Ok(-1)),
    (UnOp::Minus, Kind::Int, INT_MAX, Ok(-2_147_483_647)),
    (UnOp::Complement, Kind::Int, INT_MIN, Ok(INT_MAX)),
    (UnOp::Complement, Kind::Int, -1, Ok(0)),
    (UnOp::Complement, Kind::Int, 0, Ok(-1)),
    (UnOp::Complement, Kind::Int, 1, Ok(-2)),
    (UnOp::Complement, Kind::Int, INT_MAX, Ok(INT_MIN)),
    (UnOp::Not, Kind::Int, INT_MIN, Ok(0)),
    (UnOp::Not, Kind::Int, -1, Ok(0)),
    (UnOp::Not, Kind::Int, 0, Ok(1)),
    (UnOp::Not, Kind::Int, 1, Ok(0)),
    (UnOp::Not, Kind::Int, INT_MAX, Ok(0)),
    (UnOp::Plus, Kind::UInt, 4_294_967_294, Ok(4_294_967_294)),
    (UnOp::Plus, Kind::UInt, 0, Ok(0)),
    (UnOp::Plus, Kind::UInt, 1, Ok(1)),
    (UnOp::Plus, Kind::UInt, UINT_MAX, Ok(UINT_MAX)),
    (UnOp::Minus, Kind::UInt, 4_294_967_294, Ok(2)),
    (UnOp::Minus, Kind::UInt, 0, Ok(0)),
    (UnOp::Minus, Kind::UInt, 1, Ok(UINT_MAX)),
    (UnOp::Minus, Kind::UInt, UINT_MAX, Ok(1)),
    (UnOp::Complement, Kind::UInt, 4_294_967_294, Ok(1)),
    (UnOp::Complement, Kind::UInt, 0, Ok(UINT_MAX)),
    (UnOp::Complement, Kind::UInt, 1, Ok(4_294_967_294)),
    (UnOp::Complement, Kind::UInt, UINT_MAX, Ok(0)),
    (UnOp::Not, Kind::UInt, 4_294_967_294, Ok(0)),
    (UnOp::Not, Kind::UInt, 0, Ok(1)),
    (UnOp::Not, Kind::UInt, 1, Ok(0)),
    (UnOp::Not, Kind::UInt, UINT_MAX, Ok(0)),
    (UnOp::Plus, Kind::Long, LONG_MIN, Ok(LONG_MIN)),
    (UnOp::Plus, Kind::Long, -1, Ok(-1)),
    (UnOp::Plus, Kind::Long, 0, Ok(0)),
    (UnOp::Plus, Kind::Long, 1, Ok(1)),
    (UnOp::Plus, Kind::Long, LONG_MAX, Ok(LONG_MAX)),
    (UnOp::Minus, Kind::Long, LONG_MIN, OVERFLOW),
    (UnOp::Minus, Kind::Long, -1, Ok(1)),
    (UnOp::Minus, Kind::Long, 0, Ok(0)),
    (UnOp::Minus, Kind::Long, 1, Ok(-1)),
    (
        UnOp::Minus,
        Kind::Long,
        LONG_MAX,
        Ok(-9_223_372_036_854_775_807),
    ),
    (UnOp::Complement, Kind::Long, LONG_MIN, Ok(LONG_MAX)),
    (UnOp::Complement, Kind::Long, -1, Ok(0)),
    (UnOp::Complement, Kind::Long, 0, Ok(-1)),
    (UnOp::Complement, Kind::Long, 1, Ok(-2)),
    (UnOp::Complement, Kind::Long, LONG_MAX, Ok(LONG_MIN)),
    (UnOp::Not, Kind::Long, LONG_MIN, Ok(0)),
    (UnOp::Not, Kind::Long, -1, Ok(0)),
    (UnOp::Not, Kind::Long, 0, Ok(1)),
    (UnOp::Not, Kind::Long, 1, Ok(0)),
    (UnOp::Not, Kind::Long, LONG_MAX, Ok(0)),
    (
        UnOp::Plus,
        Kind::ULong,
        18_446_744_073_709_551_614,
        Ok(18_446_744_073_709_551_614),
    ),
    (UnOp::Plus, Kind::ULong, 0, Ok(0)),
    (UnOp::Plus, Kind::ULong, 1, Ok(1)),
    (UnOp::Plus, Kind::ULong, ULONG_MAX, Ok(ULONG_MAX)),
    (UnOp::Minus, Kind::ULong, 18_446_744_073_709_551_614, Ok(2)),
    (UnOp::Minus, Kind::ULong, 0, Ok(0)),
    (UnOp::Minus, Kind::ULong, 1, Ok(ULONG_MAX)),
    (UnOp::Minus, Kind::ULong, ULONG_MAX, Ok(1)),
    (
        UnOp::Complement,
        Kind::ULong,
        18_446_744_073_709_551_614,
        Ok(1),
    ),
    (UnOp::Complement, Kind::ULong, 0, Ok(ULONG_MAX)),
    (
        UnOp::Complement,
        Kind::ULong,
        1,
        Ok(18_446_744_073_709_551_614),
    ),
    (UnOp::Complement, Kind::ULong, ULONG_MAX, Ok(0)),
    (UnOp::Not, Kind::ULong, 18_446_744_073_709_551_614, Ok(0)),
    (UnOp::Not, Kind::ULong, 0, Ok(1)),
    (UnOp::Not, Kind::ULong, 1, Ok(0)),
    (UnOp::Not, Kind::ULong, ULONG_MAX, Ok(0)),
];

const COMPARING: [BinOp; 6] = [
    BinOp::Less,
    BinOp::Greater,
    BinOp::LessEqual,
    BinOp::GreaterEqual,
    BinOp::Equal,
    BinOp::NotEqual,
];

// The kind of two operands, the operands, and what each comparison gives (C99 6.5.8, 6.5.9).
const COMPARISONS: [(Kind, i128, i128, [i128; 6]); 36] = [
    (Kind::Int, INT_MIN, INT_MAX, [1, 0, 1, 0, 0, 1]),
    (Kind::Int, INT_MAX, INT_MIN, [0, 1, 0, 1, 0, 1]),
    (Kind::Int, INT_MIN, INT_MIN, [0, 0, 1, 1, 1, 0]),
    (Kind::Int, INT_MAX, INT_MAX, [0, 0, 1, 1, 1, 0]),
    (Kind::Int, INT_MAX, 2_147_483_646, [0, 1, 0, 1, 0, 1]),
    (Kind::Int, 0, 1, [1, 0, 1, 0, 0, 1]),
    (Kind::Int, -1, 0, [1, 0, 1, 0, 0, 1]),
    (Kind::Int, 0, -1, [0, 1, 0, 1, 0, 1]),
    (Kind::Int, INT_MIN, -1, [1, 0, 1, 0, 0, 1]),
    (Kind::UInt, 0, UINT_MAX, [1, 0, 1, 0, 0, 1]),
    (Kind::UInt, UINT_MAX, 0, [0, 1, 0, 1, 0, 1]),
    (Kind::UInt, 0, 0, [0, 0, 1, 1, 1, 0]),
    (Kind::UInt, UINT_MAX, UINT_MAX, [0, 0, 1, 1, 1, 0]),
    (Kind::UInt, UINT_MAX, 4_294_967_294, [0, 1, 0, 1, 0, 1]),
    (Kind::UInt, 0, 1, [1, 0, 1, 0, 0, 1]),
    (Kind::UInt, 2_147_483_648, INT_MAX, [0, 1, 0, 1, 0, 1]),
    (Kind::UInt, INT_MAX, 2_147_483_648, [1, 0, 1, 0, 0, 1]),
    (Kind::UInt, 2_147_483_648, UINT_MAX, [1, 0, 1, 0, 0, 1]),
    (Kind::Long, LONG_MIN, LONG_MAX, [1, 0, 1, 0, 0, 1]),
    (Kind::Long, LONG_MAX, LONG_MIN, [0, 1, 0, 1, 0, 1]),
    (Kind::Long, LONG_MIN, LONG_MIN, [0, 0, 1, 1, 1, 0]),
    (Kind::Long, LONG_MAX, LONG_MAX, [0, 0, 1, 1, 1, 0]),
    (
        Kind::Long,
        LONG_MAX,
        9_223_372_036_854_775_806,
        [0, 1, 0, 1, 0, 1],
    ),
    (Kind::Long, 0, 1, [1, 0, 1, 0, 0, 1]),
    (Kind::Long, -1, 0, [1, 0, 1, 0, 0, 1]),
    (Kind::Long, 0, -1, [0, 1, 0, 1, 0, 1]),
    (Kind::Long, LONG_MIN, -1, [1, 0, 1, 0, 0, 1]),
    (Kind::ULong, 0, ULONG_MAX, [1, 0, 1, 0, 0, 1]),
    (Kind::ULong, ULONG_MAX, 0, [0, 1, 0, 1, 0, 1]),
    (Kind::ULong, 0, 0, [0, 0, 1, 1, 1, 0]),
    (Kind::ULong, ULONG_MAX, ULONG_MAX, [0, 0, 1, 1, 1, 0]),
    (
        Kind::ULong,
        ULONG_MAX,
        18_446_744_073_709_551_614,
        [0, 1, 0, 1, 0, 1],
    ),
    (Kind::ULong, 0, 1, [1, 0, 1, 0, 0, 1]),
    (
        Kind::ULong,
        9_223_372_036_854_775_808,
        LONG_MAX,
        [0, 1, 0, 1, 0, 1],
    ),
    (
        Kind::ULong,
        LONG_MAX,
        9_223_372_036_854_775_808,
        [1, 0, 1, 0, 0, 1],
    ),
    (
        Kind::ULong,
        9_223_372_036_854_775_808,
        ULONG_MAX,
        [1, 0, 1, 0, 0, 1],
    ),
];

const BITWISE: [BinOp; 3] = [BinOp::BitAnd, BinOp::BitXor, BinOp::BitOr];

// The kind of two operands, the operands, and what each bitwise operator gives (C99 6.5.10 to 6.5.12).
const BITS: [(Kind, i128, i128, [i128; 3]); 30] = [
    (Kind::Int, INT_MIN, INT_MAX, [0, -1, -1]),
    (Kind::Int, INT_MIN, INT_MIN, [INT_MIN, 0, INT_MIN]),
    (Kind::Int, INT_MIN, -1, [INT_MIN, INT_MAX, -1]),
    (Kind::Int, INT_MAX, -1, [INT_MAX, INT_MIN, -1]),
    (Kind::Int, INT_MAX, INT_MAX, [INT_MAX, 0, INT_MAX]),
    (Kind::Int, -1, 0, [0, -1, -1]),
    (Kind::Int, -1, 1, [1, -2, -1]),
    (Kind::Int, -8, 255, [248, -249, -1]),
    (Kind::Int, 6, 3, [2, 5, 7]),
    (Kind::UInt, UINT_MAX, UINT_MAX, [UINT_MAX, 0, UINT_MAX]),
    (Kind::UInt, UINT_MAX, 0, [0, UINT_MAX, UINT_MAX]),
    (Kind::UInt, UINT_MAX, 1, [1, 4_294_967_294, UINT_MAX]),
    (
        Kind::UInt,
        2_147_483_648,
        UINT_MAX,
        [2_147_483_648, INT_MAX, UINT_MAX],
    ),
    (Kind::UInt, 2_147_483_648, INT_MAX, [0, UINT_MAX, UINT_MAX]),
    (Kind::UInt, 6, 3, [2, 5, 7]),
    (Kind::Long, LONG_MIN, LONG_MAX, [0, -1, -1]),
    (Kind::Long, LONG_MIN, LONG_MIN, [LONG_MIN, 0, LONG_MIN]),
    (Kind::Long, LONG_MIN, -1, [LONG_MIN, LONG_MAX, -1]),
    (Kind::Long, LONG_MAX, -1, [LONG_MAX, LONG_MIN, -1]),
    (Kind::Long, LONG_MAX, LONG_MAX, [LONG_MAX, 0, LONG_MAX]),
    (Kind::Long, -1, 0, [0, -1, -1]),
    (Kind::Long, -1, 1, [1, -2, -1]),
    (Kind::Long, -8, 255, [248, -249, -1]),
    (Kind::Long, 6, 3, [2, 5, 7]),
    (Kind::ULong, ULONG_MAX, ULONG_MAX, [ULONG_MAX, 0, ULONG_MAX]),
    (Kind::ULong, ULONG_MAX, 0, [0, ULONG_MAX, ULONG_MAX]),
    (
        Kind::ULong,
        ULONG_MAX,
        1,
        [1, 18_446_744_073_709_551_614, ULONG_MAX],
    ),
    (
        Kind::ULong,
        9_223_372_036_854_775_808,
        ULONG_MAX,
        [9_223_372_036_854_775_808, LONG_MAX, ULONG_MAX],
    ),
    (
        Kind::ULong,
        9_223_372_036_854_775_808,
        LONG_MAX,
        [0, ULONG_MAX, ULONG_MAX],
    ),
    (Kind::ULong, 6, 3, [2, 5, 7]),
];

// An operator, the kind that it is done at, two operands of kinds of their own, and what they give (C99 6.3.1.8; 6.5.7
// of shifts).
const MIXED: [(BinOp, Kind, i128, i128, Answer); 52] = [
    (BinOp::Less, Kind::UInt, -1, 1, Ok(0)),
    (BinOp::Greater, Kind::UInt, -1, 1, Ok(1)),
    (BinOp::Equal, Kind::UInt, -1, UINT_MAX, Ok(1)),
    (BinOp::Less, Kind::Long, -1, 1, Ok(1)),
    (BinOp::Equal, Kind::Long, -1, UINT_MAX, Ok(0)),
    (BinOp::Equal, Kind::ULong, -1, ULONG_MAX, Ok(1)),
    (BinOp::Equal, Kind::ULong, UINT_MAX, ULONG_MAX, Ok(0)),
    (BinOp::Less, Kind::ULong, LONG_MIN, 0, Ok(0)),
    (BinOp::Equal, Kind::Int, -1, 255, Ok(0)),
    (BinOp::NotEqual, Kind::Int, -1, 65_535, Ok(1)),
    (BinOp::Less, Kind::Int, -1, 0, Ok(1)),
    (BinOp::GreaterEqual, Kind::UInt, -1, 0, Ok(1)),
    (BinOp::LessEqual, Kind::ULong, 65_535, 0, Ok(0)),
    (BinOp::Add, Kind::Int, -128, -128, Ok(-256)),
    (BinOp::Add, Kind::Int, 255, 1, Ok(256)),
    (BinOp::Add, Kind::Int, 65_535, 1, Ok(65_536)),
    (BinOp::Add, Kind::UInt, INT_MIN, 2_147_483_648, Ok(0)),
    (BinOp::Add, Kind::Int, INT_MAX, 1, OVERFLOW),
    (BinOp::Add, Kind::UInt, INT_MAX, 1, Ok(2_147_483_648)),
    (BinOp::Add, Kind::Long, INT_MAX, 1, Ok(2_147_483_648)),
    (BinOp::Add, Kind::Long, UINT_MAX, 1, Ok(4_294_967_296)),
    (BinOp::Add, Kind::ULong, -1, 1, Ok(0)),
    (BinOp::Subtract, Kind::UInt, 0, 1, Ok(UINT_MAX)),
    (BinOp::Subtract, Kind::Int, 0, 255, Ok(-255)),
    (BinOp::Subtract, Kind::Long, 0, UINT_MAX, Ok(-4_294_967_295)),
    (
        BinOp::Multiply,
        Kind::Int,
        -32_768,
        -32_768,
        Ok(1_073_741_824),
    ),
    (BinOp::Multiply, Kind::Int, 65_535, 65_535, OVERFLOW),
    (BinOp::Multiply, Kind::UInt, UINT_MAX, -1, Ok(1)),
    (BinOp::Multiply, Kind::Long, INT_MAX, 2, Ok(4_294_967_294)),
    (BinOp::Multiply, Kind::ULong, -1, ULONG_MAX, Ok(1)),
    (BinOp::Divide, Kind::UInt, -1, 2, Ok(INT_MAX)),
    (BinOp::Divide, Kind::UInt, 1, -1, Ok(0)),
    (BinOp::Divide, Kind::Long, INT_MIN, -1, Ok(2_147_483_648)),
    (BinOp::Divide, Kind::Long, LONG_MIN, -1, OVERFLOW),
    (BinOp::Divide, Kind::ULong, 1, 0, BY_ZERO),
    (BinOp::Remainder, Kind::UInt, -7, 4, Ok(1)),
    (BinOp::Remainder, Kind::Long, -7, 4, Ok(-3)),
    (BinOp::Remainder, Kind::Int, INT_MIN, -1, OVERFLOW),
    (BinOp::BitAnd, Kind::Int, -1, 255, Ok(255)),
    (BinOp::BitAnd, Kind::Long, -1, LONG_MAX, Ok(LONG_MAX)),
    (BinOp::BitXor, Kind::UInt, -1, 0, Ok(UINT_MAX)),
    (BinOp::BitOr, Kind::ULong, -1, 0, Ok(ULONG_MAX)),
    (BinOp::ShiftLeft, Kind::Int, 127, 24, Ok(2_130_706_432)),
    (BinOp::ShiftLeft, Kind::Int, 255, 24, OVERFLOW),
    (BinOp::ShiftLeft, Kind::Int, 1, 31, OVERFLOW),
    (BinOp::ShiftLeft, Kind::Int, 1, 32, BAD_COUNT),
    (BinOp::ShiftLeft, Kind::UInt, 1, 31, Ok(2_147_483_648)),
    (BinOp::ShiftLeft, Kind::Long, 1, 32, Ok(4_294_967_296)),
    (BinOp::ShiftRight, Kind::Int, -128, 7, Ok(-1)),
    (BinOp::ShiftRight, Kind::Int, 65_535, 15, Ok(1)),
    (BinOp::ShiftRight, Kind::Int, -1, 31, Ok(-1)),
    (BinOp::ShiftRight, Kind::UInt, UINT_MAX, -1, BAD_COUNT),
];

#[test]
fn conversions(rt: HostRuntime) {
    for (v, kind, want) in &CONVERSIONS {
        assert_eq!(rt; converted(*v, *kind), Some(*want), "{v} to {kind:?}");
    }
}

#[test]
fn unary_operators(rt: HostRuntime) {
    for (op, kind, a, want) in &UNARY {
        assert_eq!(rt;
            unary_at(*op, *kind, *a),
            Some(*want),
            "{op:?} of {a}, {kind:?}"
        );
    }
}

#[test]
fn comparisons_and_bitwise_operators(rt: HostRuntime) {
    for (kind, a, b, wants) in &COMPARISONS {
        assert!(rt;
            give(&COMPARING, *kind, *a, *b, wants),
            "{a} and {b}, {kind:?}"
        );
    }
    for (kind, a, b, wants) in &BITS {
        assert!(rt;
            give(&BITWISE, *kind, *a, *b, wants),
            "{a} and {b}, {kind:?}"
        );
    }
}

#[test]
fn operands_of_two_kinds(rt: HostRuntime) {
    for (op, kind, a, b, want) in &MIXED {
        assert_eq!(rt;
            mixed_at(*op, *kind, *a, *b),
            Some(*want),
            "{op:?} of {a} and {b}, {kind:?}"
        );
    }
}
