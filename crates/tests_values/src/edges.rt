//! Operators and conversions at the edges of the kinds, by hand.

use crate::integer_rows::{
    Answer, BAD_COUNT, BY_ZERO, INT_MAX, INT_MIN, LONG_MIN, OVERFLOW, UINT_MAX, ULONG_MAX,
    binary_at, converted, unary_at,
};
use block_layout::Kind;
use integers::{BinOp, UnOp};

// An operator, the kind of its operands, the operands, and what they give.
const BINARY: [(BinOp, Kind, i128, i128, Answer); 17] = [
    (BinOp::Divide, Kind::Int, -7, 2, Ok(-3)),
    (BinOp::Remainder, Kind::Int, -7, 2, Ok(-1)),
    (BinOp::ShiftRight, Kind::Int, -7, 1, Ok(-4)),
    (BinOp::Divide, Kind::Long, LONG_MIN, -1, OVERFLOW),
    (BinOp::Remainder, Kind::Long, LONG_MIN, -1, OVERFLOW),
    (BinOp::Remainder, Kind::Int, 1, 0, BY_ZERO),
    (BinOp::Add, Kind::Int, INT_MAX, 1, OVERFLOW),
    (BinOp::ShiftLeft, Kind::Int, 1, 30, Ok(1_073_741_824)),
    (BinOp::ShiftLeft, Kind::Int, 1, 31, OVERFLOW),
    (BinOp::ShiftLeft, Kind::Int, 1, 32, BAD_COUNT),
    (BinOp::ShiftLeft, Kind::Int, -1, 1, OVERFLOW),
    (BinOp::BitAnd, Kind::Int, -8, 255, Ok(248)),
    (BinOp::BitXor, Kind::Int, -1, 1, Ok(-2)),
    (BinOp::Multiply, Kind::ULong, ULONG_MAX, ULONG_MAX, Ok(1)),
    (BinOp::Subtract, Kind::UInt, 0, 1, Ok(UINT_MAX)),
    (
        BinOp::ShiftLeft,
        Kind::UInt,
        UINT_MAX,
        31,
        Ok(2_147_483_648),
    ),
    (BinOp::GreaterEqual, Kind::UInt, UINT_MAX, 0, Ok(1)),
];

// An operator, the kind of its operand, the operand, and what it gives.
const UNARY: [(UnOp, Kind, i128, Answer); 4] = [
    (UnOp::Minus, Kind::Int, INT_MIN, OVERFLOW),
    (UnOp::Complement, Kind::Long, 0, Ok(-1)),
    (UnOp::Complement, Kind::UInt, 0, Ok(UINT_MAX)),
    (UnOp::Not, Kind::ULong, 0, Ok(1)),
];

// A value, the kind that it is converted to, and what that gives.
const CONVERSIONS: [(i128, Kind, i128); 5] = [
    (40_000, Kind::Short, -25_536),
    (200, Kind::Char, -56),
    (-1, Kind::ULong, ULONG_MAX),
    (4_294_967_296, Kind::UInt, 0),
    (ULONG_MAX, Kind::Long, -1),
];

#[test]
fn edges(rt: HostRuntime) {
    for (op, kind, a, b, want) in &BINARY {
        assert_eq!(rt;
            binary_at(*op, *kind, *a, *b),
            Some(*want),
            "{op:?} of {a} and {b}, {kind:?}"
        );
    }
    for (op, kind, a, want) in &UNARY {
        assert_eq!(rt;
            unary_at(*op, *kind, *a),
            Some(*want),
            "{op:?} of {a}, {kind:?}"
        );
    }
    for (v, kind, want) in &CONVERSIONS {
        assert_eq!(rt; converted(*v, *kind), Some(*want), "{v} to {kind:?}");
    }
}
