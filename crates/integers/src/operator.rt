//! Operators on integers of a promoted kind.

/// A binary operator of C, other than `&&` and `||`.
#[derive(Clone, Copy, PartialEq, Eq, Debug)]
pub enum BinOp {
    Multiply,
    Divide,
    Remainder,
    Add,
    Subtract,
    ShiftLeft,
    ShiftRight,
    Less,
    Greater,
    LessEqual,
    GreaterEqual,
    Equal,
    NotEqual,
    BitAnd,
    BitXor,
    BitOr,
}

/// A unary operator of C on integers: `+`, `-`, `~` and `!`.
#[derive(Clone, Copy, PartialEq, Eq, Debug)]
pub enum UnOp {
    Plus,
    Minus,
    Complement,
    Not,
}
