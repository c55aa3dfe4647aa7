//! Operators and words, by the part that they play.

/// The operators before an operand (C99 6.5.3).
#[derive(Clone, Copy)]
pub enum UnaryMark {
    AddressOf,
    Dereference,
    Plus,
    Minus,
    Complement,
    Not,
    Increment,
    Decrement,
}

/// `++` or `--` after an operand (C99 6.5.2.4).
#[derive(Clone, Copy)]
pub enum PostfixMark {
    Increment,
    Decrement,
}

/// `.` or `->` (C99 6.5.2.3).
#[derive(Clone, Copy)]
pub enum MemberMark {
    Dot,
    Arrow,
}

/// The operators between two operands (C99 6.5.5 to 6.5.14).
#[derive(Clone, Copy)]
pub enum BinaryMark {
    Multiply,
    Divide,
    Remainder,
    Add,
    Subtract,
    ShiftLeft,
    ShiftRight,
    Less,
    Greater,
    LessEqual,
    GreaterEqual,
    Equal,
    NotEqual,
    BitAnd,
    BitXor,
    BitOr,
    And,
    Or,
}

/// The assignment operators (C99 6.5.16).
#[derive(Clone, Copy)]
pub enum AssignMark {
    Assign,
    Multiply,
    Divide,
    Remainder,
    Add,
    Subtract,
    ShiftLeft,
    ShiftRight,
    BitAnd,
    BitXor,
    BitOr,
}

/// The size operators (C99 6.5.3.4, UPC 6.4.1).
#[derive(Clone, Copy)]
pub enum SizeWord {
    Sizeof,
    Localsizeof,
    Blocksizeof,
    Elemsizeof,
}

/// The words that are expressions (UPC 6.3).
#[derive(Clone, Copy)]
pub enum ConstantWord {
    Mythread,
    Threads,
    MaxBlockSize,
}

/// The words among specifiers that are no qualifiers (C99 6.7.1, 6.7.2, UPC 7).
#[derive(Clone, Copy, PartialEq, Eq)]
pub enum TypeWord {
    Static,
    Void,
    Char,
    Short,
    Int,
    Long,
    Signed,
    Unsigned,
    SizeT,
    PtrdiffT,
    LockT,
    OpT,
    FlagT,
}

/// The words of the statements that synchronise (UPC 6.6.1).
#[derive(Clone, Copy)]
pub enum BarrierWord {
    Notify,
    Wait,
    Barrier,
}
