//! Tokens.

use upc_text::{Place, Text};

/// A token: what it is, its slice of the source from `start` up to `end`, and its place.
#[derive(Drop)]
pub struct Token {
    pub kind: TokenKind,
    pub start: u32,
    pub end: u32,
    pub place: Place,
}

/// What a token is, with what it carries.
#[derive(Debug, Drop)]
pub enum TokenKind {
    /// The number of the name among the source's names, in order of first appearance.
    Name(u32),
    Word(Word),
    Number { value: u64, kind: NumberKind },
    /// The value of a character constant, whose type is int.
    Character(u8),
    /// The bytes of a string literal.
    Str(Text),
    Punct(Punct),
    /// `#pragma upc strict` (true) or `#pragma upc relaxed` (false).
    Pragma(bool),
}

/// The type of an integer constant (C99 6.4.4.1; long long is long).
#[derive(Clone, Copy, PartialEq, Eq, Debug)]
pub enum NumberKind {
    Int,
    UInt,
    Long,
    ULong,
}

/// The keywords: C99's, UPC's, the type words, and those that this profile refuses.
#[derive(Clone, Copy, PartialEq, Eq, Debug)]
pub enum Word {
    Break,
    Case,
    Char,
    Const,
    Continue,
    Default,
    Do,
    Else,
    For,
    If,
    Int,
    Long,
    Return,
    Short,
    Signed,
    Sizeof,
    Static,
    Struct,
    Switch,
    Unsigned,
    Void,
    While,
    Shared,
    Strict,
    Relaxed,
    Mythread,
    Threads,
    UpcMaxBlockSize,
    UpcBarrier,
    UpcBlocksizeof,
    UpcElemsizeof,
    UpcFence,
    UpcForall,
    UpcLocalsizeof,
    UpcNotify,
    UpcWait,
    SizeT,
    PtrdiffT,
    UpcLockT,
    UpcOpT,
    UpcFlagT,
    Auto,
    Double,
    Enum,
    Extern,
    Float,
    Goto,
    Inline,
    Register,
    Restrict,
    Typedef,
    Union,
    Volatile,
    Bool,
    Complex,
    Imaginary,
}

/// Operators and punctuation (C99 6.4.6, without digraphs and `...`).
#[derive(Clone, Copy, PartialEq, Eq, Debug)]
pub enum Punct {
    LBracket,
    RBracket,
    LParen,
    RParen,
    LBrace,
    RBrace,
    Dot,
    Arrow,
    PlusPlus,
    MinusMinus,
    Ampersand,
    Star,
    Plus,
    Minus,
    Tilde,
    Exclamation,
    Slash,
    Percent,
    ShiftLeft,
    ShiftRight,
    Less,
    Greater,
    LessEqual,
    GreaterEqual,
    EqualEqual,
    NotEqual,
    Caret,
    Bar,
    AndAnd,
    OrOr,
    Question,
    Colon,
    Semicolon,
    Equal,
    StarEqual,
    SlashEqual,
    PercentEqual,
    PlusEqual,
    MinusEqual,
    ShiftLeftEqual,
    ShiftRightEqual,
    AmpersandEqual,
    CaretEqual,
    BarEqual,
    Comma,
    Hash,
    HashHash,
}
