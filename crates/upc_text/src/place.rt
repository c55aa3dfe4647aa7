//! Where a source is refused, and by which rule.

/// A place in a source: line and column from 1, the column counted in bytes.
#[derive(Clone, Copy, PartialEq, Eq, Debug)]
pub struct Place {
    pub line: u32,
    pub column: u32,
}

/// Why a source is refused. Where a number stands, it is that of the rule in docs/LANGUAGE.md.
#[derive(Clone, Copy, PartialEq, Eq, Debug)]
pub enum Code {
    Lex,
    Directive,
    Profile(u8),
    Syntax,
    Typing(u8),
    Limit(u8),
}

/// A source is refused at a place.
#[derive(Clone, Copy, PartialEq, Eq, Debug)]
pub struct Refusal {
    pub place: Place,
    pub code: Code,
}
