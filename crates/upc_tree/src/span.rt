//! Where a token stands, and the tokens that carry more than their spelling.

use upc_text::{Place, Text};

/// A token's slice of the source, from `start` up to `end`, and its place.
#[derive(Clone, Copy)]
pub struct Span {
    pub start: u32,
    pub end: u32,
    pub place: Place,
}

/// A name: its number among the source's names.
#[derive(Clone, Copy)]
pub struct Name {
    pub number: u32,
    pub span: Span,
}

/// One string literal (C99 6.4.5).
#[derive(Drop)]
pub struct StringLiteral {
    pub bytes: Text,
    pub span: Span,
}

/// A pragma (UPC 6.7): whether it says strict, else it says relaxed.
#[derive(Clone, Copy)]
pub struct Pragma {
    pub strict: bool,
    pub span: Span,
}
