//! From bytes to tokens (C99 6.4, and the words of UPC).
#![tactic(auto)]

mod bytes;
mod gaps;
mod lexemes;
mod lexing;
mod marks;
mod names;
mod numbers;
mod places;
mod splices;
mod strings;
mod token;
mod words;

pub use lexing::{Lexed, lex, one_cut};
pub use names::Names;
pub use token::{NumberKind, Punct, Token, TokenKind, Word};
