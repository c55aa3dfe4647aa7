//! What comes next among the tokens.

ghost use Rattle.std.specs.Prelude.{◌≡◌};
ghost use Rattle.upc_parser_ground.specs.layer.Outcome.{starts, starts_two};
ghost use Rattle.upc_parser_ground.specs.layer.Ahead.{passes, shows};

use crate::cursor::{is_punct, is_word};
use crate::start::{is_qual, is_spec, is_string};
use upc_lexer::{Punct, Token, TokenKind, Word};

/// A test of a token.
#[derive(Clone, Copy)]
pub enum Sign {
    Punct(Punct),
    Word(Word),
    /// A specifier or a qualifier; at block scope (true) without `static`.
    Spec(bool),
    Qual,
    String,
    Pragma,
    /// Any token but this mark.
    Unlike(Punct),
    Any,
}

/// A test of the first token, or of the first two.
#[derive(Clone, Copy)]
pub enum Ahead {
    One(Sign),
    Two(Sign, Sign),
}

fn is_pragma(kind: &TokenKind) -> bool
    ensures { result ≡ passes Sign.Pragma kind.now }
{
    matches!(kind, TokenKind::Pragma(_))
}

fn passes(sign: Sign, kind: &TokenKind) -> bool
    ensures { result ≡ passes sign kind.now }
{
    match sign {
        Sign::Punct(mark) => is_punct(mark, kind),
        Sign::Word(word) => is_word(word, kind),
        Sign::Spec(local) => is_spec(local, kind),
        Sign::Qual => is_qual(kind),
        Sign::String => is_string(kind),
        Sign::Pragma => is_pragma(kind),
        Sign::Unlike(mark) => !is_punct(mark, kind),
        Sign::Any => true,
    }
}

/// Whether the first token passes.
pub fn starts(sign: Sign, rest: &[Token]) -> bool
    ensures { result ≡ starts (passes sign) rest.now }
{
    match rest {
        [] => false,
        [first, ..] => passes(sign, &first.kind),
    }
}

/// Whether the first two tokens pass.
pub fn starts_two(sign: Sign, next: Sign, rest: &[Token]) -> bool
    ensures { result ≡ starts_two (passes sign) (passes next) rest.now }
{
    match rest {
        [] => false,
        [first, rest @ ..] => passes(sign, &first.kind) && starts(next, rest),
    }
}

pub fn shows(ahead: Ahead, rest: &[Token]) -> bool
    ensures { result ≡ shows ahead rest.now }
{
    match ahead {
        Ahead::One(sign) => starts(sign, rest),
        Ahead::Two(sign, next) => starts_two(sign, next, rest),
    }
}
