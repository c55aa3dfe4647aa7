//! The tokens that are left, and why there is no tree.

ghost use Rattle.std.specs.Prelude.{◌≡◌};
ghost use Rattle.upc_parser_ground.specs.declared.cursor.Fail.TheVariants.{Memory};
ghost use Rattle.upc_parser_ground.specs.layer.Outcome.{is_punct, is_word, span_of, expect_punct, expect_word};
ghost use Rattle.upc_parser_ground.specs.layer.Outcome.{name};
ghost use Rattle.upc_parser_ground.specs.layer.Run.{Reads, same};

use std::alloc::{AllocError as OutOfMemory, AllocFailed};
use upc_lexer::{Punct, Token, TokenKind, Word};
use upc_tree::{Name, Span};

/// The tokens that are left.
#[derive(Drop)]
pub struct Tokens<'a> {
    pub rest: &'a [Token],
}

/// Why there is no tree.
#[derive(Clone, Copy, PartialEq, Eq)]
pub enum Fault {
    /// No tree begins with the tokens.
    NoTree,
    /// None of at most the height that is allowed.
    TooHigh,
}

#[derive(Drop)]
pub enum Fail {
    Memory,
    Fault(Fault),
}

impl From<OutOfMemory> for Fail {
    ghost from_gives = { λ _ e. e ≡ Memory };

    fn from(_e: OutOfMemory) -> Fail {
        Fail::Memory
    }
}

impl<T: Drop> From<AllocFailed<T>> for Fail {
    ghost from_gives = { λ _ e. e ≡ Memory };

    fn from(_e: AllocFailed<T>) -> Fail {
        Fail::Memory
    }
}

pub fn is_punct(mark: Punct, kind: &TokenKind) -> bool
    ensures { result ≡ is_punct mark kind.now }
{
    match kind {
        TokenKind::Punct(other) => *other == mark,
        _ => false,
    }
}

pub fn is_word(word: Word, kind: &TokenKind) -> bool
    ensures { result ≡ is_word word kind.now }
{
    match kind {
        TokenKind::Word(other) => *other == word,
        _ => false,
    }
}

pub fn span_of(token: &Token) -> Span
    ensures { result ≡ span_of token.now }
{
    Span {
        start: token.start,
        end: token.end,
        place: token.place,
    }
}

/// Takes a mark.
pub fn expect_punct(tokens: &mut Tokens<'_>, mark: Punct) -> Result<Span, Fail>
    ensures { Reads same (expect_punct mark tokens.old.rest.now) result tokens.new.rest.now }
{
    match tokens.rest {
        [] => Err(Fail::Fault(Fault::NoTree)),
        [first, rest @ ..] => {
            if is_punct(mark, &first.kind) {
                tokens.rest = rest;
                Ok(span_of(first))
            } else {
                Err(Fail::Fault(Fault::NoTree))
            }
        }
    }
}

/// Takes a word.
pub fn expect_word(tokens: &mut Tokens<'_>, word: Word) -> Result<Span, Fail>
    ensures { Reads same (expect_word word tokens.old.rest.now) result tokens.new.rest.now }
{
    match tokens.rest {
        [] => Err(Fail::Fault(Fault::NoTree)),
        [first, rest @ ..] => {
            if is_word(word, &first.kind) {
                tokens.rest = rest;
                Ok(span_of(first))
            } else {
                Err(Fail::Fault(Fault::NoTree))
            }
        }
    }
}

/// Takes a name.
pub fn name(tokens: &mut Tokens<'_>) -> Result<Name, Fail>
    ensures { Reads same (name tokens.old.rest.now) result tokens.new.rest.now }
{
    match tokens.rest {
        [] => Err(Fail::Fault(Fault::NoTree)),
        [first, rest @ ..] => match first.kind {
            TokenKind::Name(number) => {
                tokens.rest = rest;
                Ok(Name {
                    number,
                    span: span_of(first),
                })
            }
            _ => Err(Fail::Fault(Fault::NoTree)),
        },
    }
}
