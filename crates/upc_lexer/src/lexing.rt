//! A source, cut into tokens.
ghost use Rattle.std.specs.Prelude.{◌≡◌, ◌+◌, ◌<◌, ◌≤◌, ◌∷◌, [], ◌++◌, List, ℕ, length, IfOk, IfErr, OnOk};
ghost use Rattle.upc_lexer.specs.Numbers.{NumbersFit};
ghost use Rattle.upc_lexer.specs.Tokens.{AreTokensOf, RefusedAt};
ghost use Rattle.upc_lexer.specs.declared.token.Token.{Token as Item};
ghost use Rattle.upc_text.specs.declared.place.Refusal.{Refusal as Reason};
ghost use Rattle.upc_lexer.specs.code.Found.{IsGapless};
ghost use Rattle.upc_lexer.specs.layer.Steps.{Steps, StopsHere, StopsSource, token_of};

use crate::gaps::{Gap, gap_at};
use crate::lexemes::{Found, lexeme_at};
use crate::names::Names;
use crate::places::place_behind;
use crate::splices::opens_trigraph;
use crate::token::{Token, TokenKind};
use std::alloc::Global;
use upc_text::{Code, OutOfMemory, Place, Refusal, Stop};

/// The tokens of a source, and its names.
#[derive(Drop)]
pub struct Lexed {
    pub tokens: Vec<Token>,
    pub names: Names,
}

/// Adds a token of so many bytes at the end.
fn push_token(
    lexed: &mut Lexed,
    kind: TokenKind,
    at: usize,
    length: usize,
    place: Place,
) -> Result<(), OutOfMemory>
    requires { at + length < 4294967296 }
    ensures tokens { OnOk result (lexed.new.tokens.items
        ≡ lexed.old.tokens.items ++ token_of kind at length place ∷ []) }
    ensures names { OnOk result (lexed.new.names ≡ lexed.old.names) }
{
    let start = at as u32;
    let end = (at + length) as u32;
    lexed.tokens.push(Token {
        kind,
        start,
        end,
        place,
    })?;
    Ok(())
}

/// Takes the token at the front of the bytes, and gives its length.
fn take_token(
    alloc: Global,
    lexed: &mut Lexed,
    bytes: &[u8],
    at: usize,
    place: Place,
) -> Result<usize, Stop>
    requires some { 0 < length bytes.now }
    requires gapless { IsGapless bytes.now }
    requires within { at + length bytes.now ≤ 1048576 }
    requires room { length lexed.old.names < 4294967296 }
    ensures ok { IfOk result (λ n. Steps bytes.now n at place lexed.old.tokens.items lexed.old.names
        lexed.new.tokens.items lexed.new.names) }
    ensures err { IfErr result (StopsHere bytes.now place) }
{
    match lexeme_at(alloc, bytes)? {
        Ok(Found::Name(length)) => {
            let number = lexed.names.insert(alloc, &bytes[..length])?;
            push_token(lexed, TokenKind::Name(number as u32), at, length, place)?;
            Ok(length)
        }
        Ok(Found::Token(kind, length)) => {
            push_token(lexed, kind, at, length, place)?;
            Ok(length)
        }
        Err(code) => Err(Stop::Refused(Refusal { place, code })),
    }
}

/// Takes what is at the front of the bytes, and gives its length.
fn step(
    alloc: Global,
    lexed: &mut Lexed,
    bytes: &[u8],
    at: usize,
    place: Place,
) -> Result<usize, Stop>
    requires some { 0 < length bytes.now }
    requires within { at + length bytes.now ≤ 1048576 }
    requires room { length lexed.old.names < 4294967296 }
    ensures ok { IfOk result (λ n. Steps bytes.now n at place lexed.old.tokens.items lexed.old.names
        lexed.new.tokens.items lexed.new.names) }
    ensures err { IfErr result (StopsHere bytes.now place) }
{
    match gap_at(bytes) {
        Gap::Taken(length) => Ok(length),
        Gap::Refused => Err(Stop::Refused(Refusal {
            place,
            code: Code::Lex,
        })),
        Gap::Absent => {
            if opens_trigraph(bytes) {
                Err(Stop::Refused(Refusal {
                    place,
                    code: Code::Lex,
                }))
            } else {
                take_token(alloc, lexed, bytes, at, place)
            }
        }
    }
}

/// The tokens of a source of at most 1,048,576 bytes (C99 6.4).
///
/// A source is refused with `Code::Lex` where no token, blank or comment begins that C99 reads in the same way, or a
/// number is no constant, with `Code::Limit(2)` at a constant for which there is no type, and with `Code::Limit(6)` at
/// a name of more than 255 bytes or a string of more than 4,095. The first such place counts. The numbers are in the
/// range of their type.
pub fn lex(alloc: Global, source: &[u8]) -> Result<Lexed, Stop>
    requires { length source.now ≤ 1048576 }
    ensures tokens { IfOk result (λ lexed. AreTokensOf source.now lexed.tokens.items lexed.names) }
    ensures numbers { IfOk result (λ lexed. NumbersFit lexed.tokens.items) }
    ensures refused { IfErr result (StopsSource source.now) }
{
    let mut lexed = Lexed {
        tokens: Vec::new(alloc),
        names: Names::new(alloc),
    };
    let mut place = Place { line: 1, column: 1 };
    let mut at = 0;
    while at < source.len() {
        let rest = &source[at..];
        let length = step(alloc, &mut lexed, rest, at, place)?;
        place = place_behind(place, &rest[..length]);
        at += length;
    }
    Ok(lexed)
}

/// A source has one list of tokens and names, or is refused once, and never both.
pub fn one_cut()
    ensures tokens { (source : List ℕ) (ts us : List Item) (n m : List (List ℕ))
        → AreTokensOf source ts n → AreTokensOf source us m → (ts ≡ us) × (n ≡ m) }
    ensures refusal { (source : List ℕ) (r q : Reason) → RefusedAt source r → RefusedAt source q → r ≡ q }
    ensures either { (source : List ℕ) (ts : List Item) (n : List (List ℕ)) (r : Reason)
        → AreTokensOf source ts n → RefusedAt source r → ⊥ }
{}
