//! The token at the front of some bytes.
ghost use Rattle.std.specs.Prelude.{◌≡◌, ◌<◌, false, true, length, slice_index, IfOk, IfErr};
ghost use Rattle.std.specs.List.{prefix_len};
ghost use Rattle.upc_lexer.specs.Bytes.{is_letter, is_name_byte, is_number_byte};
ghost use Rattle.upc_lexer.specs.Tokens.{begins_number, takes_sign, Refuses};
ghost use Rattle.upc_lexer.specs.code.Found.{IsGapless, Finds};

use crate::bytes::{is_digit, is_letter, is_name_byte, is_number_byte};
use crate::marks::mark_at;
use crate::numbers::number;
use crate::strings::{character, string};
use crate::token::TokenKind;
use crate::words::word_of;
use std::alloc::Global;
use upc_text::{Code, OutOfMemory};

/// The most bytes of a name.
const NAME_LIMIT: usize = 255;

/// The most bytes of a string's value.
const STRING_LIMIT: usize = 4095;

/// What stands at the front of some bytes, and how many bytes it takes.
pub(crate) enum Found {
    Name(usize),
    Token(TokenKind, usize),
}

fn begins_number(bytes: &[u8]) -> bool
    ensures { result ≡ begins_number bytes.now }
{
    match bytes {
        [a, b, ..] => is_digit(*a) || (*a == b'.' && is_digit(*b)),
        [a] => is_digit(*a),
        [] => false,
    }
}

/// How many bytes of names stand at the front.
fn name_length(bytes: &[u8]) -> usize
    ensures { result ≡ prefix_len is_name_byte bytes.now }
{
    bytes.iter().take_while(|byte| is_name_byte(**byte)).count()
}

/// How many bytes of numbers stand at the front.
fn number_length(bytes: &[u8]) -> usize
    ensures { result ≡ prefix_len is_number_byte bytes.now }
{
    bytes
        .iter()
        .take_while(|byte| is_number_byte(**byte))
        .count()
}

/// A number ends in `e` or `E` directly before a sign.
fn takes_sign(text: &[u8], rest: &[u8]) -> bool
    ensures { result ≡ takes_sign text.now rest.now }
{
    if text.is_empty() || rest.is_empty() {
        return false;
    }
    is_digit(text[0])
        && matches!(text[text.len() - 1], b'e' | b'E')
        && matches!(rest[0], b'+' | b'-')
}

fn name_at(bytes: &[u8]) -> Result<Found, Code>
    requires some { 0 < length bytes.now }
    requires gapless { IsGapless bytes.now }
    requires letter { is_letter (slice_index bytes.now 0) ≡ true }
    ensures ok { IfOk result (Finds bytes.now) }
    ensures err { IfErr result (Refuses bytes.now) }
{
    let length = name_length(bytes);
    let text = &bytes[..length];
    if let Some(word) = word_of(text) {
        return Ok(Found::Token(TokenKind::Word(word), length));
    }
    if length > NAME_LIMIT {
        return Err(Code::Limit(6));
    }
    Ok(Found::Name(length))
}

fn number_at(bytes: &[u8]) -> Result<Found, Code>
    requires gapless { IsGapless bytes.now }
    requires begins { begins_number bytes.now ≡ true }
    ensures ok { IfOk result (Finds bytes.now) }
    ensures err { IfErr result (Refuses bytes.now) }
{
    let length = number_length(bytes);
    let (text, rest) = bytes.split_at(length);
    if takes_sign(text, rest) {
        return Err(Code::Lex);
    }
    match number(text) {
        Ok((value, kind)) => Ok(Found::Token(TokenKind::Number { value, kind }, length)),
        Err(code) => Err(code),
    }
}

fn character_at(bytes: &[u8]) -> Result<Found, Code>
    requires some { 0 < length bytes.now }
    requires gapless { IsGapless bytes.now }
    requires quote { slice_index bytes.now 0 ≡ 39 }
    ensures ok { IfOk result (Finds bytes.now) }
    ensures err { IfErr result (Refuses bytes.now) }
{
    match character(bytes) {
        Some((value, length)) => Ok(Found::Token(TokenKind::Character(value), length)),
        None => Err(Code::Lex),
    }
}

fn string_at(alloc: Global, bytes: &[u8]) -> Result<Result<Found, Code>, OutOfMemory>
    requires some { 0 < length bytes.now }
    requires gapless { IsGapless bytes.now }
    requires quote { slice_index bytes.now 0 ≡ 34 }
    ensures ok { IfOk result (λ r. IfOk r (Finds bytes.now)) }
    ensures err { IfOk result (λ r. IfErr r (Refuses bytes.now)) }
{
    match string(alloc, bytes)? {
        Some((value, length)) => {
            if value.len() > STRING_LIMIT {
                Ok(Err(Code::Limit(6)))
            } else {
                Ok(Ok(Found::Token(TokenKind::Str(value), length)))
            }
        }
        None => Ok(Err(Code::Lex)),
    }
}

fn mark_found(bytes: &[u8]) -> Result<Found, Code>
    requires some { 0 < length bytes.now }
    requires gapless { IsGapless bytes.now }
    requires no_letter { is_letter (slice_index bytes.now 0) ≡ false }
    requires no_number { begins_number bytes.now ≡ false }
    requires no_character { slice_index bytes.now 0 ≡ 39 → ⊥ }
    requires no_string { slice_index bytes.now 0 ≡ 34 → ⊥ }
    ensures ok { IfOk result (Finds bytes.now) }
    ensures err { IfErr result (Refuses bytes.now) }
{
    match mark_at(bytes) {
        Some((mark, length)) => Ok(Found::Token(TokenKind::Punct(mark), length)),
        None => Err(Code::Lex),
    }
}

/// The token at the front of bytes where no blank and no comment is.
pub(crate) fn lexeme_at(alloc: Global, bytes: &[u8]) -> Result<Result<Found, Code>, OutOfMemory>
    requires some { 0 < length bytes.now }
    requires gapless { IsGapless bytes.now }
    ensures ok { IfOk result (λ r. IfOk r (Finds bytes.now)) }
    ensures err { IfOk result (λ r. IfErr r (Refuses bytes.now)) }
{
    let first = bytes[0];
    if is_letter(first) {
        Ok(name_at(bytes))
    } else if begins_number(bytes) {
        Ok(number_at(bytes))
    } else if first == b'\'' {
        Ok(character_at(bytes))
    } else if first == b'"' {
        string_at(alloc, bytes)
    } else {
        Ok(mark_found(bytes))
    }
}
