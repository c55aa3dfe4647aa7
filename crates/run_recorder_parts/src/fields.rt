//! One word that is one value.

ghost use Rattle.std.specs.Prelude.{◌≡◌, ◌<◌, ◌^◌, ◌≤◌};
ghost use Rattle.run_recorder_parts.specs.Bounds.{most_u8, most_u32, most_u64, most_i32, most_i64, most_i128};
ghost use Rattle.run_recorder_parts.specs.layer.Readers.{Gives, begins, int_of, negative, number_of, same};
ghost use Rattle.run_recorder_parts.specs.layer.Values.{hex_of, home_of, mark_of, pairs_of, strict_of};

use crate::fail::Fail;
use crate::parts::is;
use hex::FromHexError;
use itoa::Buffer;
use std::alloc::Global;
use upc_values::Mark;

/// The number of at most `most` that the word writes in decimal, without leading zeros.
pub fn number(word: &[u8], most: u128) -> Option<u128>
    ensures { result ≡ number_of most word.now }
{
    let Ok(text) = std::str::from_utf8(word) else {
        return None;
    };
    let Ok(value) = text.parse::<u128>() else {
        return None;
    };
    if value > most {
        return None;
    }
    let mut buffer = Buffer::new();
    if *buffer.format(value).as_bytes() != *word {
        return None;
    }
    Some(value)
}

/// The u32 that the word writes.
pub fn number32(word: &[u8]) -> Result<u32, Fail>
    ensures { Gives same result (number_of most_u32 word.now) }
{
    match number(word, 4_294_967_295) {
        Some(value) => Ok(value as u32),
        None => Err(Fail::Bad),
    }
}

/// The u64 that the word writes.
pub fn number64(word: &[u8]) -> Result<u64, Fail>
    ensures { Gives same result (number_of most_u64 word.now) }
{
    match number(word, 18_446_744_073_709_551_615) {
        Some(value) => Ok(value as u64),
        None => Err(Fail::Bad),
    }
}

/// The u8 that the word writes.
pub fn number8(word: &[u8]) -> Result<u8, Fail>
    ensures { Gives same result (number_of most_u8 word.now) }
{
    match number(word, 255) {
        Some(value) => Ok(value as u8),
        None => Err(Fail::Bad),
    }
}

/// Whether the word begins with the byte.
pub fn starts(word: &[u8], byte: u8) -> bool
    requires { 0 < byte }
    ensures { result ≡ begins byte word.now }
{
    match word.first() {
        Some(first) => *first == byte,
        None => false,
    }
}

/// Whether an access is strict.
pub fn strict(word: &[u8]) -> Result<bool, Fail>
    ensures { Gives same result (strict_of word.now) }
{
    if is(word, "relaxed") {
        return Ok(false);
    }
    if is(word, "strict") {
        return Ok(true);
    }
    Err(Fail::Bad)
}

/// The number from -(most + 1) to `most` that the word writes.
pub fn int(word: &[u8], most: u128) -> Option<i128>
    requires { most < 2 ^ 127 }
    ensures { result ≡ int_of most word.now }
{
    match word {
        [45, rest @ ..] => negative(number(rest, most + 1)?),
        _ => Some(number(word, most)? as i128),
    }
}

// The negative of a number that is not 0.
fn negative(value: u128) -> Option<i128>
    requires { value ≤ 2 ^ 127 }
    ensures { result ≡ negative value }
{
    if value == 0 {
        return None;
    }
    Some(-1 - ((value - 1) as i128))
}

/// The i32 that the word writes.
pub fn int32(word: &[u8]) -> Result<i32, Fail>
    ensures { Gives same result (int_of most_i32 word.now) }
{
    match int(word, 2_147_483_647) {
        Some(value) => Ok(value as i32),
        None => Err(Fail::Bad),
    }
}

/// The i64 that the word writes.
pub fn int64(word: &[u8]) -> Result<i64, Fail>
    ensures { Gives same result (int_of most_i64 word.now) }
{
    match int(word, 9_223_372_036_854_775_807) {
        Some(value) => Ok(value as i64),
        None => Err(Fail::Bad),
    }
}

/// The i128 that the word writes.
pub fn int128(word: &[u8]) -> Result<i128, Fail>
    ensures { Gives same result (int_of most_i128 word.now) }
{
    match int(word, 170_141_183_460_469_231_731_687_303_715_884_105_727) {
        Some(value) => Ok(value),
        None => Err(Fail::Bad),
    }
}

/// The mark that the word writes.
pub fn mark(word: &[u8]) -> Result<Mark, Fail>
    ensures { Gives same result (mark_of word.now) }
{
    if starts(word, b'n') {
        return if is(word, "none") {
            Ok(Mark::Absent)
        } else {
            Err(Fail::Bad)
        };
    }
    if starts(word, b's') {
        return if is(word, "start") {
            Ok(Mark::Start)
        } else {
            Err(Fail::Bad)
        };
    }
    if starts(word, b'f') {
        return if is(word, "finish") {
            Ok(Mark::Finish)
        } else {
            Err(Fail::Bad)
        };
    }
    Ok(Mark::Given(int32(word)?))
}

/// The home that the word writes.
pub fn home(word: &[u8]) -> Result<Option<u32>, Fail>
    ensures { Gives same result (home_of word.now) }
{
    if starts(word, b'a') {
        return if is(word, "any") {
            Ok(None)
        } else {
            Err(Fail::Bad)
        };
    }
    Ok(Some(number32(word)?))
}

/// The bytes that the word writes.
pub fn hex(alloc: Global, word: &[u8]) -> Result<Vec<u8>, Fail>
    ensures { Gives (λ v. v.items) result (hex_of word.now) }
{
    if starts(word, b'-') {
        return if is(word, "-") {
            Ok(Vec::new(alloc))
        } else {
            Err(Fail::Bad)
        };
    }
    pairs(alloc, word)
}

// Bytes of two digits each.
fn pairs(alloc: Global, word: &[u8]) -> Result<Vec<u8>, Fail>
    ensures { Gives (λ v. v.items) result (pairs_of word.now) }
{
    let bytes = match hex::decode(alloc, word) {
        Ok(bytes) => bytes,
        Err(FromHexError::OutOfMemory) => return Err(Fail::Memory),
        Err(_) => return Err(Fail::Bad),
    };
    let text = hex::encode(alloc, bytes.as_slice())?;
    if bytes.len() < 1 || *text.as_bytes() != *word {
        return Err(Fail::Bad);
    }
    Ok(bytes)
}
