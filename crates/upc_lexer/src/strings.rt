//! Character constants and string literals (C99 6.4.4.4, 6.4.5).
ghost use Rattle.std.specs.Prelude.{◌≡◌, IfOk};
ghost use Rattle.upc_lexer.specs.Strings.{escape, is_plain_character, is_plain_string, spelled_at, IsStringBody};
ghost use Rattle.upc_lexer.specs.Strings.{opens_octal, has_octal, is_read_otherwise, FindsCharacter, FindsString};

use crate::splices::has_trigraph;
use std::alloc::Global;
use upc_text::{OutOfMemory, Text};

/// The byte that `\` and this one stand for.
fn escape(byte: u8) -> Option<u8>
    ensures { result ≡ escape byte }
{
    match byte {
        b'n' => Some(b'\n'),
        b't' => Some(b'\t'),
        b'r' => Some(b'\r'),
        b'a' => Some(7),
        b'b' => Some(8),
        b'f' => Some(12),
        b'v' => Some(11),
        b'\\' | b'\'' | b'"' | b'?' => Some(byte),
        b'0' => Some(0),
        _ => None,
    }
}

fn is_plain_character(byte: u8) -> bool
    ensures { result ≡ is_plain_character byte }
{
    matches!(byte, b' '..=b'~') && byte != b'\'' && byte != b'\\'
}

fn is_plain_string(byte: u8) -> bool
    ensures { result ≡ is_plain_string byte }
{
    byte >= b' ' && byte != 127 && byte != b'"' && byte != b'\\'
}

/// The value of the character constant at the front of the bytes, and how many bytes it takes.
pub(crate) fn character(bytes: &[u8]) -> Option<(u8, usize)>
    ensures { FindsCharacter bytes.now result }
{
    match bytes {
        [b'\'', b'\\', code, b'\'', ..] => Some((escape(*code)?, 4)),
        [b'\'', byte, b'\'', ..] if is_plain_character(*byte) => Some((*byte, 3)),
        _ => None,
    }
}

/// One byte of a string's value, and how many bytes spell it: `None` where neither a plain byte nor an escape stands.
fn spelled(bytes: &[u8]) -> Option<(u8, usize)>
    ensures { result ≡ spelled_at bytes.now }
{
    match bytes {
        [b'\\', code, ..] => Some((escape(*code)?, 2)),
        [byte, ..] if is_plain_string(*byte) => Some((*byte, 1)),
        _ => None,
    }
}

/// The value of as many bytes as may stand between two `"`, and how many they are. All copies of it share its bytes.
fn string_body(alloc: Global, inside: &[u8]) -> Result<(Text, usize), OutOfMemory>
    ensures { IfOk result (λ r. IsStringBody inside.now r.0 r.1) }
{
    let mut value = Text::new(alloc);
    let mut at = 0;
    while let Some((byte, length)) = spelled(&inside[at..]) {
        value.push(byte)?;
        at += length;
    }
    Ok((value.share()?, at))
}

/// `\0` and an octal digit are at the front.
fn opens_octal(bytes: &[u8]) -> bool
    ensures { result ≡ opens_octal bytes.now }
{
    match bytes {
        [a, b, c, ..] => *a == b'\\' && *b == b'0' && b'0' <= *c && *c <= b'7',
        _ => false,
    }
}

/// Such an escape stands somewhere in the bytes, where each `\` takes the byte after it.
fn has_octal(bytes: &[u8]) -> bool
    ensures { result ≡ has_octal bytes.now }
{
    let mut at = 0;
    while at < bytes.len() {
        if opens_octal(&bytes[at..]) {
            return true;
        }
        at += if bytes[at] == b'\\' { 2 } else { 1 };
    }
    false
}

/// C99 reads the bytes between two `"` in another way.
fn is_read_otherwise(inside: &[u8]) -> bool
    ensures { result ≡ is_read_otherwise inside.now }
{
    has_octal(inside) || has_trigraph(inside)
}

/// The value of the string literal at the front of the bytes, and how many bytes it takes.
pub(crate) fn string(alloc: Global, bytes: &[u8]) -> Result<Option<(Text, usize)>, OutOfMemory>
    ensures { IfOk result (FindsString bytes.now) }
{
    let [b'"', inside @ ..] = bytes else {
        return Ok(None);
    };
    let (value, length) = string_body(alloc, inside)?;
    if length < inside.len() && inside[length] == b'"' && !is_read_otherwise(&inside[..length]) {
        Ok(Some((value, length + 2)))
    } else {
        Ok(None)
    }
}
