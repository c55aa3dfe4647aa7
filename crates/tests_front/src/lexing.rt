//! Constants, escapes, marks, places, names and refusals, from C99 6.4 and the tables of docs/LANGUAGE.md.

use crate::macros::{are_placed, stopped};
use std::alloc::{AllocError as OutOfMemory, Global};
use std::test::Fail;
use upc_lexer::{Token, TokenKind, lex};

// Adds the kind of a token, a number as its value and type.
fn put_kind(text: &mut String, kind: &TokenKind) -> Result<(), OutOfMemory> {
    match kind {
        TokenKind::Number { value, kind } => write!(text, "{value} {kind:?} "),
        kind => write!(text, "{kind:?} "),
    }
}

fn kinds(alloc: Global, tokens: &[Token]) -> Result<String, OutOfMemory> {
    let mut text = String::new(alloc);
    for token in tokens {
        put_kind(&mut text, &token.kind)?;
    }
    Ok(text)
}

// The kinds of the tokens, or why there are none.
fn shown(alloc: Global, source: &str) -> Result<String, Fail> {
    if source.len() > 1_048_576 {
        return Ok(String::new(alloc));
    }
    match lex(alloc, source.as_bytes()) {
        Ok(lexed) => Ok(kinds(alloc, lexed.tokens.as_slice())?),
        Err(stop) => stopped(alloc, stop),
    }
}

// Whether a source gives this.
fn comes_to(alloc: Global, source: &str, want: &str) -> Result<bool, Fail> {
    let got = shown(alloc, source)?;
    Ok(got.as_str() == want)
}

// A source, and its tokens or its refusal. A constant has the smallest type in the list for its base and suffix
// (C99 6.4.4.1).
const SOURCES: [(&str, &str); 93] = [
    ("0", "0 Int "),
    ("2147483647", "2147483647 Int "),
    ("2147483648", "2147483648 Long "),
    ("4294967295", "4294967295 Long "),
    ("9223372036854775807", "9223372036854775807 Long "),
    ("0x7fffffff", "2147483647 Int "),
    ("0x80000000", "2147483648 UInt "),
    ("0XFFFFffff", "4294967295 UInt "),
    ("0x100000000", "4294967296 Long "),
    ("0xffffffffffffffff", "18446744073709551615 ULong "),
    ("0777", "511 Int "),
    ("037777777777", "4294967295 UInt "),
    ("01777777777777777777777", "18446744073709551615 ULong "),
    ("1u", "1 UInt "),
    ("4294967296U", "4294967296 ULong "),
    ("1l", "1 Long "),
    ("0x8000000000000000", "9223372036854775808 ULong "),
    ("0x8000000000000000L", "9223372036854775808 ULong "),
    ("9223372036854775808u", "9223372036854775808 ULong "),
    ("1ul", "1 ULong "),
    ("1LU", "1 ULong "),
    ("1llu", "1 ULong "),
    ("1uLL", "1 ULong "),
    ("a+++b", "Name(0) Punct(PlusPlus) Punct(Plus) Name(1) "),
    (
        "a<<=b>>c",
        "Name(0) Punct(ShiftLeftEqual) Name(1) Punct(ShiftRight) Name(2) ",
    ),
    ("x->y.z", "Name(0) Punct(Arrow) Name(1) Punct(Dot) Name(2) "),
    ("##=", "Punct(HashHash) Punct(Equal) "),
    (
        "int int_ upc_forall _ int_",
        "Word(Int) Name(0) Word(UpcForall) Name(1) Name(0) ",
    ),
    (
        "UPC_MAX_BLOCK_SIZE union _Bool",
        "Word(UpcMaxBlockSize) Word(Union) Word(Bool) ",
    ),
    (
        "a/**/b//c\nd/*x*/*/",
        "Name(0) Name(1) Name(2) Punct(Star) Punct(Slash) ",
    ),
    (
        "'a' '\\n' '\\'' '\"' '\\0' '\\\\'",
        "Character(97) Character(10) Character(39) Character(34) Character(0) Character(92) ",
    ),
    (
        "'\\a''\\b''\\t''\\v''\\f''\\r''\\?'",
        "Character(7) Character(8) Character(9) Character(11) Character(12) Character(13) Character(63) ",
    ),
    (
        "\"\" \"a\\\"'b\"",
        "Str(Text { bytes: [] }) Str(Text { bytes: [97, 34, 39, 98] }) ",
    ),
    ("", ""),
    ("a\n  @", "2:3 Lex"),
    ("int @;", "1:5 Lex"),
    ("int /* x", "1:5 Lex"),
    ("a b/*c\n", "1:4 Lex"),
    ("/*/", "1:1 Lex"),
    ("x 08", "1:3 Lex"),
    ("0x", "1:1 Lex"),
    ("1.0", "1:1 Lex"),
    (".5", "1:1 Lex"),
    ("1lul", "1:1 Lex"),
    ("1lL", "1:1 Lex"),
    ("12ab", "1:1 Lex"),
    ("''", "1:1 Lex"),
    ("'ab'", "1:1 Lex"),
    ("'\\x'", "1:1 Lex"),
    ("\"a\nb\"", "1:1 Lex"),
    ("\"a", "1:1 Lex"),
    ("\"\\9\"", "1:1 Lex"),
    ("\ta 18446744073709551616", "1:4 Limit(2)"),
    ("9223372036854775808", "1:1 Limit(2)"),
    (
        "int main(void){return 18446744073709551616;}",
        "1:23 Limit(2)",
    ),
    ("0x10000000000000000", "1:1 Limit(2)"),
    ("@ 9223372036854775808", "1:1 Lex"),
    // A longer octal escape (C99 6.4.4.4).
    ("x \"\\00\"", "1:3 Lex"),
    ("\"a\\07\"", "1:1 Lex"),
    ("'\\01'", "1:1 Lex"),
    ("\"\\08\"", "Str(Text { bytes: [0, 56] }) "),
    (
        "\"\\0\"\"1\"",
        "Str(Text { bytes: [0] }) Str(Text { bytes: [49] }) ",
    ),
    ("\"\\\\01\"", "Str(Text { bytes: [92, 48, 49] }) "),
    // Trigraphs (C99 5.2.1.1).
    ("x \"??=\"", "1:3 Lex"),
    ("\"??/\"", "1:1 Lex"),
    ("\"a??'\"", "1:1 Lex"),
    ("\"\\??>\"", "1:1 Lex"),
    ("a??(", "1:2 Lex"),
    ("??=", "1:1 Lex"),
    ("? ??-", "1:3 Lex"),
    ("???!", "1:2 Lex"),
    (
        "\"??\" \"??:\"",
        "Str(Text { bytes: [63, 63] }) Str(Text { bytes: [63, 63, 58] }) ",
    ),
    ("?? '?'", "Punct(Question) Punct(Question) Character(63) "),
    ("/*??(*/ //??=", ""),
    // Line splices in comments (C99 5.1.1.2).
    ("x // y\\\nz", "1:3 Lex"),
    ("//\\", "1:1 Lex"),
    ("//\\\r\n", "1:1 Lex"),
    ("//??/\n", "1:1 Lex"),
    ("//??/\r", "1:1 Lex"),
    ("//?/\nx", "Name(0) "),
    ("//\\ \nx", "Name(0) "),
    ("x /**\\\n/", "1:3 Lex"),
    ("/* *\\\n/ x */", "1:1 Lex"),
    ("/* *\\\r\n/ x */", "1:1 Lex"),
    ("/* *??/\n/ x */", "1:1 Lex"),
    ("/* *??/\r\n/ x */", "1:1 Lex"),
    ("/* *\\\n\\\n/ x */", "1:1 Lex"),
    ("/*\\\n/ x */y", "Name(0) "),
    ("/* *\\\n * \\\n/ ??/\n*/y", "Name(0) "),
    // A sign after an exponent's letter (C99 6.4.8).
    ("0xe+1", "1:1 Lex"),
    ("x 0X1E-", "1:3 Lex"),
    ("0xe +1", "14 Int Punct(Plus) 1 Int "),
    ("0xf+0xE", "15 Int Punct(Plus) 14 Int "),
];

#[test]
fn sources(rt: HostRuntime) -> Result<(), Fail> {
    for (source, want) in &SOURCES {
        assert!(rt; comes_to(rt.alloc(), source, want)?, "{source}");
    }
    Ok(())
}

// What stands before so many bytes and after them, and whether they pass.
const LIMITS: [(&str, u32, bool); 4] = [
    ("", 255, true),
    ("", 256, false),
    ("\"", 4095, true),
    ("\"", 4096, false),
];

fn passes(alloc: Global, mark: &str, count: u32) -> Result<bool, Fail> {
    let mut source = String::from_str(alloc, mark)?;
    for _ in 0..count {
        source.push_str("x")?;
    }
    source.push_str(mark)?;
    Ok(!comes_to(alloc, source.as_str(), "1:1 Limit(6)")?)
}

// A name of 255 bytes and a string of 4,095 pass; one byte more does not.
#[test]
fn limits(rt: HostRuntime) -> Result<(), Fail> {
    for (mark, count, want) in &LIMITS {
        assert!(rt; passes(rt.alloc(), mark, *count)? == *want, "{count}");
    }
    Ok(())
}

// Where the tokens of a small source stand.
const PLACES: [(u32, u32, u32, u32); 4] = [
    (0, 2, 1, 1),
    (4, 5, 2, 2),
    (6, 8, 2, 4),
    (13, 14, 3, 3),
];

#[test]
fn places_and_names(rt: HostRuntime) -> Result<(), Fail> {
    let lexed = lex(rt.alloc(), b"ab\n\tc ab/*\n*/c")?;
    assert!(rt; are_placed(lexed.tokens.as_slice(), &PLACES));
    assert_eq!(rt; lexed.names.len(), 2);
    assert!(rt; lexed.names.get(1) == Some(b"c".as_slice()));
    assert!(rt; !lexed.names.is_empty());
    Ok(())
}
