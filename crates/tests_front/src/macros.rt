//! Macros, directives, refused words and the limit, from C99 6.10 and the tables of docs/LANGUAGE.md.
use std::alloc::{AllocError as OutOfMemory, Global};
use std::test::Fail;
use upc_lexer::{Token, TokenKind, lex};
use upc_macros::expand;
use upc_text::{Refusal, Stop};

/// The expanded tokens, or what stopped the expansion.
pub fn expanded(alloc: Global, source: &str) -> Result<Vec<Token>, Stop> {
    let bytes = source.as_bytes();
    if bytes.len() > 1_048_576 {
        return Err(Stop::Memory);
    }
    let lexed = lex(alloc, bytes)?;
    expand(alloc, bytes, &lexed)
}

/// Three texts, one after the other.
pub fn joined(
    alloc: Global,
    first: &str,
    second: &str,
    third: &str,
) -> Result<String, OutOfMemory> {
    let mut text = String::from_str(alloc, first)?;
    text.push_str(second)?;
    text.push_str(third)?;
    Ok(text)
}

// Adds a token as it is spelled.
fn put_token(text: &mut String, source: &str, token: &Token) -> Result<(), OutOfMemory> {
    match &token.kind {
        TokenKind::Pragma(strict) => text.push_str(if *strict { "STRICT" } else { "RELAXED" }),
        TokenKind::Number { value, .. } => write!(text, "{value}"),
        _ => {
            let part = source.get(token.start as usize..token.end as usize);
            text.push_str(part.unwrap_or("?"))
        }
    }
}

// The tokens as they are spelled, with a blank after each.
fn spelled(alloc: Global, source: &str, tokens: &[Token]) -> Result<String, OutOfMemory> {
    let mut text = String::new(alloc);
    for token in tokens {
        put_token(&mut text, source, token)?;
        text.push_str(" ")?;
    }
    Ok(text)
}

/// What stopped a source, in words.
pub fn stopped(alloc: Global, stop: Stop) -> Result<String, Fail> {
    Ok(match stop {
        Stop::Refused(Refusal { place, code }) => {
            format!(in alloc; "{}:{} {code:?}", place.line, place.column)?
        }
        Stop::Memory => format!(in alloc; "no memory")?,
    })
}

// The tokens as they are spelled, or what stopped the expansion.
fn shown(alloc: Global, source: &str) -> Result<String, Fail> {
    match expanded(alloc, source) {
        Ok(tokens) => Ok(spelled(alloc, source, tokens.as_slice())?),
        Err(stop) => stopped(alloc, stop),
    }
}

// Whether a source gives this.
fn comes_to(alloc: Global, source: &str, want: &str) -> Result<bool, Fail> {
    let got = shown(alloc, source)?;
    Ok(got.as_str() == want)
}

// A source, and its tokens after expansion or its refusal.
const SOURCES: [(&str, &str); 57] = [
    (
        "#define N 5\nint main(void){return N*2;}",
        "int main ( void ) { return 5 * 2 ; } ",
    ),
    ("#define A A+1\nA", "A + 1 "),
    ("#define a b c\n#define b a d\na b", "a d c b c d "),
    ("#define X Y\nX\n#define Y X 7\nX Y", "Y X 7 Y 7 "),
    ("#define X 1\n#undef X\n#undef X\nX", "X "),
    ("#define X (1 + 2)\n#define X (1/**/+2)\nX", "( 1 + 2 ) "),
    ("#define X 1\n#undef X\n#define X 2\nX", "2 "),
    ("#define E\nE E x E", "x "),
    (
        "#define E\n#define F E E\nF\n#undef E\nF\n#define E x\nF",
        "E E x x ",
    ),
    (
        "#define E\n#define F E G E\nF F\n#define G E E\nF F G\n#undef G\nF",
        "G G G ",
    ),
    (
        "#define G H E\n#define H E G E\n#define E\nG H E G",
        "G H G ",
    ),
    ("#define F (x)\nF", "( x ) "),
    ("#define Z NULL\nNULL Z", "0 0 "),
    ("#define U union\nx", "x "),
    ("/* a\n */ # define X 1\nX", "1 "),
    ("#include <upc_strict.h>\nint", "STRICT int "),
    (
        "#include <upc_relaxed.h>\n#include <upc.h>\n#include <stdio.h>\n#include <stddef.h>\n\
         #include<upc_collective.h>",
        "RELAXED ",
    ),
    ("#pragma upc strict\n#pragma omp union\n#\n", "STRICT "),
    ("a ## b", "a ## b "),
    ("", ""),
    ("#define F(x) x", "1:1 Directive"),
    ("x\n  #if 1", "2:3 Directive"),
    ("#error", "1:1 Directive"),
    ("x # y", "1:3 Directive"),
    ("#define int 1", "1:1 Directive"),
    ("#define NULL 1", "1:1 Directive"),
    ("#define 1 2", "1:1 Directive"),
    ("#define", "1:1 Directive"),
    ("#define X 1\n#define X 2", "2:1 Directive"),
    ("#define X 1\n#define X 1 1", "2:1 Directive"),
    ("#undef", "1:1 Directive"),
    ("#undef NULL", "1:1 Directive"),
    ("#undef A B", "1:1 Directive"),
    ("#include", "1:1 Directive"),
    ("#include <math.h>", "1:1 Directive"),
    ("#include \"stdio.h\"", "1:1 Directive"),
    ("#include < stdio.h>", "1:1 Directive"),
    ("#include <stdio.h> x", "1:1 Directive"),
    ("#pragma", "1:1 Directive"),
    ("#pragma upc", "1:1 Directive"),
    ("#pragma upc fast", "1:1 Directive"),
    ("#pragma upc strict strict", "1:1 Directive"),
    ("a union", "1:3 Profile(11)"),
    ("#define U int union\n\n  U", "3:3 Profile(11)"),
    ("auto", "1:1 Profile(1)"),
    ("_Imaginary", "1:1 Profile(15)"),
    ("union\n#if", "1:1 Profile(11)"),
    ("#if\nunion", "1:1 Directive"),
    // A directive goes on past a comment (C99 5.1.1.2).
    ("#define X 1 /*\n*/ 2\nX", "1:1 Directive"),
    ("x\n#define X /*\n*/ /*\n*//**/1", "2:1 Directive"),
    ("# /*\n*/ define X", "1:1 Directive"),
    ("#undef X /*\n*/ #undef X", "1:1 Directive"),
    ("#pragma omp /*\n*//", "1:1 Directive"),
    ("#define X 1 /*\n*/\nX", "1 "),
    ("#define X 1 /*\n* /**/ // 2\nX", "1 "),
    ("#define X 1 /*\n*/ /*\n\n*/", ""),
    ("#define X 1 // /*\nX /*\n*/ X", "1 1 "),
];

#[test]
fn sources(rt: HostRuntime) -> Result<(), Fail> {
    for (source, want) in &SOURCES {
        assert!(rt; comes_to(rt.alloc(), source, want)?, "{source}");
    }
    Ok(())
}

const PLACED: &str = "#define N x NULL\n N NULL\n #pragma upc strict /**/\n";

// A token that comes from a macro has the place of the use, and the slice of its spelling in the definition.
const PLACES: [(u32, u32, u32, u32); 4] = [
    (10, 11, 2, 2),
    (12, 16, 2, 2),
    (20, 24, 2, 4),
    (26, 44, 3, 2),
];

/// Whether these are the starts, the ends, the lines and the columns of tokens.
pub fn are_placed(tokens: &[Token], rows: &[(u32, u32, u32, u32)]) -> bool {
    if tokens.len() != rows.len() {
        return false;
    }
    for (token, (start, end, line, column)) in tokens.iter().zip(rows) {
        let is_sliced = token.start == *start && token.end == *end;
        if !is_sliced || token.place.line != *line || token.place.column != *column {
            return false;
        }
    }
    true
}

#[test]
fn places(rt: HostRuntime) -> Result<(), Fail> {
    let tokens = expanded(rt.alloc(), PLACED)?;
    assert!(rt; are_placed(tokens.as_slice(), &PLACES));
    Ok(())
}

// Macros by number up to a last one, each for twice the one before, after the definition of the first.
fn doubling(alloc: Global, first: &str, levels: u32) -> Result<String, OutOfMemory> {
    let mut source = String::from_str(alloc, first)?;
    let mut below = 0u32;
    for level in 1..levels {
        writeln!(source, "#define A{level} A{below} A{below}")?;
        below = level;
    }
    Ok(source)
}

// Whether a text after 64 of them, of which the first is one token, gives this.
fn limited(alloc: Global, text: &str, want: &str) -> Result<bool, Fail> {
    let source = doubling(alloc, "#define A0 x\n", 65)?;
    let whole = joined(alloc, source.as_str(), text, "")?;
    comes_to(alloc, whole.as_str(), want)
}

// How many tokens a text after them has.
fn count(alloc: Global, text: &str) -> Result<Option<usize>, Fail> {
    let source = doubling(alloc, "#define A0 x\n", 65)?;
    let whole = joined(alloc, source.as_str(), text, "")?;
    match expanded(alloc, whole.as_str()) {
        Ok(tokens) => Ok(Some(tokens.len())),
        Err(_) => Ok(None),
    }
}

// 2^20 tokens pass; one more does not, and macros that ask for 2^64 are cut at the limit.
#[test]
fn limit(rt: HostRuntime) -> Result<(), Fail> {
    assert_eq!(rt; count(rt.alloc(), "A20")?, Some(1_048_576));
    for (text, want) in [("A20 y", "66:5 Limit(1)"), ("\n A64", "67:2 Limit(1)")] {
        assert!(rt; limited(rt.alloc(), text, want)?, "{text}");
    }
    Ok(())
}

// A text after 60 macros that stand for nothing, and what it gives.
const NOTHING: [(&str, &str); 3] = [
    ("A60 x A60", "x "),
    ("A60\n#define B A60 x A60\nB A60 B", "x x "),
    (
        "A60\n#undef A0\n#define A0 union\n\nA60",
        "66:1 Profile(11)",
    ),
];

// Macros that stand for nothing, each for twice the one before, take no time: 60 of them, which would be 2^60 turns.
#[test]
fn nothing_doubled(rt: HostRuntime) -> Result<(), Fail> {
    let source = doubling(rt.alloc(), "#define A0\n", 61)?;
    for (text, want) in &NOTHING {
        let whole = joined(rt.alloc(), source.as_str(), text, "")?;
        assert!(rt; comes_to(rt.alloc(), whole.as_str(), want)?, "{text}");
    }
    Ok(())
}
