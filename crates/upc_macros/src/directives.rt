//! What directives do (C99 6.10).
ghost use Rattle.std.specs.Prelude.{◌≡◌, ◌-◌, ◌<◌, ◌≤◌, ℕ, List, length, take, drop, IfSome};
ghost use Rattle.std.specs.Option.{option_map, ForSome};
ghost use Rattle.upc_lexer.specs.declared.token.Token.{Token as Item};
ghost use Rattle.upc_macros.specs.Spelling.{are_alike};
ghost use Rattle.upc_macros.specs.Directives.{header_effect, include_effect, macro_name, has_parameters};
ghost use Rattle.upc_macros.specs.Directives.{define_effect, define_name, undefine_effect, access_effect};
ghost use Rattle.upc_macros.specs.Directives.{pragma_effect, effect_of};
ghost use Rattle.upc_macros.specs.code.Effects.{effect_seen, IsChange, IsKeyword};
ghost use Rattle.upc_macros.specs.code.Lines.{line_effect};
ghost use Rattle.upc_macros.specs.code.Table.{seen, AreInOrder, AreOrdered, AreBodies, IsBody, body_tokens};

use crate::continuation::goes_on;
use crate::spelling::spelling;
use crate::table::Body;
use upc_lexer::{Punct, Token, TokenKind};

/// What a directive does.
pub(crate) enum Effect {
    Nothing,
    /// It is a pragma: strict, or relaxed.
    Pragma(bool),
    /// The name of this number becomes a macro.
    Define(usize, Body),
    /// The name of this number is no macro any more.
    Undefine(usize),
}

/// What it does to include this header.
fn header_effect(text: &[u8]) -> Option<Effect>
    ensures effect { (tokens : List Item) → option_map (effect_seen tokens) result ≡ header_effect text.now }
    ensures within { (tokens : List Item) (names : ℕ) → IfSome result (IsChange tokens names) }
{
    if text == b"<upc_strict.h>".as_slice() {
        Some(Effect::Pragma(true))
    } else if text == b"<upc_relaxed.h>".as_slice() {
        Some(Effect::Pragma(false))
    } else if text == b"<upc.h>".as_slice()
        || text == b"<upc_collective.h>".as_slice()
        || text == b"<stdio.h>".as_slice()
        || text == b"<stddef.h>".as_slice()
    {
        Some(Effect::Nothing)
    } else {
        None
    }
}

fn include_effect(source: &[u8], line: &[Token]) -> Option<Effect>
    requires { AreOrdered (length source.now) line.now }
    ensures effect { (tokens : List Item) → option_map (effect_seen tokens) result
        ≡ include_effect source.now line.now }
    ensures within { (tokens : List Item) (names : ℕ) → IfSome result (IsChange tokens names) }
{
    let [first, ..] = line else {
        return None;
    };
    let last = &line[line.len() - 1];
    header_effect(&source[first.start as usize..last.end as usize])
}

/// The number of the name that a directive speaks of.
fn macro_name(source: &[u8], token: &Token) -> Option<usize>
    requires forward { token.now.start ≤ token.now.end }
    requires within { token.now.end ≤ length source.now }
    ensures { result ≡ macro_name source.now token.now }
{
    if spelling(source, token) == b"NULL".as_slice() {
        return None;
    }
    match token.kind {
        TokenKind::Name(number) => Some(number as usize),
        _ => None,
    }
}

/// Whether a `(` stands directly after the name.
fn has_parameters(name: &Token, body: &[Token]) -> bool
    ensures { result ≡ has_parameters name.now body.now }
{
    match body {
        [first, ..] => {
            matches!(first.kind, TokenKind::Punct(Punct::LParen)) && first.start == name.end
        }
        [] => false,
    }
}

/// Whether the tokens are spelled alike, one by one.
fn are_alike(source: &[u8], old: &[Token], new: &[Token]) -> bool
    requires old { AreOrdered (length source.now) old.now }
    requires new { AreOrdered (length source.now) new.now }
    ensures { result ≡ are_alike source.now old.now new.now }
{
    if old.len() != new.len() {
        return false;
    }
    for i in 0..old.len() {
        if spelling(source, &old[i]) != spelling(source, &new[i]) {
            return false;
        }
    }
    true
}

fn undefine_effect(source: &[u8], line: &[Token]) -> Option<Effect>
    requires { AreOrdered (length source.now) line.now }
    ensures effect { (tokens : List Item) → option_map (effect_seen tokens) result
        ≡ undefine_effect source.now line.now }
    ensures within { (tokens : List Item) (names : ℕ)
        → AreInOrder (length source.now) names line.now → IfSome result (IsChange tokens names) }
{
    let [name] = line else {
        return None;
    };
    match macro_name(source, name) {
        Some(number) => Some(Effect::Undefine(number)),
        None => None,
    }
}

fn access_effect(source: &[u8], line: &[Token]) -> Option<Effect>
    requires { AreOrdered (length source.now) line.now }
    ensures effect { (tokens : List Item) → option_map (effect_seen tokens) result ≡ access_effect source.now line.now }
    ensures within { (tokens : List Item) (names : ℕ) → IfSome result (IsChange tokens names) }
{
    let [access] = line else {
        return None;
    };
    let text = spelling(source, access);
    if text == b"strict".as_slice() {
        Some(Effect::Pragma(true))
    } else if text == b"relaxed".as_slice() {
        Some(Effect::Pragma(false))
    } else {
        None
    }
}

fn pragma_effect(source: &[u8], line: &[Token]) -> Option<Effect>
    requires { AreOrdered (length source.now) line.now }
    ensures effect { (tokens : List Item) → option_map (effect_seen tokens) result ≡ pragma_effect source.now line.now }
    ensures within { (tokens : List Item) (names : ℕ) → IfSome result (IsChange tokens names) }
{
    match line {
        [] => None,
        [first, rest @ ..] => {
            if spelling(source, first) == b"upc".as_slice() {
                access_effect(source, rest)
            } else {
                Some(Effect::Nothing)
            }
        }
    }
}

/// A first definition of the name of this number, or one more.
fn definition(
    source: &[u8],
    tokens: &[Token],
    old: Option<Body>,
    number: usize,
    body: Body,
) -> Option<Effect>
    requires tokens { AreOrdered (length source.now) tokens.now }
    requires old { ForSome old (IsBody tokens.now) }
    requires body { IsBody tokens.now body }
    ensures effect { option_map (effect_seen tokens.now) result
        ≡ define_name source.now (option_map (body_tokens tokens.now) old) number
        (body_tokens tokens.now body) }
    ensures within { (names : ℕ) → number < names → IfSome result (IsChange tokens.now names) }
{
    match old {
        None => Some(Effect::Define(number, body)),
        Some(old) => {
            if are_alike(
                source,
                &tokens[old.begin..old.end],
                &tokens[body.begin..body.end],
            ) {
                Some(Effect::Nothing)
            } else {
                None
            }
        }
    }
}

/// What the definition does that the tokens from `begin` up to `end` write.
fn define_effect(
    source: &[u8],
    tokens: &[Token],
    macros: &[Option<Body>],
    begin: usize,
    end: usize,
) -> Option<Effect>
    requires tokens { AreInOrder (length source.now) (length macros.now) tokens.now }
    requires bodies { AreBodies tokens.now macros.now }
    requires forward { begin ≤ end }
    requires within { end ≤ length tokens.now }
    ensures effect { option_map (effect_seen tokens.now) result
        ≡ define_effect source.now (seen tokens.now macros.now)
        (take (end - begin) (drop begin tokens.now)) }
    ensures within { IfSome result (IsChange tokens.now (length macros.now)) }
{
    if begin == end {
        return None;
    }
    let name = &tokens[begin];
    let body = Body {
        begin: begin + 1,
        end,
    };
    if has_parameters(name, &tokens[body.begin..body.end]) {
        return None;
    }
    match macro_name(source, name) {
        Some(number) => definition(source, tokens, macros[number], number, body),
        None => None,
    }
}

/// The words that directives begin with.
enum Keyword {
    Include,
    Define,
    Undef,
    Pragma,
    Other,
}

fn first_word(source: &[u8], token: &Token) -> Keyword
    requires forward { token.now.start ≤ token.now.end }
    requires within { token.now.end ≤ length source.now }
    ensures { IsKeyword source.now token.now result }
{
    let text = spelling(source, token);
    if text == b"include".as_slice() {
        Keyword::Include
    } else if text == b"define".as_slice() {
        Keyword::Define
    } else if text == b"undef".as_slice() {
        Keyword::Undef
    } else if text == b"pragma".as_slice() {
        Keyword::Pragma
    } else {
        Keyword::Other
    }
}

/// What the tokens after a `#` do, from `begin` up to `end`: `None` if they are no directive.
fn effect_of(
    source: &[u8],
    tokens: &[Token],
    macros: &[Option<Body>],
    begin: usize,
    end: usize,
) -> Option<Effect>
    requires tokens { AreInOrder (length source.now) (length macros.now) tokens.now }
    requires bodies { AreBodies tokens.now macros.now }
    requires forward { begin ≤ end }
    requires within { end ≤ length tokens.now }
    ensures effect { option_map (effect_seen tokens.now) result
        ≡ effect_of source.now (seen tokens.now macros.now)
        (take (end - begin) (drop begin tokens.now)) }
    ensures within { IfSome result (IsChange tokens.now (length macros.now)) }
{
    if begin == end {
        return Some(Effect::Nothing);
    }
    let line = &tokens[begin + 1..end];
    match first_word(source, &tokens[begin]) {
        Keyword::Include => include_effect(source, line),
        Keyword::Define => define_effect(source, tokens, macros, begin + 1, end),
        Keyword::Undef => undefine_effect(source, line),
        Keyword::Pragma => pragma_effect(source, line),
        Keyword::Other => None,
    }
}

/// What the directive does whose `#` has the index `begin`, and whose tokens end before `end`: `None` if it is none, or
/// if C99 goes on with it after its line.
pub(crate) fn directive_effect(
    source: &[u8],
    tokens: &[Token],
    macros: &[Option<Body>],
    begin: usize,
    end: usize,
) -> Option<Effect>
    requires tokens { AreInOrder (length source.now) (length macros.now) tokens.now }
    requires bodies { AreBodies tokens.now macros.now }
    requires forward { begin < end }
    requires within { end ≤ length tokens.now }
    ensures effect { option_map (effect_seen tokens.now) result
        ≡ line_effect source.now tokens.now macros.now begin end }
    ensures within { IfSome result (IsChange tokens.now (length macros.now)) }
{
    let last = &tokens[end - 1];
    if goes_on(&source[last.end as usize..]) {
        return None;
    }
    effect_of(source, tokens, macros, begin + 1, end)
}
