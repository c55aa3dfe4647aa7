//! Lines, and what they become.
ghost use Rattle.std.specs.Prelude.{◌≡◌, ◌+◌, ◌-◌, ◌<◌, ◌≤◌, ◌∷◌, ◌==◌, ℕ, List, length, take, drop, IfOk, IfErr, OnOk};
ghost use Rattle.std.specs.List.{prefix_len};
ghost use Rattle.upc_macros.specs.Expansion.{is_hash, text_items, lines_of, macros_after, IsExpansion, StopsExpansion};
ghost use Rattle.upc_lexer.specs.Numbers.{NumbersFit};
ghost use Rattle.upc_lexer.specs.Tokens.{AreTokensOf};
ghost use Rattle.upc_lexer.specs.declared.token.Token.{Token as Item};
ghost use Rattle.upc_macros.specs.Replacing.{Macros, replaced};
ghost use Rattle.upc_macros.specs.code.Lines.{line_effect, line_items, LineDone, LineStops};
ghost use Rattle.upc_macros.specs.code.Table.{seen, AreInOrder, AreBodies, Takes, StopsIn};
ghost use Rattle.upc_macros.specs.code.Known.{AreKnown};

use crate::directives::{Effect, directive_effect};
use crate::known::Known;
use crate::output::emit;
use crate::table::Body;
use crate::walk::replace;
use std::alloc::Global;
use upc_lexer::{Lexed, Punct, Token, TokenKind};
use upc_text::{Code, Refusal, Stop};

fn is_hash(kind: &TokenKind) -> bool
    ensures { result ≡ is_hash kind.now }
{
    matches!(kind, TokenKind::Punct(Punct::Hash))
}

/// Puts out what the tokens of a line of text become.
fn text_line(
    alloc: Global,
    source: &[u8],
    tokens: &[Token],
    macros: &mut Vec<Option<Body>>,
    known: &mut Known,
    line: &[Token],
    expanded: &mut Vec<Token>,
) -> Result<(), Stop>
    requires tokens { AreInOrder (length source.now) (length macros.old.items) tokens.now }
    requires line { AreInOrder (length source.now) (length macros.old.items) line.now }
    requires bodies { AreBodies tokens.now macros.old.items }
    requires known { AreKnown source.now tokens.now macros.old.items expanded.old.items known.old }
    ensures since { OnOk result (known.new.since ≡ known.old.since) }
    ensures known { OnOk result (AreKnown source.now tokens.now macros.old.items expanded.new.items known.new) }
    ensures macros { OnOk result (macros.new.items ≡ macros.old.items) }
    ensures ok { OnOk result (Takes expanded.old.items expanded.new.items
        (text_items source.now (seen tokens.now macros.old.items) line.now)) }
    ensures err { IfErr result (StopsIn (length expanded.old.items)
        (text_items source.now (seen tokens.now macros.old.items) line.now)) }
{
    for token in line {
        if is_hash(&token.kind) {
            return Err(Stop::Refused(Refusal {
                place: token.place,
                code: Code::Directive,
            }));
        }
        replace(alloc, source, tokens, macros, known, token, expanded)?;
    }
    Ok(())
}

/// Does what the directive says whose `#` has the index `begin`, and whose tokens end before `end`.
fn directive_line(
    source: &[u8],
    tokens: &[Token],
    macros: &mut Vec<Option<Body>>,
    known: &mut Known,
    begin: usize,
    end: usize,
    expanded: &mut Vec<Token>,
) -> Result<(), Stop>
    requires tokens { AreInOrder (length source.now) (length macros.old.items) tokens.now }
    requires bodies { AreBodies tokens.now macros.old.items }
    requires forward { begin < end }
    requires within { end ≤ length tokens.now }
    requires known { AreKnown source.now tokens.now macros.old.items expanded.old.items known.old }
    requires since { known.old.since ≤ begin }
    ensures since { OnOk result (known.new.since ≤ end) }
    ensures known { OnOk result (AreKnown source.now tokens.now macros.new.items expanded.new.items known.new) }
    ensures length { OnOk result (length macros.new.items ≡ length macros.old.items) }
    ensures bodies { OnOk result (AreBodies tokens.now macros.new.items) }
    ensures macros { OnOk result (seen tokens.now macros.new.items
        ≡ macros_after (seen tokens.now macros.old.items)
        (line_effect source.now tokens.now macros.old.items begin end)) }
    ensures ok { OnOk result (Takes expanded.old.items expanded.new.items
        (line_items source.now tokens.now macros.old.items begin end)) }
    ensures err { IfErr result (StopsIn (length expanded.old.items)
        (line_items source.now tokens.now macros.old.items begin end)) }
{
    let hash = &tokens[begin];
    let place = hash.place;
    match directive_effect(source, tokens, macros.as_slice(), begin, end) {
        None => Err(Stop::Refused(Refusal {
            place,
            code: Code::Directive,
        })),
        Some(Effect::Nothing) => Ok(()),
        Some(Effect::Pragma(strict)) => {
            let token = Token {
                kind: TokenKind::Pragma(strict),
                start: hash.start,
                end: tokens[end - 1].end,
                place,
            };
            emit(expanded, token)
        }
        Some(Effect::Define(number, body)) => {
            macros[number] = Some(body);
            known.change(number, true, end);
            Ok(())
        }
        Some(Effect::Undefine(number)) => {
            macros[number] = None;
            known.change(number, false, end);
            Ok(())
        }
    }
}

/// How many tokens of a line stand at the front.
fn count_on_line(rest: &[Token], line: u32) -> usize
    ensures { result ≡ prefix_len (λ t. t.place.line == line) rest.now }
{
    rest.iter()
        .take_while(|token| token.place.line == line)
        .count()
}

/// How many tokens of the first's line stand at the front.
fn line_length(rest: &[Token]) -> usize
    requires { 0 < length rest.now }
    ensures some { 0 < result }
    ensures within { result ≤ length rest.now }
    ensures lines { lines_of rest.now ≡ take result rest.now ∷ lines_of (drop result rest.now) }
{
    count_on_line(rest, rest[0].place.line)
}

/// Expands the line of the tokens from `begin` up to `end`.
fn expand_line(
    alloc: Global,
    source: &[u8],
    tokens: &[Token],
    macros: &mut Vec<Option<Body>>,
    known: &mut Known,
    begin: usize,
    end: usize,
    expanded: &mut Vec<Token>,
) -> Result<(), Stop>
    requires tokens { AreInOrder (length source.now) (length macros.old.items) tokens.now }
    requires bodies { AreBodies tokens.now macros.old.items }
    requires forward { begin < end }
    requires within { end ≤ length tokens.now }
    requires known { AreKnown source.now tokens.now macros.old.items expanded.old.items known.old }
    requires since { known.old.since ≤ begin }
    ensures since { OnOk result (known.new.since ≤ end) }
    ensures known { OnOk result (AreKnown source.now tokens.now macros.new.items expanded.new.items known.new) }
    ensures ok { OnOk result (LineDone source.now tokens.now
        (take (end - begin) (drop begin tokens.now)) macros.old.items macros.new.items
        expanded.old.items expanded.new.items) }
    ensures err { IfErr result (LineStops source.now tokens.now
        (take (end - begin) (drop begin tokens.now)) macros.old.items expanded.old.items) }
{
    if is_hash(&tokens[begin].kind) {
        directive_line(source, tokens, macros, known, begin, end, expanded)
    } else {
        text_line(
            alloc,
            source,
            tokens,
            macros,
            known,
            &tokens[begin..end],
            expanded,
        )
    }
}

/// The tokens after directives and macros (C99 6.10): a token that comes from a macro has the place of the macro's use.
///
/// A source is refused with `Code::Directive` at a `#` that begins no directive, with `Code::Profile` at a word that
/// this profile does not have, and with `Code::Limit(1)` at the token that would be the 1,048,577th. The first such
/// place counts.
pub fn expand(alloc: Global, source: &[u8], lexed: &Lexed) -> Result<Vec<Token>, Stop>
    requires { AreTokensOf source.now lexed.now.tokens.items lexed.now.names }
    ensures expansion { IfOk result (λ tokens.
        IsExpansion source.now lexed.now.tokens.items (length lexed.now.names) tokens.items) }
    ensures numbers { IfOk result (λ tokens. NumbersFit tokens.items) }
    ensures refused { IfErr result (StopsExpansion source.now lexed.now.tokens.items (length lexed.now.names)) }
{
    let tokens = lexed.tokens.as_slice();
    let mut macros: Vec<Option<Body>> = vec![in alloc; None; lexed.names.len()]?;
    let mut known = Known::new(alloc, lexed.names.len())?;
    let mut expanded = Vec::new(alloc);
    let mut at = 0;
    while at < tokens.len() {
        let end = at + line_length(&tokens[at..]);
        expand_line(
            alloc,
            source,
            tokens,
            &mut macros,
            &mut known,
            at,
            end,
            &mut expanded,
        )?;
        at = end;
    }
    Ok(expanded)
}

/// The bound on how deep macros lie in one another bounds nothing: more depth than there are names changes no token.
pub fn depth_is_enough()
    ensures { (depth : ℕ) (source : List ℕ) (macros : Macros) (t : Item) → length macros ≤ depth
        → replaced depth source macros t ≡ replaced (length macros) source macros t }
{}
