//! The walk through macros that lie in one another.
ghost use Rattle.std.specs.Prelude.{◌≡◌, ◌+◌, ◌-◌, ◌<◌, ◌≤◌, if◌then◌else◌, Some, None, [], ◌∷◌, length};
ghost use Rattle.std.specs.Prelude.{slice_get, slice_set, nat_le, IfOk, IfErr, OnOk};
ghost use Rattle.upc_macros.specs.Replacing.{plain, replaced};
ghost use Rattle.upc_macros.specs.code.Table.{seen, AreInOrder, AreBodies, IsNumbered, IsWithin, Takes, StopsIn};
ghost use Rattle.upc_macros.specs.code.Table.{macro_count};
ghost use Rattle.upc_macros.specs.code.Walk.{IsFrame, placed_items, pending, put_back};
ghost use Rattle.upc_macros.specs.code.Known.{is_defined, AreKnown};

use crate::known::Known;
use crate::output::{emit, plain_token, repeat};
use crate::table::{Body, take_macro};
use std::alloc::Global;
use upc_lexer::Token;
use upc_text::{Place, Stop};

/// A macro that is being replaced: its name, the index of its next token, and how many tokens had been put out when it
/// was entered.
#[derive(Clone, Copy)]
pub(crate) struct Frame {
    pub(crate) name: usize,
    pub(crate) next: usize,
    pub(crate) before: usize,
    pub(crate) body: Body,
}

/// Learns what a macro gave, if no macro that was being replaced is among the tokens since it was entered: the last
/// such one is among the first `bound` of all `count`.
fn note(known: &mut Known, frame: &Frame, bound: usize, count: usize)
    requires name { frame.now.name < length known.old.gifts.items }
    requires before { frame.now.before ≤ count }
    ensures since { known.new.since ≡ known.old.since }
    ensures defined { known.new.defined.items ≡ known.old.defined.items }
    ensures gifts { known.new.gifts.items ≡ (if nat_le bound frame.now.before
        then slice_set known.old.gifts.items frame.now.name (Some (record {
          since = known.old.since;
          from = frame.now.before;
          count = count - frame.now.before;
        }))
        else known.old.gifts.items) }
{
    if bound <= frame.before {
        known.learn(frame.name, frame.before, count - frame.before);
    }
}

/// Puts out a token that is no macro here, at this place. If it is one that is being replaced, the number of tokens
/// follows, else `bound`.
fn put(
    alloc: Global,
    source: &[u8],
    known: &Known,
    token: &Token,
    place: Place,
    bound: usize,
    expanded: &mut Vec<Token>,
) -> Result<usize, Stop>
    requires forward { token.now.start ≤ token.now.end }
    requires within { token.now.end ≤ length source.now }
    requires numbered { IsNumbered (length known.now.defined.items) token.now.kind }
    ensures bound { IfOk result (λ new. new ≡ (if is_defined known.now token.now.kind
        then length expanded.new.items else bound)) }
    ensures ok { OnOk result (Takes expanded.old.items expanded.new.items
        (placed_items place (plain source.now token.now ∷ []))) }
    ensures err { IfErr result (StopsIn (length expanded.old.items)
        (placed_items place (plain source.now token.now ∷ []))) }
{
    emit(expanded, plain_token(alloc, source, token, place)?)?;
    Ok(if known.is_defined(token) {
        expanded.len()
    } else {
        bound
    })
}

/// Puts out the tokens of a macro that was taken out of the table, and puts it back.
fn walk(
    alloc: Global,
    source: &[u8],
    tokens: &[Token],
    macros: &mut Vec<Option<Body>>,
    known: &mut Known,
    first: Frame,
    place: Place,
    expanded: &mut Vec<Token>,
) -> Result<(), Stop>
    requires tokens { AreInOrder (length source.now) (length macros.old.items) tokens.now }
    requires bodies { AreBodies tokens.now macros.old.items }
    requires frame { IsFrame tokens.now (length macros.old.items) first }
    requires few { macro_count macros.old.items + 1 ≤ length macros.old.items }
    requires taken { slice_get macros.old.items first.name ≡ Some None }
    requires begin { first.next ≡ first.body.begin }
    requires before { first.before ≡ length expanded.old.items }
    requires known { AreKnown source.now tokens.now (put_back macros.old.items first) expanded.old.items known.old }
    ensures since { OnOk result (known.new.since ≡ known.old.since) }
    ensures known { OnOk result (AreKnown source.now tokens.now (put_back macros.old.items first)
        expanded.new.items known.new) }
    ensures macros { OnOk result (macros.new.items ≡ slice_set macros.old.items first.name (Some first.body)) }
    ensures ok { OnOk result (Takes expanded.old.items expanded.new.items
        (placed_items place (pending source.now tokens.now
        (length macros.old.items - 1) macros.old.items (first ∷ [])))) }
    ensures err { IfErr result (StopsIn (length expanded.old.items)
        (placed_items place (pending source.now tokens.now
        (length macros.old.items - 1) macros.old.items (first ∷ [])))) }
{
    let mut stack: Vec<Frame> = Vec::new(alloc);
    let mut frame = first;
    let mut bound = 0;
    loop {
        if frame.next < frame.body.end {
            let token = &tokens[frame.next];
            frame.next += 1;
            if let Some(gift) = known.gift(token) {
                repeat(alloc, expanded, gift.from, gift.count, place)?;
                continue;
            }
            match take_macro(macros, token) {
                Some((name, body)) => {
                    stack.push(frame)?;
                    frame = Frame {
                        name,
                        next: body.begin,
                        before: expanded.len(),
                        body,
                    };
                }
                None => bound = put(alloc, source, known, token, place, bound, expanded)?,
            }
        } else {
            macros[frame.name] = Some(frame.body);
            note(known, &frame, bound, expanded.len());
            match stack.pop() {
                Some(outer) => frame = outer,
                None => return Ok(()),
            }
        }
    }
}

/// Puts out what a token of the source becomes.
pub(crate) fn replace(
    alloc: Global,
    source: &[u8],
    tokens: &[Token],
    macros: &mut Vec<Option<Body>>,
    known: &mut Known,
    token: &Token,
    expanded: &mut Vec<Token>,
) -> Result<(), Stop>
    requires tokens { AreInOrder (length source.now) (length macros.old.items) tokens.now }
    requires bodies { AreBodies tokens.now macros.old.items }
    requires token { IsWithin (length source.now) (length macros.old.items) token.now }
    requires known { AreKnown source.now tokens.now macros.old.items expanded.old.items known.old }
    ensures since { OnOk result (known.new.since ≡ known.old.since) }
    ensures known { OnOk result (AreKnown source.now tokens.now macros.old.items expanded.new.items known.new) }
    ensures macros { OnOk result (macros.new.items ≡ macros.old.items) }
    ensures ok { OnOk result (Takes expanded.old.items expanded.new.items
        (placed_items token.now.place (replaced (length macros.old.items) source.now
        (seen tokens.now macros.old.items) token.now))) }
    ensures err { IfErr result (StopsIn (length expanded.old.items)
        (placed_items token.now.place (replaced (length macros.old.items) source.now
        (seen tokens.now macros.old.items) token.now))) }
{
    if let Some(gift) = known.gift(token) {
        return repeat(alloc, expanded, gift.from, gift.count, token.place);
    }
    match take_macro(macros, token) {
        Some((name, body)) => {
            let first = Frame {
                name,
                next: body.begin,
                before: expanded.len(),
                body,
            };
            walk(
                alloc,
                source,
                tokens,
                macros,
                known,
                first,
                token.place,
                expanded,
            )
        }
        None => emit(expanded, plain_token(alloc, source, token, token.place)?),
    }
}
