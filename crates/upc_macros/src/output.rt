//! The tokens of the expansion.
ghost use Rattle.std.specs.Prelude.{◌≡◌, ◌+◌, ◌≤◌, [], ◌∷◌, length, take, drop, IfOk, IfErr, OnOk};
ghost use Rattle.upc_macros.specs.Replacing.{plain, placed};
ghost use Rattle.upc_macros.specs.Expansion.{given, profile_of};
ghost use Rattle.upc_macros.specs.code.Table.{Takes, StopsIn};
ghost use Rattle.upc_macros.specs.code.Walk.{placed_items};

use crate::spelling::spelling;
use std::alloc::Global;
use upc_lexer::{NumberKind, Token, TokenKind, Word};
use upc_text::{Code, OutOfMemory, Place, Refusal, Stop};

/// The most tokens of an expansion.
const TOKEN_LIMIT: usize = 1_048_576;

/// The number of a word that this profile refuses.
fn profile_of(word: Word) -> Option<u8>
    ensures { result ≡ profile_of word }
{
    match word {
        Word::Auto => Some(1),
        Word::Double => Some(2),
        Word::Enum => Some(3),
        Word::Extern => Some(4),
        Word::Float => Some(5),
        Word::Goto => Some(6),
        Word::Inline => Some(7),
        Word::Register => Some(8),
        Word::Restrict => Some(9),
        Word::Typedef => Some(10),
        Word::Union => Some(11),
        Word::Volatile => Some(12),
        Word::Bool => Some(13),
        Word::Complex => Some(14),
        Word::Imaginary => Some(15),
        _ => None,
    }
}

fn copy_kind(alloc: Global, kind: &TokenKind) -> Result<TokenKind, OutOfMemory>
    ensures { IfOk result (λ copy. copy ≡ kind.now) }
{
    match kind {
        TokenKind::Name(number) => Ok(TokenKind::Name(*number)),
        TokenKind::Word(word) => Ok(TokenKind::Word(*word)),
        TokenKind::Number { value, kind } => Ok(TokenKind::Number {
            value: *value,
            kind: *kind,
        }),
        TokenKind::Character(value) => Ok(TokenKind::Character(*value)),
        TokenKind::Str(text) => Ok(TokenKind::Str(text.copy(alloc)?)),
        TokenKind::Punct(mark) => Ok(TokenKind::Punct(*mark)),
        TokenKind::Pragma(strict) => Ok(TokenKind::Pragma(*strict)),
    }
}

/// The token as it stands in the expansion at this place, where it names no macro of the source.
pub(crate) fn plain_token(
    alloc: Global,
    source: &[u8],
    token: &Token,
    place: Place,
) -> Result<Token, OutOfMemory>
    requires forward { token.now.start ≤ token.now.end }
    requires within { token.now.end ≤ length source.now }
    ensures { IfOk result (λ t. t ≡ placed place (plain source.now token.now)) }
{
    let kind = if spelling(source, token) == b"NULL".as_slice() {
        TokenKind::Number {
            value: 0,
            kind: NumberKind::Int,
        }
    } else {
        copy_kind(alloc, &token.kind)?
    };
    Ok(Token {
        kind,
        start: token.start,
        end: token.end,
        place,
    })
}

/// Puts a token at the end, where it may stand.
pub(crate) fn emit(expanded: &mut Vec<Token>, token: Token) -> Result<(), Stop>
    ensures ok { OnOk result (Takes expanded.old.items expanded.new.items (given token ∷ [])) }
    ensures err { IfErr result (StopsIn (length expanded.old.items) (given token ∷ [])) }
{
    let place = token.place;
    if let TokenKind::Word(word) = &token.kind
        && let Some(number) = profile_of(*word)
    {
        return Err(Stop::Refused(Refusal {
            place,
            code: Code::Profile(number),
        }));
    }
    if expanded.len() >= TOKEN_LIMIT {
        return Err(Stop::Refused(Refusal {
            place,
            code: Code::Limit(1),
        }));
    }
    expanded.push(token)?;
    Ok(())
}

/// Puts out once more, at this place, so many tokens of the expansion from an index on.
pub(crate) fn repeat(
    alloc: Global,
    expanded: &mut Vec<Token>,
    from: usize,
    count: usize,
    place: Place,
) -> Result<(), Stop>
    requires { from + count ≤ length expanded.old.items }
    ensures ok { OnOk result (Takes expanded.old.items expanded.new.items
        (placed_items place (take count (drop from expanded.old.items)))) }
    ensures err { IfErr result (StopsIn (length expanded.old.items)
        (placed_items place (take count (drop from expanded.old.items)))) }
{
    for index in 0..count {
        let token = &expanded[from + index];
        let copy = Token {
            kind: copy_kind(alloc, &token.kind)?,
            start: token.start,
            end: token.end,
            place,
        };
        emit(expanded, copy)?;
    }
    Ok(())
}
