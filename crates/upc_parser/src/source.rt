//! The parser of a whole source.

ghost use Rattle.std.specs.Prelude.{◌≡◌, ◌≤◌, List, length, IfOk};
ghost use Rattle.upc_text.specs.declared.place.Code.TheVariants as code;
ghost use Rattle.upc_tree.specs.Unit as tree;
ghost use Rattle.upc_tree.specs.Unit.{IsTree, ProperUnit};
ghost use Rattle.upc_tree.specs.layer.ViewStatement.{view_unit};
ghost use Rattle.upc_parser.specs.Answer.{Answers, RefusedBy, OnlyRefused, IsRefusal, Ends, HasPlace, answer};
ghost use Rattle.upc_parser.specs.Answer.{settled_fault};

use std::alloc::Global;
use upc_lexer::Token;
use upc_parser_ground::{Fail, Fault, Tokens};
use upc_parser_sources::unit;
use upc_text::{Code, Place, Refusal, Stop};
use upc_tree::Unit;

/// How high a tree may be. With fewer tokens it is not higher.
const HEIGHT_LIMIT: u32 = 256;

/// The place of the token after which there are fewer than `left`; of the last token, if there is none; 1:1 without
/// tokens.
fn place_of(tokens: &[Token], left: usize) -> Place
    ensures { HasPlace tokens.now result }
{
    if tokens.is_empty() {
        return Place { line: 1, column: 1 };
    }
    let at = tokens.len().saturating_sub(left.max(1));
    tokens[at].place
}

fn refusal(tokens: &[Token], left: usize, fault: Fault) -> Refusal
    ensures { IsRefusal tokens.now (settled_fault (length tokens.now) fault) result }
{
    if fault == Fault::TooHigh && tokens.len() >= HEIGHT_LIMIT as usize {
        return Refusal {
            place: place_of(tokens, tokens.len()),
            code: Code::Limit(3),
        };
    }
    Refusal {
        place: place_of(tokens, left),
        code: Code::Syntax,
    }
}

fn whole(alloc: Global, tokens: &[Token]) -> Result<Unit, Stop>
    ensures { Ends tokens.now result (answer tokens.now) }
{
    let mut left = Tokens { rest: tokens };
    match unit(alloc, &mut left, HEIGHT_LIMIT - 1) {
        Ok(unit) => {
            if left.rest.is_empty() {
                return Ok(unit);
            }
            Err(Stop::Refused(refusal(tokens, left.rest.len(), Fault::NoTree)))
        }
        Err(Fail::Memory) => Err(Stop::Memory),
        Err(Fail::Fault(fault)) => Err(Stop::Refused(refusal(tokens, left.rest.len(), fault))),
    }
}

/// The proper tree of at most 256 levels that has these tokens (C99 6.9, UPC 6.4 to 6.7).
///
/// Refused as `Syntax` where no proper tree has them, at the first token that cannot go on, or at the last one.
/// Refused as `Limit(3)` where there are at least 256 tokens and each such tree is higher, at the first token.
pub fn parse(alloc: Global, tokens: &[Token]) -> Result<Unit, Stop>
    // What is answered is a proper tree of at most 256 levels that has these tokens.
    ensures found { IfOk result (λ unit. IsTree tokens.now (view_unit unit)) }
    // Where there is such a tree, it is answered.
    ensures answered { (u : List tree.External) → IsTree tokens.now u → Answers u result }
    // Where the syntax is refused, no proper tree of any height has these tokens.
    ensures syntax { RefusedBy code.Syntax result → (u : List tree.External) → ProperUnit u →
        tree.tokens_of u ≡ tokens.now → ⊥ }
    // Where the limit is passed, there are at least 256 tokens, and no proper tree of at most 256 levels has them.
    ensures limit { RefusedBy (code.Limit 3) result → (256 ≤ length tokens.now) ×
        ((u : List tree.External) → IsTree tokens.now u → ⊥) }
    // There is no other refusal, and each stands at a token, or at 1:1 where there is none.
    ensures refused { OnlyRefused tokens.now result }
{
    whole(alloc, tokens)
}

/// Proper trees with equal tokens are equal.
pub fn one_tree()
    ensures { (u v : List tree.External) → ProperUnit u → ProperUnit v → tree.tokens_of u ≡ tree.tokens_of v → u ≡ v }
{}
