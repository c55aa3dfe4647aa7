//! Parts of statements that are no statements (C99 6.8.4, 6.8.5; UPC 6.6.2, 6.7).

ghost use Rattle.upc_tree.specs.layer.ViewStatement.{view_value, view_test, view_first};
ghost use Rattle.upc_tree.specs.layer.ViewStatement.{view_affinity, view_for, view_forall};
ghost use Rattle.upc_parser_ground.specs.layer.Run.{Reads, boxed, same};
ghost use Rattle.upc_parser_declarations.specs.layer.Parse as spec;

use crate::declarations::declaration;
use std::alloc::Global;
use upc_lexer::{Punct, TokenKind, Word};
use upc_parser_expressions::expr;
use upc_parser_ground::{
    Ahead, Fail, Fault, Sign, Tokens, boxed, expect_punct, expect_word, many, span_of, starts,
};
use upc_tree::{Affinity, Expr, First, ForHead, ForallHead, Pragma, Test};

/// An expression, unless what ends it comes next.
#[tactic(auto, unfolding(crate::specs::layer::Parse::value))]
pub fn value(
    alloc: Global,
    tokens: &mut Tokens<'_>,
    n: u32,
    end: Punct,
) -> Result<Option<Box<Expr>>, Fail>
    ensures { Reads view_value (spec.value n end tokens.old.rest.now) result tokens.new.rest.now }
{
    if starts(Sign::Punct(end), tokens.rest) {
        return Ok(None);
    }
    let value = expr(alloc, tokens, n, 0)?;
    Ok(Some(value))
}

/// An expression in parentheses.
#[tactic(auto, unfolding(crate::specs::layer::Parse::controlling))]
pub fn test(alloc: Global, tokens: &mut Tokens<'_>, n: u32) -> Result<Box<Test>, Fail>
    ensures { Reads (boxed view_test) (spec.controlling n tokens.old.rest.now) result tokens.new.rest.now }
{
    let open = expect_punct(tokens, Punct::LParen)?;
    let value = expr(alloc, tokens, n, 0)?;
    let close = expect_punct(tokens, Punct::RParen)?;
    Ok(boxed(alloc, Test { open, value, close })?)
}

#[tactic(auto, unfolding(crate::specs::layer::Parse::first_value))]
fn first_value(alloc: Global, tokens: &mut Tokens<'_>, n: u32) -> Result<Box<First>, Fail>
    ensures { Reads (boxed view_first) (spec.first_value n tokens.old.rest.now) result tokens.new.rest.now }
{
    let value = value(alloc, tokens, n, Punct::Semicolon)?;
    let semicolon = expect_punct(tokens, Punct::Semicolon)?;
    Ok(boxed(alloc, First::Expression { value, semicolon })?)
}

#[tactic(auto, unfolding(crate::specs::layer::Parse::first_declaration))]
fn first_declaration(alloc: Global, tokens: &mut Tokens<'_>, n: u32) -> Result<Box<First>, Fail>
    ensures { Reads (boxed view_first) (spec.first_declaration n tokens.old.rest.now) result tokens.new.rest.now }
{
    let declaration = declaration(alloc, tokens, n)?;
    Ok(boxed(alloc, First::Declaration(declaration))?)
}

fn first(alloc: Global, tokens: &mut Tokens<'_>, n: u32) -> Result<Box<First>, Fail>
    ensures { Reads (boxed view_first) (spec.first n tokens.old.rest.now) result tokens.new.rest.now }
{
    if starts(Sign::Spec(true), tokens.rest) {
        return first_declaration(alloc, tokens, n);
    }
    first_value(alloc, tokens, n)
}

#[tactic(auto, unfolding(crate::specs::layer::Parse::continue_affinity))]
fn continue_affinity(alloc: Global, tokens: &mut Tokens<'_>) -> Result<Box<Affinity>, Fail>
    ensures { Reads (boxed view_affinity) (spec.continue_affinity tokens.old.rest.now) result tokens.new.rest.now }
{
    let word = expect_word(tokens, Word::Continue)?;
    Ok(boxed(alloc, Affinity::Continue(word))?)
}

#[tactic(auto, unfolding(crate::specs::layer::Parse::value_affinity))]
fn value_affinity(alloc: Global, tokens: &mut Tokens<'_>, n: u32) -> Result<Box<Affinity>, Fail>
    ensures { Reads (boxed view_affinity) (spec.value_affinity n tokens.old.rest.now) result tokens.new.rest.now }
{
    let value = expr(alloc, tokens, n, 0)?;
    Ok(boxed(alloc, Affinity::Value(value))?)
}

fn affinity(alloc: Global, tokens: &mut Tokens<'_>, n: u32) -> Result<Box<Affinity>, Fail>
    ensures { Reads (boxed view_affinity) (spec.affinity n tokens.old.rest.now) result tokens.new.rest.now }
{
    if starts(Sign::Punct(Punct::RParen), tokens.rest) {
        return Ok(boxed(alloc, Affinity::Absent)?);
    }
    if starts(Sign::Word(Word::Continue), tokens.rest) {
        return continue_affinity(alloc, tokens);
    }
    value_affinity(alloc, tokens, n)
}

/// The parentheses of a `for`.
#[tactic(auto, unfolding(crate::specs::layer::Parse::for_head))]
pub fn for_head(alloc: Global, tokens: &mut Tokens<'_>, n: u32) -> Result<Box<ForHead>, Fail>
    ensures { Reads (boxed view_for) (spec.for_head n tokens.old.rest.now) result tokens.new.rest.now }
{
    let open = expect_punct(tokens, Punct::LParen)?;
    let first = first(alloc, tokens, n)?;
    let test = value(alloc, tokens, n, Punct::Semicolon)?;
    let test_end = expect_punct(tokens, Punct::Semicolon)?;
    let step = value(alloc, tokens, n, Punct::RParen)?;
    let close = expect_punct(tokens, Punct::RParen)?;
    Ok(boxed(
        alloc,
        ForHead {
            open,
            first,
            test,
            test_end,
            step,
            close,
        },
    )?)
}

/// The parentheses of a `upc_forall`.
#[tactic(auto, unfolding(crate::specs::layer::Parse::forall_head))]
pub fn forall_head(alloc: Global, tokens: &mut Tokens<'_>, n: u32) -> Result<Box<ForallHead>, Fail>
    ensures { Reads (boxed view_forall) (spec.forall_head n tokens.old.rest.now) result tokens.new.rest.now }
{
    let open = expect_punct(tokens, Punct::LParen)?;
    let first = first(alloc, tokens, n)?;
    let test = value(alloc, tokens, n, Punct::Semicolon)?;
    let test_end = expect_punct(tokens, Punct::Semicolon)?;
    let step = value(alloc, tokens, n, Punct::Semicolon)?;
    let step_end = expect_punct(tokens, Punct::Semicolon)?;
    let affinity = affinity(alloc, tokens, n)?;
    let close = expect_punct(tokens, Punct::RParen)?;
    Ok(boxed(
        alloc,
        ForallHead {
            open,
            first,
            test,
            test_end,
            step,
            step_end,
            affinity,
            close,
        },
    )?)
}

/// A pragma.
pub fn pragma(tokens: &mut Tokens<'_>) -> Result<Pragma, Fail>
    ensures { Reads same (spec.pragma tokens.old.rest.now) result tokens.new.rest.now }
{
    match tokens.rest {
        [] => Err(Fail::Fault(Fault::NoTree)),
        [first, rest @ ..] => match first.kind {
            TokenKind::Pragma(strict) => {
                tokens.rest = rest;
                Ok(Pragma {
                    strict,
                    span: span_of(first),
                })
            }
            _ => Err(Fail::Fault(Fault::NoTree)),
        },
    }
}

/// Pragmas.
pub fn pragmas(alloc: Global, tokens: &mut Tokens<'_>) -> Result<Vec<Pragma>, Fail>
    ensures { Reads (λ v. v.items) (spec.pragmas tokens.old.rest.now) result tokens.new.rest.now }
{
    many(alloc, tokens, Ahead::One(Sign::Pragma), |t| pragma(t))
}
