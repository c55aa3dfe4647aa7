//! Statements and items that hold no statement (C99 6.8, UPC 6.6).

ghost use Rattle.upc_tree.specs.layer.ViewStatement.{view_statement, view_block_item, view_switch_item};
ghost use Rattle.upc_parser_ground.specs.layer.Run.{Reads, boxed};
ghost use Rattle.upc_parser_declarations.specs.layer.Parse as spec;

use crate::declarations::declaration;
use crate::heads::value;
use std::alloc::Global;
use upc_lexer::{Punct, Word};
use upc_parser_expressions::expr;
use upc_parser_ground::{Fail, Tokens, boxed, expect_punct, expect_word};
use upc_tree::{BarrierWord, BlockItem, Span, Statement, SwitchItem};

/// A `break`, after its word.
#[tactic(auto, unfolding(crate::specs::layer::Parse::break_statement))]
pub fn break_statement(
    alloc: Global,
    tokens: &mut Tokens<'_>,
    word: Span,
) -> Result<Box<Statement>, Fail>
    ensures { Reads (boxed view_statement) (spec.break_statement word tokens.old.rest.now) result tokens.new.rest.now }
{
    let semicolon = expect_punct(tokens, Punct::Semicolon)?;
    Ok(boxed(alloc, Statement::Break { word, semicolon })?)
}

/// A `continue`, after its word.
#[tactic(auto, unfolding(crate::specs::layer::Parse::continue_statement))]
pub fn continue_statement(
    alloc: Global,
    tokens: &mut Tokens<'_>,
    word: Span,
) -> Result<Box<Statement>, Fail>
    ensures { Reads (boxed view_statement) (spec.continue_statement word tokens.old.rest.now) result
        tokens.new.rest.now }
{
    let semicolon = expect_punct(tokens, Punct::Semicolon)?;
    Ok(boxed(alloc, Statement::Continue { word, semicolon })?)
}

/// A `upc_fence`, after its word.
#[tactic(auto, unfolding(crate::specs::layer::Parse::fence_statement))]
pub fn fence_statement(
    alloc: Global,
    tokens: &mut Tokens<'_>,
    word: Span,
) -> Result<Box<Statement>, Fail>
    ensures { Reads (boxed view_statement) (spec.fence_statement word tokens.old.rest.now) result tokens.new.rest.now }
{
    let semicolon = expect_punct(tokens, Punct::Semicolon)?;
    Ok(boxed(alloc, Statement::Fence { word, semicolon })?)
}

/// An expression as a statement, or an empty statement.
#[tactic(auto, unfolding(crate::specs::layer::Parse::value_statement))]
pub fn value_statement(
    alloc: Global,
    tokens: &mut Tokens<'_>,
    n: u32,
) -> Result<Box<Statement>, Fail>
    ensures { Reads (boxed view_statement) (spec.value_statement n tokens.old.rest.now) result tokens.new.rest.now }
{
    let value = value(alloc, tokens, n, Punct::Semicolon)?;
    let semicolon = expect_punct(tokens, Punct::Semicolon)?;
    Ok(boxed(alloc, Statement::Expression { value, semicolon })?)
}

/// A `return`, after its word.
#[tactic(auto, unfolding(crate::specs::layer::Parse::return_statement))]
pub fn return_statement(
    alloc: Global,
    tokens: &mut Tokens<'_>,
    n: u32,
    word: Span,
) -> Result<Box<Statement>, Fail>
    ensures { Reads (boxed view_statement) (spec.return_statement n word tokens.old.rest.now)
        result tokens.new.rest.now }
{
    let value = value(alloc, tokens, n, Punct::Semicolon)?;
    let semicolon = expect_punct(tokens, Punct::Semicolon)?;
    Ok(boxed(
        alloc,
        Statement::Return {
            word,
            value,
            semicolon,
        },
    )?)
}

/// A `upc_notify`, `upc_wait` or `upc_barrier`, after its word.
#[tactic(auto, unfolding(crate::specs::layer::Parse::barrier_statement))]
pub fn barrier_statement(
    alloc: Global,
    tokens: &mut Tokens<'_>,
    n: u32,
    word: BarrierWord,
    at: Span,
) -> Result<Box<Statement>, Fail>
    ensures { Reads (boxed view_statement) (spec.barrier_statement n word at
        tokens.old.rest.now) result tokens.new.rest.now }
{
    let value = value(alloc, tokens, n, Punct::Semicolon)?;
    let semicolon = expect_punct(tokens, Punct::Semicolon)?;
    Ok(boxed(
        alloc,
        Statement::Barrier {
            word,
            at,
            value,
            semicolon,
        },
    )?)
}

/// A declaration as an item of a compound statement.
#[tactic(auto, unfolding(crate::specs::layer::Parse::declaration_item))]
pub fn declaration_item(alloc: Global, tokens: &mut Tokens<'_>, n: u32) -> Result<BlockItem, Fail>
    ensures { Reads view_block_item (spec.declaration_item n tokens.old.rest.now) result tokens.new.rest.now }
{
    let declaration = declaration(alloc, tokens, n)?;
    Ok(BlockItem::Declaration(declaration))
}

/// A `case` with its value and colon.
#[tactic(auto, unfolding(crate::specs::layer::Parse::case_item))]
pub fn case_item(alloc: Global, tokens: &mut Tokens<'_>, n: u32) -> Result<SwitchItem, Fail>
    ensures { Reads view_switch_item (spec.case_item n tokens.old.rest.now) result tokens.new.rest.now }
{
    let word = expect_word(tokens, Word::Case)?;
    let value = expr(alloc, tokens, n, 2)?;
    let colon = expect_punct(tokens, Punct::Colon)?;
    Ok(SwitchItem::Case { word, value, colon })
}

/// A `default` with its colon.
#[tactic(auto, unfolding(crate::specs::layer::Parse::default_item))]
pub fn default_item(tokens: &mut Tokens<'_>) -> Result<SwitchItem, Fail>
    ensures { Reads view_switch_item (spec.default_item tokens.old.rest.now) result tokens.new.rest.now }
{
    let word = expect_word(tokens, Word::Default)?;
    let colon = expect_punct(tokens, Punct::Colon)?;
    Ok(SwitchItem::Default { word, colon })
}
