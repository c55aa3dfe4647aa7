//! Declarations (C99 6.7).

ghost use Rattle.std.specs.Prelude.{◌<◌};
ghost use Rattle.upc_tree.specs.layer.ViewStatement.{view_initial, view_declared};
ghost use Rattle.upc_tree.specs.layer.ViewStatement.{view_next_declared, view_next_declareds};
ghost use Rattle.upc_tree.specs.layer.ViewStatement.{view_declared_list, view_declaration};
ghost use Rattle.upc_parser_ground.specs.layer.Run.{Reads, boxed};
ghost use Rattle.upc_parser_declarations.specs.layer.Parse as spec;

use std::alloc::Global;
use upc_lexer::Punct;
use upc_parser_expressions::{declarator, expr, next_exprs, specs};
use upc_parser_ground::statements::{declared_as, declares, some_list};
use upc_parser_ground::{
    Ahead, Fail, Fault, Sign, Tokens, boxed, expect_punct, many, starts, starts_two,
};
use upc_tree::{Declaration, Declared, DeclaredList, Initial, NextDeclared};

#[tactic(auto, unfolding(crate::specs::layer::Parse::value_initial))]
fn value_initial(alloc: Global, tokens: &mut Tokens<'_>, n: u32) -> Result<Box<Initial>, Fail>
    requires { n < 4294967295 }
    ensures { Reads (boxed view_initial) (spec.value_initial n tokens.old.rest.now) result tokens.new.rest.now }
{
    let equal = expect_punct(tokens, Punct::Equal)?;
    let value = expr(alloc, tokens, n, 1)?;
    Ok(boxed(alloc, Initial::Value { equal, value })?)
}

#[tactic(auto, unfolding(crate::specs::layer::Parse::list_initial))]
fn list_initial(alloc: Global, tokens: &mut Tokens<'_>, n: u32) -> Result<Box<Initial>, Fail>
    requires { n < 4294967295 }
    ensures { Reads (boxed view_initial) (spec.list_initial n tokens.old.rest.now) result tokens.new.rest.now }
{
    let equal = expect_punct(tokens, Punct::Equal)?;
    let open = expect_punct(tokens, Punct::LBrace)?;
    let first = expr(alloc, tokens, n, 1)?;
    let more = next_exprs(alloc, tokens, n)?;
    let close = expect_punct(tokens, Punct::RBrace)?;
    Ok(boxed(
        alloc,
        Initial::List {
            equal,
            open,
            first,
            more,
            close,
        },
    )?)
}

/// An initialiser, if there is one.
#[tactic(auto, unfolding(crate::specs::layer::Parse::initial))]
pub fn initial(alloc: Global, tokens: &mut Tokens<'_>, n: u32) -> Result<Box<Initial>, Fail>
    requires { n < 4294967295 }
    ensures { Reads (boxed view_initial) (spec.initial n tokens.old.rest.now) result tokens.new.rest.now }
{
    if !starts(Sign::Punct(Punct::Equal), tokens.rest) {
        return Ok(boxed(alloc, Initial::Absent)?);
    }
    if starts_two(
        Sign::Punct(Punct::Equal),
        Sign::Punct(Punct::LBrace),
        tokens.rest,
    ) {
        return list_initial(alloc, tokens, n);
    }
    value_initial(alloc, tokens, n)
}

#[tactic(auto, unfolding(crate::specs::layer::Parse::declared))]
fn declared(alloc: Global, tokens: &mut Tokens<'_>, n: u32) -> Result<Box<Declared>, Fail>
    requires { n < 4294967295 }
    ensures { Reads (boxed view_declared) (spec.declared n tokens.old.rest.now) result tokens.new.rest.now }
{
    let declarator = declarator(alloc, tokens, n)?;
    let initial = initial(alloc, tokens, n)?;
    Ok(declared_as(alloc, declarator, initial)?)
}

#[tactic(auto, unfolding(crate::specs::layer::Parse::next_declared))]
fn next_declared(alloc: Global, tokens: &mut Tokens<'_>, n: u32) -> Result<NextDeclared, Fail>
    requires { n < 4294967295 }
    ensures { Reads view_next_declared (spec.next_declared n tokens.old.rest.now) result tokens.new.rest.now }
{
    let comma = expect_punct(tokens, Punct::Comma)?;
    let declared = declared(alloc, tokens, n)?;
    Ok(NextDeclared { comma, declared })
}

/// The further parts of a declaration.
pub fn next_declareds(
    alloc: Global,
    tokens: &mut Tokens<'_>,
    n: u32,
) -> Result<Vec<NextDeclared>, Fail>
    requires { n < 4294967295 }
    ensures { Reads view_next_declareds (spec.next_declareds n tokens.old.rest.now) result tokens.new.rest.now }
{
    many(
        alloc,
        tokens,
        Ahead::One(Sign::Punct(Punct::Comma)),
        |t| next_declared(alloc, t, n),
    )
}

#[tactic(auto, unfolding(crate::specs::layer::Parse::some_declared))]
fn some_declared(
    alloc: Global,
    tokens: &mut Tokens<'_>,
    n: u32,
) -> Result<Option<Box<DeclaredList>>, Fail>
    requires { n < 4294967295 }
    ensures { Reads view_declared_list (spec.some_declared n tokens.old.rest.now) result tokens.new.rest.now }
{
    let first = declared(alloc, tokens, n)?;
    let more = next_declareds(alloc, tokens, n)?;
    Ok(some_list(alloc, first, more)?)
}

fn declared_list(
    alloc: Global,
    tokens: &mut Tokens<'_>,
    n: u32,
) -> Result<Option<Box<DeclaredList>>, Fail>
    requires { n < 4294967295 }
    ensures { Reads view_declared_list (spec.declared_list n tokens.old.rest.now) result tokens.new.rest.now }
{
    if starts(Sign::Punct(Punct::Semicolon), tokens.rest) {
        return Ok(None);
    }
    some_declared(alloc, tokens, n)
}

#[tactic(auto, unfolding(crate::specs::layer::Parse::declaration))]
fn whole_declaration(
    alloc: Global,
    tokens: &mut Tokens<'_>,
    n: u32,
) -> Result<Box<Declaration>, Fail>
    requires { n < 4294967295 }
    ensures { Reads (boxed view_declaration) (spec.declaration n tokens.old.rest.now) result tokens.new.rest.now }
{
    let specs = specs(alloc, tokens, n, true)?;
    let declared = declared_list(alloc, tokens, n)?;
    let semicolon = expect_punct(tokens, Punct::Semicolon)?;
    Ok(declares(alloc, specs, declared, semicolon)?)
}

/// A declaration of block scope, of at most this height.
pub fn declaration(
    alloc: Global,
    tokens: &mut Tokens<'_>,
    height: u32,
) -> Result<Box<Declaration>, Fail>
    ensures { Reads (boxed view_declaration) (spec.declaration_at height tokens.old.rest.now) result
        tokens.new.rest.now }
{
    if height == 0 {
        return Err(Fail::Fault(Fault::TooHigh));
    }
    whole_declaration(alloc, tokens, height - 1)
}
