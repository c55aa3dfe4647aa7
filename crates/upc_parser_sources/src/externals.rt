//! The parts of a source (C99 6.9).

ghost use Rattle.std.specs.Prelude.{◌<◌, map};
ghost use Rattle.upc_tree.specs.layer.View.{view_specs, view_pointers, view_parameters};
ghost use Rattle.upc_tree.specs.layer.ViewStatement.{view_external, view_unit};
ghost use Rattle.upc_parser_ground.specs.layer.Run.{Reads, boxed};
ghost use Rattle.upc_parser_sources.specs.layer.Parse as spec;

use std::alloc::Global;
use upc_lexer::Punct;
use upc_parser_declarations::{behind_declarator, none_declared, pragma_part};
use upc_parser_expressions::{dimensions, parameters, pointers, specs};
use upc_parser_ground::expressions::{function, object};
use upc_parser_ground::{Ahead, Fail, Fault, Sign, Tokens, boxed, many, name, starts};
use upc_parser_statements::compound;
use upc_tree::{External, Function, Name, Parameters, Pointer, Spec, Unit};

#[tactic(auto, unfolding(crate::specs::layer::Parse::function_body))]
fn function_body(
    alloc: Global,
    tokens: &mut Tokens<'_>,
    n: u32,
    specs: Vec<Spec>,
    pointers: Vec<Pointer>,
    name: Name,
    parameters: Box<Parameters>,
) -> Result<External, Fail>
    ensures { Reads view_external (spec.function_body n (view_specs specs) (view_pointers pointers)
        name (view_parameters parameters.value) tokens.old.rest.now) result tokens.new.rest.now }
{
    let body = compound(alloc, tokens, n)?;
    let function = Function {
        specs,
        pointers,
        name,
        parameters,
        body,
    };
    Ok(External::Function(boxed(alloc, function)?))
}

fn behind_parameters(
    alloc: Global,
    tokens: &mut Tokens<'_>,
    n: u32,
    specs: Vec<Spec>,
    pointers: Vec<Pointer>,
    name: Name,
    parameters: Box<Parameters>,
) -> Result<External, Fail>
    requires { n < 4294967295 }
    ensures { Reads view_external (spec.behind_parameters n (view_specs specs)
        (view_pointers pointers) name (view_parameters parameters.value) tokens.old.rest.now) result
        tokens.new.rest.now }
{
    if starts(Sign::Punct(Punct::LBrace), tokens.rest) {
        return function_body(alloc, tokens, n, specs, pointers, name, parameters);
    }
    let declarator = function(alloc, pointers, name, parameters)?;
    behind_declarator(alloc, tokens, n, specs, declarator)
}

#[tactic(auto, unfolding(crate::specs::layer::Parse::behind_name))]
fn behind_name(
    alloc: Global,
    tokens: &mut Tokens<'_>,
    n: u32,
    specs: Vec<Spec>,
    pointers: Vec<Pointer>,
    name: Name,
) -> Result<External, Fail>
    requires { n < 4294967295 }
    ensures { Reads view_external (spec.behind_name n (view_specs specs) (view_pointers pointers)
        name tokens.old.rest.now) result tokens.new.rest.now }
{
    if starts(Sign::Punct(Punct::LParen), tokens.rest) {
        let parameters = parameters(alloc, tokens, n)?;
        return behind_parameters(alloc, tokens, n, specs, pointers, name, parameters);
    }
    let sizes = dimensions(alloc, tokens, n)?;
    let declarator = object(alloc, pointers, name, sizes)?;
    behind_declarator(alloc, tokens, n, specs, declarator)
}

#[tactic(auto, unfolding(crate::specs::layer::Parse::behind_specs))]
fn behind_specs(
    alloc: Global,
    tokens: &mut Tokens<'_>,
    n: u32,
    specs: Vec<Spec>,
) -> Result<External, Fail>
    requires { n < 4294967295 }
    ensures { Reads view_external (spec.behind_specs n (view_specs specs) tokens.old.rest.now)
        result tokens.new.rest.now }
{
    let pointers = pointers(alloc, tokens, n)?;
    let name = name(tokens)?;
    behind_name(alloc, tokens, n, specs, pointers, name)
}

#[tactic(auto, unfolding(crate::specs::layer::Parse::declaration_or_function))]
fn declaration_or_function(alloc: Global, tokens: &mut Tokens<'_>, n: u32) -> Result<External, Fail>
    requires { n < 4294967295 }
    ensures { Reads view_external (spec.declaration_or_function n tokens.old.rest.now) result tokens.new.rest.now }
{
    let specs = specs(alloc, tokens, n, false)?;
    if starts(Sign::Punct(Punct::Semicolon), tokens.rest) {
        return none_declared(alloc, tokens, specs);
    }
    behind_specs(alloc, tokens, n, specs)
}

fn node(alloc: Global, tokens: &mut Tokens<'_>, height: u32) -> Result<External, Fail>
    ensures { Reads view_external (spec.node_at height tokens.old.rest.now) result tokens.new.rest.now }
{
    if height == 0 {
        return Err(Fail::Fault(Fault::TooHigh));
    }
    declaration_or_function(alloc, tokens, height - 1)
}

fn external(alloc: Global, tokens: &mut Tokens<'_>, height: u32) -> Result<External, Fail>
    ensures { Reads view_external (spec.external_at height tokens.old.rest.now) result tokens.new.rest.now }
{
    if starts(Sign::Pragma, tokens.rest) {
        return pragma_part(tokens);
    }
    node(alloc, tokens, height)
}

/// A whole source, whose parts are of at most this height.
pub fn unit(alloc: Global, tokens: &mut Tokens<'_>, height: u32) -> Result<Unit, Fail>
    ensures { Reads view_unit (spec.externals_at height tokens.old.rest.now) result tokens.new.rest.now }
{
    if tokens.rest.is_empty() {
        return Err(Fail::Fault(Fault::NoTree));
    }
    let externals = externals(alloc, tokens, height)?;
    Ok(Unit { externals })
}

fn externals(alloc: Global, tokens: &mut Tokens<'_>, height: u32) -> Result<Vec<External>, Fail>
    ensures { Reads (λ v. map view_external v.items) (spec.all_externals height tokens.old.rest.now)
        result tokens.new.rest.now }
{
    many(alloc, tokens, Ahead::One(Sign::Any), |t| {
        external(alloc, t, height)
    })
}
