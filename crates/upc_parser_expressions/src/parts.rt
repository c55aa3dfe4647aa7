//! Lists and parts of types, each of at most height n.

ghost use Rattle.std.specs.Prelude.{◌<◌};
ghost use Rattle.upc_tree.specs.layer.View.{view_next_exprs, view_specs, view_pointers};
ghost use Rattle.upc_tree.specs.layer.View.{view_dimensions, view_declarator};
ghost use Rattle.upc_tree.specs.layer.View.{view_parameters};
ghost use Rattle.upc_parser_types.specs.layer.Expression as spec;
ghost use Rattle.upc_parser_types.specs.layer.Expression.{at_height};
ghost use Rattle.upc_parser_ground.specs.layer.Run.{Reads, boxed};

use crate::expression::Expressions;
use crate::knot::{expr, structure};
use std::alloc::Global;
use upc_parser_ground::{Fail, Tokens};
use upc_parser_types::Grammar;
use upc_tree::{Declarator, Dimension, NextExpr, Parameters, Pointer, Spec};

/// Further expressions of a list, each after its comma.
pub fn next_exprs(alloc: Global, tokens: &mut Tokens<'_>, n: u32) -> Result<Vec<NextExpr>, Fail>
    requires { n < 4294967295 }
    ensures { Reads view_next_exprs (spec.next_exprs (at_height n) tokens.old.rest.now) result tokens.new.rest.now }
{
    let types = Grammar {
        alloc,
        below: n,
        expr,
        structure,
    };
    Expressions { types }.next_exprs(tokens, n)
}

/// Specifiers and qualifiers, at least one; at block scope without `static`.
pub fn specs(alloc: Global, tokens: &mut Tokens<'_>, n: u32, local: bool) -> Result<Vec<Spec>, Fail>
    requires { n < 4294967295 }
    ensures { Reads view_specs (spec.specs (at_height n) local tokens.old.rest.now) result tokens.new.rest.now }
{
    Grammar {
        alloc,
        below: n,
        expr,
        structure,
    }
    .specs(tokens, n, local)
}

/// Stars with their qualifiers.
pub fn pointers(alloc: Global, tokens: &mut Tokens<'_>, n: u32) -> Result<Vec<Pointer>, Fail>
    requires { n < 4294967295 }
    ensures { Reads view_pointers (spec.pointers (at_height n) tokens.old.rest.now) result tokens.new.rest.now }
{
    Grammar {
        alloc,
        below: n,
        expr,
        structure,
    }
    .pointers(tokens, n)
}

/// Sizes in brackets.
pub fn dimensions(alloc: Global, tokens: &mut Tokens<'_>, n: u32) -> Result<Vec<Dimension>, Fail>
    requires { n < 4294967295 }
    ensures { Reads view_dimensions (spec.dimensions (at_height n) tokens.old.rest.now) result tokens.new.rest.now }
{
    Grammar {
        alloc,
        below: n,
        expr,
        structure,
    }
    .dimensions(tokens, n)
}

/// A declarator.
pub fn declarator(alloc: Global, tokens: &mut Tokens<'_>, n: u32) -> Result<Box<Declarator>, Fail>
    requires { n < 4294967295 }
    ensures { Reads (boxed view_declarator) (spec.declarator (at_height n) tokens.old.rest.now)
        result tokens.new.rest.now }
{
    Grammar {
        alloc,
        below: n,
        expr,
        structure,
    }
    .declarator(tokens, n)
}

/// The parameters of a function, in their parentheses.
pub fn parameters(alloc: Global, tokens: &mut Tokens<'_>, n: u32) -> Result<Box<Parameters>, Fail>
    requires { n < 4294967295 }
    ensures { Reads (boxed view_parameters) (spec.parameters (at_height n) tokens.old.rest.now)
        result tokens.new.rest.now }
{
    Grammar {
        alloc,
        below: n,
        expr,
        structure,
    }
    .parameters(tokens, n)
}
