//! The two functions that call each other through the rules.

ghost use Rattle.upc_tree.specs.layer.View.{view, view_spec};
ghost use Rattle.upc_parser_types.specs.layer.Expression.{at_height};
ghost use Rattle.upc_parser_ground.specs.layer.Run.{Reads, boxed};

use crate::expression::Expressions;
use std::alloc::Global;
use upc_parser_ground::{Fail, Fault, Tokens};
use upc_parser_types::Grammar;
use upc_tree::{Expr, Spec};

/// An expression of at most this height, joined at least so tightly.
#[cycle(knot)]
pub fn expr(
    alloc: Global,
    tokens: &mut Tokens<'_>,
    height: u32,
    least: u8,
) -> Result<Box<Expr>, Fail>
    ensures { Reads (boxed view) ((at_height height).expr least tokens.old.rest.now) result tokens.new.rest.now }
{
    if height == 0 {
        return Err(Fail::Fault(Fault::TooHigh));
    }
    let below = height - 1;
    let types = Grammar {
        alloc,
        below,
        expr,
        structure,
    };
    Expressions { types }.whole(tokens, below, least)
}

/// A struct of at most this height.
#[cycle(knot)]
pub fn structure(alloc: Global, tokens: &mut Tokens<'_>, height: u32) -> Result<Spec, Fail>
    ensures { Reads view_spec ((at_height height).structure tokens.old.rest.now) result tokens.new.rest.now }
{
    if height == 0 {
        return Err(Fail::Fault(Fault::TooHigh));
    }
    let below = height - 1;
    Grammar {
        alloc,
        below,
        expr,
        structure,
    }
    .whole_structure(tokens, below)
}
