//! The function that calls itself through the rules.

ghost use Rattle.upc_tree.specs.layer.ViewStatement.{view_statement, view_compound};
ghost use Rattle.upc_parser_ground.specs.layer.Run.{Reads, boxed};
ghost use Rattle.upc_parser_statements.specs.layer.Parse.{statements_at};

use crate::statements::Rules;
use std::alloc::Global;
use upc_parser_ground::{Fail, Fault, Tokens};
use upc_tree::{Compound, Statement};

/// A statement of at most this height.
pub fn statement(
    alloc: Global,
    tokens: &mut Tokens<'_>,
    height: u32,
) -> Result<Box<Statement>, Fail>
    ensures { Reads (boxed view_statement) ((statements_at height).statement tokens.old.rest.now)
        result tokens.new.rest.now }
{
    if height == 0 {
        return Err(Fail::Fault(Fault::TooHigh));
    }
    let below = height - 1;
    Rules {
        alloc,
        below,
        statement,
    }
    .whole(tokens, below)
}

/// A compound statement of at most this height.
pub fn compound(alloc: Global, tokens: &mut Tokens<'_>, height: u32) -> Result<Box<Compound>, Fail>
    ensures { Reads (boxed view_compound) ((statements_at height).compound tokens.old.rest.now)
        result tokens.new.rest.now }
{
    if height == 0 {
        return Err(Fail::Fault(Fault::TooHigh));
    }
    let below = height - 1;
    Rules {
        alloc,
        below,
        statement,
    }
    .compound(tokens, below)
}
