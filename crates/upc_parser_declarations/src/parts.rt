//! Parts of a source that are no functions (C99 6.9; UPC 6.7).

ghost use Rattle.std.specs.Prelude.{◌<◌};
ghost use Rattle.upc_tree.specs.layer.View.{view_specs, view_declarator};
ghost use Rattle.upc_tree.specs.layer.ViewStatement.{view_external};
ghost use Rattle.upc_parser_ground.specs.layer.Run.{Reads};
ghost use Rattle.upc_parser_declarations.specs.layer.Parse as spec;

use crate::declarations::{initial, next_declareds};
use crate::heads::pragma;
use std::alloc::Global;
use upc_lexer::Punct;
use upc_parser_ground::statements::{declared_as, declares, some_list};
use upc_parser_ground::{Fail, Tokens, expect_punct};
use upc_tree::{Declarator, External, Spec};

/// What stands after the specifiers of a declaration that declares no name.
#[tactic(auto, unfolding(crate::specs::layer::Parse::none_declared))]
pub fn none_declared(
    alloc: Global,
    tokens: &mut Tokens<'_>,
    specs: Vec<Spec>,
) -> Result<External, Fail>
    ensures { Reads view_external (spec.none_declared (view_specs specs) tokens.old.rest.now) result
        tokens.new.rest.now }
{
    let semicolon = expect_punct(tokens, Punct::Semicolon)?;
    let declaration = declares(alloc, specs, None, semicolon)?;
    Ok(External::Declaration(declaration))
}

/// What stands after the first declarator of a declaration.
#[tactic(auto, unfolding(crate::specs::layer::Parse::behind_declarator))]
pub fn behind_declarator(
    alloc: Global,
    tokens: &mut Tokens<'_>,
    n: u32,
    specs: Vec<Spec>,
    declarator: Box<Declarator>,
) -> Result<External, Fail>
    requires { n < 4294967295 }
    ensures { Reads view_external (spec.behind_declarator n (view_specs specs)
        (view_declarator declarator.value) tokens.old.rest.now) result tokens.new.rest.now }
{
    let initial = initial(alloc, tokens, n)?;
    let first = declared_as(alloc, declarator, initial)?;
    let more = next_declareds(alloc, tokens, n)?;
    let declared = some_list(alloc, first, more)?;
    let semicolon = expect_punct(tokens, Punct::Semicolon)?;
    let declaration = declares(alloc, specs, declared, semicolon)?;
    Ok(External::Declaration(declaration))
}

/// A pragma between the parts of a source.
#[tactic(auto, unfolding(crate::specs::layer::Parse::pragma_part))]
pub fn pragma_part(tokens: &mut Tokens<'_>) -> Result<External, Fail>
    ensures { Reads view_external (spec.pragma_part tokens.old.rest.now) result tokens.new.rest.now }
{
    let pragma = pragma(tokens)?;
    Ok(External::Pragma(pragma))
}
