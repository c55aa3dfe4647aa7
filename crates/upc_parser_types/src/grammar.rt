//! The rules of types, over functions that parse their parts.

ghost use Rattle.std.specs.Prelude.{◌≤◌};
ghost use Rattle.upc_tree.specs.layer.View.{view, view_spec};
ghost use Rattle.upc_parser_types.specs.layer.Expression.{at_height};
ghost use Rattle.upc_parser_ground.specs.layer.Run.{Reads, boxed};
ghost use Rattle.upc_parser_types.specs.layer.Run.{Nests};

use std::alloc::Global;
use upc_parser_ground::{Fail, Tokens};
use upc_tree::{Expr, Spec};

/// The rules of types, as methods: parts are parsed by the two functions, which call each other through the rules.
#[derive(Drop)]
pub struct Grammar<F, G> {
    pub alloc: Global,
    /// How high a part may be.
    pub below: u32,
    pub expr: F,
    pub structure: G,
}

impl<
    F: Fn(Global, &mut Tokens<'_>, u32, u8) -> Result<Box<Expr>, Fail>,
    G: Fn(Global, &mut Tokens<'_>, u32) -> Result<Spec, Fail>,
> Grammar<F, G> {
    /// An expression of at most height n, joined at least so tightly.
    pub fn expr(&self, tokens: &mut Tokens<'_>, n: u32, least: u8) -> Result<Box<Expr>, Fail>
        requires within { n ≤ self.now.below }
        requires nests { Nests self.now.below (F.pre self.now.expr) (F.post self.now.expr)
            (G.pre self.now.structure) (G.post self.now.structure) }
        ensures { Reads (boxed view) ((at_height n).expr least tokens.old.rest.now) result tokens.new.rest.now }
    {
        (self.expr)(self.alloc, tokens, n, least)
    }

    /// A struct of at most height n.
    pub fn structure(&self, tokens: &mut Tokens<'_>, n: u32) -> Result<Spec, Fail>
        requires within { n ≤ self.now.below }
        requires nests { Nests self.now.below (F.pre self.now.expr) (F.post self.now.expr)
            (G.pre self.now.structure) (G.post self.now.structure) }
        ensures { Reads view_spec ((at_height n).structure tokens.old.rest.now) result tokens.new.rest.now }
    {
        (self.structure)(self.alloc, tokens, n)
    }
}
