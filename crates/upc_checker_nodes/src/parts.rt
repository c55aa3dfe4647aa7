//! Parts of expressions with types.

ghost use Rattle.std.specs.Prelude.{◌≡◌, map};
ghost use Rattle.typing_rules.specs.Nodes.{view_attr};
ghost use Rattle.typed_tree.specs.Tree.{exprs_of};
ghost use Rattle.typing_rules.specs.layer.Views.{view_text};
ghost use Rattle.typed_tree.specs.ViewTree.{view_expr};
ghost use Rattle.upc_checker_nodes.specs.Parts as pure;

use typed_tree::{Expr, ExprKind};
use typing_rules::Attr;

// The text of an expression that is a string, seen through parentheses.
fn text_in(e: &Expr) -> Option<&[u8]>
    ensures { view_text result ≡ pure.text_in (view_expr e.now) }
{
    match &e.kind {
        ExprKind::Format(text) => Some(text.as_slice()),
        ExprKind::Paren(inner) => text_in(inner),
        _ => None,
    }
}

/// The format among arguments.
pub fn format_in(args: &[Expr]) -> Option<&[u8]>
    ensures { view_text result ≡ pure.format_in (exprs_of (map view_expr args.now)) }
{
    match args {
        [] => None,
        [first, ..] => text_in(first),
    }
}

/// What the last of some expressions is.
pub fn last_of<'e>(first: &'e Expr, more: &'e [Expr]) -> &'e Attr
    ensures { view_attr result.now ≡ pure.last_of (view_expr first.now) (exprs_of (map view_expr
        more.now)) }
{
    match more {
        [] => &first.attr,
        [.., last] => &last.attr,
    }
}
