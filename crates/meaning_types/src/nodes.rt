//! What the nodes of a program say to its code and its meaning.

ghost use Rattle.std.specs.Prelude.{◌≡◌, IfOk};
ghost use Rattle.upc_types.specs.View.{view_base};
ghost use Rattle.typed_tree.specs.Initials as initials;
ghost use Rattle.typed_tree.specs.ViewStatements.{view_function};
ghost use Rattle.typed_tree.specs.ViewTree.{view_expr};
ghost use Rattle.source_meaning.specs.Expressions as mean;
ghost use Rattle.source_meaning.specs.layer.Parts as parts;
ghost use Rattle.source_meaning.specs.Threads as threads;

use std::alloc::Global;
use typed_tree::{Expr, ExprKind, Function};
use typing_rules::Constant;
use upc_text::{OutOfMemory, Place, Text};
use upc_types::Base;
use upc_values::LibraryCall;

/// Where an expression begins inside its parentheses.
pub fn inner_place(e: &Expr) -> Place
    ensures { result ≡ mean.inner_place (view_expr e.now) }
{
    match &e.kind {
        ExprKind::Paren(a) => inner_place(a),
        _ => e.place,
    }
}

// How many elements an array has.
fn count_in(base: &Base) -> Option<u32>
    ensures { result ≡ parts.count_in (view_base base.now) }
{
    match base {
        Base::Array(_, count) => Some(*count),
        _ => None,
    }
}

/// The dimension that a further subscript of an array of arrays has to lie in.
pub fn dimension(e: &Expr) -> Option<u32>
    ensures { result ≡ mean.dimension (view_expr e.now) }
{
    match &e.kind {
        ExprKind::Paren(a) => dimension(a),
        ExprKind::Subscript(_, _) => count_in(&e.attr.ctype.base),
        _ => None,
    }
}

/// The integer that is known of a constant, else 0.
pub fn known_or_zero(constant: Constant) -> i128
    ensures { result ≡ initials.known_or_zero constant }
{
    match constant {
        Constant::Known(v) => v,
        _ => 0,
    }
}

/// Whether a call is a printf.
pub fn is_printf(call: LibraryCall) -> bool
    ensures { result ≡ parts.is_printf call }
{
    matches!(call, LibraryCall::Printf)
}

/// The format of a printf.
pub fn format_of(alloc: Global, e: &Expr) -> Result<Text, OutOfMemory>
    ensures { IfOk result (λ format. format ≡ mean.format_of (view_expr e.now)) }
{
    match &e.kind {
        ExprKind::Format(bytes) => Ok(bytes.copy(alloc)?),
        ExprKind::Paren(a) => format_of(alloc, a),
        _ => Ok(Text::new(alloc)),
    }
}

/// Whether a function is main (C99 5.1.2.2.1).
pub fn is_main(function: &Function) -> bool
    ensures { result ≡ parts.is_main (view_function function.now) }
{
    function.name.as_slice() == b"main".as_slice()
}
