//! What is called, and how arguments are used.

ghost use Rattle.std.specs.Prelude.{◌≡◌};
ghost use Rattle.upc_tree.specs.layer.View.{view};
ghost use Rattle.typed_tree.specs.layer.ViewEnv.{view_env};
ghost use Rattle.typing_rules.specs.layer.Views.{view_meaning, view_use};
ghost use Rattle.upc_checker_scopes.specs.layer.Views.{view_setting};
ghost use Rattle.upc_checker_nodes.specs.layer.ViewUses.{view_uses};
ghost use Rattle.upc_checker_nodes.specs.Called as pure;

use typed_tree::Target;
use typed_tree::env::Env;
use typing_rules::{LibraryCall, Meaning, Use};
use upc_checker_scopes::setting::{Setting, is_main, meaning};
use upc_tree::{Expr, Name};
use upc_types::CType;

/// How the arguments of a call are used: each converts into the type of its parameter, or the first is a format, or
/// none has a use of its own.
#[derive(Clone, Copy)]
pub enum Uses<'u> {
    Into(&'u [CType]),
    Prints,
    Plain,
}

/// The name that is called, seen through parentheses.
pub fn called_name(e: &Expr) -> Option<Name>
    ensures { result ≡ pure.called_name (view e.now) }
{
    match e {
        Expr::Name(name) => Some(*name),
        Expr::Paren { inner, .. } => called_name(inner),
        _ => None,
    }
}

/// What is called.
pub fn called<'e>(setting: Setting<'_>, env: &'e Env<'_>, callee: &Expr) -> Meaning<'e>
    ensures { view_meaning result ≡ pure.called (view_setting setting.entry) (view_env env.now)
        (view callee.now) }
{
    match called_name(callee) {
        Some(name) => meaning(setting, env, name.number),
        None => Meaning::Unknown,
    }
}

/// What is called, by what its name stands for: a call of the library, or a function of the source.
pub fn target_of(setting: Setting<'_>, means: Meaning<'_>, callee: &Expr) -> Target
    ensures { result ≡ pure.target_by (view_setting setting.entry) (view_meaning means.entry)
        (pure.called_name (view callee.now)) }
{
    if let Meaning::Library(call) = means {
        return Target::Library(call);
    }
    match called_name(callee) {
        Some(name) => Target::Function(setting.defined.number(name.number)),
        None => Target::Function(0),
    }
}

/// Whether the source defines the function that is called, and it is not main.
pub fn runs(setting: Setting<'_>, callee: &Expr) -> bool
    ensures { result ≡ pure.runs (view_setting setting.entry) (view callee.now) }
{
    match called_name(callee) {
        Some(name) => { setting.defined.contains(name.number) && !is_main(setting, name.number) }
        None => false,
    }
}

/// How the arguments of what is called are used.
pub fn uses_by<'m>(means: Meaning<'m>) -> Uses<'m>
    ensures { view_uses result ≡ pure.uses_by (view_meaning means.entry) }
{
    match means {
        Meaning::Function(signature) => Uses::Into(signature.parameters.as_slice()),
        Meaning::Library(LibraryCall::Printf) => Uses::Prints,
        _ => Uses::Plain,
    }
}

/// The use of the first argument.
pub fn first_use<'u>(uses: Uses<'u>) -> Use<'u>
    ensures { view_use result ≡ pure.first_use (view_uses uses.entry) }
{
    match uses {
        Uses::Into([t, ..]) => Use::Into(t),
        Uses::Prints => Use::Prints,
        Uses::Into([]) | Uses::Plain => Use::Plain,
    }
}

/// The uses of the arguments after it.
pub fn later_uses<'u>(uses: Uses<'u>) -> Uses<'u>
    ensures { view_uses result ≡ pure.later_uses (view_uses uses.entry) }
{
    match uses {
        Uses::Into([_, more @ ..]) => Uses::Into(more),
        _ => Uses::Plain,
    }
}
