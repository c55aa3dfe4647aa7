//! What names stand for.

ghost use Rattle.std.specs.Prelude.{◌≡◌};
ghost use Rattle.upc_checker_scopes.specs.layer.Views.{view_setting};
ghost use Rattle.typed_tree.specs.Scopes as pure;
ghost use Rattle.typed_tree.specs.layer.ViewEnv.{view_env};
ghost use Rattle.typing_rules.specs.layer.Views.{view_meaning};
ghost use Rattle.upc_checker_scopes.specs.Known as walks;

pub use crate::source::Setting;
use typed_tree::env::{Env, find};
use typing_rules::names::{call_named, constant_named};
use typing_rules::{LibraryCall, LibraryConstant, Meaning};

/// How a name is spelled.
pub fn spelling<'s>(setting: Setting<'s>, name: u32) -> &'s [u8]
    ensures { result.now ≡ pure.spelling (view_setting setting.entry) name }
{
    match setting.names.get(name as usize) {
        Some(text) => text,
        None => &[],
    }
}

/// What a text stands for where no declaration is in scope.
fn in_library(text: &[u8]) -> Meaning<'static>
    ensures { view_meaning result ≡ pure.in_library text.now }
{
    match call_named(text) {
        Some(call) => Meaning::Library(call),
        None => match constant_named(text) {
            Some(constant) => Meaning::Named(constant),
            None => Meaning::Unknown,
        },
    }
}

/// What a name stands for.
pub fn meaning<'e>(setting: Setting<'_>, env: &'e Env<'_>, name: u32) -> Meaning<'e>
    ensures { view_meaning result ≡ pure.meaning (view_setting setting.entry) (view_env env.now)
        name }
{
    match find(name, env) {
        Meaning::Unknown => in_library(spelling(setting, name)),
        meaning => meaning,
    }
}

/// Whether something is said of a name.
pub fn is_known(means: Meaning<'_>) -> bool
    ensures { result ≡ pure.is_known (view_meaning means.entry) }
{
    !matches!(means, Meaning::Unknown)
}

/// Whether the library has a name, so that no declaration may take it.
pub fn is_taken(setting: Setting<'_>, name: u32) -> bool
    ensures { result ≡ pure.is_taken (view_setting setting.entry) name }
{
    is_known(in_library(spelling(setting, name)))
}

/// Whether a name is spelled `main`.
pub fn is_main(setting: Setting<'_>, name: u32) -> bool
    ensures { result ≡ walks.is_main (view_setting setting.entry) name }
{
    spelling(setting, name) == b"main".as_slice()
}
