//! The macros that are defined.
ghost use Rattle.std.specs.Prelude.{◌≡◌, ◌<◌, None, Some, length, slice_get, slice_set, IfSome, IfNone};
ghost use Rattle.upc_lexer.specs.declared.token.TokenKind.TheVariants as kind;
ghost use Rattle.upc_macros.specs.code.Table.{IsNumbered, NamesNoMacro};

use upc_lexer::{Token, TokenKind};

/// Where the tokens that a macro stands for are among the tokens of the source.
#[derive(Clone, Copy)]
pub(crate) struct Body {
    pub(crate) begin: usize,
    pub(crate) end: usize,
}

/// Takes the macro that a token names out of the table, where it names one.
pub(crate) fn take_macro(macros: &mut Vec<Option<Body>>, token: &Token) -> Option<(usize, Body)>
    requires { IsNumbered (length macros.old.items) token.now.kind }
    ensures kind { IfSome result (λ r. token.now.kind ≡ kind.Name r.0) }
    ensures body { IfSome result (λ r. slice_get macros.old.items r.0 ≡ Some (Some r.1)) }
    ensures taken { IfSome result (λ r. macros.new.items ≡ slice_set macros.old.items r.0 None) }
    ensures none { IfNone result (NamesNoMacro macros.old.items token.now.kind) }
    ensures same { IfNone result (macros.new.items ≡ macros.old.items) }
{
    let TokenKind::Name(number) = token.kind else {
        return None;
    };
    let number = number as usize;
    let body = macros[number]?;
    macros[number] = None;
    Some((number, body))
}
