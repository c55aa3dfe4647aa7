//! The bytes that tokens are spelled with.
ghost use Rattle.std.specs.Prelude.{◌≡◌, ◌≤◌, length};
ghost use Rattle.upc_macros.specs.Spelling.{spelling};

use upc_lexer::Token;

/// The slice of the source that the token is.
pub(crate) fn spelling<'a>(source: &'a [u8], token: &Token) -> &'a [u8]
    requires forward { token.now.start ≤ token.now.end }
    requires within { token.now.end ≤ length source.now }
    ensures { result.now ≡ spelling source.now token.now }
{
    &source[token.start as usize..token.end as usize]
}
