//! Tokens that are written from the last to the first.

use std::alloc::Global;
use std::marker::Model;
use upc_lexer::{NumberKind, Punct, Token, TokenKind, Word};
use upc_text::OutOfMemory;
use upc_tree::{Name, Span, StringLiteral};

/// Tokens, written from the last to the first. Contracts see them in their order.
#[derive(Drop)]
pub struct Backwards {
    written: Vec<Token>,
}

impl Model for Backwards {
    ghost use Rattle.std.specs.Prelude.{List, reverse};
    ghost use Rattle.upc_lexer.specs.declared.token.Token.{Token};

    ghost Value = { List Token };

    ghost view = { λ b. reverse b.written.items };
}

impl Backwards {
    ghost use Rattle.std.specs.Prelude.{◌≡◌, [], ◌∷◌, OnOk};
    ghost use Rattle.upc_tree.specs.Tokens.{token, punct, word, name_token, string_token};

    /// No tokens.
    pub fn new(alloc: Global) -> Backwards
        ensures { result ≡ [] }
    {
        Backwards {
            written: Vec::new(alloc),
        }
    }

    /// Puts a token before those that are there.
    pub fn put(&mut self, kind: TokenKind, span: Span) -> Result<(), OutOfMemory>
        ensures { OnOk result (self.new ≡ token kind span ∷ self.old) }
    {
        self.written.push(Token {
            kind,
            start: span.start,
            end: span.end,
            place: span.place,
        })?;
        Ok(())
    }

    /// Puts a mark before them.
    pub fn put_punct(&mut self, mark: Punct, span: Span) -> Result<(), OutOfMemory>
        ensures { OnOk result (self.new ≡ punct mark span ∷ self.old) }
    {
        self.put(TokenKind::Punct(mark), span)
    }

    /// Puts a word before them.
    pub fn put_word(&mut self, kind: Word, span: Span) -> Result<(), OutOfMemory>
        ensures { OnOk result (self.new ≡ word kind span ∷ self.old) }
    {
        self.put(TokenKind::Word(kind), span)
    }

    /// Puts a number before them.
    pub fn put_number(
        &mut self,
        value: u64,
        kind: NumberKind,
        span: Span,
    ) -> Result<(), OutOfMemory>
        ensures { OnOk result (self.new ≡ token (TokenKind.Number value kind) span ∷ self.old) }
    {
        self.put(TokenKind::Number { value, kind }, span)
    }

    /// Puts a name before them.
    pub fn put_name(&mut self, name: Name) -> Result<(), OutOfMemory>
        ensures { OnOk result (self.new ≡ name_token name ∷ self.old) }
    {
        self.put(TokenKind::Name(name.number), name.span)
    }

    /// Puts a string literal before them.
    pub fn put_string(&mut self, literal: &StringLiteral) -> Result<(), OutOfMemory>
        ensures { OnOk result (self.new ≡ string_token literal.now ∷ self.old) }
    {
        self.put(TokenKind::Str(literal.bytes.clone()?), literal.span)
    }

    /// The tokens in their order.
    pub fn into_tokens(self) -> Vec<Token>
        ensures { result.items ≡ self }
    {
        let mut tokens = self.written;
        tokens.reverse();
        tokens
    }
}
