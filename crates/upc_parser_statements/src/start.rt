//! What a statement begins with.

ghost use Rattle.std.specs.Prelude.{◌≡◌};
ghost use Rattle.upc_parser_statements.specs.layer.Tables.{statement_start};

use upc_lexer::{Punct, TokenKind, Word};
use upc_tree::BarrierWord;

/// What a statement begins with (C99 6.8, UPC 6.6).
#[derive(Clone, Copy)]
pub enum StatementStart {
    Block,
    If,
    Switch,
    While,
    Do,
    For,
    Forall,
    Break,
    Continue,
    Return,
    Barrier(BarrierWord),
    Fence,
    /// An expression, or nothing.
    Value,
}

pub fn statement_start(kind: &TokenKind) -> StatementStart
    ensures { result ≡ statement_start kind.now }
{
    match kind {
        TokenKind::Punct(Punct::LBrace) => StatementStart::Block,
        TokenKind::Word(Word::If) => StatementStart::If,
        TokenKind::Word(Word::Switch) => StatementStart::Switch,
        TokenKind::Word(Word::While) => StatementStart::While,
        TokenKind::Word(Word::Do) => StatementStart::Do,
        TokenKind::Word(Word::For) => StatementStart::For,
        TokenKind::Word(Word::UpcForall) => StatementStart::Forall,
        TokenKind::Word(Word::Break) => StatementStart::Break,
        TokenKind::Word(Word::Continue) => StatementStart::Continue,
        TokenKind::Word(Word::Return) => StatementStart::Return,
        TokenKind::Word(Word::UpcNotify) => StatementStart::Barrier(BarrierWord::Notify),
        TokenKind::Word(Word::UpcWait) => StatementStart::Barrier(BarrierWord::Wait),
        TokenKind::Word(Word::UpcBarrier) => StatementStart::Barrier(BarrierWord::Barrier),
        TokenKind::Word(Word::UpcFence) => StatementStart::Fence,
        _ => StatementStart::Value,
    }
}
