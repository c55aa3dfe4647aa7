//! Operators and punctuation (C99 6.4.6).
ghost use Rattle.std.specs.Prelude.{◌≡◌, ◌≤◌, length, take, IfSome, IfNone};
ghost use Rattle.upc_lexer.specs.declared.token.Punct.{Punct as Mark};
ghost use Rattle.upc_lexer.specs.Marks.{mark_bytes};

use crate::token::Punct;

/// The longest first.
const MARKS: [Punct; 47] = [
    Punct::ShiftLeftEqual,
    Punct::ShiftRightEqual,
    Punct::Arrow,
    Punct::PlusPlus,
    Punct::MinusMinus,
    Punct::ShiftLeft,
    Punct::ShiftRight,
    Punct::LessEqual,
    Punct::GreaterEqual,
    Punct::EqualEqual,
    Punct::NotEqual,
    Punct::AndAnd,
    Punct::OrOr,
    Punct::StarEqual,
    Punct::SlashEqual,
    Punct::PercentEqual,
    Punct::PlusEqual,
    Punct::MinusEqual,
    Punct::AmpersandEqual,
    Punct::CaretEqual,
    Punct::BarEqual,
    Punct::HashHash,
    Punct::LBracket,
    Punct::RBracket,
    Punct::LParen,
    Punct::RParen,
    Punct::LBrace,
    Punct::RBrace,
    Punct::Dot,
    Punct::Ampersand,
    Punct::Star,
    Punct::Plus,
    Punct::Minus,
    Punct::Tilde,
    Punct::Exclamation,
    Punct::Slash,
    Punct::Percent,
    Punct::Less,
    Punct::Greater,
    Punct::Caret,
    Punct::Bar,
    Punct::Question,
    Punct::Colon,
    Punct::Semicolon,
    Punct::Equal,
    Punct::Comma,
    Punct::Hash,
];

/// How the mark is spelled.
fn spelling(mark: Punct) -> &'static [u8]
    ensures { result.now ≡ mark_bytes mark }
{
    match mark {
        Punct::LBracket => b"[",
        Punct::RBracket => b"]",
        Punct::LParen => b"(",
        Punct::RParen => b")",
        Punct::LBrace => b"{",
        Punct::RBrace => b"}",
        Punct::Dot => b".",
        Punct::Arrow => b"->",
        Punct::PlusPlus => b"++",
        Punct::MinusMinus => b"--",
        Punct::Ampersand => b"&",
        Punct::Star => b"*",
        Punct::Plus => b"+",
        Punct::Minus => b"-",
        Punct::Tilde => b"~",
        Punct::Exclamation => b"!",
        Punct::Slash => b"/",
        Punct::Percent => b"%",
        Punct::ShiftLeft => b"<<",
        Punct::ShiftRight => b">>",
        Punct::Less => b"<",
        Punct::Greater => b">",
        Punct::LessEqual => b"<=",
        Punct::GreaterEqual => b">=",
        Punct::EqualEqual => b"==",
        Punct::NotEqual => b"!=",
        Punct::Caret => b"^",
        Punct::Bar => b"|",
        Punct::AndAnd => b"&&",
        Punct::OrOr => b"||",
        Punct::Question => b"?",
        Punct::Colon => b":",
        Punct::Semicolon => b";",
        Punct::Equal => b"=",
        Punct::StarEqual => b"*=",
        Punct::SlashEqual => b"/=",
        Punct::PercentEqual => b"%=",
        Punct::PlusEqual => b"+=",
        Punct::MinusEqual => b"-=",
        Punct::ShiftLeftEqual => b"<<=",
        Punct::ShiftRightEqual => b">>=",
        Punct::AmpersandEqual => b"&=",
        Punct::CaretEqual => b"^=",
        Punct::BarEqual => b"|=",
        Punct::Comma => b",",
        Punct::Hash => b"#",
        Punct::HashHash => b"##",
    }
}

/// The longest mark at the front of the bytes, with its length.
pub(crate) fn mark_at(bytes: &[u8]) -> Option<(Punct, usize)>
    ensures found { IfSome result (λ r. take r.1 bytes.now ≡ mark_bytes r.0) }
    ensures length { IfSome result (λ r. r.1 ≡ length (mark_bytes r.0)) }
    ensures longest { IfSome result (λ r. (q : Mark)
        → take (length (mark_bytes q)) bytes.now ≡ mark_bytes q → length (mark_bytes q) ≤ r.1) }
    ensures none { IfNone result ((q : Mark) → take (length (mark_bytes q)) bytes.now ≡ mark_bytes q → ⊥) }
{
    for mark in MARKS {
        let spelled = spelling(mark);
        if bytes.starts_with(spelled) {
            return Some((mark, spelled.len()));
        }
    }
    None
}
