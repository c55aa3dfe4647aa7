//! Words (C99 6.4.1; UPC 6.2; the type words).
ghost use Rattle.std.specs.Prelude.{◌≡◌, IfSome, IfNone};
ghost use Rattle.upc_lexer.specs.declared.token.Word.{Word as AWord};
ghost use Rattle.upc_lexer.specs.Words.{word_bytes};

use crate::token::Word;

const WORDS: [Word; 56] = [
    Word::Break,
    Word::Case,
    Word::Char,
    Word::Const,
    Word::Continue,
    Word::Default,
    Word::Do,
    Word::Else,
    Word::For,
    Word::If,
    Word::Int,
    Word::Long,
    Word::Return,
    Word::Short,
    Word::Signed,
    Word::Sizeof,
    Word::Static,
    Word::Struct,
    Word::Switch,
    Word::Unsigned,
    Word::Void,
    Word::While,
    Word::Shared,
    Word::Strict,
    Word::Relaxed,
    Word::Mythread,
    Word::Threads,
    Word::UpcMaxBlockSize,
    Word::UpcBarrier,
    Word::UpcBlocksizeof,
    Word::UpcElemsizeof,
    Word::UpcFence,
    Word::UpcForall,
    Word::UpcLocalsizeof,
    Word::UpcNotify,
    Word::UpcWait,
    Word::SizeT,
    Word::PtrdiffT,
    Word::UpcLockT,
    Word::UpcOpT,
    Word::UpcFlagT,
    Word::Auto,
    Word::Double,
    Word::Enum,
    Word::Extern,
    Word::Float,
    Word::Goto,
    Word::Inline,
    Word::Register,
    Word::Restrict,
    Word::Typedef,
    Word::Union,
    Word::Volatile,
    Word::Bool,
    Word::Complex,
    Word::Imaginary,
];

/// How the word is spelled.
fn spelling(word: Word) -> &'static [u8]
    ensures { result.now ≡ word_bytes word }
{
    match word {
        Word::Break => b"break",
        Word::Case => b"case",
        Word::Char => b"char",
        Word::Const => b"const",
        Word::Continue => b"continue",
        Word::Default => b"default",
        Word::Do => b"do",
        Word::Else => b"else",
        Word::For => b"for",
        Word::If => b"if",
        Word::Int => b"int",
        Word::Long => b"long",
        Word::Return => b"return",
        Word::Short => b"short",
        Word::Signed => b"signed",
        Word::Sizeof => b"sizeof",
        Word::Static => b"static",
        Word::Struct => b"struct",
        Word::Switch => b"switch",
        Word::Unsigned => b"unsigned",
        Word::Void => b"void",
        Word::While => b"while",
        Word::Shared => b"shared",
        Word::Strict => b"strict",
        Word::Relaxed => b"relaxed",
        Word::Mythread => b"MYTHREAD",
        Word::Threads => b"THREADS",
        Word::UpcMaxBlockSize => b"UPC_MAX_BLOCK_SIZE",
        Word::UpcBarrier => b"upc_barrier",
        Word::UpcBlocksizeof => b"upc_blocksizeof",
        Word::UpcElemsizeof => b"upc_elemsizeof",
        Word::UpcFence => b"upc_fence",
        Word::UpcForall => b"upc_forall",
        Word::UpcLocalsizeof => b"upc_localsizeof",
        Word::UpcNotify => b"upc_notify",
        Word::UpcWait => b"upc_wait",
        Word::SizeT => b"size_t",
        Word::PtrdiffT => b"ptrdiff_t",
        Word::UpcLockT => b"upc_lock_t",
        Word::UpcOpT => b"upc_op_t",
        Word::UpcFlagT => b"upc_flag_t",
        Word::Auto => b"auto",
        Word::Double => b"double",
        Word::Enum => b"enum",
        Word::Extern => b"extern",
        Word::Float => b"float",
        Word::Goto => b"goto",
        Word::Inline => b"inline",
        Word::Register => b"register",
        Word::Restrict => b"restrict",
        Word::Typedef => b"typedef",
        Word::Union => b"union",
        Word::Volatile => b"volatile",
        Word::Bool => b"_Bool",
        Word::Complex => b"_Complex",
        Word::Imaginary => b"_Imaginary",
    }
}

/// The word that is spelled so, if any.
pub(crate) fn word_of(text: &[u8]) -> Option<Word>
    ensures found { IfSome result (λ word. text.now ≡ word_bytes word) }
    ensures none { IfNone result ((word : AWord) → text.now ≡ word_bytes word → ⊥) }
{
    for word in WORDS {
        if spelling(word) == text {
            return Some(word);
        }
    }
    None
}
