//! The words of a type (C99 6.7.2).

ghost use Rattle.std.specs.Prelude.{◌≡◌, ◌≤◌, ◌==◌, length, map};
ghost use Rattle.std.specs.List.{list_all};
ghost use Rattle.upc_checker_types.specs.Specifiers as pure;
ghost use Rattle.upc_checker_types.specs.code.ViewWords.{view_row, view_word_type, view_found};
ghost use Rattle.upc_types.specs.View.{view_base};

use WordType::Integer;
use block_layout::Kind;
use upc_tree::TypeWord;
use upc_tree::TypeWord::{
    Char, FlagT, Int, LockT, Long, OpT, PtrdiffT, Short, Signed, SizeT, Unsigned,
};
use upc_types::Base;

/// A type that words form.
#[derive(Clone, Copy)]
enum WordType {
    Void,
    Integer(Kind),
    Lock,
}

/// Words that form a type, in any order, and the type.
type Row = (&'static [TypeWord], WordType);

// Long long is long.
const ROWS: [Row; 32] = [
    (&[TypeWord::Void], WordType::Void),
    (&[Char], Integer(Kind::Char)),
    (&[Signed, Char], Integer(Kind::Char)),
    (&[Unsigned, Char], Integer(Kind::UChar)),
    (&[Short], Integer(Kind::Short)),
    (&[Signed, Short], Integer(Kind::Short)),
    (&[Short, Int], Integer(Kind::Short)),
    (&[Signed, Short, Int], Integer(Kind::Short)),
    (&[Unsigned, Short], Integer(Kind::UShort)),
    (&[Unsigned, Short, Int], Integer(Kind::UShort)),
    (&[Int], Integer(Kind::Int)),
    (&[Signed], Integer(Kind::Int)),
    (&[Signed, Int], Integer(Kind::Int)),
    (&[Unsigned], Integer(Kind::UInt)),
    (&[Unsigned, Int], Integer(Kind::UInt)),
    (&[Long], Integer(Kind::Long)),
    (&[Signed, Long], Integer(Kind::Long)),
    (&[Long, Int], Integer(Kind::Long)),
    (&[Signed, Long, Int], Integer(Kind::Long)),
    (&[Unsigned, Long], Integer(Kind::ULong)),
    (&[Unsigned, Long, Int], Integer(Kind::ULong)),
    (&[Long, Long], Integer(Kind::Long)),
    (&[Signed, Long, Long], Integer(Kind::Long)),
    (&[Long, Long, Int], Integer(Kind::Long)),
    (&[Signed, Long, Long, Int], Integer(Kind::Long)),
    (&[Unsigned, Long, Long], Integer(Kind::ULong)),
    (&[Unsigned, Long, Long, Int], Integer(Kind::ULong)),
    (&[SizeT], Integer(Kind::ULong)),
    (&[PtrdiffT], Integer(Kind::Long)),
    (&[LockT], WordType::Lock),
    (&[OpT], Integer(Kind::Int)),
    (&[FlagT], Integer(Kind::Int)),
];

// All words but `static`.
const TYPE_WORDS: [TypeWord; 12] = [
    TypeWord::Void,
    Char,
    Short,
    Int,
    Long,
    Signed,
    Unsigned,
    SizeT,
    PtrdiffT,
    LockT,
    OpT,
    FlagT,
];

fn is_word(a: TypeWord, b: TypeWord) -> bool
    ensures { result ≡ pure.is_word a b }
{
    a == b
}

/// How often a word stands among others.
pub fn count(word: TypeWord, words: &[TypeWord]) -> usize
    ensures value { result ≡ pure.count word words.now }
    ensures most { result ≤ length words.now }
{
    let mut count = 0;
    for other in words {
        if is_word(word, *other) {
            count += 1;
        }
    }
    count
}

// Whether each of these words stands as often among the first as among the second.
fn same_counts(among: &[TypeWord], a: &[TypeWord], b: &[TypeWord]) -> bool
    ensures { result ≡ list_all (λ w. pure.count w a.now == pure.count w b.now) among.now }
{
    for word in among {
        if count(*word, a) != count(*word, b) {
            return false;
        }
    }
    true
}

// Whether they are the same words but for `static`, in any order.
fn same_words(a: &[TypeWord], b: &[TypeWord]) -> bool
    ensures { result ≡ pure.same_words a.now b.now }
{
    same_counts(&TYPE_WORDS, a, b)
}

// Whether none of these words stands among the others.
fn none_stands(among: &[TypeWord], words: &[TypeWord]) -> bool
    ensures { result ≡ list_all (λ w. pure.count w words.now == 0) among.now }
{
    for word in among {
        if count(*word, words) != 0 {
            return false;
        }
    }
    true
}

/// Whether there is no word but `static`.
pub fn no_types(words: &[TypeWord]) -> bool
    ensures { result ≡ pure.no_types words.now }
{
    none_stands(&TYPE_WORDS, words)
}

fn base_of(word_type: WordType) -> Base
    ensures { view_base result ≡ view_word_type word_type }
{
    match word_type {
        WordType::Void => Base::Void,
        Integer(kind) => Base::Integer(kind),
        WordType::Lock => Base::LockObject,
    }
}

fn base_among(rows: &[Row], words: &[TypeWord]) -> Option<Base>
    ensures { view_found result ≡ pure.base_among (map view_row rows.now) words.now }
{
    for (row, base) in rows {
        if same_words(row, words) {
            return Some(base_of(*base));
        }
    }
    None
}

/// The type that words form, if they form one.
pub fn base_of_words(words: &[TypeWord]) -> Option<Base>
    ensures { view_found result ≡ pure.base_among pure.rows words.now }
{
    base_among(&ROWS, words)
}
