//! What a token begins or continues.

ghost use Rattle.std.specs.Prelude.{◌≡◌};
ghost use Rattle.upc_tree.specs.Marks.{binary_level, operand_level};
ghost use Rattle.upc_parser_ground.specs.layer.Tables.{assign_of, binary_of, other_joint, joint_by, qual_of, type_of};
ghost use Rattle.upc_parser_ground.specs.layer.Tables.{struct_of, spec_by, prefix_of, suffix_of, joint_of, joint_level};
ghost use Rattle.upc_parser_ground.specs.layer.Tables.{left_least, qual_start, spec_start, is_qual, is_spec, is_string};

use upc_lexer::{Punct, TokenKind, Word};
use upc_tree::{AssignMark, BinaryMark, MemberMark, PostfixMark, SizeWord, TypeWord, UnaryMark};

/// What an expression begins with.
#[derive(Clone, Copy)]
pub enum Prefix {
    Unary(UnaryMark),
    Size(SizeWord),
    Other,
}

/// What goes on with an expression directly after it (C99 6.5.2).
#[derive(Clone, Copy)]
pub enum Suffix {
    Subscript,
    Call,
    Member(MemberMark),
    Step(PostfixMark),
}

/// What joins an expression to a further one (C99 6.5.5 to 6.5.17).
#[derive(Clone, Copy)]
pub enum Joint {
    Comma,
    Assign(AssignMark),
    Question,
    Binary(BinaryMark),
}

/// A qualifier's word (C99 6.7.3, UPC 6.5.1).
#[derive(Clone, Copy)]
pub enum QualWord {
    Const,
    Strict,
    Relaxed,
    Shared,
}

/// What a specifier or a qualifier begins with (C99 6.7).
#[derive(Clone, Copy)]
pub enum SpecStart {
    Type(TypeWord),
    Qual(QualWord),
    Struct,
}

pub fn prefix_of(kind: &TokenKind) -> Prefix
    ensures { result ≡ prefix_of kind.now }
{
    match kind {
        TokenKind::Punct(Punct::Ampersand) => Prefix::Unary(UnaryMark::AddressOf),
        TokenKind::Punct(Punct::Star) => Prefix::Unary(UnaryMark::Dereference),
        TokenKind::Punct(Punct::Plus) => Prefix::Unary(UnaryMark::Plus),
        TokenKind::Punct(Punct::Minus) => Prefix::Unary(UnaryMark::Minus),
        TokenKind::Punct(Punct::Tilde) => Prefix::Unary(UnaryMark::Complement),
        TokenKind::Punct(Punct::Exclamation) => Prefix::Unary(UnaryMark::Not),
        TokenKind::Punct(Punct::PlusPlus) => Prefix::Unary(UnaryMark::Increment),
        TokenKind::Punct(Punct::MinusMinus) => Prefix::Unary(UnaryMark::Decrement),
        TokenKind::Word(Word::Sizeof) => Prefix::Size(SizeWord::Sizeof),
        TokenKind::Word(Word::UpcLocalsizeof) => Prefix::Size(SizeWord::Localsizeof),
        TokenKind::Word(Word::UpcBlocksizeof) => Prefix::Size(SizeWord::Blocksizeof),
        TokenKind::Word(Word::UpcElemsizeof) => Prefix::Size(SizeWord::Elemsizeof),
        _ => Prefix::Other,
    }
}

pub fn suffix_of(kind: &TokenKind) -> Option<Suffix>
    ensures { result ≡ suffix_of kind.now }
{
    match kind {
        TokenKind::Punct(Punct::LBracket) => Some(Suffix::Subscript),
        TokenKind::Punct(Punct::LParen) => Some(Suffix::Call),
        TokenKind::Punct(Punct::Dot) => Some(Suffix::Member(MemberMark::Dot)),
        TokenKind::Punct(Punct::Arrow) => Some(Suffix::Member(MemberMark::Arrow)),
        TokenKind::Punct(Punct::PlusPlus) => Some(Suffix::Step(PostfixMark::Increment)),
        TokenKind::Punct(Punct::MinusMinus) => Some(Suffix::Step(PostfixMark::Decrement)),
        _ => None,
    }
}

fn assign_of(mark: Punct) -> Option<AssignMark>
    ensures { result ≡ assign_of mark }
{
    match mark {
        Punct::Equal => Some(AssignMark::Assign),
        Punct::StarEqual => Some(AssignMark::Multiply),
        Punct::SlashEqual => Some(AssignMark::Divide),
        Punct::PercentEqual => Some(AssignMark::Remainder),
        Punct::PlusEqual => Some(AssignMark::Add),
        Punct::MinusEqual => Some(AssignMark::Subtract),
        Punct::ShiftLeftEqual => Some(AssignMark::ShiftLeft),
        Punct::ShiftRightEqual => Some(AssignMark::ShiftRight),
        Punct::AmpersandEqual => Some(AssignMark::BitAnd),
        Punct::CaretEqual => Some(AssignMark::BitXor),
        Punct::BarEqual => Some(AssignMark::BitOr),
        _ => None,
    }
}

fn binary_of(mark: Punct) -> Option<BinaryMark>
    ensures { result ≡ binary_of mark }
{
    match mark {
        Punct::Star => Some(BinaryMark::Multiply),
        Punct::Slash => Some(BinaryMark::Divide),
        Punct::Percent => Some(BinaryMark::Remainder),
        Punct::Plus => Some(BinaryMark::Add),
        Punct::Minus => Some(BinaryMark::Subtract),
        Punct::ShiftLeft => Some(BinaryMark::ShiftLeft),
        Punct::ShiftRight => Some(BinaryMark::ShiftRight),
        Punct::Less => Some(BinaryMark::Less),
        Punct::Greater => Some(BinaryMark::Greater),
        Punct::LessEqual => Some(BinaryMark::LessEqual),
        Punct::GreaterEqual => Some(BinaryMark::GreaterEqual),
        Punct::EqualEqual => Some(BinaryMark::Equal),
        Punct::NotEqual => Some(BinaryMark::NotEqual),
        Punct::Ampersand => Some(BinaryMark::BitAnd),
        Punct::Caret => Some(BinaryMark::BitXor),
        Punct::Bar => Some(BinaryMark::BitOr),
        Punct::AndAnd => Some(BinaryMark::And),
        Punct::OrOr => Some(BinaryMark::Or),
        _ => None,
    }
}

fn other_joint(mark: Punct) -> Option<Joint>
    ensures { result ≡ other_joint mark }
{
    match mark {
        Punct::Comma => Some(Joint::Comma),
        Punct::Question => Some(Joint::Question),
        _ => None,
    }
}

fn joint_by(mark: Punct) -> Option<Joint>
    ensures { result ≡ joint_by mark }
{
    if let Some(mark) = assign_of(mark) {
        return Some(Joint::Assign(mark));
    }
    if let Some(mark) = binary_of(mark) {
        return Some(Joint::Binary(mark));
    }
    other_joint(mark)
}

pub fn joint_of(kind: &TokenKind) -> Option<Joint>
    ensures { result ≡ joint_of kind.now }
{
    match kind {
        TokenKind::Punct(mark) => joint_by(*mark),
        _ => None,
    }
}

fn binary_level(mark: BinaryMark) -> u8
    ensures { result ≡ binary_level mark }
{
    match mark {
        BinaryMark::Or => 3,
        BinaryMark::And => 4,
        BinaryMark::BitOr => 5,
        BinaryMark::BitXor => 6,
        BinaryMark::BitAnd => 7,
        BinaryMark::Equal | BinaryMark::NotEqual => 8,
        BinaryMark::Less | BinaryMark::Greater | BinaryMark::LessEqual | BinaryMark::GreaterEqual =>
            9,
        BinaryMark::ShiftLeft | BinaryMark::ShiftRight => 10,
        BinaryMark::Add | BinaryMark::Subtract => 11,
        BinaryMark::Multiply | BinaryMark::Divide | BinaryMark::Remainder => 12,
    }
}

pub fn joint_level(joint: Joint) -> u8
    ensures { result ≡ joint_level joint }
{
    match joint {
        Joint::Comma => 0,
        Joint::Assign(_) => 1,
        Joint::Question => 2,
        Joint::Binary(mark) => binary_level(mark),
    }
}

pub fn left_least(joint: Joint) -> u8
    ensures { result ≡ left_least joint }
{
    match joint {
        Joint::Comma => 1,
        Joint::Assign(_) => 14,
        Joint::Question => 3,
        Joint::Binary(mark) => binary_level(mark),
    }
}

pub fn operand_level(mark: UnaryMark) -> u8
    ensures { result ≡ operand_level mark }
{
    match mark {
        UnaryMark::Increment | UnaryMark::Decrement => 14,
        _ => 13,
    }
}

fn qual_of(word: Word) -> Option<QualWord>
    ensures { result ≡ qual_of word }
{
    match word {
        Word::Const => Some(QualWord::Const),
        Word::Strict => Some(QualWord::Strict),
        Word::Relaxed => Some(QualWord::Relaxed),
        Word::Shared => Some(QualWord::Shared),
        _ => None,
    }
}

pub fn qual_start(kind: &TokenKind) -> Option<QualWord>
    ensures { result ≡ qual_start kind.now }
{
    match kind {
        TokenKind::Word(word) => qual_of(*word),
        _ => None,
    }
}

fn type_of(word: Word) -> Option<TypeWord>
    ensures { result ≡ type_of word }
{
    match word {
        Word::Static => Some(TypeWord::Static),
        Word::Void => Some(TypeWord::Void),
        Word::Char => Some(TypeWord::Char),
        Word::Short => Some(TypeWord::Short),
        Word::Int => Some(TypeWord::Int),
        Word::Long => Some(TypeWord::Long),
        Word::Signed => Some(TypeWord::Signed),
        Word::Unsigned => Some(TypeWord::Unsigned),
        Word::SizeT => Some(TypeWord::SizeT),
        Word::PtrdiffT => Some(TypeWord::PtrdiffT),
        Word::UpcLockT => Some(TypeWord::LockT),
        Word::UpcOpT => Some(TypeWord::OpT),
        Word::UpcFlagT => Some(TypeWord::FlagT),
        _ => None,
    }
}

fn struct_of(word: Word) -> Option<SpecStart>
    ensures { result ≡ struct_of word }
{
    match word {
        Word::Struct => Some(SpecStart::Struct),
        _ => None,
    }
}

fn spec_by(word: Word) -> Option<SpecStart>
    ensures { result ≡ spec_by word }
{
    if let Some(word) = type_of(word) {
        return Some(SpecStart::Type(word));
    }
    if let Some(word) = qual_of(word) {
        return Some(SpecStart::Qual(word));
    }
    struct_of(word)
}

pub fn spec_start(kind: &TokenKind) -> Option<SpecStart>
    ensures { result ≡ spec_start kind.now }
{
    match kind {
        TokenKind::Word(word) => spec_by(*word),
        _ => None,
    }
}

pub fn is_qual(kind: &TokenKind) -> bool
    ensures { result ≡ is_qual kind.now }
{
    qual_start(kind).is_some()
}

/// Whether a specifier goes on with a list, which takes no `static` at block scope.
pub fn is_spec(local: bool, kind: &TokenKind) -> bool
    ensures { result ≡ is_spec local kind.now }
{
    match spec_start(kind) {
        None => false,
        Some(SpecStart::Type(TypeWord::Static)) => !local,
        Some(_) => true,
    }
}

pub fn is_string(kind: &TokenKind) -> bool
    ensures { result ≡ is_string kind.now }
{
    matches!(kind, TokenKind::Str(_))
}
