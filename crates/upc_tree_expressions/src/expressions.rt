//! The tokens of expressions and types.

ghost use Rattle.std.specs.Prelude.{◌≡◌, ◌∷◌, map, OnOk};
ghost use Rattle.upc_lexer.specs.declared.token.Punct.TheVariants as puncts;
ghost use Rattle.upc_tree.specs.Marks.{unary_punct, postfix_punct, member_punct, binary_punct, assign_punct};
ghost use Rattle.upc_tree.specs.Marks.{size_word, constant_word, type_word};
ghost use Rattle.upc_tree.specs.Tokens.{punct, word, name_token, string_token, spell_strings};
ghost use Rattle.upc_tree.specs.Expression.{spell, spell_arguments, spell_next_exprs, spell_type, spell_specs};
ghost use Rattle.upc_tree.specs.Expression.{spell_spec, spell_quals, spell_qual, spell_layout, spell_pointers};
ghost use Rattle.upc_tree.specs.Expression.{spell_dimensions, spell_members, spell_next_declarators};
ghost use Rattle.upc_tree.specs.Expression.{spell_declarator, spell_parameters, spell_parameter};
ghost use Rattle.upc_tree.specs.Expression.{spell_next_parameters, spell_array, spell_name};
ghost use Rattle.upc_tree.specs.layer.Lists.{spell_member, next_exprs_of, specs_of};
ghost use Rattle.upc_tree.specs.layer.Lists.{quals_of, pointers_of, dimensions_of};
ghost use Rattle.upc_tree.specs.layer.Lists.{members_of, next_declarators_of, next_parameters_of};
ghost use Rattle.upc_tree.specs.layer.View.{view, view_arguments, view_next_expr, view_type, view_spec, view_qual};
ghost use Rattle.upc_tree.specs.layer.View.{view_layout, view_pointer};
ghost use Rattle.upc_tree.specs.layer.View.{view_dimension, view_member, view_next_declarator};
ghost use Rattle.upc_tree.specs.layer.View.{view_declarator, view_parameters, view_parameter, view_next_parameter};
ghost use Rattle.upc_tree.specs.layer.View.{view_array};

use crate::backwards::Backwards;
use upc_lexer::{Punct, TokenKind, Word};
use upc_text::OutOfMemory;
use upc_tree::{
    Arguments, AssignMark, BinaryMark, ConstantWord, Declarator, Dimension, Expr, Layout, Member,
    MemberMark, Name, NextDeclarator, NextExpr, NextParameter, Parameter, ParameterArray,
    Parameters, Pointer, PostfixMark, Qual, SizeWord, Span, Spec, StringLiteral, TypeName,
    TypeWord, UnaryMark,
};

fn unary_punct(mark: UnaryMark) -> Punct
    ensures { result ≡ unary_punct mark }
{
    match mark {
        UnaryMark::AddressOf => Punct::Ampersand,
        UnaryMark::Dereference => Punct::Star,
        UnaryMark::Plus => Punct::Plus,
        UnaryMark::Minus => Punct::Minus,
        UnaryMark::Complement => Punct::Tilde,
        UnaryMark::Not => Punct::Exclamation,
        UnaryMark::Increment => Punct::PlusPlus,
        UnaryMark::Decrement => Punct::MinusMinus,
    }
}

fn postfix_punct(mark: PostfixMark) -> Punct
    ensures { result ≡ postfix_punct mark }
{
    match mark {
        PostfixMark::Increment => Punct::PlusPlus,
        PostfixMark::Decrement => Punct::MinusMinus,
    }
}

fn member_punct(mark: MemberMark) -> Punct
    ensures { result ≡ member_punct mark }
{
    match mark {
        MemberMark::Dot => Punct::Dot,
        MemberMark::Arrow => Punct::Arrow,
    }
}

fn binary_punct(mark: BinaryMark) -> Punct
    ensures { result ≡ binary_punct mark }
{
    match mark {
        BinaryMark::Multiply => Punct::Star,
        BinaryMark::Divide => Punct::Slash,
        BinaryMark::Remainder => Punct::Percent,
        BinaryMark::Add => Punct::Plus,
        BinaryMark::Subtract => Punct::Minus,
        BinaryMark::ShiftLeft => Punct::ShiftLeft,
        BinaryMark::ShiftRight => Punct::ShiftRight,
        BinaryMark::Less => Punct::Less,
        BinaryMark::Greater => Punct::Greater,
        BinaryMark::LessEqual => Punct::LessEqual,
        BinaryMark::GreaterEqual => Punct::GreaterEqual,
        BinaryMark::Equal => Punct::EqualEqual,
        BinaryMark::NotEqual => Punct::NotEqual,
        BinaryMark::BitAnd => Punct::Ampersand,
        BinaryMark::BitXor => Punct::Caret,
        BinaryMark::BitOr => Punct::Bar,
        BinaryMark::And => Punct::AndAnd,
        BinaryMark::Or => Punct::OrOr,
    }
}

fn assign_punct(mark: AssignMark) -> Punct
    ensures { result ≡ assign_punct mark }
{
    match mark {
        AssignMark::Assign => Punct::Equal,
        AssignMark::Multiply => Punct::StarEqual,
        AssignMark::Divide => Punct::SlashEqual,
        AssignMark::Remainder => Punct::PercentEqual,
        AssignMark::Add => Punct::PlusEqual,
        AssignMark::Subtract => Punct::MinusEqual,
        AssignMark::ShiftLeft => Punct::ShiftLeftEqual,
        AssignMark::ShiftRight => Punct::ShiftRightEqual,
        AssignMark::BitAnd => Punct::AmpersandEqual,
        AssignMark::BitXor => Punct::CaretEqual,
        AssignMark::BitOr => Punct::BarEqual,
    }
}

fn size_word(word: SizeWord) -> Word
    ensures { result ≡ size_word word }
{
    match word {
        SizeWord::Sizeof => Word::Sizeof,
        SizeWord::Localsizeof => Word::UpcLocalsizeof,
        SizeWord::Blocksizeof => Word::UpcBlocksizeof,
        SizeWord::Elemsizeof => Word::UpcElemsizeof,
    }
}

fn constant_word(word: ConstantWord) -> Word
    ensures { result ≡ constant_word word }
{
    match word {
        ConstantWord::Mythread => Word::Mythread,
        ConstantWord::Threads => Word::Threads,
        ConstantWord::MaxBlockSize => Word::UpcMaxBlockSize,
    }
}

fn type_word(word: TypeWord) -> Word
    ensures { result ≡ type_word word }
{
    match word {
        TypeWord::Static => Word::Static,
        TypeWord::Void => Word::Void,
        TypeWord::Char => Word::Char,
        TypeWord::Short => Word::Short,
        TypeWord::Int => Word::Int,
        TypeWord::Long => Word::Long,
        TypeWord::Signed => Word::Signed,
        TypeWord::Unsigned => Word::Unsigned,
        TypeWord::SizeT => Word::SizeT,
        TypeWord::PtrdiffT => Word::PtrdiffT,
        TypeWord::LockT => Word::UpcLockT,
        TypeWord::OpT => Word::UpcOpT,
        TypeWord::FlagT => Word::UpcFlagT,
    }
}

fn put_strings(out: &mut Backwards, literals: &[StringLiteral]) -> Result<(), OutOfMemory>
    ensures { OnOk result (out.new ≡ spell_strings literals.now out.old) }
{
    for i in (0..literals.len()).rev() {
        out.put_string(&literals[i])?;
    }
    Ok(())
}

fn put_optional_name(out: &mut Backwards, name: Option<Name>) -> Result<(), OutOfMemory>
    ensures { OnOk result (out.new ≡ spell_name name out.old) }
{
    match name {
        None => Ok(()),
        Some(name) => out.put_name(name),
    }
}

fn put_literals(
    out: &mut Backwards,
    first: &StringLiteral,
    more: &[StringLiteral],
) -> Result<(), OutOfMemory>
    ensures { OnOk result (out.new ≡ string_token first.now ∷ spell_strings more.now out.old) }
{
    put_strings(out, more)?;
    out.put_string(first)
}

/// Puts the tokens of an expression before those that are there.
#[cycle(put)]
pub fn put_expr(out: &mut Backwards, e: &Expr) -> Result<(), OutOfMemory>
    ensures { OnOk result (out.new ≡ spell (view e.now) out.old) }
{
    match e {
        Expr::Name(name) => out.put_name(*name),
        Expr::Number { value, kind, span } => out.put_number(*value, *kind, *span),
        Expr::Character { value, span } => out.put(TokenKind::Character(*value), *span),
        Expr::Strings { first, more } => put_literals(out, first, more.as_slice()),
        Expr::Constant { word, span } => out.put_word(constant_word(*word), *span),
        Expr::Paren { open, inner, close } => put_paren(out, *open, inner, *close),
        Expr::Subscript {
            base,
            open,
            index,
            close,
        } => {
            out.put_punct(Punct::RBracket, *close)?;
            put_expr(out, index)?;
            put_marked(out, base, Punct::LBracket, *open)
        }
        Expr::Call {
            callee,
            open,
            arguments,
        } => {
            put_arguments(out, arguments)?;
            put_marked(out, callee, Punct::LParen, *open)
        }
        Expr::Member {
            base,
            mark,
            at,
            member,
        } => put_member_of(out, base, member_punct(*mark), *at, *member),
        Expr::Postfix { base, mark, at } => put_marked(out, base, postfix_punct(*mark), *at),
        Expr::Unary { mark, at, operand } => put_prefixed(out, unary_punct(*mark), *at, operand),
        Expr::SizeOfExpr { word, at, operand } => put_sized(out, size_word(*word), *at, operand),
        Expr::SizeOfType {
            word,
            at,
            open,
            operand,
            close,
        } => put_sized_type(out, size_word(*word), *at, *open, operand, *close),
        Expr::Cast {
            open,
            target,
            close,
            operand,
        } => {
            put_expr(out, operand)?;
            put_enclosed_type(out, *open, target, *close)
        }
        Expr::Binary {
            left,
            mark,
            at,
            right,
        } => {
            put_expr(out, right)?;
            put_marked(out, left, binary_punct(*mark), *at)
        }
        Expr::Assign {
            left,
            mark,
            at,
            right,
        } => {
            put_expr(out, right)?;
            put_marked(out, left, assign_punct(*mark), *at)
        }
        Expr::Conditional {
            test,
            question,
            chosen,
            colon,
            other,
        } => {
            put_expr(out, other)?;
            put_marked(out, chosen, Punct::Colon, *colon)?;
            put_marked(out, test, Punct::Question, *question)
        }
        Expr::Comma { first, more } => {
            put_next_exprs(out, more.as_slice())?;
            put_expr(out, first)
        }
    }
}

// An expression with a mark after it.
#[cycle(put)]
fn put_marked(out: &mut Backwards, e: &Expr, mark: Punct, at: Span) -> Result<(), OutOfMemory>
    ensures { OnOk result (out.new ≡ spell (view e.now) (punct mark at ∷ out.old)) }
{
    out.put_punct(mark, at)?;
    put_expr(out, e)
}

// An expression with a mark before it.
#[cycle(put)]
fn put_prefixed(out: &mut Backwards, mark: Punct, at: Span, e: &Expr) -> Result<(), OutOfMemory>
    ensures { OnOk result (out.new ≡ punct mark at ∷ spell (view e.now) out.old) }
{
    put_expr(out, e)?;
    out.put_punct(mark, at)
}

// An expression with a word before it.
#[cycle(put)]
fn put_sized(out: &mut Backwards, size: Word, at: Span, e: &Expr) -> Result<(), OutOfMemory>
    ensures { OnOk result (out.new ≡ word size at ∷ spell (view e.now) out.old) }
{
    put_expr(out, e)?;
    out.put_word(size, at)
}

// An expression in parentheses.
#[cycle(put)]
fn put_paren(out: &mut Backwards, left: Span, e: &Expr, right: Span) -> Result<(), OutOfMemory>
    ensures { OnOk result (out.new ≡ punct puncts.LParen left ∷ spell (view e.now)
        (punct puncts.RParen right ∷ out.old)) }
{
    out.put_punct(Punct::RParen, right)?;
    put_prefixed(out, Punct::LParen, left, e)
}

// A member of an expression.
#[cycle(put)]
fn put_member_of(
    out: &mut Backwards,
    base: &Expr,
    mark: Punct,
    at: Span,
    member: Name,
) -> Result<(), OutOfMemory>
    ensures { OnOk result (out.new ≡ spell (view base.now) (punct mark at ∷ name_token member ∷ out.old)) }
{
    out.put_name(member)?;
    put_marked(out, base, mark, at)
}

// A type in parentheses.
#[cycle(put)]
fn put_enclosed_type(
    out: &mut Backwards,
    left: Span,
    name: &TypeName,
    right: Span,
) -> Result<(), OutOfMemory>
    ensures { OnOk result (out.new ≡ punct puncts.LParen left ∷ spell_type (view_type name.now)
        (punct puncts.RParen right ∷ out.old)) }
{
    out.put_punct(Punct::RParen, right)?;
    put_type(out, name)?;
    out.put_punct(Punct::LParen, left)
}

// A type in parentheses with a word before it.
#[cycle(put)]
fn put_sized_type(
    out: &mut Backwards,
    size: Word,
    at: Span,
    left: Span,
    name: &TypeName,
    right: Span,
) -> Result<(), OutOfMemory>
    ensures { OnOk result (out.new ≡ word size at ∷ punct puncts.LParen left ∷ spell_type
        (view_type name.now) (punct puncts.RParen right ∷ out.old)) }
{
    put_enclosed_type(out, left, name, right)?;
    out.put_word(size, at)
}

#[cycle(put)]
fn put_arguments(out: &mut Backwards, arguments: &Arguments) -> Result<(), OutOfMemory>
    ensures { OnOk result (out.new ≡ spell_arguments (view_arguments arguments.now) out.old) }
{
    match arguments {
        Arguments::Empty { close } => out.put_punct(Punct::RParen, *close),
        Arguments::Filled { first, more, close } => {
            out.put_punct(Punct::RParen, *close)?;
            put_next_exprs(out, more.as_slice())?;
            put_expr(out, first)
        }
    }
}

/// Puts the tokens of further expressions, each after its comma.
#[cycle(put)]
pub fn put_next_exprs(out: &mut Backwards, more: &[NextExpr]) -> Result<(), OutOfMemory>
    ensures { OnOk result (out.new ≡ spell_next_exprs (next_exprs_of (map view_next_expr more.now)) out.old) }
{
    for i in (0..more.len()).rev() {
        let part = &more[i];
        put_expr(out, &part.value)?;
        out.put_punct(Punct::Comma, part.comma)?;
    }
    Ok(())
}

#[cycle(put)]
fn put_type(out: &mut Backwards, name: &TypeName) -> Result<(), OutOfMemory>
    ensures { OnOk result (out.new ≡ spell_type (view_type name.now) out.old) }
{
    put_dimensions(out, name.sizes.as_slice())?;
    put_pointers(out, name.pointers.as_slice())?;
    put_specs(out, name.specs.as_slice())
}

/// Puts the tokens of specifiers and qualifiers.
#[cycle(put)]
pub fn put_specs(out: &mut Backwards, specs: &[Spec]) -> Result<(), OutOfMemory>
    ensures { OnOk result (out.new ≡ spell_specs (specs_of (map view_spec specs.now)) out.old) }
{
    for i in (0..specs.len()).rev() {
        let part = &specs[i];
        put_spec(out, part)?;
    }
    Ok(())
}

#[cycle(put)]
fn put_spec(out: &mut Backwards, spec: &Spec) -> Result<(), OutOfMemory>
    ensures { OnOk result (out.new ≡ spell_spec (view_spec spec.now) out.old) }
{
    match spec {
        Spec::Word { word, span } => out.put_word(type_word(*word), *span),
        Spec::Qual(qual) => put_qual(out, qual),
        Spec::Tag { word, tag } => {
            out.put_name(*tag)?;
            out.put_word(Word::Struct, *word)
        }
        Spec::Struct {
            word,
            tag,
            open,
            members,
            close,
        } => {
            out.put_punct(Punct::RBrace, *close)?;
            put_members(out, members.as_slice())?;
            out.put_punct(Punct::LBrace, *open)?;
            out.put_name(*tag)?;
            out.put_word(Word::Struct, *word)
        }
    }
}

#[cycle(put)]
fn put_quals(out: &mut Backwards, quals: &[Qual]) -> Result<(), OutOfMemory>
    ensures { OnOk result (out.new ≡ spell_quals (quals_of (map view_qual quals.now)) out.old) }
{
    for i in (0..quals.len()).rev() {
        let part = &quals[i];
        put_qual(out, part)?;
    }
    Ok(())
}

#[cycle(put)]
fn put_qual(out: &mut Backwards, qual: &Qual) -> Result<(), OutOfMemory>
    ensures { OnOk result (out.new ≡ spell_qual (view_qual qual.now) out.old) }
{
    match qual {
        Qual::Const(word) => out.put_word(Word::Const, *word),
        Qual::Strict(word) => out.put_word(Word::Strict, *word),
        Qual::Relaxed(word) => out.put_word(Word::Relaxed, *word),
        Qual::Shared { word, layout } => {
            put_layout(out, layout)?;
            out.put_word(Word::Shared, *word)
        }
    }
}

#[cycle(put)]
fn put_layout(out: &mut Backwards, layout: &Layout) -> Result<(), OutOfMemory>
    ensures { OnOk result (out.new ≡ spell_layout (view_layout layout.now) out.old) }
{
    match layout {
        Layout::Absent => Ok(()),
        Layout::Indefinite { open, close } => {
            out.put_punct(Punct::RBracket, *close)?;
            out.put_punct(Punct::LBracket, *open)
        }
        Layout::Star { open, star, close } => {
            out.put_punct(Punct::RBracket, *close)?;
            out.put_punct(Punct::Star, *star)?;
            out.put_punct(Punct::LBracket, *open)
        }
        Layout::Block { open, size, close } => {
            out.put_punct(Punct::RBracket, *close)?;
            put_expr(out, size)?;
            out.put_punct(Punct::LBracket, *open)
        }
    }
}

/// Puts the tokens of stars with their qualifiers.
#[cycle(put)]
pub fn put_pointers(out: &mut Backwards, pointers: &[Pointer]) -> Result<(), OutOfMemory>
    ensures { OnOk result (out.new ≡ spell_pointers (pointers_of (map view_pointer pointers.now)) out.old) }
{
    for i in (0..pointers.len()).rev() {
        let part = &pointers[i];
        put_quals(out, part.quals.as_slice())?;
        out.put_punct(Punct::Star, part.star)?;
    }
    Ok(())
}

#[cycle(put)]
fn put_dimensions(out: &mut Backwards, sizes: &[Dimension]) -> Result<(), OutOfMemory>
    ensures { OnOk result (out.new ≡ spell_dimensions (dimensions_of (map view_dimension sizes.now)) out.old) }
{
    for i in (0..sizes.len()).rev() {
        let part = &sizes[i];
        out.put_punct(Punct::RBracket, part.close)?;
        put_expr(out, &part.size)?;
        out.put_punct(Punct::LBracket, part.open)?;
    }
    Ok(())
}

#[cycle(put)]
fn put_members(out: &mut Backwards, members: &[Member]) -> Result<(), OutOfMemory>
    ensures { OnOk result (out.new ≡ spell_members (members_of (map view_member members.now)) out.old) }
{
    for i in (0..members.len()).rev() {
        let part = &members[i];
        put_member(out, part)?;
    }
    Ok(())
}

#[cycle(put)]
fn put_member(out: &mut Backwards, member: &Member) -> Result<(), OutOfMemory>
    ensures { OnOk result (out.new ≡ spell_member (view_member member.now) out.old) }
{
    out.put_punct(Punct::Semicolon, member.semicolon)?;
    put_next_declarators(out, member.more.as_slice())?;
    put_declarator(out, &member.first)?;
    put_specs(out, member.specs.as_slice())
}

#[cycle(put)]
fn put_next_declarators(out: &mut Backwards, more: &[NextDeclarator]) -> Result<(), OutOfMemory>
    ensures { OnOk result (out.new ≡ spell_next_declarators
        (next_declarators_of (map view_next_declarator more.now)) out.old) }
{
    for i in (0..more.len()).rev() {
        let part = &more[i];
        put_declarator(out, &part.declarator)?;
        out.put_punct(Punct::Comma, part.comma)?;
    }
    Ok(())
}

/// Puts the tokens of a declarator.
#[cycle(put)]
pub fn put_declarator(out: &mut Backwards, declarator: &Declarator) -> Result<(), OutOfMemory>
    ensures { OnOk result (out.new ≡ spell_declarator (view_declarator declarator.now) out.old) }
{
    match declarator {
        Declarator::Object {
            pointers,
            name,
            sizes,
        } => {
            put_dimensions(out, sizes.as_slice())?;
            out.put_name(*name)?;
            put_pointers(out, pointers.as_slice())
        }
        Declarator::Function {
            pointers,
            name,
            parameters,
        } => {
            put_parameters(out, parameters)?;
            out.put_name(*name)?;
            put_pointers(out, pointers.as_slice())
        }
    }
}

/// Puts the tokens of a function's parameters, in their parentheses.
#[cycle(put)]
pub fn put_parameters(out: &mut Backwards, parameters: &Parameters) -> Result<(), OutOfMemory>
    ensures { OnOk result (out.new ≡ spell_parameters (view_parameters parameters.now) out.old) }
{
    match parameters {
        Parameters::Empty { open, close } => {
            out.put_punct(Punct::RParen, *close)?;
            out.put_punct(Punct::LParen, *open)
        }
        Parameters::Void { open, word, close } => {
            out.put_punct(Punct::RParen, *close)?;
            out.put_word(Word::Void, *word)?;
            out.put_punct(Punct::LParen, *open)
        }
        Parameters::Filled {
            open,
            first,
            more,
            close,
        } => {
            out.put_punct(Punct::RParen, *close)?;
            put_next_parameters(out, more.as_slice())?;
            put_parameter(out, first)?;
            out.put_punct(Punct::LParen, *open)
        }
    }
}

#[cycle(put)]
fn put_parameter(out: &mut Backwards, parameter: &Parameter) -> Result<(), OutOfMemory>
    ensures { OnOk result (out.new ≡ spell_parameter (view_parameter parameter.now) out.old) }
{
    put_array(out, &parameter.array)?;
    put_optional_name(out, parameter.name)?;
    put_pointers(out, parameter.pointers.as_slice())?;
    put_specs(out, parameter.specs.as_slice())
}

#[cycle(put)]
fn put_next_parameters(out: &mut Backwards, more: &[NextParameter]) -> Result<(), OutOfMemory>
    ensures { OnOk result (out.new ≡ spell_next_parameters
        (next_parameters_of (map view_next_parameter more.now)) out.old) }
{
    for i in (0..more.len()).rev() {
        let part = &more[i];
        put_parameter(out, &part.parameter)?;
        out.put_punct(Punct::Comma, part.comma)?;
    }
    Ok(())
}

#[cycle(put)]
fn put_array(out: &mut Backwards, array: &ParameterArray) -> Result<(), OutOfMemory>
    ensures { OnOk result (out.new ≡ spell_array (view_array array.now) out.old) }
{
    match array {
        ParameterArray::Absent => Ok(()),
        ParameterArray::Unsized { open, close } => {
            out.put_punct(Punct::RBracket, *close)?;
            out.put_punct(Punct::LBracket, *open)
        }
        ParameterArray::Sized { open, size, close } => {
            out.put_punct(Punct::RBracket, *close)?;
            put_expr(out, size)?;
            out.put_punct(Punct::LBracket, *open)
        }
    }
}
