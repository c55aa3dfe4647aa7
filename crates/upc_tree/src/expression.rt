//! Expressions and types, which contain each other: sizes stand in types, and types in casts.

use crate::mark::{
    AssignMark, BinaryMark, ConstantWord, MemberMark, PostfixMark, SizeWord, TypeWord, UnaryMark,
};
use crate::span::{Name, Span, StringLiteral};
use upc_lexer::NumberKind;

/// An expression (C99 6.5).
#[cycle(expression)]
#[derive(Drop)]
pub enum Expr {
    Name(Name),
    Number {
        value: u64,
        kind: NumberKind,
        span: Span,
    },
    Character {
        value: u8,
        span: Span,
    },
    Strings {
        first: StringLiteral,
        more: Vec<StringLiteral>,
    },
    Constant {
        word: ConstantWord,
        span: Span,
    },
    Paren {
        open: Span,
        inner: Box<Expr>,
        close: Span,
    },
    Subscript {
        base: Box<Expr>,
        open: Span,
        index: Box<Expr>,
        close: Span,
    },
    Call {
        callee: Box<Expr>,
        open: Span,
        arguments: Box<Arguments>,
    },
    Member {
        base: Box<Expr>,
        mark: MemberMark,
        at: Span,
        member: Name,
    },
    Postfix {
        base: Box<Expr>,
        mark: PostfixMark,
        at: Span,
    },
    Unary {
        mark: UnaryMark,
        at: Span,
        operand: Box<Expr>,
    },
    SizeOfExpr {
        word: SizeWord,
        at: Span,
        operand: Box<Expr>,
    },
    SizeOfType {
        word: SizeWord,
        at: Span,
        open: Span,
        operand: Box<TypeName>,
        close: Span,
    },
    Cast {
        open: Span,
        target: Box<TypeName>,
        close: Span,
        operand: Box<Expr>,
    },
    Binary {
        left: Box<Expr>,
        mark: BinaryMark,
        at: Span,
        right: Box<Expr>,
    },
    Assign {
        left: Box<Expr>,
        mark: AssignMark,
        at: Span,
        right: Box<Expr>,
    },
    Conditional {
        test: Box<Expr>,
        question: Span,
        chosen: Box<Expr>,
        colon: Span,
        other: Box<Expr>,
    },
    Comma {
        first: Box<Expr>,
        more: Vec<NextExpr>,
    },
}

/// The arguments of a call, with the parenthesis after them.
#[cycle(expression)]
#[derive(Drop)]
pub enum Arguments {
    Empty {
        close: Span,
    },
    Filled {
        first: Box<Expr>,
        more: Vec<NextExpr>,
        close: Span,
    },
}

/// A further expression of a list, after its comma.
#[cycle(expression)]
#[derive(Drop)]
pub struct NextExpr {
    pub comma: Span,
    pub value: Box<Expr>,
}

/// A type name (C99 6.7.6). Sizes stand only in the operand of a size operator.
#[cycle(expression)]
#[derive(Drop)]
pub struct TypeName {
    pub specs: Vec<Spec>,
    pub pointers: Vec<Pointer>,
    pub sizes: Vec<Dimension>,
}

/// A specifier or a qualifier (C99 6.7.1 to 6.7.3).
#[cycle(expression)]
#[derive(Drop)]
pub enum Spec {
    Word {
        word: TypeWord,
        span: Span,
    },
    Qual(Qual),
    /// `struct` with a tag alone.
    Tag {
        word: Span,
        tag: Name,
    },
    /// `struct` with a tag and its members.
    Struct {
        word: Span,
        tag: Name,
        open: Span,
        members: Vec<Member>,
        close: Span,
    },
}

/// A qualifier (C99 6.7.3, UPC 6.5.1).
#[cycle(expression)]
#[derive(Drop)]
pub enum Qual {
    Const(Span),
    Strict(Span),
    Relaxed(Span),
    Shared { word: Span, layout: Box<Layout> },
}

/// A layout qualifier (UPC 6.5.1.1).
#[cycle(expression)]
#[derive(Drop)]
pub enum Layout {
    Absent,
    Indefinite {
        open: Span,
        close: Span,
    },
    Star {
        open: Span,
        star: Span,
        close: Span,
    },
    Block {
        open: Span,
        size: Box<Expr>,
        close: Span,
    },
}

/// A star with its qualifiers.
#[cycle(expression)]
#[derive(Drop)]
pub struct Pointer {
    pub star: Span,
    pub quals: Vec<Qual>,
}

/// A size in brackets.
#[cycle(expression)]
#[derive(Drop)]
pub struct Dimension {
    pub open: Span,
    pub size: Box<Expr>,
    pub close: Span,
}

/// A line of members of a struct (C99 6.7.2.1).
#[cycle(expression)]
#[derive(Drop)]
pub struct Member {
    pub specs: Vec<Spec>,
    pub first: Box<Declarator>,
    pub more: Vec<NextDeclarator>,
    pub semicolon: Span,
}

/// A further declarator of a line, after its comma.
#[cycle(expression)]
#[derive(Drop)]
pub struct NextDeclarator {
    pub comma: Span,
    pub declarator: Box<Declarator>,
}

/// A declarator (C99 6.7.5): an object's or a function's.
#[cycle(expression)]
#[derive(Drop)]
pub enum Declarator {
    Object {
        pointers: Vec<Pointer>,
        name: Name,
        sizes: Vec<Dimension>,
    },
    Function {
        pointers: Vec<Pointer>,
        name: Name,
        parameters: Box<Parameters>,
    },
}

/// The parameters of a function, in their parentheses.
#[cycle(expression)]
#[derive(Drop)]
pub enum Parameters {
    Empty {
        open: Span,
        close: Span,
    },
    /// `(void)`.
    Void {
        open: Span,
        word: Span,
        close: Span,
    },
    Filled {
        open: Span,
        first: Box<Parameter>,
        more: Vec<NextParameter>,
        close: Span,
    },
}

/// A further parameter, after its comma.
#[cycle(expression)]
#[derive(Drop)]
pub struct NextParameter {
    pub comma: Span,
    pub parameter: Box<Parameter>,
}

/// A parameter (C99 6.7.5.3).
#[cycle(expression)]
#[derive(Drop)]
pub struct Parameter {
    pub specs: Vec<Spec>,
    pub pointers: Vec<Pointer>,
    pub name: Option<Name>,
    pub array: ParameterArray,
}

/// The brackets of a parameter, if any.
#[cycle(expression)]
#[derive(Drop)]
pub enum ParameterArray {
    Absent,
    Unsized {
        open: Span,
        close: Span,
    },
    Sized {
        open: Span,
        size: Box<Expr>,
        close: Span,
    },
}
