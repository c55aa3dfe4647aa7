//! Statements.

use crate::declaration::Declaration;
use crate::expression::Expr;
use crate::mark::BarrierWord;
use crate::span::{Pragma, Span};

/// A statement (C99 6.8, UPC 6.6).
#[cycle(statement)]
#[derive(Drop)]
pub enum Statement {
    Compound(Box<Compound>),
    Expression {
        value: Option<Box<Expr>>,
        semicolon: Span,
    },
    /// An `if`, with each `else if` as a further arm.
    If {
        word: Span,
        test: Box<Test>,
        body: Box<Statement>,
        more: Vec<ElseIf>,
        otherwise: Otherwise,
    },
    Switch {
        word: Span,
        test: Box<Test>,
        open: Span,
        body: Vec<SwitchItem>,
        close: Span,
    },
    While {
        word: Span,
        test: Box<Test>,
        body: Box<Statement>,
    },
    DoWhile {
        word: Span,
        body: Box<Statement>,
        until: Span,
        test: Box<Test>,
        semicolon: Span,
    },
    For {
        word: Span,
        head: Box<ForHead>,
        body: Box<Statement>,
    },
    Forall {
        word: Span,
        head: Box<ForallHead>,
        body: Box<Statement>,
    },
    Break {
        word: Span,
        semicolon: Span,
    },
    Continue {
        word: Span,
        semicolon: Span,
    },
    Return {
        word: Span,
        value: Option<Box<Expr>>,
        semicolon: Span,
    },
    Barrier {
        word: BarrierWord,
        at: Span,
        value: Option<Box<Expr>>,
        semicolon: Span,
    },
    Fence {
        word: Span,
        semicolon: Span,
    },
}

/// A compound statement (C99 6.8.2), with the pragmas at its start (UPC 6.7).
#[cycle(statement)]
#[derive(Drop)]
pub struct Compound {
    pub open: Span,
    pub pragmas: Vec<Pragma>,
    pub items: Vec<BlockItem>,
    pub close: Span,
}

/// A part of a compound statement.
#[cycle(statement)]
#[derive(Drop)]
pub enum BlockItem {
    Declaration(Box<Declaration>),
    Statement(Box<Statement>),
}

/// A part of the body of a `switch`: a label or a statement.
#[cycle(statement)]
#[derive(Drop)]
pub enum SwitchItem {
    Case {
        word: Span,
        value: Box<Expr>,
        colon: Span,
    },
    Default {
        word: Span,
        colon: Span,
    },
    Statement(Box<Statement>),
}

/// A further arm of an `if`.
#[cycle(statement)]
#[derive(Drop)]
pub struct ElseIf {
    pub other: Span,
    pub word: Span,
    pub test: Box<Test>,
    pub body: Box<Statement>,
}

/// The last part of an `if`.
#[cycle(statement)]
#[derive(Drop)]
pub enum Otherwise {
    Absent,
    Else { word: Span, body: Box<Statement> },
}

/// An expression in the parentheses of a statement.
#[derive(Drop)]
pub struct Test {
    pub open: Span,
    pub value: Box<Expr>,
    pub close: Span,
}

/// The parentheses of a `for`.
#[derive(Drop)]
pub struct ForHead {
    pub open: Span,
    pub first: Box<First>,
    pub test: Option<Box<Expr>>,
    pub test_end: Span,
    pub step: Option<Box<Expr>>,
    pub close: Span,
}

/// The parentheses of a `upc_forall` (UPC 6.6.2).
#[derive(Drop)]
pub struct ForallHead {
    pub open: Span,
    pub first: Box<First>,
    pub test: Option<Box<Expr>>,
    pub test_end: Span,
    pub step: Option<Box<Expr>>,
    pub step_end: Span,
    pub affinity: Box<Affinity>,
    pub close: Span,
}

/// What a loop does first, with its semicolon.
#[derive(Drop)]
pub enum First {
    Expression {
        value: Option<Box<Expr>>,
        semicolon: Span,
    },
    Declaration(Box<Declaration>),
}

/// The affinity of a `upc_forall` (UPC 6.6.2).
#[derive(Drop)]
pub enum Affinity {
    Absent,
    Continue(Span),
    Value(Box<Expr>),
}
