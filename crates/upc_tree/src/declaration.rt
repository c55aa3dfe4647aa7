//! Declarations of objects and functions.

use crate::expression::{Declarator, Expr, NextExpr, Spec};
use crate::span::Span;

/// A declaration (C99 6.7).
#[derive(Drop)]
pub struct Declaration {
    pub specs: Vec<Spec>,
    pub declared: Option<Box<DeclaredList>>,
    pub semicolon: Span,
}

/// What a declaration declares.
#[derive(Drop)]
pub struct DeclaredList {
    pub first: Box<Declared>,
    pub more: Vec<NextDeclared>,
}

/// A further part of a declaration, after its comma.
#[derive(Drop)]
pub struct NextDeclared {
    pub comma: Span,
    pub declared: Box<Declared>,
}

/// A declarator with its initial value.
#[derive(Drop)]
pub struct Declared {
    pub declarator: Box<Declarator>,
    pub initial: Box<Initial>,
}

/// An initialiser (C99 6.7.8).
#[derive(Drop)]
pub enum Initial {
    Absent,
    Value {
        equal: Span,
        value: Box<Expr>,
    },
    List {
        equal: Span,
        open: Span,
        first: Box<Expr>,
        more: Vec<NextExpr>,
        close: Span,
    },
}
