//! A whole source.

use crate::declaration::Declaration;
use crate::expression::{Parameters, Pointer, Spec};
use crate::span::{Name, Pragma};
use crate::statement::Compound;

/// The syntax tree of a source (C99 6.9).
#[derive(Drop)]
pub struct Unit {
    pub externals: Vec<External>,
}

/// A part of a source.
#[derive(Drop)]
pub enum External {
    Pragma(Pragma),
    Declaration(Box<Declaration>),
    Function(Box<Function>),
}

/// The definition of a function (C99 6.9.1).
#[derive(Drop)]
pub struct Function {
    pub specs: Vec<Spec>,
    pub pointers: Vec<Pointer>,
    pub name: Name,
    pub parameters: Box<Parameters>,
    pub body: Box<Compound>,
}
