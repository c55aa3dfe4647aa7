//! What names stand for, and what is done with expressions.

use crate::attribute::Constant;
use crate::library::LibraryConstant;
use crate::setting::{Enclosing, Home};
use upc_types::CType;
use upc_values::LibraryCall;

/// What a function gives and takes.
#[derive(Drop)]
pub struct Signature {
    pub result: CType,
    pub parameters: Vec<CType>,
}

/// What a name stands for (C99 6.2.1).
#[derive(Clone, Copy)]
pub enum Meaning<'m> {
    Unknown,
    Object(&'m CType, Home),
    Function(&'m Signature),
    Library(LibraryCall),
    Named(LibraryConstant),
}

/// What the node above does with an expression, seen through parentheses.
#[derive(Clone, Copy)]
pub enum Use<'t> {
    Plain,
    Called,
    Indexed,
    Measured,
    Prints,
    /// It converts into this type.
    Into(&'t CType),
}

/// A type name, or what a declarator declares: whether its parts form a type, the type, and its sizes, outermost first.
#[derive(Drop)]
pub struct Formed {
    pub forms: bool,
    pub ctype: CType,
    pub sizes: Vec<Constant>,
}

/// What a jump or a return stands in.
#[derive(Clone, Copy)]
pub struct Around<'t> {
    /// The result of the function.
    pub result: &'t CType,
    /// What a `break` would leave.
    pub breaks: Enclosing,
    /// Whether a loop is around it.
    pub loops: bool,
    /// Whether it is in the body of a upc_forall.
    pub forall: bool,
}
