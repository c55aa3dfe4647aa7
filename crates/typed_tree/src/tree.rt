//! The tree of a program with its types: names stand for objects and functions, and each expression has its attribute.

use integers::{BinOp, UnOp};
use typing_rules::{Attr, Home, SizeOperator};
use upc_text::{Place, Text};
use upc_types::CType;
use upc_values::LibraryCall;

/// `++` and `--`, before and after their operand (C99 6.5.2.4, 6.5.3.1).
#[derive(Clone, Copy)]
pub enum StepOperator {
    IncrementFirst,
    DecrementFirst,
    IncrementAfter,
    DecrementAfter,
}

/// What is called: a function of the source, by its number in order of definition, or a call of the library.
#[derive(Clone, Copy)]
pub enum Target {
    Function(u32),
    Library(LibraryCall),
}

/// An expression (C99 6.5) with the place of its first token.
#[cycle(typed_expression)]
#[derive(Drop)]
pub struct Expr {
    pub place: Place,
    pub attr: Attr,
    pub kind: ExprKind,
}

/// What an expression consists of.
#[cycle(typed_expression)]
#[derive(Drop)]
pub enum ExprKind {
    /// A number, a character or a named constant: its value is that of the attribute.
    Literal,
    Mythread,
    Object(Home),
    /// The name of a function that is called.
    Callee(Target),
    /// The format of a printf.
    Format(Text),
    Paren(Box<Expr>),
    Subscript(Box<Expr>, Box<Expr>),
    Call(Target, Vec<Expr>),
    /// A member of a struct, by its number.
    Member(Box<Expr>, u32),
    /// A member of the struct that a pointer leads to, by its number.
    MemberBehind(Box<Expr>, u32),
    Step(StepOperator, Box<Expr>),
    Address(Box<Expr>),
    Dereference(Box<Expr>),
    Unary(UnOp, Box<Expr>),
    SizeOf(SizeOperator, Box<Expr>),
    SizeOfType(SizeOperator, Box<CType>),
    Cast(Box<Expr>),
    Binary(BinOp, Box<Expr>, Box<Expr>),
    And(Box<Expr>, Box<Expr>),
    Or(Box<Expr>, Box<Expr>),
    Assign(Box<Expr>, Box<Expr>),
    Compound(BinOp, Box<Expr>, Box<Expr>),
    Conditional(Box<Expr>, Box<Expr>, Box<Expr>),
    Comma(Vec<Expr>),
}

/// An initialiser (C99 6.7.8).
#[derive(Drop)]
pub enum Initial {
    Absent,
    Value(Box<Expr>),
    List(Vec<Expr>),
}

/// A declared object with its initialiser, and the place of its declaration.
#[derive(Drop)]
pub struct Object {
    pub place: Place,
    pub name: Text,
    pub home: Home,
    pub ctype: CType,
    pub initial: Initial,
}

/// The statements that synchronise (UPC 6.6.1).
#[derive(Clone, Copy)]
pub enum Synchronises {
    Notify,
    Wait,
    Barrier,
}

/// Whose turn the body of a upc_forall is (UPC 6.6.2).
#[derive(Drop)]
pub enum Affinity {
    /// Everyone's: it is absent or `continue`.
    All,
    Value(Box<Expr>),
}

/// The parts of a loop's head; the objects are those that its first part declares.
#[derive(Drop)]
pub struct Head {
    pub objects: Vec<Object>,
    pub first: Option<Box<Expr>>,
    pub test: Option<Box<Expr>>,
    pub step: Option<Box<Expr>>,
}

/// A statement (C99 6.8, UPC 6.6) with the place of its first token.
#[cycle(typed_statement)]
#[derive(Drop)]
pub struct Statement {
    pub place: Place,
    pub kind: StatementKind,
}

/// What a statement consists of.
#[cycle(typed_statement)]
#[derive(Drop)]
pub enum StatementKind {
    /// Whether accesses that do not say so themselves are strict in it (UPC 6.7), and its parts.
    Block(bool, Vec<Item>),
    Value(Option<Box<Expr>>),
    If(Vec<Arm>, Option<Box<Statement>>),
    Switch(Box<Expr>, Vec<SwitchItem>),
    While(Box<Expr>, Box<Statement>),
    DoWhile(Box<Statement>, Box<Expr>),
    For(Box<Head>, Box<Statement>),
    Forall(Box<Head>, Affinity, Box<Statement>),
    Break,
    Continue,
    Return(Option<Box<Expr>>),
    Synchronise(Synchronises, Option<Box<Expr>>),
    Fence,
}

/// A condition with what it guards.
#[cycle(typed_statement)]
#[derive(Drop)]
pub struct Arm {
    pub test: Box<Expr>,
    pub body: Statement,
}

/// A part of a block.
#[cycle(typed_statement)]
#[derive(Drop)]
pub enum Item {
    Declare(Vec<Object>),
    Do(Box<Statement>),
}

/// A part of the body of a `switch`. A label has the value that it compares with.
#[cycle(typed_statement)]
#[derive(Drop)]
pub enum SwitchItem {
    Case(i128),
    Default,
    Do(Box<Statement>),
}

/// A function that is defined (C99 6.9.1), with the place of its first token.
#[derive(Drop)]
pub struct Function {
    pub place: Place,
    pub name: Text,
    pub result: CType,
    pub parameters: Vec<CType>,
    pub body: Box<Statement>,
}
