//! Syntax trees of the language: every token of a source with its place, as the grammar groups them.
#![tactic(auto)]

mod declaration;
mod expression;
mod expression_height;
mod mark;
mod span;
mod statement;
mod unit;

pub use declaration::{Declaration, Declared, DeclaredList, Initial, NextDeclared};
pub use expression::{
    Arguments, Declarator, Dimension, Expr, Layout, Member, NextDeclarator, NextExpr,
    NextParameter, Parameter, ParameterArray, Parameters, Pointer, Qual, Spec, TypeName,
};
pub use expression_height::{
    above, declarator_height, expr_height, next_height, parameters_height, pointers_height,
    specs_height,
};
pub use mark::{
    AssignMark, BarrierWord, BinaryMark, ConstantWord, MemberMark, PostfixMark, SizeWord, TypeWord,
    UnaryMark,
};
pub use span::{Name, Pragma, Span, StringLiteral};
pub use statement::{
    Affinity, BlockItem, Compound, ElseIf, First, ForHead, ForallHead, Otherwise, Statement,
    SwitchItem, Test,
};
pub use unit::{External, Function, Unit};
