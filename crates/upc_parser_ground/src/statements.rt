//! Declarations and statements from their parts.

ghost use Rattle.std.specs.Prelude.{◌≡◌, IfOk};
ghost use Rattle.upc_tree.specs.Declaration as declarations;
ghost use Rattle.upc_tree.specs.Statement as statement_tree;
ghost use Rattle.upc_tree.specs.layer.View.{view_declarator, view_specs};
ghost use Rattle.upc_tree.specs.layer.ViewStatement.{view_initial, view_declared};
ghost use Rattle.upc_tree.specs.layer.ViewStatement.{view_next_declareds, view_declared_list};
ghost use Rattle.upc_tree.specs.layer.ViewStatement.{view_declaration, view_statement};
ghost use Rattle.upc_tree.specs.layer.ViewStatement.{view_compound, view_test, view_for};
ghost use Rattle.upc_tree.specs.layer.ViewStatement.{view_forall, view_switch_items, view_else_ifs, view_otherwise};

use crate::boxes::boxed;
use std::alloc::Global;
use upc_text::OutOfMemory;
use upc_tree::{
    Compound, Declaration, Declarator, Declared, DeclaredList, ElseIf, ForHead, ForallHead,
    Initial, NextDeclared, Otherwise, Span, Spec, Statement, SwitchItem, Test,
};

/// A declarator with its initialiser.
pub fn declared_as(
    alloc: Global,
    declarator: Box<Declarator>,
    initial: Box<Initial>,
) -> Result<Box<Declared>, OutOfMemory>
    ensures { IfOk result (λ made. view_declared made.value ≡ declarations.DeclaredAs
        (view_declarator declarator.value) (view_initial initial.value)) }
{
    boxed(
        alloc,
        Declared {
            declarator,
            initial,
        },
    )
}

/// The declarators of a declaration, at least one.
pub fn some_list(
    alloc: Global,
    first: Box<Declared>,
    more: Vec<NextDeclared>,
) -> Result<Option<Box<DeclaredList>>, OutOfMemory>
    ensures { IfOk result (λ made. view_declared_list made ≡ declarations.SomeDeclared
        (view_declared first.value) (view_next_declareds more)) }
{
    Ok(Some(boxed(alloc, DeclaredList { first, more })?))
}

/// A declaration.
pub fn declares(
    alloc: Global,
    specs: Vec<Spec>,
    declared: Option<Box<DeclaredList>>,
    semicolon: Span,
) -> Result<Box<Declaration>, OutOfMemory>
    ensures { IfOk result (λ made. view_declaration made.value ≡ declarations.Declares (view_specs specs)
        (view_declared_list declared) semicolon) }
{
    boxed(
        alloc,
        Declaration {
            specs,
            declared,
            semicolon,
        },
    )
}

/// A compound statement.
pub fn block(alloc: Global, compound: Box<Compound>) -> Result<Box<Statement>, OutOfMemory>
    ensures { IfOk result (λ made. view_statement made.value ≡ statement_tree.Block (view_compound compound.value)) }
{
    boxed(alloc, Statement::Compound(compound))
}

/// An `if` with its `else if`s and its `else`.
pub fn if_statement(
    alloc: Global,
    word: Span,
    test: Box<Test>,
    body: Box<Statement>,
    more: Vec<ElseIf>,
    otherwise: Otherwise,
) -> Result<Box<Statement>, OutOfMemory>
    ensures { IfOk result (λ made. view_statement made.value ≡ statement_tree.If word (view_test test.value)
        (view_statement body.value) (view_else_ifs more) (view_otherwise otherwise)) }
{
    boxed(
        alloc,
        Statement::If {
            word,
            test,
            body,
            more,
            otherwise,
        },
    )
}

/// A `switch`.
pub fn switch(
    alloc: Global,
    word: Span,
    test: Box<Test>,
    left: Span,
    body: Vec<SwitchItem>,
    right: Span,
) -> Result<Box<Statement>, OutOfMemory>
    ensures { IfOk result (λ made. view_statement made.value ≡ statement_tree.Switch word (view_test test.value)
        left (view_switch_items body) right) }
{
    boxed(
        alloc,
        Statement::Switch {
            word,
            test,
            open: left,
            body,
            close: right,
        },
    )
}

/// A `while`.
pub fn while_statement(
    alloc: Global,
    word: Span,
    test: Box<Test>,
    body: Box<Statement>,
) -> Result<Box<Statement>, OutOfMemory>
    ensures { IfOk result (λ made. view_statement made.value ≡ statement_tree.While word (view_test test.value)
        (view_statement body.value)) }
{
    boxed(alloc, Statement::While { word, test, body })
}

/// A `do`.
pub fn do_statement(
    alloc: Global,
    word: Span,
    body: Box<Statement>,
    until: Span,
    test: Box<Test>,
    semicolon: Span,
) -> Result<Box<Statement>, OutOfMemory>
    ensures { IfOk result (λ made. view_statement made.value ≡ statement_tree.DoWhile word
        (view_statement body.value) until (view_test test.value) semicolon) }
{
    boxed(
        alloc,
        Statement::DoWhile {
            word,
            body,
            until,
            test,
            semicolon,
        },
    )
}

/// A `for`.
pub fn for_statement(
    alloc: Global,
    word: Span,
    head: Box<ForHead>,
    body: Box<Statement>,
) -> Result<Box<Statement>, OutOfMemory>
    ensures { IfOk result (λ made. view_statement made.value ≡ statement_tree.For word (view_for head.value)
        (view_statement body.value)) }
{
    boxed(alloc, Statement::For { word, head, body })
}

/// A `upc_forall`.
pub fn forall_statement(
    alloc: Global,
    word: Span,
    head: Box<ForallHead>,
    body: Box<Statement>,
) -> Result<Box<Statement>, OutOfMemory>
    ensures { IfOk result (λ made. view_statement made.value ≡ statement_tree.Forall word
        (view_forall head.value) (view_statement body.value)) }
{
    boxed(alloc, Statement::Forall { word, head, body })
}
