//! Statements from their parts.

ghost use Rattle.std.specs.Prelude.{◌≡◌, IfOk};
ghost use Rattle.typed_tree.specs.Tree as pure;
ghost use Rattle.typed_tree.specs.ViewTree.{view_expr};
ghost use Rattle.typed_tree.specs.ViewStatements.{view_affinity, view_arms, view_head, view_items, view_last};
ghost use Rattle.typed_tree.specs.ViewStatements.{view_statement, view_statement_kind, view_switch_items, view_value};

use std::alloc::Global;
use typed_tree::{
    Affinity, Arm, Expr, Head, Item, Statement, StatementKind, SwitchItem, Synchronises,
};
use upc_text::{OutOfMemory, Place};

// A statement of this kind.
fn node(alloc: Global, place: Place, kind: StatementKind) -> Result<Box<Statement>, OutOfMemory>
    ensures { IfOk result (λ s. view_statement s.value ≡ pure.Stands place (view_statement_kind kind)) }
{
    Ok(Box::new(alloc, Statement { place, kind })?)
}

/// A block; `strict`: accesses in it that do not say so themselves are strict.
pub fn block(
    alloc: Global,
    place: Place,
    strict: bool,
    items: Vec<Item>,
) -> Result<Box<Statement>, OutOfMemory>
    ensures { IfOk result (λ s. view_statement s.value
        ≡ pure.Stands place (pure.Block strict (view_items items.items))) }
{
    node(alloc, place, StatementKind::Block(strict, items))
}

/// An expression, or nothing.
pub fn value(
    alloc: Global,
    place: Place,
    value: Option<Box<Expr>>,
) -> Result<Box<Statement>, OutOfMemory>
    ensures { IfOk result (λ s. view_statement s.value ≡ pure.Stands place (pure.Value (view_value value))) }
{
    node(alloc, place, StatementKind::Value(value))
}

/// An `if`, with what stands after its `else`.
pub fn if_chain(
    alloc: Global,
    place: Place,
    arms: Vec<Arm>,
    last: Option<Box<Statement>>,
) -> Result<Box<Statement>, OutOfMemory>
    ensures { IfOk result (λ s. view_statement s.value
        ≡ pure.Stands place (pure.If (view_arms arms.items) (view_last last))) }
{
    node(alloc, place, StatementKind::If(arms, last))
}

/// `switch`.
pub fn switch(
    alloc: Global,
    place: Place,
    value: Box<Expr>,
    items: Vec<SwitchItem>,
) -> Result<Box<Statement>, OutOfMemory>
    ensures { IfOk result (λ s. view_statement s.value
        ≡ pure.Stands place (pure.Switch (view_expr value.value) (view_switch_items items.items))) }
{
    node(alloc, place, StatementKind::Switch(value, items))
}

/// `while`.
pub fn while_loop(
    alloc: Global,
    place: Place,
    test: Box<Expr>,
    body: Box<Statement>,
) -> Result<Box<Statement>, OutOfMemory>
    ensures { IfOk result (λ s. view_statement s.value
        ≡ pure.Stands place (pure.While (view_expr test.value) (view_statement body.value))) }
{
    node(alloc, place, StatementKind::While(test, body))
}

/// `do` with its `while`.
pub fn do_while(
    alloc: Global,
    place: Place,
    body: Box<Statement>,
    test: Box<Expr>,
) -> Result<Box<Statement>, OutOfMemory>
    ensures { IfOk result (λ s. view_statement s.value
        ≡ pure.Stands place (pure.DoWhile (view_statement body.value) (view_expr test.value))) }
{
    node(alloc, place, StatementKind::DoWhile(body, test))
}

/// `for`.
pub fn for_loop(
    alloc: Global,
    place: Place,
    head: Box<Head>,
    body: Box<Statement>,
) -> Result<Box<Statement>, OutOfMemory>
    ensures { IfOk result (λ s. view_statement s.value
        ≡ pure.Stands place (pure.For (view_head head.value) (view_statement body.value))) }
{
    node(alloc, place, StatementKind::For(head, body))
}

/// `upc_forall`.
pub fn forall(
    alloc: Global,
    place: Place,
    head: Box<Head>,
    affinity: Affinity,
    body: Box<Statement>,
) -> Result<Box<Statement>, OutOfMemory>
    ensures { IfOk result (λ s. view_statement s.value
        ≡ pure.Stands place (pure.Forall (view_head head.value) (view_affinity affinity) (view_statement body.value))) }
{
    node(alloc, place, StatementKind::Forall(head, affinity, body))
}

/// `break`.
pub fn leave(alloc: Global, place: Place) -> Result<Box<Statement>, OutOfMemory>
    ensures { IfOk result (λ s. view_statement s.value ≡ pure.Stands place pure.Break) }
{
    node(alloc, place, StatementKind::Break)
}

/// `continue`.
pub fn repeat(alloc: Global, place: Place) -> Result<Box<Statement>, OutOfMemory>
    ensures { IfOk result (λ s. view_statement s.value ≡ pure.Stands place pure.Continue) }
{
    node(alloc, place, StatementKind::Continue)
}

/// `return`.
pub fn give(
    alloc: Global,
    place: Place,
    value: Option<Box<Expr>>,
) -> Result<Box<Statement>, OutOfMemory>
    ensures { IfOk result (λ s. view_statement s.value ≡ pure.Stands place (pure.Return (view_value value))) }
{
    node(alloc, place, StatementKind::Return(value))
}

/// A statement that synchronises.
pub fn synchronise(
    alloc: Global,
    place: Place,
    how: Synchronises,
    value: Option<Box<Expr>>,
) -> Result<Box<Statement>, OutOfMemory>
    ensures { IfOk result (λ s. view_statement s.value
        ≡ pure.Stands place (pure.Synchronise how (view_value value))) }
{
    node(alloc, place, StatementKind::Synchronise(how, value))
}

/// `upc_fence`.
pub fn fence(alloc: Global, place: Place) -> Result<Box<Statement>, OutOfMemory>
    ensures { IfOk result (λ s. view_statement s.value ≡ pure.Stands place pure.Fence) }
{
    node(alloc, place, StatementKind::Fence)
}
