//! Statements that are finished: each is judged after its parts.

ghost use Rattle.std.specs.Prelude.{◌≡◌, ◌∷◌, [], map, Some};
ghost use Rattle.typing_rules.specs.Attributes.{Facts};
ghost use Rattle.typing_rules.specs.Nodes as node;
ghost use Rattle.typing_rules.specs.Rules.{lowest};
ghost use Rattle.typed_tree.specs.Scopes as scopes;
ghost use Rattle.typed_tree.specs.Scopes.{State};
ghost use Rattle.typed_tree.specs.Tree as typed;
ghost use Rattle.typed_tree.specs.Tree.{attr_of};
ghost use Rattle.typed_tree.specs.ViewStatements.{view_affinity, view_arms, view_head, view_last, view_statement};
ghost use Rattle.typed_tree.specs.ViewStatements.{view_switch_items, view_value};
ghost use Rattle.typed_tree.specs.ViewTree.{view_expr};
ghost use Rattle.typing_rules.specs.layer.Views.{view_around};
ghost use Rattle.typed_tree.specs.ViewStatements.{attr_tested};
ghost use Rattle.upc_checker_scopes.specs.layer.Ends.{Meets, boxed};
ghost use Rattle.upc_checker_nodes.specs.Judged as pure;
ghost use Rattle.upc_checker_scopes.specs.Walk.{andthen, give, judge};

use crate::build_statements as build;
use crate::lists::tests;
use crate::statement_parts::{Headed, Labelled};
use std::alloc::Global;
use typed_tree::{Arm, Expr, Head, Statement, Synchronises};
use typing_rules::Around;
use typing_rules_checks::statements as rules;
use typing_rules_checks::switch::switch;
use upc_checker_scopes::finish::judged;
use upc_text::{Place, Stop};

/// An `if` with its arms, after which their conditions are judged (C99 6.8.4.1).
pub fn finish_if(
    alloc: Global,
    at: Place,
    arms: Vec<Arm>,
    last: Option<Box<Statement>>,
) -> Result<Box<Statement>, Stop>
    ensures { (ξ : scopes.Setting) (s : State) → Meets (boxed view_statement) (andthen (judge ξ at
        (node.Tests (map attr_tested arms.items))) (λ u. give (typed.Stands at (typed.If (view_arms arms.items)
        (view_last last)))) s) s result }
{
    judged(tests(arms.as_slice()), at)?;
    let x = build::if_chain(alloc, at, arms, last)?;
    Ok(x)
}

/// A `switch` with its labels (C99 6.8.4.2).
pub fn finish_switch(
    alloc: Global,
    at: Place,
    a: Box<Expr>,
    labelled: Labelled,
) -> Result<Box<Statement>, Stop>
    ensures { (ξ : scopes.Setting) (s : State) → Meets (boxed view_statement) (andthen (judge ξ at
        (node.Switch (attr_of (view_expr a.value)) labelled.labels.items labelled.defaults)) (λ u. give
        (typed.Stands at (typed.Switch (view_expr a.value) (view_switch_items labelled.items.items)))) s) s
        result }
{
    let labels = labelled.labels.as_slice();
    let rule = switch(alloc, &a.attr, labels, labelled.defaults)?;
    judged(rule, at)?;
    let x = build::switch(alloc, at, a, labelled.items)?;
    Ok(x)
}

/// A `while` (C99 6.8.5.1).
pub fn finish_while(
    alloc: Global,
    at: Place,
    test: Box<Expr>,
    body: Box<Statement>,
) -> Result<Box<Statement>, Stop>
    ensures { (ξ : scopes.Setting) (s : State) → Meets (boxed view_statement) (andthen (judge ξ at
        (node.Tests (attr_of (view_expr test.value) ∷ []))) (λ u. give (typed.Stands at (typed.While (view_expr
        test.value) (view_statement body.value)))) s) s result }
{
    judged(rules::test(&test.attr), at)?;
    let x = build::while_loop(alloc, at, test, body)?;
    Ok(x)
}

/// A `do` with its `while` (C99 6.8.5.2).
pub fn finish_do_while(
    alloc: Global,
    at: Place,
    body: Box<Statement>,
    test: Box<Expr>,
) -> Result<Box<Statement>, Stop>
    ensures { (ξ : scopes.Setting) (s : State) → Meets (boxed view_statement) (andthen (judge ξ at
        (node.Tests (attr_of (view_expr test.value) ∷ []))) (λ u. give (typed.Stands at (typed.DoWhile
        (view_statement body.value) (view_expr test.value)))) s) s result }
{
    judged(rules::test(&test.attr), at)?;
    let x = build::do_while(alloc, at, body, test)?;
    Ok(x)
}

// The condition of a loop, where it has one.
fn head_test(test: &Option<Box<Expr>>) -> Option<u8>
    ensures { (φ : Facts) → result ≡ lowest φ (node.Tests (pure.tests_of (view_value test.now))) }
{
    match test {
        None => None,
        Some(a) => rules::test(&a.attr),
    }
}

/// A `for` (C99 6.8.5.3).
pub fn finish_for(
    alloc: Global,
    at: Place,
    head: Box<Head>,
    body: Box<Statement>,
) -> Result<Box<Statement>, Stop>
    ensures { (ξ : scopes.Setting) (s : State) → Meets (boxed view_statement) (andthen (judge ξ at
        (node.Tests (pure.tests_of (view_value head.value.test)))) (λ u. give (typed.Stands at (typed.For
        (view_head head.value) (view_statement body.value)))) s) s result }
{
    judged(head_test(&head.test), at)?;
    let x = build::for_loop(alloc, at, head, body)?;
    Ok(x)
}

/// A `upc_forall` (UPC 6.6.2).
pub fn finish_forall(
    alloc: Global,
    at: Place,
    headed: Headed,
    body: Box<Statement>,
) -> Result<Box<Statement>, Stop>
    ensures { (ξ : scopes.Setting) (s : State) → Meets (boxed view_statement) (andthen (judge ξ at
        (node.Tests (pure.tests_of (view_value headed.head.value.test)))) (λ u. give (typed.Stands at
        (typed.Forall (view_head headed.head.value) (view_affinity headed.affinity) (view_statement
        body.value)))) s) s result }
{
    judged(head_test(&headed.head.test), at)?;
    let x = build::forall(alloc, at, headed.head, headed.affinity, body)?;
    Ok(x)
}

/// A `break` (C99 6.8.6.3; UPC 6.6.2).
pub fn finish_break(alloc: Global, around: Around<'_>, at: Place) -> Result<Box<Statement>, Stop>
    ensures { (ξ : scopes.Setting) (s : State) → Meets (boxed view_statement) (andthen (judge ξ at
        (node.Break (view_around around.entry))) (λ u. give (typed.Stands at typed.Break)) s) s result }
{
    judged(rules::breaks(around), at)?;
    let x = build::leave(alloc, at)?;
    Ok(x)
}

/// A `continue` (C99 6.8.6.2; UPC 6.6.2).
pub fn finish_continue(alloc: Global, around: Around<'_>, at: Place) -> Result<Box<Statement>, Stop>
    ensures { (ξ : scopes.Setting) (s : State) → Meets (boxed view_statement) (andthen (judge ξ at
        (node.Continue (view_around around.entry))) (λ u. give (typed.Stands at typed.Continue)) s) s result }
{
    judged(rules::continues(around), at)?;
    let x = build::repeat(alloc, at)?;
    Ok(x)
}

// A `return` that gives this, or nothing.
fn judge_returned(around: Around<'_>, value: &Option<Box<Expr>>) -> Option<u8>
    ensures { (φ : Facts) → result ≡ lowest φ (pure.returned_node (view_around around.entry)
        (view_value value.now)) }
{
    match value {
        None => rules::returns_nothing(around),
        Some(a) => rules::returns(around, &a.attr),
    }
}

/// A `return` that gives this, or nothing (C99 6.8.6.4).
pub fn returns(
    alloc: Global,
    around: Around<'_>,
    at: Place,
    value: Option<Box<Expr>>,
) -> Result<Box<Statement>, Stop>
    ensures { (ξ : scopes.Setting) (s : State) → Meets (boxed view_statement) (pure.returns ξ
        (view_around around.entry) at (view_value value) s) s result }
{
    judged(judge_returned(around, &value), at)?;
    let x = build::give(alloc, at, value)?;
    Ok(x)
}

// A barrier that has a value.
fn finish_barrier(
    alloc: Global,
    at: Place,
    how: Synchronises,
    a: Box<Expr>,
) -> Result<Box<Statement>, Stop>
    ensures { (ξ : scopes.Setting) (s : State) → Meets (boxed view_statement) (pure.synchronise ξ at
        how (Some (view_expr a.value)) s) s result }
{
    judged(rules::barrier(&a.attr), at)?;
    let x = build::synchronise(alloc, at, how, Some(a))?;
    Ok(x)
}

/// A barrier statement, with its value where it has one (UPC 6.6.1).
pub fn synchronise(
    alloc: Global,
    at: Place,
    how: Synchronises,
    value: Option<Box<Expr>>,
) -> Result<Box<Statement>, Stop>
    ensures { (ξ : scopes.Setting) (s : State) → Meets (boxed view_statement) (pure.synchronise ξ at
        how (view_value value) s) s result }
{
    match value {
        None => Ok(build::synchronise(alloc, at, how, None)?),
        Some(a) => finish_barrier(alloc, at, how, a),
    }
}
