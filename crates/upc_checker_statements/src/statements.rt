//! The walk over statements (C99 6.8, UPC 6.6).

ghost use Rattle.std.specs.Prelude.{IsTrue, map};
ghost use Rattle.upc_tree.specs.declared.span.Span.{Span};
ghost use Rattle.upc_tree.specs.layer.Lists.{block_items_of, else_ifs_of, switch_items_of};
ghost use Rattle.upc_tree.specs.Statement as statement_tree;
ghost use Rattle.upc_tree.specs.layer.ViewStatement as trees;
ghost use Rattle.typing_rules.specs.Attributes.{base};
ghost use Rattle.typing_rules.specs.Nodes.{view_attr};
ghost use Rattle.typed_tree.specs.Scopes as scopes;
ghost use Rattle.typing_rules.specs.Values.{base_kind};
ghost use Rattle.typed_tree.specs.layer.ViewEnv.{view_env};
ghost use Rattle.typed_tree.specs.ViewStatements.{view_arms, view_items, view_last, view_statement, view_switch_item};
ghost use Rattle.typed_tree.specs.ViewStatements.{view_switch_items, view_value};
ghost use Rattle.typed_tree.specs.ViewTree.{view_expr};
ghost use Rattle.typing_rules.specs.layer.Views.{view_around};
ghost use Rattle.typed_tree.specs.ViewStatements.{attr_tested};
ghost use Rattle.upc_checker_scopes.specs.layer.Ends.{Meets, boxed};
ghost use Rattle.upc_checker_statements.specs.code.Groups.{is_if, is_scoped, is_simple};
ghost use Rattle.upc_checker_statements.specs.code.Parts as parts;
ghost use Rattle.upc_checker_statements.specs.Statements as pure;
ghost use Rattle.upc_checker_scopes.specs.layer.Views.{state_of, view_setting};
ghost use Rattle.upc_checker_scopes.specs.Walk as walks;
ghost use Rattle.upc_checker_scopes.specs.Walk.{andthen, give};

use typed_tree::env::{Env, alone, inside, within};
use typed_tree::{Arm, Item, Statement, SwitchItem};
use typing_rules::{Around, Attr};
use upc_checker_declarations::declarations::walk_declaration;
use upc_checker_heads::heads::{
    case_item, in_forall, in_loop, in_switch, one_more, statement_place, strict_behind,
    synchronises, walk_for_head, walk_forall_head, walk_label, walk_returned, walk_test,
    walk_value,
};
use upc_checker_nodes::build_statements as build;
use upc_checker_nodes::statement_parts::Labelled;
use upc_checker_nodes::statements::{
    finish_break, finish_continue, finish_do_while, finish_for, finish_forall, finish_if,
    finish_switch, finish_while, returns, synchronise,
};
use upc_checker_scopes::known::Known;
use upc_checker_scopes::setting::Setting;
use upc_checker_scopes::tags::{Tags, enclosed};
use upc_text::Stop;
use upc_tree::{
    BarrierWord, BlockItem, Compound, ElseIf, ForHead, ForallHead, Otherwise, Span, Test,
};

/// What is the same for the whole source, what a jump or a return stands in, and whether accesses are strict there.
#[derive(Clone, Copy)]
struct Position<'s, 't> {
    setting: Setting<'s>,
    around: Around<'t>,
    strict: bool,
}

// ---- simple statements

fn walk_expression(
    value: &Option<Box<upc_tree::Expr>>,
    semicolon: Span,
    here: Position<'_, '_>,
    env: &Env<'_>,
    tags: &mut Tags<'_>,
    known: &mut Known,
) -> Result<Box<Statement>, Stop>
    ensures { Meets (boxed view_statement) (pure.walk_statement (view_setting here.entry.setting)
        (view_env env.now) (view_around here.entry.around) here.entry.strict (statement_tree.Value
        (trees.view_value value.now) semicolon) (state_of tags.old known.old)) (state_of tags.new
        known.new) result }
{
    let a = walk_value(value, here.setting, env, tags, known)?;
    let at = statement_place(&a, semicolon);
    Ok(build::value(here.setting.alloc, at, a)?)
}

fn walk_return(
    value: &Option<Box<upc_tree::Expr>>,
    word: Span,
    here: Position<'_, '_>,
    env: &Env<'_>,
    tags: &mut Tags<'_>,
    known: &mut Known,
) -> Result<Box<Statement>, Stop>
    ensures { (semicolon : Span) → Meets (boxed view_statement) (pure.walk_statement (view_setting
        here.entry.setting) (view_env env.now) (view_around here.entry.around) here.entry.strict
        (statement_tree.Return word (trees.view_value value.now) semicolon) (state_of tags.old known.old))
        (state_of tags.new known.new) result }
{
    let a = walk_returned(value, here.around, here.setting, env, tags, known)?;
    returns(here.setting.alloc, here.around, word.place, a)
}

fn walk_barrier(
    value: &Option<Box<upc_tree::Expr>>,
    word: BarrierWord,
    at: Span,
    here: Position<'_, '_>,
    env: &Env<'_>,
    tags: &mut Tags<'_>,
    known: &mut Known,
) -> Result<Box<Statement>, Stop>
    ensures { (semicolon : Span) → Meets (boxed view_statement) (pure.walk_statement (view_setting
        here.entry.setting) (view_env env.now) (view_around here.entry.around) here.entry.strict
        (statement_tree.Barrier word at (trees.view_value value.now) semicolon) (state_of tags.old known.old))
        (state_of tags.new known.new) result }
{
    let a = walk_value(value, here.setting, env, tags, known)?;
    synchronise(here.setting.alloc, at.place, synchronises(word), a)
}

// A statement without a scope of its own.
fn walk_simple(
    statement: &upc_tree::Statement,
    here: Position<'_, '_>,
    env: &Env<'_>,
    tags: &mut Tags<'_>,
    known: &mut Known,
) -> Result<Box<Statement>, Stop>
    requires { IsTrue (is_simple (trees.view_statement statement.now)) }
    ensures { Meets (boxed view_statement) (pure.walk_statement (view_setting here.entry.setting)
        (view_env env.now) (view_around here.entry.around) here.entry.strict (trees.view_statement
        statement.now) (state_of tags.old known.old)) (state_of tags.new known.new) result }
{
    match statement {
        upc_tree::Statement::Expression { value, semicolon } => {
            walk_expression(value, *semicolon, here, env, tags, known)
        }
        upc_tree::Statement::Break { word, .. } => {
            finish_break(here.setting.alloc, here.around, word.place)
        }
        upc_tree::Statement::Continue { word, .. } => {
            finish_continue(here.setting.alloc, here.around, word.place)
        }
        upc_tree::Statement::Return { word, value, .. } => {
            walk_return(value, *word, here, env, tags, known)
        }
        upc_tree::Statement::Barrier {
            word,
            at,
            value,
            ..
        } => { walk_barrier(value, *word, *at, here, env, tags, known) }
        upc_tree::Statement::Fence { word, .. } => {
            Ok(build::fence(here.setting.alloc, word.place)?)
        },
        _ => unreachable!(),
    }
}

// ---- statements

// A statement. Those that choose and those that repeat are blocks, and so are their parts (C99 6.8.4, 6.8.5).
#[cycle(statement)]
fn walk_statement(
    statement: &upc_tree::Statement,
    here: Position<'_, '_>,
    env: &Env<'_>,
    tags: &mut Tags<'_>,
    known: &mut Known,
) -> Result<Box<Statement>, Stop>
    ensures { Meets (boxed view_statement) (pure.walk_statement (view_setting here.entry.setting)
        (view_env env.now) (view_around here.entry.around) here.entry.strict (trees.view_statement
        statement.now) (state_of tags.old known.old)) (state_of tags.new known.new) result }
{
    match statement {
        upc_tree::Statement::Compound(compound) => walk_compound(compound, here, env, tags, known),
        upc_tree::Statement::If { .. }
        | upc_tree::Statement::Switch { .. }
        | upc_tree::Statement::While { .. }
        | upc_tree::Statement::DoWhile { .. }
        | upc_tree::Statement::For { .. }
        | upc_tree::Statement::Forall { .. } => walk_scoped(statement, here, env, tags, known),
        upc_tree::Statement::Expression { .. }
        | upc_tree::Statement::Break { .. }
        | upc_tree::Statement::Continue { .. }
        | upc_tree::Statement::Return { .. }
        | upc_tree::Statement::Barrier { .. }
        | upc_tree::Statement::Fence { .. } => walk_simple(statement, here, env, tags, known),
    }
}

// A statement that is part of another, in a scope of its own.
#[cycle(statement)]
fn walk_part(
    statement: &upc_tree::Statement,
    here: Position<'_, '_>,
    env: &Env<'_>,
    tags: &Tags<'_>,
    known: &mut Known,
) -> Result<Box<Statement>, Stop>
    ensures { Meets (boxed view_statement)
        (walks.enclosed (pure.walk_statement (view_setting here.entry.setting) (scopes.inside (view_env env.now))
        (view_around here.entry.around) here.entry.strict (trees.view_statement statement.now))
        (state_of tags.now known.old)) (state_of tags.now known.new) result }
{
    let scope = inside(here.setting.alloc, &*env)?;
    let mut inner = enclosed(here.setting.alloc, &*tags);
    walk_statement(statement, here, &scope, &mut inner, known)
}

// A compound statement is a scope of its own.
#[cycle(statement)]
fn walk_compound(
    compound: &Compound,
    here: Position<'_, '_>,
    env: &Env<'_>,
    tags: &Tags<'_>,
    known: &mut Known,
) -> Result<Box<Statement>, Stop>
    ensures { Meets (boxed view_statement) (pure.walk_block (view_setting here.entry.setting)
        (scopes.inside (view_env env.now)) (view_around here.entry.around) here.entry.strict
        (trees.view_compound compound.now) (state_of tags.now known.old)) (state_of tags.now
        known.new) result }
{
    let mut scope = inside(here.setting.alloc, &*env)?;
    walk_block(
        compound,
        here.setting,
        &mut scope,
        here.around,
        here.strict,
        tags,
        known,
    )
}

// A statement in a scope of its own.
#[cycle(statement)]
fn walk_scoped(
    statement: &upc_tree::Statement,
    here: Position<'_, '_>,
    env: &Env<'_>,
    tags: &Tags<'_>,
    known: &mut Known,
) -> Result<Box<Statement>, Stop>
    requires { IsTrue (is_scoped (trees.view_statement statement.now)) }
    ensures { Meets (boxed view_statement)
        (pure.walk_statement (view_setting here.entry.setting) (view_env env.now) (view_around here.entry.around)
        here.entry.strict (trees.view_statement statement.now) (state_of tags.now known.old))
        (state_of tags.now known.new) result }
{
    let mut scope = inside(here.setting.alloc, &*env)?;
    let mut inner = enclosed(here.setting.alloc, &*tags);
    walk_inside(statement, here, &mut scope, &mut inner, known)
}

// It, in a scope that is there.
#[cycle(statement)]
fn walk_inside(
    statement: &upc_tree::Statement,
    here: Position<'_, '_>,
    env: &mut Env<'_>,
    tags: &mut Tags<'_>,
    known: &mut Known,
) -> Result<Box<Statement>, Stop>
    requires { IsTrue (is_scoped (trees.view_statement statement.now)) }
    ensures { Meets (boxed view_statement)
        (parts.scoped_part (view_setting here.entry.setting) here.entry.strict (trees.view_statement statement.now)
        (view_around here.entry.around) (view_env env.old) (state_of tags.old known.old))
        (state_of tags.new known.new) result }
{
    match statement {
        upc_tree::Statement::If { .. } => walk_if(statement, here, env, tags, known),
        upc_tree::Statement::Switch {
            word,
            test,
            body,
            ..
        } => { walk_switch(body.as_slice(), test, *word, here, env, tags, known) }
        upc_tree::Statement::While { word, test, body } => {
            walk_while(body, test, *word, here, env, tags, known)
        }
        upc_tree::Statement::DoWhile {
            word,
            body,
            test,
            ..
        } => { walk_do_while(body, test, *word, here, env, tags, known) }
        upc_tree::Statement::For { word, head, body } => {
            walk_for(body, head, *word, here, env, tags, known)
        }
        upc_tree::Statement::Forall { word, head, body } => {
            walk_forall(body, head, *word, here, env, tags, known)
        }
        _ => unreachable!(),
    }
}

// An `if` with all its arms.
#[cycle(statement)]
fn walk_if(
    statement: &upc_tree::Statement,
    here: Position<'_, '_>,
    env: &Env<'_>,
    tags: &mut Tags<'_>,
    known: &mut Known,
) -> Result<Box<Statement>, Stop>
    requires { IsTrue (is_if (trees.view_statement statement.now)) }
    ensures { Meets (boxed view_statement)
        (parts.scoped_part (view_setting here.entry.setting) here.entry.strict (trees.view_statement statement.now)
        (view_around here.entry.around) (view_env env.now) (state_of tags.old known.old))
        (state_of tags.new known.new) result }
{
    match statement {
        upc_tree::Statement::If {
            word,
            test,
            body,
            more,
            otherwise,
        } => {
            let test = walk_test(test, here.setting, env, tags, known)?;
            let body = walk_part(body, here, env, tags, known)?;
            let first = Arm {
                test,
                body: Box::into_inner(body),
            };
            let mut scope = inside(here.setting.alloc, &*env)?;
            let arms = walk_else_ifs(more.as_slice(), first, here, &*env, &mut scope, tags, known)?;
            let last = walk_otherwise(otherwise, here, &scope, tags, known)?;
            finish_if(here.setting.alloc, word.place, arms, last)
        }
        _ => unreachable!(),
    }
}

/// A compound statement in a scope that is there: that of a function has its parameters.
#[cycle(statement)]
pub fn walk_block(
    compound: &Compound,
    setting: Setting<'_>,
    env: &mut Env<'_>,
    around: Around<'_>,
    strict: bool,
    tags: &Tags<'_>,
    known: &mut Known,
) -> Result<Box<Statement>, Stop>
    ensures { Meets (boxed view_statement) (pure.walk_block (view_setting setting.entry) (view_env
        env.old) (view_around around.entry) strict (trees.view_compound compound.now) (state_of
        tags.now known.old)) (state_of tags.now known.new) result }
{
    let pragmas = compound.pragmas.as_slice();
    let strict = strict_behind(strict, pragmas);
    let here = Position {
        setting,
        around,
        strict,
    };
    let mut inner = enclosed(setting.alloc, &*tags);
    let items = compound.items.as_slice();
    let parts = walk_items(items, here, env, &mut inner, known)?;
    Ok(build::block(setting.alloc, compound.open.place, strict, parts)?)
}

// What a declaration declares is in scope after it.
#[cycle(statement)]
fn walk_items(
    items: &[BlockItem],
    here: Position<'_, '_>,
    env: &mut Env<'_>,
    tags: &mut Tags<'_>,
    known: &mut Known,
) -> Result<Vec<Item>, Stop>
    ensures { Meets (λ xs. view_items xs.items) (pure.walk_items (view_setting here.entry.setting)
        (view_env env.old) (view_around here.entry.around) here.entry.strict (block_items_of (map
        trees.view_block_item items.now)) (state_of tags.old known.old)) (state_of tags.new
        known.new) result }
{
    let mut all = Vec::new(here.setting.alloc);
    for part in items {
        match part {
            BlockItem::Declaration(declaration) => {
                let objects = walk_declaration(declaration, here.setting, env, tags, known)?;
                all.push(Item::Declare(objects))?;
            }
            BlockItem::Statement(statement) => {
                let x = walk_statement(statement, here, env, tags, known)?;
                all.push(Item::Do(x))?;
            }
        }
    }
    Ok(all)
}

// A `switch`.
#[cycle(statement)]
fn walk_switch(
    items: &[upc_tree::SwitchItem],
    test: &Test,
    word: Span,
    here: Position<'_, '_>,
    env: &Env<'_>,
    tags: &mut Tags<'_>,
    known: &mut Known,
) -> Result<Box<Statement>, Stop>
    ensures { Meets (boxed view_statement)
        (parts.switch_part (view_setting here.entry.setting) here.entry.strict word (trees.view_test test.now)
        (switch_items_of (map trees.view_switch_item items.now)) (pure.in_switch (view_around here.entry.around))
        (view_env env.now) (state_of tags.old known.old)) (state_of tags.new known.new) result }
{
    let a = walk_test(test, here.setting, env, tags, known)?;
    let there = Position {
        setting: here.setting,
        around: in_switch(here.around),
        strict: here.strict,
    };
    let labelled = walk_switch_body(items, &a.attr, there, env, tags, known)?;
    finish_switch(here.setting.alloc, word.place, a, labelled)
}

// The parts of a switch over this expression, in a scope of their own.
#[cycle(statement)]
fn walk_switch_body(
    items: &[upc_tree::SwitchItem],
    a: &Attr,
    here: Position<'_, '_>,
    env: &Env<'_>,
    tags: &Tags<'_>,
    known: &mut Known,
) -> Result<Labelled, Stop>
    ensures { Meets (λ x. record {
      items = view_switch_items x.items.items;
      labels = x.labels.items;
      defaults = x.defaults;
    }) (walks.enclosed (pure.walk_switch (view_setting here.entry.setting) (scopes.inside (view_env env.now))
        (view_around here.entry.around) here.entry.strict (base_kind (base (view_attr a.now)))
        (switch_items_of (map trees.view_switch_item items.now))) (state_of tags.now known.old))
        (state_of tags.now known.new) result }
{
    let scope = inside(here.setting.alloc, &*env)?;
    let mut inner = enclosed(here.setting.alloc, &*tags);
    walk_labelled(items, a, here, &scope, &mut inner, known)
}

// The parts of a switch over this expression.
#[cycle(statement)]
fn walk_labelled(
    items: &[upc_tree::SwitchItem],
    a: &Attr,
    here: Position<'_, '_>,
    env: &Env<'_>,
    tags: &mut Tags<'_>,
    known: &mut Known,
) -> Result<Labelled, Stop>
    ensures { Meets (λ x. record {
      items = view_switch_items x.items.items;
      labels = x.labels.items;
      defaults = x.defaults;
    }) (pure.walk_switch (view_setting here.entry.setting) (view_env
        env.now) (view_around here.entry.around) here.entry.strict (base_kind (base (view_attr
        a.now))) (switch_items_of (map trees.view_switch_item items.now)) (state_of tags.old
        known.old)) (state_of tags.new known.new) result }
{
    let mut all = Labelled {
        items: Vec::new(here.setting.alloc),
        labels: Vec::new(here.setting.alloc),
        defaults: 0,
    };
    for part in items {
        match part {
            upc_tree::SwitchItem::Case { value, .. } => {
                let label = walk_label(value, here.setting, env, tags, known)?;
                all.labels.push(label)?;
                all.items.push(case_item(a, label))?;
            }
            upc_tree::SwitchItem::Default { .. } => {
                let defaults = one_more(all.defaults)?;
                all.defaults = defaults;
                all.items.push(SwitchItem::Default)?;
            }
            upc_tree::SwitchItem::Statement(statement) => {
                let x = walk_statement(statement, here, env, tags, known)?;
                all.items.push(SwitchItem::Do(x))?;
            }
        }
    }
    Ok(all)
}

// A `while`.
#[cycle(statement)]
fn walk_while(
    body: &upc_tree::Statement,
    test: &Test,
    word: Span,
    here: Position<'_, '_>,
    env: &Env<'_>,
    tags: &mut Tags<'_>,
    known: &mut Known,
) -> Result<Box<Statement>, Stop>
    ensures { Meets (boxed view_statement)
        (parts.while_part (view_setting here.entry.setting) here.entry.strict word (trees.view_test test.now)
        (trees.view_statement body.now) (pure.in_loop (view_around here.entry.around)) (view_env env.now)
        (state_of tags.old known.old)) (state_of tags.new known.new) result }
{
    let test = walk_test(test, here.setting, env, tags, known)?;
    let there = Position {
        setting: here.setting,
        around: in_loop(here.around),
        strict: here.strict,
    };
    let body = walk_part(body, there, env, tags, known)?;
    finish_while(here.setting.alloc, word.place, test, body)
}

// A `do` with its `while`.
#[cycle(statement)]
fn walk_do_while(
    body: &upc_tree::Statement,
    test: &Test,
    word: Span,
    here: Position<'_, '_>,
    env: &Env<'_>,
    tags: &mut Tags<'_>,
    known: &mut Known,
) -> Result<Box<Statement>, Stop>
    ensures { Meets (boxed view_statement)
        (parts.do_part (view_setting here.entry.setting) here.entry.strict word (trees.view_test test.now)
        (trees.view_statement body.now) (pure.in_loop (view_around here.entry.around)) (view_env env.now)
        (state_of tags.old known.old)) (state_of tags.new known.new) result }
{
    let there = Position {
        setting: here.setting,
        around: in_loop(here.around),
        strict: here.strict,
    };
    let body = walk_part(body, there, env, tags, known)?;
    let test = walk_test(test, here.setting, env, tags, known)?;
    finish_do_while(here.setting.alloc, word.place, body, test)
}

// A `for`.
#[cycle(statement)]
fn walk_for(
    body: &upc_tree::Statement,
    head: &ForHead,
    word: Span,
    here: Position<'_, '_>,
    env: &mut Env<'_>,
    tags: &mut Tags<'_>,
    known: &mut Known,
) -> Result<Box<Statement>, Stop>
    ensures { Meets (boxed view_statement)
        (parts.for_part (view_setting here.entry.setting) here.entry.strict word (trees.view_for head.now)
        (trees.view_statement body.now) (pure.in_loop (view_around here.entry.around)) (view_env env.old)
        (state_of tags.old known.old)) (state_of tags.new known.new) result }
{
    let head = walk_for_head(head, here.setting, env, tags, known)?;
    let there = Position {
        setting: here.setting,
        around: in_loop(here.around),
        strict: here.strict,
    };
    let body = walk_part(body, there, env, tags, known)?;
    finish_for(here.setting.alloc, word.place, head, body)
}

// A `upc_forall`.
#[cycle(statement)]
fn walk_forall(
    body: &upc_tree::Statement,
    head: &ForallHead,
    word: Span,
    here: Position<'_, '_>,
    env: &mut Env<'_>,
    tags: &mut Tags<'_>,
    known: &mut Known,
) -> Result<Box<Statement>, Stop>
    ensures { Meets (boxed view_statement)
        (parts.forall_part (view_setting here.entry.setting) here.entry.strict word (trees.view_forall head.now)
        (trees.view_statement body.now) (pure.in_forall (view_around here.entry.around)) (view_env env.old)
        (state_of tags.old known.old)) (state_of tags.new known.new) result }
{
    let headed = walk_forall_head(head, here.setting, env, tags, known)?;
    let there = Position {
        setting: here.setting,
        around: in_forall(here.around),
        strict: here.strict,
    };
    let body = walk_part(body, there, env, tags, known)?;
    finish_forall(here.setting.alloc, word.place, headed, body)
}

// The further arms of an `if`, after the first one, each condition in the part after the `else` before it. After
// them `scope` is that of the part after the last `else`.
#[cycle(statement)]
fn walk_else_ifs<'e>(
    more: &[ElseIf],
    first: Arm,
    here: Position<'_, '_>,
    env: &'e Env<'e>,
    scope: &mut Env<'e>,
    tags: &mut Tags<'_>,
    known: &mut Known,
) -> Result<Vec<Arm>, Stop>
    ensures { Meets (λ arms. record {
      arms = view_arms arms.items;
      tests = map attr_tested
          arms.items;
      scope = view_env scope.new;
    }) (andthen (pure.walk_else_ifs (view_setting here.entry.setting) (view_env
        env.now) (view_env scope.old) (view_around here.entry.around) here.entry.strict (else_ifs_of (map
        trees.view_else_if more.now))) (λ x. give (pure.with_arm (view_expr first.test.value)
        (view_statement first.body) x)) (state_of tags.old known.old)) (state_of tags.new
        known.new) result }
{
    let mut arms = Vec::new(here.setting.alloc);
    arms.push(first)?;
    for part in more {
        let test = walk_test(&part.test, here.setting, &*scope, tags, known)?;
        let body = walk_part(&part.body, here, &*scope, tags, known)?;
        arms.push(Arm {
            test,
            body: Box::into_inner(body),
        })?;
        let inner = inside(here.setting.alloc, &*scope)?;
        *scope = within(alone(inner), env);
    }
    Ok(arms)
}

// The part after the last `else`, in a scope that is there.
#[cycle(statement)]
fn walk_otherwise(
    otherwise: &Otherwise,
    here: Position<'_, '_>,
    env: &Env<'_>,
    tags: &Tags<'_>,
    known: &mut Known,
) -> Result<Option<Box<Statement>>, Stop>
    ensures { Meets view_last (pure.walk_otherwise (view_setting here.entry.setting) (view_env
        env.now) (view_around here.entry.around) here.entry.strict (trees.view_otherwise
        otherwise.now) (state_of tags.now known.old)) (state_of tags.now known.new) result }
{
    match otherwise {
        Otherwise::Absent => Ok(None),
        Otherwise::Else { body, .. } => {
            let mut inner = enclosed(here.setting.alloc, &*tags);
            let x = walk_statement(body, here, env, &mut inner, known)?;
            Ok(Some(x))
        }
    }
}
