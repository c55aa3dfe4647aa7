//! The code of statements, by what they stand in and their ways out (C99 6.8, UPC 6.6).

ghost use Rattle.std.specs.Prelude.{◌≡◌, ◌++◌, ◌+◌, length, IfOk, OnOk};
ghost use Rattle.typed_tree.specs.Tree.{NoItems, NoSwitchItems, For, Forall, Switch};
ghost use Rattle.typed_tree.specs.ViewTree.{view_expr};
ghost use Rattle.typed_tree.specs.ViewStatements.{view_affinity, view_arms, view_head, view_item, view_items};
ghost use Rattle.typed_tree.specs.ViewStatements.{view_last};
ghost use Rattle.typed_tree.specs.ViewStatements.{view_statement, view_switch_item, view_switch_items};
ghost use Rattle.gen_expr.specs.layer.Codes.{value_code};
ghost use Rattle.gen_expr.specs.layer.ViewSource.{view_source};
ghost use Rattle.gen_stmt.specs.layer.Ways.{all_past};
ghost use Rattle.gen_stmt.specs.layer.Codes as pure;
ghost use Rattle.gen_stmt.specs.code.Parts as parts;
ghost use Rattle.gen_stmt.specs.code.Views.{view_exits, view_labelled, view_standing};

use crate::backwards::Backwards;
use crate::branches::{put_blocked, put_switched, put_tested};
use crate::exits::{Exits, all_inner, all_past, in_forall, in_loop, in_switch, sum};
use crate::initials::put_declared;
use crate::labelled::Labelled;
use crate::leaving::{put_exit, put_return, put_synchronise};
use crate::loops::{put_controlled, put_do, put_headed, put_while};
use crate::put::{put_act, put_all};
use crate::shapes::{count_all, count_in};
use crate::standing::{Standing, with_count, with_objects, with_strict};
use crate::values::{aside_of, put_aside};
use gen_expr::Source;
use stack_code::{Instr, ThreadWork};
use std::alloc::Global;
use typed_tree::{Affinity, Arm, Expr, Head, Item, Statement, StatementKind, SwitchItem};
use upc_text::{OutOfMemory, Place};

/// Appends the code of a statement.
#[cycle(statements)]
pub(crate) fn put_statement(
    code: &mut Vec<Instr>,
    source: Source<'_>,
    standing: Standing<'_>,
    exits: Exits,
    s: &Statement,
) -> Result<(), OutOfMemory>
    ensures { OnOk result (code.new.items
        ≡ code.old.items
        ++ pure.statement_code (view_source source.entry) (view_standing standing.entry) (view_exits exits)
        (view_statement s.now)) }
{
    let place = s.place;
    match &s.kind {
        StatementKind::Block(strict, items) => {
            let within = with_strict(*strict, standing);
            put_block(code, source, within, exits, place, items.as_slice())
        }
        StatementKind::Value(value) => put_aside(code, source, standing.strict, value),
        StatementKind::If(arms, last) => {
            let behind = last_of(*code.allocator(), source, standing, exits, last)?;
            let arms = arms.as_slice();
            put_if(code, source, standing, exits, place, arms, behind)
        }
        StatementKind::Switch(e, items) => {
            let items = items.as_slice();
            put_switch(code, source, standing, exits, place, items, e)
        }
        StatementKind::While(test, body) => {
            let inner = in_loop(0, exits)?;
            let inside = statement_of(*code.allocator(), source, standing, inner, body)?;
            put_while(code, source, standing.strict, place, test, inside)
        }
        StatementKind::DoWhile(body, test) => {
            let inner = in_loop(0, exits)?;
            let inside = statement_of(*code.allocator(), source, standing, inner, body)?;
            put_do(code, source, standing.strict, place, test, inside)
        }
        StatementKind::For(head, body) => {
            put_for(code, source, standing, exits, place, head, body)
        }
        StatementKind::Forall(head, whose, body) => {
            put_forall(code, source, standing, exits, place, head, whose, body)
        }
        StatementKind::Break => put_exit(code, place, exits.broken),
        StatementKind::Continue => put_exit(code, place, exits.again),
        StatementKind::Return(value) => put_return(code, source, standing, exits, place, value),
        StatementKind::Synchronise(how, value) => {
            put_synchronise(code, source, standing, exits, place, *how, value)
        }
        StatementKind::Fence => put_act(code, place, ThreadWork::Fence),
    }
}

/// The code of a statement.
#[cycle(statements)]
pub(crate) fn statement_of(
    alloc: Global,
    source: Source<'_>,
    standing: Standing<'_>,
    exits: Exits,
    s: &Statement,
) -> Result<Vec<Instr>, OutOfMemory>
    ensures { IfOk result (λ code. code.items
        ≡ pure.statement_code (view_source source.entry) (view_standing standing.entry) (view_exits exits)
        (view_statement s.now)) }
{
    let mut code = Vec::new(alloc);
    put_statement(&mut code, source, standing, exits, s)?;
    Ok(code)
}

// A for loop.
#[cycle(statements)]
fn put_for(
    code: &mut Vec<Instr>,
    source: Source<'_>,
    standing: Standing<'_>,
    exits: Exits,
    place: Place,
    head: &Head,
    body: &Statement,
) -> Result<(), OutOfMemory>
    ensures { OnOk result (code.new.items
        ≡ code.old.items
        ++ pure.kind_code (view_source source.entry) (view_standing standing.entry) (view_exits exits) place
        (For (view_head head.now) (view_statement body.now))) }
{
    let alloc = *code.allocator();
    let step = aside_of(alloc, source, standing.strict, &head.step)?;
    let within = with_objects(head.objects.as_slice(), standing)?;
    let inner = all_inner(exits)?;
    let exits = in_loop(step.len(), inner)?;
    let inside = statement_of(alloc, source, within, exits, body)?;
    put_headed(code, source, standing, place, head, inside, step)
}

// A upc_forall.
#[cycle(statements)]
fn put_forall(
    code: &mut Vec<Instr>,
    source: Source<'_>,
    standing: Standing<'_>,
    exits: Exits,
    place: Place,
    head: &Head,
    whose: &Affinity,
    body: &Statement,
) -> Result<(), OutOfMemory>
    ensures { OnOk result (code.new.items
        ≡ code.old.items
        ++ pure.kind_code (view_source source.entry) (view_standing standing.entry) (view_exits exits) place
        (Forall (view_head head.now) (view_affinity whose.now) (view_statement body.now))) }
{
    let alloc = *code.allocator();
    let within = with_objects(head.objects.as_slice(), standing)?;
    let inner = all_inner(exits)?;
    let inside = statement_of(alloc, source, within, in_forall(inner), body)?;
    put_controlled(code, source, standing, place, head, whose, inside)
}

// A block, whose accesses are as its standing says.
#[cycle(statements)]
fn put_block(
    code: &mut Vec<Instr>,
    source: Source<'_>,
    standing: Standing<'_>,
    exits: Exits,
    place: Place,
    items: &[Item],
) -> Result<(), OutOfMemory>
    ensures { OnOk result (code.new.items
        ≡ code.old.items
        ++ parts.within_code (view_source source.entry) (view_standing standing.entry) (view_exits exits) place
        (view_items items.now)) }
{
    let body = items_of(
        *code.allocator(),
        source,
        standing,
        all_inner(exits)?,
        items,
    )?;
    put_blocked(code, source, standing.count, place, items, body)
}

/// The code of the parts of a block.
#[cycle(statements)]
pub(crate) fn items_of(
    alloc: Global,
    source: Source<'_>,
    standing: Standing<'_>,
    exits: Exits,
    items: &[Item],
) -> Result<Vec<Instr>, OutOfMemory>
    ensures { IfOk result (λ code. code.items
        ≡ pure.items_code (view_source source.entry) (view_standing standing.entry) (view_exits exits)
        (view_items items.now)) }
{
    let mut out = Backwards::new(alloc);
    let mut count = count_all(standing.count, items)?;
    for i in (0..items.len()).rev() {
        let item = &items[i];
        count -= count_in(item);
        put_item(&mut out, source, with_count(count, standing), exits, item)?;
    }
    Ok(out.into_code())
}

#[cycle(statements)]
fn put_item(
    out: &mut Backwards,
    source: Source<'_>,
    standing: Standing<'_>,
    exits: Exits,
    item: &Item,
) -> Result<(), OutOfMemory>
    ensures { OnOk result (out.new
        ≡ parts.before_items (view_source source.entry) (view_standing standing.entry) (view_exits exits)
        (view_item item.now NoItems) out.old) }
{
    match item {
        Item::Declare(objects) => {
            let mut code = Vec::new(out.alloc());
            put_declared(&mut code, source, standing.strict, objects.as_slice())?;
            out.put_code(code)
        }
        Item::Do(statement) => put_before(out, source, standing, exits, statement),
    }
}

// A statement before those that stand after it.
#[cycle(statements)]
fn put_before(
    out: &mut Backwards,
    source: Source<'_>,
    standing: Standing<'_>,
    exits: Exits,
    s: &Statement,
) -> Result<(), OutOfMemory>
    ensures { OnOk result (out.new
        ≡ pure.statement_code (view_source source.entry) (view_standing standing.entry)
        (all_past (length out.old) (view_exits exits)) (view_statement s.now)
        ++ out.old) }
{
    let exits = all_past(out.len(), exits)?;
    let code = statement_of(out.alloc(), source, standing, exits, s)?;
    out.put_code(code)
}

// An if, from the code of what comes last.
#[cycle(statements)]
fn put_if(
    code: &mut Vec<Instr>,
    source: Source<'_>,
    standing: Standing<'_>,
    exits: Exits,
    place: Place,
    arms: &[Arm],
    last: Vec<Instr>,
) -> Result<(), OutOfMemory>
    ensures { OnOk result (code.new.items
        ≡ code.old.items
        ++ pure.arms_code (view_source source.entry) (view_standing standing.entry) (view_exits exits) place
        (view_arms arms.now) last.items (length last.items)) }
{
    let mut out = Backwards::of(last);
    put_arms(&mut out, source, standing, exits, place, arms)?;
    put_all(code, out.into_code())
}

#[cycle(statements)]
fn last_of(
    alloc: Global,
    source: Source<'_>,
    standing: Standing<'_>,
    exits: Exits,
    last: &Option<Box<Statement>>,
) -> Result<Vec<Instr>, OutOfMemory>
    ensures { IfOk result (λ code. code.items
        ≡ pure.last_code (view_source source.entry) (view_standing standing.entry) (view_exits exits)
        (view_last last.now)) }
{
    match last {
        None => Ok(Vec::new(alloc)),
        Some(statement) => statement_of(alloc, source, standing, exits, statement),
    }
}

// The arms of an if before what comes last.
#[cycle(statements)]
fn put_arms(
    out: &mut Backwards,
    source: Source<'_>,
    standing: Standing<'_>,
    exits: Exits,
    place: Place,
    arms: &[Arm],
) -> Result<(), OutOfMemory>
    ensures { OnOk result (out.new
        ≡ pure.arms_code (view_source source.entry) (view_standing standing.entry) (view_exits exits) place
        (view_arms arms.now) out.old (length out.old)) }
{
    for i in (0..arms.len()).rev() {
        let arm = &arms[i];
        put_arm(out, source, standing, exits, place, arm)?;
    }
    Ok(())
}

#[cycle(statements)]
fn put_arm(
    out: &mut Backwards,
    source: Source<'_>,
    standing: Standing<'_>,
    exits: Exits,
    place: Place,
    arm: &Arm,
) -> Result<(), OutOfMemory>
    ensures { OnOk result (out.new
        ≡ parts.arm_code place (value_code (view_source source.entry) standing.entry.strict
        (view_expr arm.now.test.value))
        (pure.statement_code (view_source source.entry) (view_standing standing.entry)
        (all_past (1 + length out.old) (view_exits exits)) (view_statement arm.now.body))
        (pure.size (view_source source.entry) (view_standing standing.entry) (view_statement arm.now.body)) out.old
        (length out.old)) }
{
    let exits = all_past(sum(1, out.len())?, exits)?;
    let body = statement_of(out.alloc(), source, standing, exits, &arm.body)?;
    put_tested(out, source, standing.strict, place, &arm.test, body)
}

// A switch.
#[cycle(statements)]
fn put_switch(
    code: &mut Vec<Instr>,
    source: Source<'_>,
    standing: Standing<'_>,
    exits: Exits,
    place: Place,
    items: &[SwitchItem],
    e: &Expr,
) -> Result<(), OutOfMemory>
    ensures { OnOk result (code.new.items
        ≡ code.old.items
        ++ pure.kind_code (view_source source.entry) (view_standing standing.entry) (view_exits exits) place
        (Switch (view_expr e.now) (view_switch_items items.now))) }
{
    let body = labelled_of(*code.allocator(), source, standing, in_switch(exits), items)?;
    put_switched(code, source, standing.strict, place, e, body)
}

#[cycle(statements)]
fn labelled_of(
    alloc: Global,
    source: Source<'_>,
    standing: Standing<'_>,
    exits: Exits,
    items: &[SwitchItem],
) -> Result<Labelled, OutOfMemory>
    ensures { IfOk result (λ body. view_labelled body
        ≡ parts.labelled_of (view_source source.entry) (view_standing standing.entry) (view_exits exits)
        (view_switch_items items.now)) }
{
    let mut body = Labelled {
        code: Backwards::new(alloc),
        labels: Vec::new(alloc),
        default: 0,
    };
    for i in (0..items.len()).rev() {
        let item = &items[i];
        put_part(&mut body, source, standing, exits, item)?;
    }
    Ok(body)
}

#[cycle(statements)]
fn put_part(
    body: &mut Labelled,
    source: Source<'_>,
    standing: Standing<'_>,
    exits: Exits,
    item: &SwitchItem,
) -> Result<(), OutOfMemory>
    ensures { OnOk result (view_labelled body.new
        ≡ parts.before_parts (view_source source.entry) (view_standing standing.entry) (view_exits exits)
        (view_switch_item item.now NoSwitchItems) (view_labelled body.old)) }
{
    match item {
        SwitchItem::Case(label) => {
            let behind = body.code.len();
            body.labels.push((*label, behind))?;
            Ok(())
        }
        SwitchItem::Default => {
            body.default = body.code.len();
            Ok(())
        }
        SwitchItem::Do(statement) => put_before(&mut body.code, source, standing, exits, statement),
    }
}
