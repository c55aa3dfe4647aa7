//! The element types that a program allocates.

ghost use Rattle.std.specs.Prelude.{◌≡◌, ◌++◌, true, IfOk, OnOk, map};
ghost use Rattle.upc_types.specs.View.{view, view_base};
ghost use Rattle.upc_types.specs.ViewStructs.{view_structs};
ghost use Rattle.upc_values.specs.Lists.{Each};
ghost use Rattle.typed_tree.specs.Tree.{exprs_of, NoItems, NoSwitchItems};
ghost use Rattle.typed_tree.specs.layer.Parts as parts;
ghost use Rattle.typing_rules.specs.Values.{base_target};
ghost use Rattle.typed_tree.specs.ViewTree.{view_expr};
ghost use Rattle.typed_tree.specs.ViewStatements.{view_affinity, view_arms, view_function, view_head, view_initial};
ghost use Rattle.typed_tree.specs.ViewStatements.{view_item, view_items, view_last, view_object, view_statement};
ghost use Rattle.typed_tree.specs.ViewStatements.{view_switch_item, view_switch_items, view_value};
ghost use Rattle.typed_tree.specs.Allocated as pure;
ghost use Rattle.typing_rules.specs.Rules.{has_size};

use std::alloc::Global;
use typed_tree::{
    Affinity, Arm, Expr, ExprKind, Function, Head, Initial, Item, Object, Statement, StatementKind,
    SwitchItem, Target,
};
use typing_rules::calls::is_allocation;
use upc_text::OutOfMemory;
use upc_types::{Base, CType, Structs, copy_type};

/// Adds a copy of this type, where it has a layout.
pub(crate) fn push_laid(
    t: &CType,
    structs: &Structs,
    out: &mut Vec<CType>,
) -> Result<(), OutOfMemory>
    ensures { OnOk result (map view out.new.items ≡ map view out.old.items
        ++ parts.laid (view_structs structs.now) (view t.now)) }
{
    if structs.layout_of(&t.base).is_some() {
        out.push(copy_type(t)?)?;
    }
    Ok(())
}

fn push_target(base: &Base, structs: &Structs, out: &mut Vec<CType>) -> Result<(), OutOfMemory>
    ensures { OnOk result (map view out.new.items ≡ map view out.old.items
        ++ pure.laid_target (view_structs structs.now) (base_target (view_base base.now))) }
{
    match base {
        Base::Pointer(target) => push_laid(target, structs, out),
        Base::Array(element, _) => push_laid(element, structs, out),
        Base::Void | Base::Integer(_) | Base::Struct(_) | Base::LockObject => Ok(()),
    }
}

// The type of a call.
fn push_call(
    t: &CType,
    target: Target,
    structs: &Structs,
    out: &mut Vec<CType>,
) -> Result<(), OutOfMemory>
    ensures { OnOk result (map view out.new.items ≡ map view out.old.items
        ++ pure.allocated_call (view_structs structs.now) (view t.now) target) }
{
    match target {
        Target::Function(_) => Ok(()),
        Target::Library(call) => {
            if is_allocation(call) {
                push_target(&t.base, structs, out)
            } else {
                Ok(())
            }
        }
    }
}

#[cycle(typed_calls)]
fn push_expr(e: &Expr, structs: &Structs, out: &mut Vec<CType>) -> Result<(), OutOfMemory>
    ensures { OnOk result (map view out.new.items ≡ map view out.old.items
        ++ pure.allocated_expr (view_structs structs.now) (view_expr e.now)) }
{
    match &e.kind {
        ExprKind::Literal | ExprKind::Mythread | ExprKind::Object(_) => Ok(()),
        ExprKind::Callee(_) | ExprKind::Format(_) | ExprKind::SizeOfType(_, _) => Ok(()),
        ExprKind::Paren(a)
        | ExprKind::Member(a, _)
        | ExprKind::MemberBehind(a, _)
        | ExprKind::Step(_, a)
        | ExprKind::Address(a)
        | ExprKind::Dereference(a)
        | ExprKind::Unary(_, a)
        | ExprKind::SizeOf(_, a)
        | ExprKind::Cast(a) => push_expr(a, structs, out),
        ExprKind::Subscript(a, b)
        | ExprKind::And(a, b)
        | ExprKind::Or(a, b)
        | ExprKind::Assign(a, b)
        | ExprKind::Binary(_, a, b)
        | ExprKind::Compound(_, a, b) => {
            push_expr(a, structs, out)?;
            push_expr(b, structs, out)
        }
        ExprKind::Conditional(test, a, b) => {
            push_expr(test, structs, out)?;
            push_expr(a, structs, out)?;
            push_expr(b, structs, out)
        }
        ExprKind::Call(target, args) => {
            push_exprs(args.as_slice(), structs, out)?;
            push_call(&e.attr.ctype, *target, structs, out)
        }
        ExprKind::Comma(parts) => push_exprs(parts.as_slice(), structs, out),
    }
}

#[cycle(typed_calls)]
fn push_exprs(parts: &[Expr], structs: &Structs, out: &mut Vec<CType>) -> Result<(), OutOfMemory>
    ensures { OnOk result (map view out.new.items ≡ map view out.old.items
        ++ pure.allocated_exprs (view_structs structs.now) (exprs_of (map view_expr parts.now))) }
{
    for part in parts {
        push_expr(part, structs, out)?;
    }
    Ok(())
}

fn push_value(
    value: &Option<Box<Expr>>,
    structs: &Structs,
    out: &mut Vec<CType>,
) -> Result<(), OutOfMemory>
    ensures { OnOk result (map view out.new.items ≡ map view out.old.items
        ++ pure.allocated_value (view_structs structs.now) (view_value value.now)) }
{
    match value {
        None => Ok(()),
        Some(value) => push_expr(value, structs, out),
    }
}

fn push_initial(
    initial: &Initial,
    structs: &Structs,
    out: &mut Vec<CType>,
) -> Result<(), OutOfMemory>
    ensures { OnOk result (map view out.new.items ≡ map view out.old.items
        ++ pure.allocated_initial (view_structs structs.now) (view_initial initial.now)) }
{
    match initial {
        Initial::Absent => Ok(()),
        Initial::Value(value) => push_expr(value, structs, out),
        Initial::List(values) => push_exprs(values.as_slice(), structs, out),
    }
}

fn push_objects(
    objects: &[Object],
    structs: &Structs,
    out: &mut Vec<CType>,
) -> Result<(), OutOfMemory>
    ensures { OnOk result (map view out.new.items ≡ map view out.old.items
        ++ pure.allocated_objects (view_structs structs.now) (map view_object objects.now)) }
{
    for object in objects {
        push_initial(&object.initial, structs, out)?;
    }
    Ok(())
}

fn push_head(head: &Head, structs: &Structs, out: &mut Vec<CType>) -> Result<(), OutOfMemory>
    ensures { OnOk result (map view out.new.items ≡ map view out.old.items
        ++ pure.allocated_head (view_structs structs.now) (view_head head.now)) }
{
    push_objects(head.objects.as_slice(), structs, out)?;
    push_value(&head.first, structs, out)?;
    push_value(&head.test, structs, out)?;
    push_value(&head.step, structs, out)
}

fn push_affinity(
    affinity: &Affinity,
    structs: &Structs,
    out: &mut Vec<CType>,
) -> Result<(), OutOfMemory>
    ensures { OnOk result (map view out.new.items ≡ map view out.old.items
        ++ pure.allocated_affinity (view_structs structs.now) (view_affinity affinity.now)) }
{
    match affinity {
        Affinity::All => Ok(()),
        Affinity::Value(value) => push_expr(value, structs, out),
    }
}

#[cycle(typed_calls_in_statements)]
fn push_statement(
    statement: &Statement,
    structs: &Structs,
    out: &mut Vec<CType>,
) -> Result<(), OutOfMemory>
    ensures { OnOk result (map view out.new.items ≡ map view out.old.items
        ++ pure.allocated_statement (view_structs structs.now) (view_statement statement.now)) }
{
    match &statement.kind {
        StatementKind::Block(_, items) => push_items(items.as_slice(), structs, out),
        StatementKind::Value(value)
        | StatementKind::Return(value)
        | StatementKind::Synchronise(_, value) => push_value(value, structs, out),
        StatementKind::If(arms, last) => {
            push_arms(arms.as_slice(), structs, out)?;
            push_last(last, structs, out)
        }
        StatementKind::Switch(value, items) => {
            push_expr(value, structs, out)?;
            push_switch(items.as_slice(), structs, out)
        }
        StatementKind::While(test, body) => {
            push_expr(test, structs, out)?;
            push_statement(body, structs, out)
        }
        StatementKind::DoWhile(body, test) => {
            push_statement(body, structs, out)?;
            push_expr(test, structs, out)
        }
        StatementKind::For(head, body) => {
            push_head(head, structs, out)?;
            push_statement(body, structs, out)
        }
        StatementKind::Forall(head, affinity, body) => {
            push_head(head, structs, out)?;
            push_affinity(affinity, structs, out)?;
            push_statement(body, structs, out)
        }
        StatementKind::Break | StatementKind::Continue | StatementKind::Fence => Ok(()),
    }
}

#[cycle(typed_calls_in_statements)]
fn push_last(
    last: &Option<Box<Statement>>,
    structs: &Structs,
    out: &mut Vec<CType>,
) -> Result<(), OutOfMemory>
    ensures { OnOk result (map view out.new.items ≡ map view out.old.items
        ++ pure.allocated_last (view_structs structs.now) (view_last last.now)) }
{
    match last {
        None => Ok(()),
        Some(last) => push_statement(last, structs, out),
    }
}

#[cycle(typed_calls_in_statements)]
fn push_arms(arms: &[Arm], structs: &Structs, out: &mut Vec<CType>) -> Result<(), OutOfMemory>
    ensures { OnOk result (map view out.new.items ≡ map view out.old.items
        ++ pure.allocated_arms (view_structs structs.now) (view_arms arms.now)) }
{
    for arm in arms {
        push_expr(&arm.test, structs, out)?;
        push_statement(&arm.body, structs, out)?;
    }
    Ok(())
}

#[cycle(typed_calls_in_statements)]
fn push_items(items: &[Item], structs: &Structs, out: &mut Vec<CType>) -> Result<(), OutOfMemory>
    ensures { OnOk result (map view out.new.items ≡ map view out.old.items
        ++ pure.allocated_items (view_structs structs.now) (view_items items.now)) }
{
    for item in items {
        push_item(item, structs, out)?;
    }
    Ok(())
}

#[cycle(typed_calls_in_statements)]
fn push_item(item: &Item, structs: &Structs, out: &mut Vec<CType>) -> Result<(), OutOfMemory>
    ensures { OnOk result (map view out.new.items ≡ map view out.old.items
        ++ pure.allocated_items (view_structs structs.now) (view_item item.now NoItems)) }
{
    match item {
        Item::Declare(objects) => push_objects(objects.as_slice(), structs, out),
        Item::Do(statement) => push_statement(statement, structs, out),
    }
}

#[cycle(typed_calls_in_statements)]
fn push_switch(
    items: &[SwitchItem],
    structs: &Structs,
    out: &mut Vec<CType>,
) -> Result<(), OutOfMemory>
    ensures { OnOk result (map view out.new.items ≡ map view out.old.items
        ++ pure.allocated_switch (view_structs structs.now) (view_switch_items items.now)) }
{
    for item in items {
        push_switch_item(item, structs, out)?;
    }
    Ok(())
}

#[cycle(typed_calls_in_statements)]
fn push_switch_item(
    item: &SwitchItem,
    structs: &Structs,
    out: &mut Vec<CType>,
) -> Result<(), OutOfMemory>
    ensures { OnOk result (map view out.new.items ≡ map view out.old.items
        ++ pure.allocated_switch (view_structs structs.now) (view_switch_item item.now NoSwitchItems)) }
{
    match item {
        SwitchItem::Case(_) | SwitchItem::Default => Ok(()),
        SwitchItem::Do(statement) => push_statement(statement, structs, out),
    }
}

/// The element types of all calls that allocate in these functions.
pub fn allocated_types(
    alloc: Global,
    functions: &[Function],
    structs: &Structs,
) -> Result<Vec<CType>, OutOfMemory>
    ensures value { IfOk result (λ ts. map view ts.items
        ≡ pure.allocated_in (view_structs structs.now) (map view_function functions.now)) }
    ensures layouts { IfOk result (λ ts. Each (λ t. has_size (view_structs structs.now) t ≡ true) (map view ts.items)) }
{
    let mut out = Vec::new(alloc);
    for function in functions {
        push_statement(&function.body, structs, &mut out)?;
    }
    Ok(out)
}
