//! The types of the parameters and objects of functions.

ghost use Rattle.std.specs.Prelude.{◌≡◌, ◌++◌, true, IfOk, OnOk, map};
ghost use Rattle.upc_types.specs.View.{view};
ghost use Rattle.upc_types.specs.ViewStructs.{view_structs};
ghost use Rattle.upc_values.specs.Lists.{Each};
ghost use Rattle.typing_rules.specs.Rules.{has_size};
ghost use Rattle.typed_tree.specs.Tree.{NoItems, NoSwitchItems};
ghost use Rattle.typed_tree.specs.ViewStatements.{view_arms, view_function, view_head, view_item, view_items};
ghost use Rattle.typed_tree.specs.ViewStatements.{view_last};
ghost use Rattle.typed_tree.specs.ViewStatements.{view_object, view_statement, view_switch_item, view_switch_items};
ghost use Rattle.typed_tree.specs.LocalObjects as pure;
ghost use Rattle.typed_tree.specs.LocalObjects.{with_layout};
ghost use Rattle.typed_tree_opening.specs.code.LaidObjects.{laid_objects};

use crate::allocated::push_laid;
use std::alloc::Global;
use typed_tree::{Arm, Function, Item, Object, Statement, StatementKind, SwitchItem};
use upc_text::OutOfMemory;
use upc_types::{CType, Structs};

// Adds copies of these types, where they have a layout.
fn push_types(types: &[CType], structs: &Structs, out: &mut Vec<CType>) -> Result<(), OutOfMemory>
    ensures { OnOk result (map view out.new.items
        ≡ map view out.old.items ++ with_layout (view_structs structs.now) (map view types.now)) }
{
    for t in types {
        push_laid(t, structs, out)?;
    }
    Ok(())
}

// Adds copies of the types of these objects, where they have a layout.
fn push_objects(
    objects: &[Object],
    structs: &Structs,
    out: &mut Vec<CType>,
) -> Result<(), OutOfMemory>
    ensures { OnOk result (map view out.new.items
        ≡ map view out.old.items ++ laid_objects (view_structs structs.now) (map view_object objects.now)) }
{
    for object in objects {
        push_laid(&object.ctype, structs, out)?;
    }
    Ok(())
}

// Adds copies of the types of the objects that a statement declares, where they have a layout.
#[cycle(types_inside_statements)]
fn push_statement(
    statement: &Statement,
    structs: &Structs,
    out: &mut Vec<CType>,
) -> Result<(), OutOfMemory>
    ensures { OnOk result (map view out.new.items ≡ map view out.old.items
        ++ laid_objects (view_structs structs.now) (pure.objects_in (view_statement statement.now))) }
{
    match &statement.kind {
        StatementKind::Block(_, items) => push_items(items.as_slice(), structs, out),
        StatementKind::If(arms, last) => {
            push_arms(arms.as_slice(), structs, out)?;
            push_last(last, structs, out)
        }
        StatementKind::Switch(_, items) => push_switch(items.as_slice(), structs, out),
        StatementKind::While(_, body) | StatementKind::DoWhile(body, _) => {
            push_statement(body, structs, out)
        }
        StatementKind::For(head, body) | StatementKind::Forall(head, _, body) => {
            push_objects(head.objects.as_slice(), structs, out)?;
            push_statement(body, structs, out)
        }
        StatementKind::Value(_)
        | StatementKind::Break
        | StatementKind::Continue
        | StatementKind::Return(_)
        | StatementKind::Synchronise(_, _)
        | StatementKind::Fence => Ok(()),
    }
}

#[cycle(types_inside_statements)]
fn push_last(
    last: &Option<Box<Statement>>,
    structs: &Structs,
    out: &mut Vec<CType>,
) -> Result<(), OutOfMemory>
    ensures { OnOk result (map view out.new.items ≡ map view out.old.items
        ++ laid_objects (view_structs structs.now) (pure.last_objects (view_last last.now))) }
{
    match last {
        None => Ok(()),
        Some(last) => push_statement(last, structs, out),
    }
}

#[cycle(types_inside_statements)]
fn push_arms(arms: &[Arm], structs: &Structs, out: &mut Vec<CType>) -> Result<(), OutOfMemory>
    ensures { OnOk result (map view out.new.items ≡ map view out.old.items
        ++ laid_objects (view_structs structs.now) (pure.arms_objects (view_arms arms.now))) }
{
    for arm in arms {
        push_statement(&arm.body, structs, out)?;
    }
    Ok(())
}

#[cycle(types_inside_statements)]
fn push_items(items: &[Item], structs: &Structs, out: &mut Vec<CType>) -> Result<(), OutOfMemory>
    ensures { OnOk result (map view out.new.items ≡ map view out.old.items
        ++ laid_objects (view_structs structs.now) (pure.items_objects (view_items items.now))) }
{
    for item in items {
        push_item(item, structs, out)?;
    }
    Ok(())
}

#[cycle(types_inside_statements)]
fn push_item(item: &Item, structs: &Structs, out: &mut Vec<CType>) -> Result<(), OutOfMemory>
    ensures { OnOk result (map view out.new.items ≡ map view out.old.items
        ++ laid_objects (view_structs structs.now) (pure.items_objects (view_item item.now NoItems))) }
{
    match item {
        Item::Declare(objects) => push_objects(objects.as_slice(), structs, out),
        Item::Do(statement) => push_statement(statement, structs, out),
    }
}

#[cycle(types_inside_statements)]
fn push_switch(
    items: &[SwitchItem],
    structs: &Structs,
    out: &mut Vec<CType>,
) -> Result<(), OutOfMemory>
    ensures { OnOk result (map view out.new.items ≡ map view out.old.items
        ++ laid_objects (view_structs structs.now) (pure.switch_objects (view_switch_items items.now))) }
{
    for item in items {
        push_switch_item(item, structs, out)?;
    }
    Ok(())
}

#[cycle(types_inside_statements)]
fn push_switch_item(
    item: &SwitchItem,
    structs: &Structs,
    out: &mut Vec<CType>,
) -> Result<(), OutOfMemory>
    ensures { OnOk result (map view out.new.items ≡ map view out.old.items
        ++ laid_objects (view_structs structs.now) (pure.switch_objects (view_switch_item item.now NoSwitchItems))) }
{
    match item {
        SwitchItem::Case(_) | SwitchItem::Default => Ok(()),
        SwitchItem::Do(statement) => push_statement(statement, structs, out),
    }
}

/// The types of the parameters and objects of these functions, where they have a layout.
pub fn types_inside(
    alloc: Global,
    functions: &[Function],
    structs: &Structs,
) -> Result<Vec<CType>, OutOfMemory>
    ensures value { IfOk result (λ ts. map view ts.items
        ≡ pure.types_in (view_structs structs.now) (map view_function functions.now)) }
    ensures layouts { IfOk result (λ ts. Each (λ t. has_size (view_structs structs.now) t ≡ true) (map view ts.items)) }
{
    let mut out = Vec::new(alloc);
    for function in functions {
        push_types(function.parameters.as_slice(), structs, &mut out)?;
        push_statement(&function.body, structs, &mut out)?;
    }
    Ok(out)
}
