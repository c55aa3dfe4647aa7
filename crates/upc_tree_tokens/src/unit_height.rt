//! The height of a tree.

ghost use Rattle.std.specs.Prelude.{◌≡◌, map};
ghost use Rattle.upc_tree.specs.Declaration.{height_initial, height_declared, height_next_declareds};
ghost use Rattle.upc_tree.specs.Declaration.{height_declared_list, height_declaration};
ghost use Rattle.upc_tree.specs.Statement.{height_value, height_first, height_affinity, height_for, height_forall};
ghost use Rattle.upc_tree.specs.Statement.{height_statement, height_compound, height_block_items, height_block_item};
ghost use Rattle.upc_tree.specs.Statement.{height_switch_items, height_switch_item, height_else_ifs};
ghost use Rattle.upc_tree.specs.Statement.{height_otherwise};
ghost use Rattle.upc_tree.specs.Unit.{height_external, height_unit};
ghost use Rattle.upc_tree.specs.layer.Lists.{capped, next_declareds_of, block_items_of, switch_items_of, else_ifs_of};
ghost use Rattle.upc_tree.specs.layer.ViewStatement.{view_initial, view_declared};
ghost use Rattle.upc_tree.specs.layer.ViewStatement.{view_next_declared, view_declared_list};
ghost use Rattle.upc_tree.specs.layer.ViewStatement.{view_declaration, view_value, view_first, view_affinity, view_for};
ghost use Rattle.upc_tree.specs.layer.ViewStatement.{view_forall, view_statement, view_compound, view_block_item};
ghost use Rattle.upc_tree.specs.layer.ViewStatement.{view_switch_item, view_else_if, view_otherwise, view_function};
ghost use Rattle.upc_tree.specs.layer.ViewStatement.{view_external, view_unit};

use upc_tree::{
    Affinity, BlockItem, Compound, Declaration, Declared, DeclaredList, ElseIf, Expr, External,
    First, ForHead, ForallHead, Function, Initial, NextDeclared, Otherwise, Statement, SwitchItem,
    Unit, above, declarator_height, expr_height, next_height, parameters_height, pointers_height,
    specs_height,
};

fn initial_height(initial: &Initial) -> u32
    ensures { result ≡ capped (height_initial (view_initial initial.now)) }
{
    match initial {
        Initial::Absent => 0,
        Initial::Value { value, .. } => expr_height(value),
        Initial::List { first, more, .. } => expr_height(first).max(next_height(more.as_slice())),
    }
}

fn declared_height(declared: &Declared) -> u32
    ensures { result ≡ capped (height_declared (view_declared declared.now)) }
{
    declarator_height(&declared.declarator).max(initial_height(&declared.initial))
}

fn next_declareds_height(more: &[NextDeclared]) -> u32
    ensures { result ≡ capped (height_next_declareds (next_declareds_of (map view_next_declared more.now))) }
{
    let mut high = 0;
    for part in more {
        high = declared_height(&part.declared).max(high);
    }
    high
}

fn declared_list_height(declared: &Option<Box<DeclaredList>>) -> u32
    ensures { result ≡ capped (height_declared_list (view_declared_list declared.now)) }
{
    match declared {
        None => 0,
        Some(list) => declared_height(&list.first).max(next_declareds_height(list.more.as_slice())),
    }
}

fn declaration_height(declaration: &Declaration) -> u32
    ensures { result ≡ capped (height_declaration (view_declaration declaration.now)) }
{
    let specs = specs_height(declaration.specs.as_slice());
    above(specs.max(declared_list_height(&declaration.declared)))
}

fn value_height(value: &Option<Box<Expr>>) -> u32
    ensures { result ≡ capped (height_value (view_value value.now)) }
{
    match value {
        None => 0,
        Some(value) => expr_height(value),
    }
}

fn first_height(first: &First) -> u32
    ensures { result ≡ capped (height_first (view_first first.now)) }
{
    match first {
        First::Expression { value, .. } => value_height(value),
        First::Declaration(declaration) => declaration_height(declaration),
    }
}

fn affinity_height(affinity: &Affinity) -> u32
    ensures { result ≡ capped (height_affinity (view_affinity affinity.now)) }
{
    match affinity {
        Affinity::Absent | Affinity::Continue(_) => 0,
        Affinity::Value(value) => expr_height(value),
    }
}

fn for_height(head: &ForHead) -> u32
    ensures { result ≡ capped (height_for (view_for head.now)) }
{
    first_height(&head.first).max(value_height(&head.test).max(value_height(&head.step)))
}

fn forall_height(head: &ForallHead) -> u32
    ensures { result ≡ capped (height_forall (view_forall head.now)) }
{
    let last = value_height(&head.step).max(affinity_height(&head.affinity));
    first_height(&head.first).max(value_height(&head.test).max(last))
}

#[cycle(statement_height)]
fn statement_height(statement: &Statement) -> u32
    ensures { result ≡ capped (height_statement (view_statement statement.now)) }
{
    match statement {
        Statement::Compound(compound) => compound_height(compound),
        Statement::Expression { value, .. }
        | Statement::Return { value, .. }
        | Statement::Barrier { value, .. } => above(value_height(value)),
        Statement::If {
            test,
            body,
            more,
            otherwise,
            ..
        } => {
            let last = else_ifs_height(more.as_slice()).max(otherwise_height(otherwise));
            above(expr_height(&test.value).max(statement_height(body).max(last)))
        }
        Statement::Switch { test, body, .. } => {
            above(expr_height(&test.value).max(above(switch_height(body.as_slice()))))
        }
        Statement::While { test, body, .. } | Statement::DoWhile { test, body, .. } => {
            above(expr_height(&test.value).max(statement_height(body)))
        }
        Statement::For { head, body, .. } => above(for_height(head).max(statement_height(body))),
        Statement::Forall { head, body, .. } => {
            above(forall_height(head).max(statement_height(body)))
        }
        Statement::Break { .. } | Statement::Continue { .. } | Statement::Fence { .. } => 1,
    }
}

#[cycle(statement_height)]
fn compound_height(compound: &Compound) -> u32
    ensures { result ≡ capped (height_compound (view_compound compound.now)) }
{
    above(above(items_height(compound.items.as_slice())))
}

#[cycle(statement_height)]
fn items_height(items: &[BlockItem]) -> u32
    ensures { result ≡ capped (height_block_items (block_items_of (map view_block_item items.now))) }
{
    let mut high = 0;
    for part in items {
        high = item_height(part).max(high);
    }
    high
}

#[cycle(statement_height)]
fn item_height(item: &BlockItem) -> u32
    ensures { result ≡ capped (height_block_item (view_block_item item.now)) }
{
    match item {
        BlockItem::Declaration(declaration) => declaration_height(declaration),
        BlockItem::Statement(statement) => statement_height(statement),
    }
}

#[cycle(statement_height)]
fn switch_height(items: &[SwitchItem]) -> u32
    ensures { result ≡ capped (height_switch_items (switch_items_of (map view_switch_item items.now))) }
{
    let mut high = 0;
    for part in items {
        high = switch_item_height(part).max(high);
    }
    high
}

#[cycle(statement_height)]
fn switch_item_height(item: &SwitchItem) -> u32
    ensures { result ≡ capped (height_switch_item (view_switch_item item.now)) }
{
    match item {
        SwitchItem::Case { value, .. } => expr_height(value),
        SwitchItem::Default { .. } => 0,
        SwitchItem::Statement(statement) => statement_height(statement),
    }
}

#[cycle(statement_height)]
fn else_ifs_height(more: &[ElseIf]) -> u32
    ensures { result ≡ capped (height_else_ifs (else_ifs_of (map view_else_if more.now))) }
{
    let mut high = 0;
    for part in more {
        high = expr_height(&part.test.value)
            .max(statement_height(&part.body))
            .max(high);
    }
    high
}

#[cycle(statement_height)]
fn otherwise_height(otherwise: &Otherwise) -> u32
    ensures { result ≡ capped (height_otherwise (view_otherwise otherwise.now)) }
{
    match otherwise {
        Otherwise::Absent => 0,
        Otherwise::Else { body, .. } => statement_height(body),
    }
}

fn function_height(function: &Function) -> u32
    ensures { result ≡ capped (height_external (view_function function.now)) }
{
    let head = pointers_height(function.pointers.as_slice()).max(parameters_height(
        &function.parameters,
    ).max(compound_height(&function.body)));
    above(specs_height(function.specs.as_slice()).max(head))
}

fn external_height(external: &External) -> u32
    ensures { result ≡ capped (height_external (view_external external.now)) }
{
    match external {
        External::Pragma(_) => 0,
        External::Declaration(declaration) => declaration_height(declaration),
        External::Function(function) => function_height(function),
    }
}

/// How many nodes lie above one another in the tree at most (docs/LANGUAGE.md, "Limits"),
/// or 4294967295 where there are more. A node is one higher than its highest part.
pub fn height(unit: &Unit) -> u32
    ensures { result ≡ capped (height_unit (view_unit unit.now)) }
{
    let mut high = 0;
    for part in &unit.externals {
        high = external_height(part).max(high);
    }
    above(high)
}
