//! The first breach of a source.

ghost use Rattle.std.specs.Prelude.{◌≡◌, map};
ghost use Rattle.upc_tree.specs.layer.Lists.{block_items_of, switch_items_of, else_ifs_of};
ghost use Rattle.upc_tree.specs.layer.ViewStatement.{view_statement, view_compound, view_block_item, view_switch_item};
ghost use Rattle.upc_tree.specs.layer.ViewStatement.{view_else_if, view_otherwise, view_external, view_unit};
ghost use Rattle.std.specs.Option.{option_or};
ghost use Rattle.affinity_checker.specs.layer.Rules.{first};
ghost use Rattle.affinity_checker.specs.layer.Breaches.{breaches, in_compound, in_block_items, in_block_item};
ghost use Rattle.affinity_checker.specs.layer.Breaches.{in_switch_items, in_switch_item, in_else_ifs, in_otherwise};
ghost use Rattle.affinity_checker.specs.layer.Breaches.{in_external, unit_breaches};

use crate::around::{Around, NOTHING};
use upc_text::Refusal;
use upc_tree::{BlockItem, Compound, ElseIf, External, Otherwise, Statement, SwitchItem, Unit};

/// The first breach of the rules on `break`, `continue` and `return`, None exactly where there is none: rule 23 for a
/// `break` outside every loop and switch and for a `continue` outside every loop, rule 24 for a `break` or a `return`
/// that leaves the body of a `upc_forall` (docs/LANGUAGE.md, "Typing"). Takes no memory.
pub fn forall_fault(unit: &Unit) -> Option<Refusal>
    ensures { result ≡ first (unit_breaches (view_unit unit.now)) }
{
    for part in &unit.externals {
        if let Some(fault) = external_fault(part) {
            return Some(fault);
        }
    }
    None
}

fn external_fault(part: &External) -> Option<Refusal>
    ensures { result ≡ first (in_external (view_external part.now)) }
{
    match part {
        External::Pragma(_) | External::Declaration(_) => None,
        External::Function(function) => compound_fault(&function.body, NOTHING),
    }
}

#[cycle(fault)]
fn statement_fault(statement: &Statement, around: Around) -> Option<Refusal>
    ensures { result ≡ first (breaches (view_statement statement.now) around) }
{
    match statement {
        Statement::Compound(compound) => compound_fault(compound, around),
        Statement::If {
            body,
            more,
            otherwise,
            ..
        } => {
            let last = either(
                else_ifs_fault(more.as_slice(), around),
                otherwise_fault(otherwise, around),
            );
            either(statement_fault(body, around), last)
        }
        Statement::Switch { body, .. } => switch_fault(body.as_slice(), around.in_switch()),
        Statement::While { body, .. } => statement_fault(body, around.in_loop()),
        Statement::DoWhile { body, .. } => statement_fault(body, around.in_loop()),
        Statement::For { body, .. } => statement_fault(body, around.in_loop()),
        Statement::Forall { body, .. } => statement_fault(body, around.in_forall()),
        Statement::Break { word, .. } => around.at_break(word.place),
        Statement::Continue { word, .. } => around.at_continue(word.place),
        Statement::Return { word, .. } => around.at_return(word.place),
        Statement::Expression { .. } | Statement::Barrier { .. } | Statement::Fence { .. } => None,
    }
}

#[cycle(fault)]
fn compound_fault(compound: &Compound, around: Around) -> Option<Refusal>
    ensures { result ≡ first (in_compound (view_compound compound.now) around) }
{
    items_fault(compound.items.as_slice(), around)
}

#[cycle(fault)]
fn items_fault(items: &[BlockItem], around: Around) -> Option<Refusal>
    ensures { result ≡ first (in_block_items (block_items_of (map view_block_item items.now)) around) }
{
    for part in items {
        if let Some(fault) = item_fault(part, around) {
            return Some(fault);
        }
    }
    None
}

#[cycle(fault)]
fn item_fault(item: &BlockItem, around: Around) -> Option<Refusal>
    ensures { result ≡ first (in_block_item (view_block_item item.now) around) }
{
    match item {
        BlockItem::Declaration(_) => None,
        BlockItem::Statement(statement) => statement_fault(statement, around),
    }
}

#[cycle(fault)]
fn switch_fault(items: &[SwitchItem], around: Around) -> Option<Refusal>
    ensures { result ≡ first (in_switch_items (switch_items_of (map view_switch_item items.now)) around) }
{
    for part in items {
        if let Some(fault) = switch_item_fault(part, around) {
            return Some(fault);
        }
    }
    None
}

#[cycle(fault)]
fn switch_item_fault(item: &SwitchItem, around: Around) -> Option<Refusal>
    ensures { result ≡ first (in_switch_item (view_switch_item item.now) around) }
{
    match item {
        SwitchItem::Case { .. } | SwitchItem::Default { .. } => None,
        SwitchItem::Statement(statement) => statement_fault(statement, around),
    }
}

#[cycle(fault)]
fn else_ifs_fault(more: &[ElseIf], around: Around) -> Option<Refusal>
    ensures { result ≡ first (in_else_ifs (else_ifs_of (map view_else_if more.now)) around) }
{
    for part in more {
        if let Some(fault) = statement_fault(&part.body, around) {
            return Some(fault);
        }
    }
    None
}

#[cycle(fault)]
fn otherwise_fault(otherwise: &Otherwise, around: Around) -> Option<Refusal>
    ensures { result ≡ first (in_otherwise (view_otherwise otherwise.now) around) }
{
    match otherwise {
        Otherwise::Absent => None,
        Otherwise::Else { body, .. } => statement_fault(body, around),
    }
}

// The first of two, if there is one.
fn either(one: Option<Refusal>, other: Option<Refusal>) -> Option<Refusal>
    ensures { result ≡ option_or one other }
{
    match one {
        Some(fault) => Some(fault),
        None => other,
    }
}
