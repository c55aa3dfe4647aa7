//! Switches, item by item (C99 6.8.4.2).

ghost use Rattle.std.specs.Prelude.{◌≡◌, IfOk, MatchOption, OnOk, Some, None};
ghost use Rattle.typing_rules.specs.Rules as rules;
ghost use Rattle.typed_tree.specs.Tree as tree;
ghost use Rattle.typed_tree.specs.Tree.{Stands};
ghost use Rattle.typed_tree.specs.ViewTree.{view_expr};
ghost use Rattle.typed_tree.specs.ViewStatements as views;
ghost use Rattle.upc_meaning_settings.specs.layer.Settings.{running_seen};
ghost use Rattle.upc_meaning_work.specs.layer.Seen.{meant, with_item};
ghost use Rattle.upc_meaning_work.specs.layer.Items as item;
ghost use Rattle.upc_meaning_work.specs.layer.Switches.{behind_label, is_label, selected};
ghost use Rattle.upc_meaning_work.specs.layer.ViewItems.{view_standing};
ghost use Rattle.upc_meaning_work.specs.layer.Evaluations.{seen};

use block_layout::Kind;
use meaning_types::integer_of;
use thread_values::number_of;
use typed_tree::{Expr, SwitchItem};
use typing_rules::constants::label_kind;
use upc_meaning_state::Setting;
use upc_meaning_work::{Evaluation, Flow, Standing, Work};
use upc_text::{OutOfMemory, Place};
use upc_values::is_integer;

// The value with which a switch of this kind compares.
fn compared(kind: Option<Kind>, v: i128) -> Result<i128, OutOfMemory>
    ensures { IfOk result (λ w. w ≡ rules.label_kind kind v) }
{
    match kind {
        None => Ok(v),
        Some(k) => {
            if !is_integer(k) {
                return Err(OutOfMemory);
            }
            Ok(label_kind(Some(k), v))
        }
    }
}

// Whether a part of a switch is the label with a value, or `default`.
fn is_label(label: Option<i128>, item: &SwitchItem) -> bool
    ensures { result ≡ is_label label item.now }
{
    match (label, item) {
        (Some(v), SwitchItem::Case(w)) => v == *w,
        (None, SwitchItem::Default) => true,
        _ => false,
    }
}

// What stands after the first such label.
#[tactic(auto, using(upc_meaning_work::proofs::Selecting::labels))]
fn behind_label(label: Option<i128>, items: &[SwitchItem]) -> Option<&[SwitchItem]>
    ensures { MatchOption result (behind_label label (views.view_switch_items items.now) ≡ None)
        (λ more. behind_label label (views.view_switch_items items.now) ≡ Some (views.view_switch_items more.now)) }
{
    let mut left = items;
    while let Some((item, more)) = left.split_first() {
        if is_label(label, item) {
            return Some(more);
        }
        left = more;
    }
    None
}

// The part of a switch where this value leads.
fn selected(v: i128, items: &[SwitchItem]) -> Option<&[SwitchItem]>
    ensures { MatchOption result (selected v (views.view_switch_items items.now) ≡ None)
        (λ more. selected v (views.view_switch_items items.now) ≡ Some (views.view_switch_items more.now)) }
{
    match behind_label(Some(v), items) {
        Some(more) => Some(more),
        None => behind_label(None, items),
    }
}

/// A switch.
#[tactic(auto, using(upc_meaning_work::proofs::Selecting::switches_of))]
pub fn switch<'p>(
    evaluation: &mut Evaluation<'p>,
    setting: Setting<'p>,
    standing: Standing<'p>,
    place: Place,
    e: &'p Expr,
    items: &'p [SwitchItem],
) -> Result<(), OutOfMemory>
    ensures { OnOk result (with_item (running_seen setting.entry) (item.Run (view_standing standing.entry)
        (Stands place (tree.Switch (view_expr e.now) (views.view_switch_items items.now)))) (seen evaluation.old)
        ≡ meant (running_seen setting.entry) (seen evaluation.new)) }
{
    evaluation.push_three(
        Work::Caught,
        Work::Select(standing, integer_of(&e.attr.ctype), items),
        Work::Value(standing.strict, e),
    )
}

/// The part of a switch where its value leads.
#[tactic(auto, using(upc_meaning_work::proofs::Selecting::selects))]
pub fn select<'p>(
    evaluation: &mut Evaluation<'p>,
    setting: Setting<'p>,
    standing: Standing<'p>,
    kind: Option<Kind>,
    items: &'p [SwitchItem],
) -> Result<(), OutOfMemory>
    ensures { OnOk result (with_item (running_seen setting.entry) (item.Select (view_standing standing.entry) kind
        (views.view_switch_items items.now)) (seen evaluation.old)
        ≡ meant (running_seen setting.entry) (seen evaluation.new)) }
{
    let v = evaluation.pop_value();
    let label = compared(kind, number_of(&v))?;
    evaluation.leave_so(Flow::Next);
    match selected(label, items) {
        None => Ok(()),
        Some(more) => {
            evaluation.push_one(Work::Cases(standing, more))?;
            Ok(())
        }
    }
}
