//! Statements by their kind (C99 6.8, UPC 6.6).

ghost use Rattle.std.specs.Prelude.{◌≡◌, IfOk, OnOk};
ghost use Rattle.typed_tree.specs.ViewStatements as views;
ghost use Rattle.upc_meaning_settings.specs.layer.Runners.{Fits};
ghost use Rattle.upc_meaning_settings.specs.layer.Settings.{running_seen};
ghost use Rattle.upc_meaning_work.specs.layer.Seen.{meant, with_item};
ghost use Rattle.upc_meaning_work.specs.layer.Items as item;
ghost use Rattle.upc_meaning_work.specs.layer.ViewItems.{view_standing};
ghost use Rattle.upc_meaning_work.specs.layer.Evaluations.{Went, seen};

use typed_tree::{Statement, StatementKind};
use upc_meaning_state::{Setting, Step};
use upc_meaning_statements::declarations::{block, headed};
use upc_meaning_statements::{statements, switches};
use upc_meaning_work::{Evaluation, Standing, Work};
use upc_text::OutOfMemory;

// A loop without a head.
#[tactic(auto, using(upc_meaning_work::proofs::Turning::loops))]
fn plain_loop<'p>(
    evaluation: &mut Evaluation<'p>,
    setting: Setting<'p>,
    standing: Standing<'p>,
    s: &'p Statement,
) -> Result<(), OutOfMemory>
    ensures { OnOk result (with_item (running_seen setting.entry) (item.Run (view_standing standing.entry)
        (views.view_statement s.now)) (seen evaluation.old)
        ≡ meant (running_seen setting.entry) (seen evaluation.new)) }
{
    let turns = setting.runner.budget;
    match &s.kind {
        StatementKind::While(_, _) => evaluation.push_one(Work::Turn(standing, &s.kind, turns)),
        StatementKind::DoWhile(body, _) => evaluation.push_two(
            Work::Around(standing, &s.kind, turns),
            Work::Run(standing, body),
        ),
        _ => Err(OutOfMemory),
    }
}

// An expression, a jump or a loop without a head.
fn plain<'p>(
    evaluation: &mut Evaluation<'p>,
    setting: Setting<'p>,
    standing: Standing<'p>,
    s: &'p Statement,
) -> Result<(), OutOfMemory>
    ensures { OnOk result (with_item (running_seen setting.entry) (item.Run (view_standing standing.entry)
        (views.view_statement s.now)) (seen evaluation.old)
        ≡ meant (running_seen setting.entry) (seen evaluation.new)) }
{
    match &s.kind {
        StatementKind::Value(e) => statements::aside(evaluation, setting, standing, s.place, e),
        StatementKind::Return(e) => statements::give_back(
            evaluation, setting, standing, s.place, e,
        ),
        StatementKind::Break => {
            statements::break_off(evaluation, setting, standing, s.place);
            Ok(())
        }
        StatementKind::Continue => {
            statements::go_again(evaluation, setting, standing, s.place);
            Ok(())
        }
        _ => plain_loop(evaluation, setting, standing, s),
    }
}

/// A statement.
pub(crate) fn run<'p>(
    evaluation: &mut Evaluation<'p>,
    setting: Setting<'p>,
    standing: Standing<'p>,
    s: &'p Statement,
) -> Result<Step<()>, OutOfMemory>
    requires { Fits setting.runner }
    ensures { IfOk result (λ r. Went (running_seen setting.entry) (with_item (running_seen setting.entry)
        (item.Run (view_standing standing.entry) (views.view_statement s.now)) (seen evaluation.old)) r
        evaluation.new) }
{
    match &s.kind {
        StatementKind::Block(strict, items) => {
            let items = items.as_slice();
            block(evaluation, setting, standing, s.place, *strict, items)
        }
        StatementKind::Switch(e, items) => {
            let items = items.as_slice();
            switches::switch(evaluation, setting, standing, s.place, e, items)?;
            Ok(Step::Gives(()))
        }
        StatementKind::For(_, _) => headed(evaluation, setting, standing, s.place, &s.kind),
        StatementKind::Forall(_, _, _) => headed(evaluation, setting, standing, s.place, &s.kind),
        StatementKind::Synchronise(how, e) => {
            statements::barrier(evaluation, setting, standing, s.place, *how, e)
        }
        StatementKind::Fence => statements::fence(evaluation, setting, standing, s.place),
        StatementKind::If(arms, last) => {
            let arms = arms.as_slice();
            statements::arms(evaluation, setting, standing, arms, last)?;
            Ok(Step::Gives(()))
        }
        _ => {
            plain(evaluation, setting, standing, s)?;
            Ok(Step::Gives(()))
        }
    }
}
