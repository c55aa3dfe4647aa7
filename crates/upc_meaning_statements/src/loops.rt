//! Loops, lists of statements and the bodies of upc_foralls, item by item (C99 6.8.2, 6.8.5; UPC 6.6.2).

ghost use Rattle.std.specs.Prelude.{◌≡◌, ◌∷◌, [], IfOk, OnOk};
ghost use Rattle.typed_tree.specs.Tree as tree;
ghost use Rattle.typed_tree.specs.ViewTree.{view_expr};
ghost use Rattle.typed_tree.specs.ViewStatements as views;
ghost use Rattle.source_meaning.specs.Statements as mean;
ghost use Rattle.upc_meaning_settings.specs.layer.Runners.{Fits};
ghost use Rattle.upc_meaning_settings.specs.layer.Settings.{running_seen};
ghost use Rattle.upc_meaning_work.specs.layer.Seen.{aside_items, bodied, controlled, is_next, meant};
ghost use Rattle.upc_meaning_work.specs.layer.Seen.{more_works, with_flow, with_item, with_test};
ghost use Rattle.upc_meaning_work.specs.layer.Items as item;
ghost use Rattle.upc_meaning_work.specs.layer.Left.{step_in, test_in};
ghost use Rattle.upc_meaning_work.specs.layer.ViewItems.{flow_seen, view_standing};
ghost use Rattle.upc_meaning_work.specs.layer.Evaluations.{Went, seen};

use thread_values::is_zero;
use typed_tree::{Affinity, Expr, Head, Item, Statement, StatementKind, SwitchItem};
use upc_meaning_state::{Setting, Step};
use upc_meaning_work::{Evaluation, Flow, Standing, Work, with_objects};
use upc_text::{OutOfMemory, Place};

// Whether a statement was left at its end.
fn is_next(flow: Flow) -> bool
    ensures { result ≡ is_next (flow_seen flow) }
{
    matches!(flow, Flow::Next)
}

// How a turn of a upc_forall is left, by how its body is (UPC 6.6.2).
fn finished(flow: Flow) -> Flow
    ensures { flow_seen result ≡ mean.finished (flow_seen flow) }
{
    match flow {
        Flow::Gave(v) => Flow::Gave(v),
        _ => Flow::Next,
    }
}

/// The further parts of a block.
#[tactic(auto, using(upc_meaning_work::proofs::Turning::lists))]
pub fn parts<'p>(
    evaluation: &mut Evaluation<'p>,
    setting: Setting<'p>,
    standing: Standing<'p>,
    items: &'p [Item],
) -> Result<(), OutOfMemory>
    ensures { OnOk result (with_item (running_seen setting.entry) (item.Parts (view_standing standing.entry)
        (views.view_items items.now)) (seen evaluation.old)
        ≡ meant (running_seen setting.entry) (seen evaluation.new)) }
{
    if !is_next(evaluation.flow) {
        return Ok(());
    }
    match items.split_first() {
        None => Ok(()),
        Some((Item::Declare(objects), more)) => {
            let behind = with_objects(objects.as_slice(), standing)?;
            evaluation.push_two(
                Work::Parts(behind, more),
                Work::Declare(standing, objects.as_slice()),
            )
        }
        Some((Item::Do(s), more)) => {
            evaluation.push_two(Work::Parts(standing, more), Work::Run(standing, s))
        }
    }
}

/// The further parts of a switch.
#[tactic(auto, using(upc_meaning_work::proofs::Turning::switches))]
pub fn cases<'p>(
    evaluation: &mut Evaluation<'p>,
    setting: Setting<'p>,
    standing: Standing<'p>,
    items: &'p [SwitchItem],
) -> Result<(), OutOfMemory>
    ensures { OnOk result (with_item (running_seen setting.entry) (item.Cases (view_standing standing.entry)
        (views.view_switch_items items.now)) (seen evaluation.old)
        ≡ meant (running_seen setting.entry) (seen evaluation.new)) }
{
    if !is_next(evaluation.flow) {
        return Ok(());
    }
    match items.split_first() {
        None => Ok(()),
        Some((SwitchItem::Case(_), more)) => evaluation.push_one(Work::Cases(standing, more)),
        Some((SwitchItem::Default, more)) => evaluation.push_one(Work::Cases(standing, more)),
        Some((SwitchItem::Do(s), more)) => {
            evaluation.push_two(Work::Cases(standing, more), Work::Run(standing, s))
        }
    }
}

// The test of a loop is next; an absent one is as 1.
fn push_test<'p>(
    evaluation: &mut Evaluation<'p>,
    standing: Standing<'p>,
    kind: &'p StatementKind,
) -> Result<(), OutOfMemory>
    ensures { OnOk result (seen evaluation.new ≡ with_test (view_standing standing.entry)
        (test_in (views.view_statement_kind kind.now)) (seen evaluation.old)) }
{
    match kind {
        StatementKind::While(test, _) => evaluation.push_one(Work::Value(standing.strict, test)),
        StatementKind::DoWhile(_, test) => evaluation.push_one(Work::Value(standing.strict, test)),
        StatementKind::For(head, _) => match &head.test {
            None => evaluation.push_number(1),
            Some(test) => evaluation.push_one(Work::Value(standing.strict, test)),
        },
        StatementKind::Forall(head, _, _) => match &head.test {
            None => evaluation.push_number(1),
            Some(test) => evaluation.push_one(Work::Value(standing.strict, test)),
        },
        _ => Err(OutOfMemory),
    }
}

/// A turn of a loop that has so many left. No thread takes more turns than it has ticks.
#[tactic(auto, using(upc_meaning_work::proofs::Turning::loops))]
pub fn turn<'p>(
    evaluation: &mut Evaluation<'p>,
    setting: Setting<'p>,
    standing: Standing<'p>,
    kind: &'p StatementKind,
    turns: u64,
) -> Result<Step<()>, OutOfMemory>
    ensures { IfOk result (λ s. Went (running_seen setting.entry) (with_item (running_seen setting.entry)
        (item.Turn (view_standing standing.entry) (views.view_statement_kind kind.now) turns) (seen evaluation.old)) s
        evaluation.new) }
{
    if turns == 0 {
        return Err(OutOfMemory);
    }
    match evaluation.progress.tick(setting.runner)? {
        Step::Ends(end) => Ok(Step::Ends(end)),
        Step::Gives(()) => {
            evaluation.push_one(Work::Test(standing, kind, turns - 1))?;
            push_test(evaluation, standing, kind)?;
            Ok(Step::Gives(()))
        }
    }
}

/// The rest of a turn after its test (C99 6.8.5).
#[tactic(auto, using(upc_meaning_work::proofs::Turning::loops))]
pub fn tested<'p>(
    evaluation: &mut Evaluation<'p>,
    setting: Setting<'p>,
    standing: Standing<'p>,
    kind: &'p StatementKind,
    turns: u64,
) -> Result<(), OutOfMemory>
    ensures { OnOk result (with_item (running_seen setting.entry) (item.Test (view_standing standing.entry)
        (views.view_statement_kind kind.now) turns) (seen evaluation.old)
        ≡ meant (running_seen setting.entry) (seen evaluation.new)) }
{
    let v = evaluation.pop_value();
    if is_zero(&v) {
        evaluation.leave_so(Flow::Next);
        return Ok(());
    }
    evaluation.push_one(Work::Around(standing, kind, turns))?;
    body(evaluation, setting, standing, kind)
}

// The body of a loop.
#[tactic(auto, using(upc_meaning_work::proofs::Turning::bodies))]
fn body<'p>(
    evaluation: &mut Evaluation<'p>,
    setting: Setting<'p>,
    standing: Standing<'p>,
    kind: &'p StatementKind,
) -> Result<(), OutOfMemory>
    ensures { OnOk result (bodied (running_seen setting.entry) (view_standing standing.entry)
        (views.view_statement_kind kind.now) (seen evaluation.old)
        ≡ meant (running_seen setting.entry) (seen evaluation.new)) }
{
    match kind {
        StatementKind::While(_, body) => evaluation.push_one(Work::Run(standing, body)),
        StatementKind::DoWhile(body, _) => evaluation.push_one(Work::Run(standing, body)),
        StatementKind::For(_, body) => evaluation.push_one(Work::Run(standing, body)),
        StatementKind::Forall(head, whose, body) => {
            forall_body(evaluation, setting, standing, head, whose, body)
        }
        _ => Err(OutOfMemory),
    }
}

// The body of a upc_forall.
#[tactic(auto, using(upc_meaning_work::proofs::Turning::bodies))]
fn forall_body<'p>(
    evaluation: &mut Evaluation<'p>,
    setting: Setting<'p>,
    standing: Standing<'p>,
    head: &'p Head,
    whose: &'p Affinity,
    body: &'p Statement,
) -> Result<(), OutOfMemory>
    ensures { OnOk result (bodied (running_seen setting.entry) (view_standing standing.entry) (tree.Forall
        (views.view_head head.now) (views.view_affinity whose.now) (views.view_statement body.now))
        (seen evaluation.old)
        ≡ meant (running_seen setting.entry) (seen evaluation.new)) }
{
    match whose {
        Affinity::All => evaluation.push_two(Work::Finished, Work::Run(standing, body)),
        Affinity::Value(e) => owned_body(evaluation, setting, standing, head, e, body),
    }
}

// The body of one with an affinity.
#[tactic(auto, using(upc_meaning_work::proofs::Turning::bodies))]
fn owned_body<'p>(
    evaluation: &mut Evaluation<'p>,
    setting: Setting<'p>,
    standing: Standing<'p>,
    head: &'p Head,
    e: &'p Expr,
    body: &'p Statement,
) -> Result<(), OutOfMemory>
    ensures { OnOk result (bodied (running_seen setting.entry) (view_standing standing.entry) (tree.Forall
        (views.view_head head.now) (tree.AtValue (view_expr e.now)) (views.view_statement body.now))
        (seen evaluation.old)
        ≡ meant (running_seen setting.entry) (seen evaluation.new)) }
{
    if evaluation.progress.store.is_controlled() {
        controlling(evaluation, setting, standing, body)
    } else {
        evaluation.push_three(
            Work::Guard(standing, body),
            Work::Mine(e.place),
            Work::Value(standing.strict, e),
        )
    }
}

// A body in which no further affinity is evaluated.
#[tactic(auto, using(upc_meaning_work::proofs::Turning::guards))]
fn controlling<'p>(
    evaluation: &mut Evaluation<'p>,
    setting: Setting<'p>,
    standing: Standing<'p>,
    body: &'p Statement,
) -> Result<(), OutOfMemory>
    ensures { OnOk result (controlled (running_seen setting.entry) (view_standing standing.entry)
        (views.view_statement body.now) (seen evaluation.old)
        ≡ meant (running_seen setting.entry) (seen evaluation.new)) }
{
    evaluation.progress.control()?;
    evaluation.push_two(Work::Release, Work::Run(standing, body))
}

/// The rest of a turn after its body (C99 6.8.5).
#[tactic(auto, using(upc_meaning_work::proofs::Turning::rounds))]
pub fn around<'p>(
    evaluation: &mut Evaluation<'p>,
    setting: Setting<'p>,
    standing: Standing<'p>,
    kind: &'p StatementKind,
    turns: u64,
) -> Result<(), OutOfMemory>
    ensures { OnOk result (with_item (running_seen setting.entry) (item.Around (view_standing standing.entry)
        (views.view_statement_kind kind.now) turns) (seen evaluation.old)
        ≡ meant (running_seen setting.entry) (seen evaluation.new)) }
{
    match evaluation.flow {
        Flow::Gave(_) => Ok(()),
        Flow::Broke => {
            evaluation.leave_so(Flow::Next);
            Ok(())
        }
        Flow::Next => round(evaluation, standing, kind, turns),
        Flow::Again => round(evaluation, standing, kind, turns),
    }
}

// What a loop does last in a turn, and then the next turn.
fn round<'p>(
    evaluation: &mut Evaluation<'p>,
    standing: Standing<'p>,
    kind: &'p StatementKind,
    turns: u64,
) -> Result<(), OutOfMemory>
    ensures { OnOk result (seen evaluation.new ≡ more_works
        (aside_items (view_standing standing.entry) (step_in (views.view_statement_kind kind.now)))
        (with_flow mean.Next (more_works (item.Turn (view_standing standing.entry)
        (views.view_statement_kind kind.now) turns ∷ []) (seen evaluation.old)))) }
{
    evaluation.push_one(Work::Turn(standing, kind, turns))?;
    match kind {
        StatementKind::For(head, _) => evaluation.push_aside(standing, &head.step),
        StatementKind::Forall(head, _, _) => evaluation.push_aside(standing, &head.step),
        StatementKind::While(_, _) | StatementKind::DoWhile(_, _) => {
            evaluation.leave_so(Flow::Next);
            Ok(())
        }
        _ => Err(OutOfMemory),
    }
}

/// Whether the turn of an affinity is the thread's.
#[tactic(auto, using(upc_meaning_work::proofs::Turning::guards))]
pub fn mine<'p>(
    evaluation: &mut Evaluation<'p>,
    setting: Setting<'p>,
    place: Place,
) -> Result<Step<()>, OutOfMemory>
    requires { Fits setting.runner }
    ensures { IfOk result (λ s. Went (running_seen setting.entry) (with_item (running_seen setting.entry)
        (item.Mine place) (seen evaluation.old)) s evaluation.new) }
{
    if setting.runner.threads == 0 {
        return Err(OutOfMemory);
    }
    let v = evaluation.pop_value();
    match evaluation.progress.mine(setting.runner, place, &v) {
        Step::Ends(end) => Ok(Step::Ends(end)),
        Step::Gives(w) => {
            evaluation.push_value(w)?;
            Ok(Step::Gives(()))
        }
    }
}

/// The body of a upc_forall after its affinity.
#[tactic(auto, using(upc_meaning_work::proofs::Turning::guards))]
pub fn guard<'p>(
    evaluation: &mut Evaluation<'p>,
    setting: Setting<'p>,
    standing: Standing<'p>,
    body: &'p Statement,
) -> Result<(), OutOfMemory>
    ensures { OnOk result (with_item (running_seen setting.entry) (item.Guard (view_standing standing.entry)
        (views.view_statement body.now)) (seen evaluation.old)
        ≡ meant (running_seen setting.entry) (seen evaluation.new)) }
{
    let w = evaluation.pop_value();
    if is_zero(&w) {
        evaluation.leave_so(Flow::Next);
        return Ok(());
    }
    controlling(evaluation, setting, standing, body)
}

/// The end of the body of a upc_forall that does not control.
#[tactic(auto, using(upc_meaning_work::proofs::Turning::guards))]
pub fn finish_body<'p>(evaluation: &mut Evaluation<'p>, setting: Setting<'p>)
    ensures { with_item (running_seen setting.entry) item.Finished (seen evaluation.old)
        ≡ meant (running_seen setting.entry) (seen evaluation.new) }
{
    let flow = finished(evaluation.flow);
    evaluation.leave_so(flow);
}

/// The end of one that controls.
#[tactic(auto, using(upc_meaning_work::proofs::Turning::guards))]
pub fn release<'p>(evaluation: &mut Evaluation<'p>, setting: Setting<'p>)
    ensures { with_item (running_seen setting.entry) item.Release (seen evaluation.old)
        ≡ meant (running_seen setting.entry) (seen evaluation.new) }
{
    evaluation.progress.release();
    let flow = finished(evaluation.flow);
    evaluation.leave_so(flow);
}
