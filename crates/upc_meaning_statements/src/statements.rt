//! Statements, item by item (C99 6.8, UPC 6.6).

ghost use Rattle.std.specs.Prelude.{◌≡◌, IfOk, OnOk, None};
ghost use Rattle.typed_tree.specs.Tree as tree;
ghost use Rattle.typed_tree.specs.Tree.{Stands};
ghost use Rattle.typed_tree.specs.ViewStatements as views;
ghost use Rattle.source_meaning.specs.layer.Parts as parts;
ghost use Rattle.upc_meaning_settings.specs.layer.Settings.{running_seen};
ghost use Rattle.upc_meaning_work.specs.layer.Seen.{armed, meant, with_item};
ghost use Rattle.upc_meaning_work.specs.layer.Items as item;
ghost use Rattle.upc_meaning_work.specs.layer.ViewItems.{flow_seen, view_standing};
ghost use Rattle.upc_meaning_work.specs.layer.Evaluations.{Went, seen};

use meaning_types::conversion;
use thread_values::{int_of, is_zero};
use typed_tree::{Arm, Expr, Statement, Synchronises};
use upc_meaning_state::{Setting, Step, is_numeric};
use upc_meaning_work::{Evaluation, Flow, Standing, Work};
use upc_text::{OutOfMemory, Place};
use upc_values::{Mark, Scalar, Value};

/// An expression for what it does.
#[tactic(auto, using(upc_meaning_work::proofs::Stating::asides))]
pub fn aside<'p>(
    evaluation: &mut Evaluation<'p>,
    setting: Setting<'p>,
    standing: Standing<'p>,
    place: Place,
    e: &'p Option<Box<Expr>>,
) -> Result<(), OutOfMemory>
    ensures { OnOk result (with_item (running_seen setting.entry) (item.Run (view_standing standing.entry)
        (Stands place (tree.Value (views.view_value e.now)))) (seen evaluation.old)
        ≡ meant (running_seen setting.entry) (seen evaluation.new)) }
{
    evaluation.push_aside(standing, e)
}

/// `return`.
#[tactic(auto, using(upc_meaning_work::proofs::Stating::jumps))]
pub fn give_back<'p>(
    evaluation: &mut Evaluation<'p>,
    setting: Setting<'p>,
    standing: Standing<'p>,
    place: Place,
    e: &'p Option<Box<Expr>>,
) -> Result<(), OutOfMemory>
    ensures { OnOk result (with_item (running_seen setting.entry) (item.Run (view_standing standing.entry)
        (Stands place (tree.Return (views.view_value e.now)))) (seen evaluation.old)
        ≡ meant (running_seen setting.entry) (seen evaluation.new)) }
{
    match e {
        None => {
            evaluation.leave_so(Flow::Gave(Value::Scalar(Scalar::Int(0))));
            Ok(())
        }
        Some(e) => evaluation.push_three(
            Work::Give,
            Work::Convert(conversion(&e.attr.ctype, standing.result), e.place),
            Work::Value(standing.strict, e),
        ),
    }
}

/// `break`.
#[tactic(auto, using(upc_meaning_work::proofs::Stating::jumps))]
pub fn break_off<'p>(
    evaluation: &mut Evaluation<'p>,
    setting: Setting<'p>,
    standing: Standing<'p>,
    place: Place,
)
    ensures { with_item (running_seen setting.entry) (item.Run (view_standing standing.entry)
        (Stands place tree.Break)) (seen evaluation.old) ≡ meant (running_seen setting.entry) (seen evaluation.new) }
{
    evaluation.leave_so(Flow::Broke);
}

/// `continue`.
#[tactic(auto, using(upc_meaning_work::proofs::Stating::jumps))]
pub fn go_again<'p>(
    evaluation: &mut Evaluation<'p>,
    setting: Setting<'p>,
    standing: Standing<'p>,
    place: Place,
)
    ensures { with_item (running_seen setting.entry) (item.Run (view_standing standing.entry)
        (Stands place tree.Continue)) (seen evaluation.old) ≡ meant (running_seen setting.entry) (seen evaluation.new) }
{
    evaluation.leave_so(Flow::Again);
}

/// The value of a `return`.
#[tactic(auto, using(upc_meaning_work::proofs::Stating::jumps))]
pub fn give<'p>(evaluation: &mut Evaluation<'p>, setting: Setting<'p>)
    ensures { with_item (running_seen setting.entry) item.Give (seen evaluation.old)
        ≡ meant (running_seen setting.entry) (seen evaluation.new) }
{
    let v = evaluation.pop_value();
    evaluation.leave_so(Flow::Gave(v));
}

/// A notify, a wait or a barrier.
#[tactic(auto, using(upc_meaning_work::proofs::Stating::barriers))]
pub fn barrier<'p>(
    evaluation: &mut Evaluation<'p>,
    setting: Setting<'p>,
    standing: Standing<'p>,
    place: Place,
    how: Synchronises,
    e: &'p Option<Box<Expr>>,
) -> Result<Step<()>, OutOfMemory>
    ensures { IfOk result (λ s. Went (running_seen setting.entry) (with_item (running_seen setting.entry)
        (item.Run (view_standing standing.entry) (Stands place (tree.Synchronise how (views.view_value e.now))))
        (seen evaluation.old)) s evaluation.new) }
{
    match e {
        None => plain_barrier(evaluation, setting, standing, place, how),
        Some(e) => {
            evaluation.push_two(Work::Mark(how, place), Work::Value(standing.strict, e))?;
            Ok(Step::Gives(()))
        }
    }
}

// One without a value.
#[tactic(auto, using(upc_meaning_work::proofs::Stating::barriers))]
fn plain_barrier<'p>(
    evaluation: &mut Evaluation<'p>,
    setting: Setting<'p>,
    standing: Standing<'p>,
    place: Place,
    how: Synchronises,
) -> Result<Step<()>, OutOfMemory>
    ensures { IfOk result (λ s. Went (running_seen setting.entry) (with_item (running_seen setting.entry)
        (item.Run (view_standing standing.entry) (Stands place (tree.Synchronise how None))) (seen evaluation.old)) s
        evaluation.new) }
{
    match evaluation
        .progress
        .synchronise(setting, how, place, Mark::Absent)?
    {
        Step::Ends(end) => Ok(Step::Ends(end)),
        Step::Gives(()) => {
            evaluation.leave_so(Flow::Next);
            Ok(Step::Gives(()))
        }
    }
}

/// One whose value is known.
#[tactic(auto, using(upc_meaning_work::proofs::Stating::barriers))]
pub fn mark<'p>(
    evaluation: &mut Evaluation<'p>,
    setting: Setting<'p>,
    how: Synchronises,
    place: Place,
) -> Result<Step<()>, OutOfMemory>
    ensures { IfOk result (λ s. Went (running_seen setting.entry) (with_item (running_seen setting.entry)
        (item.Mark how place) (seen evaluation.old)) s evaluation.new) }
{
    let v = evaluation.pop_value();
    if !is_numeric(&v) {
        return Err(OutOfMemory);
    }
    match evaluation
        .progress
        .synchronise(setting, how, place, Mark::Given(int_of(&v)))?
    {
        Step::Ends(end) => Ok(Step::Ends(end)),
        Step::Gives(()) => {
            evaluation.leave_so(Flow::Next);
            Ok(Step::Gives(()))
        }
    }
}

/// A upc_fence (UPC 6.6.1).
#[tactic(auto, using(upc_meaning_work::proofs::Stating::barriers))]
pub fn fence<'p>(
    evaluation: &mut Evaluation<'p>,
    setting: Setting<'p>,
    standing: Standing<'p>,
    place: Place,
) -> Result<Step<()>, OutOfMemory>
    ensures { IfOk result (λ s. Went (running_seen setting.entry) (with_item (running_seen setting.entry)
        (item.Run (view_standing standing.entry) (Stands place tree.Fence)) (seen evaluation.old)) s evaluation.new) }
{
    match evaluation.progress.fence(setting.runner)? {
        Step::Ends(end) => Ok(Step::Ends(end)),
        Step::Gives(()) => {
            evaluation.leave_so(Flow::Next);
            Ok(Step::Gives(()))
        }
    }
}

/// The first arm of an `if` whose test is not 0, else what comes last.
#[tactic(auto, using(upc_meaning_work::proofs::Stating::ifs))]
pub fn arms<'p>(
    evaluation: &mut Evaluation<'p>,
    setting: Setting<'p>,
    standing: Standing<'p>,
    arms: &'p [Arm],
    last: &'p Option<Box<Statement>>,
) -> Result<(), OutOfMemory>
    ensures { OnOk result (armed (running_seen setting.entry) (view_standing standing.entry)
        (views.view_arms arms.now) (views.view_last last.now) (seen evaluation.old)
        ≡ meant (running_seen setting.entry) (seen evaluation.new)) }
{
    match arms.split_first() {
        Some((arm, more)) => evaluation.push_two(
            Work::Arm {
                standing,
                body: &arm.body,
                more,
                last,
            },
            Work::Value(standing.strict, &arm.test),
        ),
        None => match last {
            None => {
                evaluation.leave_so(Flow::Next);
                Ok(())
            }
            Some(s) => evaluation.push_one(Work::Run(standing, s)),
        },
    }
}

/// What a condition guards, or what comes where it is 0.
#[tactic(auto, using(upc_meaning_work::proofs::Stating::ifs))]
pub fn arm<'p>(
    evaluation: &mut Evaluation<'p>,
    setting: Setting<'p>,
    standing: Standing<'p>,
    body: &'p Statement,
    more: &'p [Arm],
    last: &'p Option<Box<Statement>>,
) -> Result<(), OutOfMemory>
    ensures { OnOk result (with_item (running_seen setting.entry) (item.Arm (view_standing standing.entry)
        (views.view_statement body.now) (views.view_arms more.now) (views.view_last last.now)) (seen evaluation.old)
        ≡ meant (running_seen setting.entry) (seen evaluation.new)) }
{
    let v = evaluation.pop_value();
    if is_zero(&v) {
        arms(evaluation, setting, standing, more, last)
    } else {
        evaluation.push_one(Work::Run(standing, body))
    }
}

/// The end of a block.
#[tactic(auto, using(upc_meaning_work::proofs::Stating::blocks))]
pub fn leave<'p>(evaluation: &mut Evaluation<'p>, setting: Setting<'p>)
    ensures { with_item (running_seen setting.entry) item.Leave (seen evaluation.old)
        ≡ meant (running_seen setting.entry) (seen evaluation.new) }
{
    evaluation.progress.close_block();
}

/// The end of a switch: `break` has left it.
#[tactic(auto, using(upc_meaning_work::proofs::Stating::blocks))]
pub fn catch<'p>(evaluation: &mut Evaluation<'p>, setting: Setting<'p>)
    ensures { with_item (running_seen setting.entry) item.Caught (seen evaluation.old)
        ≡ meant (running_seen setting.entry) (seen evaluation.new) }
{
    let flow = caught(evaluation.flow);
    evaluation.leave_so(flow);
}

// How a switch is left, by how its parts are (C99 6.8.6.3).
fn caught(flow: Flow) -> Flow
    ensures { flow_seen result ≡ parts.caught (flow_seen flow) }
{
    match flow {
        Flow::Broke => Flow::Next,
        _ => flow,
    }
}
