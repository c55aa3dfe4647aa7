//! What is left to do, item by item.

ghost use Rattle.std.specs.Prelude.{◌≡◌, IfOk};
ghost use Rattle.upc_meaning_settings.specs.layer.Runners.{Fits};
ghost use Rattle.upc_meaning_settings.specs.layer.Settings.{running_seen};
ghost use Rattle.upc_meaning_work.specs.layer.Seen.{meant, with_item};
ghost use Rattle.upc_meaning_work.specs.layer.Items as item;
ghost use Rattle.upc_meaning_work.specs.layer.ViewItems.{view_work};
ghost use Rattle.upc_meaning_work.specs.layer.Evaluations.{Went, seen};

use crate::running;
use upc_meaning_expressions::{arguments, expressions, functions};
use upc_meaning_state::{Setting, Step};
use upc_meaning_statements::{declarations, loops, statements, switches};
use upc_meaning_work::{Evaluation, Work};
use upc_text::{OutOfMemory, Place};
use upc_values::Mark;

// A value that nothing uses.
#[tactic(auto, using(upc_meaning_work::proofs::Courses::ends_of))]
fn drop_value<'p>(evaluation: &mut Evaluation<'p>, setting: Setting<'p>)
    ensures { with_item (running_seen setting.entry) item.Drop (seen evaluation.old)
        ≡ meant (running_seen setting.entry) (seen evaluation.new) }
{
    evaluation.pop_value();
}

// The end of main.
#[tactic(auto, using(upc_meaning_work::proofs::Courses::ends_of))]
fn end_main<'p>(
    evaluation: &mut Evaluation<'p>,
    setting: Setting<'p>,
    place: Place,
) -> Result<Step<()>, OutOfMemory>
    ensures { IfOk result (λ s. Went (running_seen setting.entry)
        (with_item (running_seen setting.entry) (item.End place) (seen evaluation.old)) s evaluation.new) }
{
    match evaluation
        .progress
        .pass(setting.runner, place, Mark::Finish)?
    {
        Step::Ends(end) => Ok(Step::Ends(end)),
        Step::Gives(()) => Ok(Step::Gives(())),
    }
}

// An item of an expression.
fn take_operand<'p>(
    evaluation: &mut Evaluation<'p>,
    setting: Setting<'p>,
    work: Work<'p>,
) -> Result<Step<()>, OutOfMemory>
    requires { Fits setting.runner }
    ensures { IfOk result (λ s. Went (running_seen setting.entry)
        (with_item (running_seen setting.entry) (view_work work.entry) (seen evaluation.old)) s evaluation.new) }
{
    match work {
        Work::Value(strict, e) => {
            expressions::value(evaluation, setting, strict, e)?;
            Ok(Step::Gives(()))
        }
        Work::Address(strict, e) => {
            expressions::address(evaluation, setting, strict, e)?;
            Ok(Step::Gives(()))
        }
        Work::Branch(strict, e) => {
            expressions::branch(evaluation, setting, strict, e)?;
            Ok(Step::Gives(()))
        }
        Work::Truth => {
            expressions::truth(evaluation, setting)?;
            Ok(Step::Gives(()))
        }
        Work::Last(strict, parts) => {
            expressions::last(evaluation, setting, strict, parts)?;
            Ok(Step::Gives(()))
        }
        Work::Drop => {
            drop_value(evaluation, setting);
            Ok(Step::Gives(()))
        }
        _ => take_operator(evaluation, setting, work),
    }
}

// An item of an expression that may end the thread.
fn take_operator<'p>(
    evaluation: &mut Evaluation<'p>,
    setting: Setting<'p>,
    work: Work<'p>,
) -> Result<Step<()>, OutOfMemory>
    requires { Fits setting.runner }
    ensures { IfOk result (λ s. Went (running_seen setting.entry)
        (with_item (running_seen setting.entry) (view_work work.entry) (seen evaluation.old)) s evaluation.new) }
{
    match work {
        Work::Hold(strict, place, attr) => expressions::hold(
            evaluation, setting, strict, place, attr,
        ),
        Work::Operate(strict, e) => expressions::operate(evaluation, setting, strict, e),
        Work::Convert(into, place) => expressions::convert(evaluation, setting, into, place),
        Work::Arguments {
            strict,
            call,
            parameters,
            more,
            done,
        } => arguments::arguments(evaluation, setting, strict, call, parameters, more, done),
        _ => take_part(evaluation, setting, work),
    }
}

// An item of a list of statements, of a switch or of a block.
fn take_part<'p>(
    evaluation: &mut Evaluation<'p>,
    setting: Setting<'p>,
    work: Work<'p>,
) -> Result<Step<()>, OutOfMemory>
    requires { Fits setting.runner }
    ensures { IfOk result (λ s. Went (running_seen setting.entry)
        (with_item (running_seen setting.entry) (view_work work.entry) (seen evaluation.old)) s evaluation.new) }
{
    match work {
        Work::Parts(standing, items) => {
            loops::parts(evaluation, setting, standing, items)?;
            Ok(Step::Gives(()))
        }
        Work::Cases(standing, items) => {
            loops::cases(evaluation, setting, standing, items)?;
            Ok(Step::Gives(()))
        }
        Work::Select(standing, kind, items) => {
            switches::select(evaluation, setting, standing, kind, items)?;
            Ok(Step::Gives(()))
        }
        Work::Caught => {
            statements::catch(evaluation, setting);
            Ok(Step::Gives(()))
        }
        Work::Leave => {
            statements::leave(evaluation, setting);
            Ok(Step::Gives(()))
        }
        Work::Declare(standing, objects) => {
            declarations::declare(evaluation, setting, standing, objects)?;
            Ok(Step::Gives(()))
        }
        _ => take_statement(evaluation, setting, work),
    }
}

// An item of another statement.
fn take_statement<'p>(
    evaluation: &mut Evaluation<'p>,
    setting: Setting<'p>,
    work: Work<'p>,
) -> Result<Step<()>, OutOfMemory>
    requires { Fits setting.runner }
    ensures { IfOk result (λ s. Went (running_seen setting.entry)
        (with_item (running_seen setting.entry) (view_work work.entry) (seen evaluation.old)) s evaluation.new) }
{
    match work {
        Work::Arm {
            standing,
            body,
            more,
            last,
        } => {
            statements::arm(evaluation, setting, standing, body, more, last)?;
            Ok(Step::Gives(()))
        }
        Work::Give => {
            statements::give(evaluation, setting);
            Ok(Step::Gives(()))
        }
        Work::Return(saved, blank) => {
            functions::come_back(evaluation, setting, saved, blank)?;
            Ok(Step::Gives(()))
        }
        _ => take_loop(evaluation, setting, work),
    }
}

// An item of a loop.
fn take_loop<'p>(
    evaluation: &mut Evaluation<'p>,
    setting: Setting<'p>,
    work: Work<'p>,
) -> Result<Step<()>, OutOfMemory>
    requires { Fits setting.runner }
    ensures { IfOk result (λ s. Went (running_seen setting.entry)
        (with_item (running_seen setting.entry) (view_work work.entry) (seen evaluation.old)) s evaluation.new) }
{
    match work {
        Work::Test(standing, kind, turns) => {
            loops::tested(evaluation, setting, standing, kind, turns)?;
            Ok(Step::Gives(()))
        }
        Work::Around(standing, kind, turns) => {
            loops::around(evaluation, setting, standing, kind, turns)?;
            Ok(Step::Gives(()))
        }
        Work::Guard(standing, body) => {
            loops::guard(evaluation, setting, standing, body)?;
            Ok(Step::Gives(()))
        }
        Work::Finished => {
            loops::finish_body(evaluation, setting);
            Ok(Step::Gives(()))
        }
        Work::Release => {
            loops::release(evaluation, setting);
            Ok(Step::Gives(()))
        }
        _ => take_ending(evaluation, setting, work),
    }
}

// An item of a statement or of a loop that may end the thread.
fn take_ending<'p>(
    evaluation: &mut Evaluation<'p>,
    setting: Setting<'p>,
    work: Work<'p>,
) -> Result<Step<()>, OutOfMemory>
    requires { Fits setting.runner }
    ensures { IfOk result (λ s. Went (running_seen setting.entry)
        (with_item (running_seen setting.entry) (view_work work.entry) (seen evaluation.old)) s evaluation.new) }
{
    match work {
        Work::Run(standing, s) => running::run(evaluation, setting, standing, s),
        Work::Turn(standing, kind, turns) => loops::turn(
            evaluation, setting, standing, kind, turns,
        ),
        Work::Mine(place) => loops::mine(evaluation, setting, place),
        Work::Listed {
            standing,
            object,
            index,
            values,
        } => declarations::listed(evaluation, setting, standing, object, index, values),
        Work::Keep(strict, place, t) => declarations::keep(evaluation, setting, strict, place, t),
        Work::Mark(how, place) => statements::mark(evaluation, setting, how, place),
        Work::End(place) => end_main(evaluation, setting, place),
        // Every other item has been taken.
        _ => Err(OutOfMemory),
    }
}

/// An item.
pub(crate) fn take<'p>(
    evaluation: &mut Evaluation<'p>,
    setting: Setting<'p>,
    work: Work<'p>,
) -> Result<Step<()>, OutOfMemory>
    requires { Fits setting.runner }
    ensures { IfOk result (λ s. Went (running_seen setting.entry)
        (with_item (running_seen setting.entry) (view_work work.entry) (seen evaluation.old)) s evaluation.new) }
{
    take_operand(evaluation, setting, work)
}
