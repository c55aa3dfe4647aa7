//! The bodies of functions, and their parameters (C99 6.5.2.2, 6.9.1).

ghost use Rattle.std.specs.Prelude.{◌≡◌, false, IfOk, MatchOption};
ghost use Rattle.typed_tree.specs.Tree as tree;
ghost use Rattle.typed_tree.specs.Tree.{Stands};
ghost use Rattle.typed_tree.specs.ViewStatements as views;
ghost use Rattle.typed_tree.specs.ViewStatements.{view_function};
ghost use Rattle.source_meaning.specs.Threads as mean;
ghost use Rattle.upc_meaning_settings.specs.layer.Runners.{Fits};
ghost use Rattle.upc_meaning_settings.specs.layer.Settings.{running_seen};
ghost use Rattle.upc_meaning_work.specs.layer.Bodies.{is_block};
ghost use Rattle.upc_meaning_work.specs.layer.Seen.{entered};
ghost use Rattle.upc_meaning_work.specs.layer.ViewItems.{view_standing};
ghost use Rattle.upc_meaning_work.specs.layer.Evaluations.{Went, seen};

use typed_tree::{Function, Item, Statement, StatementKind};
use upc_meaning_state::{Setting, Step};
use upc_meaning_work::{Evaluation, Flow, Standing, Work};
use upc_text::OutOfMemory;
use upc_values::Value;

// What the body of a function stands in, after its parameters.
fn in_body<'p>(
    setting: Setting<'p>,
    function: &'p Function,
    strict: bool,
) -> Result<Standing<'p>, OutOfMemory>
    ensures { IfOk result (λ κ. view_standing κ
        ≡ mean.in_body (running_seen setting.entry) (view_function function.now) strict) }
{
    let count = function.parameters.len();
    if count > u32::MAX as usize {
        return Err(OutOfMemory);
    }
    Ok(Standing {
        strict,
        count: count as u32,
        result: &function.result,
    })
}

// A block, with its parts.
fn block_of(s: &Statement) -> Option<(bool, &[Item])>
    ensures { MatchOption result (is_block (views.view_statement s.now) ≡ false)
        (λ b. views.view_statement s.now ≡ Stands s.now.place (tree.Block b.0 (views.view_items b.1.now))) }
{
    match &s.kind {
        StatementKind::Block(strict, items) => Some((*strict, items.as_slice())),
        _ => None,
    }
}

// A function's block, to which its parameters belong.
#[tactic(auto, using(upc_meaning_work::proofs::Enters::bodies_of))]
fn block_body<'p>(
    evaluation: &mut Evaluation<'p>,
    setting: Setting<'p>,
    function: &'p Function,
    args: &[Value],
    strict: bool,
    items: &'p [Item],
) -> Result<Step<()>, OutOfMemory>
    requires fits { Fits setting.runner }
    requires block { (view_function function.now).body
        ≡ Stands function.now.body.value.place (tree.Block strict (views.view_items items.now)) }
    ensures { IfOk result (λ s. Went (running_seen setting.entry) (entered (running_seen setting.entry)
        (view_function function.now) args.now (seen evaluation.old)) s evaluation.new) }
{
    let place = function.body.place;
    match evaluation
        .progress
        .open_body(setting, place, function, items)?
    {
        Step::Ends(end) => Ok(Step::Ends(end)),
        Step::Gives(()) => match evaluation
            .progress
            .receive(setting, place, function.parameters.as_slice(), args)?
        {
            Step::Ends(end) => Ok(Step::Ends(end)),
            Step::Gives(()) => {
                let standing = in_body(setting, function, strict)?;
                evaluation.leave_so(Flow::Next);
                evaluation.push_two(Work::Leave, Work::Parts(standing, items))?;
                Ok(Step::Gives(()))
            }
        },
    }
}

/// What the body of a function leaves to be done.
#[tactic(auto, using(upc_meaning_work::proofs::OtherBodies::others))]
pub(crate) fn run_body<'p>(
    evaluation: &mut Evaluation<'p>,
    setting: Setting<'p>,
    function: &'p Function,
    args: &[Value],
) -> Result<Step<()>, OutOfMemory>
    requires { Fits setting.runner }
    ensures { IfOk result (λ s. Went (running_seen setting.entry) (entered (running_seen setting.entry)
        (view_function function.now) args.now (seen evaluation.old)) s evaluation.new) }
{
    match block_of(&function.body) {
        Some((strict, items)) => block_body(evaluation, setting, function, args, strict, items),
        None => {
            let standing = in_body(setting, function, false)?;
            evaluation.push_one(Work::Run(standing, &function.body))?;
            Ok(Step::Gives(()))
        }
    }
}
