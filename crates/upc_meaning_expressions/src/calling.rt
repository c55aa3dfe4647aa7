//! Calls whose arguments have their values (C99 6.5.2.2, 7.19.6.3; UPC 7.2, 7.3).

ghost use Rattle.std.specs.Prelude.{◌≡◌, IfOk, map};
ghost use Rattle.typed_tree.specs.Tree as tree;
ghost use Rattle.typed_tree.specs.Tree.{exprs_of};
ghost use Rattle.typed_tree.specs.ViewTree.{view_expr, view_kind};
ghost use Rattle.typed_tree.specs.declared.tree.Target.TheVariants as target;
ghost use Rattle.upc_meaning_settings.specs.layer.Runners.{Fits};
ghost use Rattle.upc_meaning_settings.specs.layer.Settings.{running_seen};
ghost use Rattle.upc_meaning_work.specs.layer.Seen.{called_with, calls};
ghost use Rattle.upc_meaning_work.specs.layer.Evaluations.{Went, seen};

use crate::functions;
use typed_tree::{Expr, ExprKind, Target};
use upc_meaning_state::{Setting, Step};
use upc_meaning_work::Evaluation;
use upc_text::OutOfMemory;
use upc_values::{LibraryCall, Value};

// A call of the library with these arguments.
#[tactic(auto, using(upc_meaning_work::proofs::Callings::library_calls))]
fn call_library<'p>(
    evaluation: &mut Evaluation<'p>,
    setting: Setting<'p>,
    e: &Expr,
    call: LibraryCall,
    list: &[Expr],
    args: &[Value],
) -> Result<Step<()>, OutOfMemory>
    requires fits { Fits setting.runner }
    requires kind { view_kind e.now.kind ≡ tree.Call (target.Library call) (exprs_of (map view_expr list.now)) }
    ensures { IfOk result (λ s. Went (running_seen setting.entry)
        (called_with (running_seen setting.entry) (view_expr e.now) args.now (seen evaluation.old)) s evaluation.new) }
{
    match evaluation
        .progress
        .library_call(setting, e, call, list, args)?
    {
        Step::Ends(end) => Ok(Step::Ends(end)),
        Step::Gives(v) => {
            evaluation.push_value(v)?;
            Ok(Step::Gives(()))
        }
    }
}

// A call of a function or of the library with these arguments.
fn call_target<'p>(
    evaluation: &mut Evaluation<'p>,
    setting: Setting<'p>,
    e: &Expr,
    target: Target,
    list: &[Expr],
    args: &[Value],
) -> Result<Step<()>, OutOfMemory>
    requires fits { Fits setting.runner }
    requires kind { view_kind e.now.kind ≡ tree.Call target (exprs_of (map view_expr list.now)) }
    ensures { IfOk result (λ s. Went (running_seen setting.entry)
        (called_with (running_seen setting.entry) (view_expr e.now) args.now (seen evaluation.old)) s evaluation.new) }
{
    match target {
        Target::Function(number) => functions::enter(evaluation, setting, number, args, e.place),
        Target::Library(call) => call_library(evaluation, setting, e, call, list, args),
    }
}

// A call of an expression with these arguments. No other expression is called.
fn call_with<'p>(
    evaluation: &mut Evaluation<'p>,
    setting: Setting<'p>,
    e: &Expr,
    args: &[Value],
) -> Result<Step<()>, OutOfMemory>
    requires { Fits setting.runner }
    ensures { IfOk result (λ s. Went (running_seen setting.entry)
        (called_with (running_seen setting.entry) (view_expr e.now) args.now (seen evaluation.old)) s evaluation.new) }
{
    match &e.kind {
        ExprKind::Call(target, list) => {
            call_target(evaluation, setting, e, *target, list.as_slice(), args)
        }
        _ => Err(OutOfMemory),
    }
}

/// A call of an expression whose arguments are the youngest values.
#[tactic(auto, using(upc_meaning_work::proofs::Callings::calls_so))]
pub(crate) fn call_now<'p>(
    evaluation: &mut Evaluation<'p>,
    setting: Setting<'p>,
    call: &Expr,
    done: usize,
) -> Result<Step<()>, OutOfMemory>
    requires { Fits setting.runner }
    ensures { IfOk result (λ s. Went (running_seen setting.entry)
        (calls (running_seen setting.entry) (view_expr call.now) done (seen evaluation.old)) s evaluation.new) }
{
    let args = evaluation.values.split_youngest(done)?;
    call_with(evaluation, setting, call, args.as_slice())
}
