//! Arguments (C99 6.5.2.2, 7.19.6.3; UPC 7.2, 7.3).

ghost use Rattle.std.specs.Prelude.{◌≡◌, ◌∷◌, [], MatchOption, IfOk, OnOk, map};
ghost use Rattle.typed_tree.specs.Tree as tree;
ghost use Rattle.typed_tree.specs.Tree.{Exprs, exprs_of};
ghost use Rattle.typed_tree.specs.ViewTree.{view_expr};
ghost use Rattle.upc_meaning_settings.specs.layer.Runners.{Fits};
ghost use Rattle.upc_meaning_settings.specs.layer.Settings.{running_seen};
ghost use Rattle.upc_meaning_work.specs.layer.Seen.{more_works, with_item};
ghost use Rattle.upc_meaning_work.specs.layer.Items as item;
ghost use Rattle.upc_meaning_work.specs.layer.ViewItems.{casts_of, view_work};
ghost use Rattle.upc_meaning_work.specs.layer.Evaluations.{Went, seen};

use crate::calling;
use meaning_types::{conversion, parameter_conversion, promotion};
use thread_steps::CastTo;
use typed_tree::Expr;
use upc_meaning_state::{Setting, Step};
use upc_meaning_work::{Evaluation, Parameters, Work};
use upc_text::OutOfMemory;
use upc_values::Value;

// The conversion of an argument, and what those after it are converted into.
fn next_cast<'p>(parameters: Parameters<'p>, a: &Expr) -> Option<(CastTo, Parameters<'p>)>
    ensures { (more : Exprs) → MatchOption result
        (casts_of parameters.entry (tree.AndExpr (view_expr a.now) more) ≡ [])
        (λ r. casts_of parameters.entry (tree.AndExpr (view_expr a.now) more) ≡ r.0 ∷ casts_of r.1 more) }
{
    match parameters {
        Parameters::Types(types) => match types.split_first() {
            None => None,
            Some((t, rest)) => Some((conversion(&a.attr.ctype, t), Parameters::Types(rest))),
        },
        Parameters::Library(kinds) => match kinds.split_first() {
            None => None,
            Some((kind, rest)) => Some((parameter_conversion(*kind), Parameters::Library(rest))),
        },
        Parameters::Promoted => Some((promotion(&a.attr.ctype), Parameters::Promoted)),
    }
}

// One argument more, and then those after it.
fn push_argument<'p>(
    evaluation: &mut Evaluation<'p>,
    strict: bool,
    a: &'p Expr,
    cast: CastTo,
    rest: Work<'p>,
) -> Result<(), OutOfMemory>
    ensures { OnOk result (seen evaluation.new ≡ more_works (item.Value strict (view_expr a.now)
        ∷ item.Convert cast a.now.place ∷ view_work rest.entry ∷ []) (seen evaluation.old)) }
{
    evaluation.works.push(rest)?;
    evaluation.works.push(Work::Convert(cast, a.place))?;
    evaluation.works.push(Work::Value(strict, a))
}

/// The call of an expression, of whose arguments so many have their values.
#[tactic(auto, using(upc_meaning_work::proofs::Branches::arguments_go))]
pub fn arguments<'p>(
    evaluation: &mut Evaluation<'p>,
    setting: Setting<'p>,
    strict: bool,
    call: &'p Expr,
    parameters: Parameters<'p>,
    more: &'p [Expr],
    done: usize,
) -> Result<Step<()>, OutOfMemory>
    requires { Fits setting.runner }
    ensures { IfOk result (λ s. Went (running_seen setting.entry)
        (with_item (running_seen setting.entry) (item.Arguments strict (view_expr call.now)
        (casts_of parameters.entry (exprs_of (map view_expr more.now))) (exprs_of (map view_expr more.now)) done)
        (seen evaluation.old)) s evaluation.new) }
{
    let Some((a, rest)) = more.split_first() else {
        return calling::call_now(evaluation, setting, call, done);
    };
    match next_cast(parameters, a) {
        None => calling::call_now(evaluation, setting, call, done),
        Some((cast, behind)) => {
            if done == usize::MAX {
                return Err(OutOfMemory);
            }
            let further = Work::Arguments {
                strict,
                call,
                parameters: behind,
                more: rest,
                done: done + 1,
            };
            push_argument(evaluation, strict, a, cast, further)?;
            Ok(Step::Gives(()))
        }
    }
}
