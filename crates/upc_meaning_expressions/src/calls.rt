//! Arguments (C99 6.5.2.2, 7.19.6.3; UPC 7.2, 7.3).

ghost use Rattle.std.specs.Prelude.{◌≡◌, ◌∷◌, [], OnOk, map};
ghost use Rattle.upc_types.specs.View.{view};
ghost use Rattle.typed_tree.specs.Tree as tree;
ghost use Rattle.typed_tree.specs.Tree.{exprs_of};
ghost use Rattle.typed_tree.specs.ViewTree.{view_expr, view_kind};
ghost use Rattle.typed_tree.specs.declared.tree.Target.TheVariants as target;
ghost use Rattle.source_meaning.specs.Running as running;
ghost use Rattle.upc_meaning_settings.specs.layer.Settings.{running_seen};
ghost use Rattle.upc_meaning_work.specs.layer.Seen.{meant, more_works, with_item};
ghost use Rattle.upc_meaning_work.specs.layer.Items as item;
ghost use Rattle.upc_meaning_work.specs.layer.ViewItems.{casts_of};
ghost use Rattle.upc_meaning_work.specs.layer.Evaluations.{seen};

use meaning_types::is_printf;
use typed_tree::{Expr, Target};
use typing_rules::calls::call_parameters;
use upc_meaning_state::Setting;
use upc_meaning_work::{Evaluation, Parameters, Work};
use upc_text::OutOfMemory;
use upc_types::CType;
use upc_values::{LibraryCall, Scalar, Value};

// The types of the parameters of a function of the source.
fn parameters_of<'p>(setting: Setting<'p>, number: u32) -> &'p [CType]
    ensures { map view result.now ≡ running.parameters_of (running_seen setting.entry) number }
{
    match setting.functions.get(number as usize) {
        Some(function) => function.parameters.as_slice(),
        None => &[],
    }
}

// The arguments of a call, and then the call.
fn push_arguments<'p>(
    evaluation: &mut Evaluation<'p>,
    strict: bool,
    call: &'p Expr,
    parameters: Parameters<'p>,
    more: &'p [Expr],
) -> Result<(), OutOfMemory>
    ensures { OnOk result (seen evaluation.new ≡ more_works (item.Arguments strict (view_expr call.now)
        (casts_of parameters.entry (exprs_of (map view_expr more.now))) (exprs_of (map view_expr more.now)) 0
        ∷ []) (seen evaluation.old)) }
{
    evaluation.works.push(Work::Arguments {
        strict,
        call,
        parameters,
        more,
        done: 0,
    })
}

/// A call.
#[tactic(auto, using(upc_meaning_work::proofs::Branches::calls_go))]
pub(crate) fn call<'p>(
    evaluation: &mut Evaluation<'p>,
    setting: Setting<'p>,
    strict: bool,
    e: &'p Expr,
    target: Target,
    args: &'p [Expr],
) -> Result<(), OutOfMemory>
    requires { view_kind e.now.kind ≡ tree.Call target (exprs_of (map view_expr args.now)) }
    ensures { OnOk result (with_item (running_seen setting.entry) (item.Address strict (view_expr e.now))
        (seen evaluation.old) ≡ meant (running_seen setting.entry) (seen evaluation.new)) }
{
    match target {
        Target::Function(number) => {
            let types = parameters_of(setting, number);
            push_arguments(evaluation, strict, e, Parameters::Types(types), args)?;
            Ok(())
        }
        Target::Library(call) => library(evaluation, setting, strict, e, call, args),
    }
}

// A call of the library.
#[tactic(auto, using(upc_meaning_work::proofs::Branches::calls_go))]
fn library<'p>(
    evaluation: &mut Evaluation<'p>,
    setting: Setting<'p>,
    strict: bool,
    e: &'p Expr,
    call: LibraryCall,
    args: &'p [Expr],
) -> Result<(), OutOfMemory>
    requires { view_kind e.now.kind ≡ tree.Call (target.Library call) (exprs_of (map view_expr args.now)) }
    ensures { OnOk result (with_item (running_seen setting.entry) (item.Address strict (view_expr e.now))
        (seen evaluation.old) ≡ meant (running_seen setting.entry) (seen evaluation.new)) }
{
    if !is_printf(call) {
        let kinds = call_parameters(call);
        push_arguments(evaluation, strict, e, Parameters::Library(kinds), args)?;
        return Ok(());
    }
    match args.split_first() {
        None => {
            evaluation.push_value(Value::Scalar(Scalar::Int(0)))?;
            Ok(())
        }
        Some((_, more)) => {
            push_arguments(evaluation, strict, e, Parameters::Promoted, more)?;
            Ok(())
        }
    }
}
