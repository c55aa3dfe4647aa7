//! Calls of functions of the source (C99 6.5.2.2, 6.9.1).

ghost use Rattle.std.specs.Prelude.{◌≡◌, ◌-◌, ◌<◌, IfOk, OnOk};
ghost use Rattle.upc_types.specs.View.{view};
ghost use Rattle.upc_types.specs.ViewStructs.{view_structs};
ghost use Rattle.typed_tree.specs.ViewStatements.{view_function};
ghost use Rattle.source_meaning.specs.Threads as mean;
ghost use Rattle.source_meaning.specs.layer.Parts as parts;
ghost use Rattle.source_meaning.specs.Types as types;
ghost use Rattle.upc_meaning_settings.specs.layer.Runners.{Fits};
ghost use Rattle.upc_meaning_settings.specs.layer.Settings.{running_seen};
ghost use Rattle.upc_meaning_work.specs.layer.Seen.{entered, entering, inside, meant, with_item};
ghost use Rattle.upc_meaning_work.specs.layer.Items as item;
ghost use Rattle.upc_meaning_work.specs.layer.ViewItems.{flow_seen};
ghost use Rattle.upc_meaning_work.specs.layer.Evaluations.{Went, seen};

use crate::bodies;
use meaning_types::cell_kind;
use typed_tree::Function;
use upc_meaning_state::{Setting, Step};
use upc_meaning_work::{Evaluation, Flow, Work};
use upc_text::{OutOfMemory, Place};
use upc_types::CType;
use upc_values::{Scalar, Value, blank_value};

/// What a function with this result gives that ends without `return`: 0 or null.
pub fn blank_of(setting: Setting<'_>, t: &CType) -> Value
    ensures { result ≡ mean.blank_of (types.cell_kind (view_structs setting.entry.structs.now) (view t.now)) }
{
    match cell_kind(setting.structs, t) {
        Some(kind) => blank_value(kind),
        None => Value::Scalar(Scalar::Int(0)),
    }
}

// What a body gives by how it was left.
fn given_by(blank: Value, flow: Flow) -> Value
    ensures { result ≡ parts.given_by blank (flow_seen flow) }
{
    match flow {
        Flow::Gave(v) => v,
        _ => blank,
    }
}

/// The evaluation goes on inside a call, which gives this where it ends without `return`.
pub fn push_return<'p>(evaluation: &mut Evaluation<'p>, blank: Value) -> Result<(), OutOfMemory>
    requires { 0 < evaluation.old.free }
    ensures { OnOk result (seen evaluation.new ≡ inside (evaluation.old.free - 1) blank (seen evaluation.old)) }
{
    evaluation.push_one(Work::Return(evaluation.flow, blank))?;
    evaluation.flow = Flow::Next;
    evaluation.free -= 1;
    Ok(())
}

/// The end of a call, after a statement that was left so.
#[tactic(auto, using(upc_meaning_work::proofs::Enters::returns_of))]
pub fn come_back<'p>(
    evaluation: &mut Evaluation<'p>,
    setting: Setting<'p>,
    saved: Flow,
    blank: Value,
) -> Result<(), OutOfMemory>
    ensures { OnOk result (with_item (running_seen setting.entry) (item.Return (flow_seen saved) blank)
        (seen evaluation.old) ≡ meant (running_seen setting.entry) (seen evaluation.new)) }
{
    if evaluation.free == usize::MAX {
        return Err(OutOfMemory);
    }
    evaluation.progress.end_call();
    evaluation.push_value(given_by(blank, evaluation.flow))?;
    evaluation.flow = saved;
    evaluation.free += 1;
    Ok(())
}

/// The body of a function, with these arguments.
pub fn function_body<'p>(
    evaluation: &mut Evaluation<'p>,
    setting: Setting<'p>,
    function: &'p Function,
    args: &[Value],
) -> Result<Step<()>, OutOfMemory>
    requires { Fits setting.runner }
    ensures { IfOk result (λ s. Went (running_seen setting.entry) (entered (running_seen setting.entry)
        (view_function function.now) args.now (seen evaluation.old)) s evaluation.new) }
{
    bodies::run_body(evaluation, setting, function, args)
}

/// A call of a function, by its number, with these arguments.
#[tactic(auto, using(upc_meaning_work::proofs::Enters::enterings))]
pub(crate) fn enter<'p>(
    evaluation: &mut Evaluation<'p>,
    setting: Setting<'p>,
    number: u32,
    args: &[Value],
    place: Place,
) -> Result<Step<()>, OutOfMemory>
    requires { Fits setting.runner }
    ensures { IfOk result (λ s. Went (running_seen setting.entry) (entering (running_seen setting.entry) number
        args.now place (seen evaluation.old)) s evaluation.new) }
{
    if evaluation.free == 0 {
        return Err(OutOfMemory);
    }
    match evaluation.progress.tick(setting.runner)? {
        Step::Ends(end) => Ok(Step::Ends(end)),
        Step::Gives(()) => match evaluation.progress.begin_call(place)? {
            Step::Ends(end) => Ok(Step::Ends(end)),
            Step::Gives(()) => match setting.functions.get(number as usize) {
                None => {
                    push_return(evaluation, Value::Scalar(Scalar::Int(0)))?;
                    Ok(Step::Gives(()))
                }
                Some(function) => {
                    push_return(evaluation, blank_of(setting, &function.result))?;
                    function_body(evaluation, setting, function, args)
                }
            },
        },
    }
}
