//! Expressions, item by item (C99 6.5, UPC 6.4).

ghost use Rattle.std.specs.Prelude.{◌≡◌, ◌∷◌, [], IsTrue, IfOk, OnOk, map};
ghost use Rattle.upc_types.specs.View.{view};
ghost use Rattle.typing_rules.specs.Nodes.{view_attr};
ghost use Rattle.typed_tree.specs.Tree as tree;
ghost use Rattle.typed_tree.specs.Tree.{exprs_of};
ghost use Rattle.typed_tree.specs.ViewTree.{view_expr, view_kind};
ghost use Rattle.source_meaning.specs.Types as types;
ghost use Rattle.upc_meaning_settings.specs.layer.Runners.{Fits};
ghost use Rattle.upc_meaning_settings.specs.layer.Settings.{running_seen};
ghost use Rattle.upc_meaning_work.specs.layer.Seen.{meant, more_works, with_item};
ghost use Rattle.upc_meaning_work.specs.layer.Items as item;
ghost use Rattle.upc_meaning_work.specs.layer.Left.{decides, is_unary, takes_two};
ghost use Rattle.upc_meaning_work.specs.layer.Evaluations.{Went, seen};

use crate::calls;
use meaning_types::{conversion, inner_place, known_or_zero};
use thread_steps::CastTo;
use thread_values::{is_zero, truth_value};
use typed_tree::{Expr, ExprKind};
use typing_rules::Attr;
use upc_meaning_state::{Setting, Step};
use upc_meaning_work::{Evaluation, Work};
use upc_text::{OutOfMemory, Place};
use upc_types::CType;
use upc_values::Value;

/// The value of an expression.
#[tactic(auto, using(upc_meaning_work::proofs::Arms::arms))]
pub fn value<'p>(
    evaluation: &mut Evaluation<'p>,
    setting: Setting<'p>,
    strict: bool,
    e: &'p Expr,
) -> Result<(), OutOfMemory>
    ensures { OnOk result (with_item (running_seen setting.entry) (item.Value strict (view_expr e.now))
        (seen evaluation.old) ≡ meant (running_seen setting.entry) (seen evaluation.new)) }
{
    evaluation.push_two(
        Work::Hold(strict, inner_place(e), &e.attr),
        Work::Address(strict, e),
    )
}

/// The value of the object at a place, where an expression names one.
#[tactic(auto, unfolding(upc_meaning_work::specs::layer::Seen::with_item, upc_meaning_work::specs::layer::Seen::meant))]
pub fn hold<'p>(
    evaluation: &mut Evaluation<'p>,
    setting: Setting<'p>,
    strict: bool,
    place: Place,
    attr: &Attr,
) -> Result<Step<()>, OutOfMemory>
    requires { Fits setting.runner }
    ensures { IfOk result (λ s. Went (running_seen setting.entry)
        (with_item (running_seen setting.entry) (item.Hold strict place (view_attr attr.now)) (seen evaluation.old)) s
        evaluation.new) }
{
    let p = evaluation.values.pop();
    match evaluation
        .progress
        .value_in(setting, strict, place, attr, p)?
    {
        Step::Ends(end) => Ok(Step::Ends(end)),
        Step::Gives(v) => {
            evaluation.values.push(v)?;
            Ok(Step::Gives(()))
        }
    }
}

/// The place of what an expression names, or its value.
#[tactic(auto, using(upc_meaning_work::proofs::Arms::arms))]
pub fn address<'p>(
    evaluation: &mut Evaluation<'p>,
    setting: Setting<'p>,
    strict: bool,
    e: &'p Expr,
) -> Result<(), OutOfMemory>
    ensures { OnOk result (with_item (running_seen setting.entry) (item.Address strict (view_expr e.now))
        (seen evaluation.old) ≡ meant (running_seen setting.entry) (seen evaluation.new)) }
{
    match &e.kind {
        ExprKind::Literal => evaluation.push_number(known_or_zero(e.attr.constant)),
        ExprKind::SizeOf(_, _) => evaluation.push_number(known_or_zero(e.attr.constant)),
        ExprKind::SizeOfType(_, _) => evaluation.push_number(known_or_zero(e.attr.constant)),
        ExprKind::Mythread => evaluation.push_number(i128::from(setting.runner.number)),
        ExprKind::Object(home) => {
            let place = evaluation.progress.object(setting, *home);
            evaluation.push_value(place)
        }
        ExprKind::Callee(_) => evaluation.push_number(0),
        ExprKind::Format(_) => evaluation.push_number(0),
        ExprKind::Paren(a) => evaluation.push_one(Work::Address(strict, a)),
        ExprKind::Address(a) => evaluation.push_one(Work::Address(strict, a)),
        ExprKind::Dereference(a) => evaluation.push_one(Work::Value(strict, a)),
        ExprKind::Call(target, args) => {
            calls::call(evaluation, setting, strict, e, *target, args.as_slice())
        }
        ExprKind::Comma(parts) => comma(evaluation, setting, strict, e, parts.as_slice()),
        ExprKind::And(_, _) | ExprKind::Or(_, _) | ExprKind::Conditional(_, _, _) => {
            deciding(evaluation, setting, strict, e)
        }
        ExprKind::Subscript(_, _)
        | ExprKind::Binary(_, _, _)
        | ExprKind::Assign(_, _)
        | ExprKind::Compound(_, _, _) => two_operands(evaluation, setting, strict, e),
        ExprKind::Member(_, _)
        | ExprKind::MemberBehind(_, _)
        | ExprKind::Step(_, _)
        | ExprKind::Unary(_, _)
        | ExprKind::Cast(_) => one_operand(evaluation, setting, strict, e),
    }
}

// The operand of an operator on one, and then the operator.
#[tactic(auto, using(upc_meaning_work::proofs::Arms::arms))]
fn one_operand<'p>(
    evaluation: &mut Evaluation<'p>,
    setting: Setting<'p>,
    strict: bool,
    e: &'p Expr,
) -> Result<(), OutOfMemory>
    requires { IsTrue (is_unary (view_expr e.now)) }
    ensures { OnOk result (with_item (running_seen setting.entry) (item.Address strict (view_expr e.now))
        (seen evaluation.old) ≡ meant (running_seen setting.entry) (seen evaluation.new)) }
{
    let after = Work::Operate(strict, e);
    match &e.kind {
        ExprKind::Member(a, _) => evaluation.push_two(after, Work::Address(strict, a)),
        ExprKind::Step(_, a) => evaluation.push_two(after, Work::Address(strict, a)),
        ExprKind::MemberBehind(a, _) => evaluation.push_two(after, Work::Value(strict, a)),
        ExprKind::Unary(_, a) => evaluation.push_two(after, Work::Value(strict, a)),
        ExprKind::Cast(a) => evaluation.push_two(after, Work::Value(strict, a)),
        _ => unreachable!(),
    }
}

// The operands of an operator on two, and then the operator.
#[tactic(auto, using(upc_meaning_work::proofs::Arms::arms))]
fn two_operands<'p>(
    evaluation: &mut Evaluation<'p>,
    setting: Setting<'p>,
    strict: bool,
    e: &'p Expr,
) -> Result<(), OutOfMemory>
    requires { IsTrue (takes_two (view_expr e.now)) }
    ensures { OnOk result (with_item (running_seen setting.entry) (item.Address strict (view_expr e.now))
        (seen evaluation.old) ≡ meant (running_seen setting.entry) (seen evaluation.new)) }
{
    let after = Work::Operate(strict, e);
    match &e.kind {
        ExprKind::Subscript(a, b) => {
            evaluation.push_three(after, Work::Value(strict, b), Work::Value(strict, a))
        }
        ExprKind::Binary(_, a, b) => {
            evaluation.push_three(after, Work::Value(strict, b), Work::Value(strict, a))
        }
        ExprKind::Assign(a, b) => {
            evaluation.push_three(after, Work::Value(strict, b), Work::Address(strict, a))
        }
        ExprKind::Compound(_, a, b) => {
            evaluation.push_three(after, Work::Value(strict, b), Work::Address(strict, a))
        }
        _ => unreachable!(),
    }
}

// The operand that decides what is done, and then what follows it.
#[tactic(auto, using(upc_meaning_work::proofs::Arms::arms))]
fn deciding<'p>(
    evaluation: &mut Evaluation<'p>,
    setting: Setting<'p>,
    strict: bool,
    e: &'p Expr,
) -> Result<(), OutOfMemory>
    requires { IsTrue (decides (view_expr e.now)) }
    ensures { OnOk result (with_item (running_seen setting.entry) (item.Address strict (view_expr e.now))
        (seen evaluation.old) ≡ meant (running_seen setting.entry) (seen evaluation.new)) }
{
    let after = Work::Branch(strict, e);
    match &e.kind {
        ExprKind::And(a, _) => evaluation.push_two(after, Work::Value(strict, a)),
        ExprKind::Or(a, _) => evaluation.push_two(after, Work::Value(strict, a)),
        ExprKind::Conditional(a, _, _) => evaluation.push_two(after, Work::Value(strict, a)),
        _ => unreachable!(),
    }
}

// Some expressions, whose last gives the value.
#[tactic(auto, using(upc_meaning_work::proofs::Branches::comma_is))]
fn comma<'p>(
    evaluation: &mut Evaluation<'p>,
    setting: Setting<'p>,
    strict: bool,
    e: &'p Expr,
    parts: &'p [Expr],
) -> Result<(), OutOfMemory>
    requires { view_kind e.now.kind ≡ tree.Comma (exprs_of (map view_expr parts.now)) }
    ensures { OnOk result (with_item (running_seen setting.entry) (item.Address strict (view_expr e.now))
        (seen evaluation.old) ≡ meant (running_seen setting.entry) (seen evaluation.new)) }
{
    evaluation.push_number(0)?;
    evaluation.push_one(Work::Last(strict, parts))
}

/// The operator of an expression whose operands have their values.
#[tactic(auto, unfolding(upc_meaning_work::specs::layer::Seen::with_item, upc_meaning_work::specs::layer::Seen::meant))]
pub fn operate<'p>(
    evaluation: &mut Evaluation<'p>,
    setting: Setting<'p>,
    strict: bool,
    e: &Expr,
) -> Result<Step<()>, OutOfMemory>
    requires { Fits setting.runner }
    ensures { IfOk result (λ s. Went (running_seen setting.entry)
        (with_item (running_seen setting.entry) (item.Operate strict (view_expr e.now)) (seen evaluation.old)) s
        evaluation.new) }
{
    let (x, y) = evaluation.values.take_operands(takes_two(e));
    match evaluation.progress.operated(setting, strict, e, x, y)? {
        Step::Ends(end) => Ok(Step::Ends(end)),
        Step::Gives(v) => {
            evaluation.values.push(v)?;
            Ok(Step::Gives(()))
        }
    }
}

// The value of an expression, converted into a type.
fn push_converted<'p>(
    evaluation: &mut Evaluation<'p>,
    strict: bool,
    t: &CType,
    a: &'p Expr,
) -> Result<(), OutOfMemory>
    ensures { OnOk result (seen evaluation.new ≡ more_works (item.Value strict (view_expr a.now)
        ∷ item.Convert (types.conversion (view a.now.attr.ctype) (view t.now)) a.now.place ∷ [])
        (seen evaluation.old)) }
{
    evaluation.push_two(
        Work::Convert(conversion(&a.attr.ctype, t), a.place),
        Work::Value(strict, a),
    )
}

/// What follows a first operand that decides what is done.
#[tactic(auto, using(upc_meaning_work::proofs::Branches::branches))]
pub fn branch<'p>(
    evaluation: &mut Evaluation<'p>,
    setting: Setting<'p>,
    strict: bool,
    e: &'p Expr,
) -> Result<(), OutOfMemory>
    ensures { OnOk result (with_item (running_seen setting.entry) (item.Branch strict (view_expr e.now))
        (seen evaluation.old) ≡ meant (running_seen setting.entry) (seen evaluation.new)) }
{
    let x = evaluation.pop_value();
    let is_zero = is_zero(&x);
    match &e.kind {
        ExprKind::And(_, b) => {
            if is_zero {
                evaluation.push_number(0)
            } else {
                evaluation.push_two(Work::Truth, Work::Value(strict, b))
            }
        }
        ExprKind::Or(_, b) => {
            if is_zero {
                evaluation.push_two(Work::Truth, Work::Value(strict, b))
            } else {
                evaluation.push_number(1)
            }
        }
        ExprKind::Conditional(_, a, b) => {
            if is_zero {
                push_converted(evaluation, strict, &e.attr.ctype, b)
            } else {
                push_converted(evaluation, strict, &e.attr.ctype, a)
            }
        }
        _ => Err(OutOfMemory),
    }
}

/// 1 for a value that is not 0, else 0.
#[tactic(auto, unfolding(upc_meaning_work::specs::layer::Seen::with_item, upc_meaning_work::specs::layer::Seen::meant))]
pub fn truth<'p>(evaluation: &mut Evaluation<'p>, setting: Setting<'p>) -> Result<(), OutOfMemory>
    ensures { OnOk result (with_item (running_seen setting.entry) item.Truth (seen evaluation.old)
        ≡ meant (running_seen setting.entry) (seen evaluation.new)) }
{
    let x = evaluation.values.pop();
    evaluation.values.push(truth_value(!is_zero(&x)))
}

/// A value, converted.
#[tactic(auto, unfolding(upc_meaning_work::specs::layer::Seen::with_item, upc_meaning_work::specs::layer::Seen::meant))]
pub fn convert<'p>(
    evaluation: &mut Evaluation<'p>,
    setting: Setting<'p>,
    into: CastTo,
    place: Place,
) -> Result<Step<()>, OutOfMemory>
    ensures { IfOk result (λ s. Went (running_seen setting.entry)
        (with_item (running_seen setting.entry) (item.Convert into place) (seen evaluation.old)) s evaluation.new) }
{
    let v = evaluation.values.pop();
    match evaluation.progress.cast(setting.runner, into, place, v)? {
        Step::Ends(end) => Ok(Step::Ends(end)),
        Step::Gives(w) => {
            evaluation.values.push(w)?;
            Ok(Step::Gives(()))
        }
    }
}

/// The value of the last of some expressions, of which a first has its value.
#[tactic(auto, using(upc_meaning_work::proofs::Arms::arms))]
pub fn last<'p>(
    evaluation: &mut Evaluation<'p>,
    setting: Setting<'p>,
    strict: bool,
    parts: &'p [Expr],
) -> Result<(), OutOfMemory>
    ensures { OnOk result (with_item (running_seen setting.entry)
        (item.Last strict (exprs_of (map view_expr parts.now))) (seen evaluation.old)
        ≡ meant (running_seen setting.entry) (seen evaluation.new)) }
{
    let v = evaluation.pop_value();
    match parts.split_first() {
        None => {
            evaluation.push_value(v)?;
            Ok(())
        }
        Some((first, more)) => {
            evaluation.push_two(Work::Last(strict, more), Work::Value(strict, first))?;
            Ok(())
        }
    }
}

// Whether an operator takes two operands.
fn takes_two(e: &Expr) -> bool
    ensures { result ≡ takes_two (view_expr e.now) }
{
    matches!(
        &e.kind,
        ExprKind::Subscript(_, _)
            | ExprKind::Binary(_, _, _)
            | ExprKind::Assign(_, _)
            | ExprKind::Compound(_, _, _)
    )
}
