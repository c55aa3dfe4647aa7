//! Blocks, the heads of loops, and the initial values of objects, item by item (C99 6.7.8, 6.8.2, 6.8.5).

ghost use Rattle.std.specs.Prelude.{◌≡◌, ◌∷◌, [], IfOk, OnOk, map};
ghost use Rattle.upc_types.specs.View.{view};
ghost use Rattle.typed_tree.specs.Tree as tree;
ghost use Rattle.typed_tree.specs.Tree.{AndExpr, Stands, exprs_of};
ghost use Rattle.typed_tree.specs.ViewTree.{view_expr};
ghost use Rattle.typed_tree.specs.ViewStatements as views;
ghost use Rattle.source_meaning.specs.Statements as mean;
ghost use Rattle.source_meaning.specs.layer.Parts as parts;
ghost use Rattle.source_meaning.specs.Types as types;
ghost use Rattle.upc_meaning_settings.specs.layer.Runners.{Fits};
ghost use Rattle.upc_meaning_settings.specs.layer.Settings.{running_seen};
ghost use Rattle.upc_meaning_work.specs.layer.Seen.{headed, meant, more_works, with_item};
ghost use Rattle.upc_meaning_work.specs.layer.Items as item;
ghost use Rattle.upc_meaning_work.specs.layer.ViewItems.{view_standing};
ghost use Rattle.upc_meaning_work.specs.layer.Evaluations.{Went, seen};
ghost use Rattle.upc_meaning_statements.specs.code.Entries.{BlockWent, HeadWent};

use meaning_types::{conversion, element_type};
use typed_tree::{Expr, Head, Initial, Item, Object, StatementKind};
use upc_meaning_state::{Setting, Shapes, Step};
use upc_meaning_work::{Evaluation, Flow, Standing, Work, with_objects, with_strict};
use upc_text::{OutOfMemory, Place};
use upc_types::CType;

// A block is entered where there is room for its objects.
fn enter_block<'p>(
    evaluation: &mut Evaluation<'p>,
    setting: Setting<'p>,
    standing: Standing<'p>,
    place: Place,
    strict: bool,
    items: &'p [Item],
) -> Result<Step<()>, OutOfMemory>
    ensures { IfOk result (λ s. BlockWent standing.entry.count
        (mean.shapes_of (running_seen setting.entry) (mean.objects_in (views.view_items items.now))) place
        (item.Parts (parts.with_strict strict (view_standing standing.entry)) (views.view_items items.now)
        ∷ item.Leave ∷ []) (seen evaluation.old) s evaluation.new) }
{
    let mut shapes = Shapes::new(setting.runner.alloc);
    shapes.push_items(setting, items)?;
    match evaluation
        .progress
        .open_block(standing.count, shapes.items.as_slice(), place)?
    {
        Step::Ends(end) => Ok(Step::Ends(end)),
        Step::Gives(()) => {
            evaluation.leave_so(Flow::Next);
            evaluation.push_two(
                Work::Leave,
                Work::Parts(with_strict(strict, standing), items),
            )?;
            Ok(Step::Gives(()))
        }
    }
}

/// A block.
pub fn block<'p>(
    evaluation: &mut Evaluation<'p>,
    setting: Setting<'p>,
    standing: Standing<'p>,
    place: Place,
    strict: bool,
    items: &'p [Item],
) -> Result<Step<()>, OutOfMemory>
    ensures { IfOk result (λ s. Went (running_seen setting.entry) (with_item (running_seen setting.entry)
        (item.Run (view_standing standing.entry) (Stands place (tree.Block strict (views.view_items items.now))))
        (seen evaluation.old)) s evaluation.new) }
{
    enter_block(evaluation, setting, standing, place, strict, items)
}

// What is left to do after the entry of a loop's block.
fn push_head<'p>(
    evaluation: &mut Evaluation<'p>,
    setting: Setting<'p>,
    standing: Standing<'p>,
    head: &'p Head,
    kind: &'p StatementKind,
) -> Result<(), OutOfMemory>
    ensures { OnOk result (seen evaluation.new ≡ headed (view_standing standing.entry) (views.view_head head.now)
        (views.view_statement_kind kind.now) setting.entry.runner.budget (seen evaluation.old)) }
{
    let inside = with_objects(head.objects.as_slice(), standing)?;
    evaluation.push_two(Work::Leave, Work::Turn(inside, kind, setting.runner.budget))?;
    evaluation.push_aside(standing, &head.first)?;
    evaluation.push_one(Work::Declare(standing, head.objects.as_slice()))
}

// Its block is entered where there is room for its objects.
fn enter_loop<'p>(
    evaluation: &mut Evaluation<'p>,
    setting: Setting<'p>,
    standing: Standing<'p>,
    place: Place,
    head: &'p Head,
    kind: &'p StatementKind,
) -> Result<Step<()>, OutOfMemory>
    ensures { IfOk result (λ s. HeadWent (running_seen setting.entry) (view_standing standing.entry)
        (views.view_head head.now) (views.view_statement_kind kind.now) place (seen evaluation.old) s evaluation.new) }
{
    let mut shapes = Shapes::new(setting.runner.alloc);
    shapes.push_objects(setting, head.objects.as_slice())?;
    match evaluation
        .progress
        .open_block(standing.count, shapes.items.as_slice(), place)?
    {
        Step::Ends(end) => Ok(Step::Ends(end)),
        Step::Gives(()) => {
            push_head(evaluation, setting, standing, head, kind)?;
            Ok(Step::Gives(()))
        }
    }
}

/// A loop with a head.
#[tactic(auto, using(upc_meaning_work::proofs::Declaring::heads))]
pub fn headed<'p>(
    evaluation: &mut Evaluation<'p>,
    setting: Setting<'p>,
    standing: Standing<'p>,
    place: Place,
    kind: &'p StatementKind,
) -> Result<Step<()>, OutOfMemory>
    ensures { IfOk result (λ s. Went (running_seen setting.entry) (with_item (running_seen setting.entry)
        (item.Run (view_standing standing.entry) (Stands place (views.view_statement_kind kind.now)))
        (seen evaluation.old)) s evaluation.new) }
{
    match kind {
        StatementKind::For(head, _) => enter_loop(evaluation, setting, standing, place, head, kind),
        StatementKind::Forall(head, _, _) => enter_loop(
            evaluation, setting, standing, place, head, kind,
        ),
        _ => Err(OutOfMemory),
    }
}

// Where an object is, and then its value.
fn push_initial<'p>(
    evaluation: &mut Evaluation<'p>,
    setting: Setting<'p>,
    strict: bool,
    object: &'p Object,
    t: &'p CType,
    e: &'p Expr,
) -> Result<(), OutOfMemory>
    ensures { OnOk result (seen evaluation.new ≡ more_works (item.Value strict (view_expr e.now)
        ∷ item.Convert (types.conversion (view e.now.attr.ctype) (view t.now)) e.now.place
        ∷ item.Keep strict object.now.place (view t.now) ∷ []) (seen evaluation.old)) }
{
    evaluation.push_three(
        Work::Keep(strict, object.place, t),
        Work::Convert(conversion(&e.attr.ctype, t), e.place),
        Work::Value(strict, e),
    )
}

// The initial value of an object, and then those of others.
#[tactic(auto, using(upc_meaning_work::proofs::Declaring::initials))]
fn declare_one<'p>(
    evaluation: &mut Evaluation<'p>,
    setting: Setting<'p>,
    standing: Standing<'p>,
    object: &'p Object,
    more: &'p [Object],
) -> Result<(), OutOfMemory>
    ensures { OnOk result (with_item (running_seen setting.entry) (item.Declare (view_standing standing.entry)
        (views.view_object object.now ∷ map views.view_object more.now)) (seen evaluation.old)
        ≡ meant (running_seen setting.entry) (seen evaluation.new)) }
{
    match &object.initial {
        Initial::Absent => evaluation.push_one(Work::Declare(standing, more)),
        Initial::Value(e) => {
            let place = evaluation.progress.object(setting, object.home);
            evaluation.push_value(place)?;
            evaluation.push_one(Work::Declare(standing, more))?;
            push_initial(
                evaluation,
                setting,
                standing.strict,
                object,
                &object.ctype,
                e,
            )?;
            Ok(())
        }
        Initial::List(values) => evaluation.push_two(
            Work::Declare(standing, more),
            Work::Listed {
                standing,
                object,
                index: 0,
                values: values.as_slice(),
            },
        ),
    }
}

/// Initial values of objects.
#[tactic(auto, using(upc_meaning_work::proofs::Declaring::initials))]
pub fn declare<'p>(
    evaluation: &mut Evaluation<'p>,
    setting: Setting<'p>,
    standing: Standing<'p>,
    objects: &'p [Object],
) -> Result<(), OutOfMemory>
    ensures { OnOk result (with_item (running_seen setting.entry) (item.Declare (view_standing standing.entry)
        (map views.view_object objects.now)) (seen evaluation.old)
        ≡ meant (running_seen setting.entry) (seen evaluation.new)) }
{
    match objects.split_first() {
        None => Ok(()),
        Some((object, more)) => declare_one(evaluation, setting, standing, object, more),
    }
}

// The element of an array that comes next, and then the others.
#[tactic(auto, using(upc_meaning_work::proofs::Declaring::elements))]
fn list_one<'p>(
    evaluation: &mut Evaluation<'p>,
    setting: Setting<'p>,
    standing: Standing<'p>,
    object: &'p Object,
    index: usize,
    e: &'p Expr,
    more: &'p [Expr],
) -> Result<Step<()>, OutOfMemory>
    requires { Fits setting.runner }
    ensures { IfOk result (λ s. Went (running_seen setting.entry) (with_item (running_seen setting.entry)
        (item.Listed (view_standing standing.entry) (views.view_object object.now) index
        (AndExpr (view_expr e.now) (exprs_of (map view_expr more.now)))) (seen evaluation.old)) s evaluation.new) }
{
    if index == usize::MAX {
        return Err(OutOfMemory);
    }
    let t = element_type(&object.ctype);
    let start = evaluation.progress.object(setting, object.home);
    match evaluation
        .progress
        .behind(setting, object.place, t, start, index as i128)?
    {
        Step::Ends(end) => Ok(Step::Ends(end)),
        Step::Gives(place) => {
            evaluation.push_value(place)?;
            evaluation.push_one(Work::Listed {
                standing,
                object,
                index: index + 1,
                values: more,
            })?;
            push_initial(evaluation, setting, standing.strict, object, t, e)?;
            Ok(Step::Gives(()))
        }
    }
}

/// The elements of an array from one on.
#[tactic(auto, using(upc_meaning_work::proofs::Declaring::elements))]
pub fn listed<'p>(
    evaluation: &mut Evaluation<'p>,
    setting: Setting<'p>,
    standing: Standing<'p>,
    object: &'p Object,
    index: usize,
    values: &'p [Expr],
) -> Result<Step<()>, OutOfMemory>
    requires { Fits setting.runner }
    ensures { IfOk result (λ s. Went (running_seen setting.entry) (with_item (running_seen setting.entry)
        (item.Listed (view_standing standing.entry) (views.view_object object.now) index
        (exprs_of (map view_expr values.now))) (seen evaluation.old)) s evaluation.new) }
{
    match values.split_first() {
        None => Ok(Step::Gives(())),
        Some((e, more)) => list_one(evaluation, setting, standing, object, index, e, more),
    }
}

/// A value for the object of a type at a place.
#[tactic(auto, using(upc_meaning_work::proofs::Declaring::keeps))]
pub fn keep<'p>(
    evaluation: &mut Evaluation<'p>,
    setting: Setting<'p>,
    strict: bool,
    place: Place,
    t: &CType,
) -> Result<Step<()>, OutOfMemory>
    requires { Fits setting.runner }
    ensures { IfOk result (λ s. Went (running_seen setting.entry) (with_item (running_seen setting.entry)
        (item.Keep strict place (view t.now)) (seen evaluation.old)) s evaluation.new) }
{
    let v = evaluation.pop_value();
    let p = evaluation.pop_value();
    match evaluation.progress.put(setting, strict, place, t, p, v)? {
        Step::Ends(end) => Ok(Step::Ends(end)),
        Step::Gives(()) => Ok(Step::Gives(())),
    }
}
