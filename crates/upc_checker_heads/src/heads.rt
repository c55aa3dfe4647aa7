//! Heads of statements: what stands around them, their expressions, the heads of loops, and labels.

ghost use Rattle.std.specs.Prelude.{◌≡◌, ◌+◌, map, IfOk};
ghost use Rattle.upc_tree.specs.declared.span.Span.{Span};
ghost use Rattle.upc_tree.specs.layer.View.{view};
ghost use Rattle.upc_tree.specs.layer.ViewStatement as trees;
ghost use Rattle.typing_rules.specs.Attributes.{base};
ghost use Rattle.typing_rules.specs.Nodes as node;
ghost use Rattle.typing_rules.specs.Nodes.{view_attr};
ghost use Rattle.typed_tree.specs.Tree as typed;
ghost use Rattle.typing_rules.specs.Values.{base_kind};
ghost use Rattle.typed_tree.specs.layer.ViewEnv.{view_env};
ghost use Rattle.typed_tree.specs.ViewStatements.{view_affinity, view_head, view_object, view_switch_item, view_value};
ghost use Rattle.typed_tree.specs.ViewTree.{view_expr};
ghost use Rattle.typing_rules.specs.layer.Views.{view_around};
ghost use Rattle.upc_checker_scopes.specs.layer.Ends.{Meets, boxed};
ghost use Rattle.upc_checker_expressions.specs.Expressions as walks;
ghost use Rattle.upc_checker_heads.specs.Heads as pure;
ghost use Rattle.upc_checker_scopes.specs.layer.Views.{state_of, view_setting};
ghost use Rattle.upc_checker_scopes.specs.Walk.{andthen};

use std::alloc::Global;
use typed_tree::env::Env;
use typed_tree::{Affinity, Expr, Head, Object, SwitchItem, Synchronises};
use typing_rules::constants::label_kind;
use typing_rules::{Around, Attr, Constant, Enclosing, Use, kind_of};
use typing_rules_checks::statements as rules;
use upc_checker_declarations::declarations::walk_declaration;
use upc_checker_expressions::expressions::{constantly, walk};
use upc_checker_nodes::statement_parts::Headed;
use upc_checker_scopes::finish::judged;
use upc_checker_scopes::known::Known;
use upc_checker_scopes::setting::Setting;
use upc_checker_scopes::tags::Tags;
use upc_text::{OutOfMemory, Place, Stop};
use upc_tree::{BarrierWord, First, ForHead, ForallHead, Pragma, Span, Test};

// ---- what stands around

/// What stands around the body of a loop.
pub fn in_loop(around: Around<'_>) -> Around<'_>
    ensures { view_around result ≡ pure.in_loop (view_around around.entry) }
{
    Around {
        result: around.result,
        breaks: Enclosing::Loop,
        loops: true,
        forall: around.forall,
    }
}

/// What stands around the body of a `switch`.
pub fn in_switch(around: Around<'_>) -> Around<'_>
    ensures { view_around result ≡ pure.in_switch (view_around around.entry) }
{
    Around {
        result: around.result,
        breaks: Enclosing::Switch,
        loops: around.loops,
        forall: around.forall,
    }
}

/// What stands around the body of a `upc_forall`.
pub fn in_forall(around: Around<'_>) -> Around<'_>
    ensures { view_around result ≡ pure.in_forall (view_around around.entry) }
{
    Around {
        result: around.result,
        breaks: Enclosing::Forall,
        loops: true,
        forall: true,
    }
}

/// Whether accesses are strict after these pragmas (UPC 6.7).
pub fn strict_behind(before: bool, pragmas: &[Pragma]) -> bool
    ensures { result ≡ pure.strict_behind before pragmas.now }
{
    let mut strict = before;
    for pragma in pragmas {
        strict = pragma.strict;
    }
    strict
}

/// Which barrier statement a word begins (UPC 6.6.1).
pub fn synchronises(word: BarrierWord) -> Synchronises
    ensures { result ≡ pure.synchronises word }
{
    match word {
        BarrierWord::Notify => Synchronises::Notify,
        BarrierWord::Wait => Synchronises::Wait,
        BarrierWord::Barrier => Synchronises::Barrier,
    }
}

// ---- expressions of statements

/// The expression of a statement, if it has one.
pub fn walk_value(
    value: &Option<Box<upc_tree::Expr>>,
    setting: Setting<'_>,
    env: &Env<'_>,
    tags: &mut Tags<'_>,
    known: &mut Known,
) -> Result<Option<Box<Expr>>, Stop>
    ensures { Meets view_value (pure.walk_value (view_setting setting.entry) (view_env env.now)
        (trees.view_value value.now) (state_of tags.old known.old)) (state_of tags.new known.new)
        result }
{
    match value {
        None => Ok(None),
        Some(value) => {
            let a = walk(value, Use::Plain, setting, env, tags, known)?;
            Ok(Some(a))
        }
    }
}

/// The controlling expression of a statement, in its parentheses.
pub fn walk_test(
    test: &Test,
    setting: Setting<'_>,
    env: &Env<'_>,
    tags: &mut Tags<'_>,
    known: &mut Known,
) -> Result<Box<Expr>, Stop>
    ensures { Meets (boxed view_expr) (pure.walk_test (view_setting setting.entry) (view_env
        env.now) (trees.view_test test.now) (state_of tags.old known.old)) (state_of tags.new
        known.new) result }
{
    walk(&test.value, Use::Plain, setting, env, tags, known)
}

/// What a `return` gives converts into the result of the function.
pub fn walk_returned(
    value: &Option<Box<upc_tree::Expr>>,
    around: Around<'_>,
    setting: Setting<'_>,
    env: &Env<'_>,
    tags: &mut Tags<'_>,
    known: &mut Known,
) -> Result<Option<Box<Expr>>, Stop>
    ensures { Meets view_value (pure.walk_returned (view_setting setting.entry) (view_env env.now)
        (view_around around.entry) (trees.view_value value.now) (state_of tags.old known.old))
        (state_of tags.new known.new) result }
{
    match value {
        None => Ok(None),
        Some(value) => {
            let a = walk(value, Use::Into(around.result), setting, env, tags, known)?;
            Ok(Some(a))
        }
    }
}

/// The place of an expression statement: that of its expression, or of its semicolon where it has none.
pub fn statement_place(value: &Option<Box<Expr>>, semicolon: Span) -> Place
    ensures { result ≡ pure.statement_place (view_value value.now) semicolon }
{
    match value {
        None => semicolon.place,
        Some(a) => a.place,
    }
}

// ---- the heads of loops

// What the first part of a loop declares, and its expression.
#[derive(Drop)]
struct Begun {
    objects: Vec<Object>,
    first: Option<Box<Expr>>,
}

fn walk_first(
    first: &First,
    setting: Setting<'_>,
    env: &mut Env<'_>,
    tags: &mut Tags<'_>,
    known: &mut Known,
) -> Result<Begun, Stop>
    ensures { Meets (λ b. record {
      scope = view_env env.new;
      objects = map view_object
          b.objects.items;
      first = view_value b.first;
    }) (pure.walk_first (view_setting setting.entry)
        (view_env env.old) (trees.view_first first.now) (state_of tags.old known.old)) (state_of
        tags.new known.new) result }
{
    match first {
        First::Expression { value, .. } => {
            let first = walk_value(value, setting, env, tags, known)?;
            let objects = Vec::new(setting.alloc);
            Ok(Begun { objects, first })
        }
        First::Declaration(declaration) => {
            let objects = walk_declaration(declaration, setting, env, tags, known)?;
            let first = None;
            Ok(Begun { objects, first })
        }
    }
}

// An affinity is judged at its expression (UPC 6.6.2).
fn walk_affinity(
    affinity: &upc_tree::Affinity,
    setting: Setting<'_>,
    env: &Env<'_>,
    tags: &mut Tags<'_>,
    known: &mut Known,
) -> Result<Affinity, Stop>
    ensures { Meets view_affinity (pure.walk_affinity (view_setting setting.entry) (view_env
        env.now) (trees.view_affinity affinity.now) (state_of tags.old known.old)) (state_of
        tags.new known.new) result }
{
    match affinity {
        upc_tree::Affinity::Absent | upc_tree::Affinity::Continue(_) => Ok(Affinity::All),
        upc_tree::Affinity::Value(value) => {
            let a = walk(value, Use::Plain, setting, env, tags, known)?;
            judged(rules::affinity(&a.attr), a.place)?;
            Ok(Affinity::Value(a))
        }
    }
}

// The parts of a head in a box.
fn boxed_head(
    alloc: Global,
    begun: Begun,
    test: Option<Box<Expr>>,
    step: Option<Box<Expr>>,
) -> Result<Box<Head>, OutOfMemory>
    ensures { IfOk result (λ h. view_head h.value
        ≡ record {
          objects = map view_object begun.objects.items;
          first = view_value begun.first;
          test = view_value test;
          step = view_value step;
        }) }
{
    let head = Head {
        objects: begun.objects,
        first: begun.first,
        test,
        step,
    };
    Ok(Box::new(alloc, head)?)
}

/// The head of a `for`: what its first part declares is in scope in the others.
pub fn walk_for_head(
    head: &ForHead,
    setting: Setting<'_>,
    env: &mut Env<'_>,
    tags: &mut Tags<'_>,
    known: &mut Known,
) -> Result<Box<Head>, Stop>
    ensures { Meets (λ h. record {
      scope = view_env env.new;
      head = view_head h.value;
      affinity =
          typed.Everyone;
    }) (pure.walk_for_head (view_setting setting.entry) (view_env env.old)
        (trees.view_for head.now) (state_of tags.old known.old)) (state_of tags.new known.new)
        result }
{
    let begun = walk_first(&head.first, setting, env, tags, known)?;
    let test = walk_value(&head.test, setting, env, tags, known)?;
    let step = walk_value(&head.step, setting, env, tags, known)?;
    let head = boxed_head(setting.alloc, begun, test, step)?;
    Ok(head)
}

/// The head of a `upc_forall`, with its affinity.
pub fn walk_forall_head(
    head: &ForallHead,
    setting: Setting<'_>,
    env: &mut Env<'_>,
    tags: &mut Tags<'_>,
    known: &mut Known,
) -> Result<Headed, Stop>
    ensures { Meets (λ h. record {
      scope = view_env env.new;
      head = view_head h.head.value;
      affinity
          = view_affinity h.affinity;
    }) (pure.walk_forall_head (view_setting setting.entry) (view_env
        env.old) (trees.view_forall head.now) (state_of tags.old known.old)) (state_of tags.new
        known.new) result }
{
    let begun = walk_first(&head.first, setting, env, tags, known)?;
    let test = walk_value(&head.test, setting, env, tags, known)?;
    let step = walk_value(&head.step, setting, env, tags, known)?;
    let affinity = walk_affinity(&head.affinity, setting, env, tags, known)?;
    let head = boxed_head(setting.alloc, begun, test, step)?;
    Ok(Headed { head, affinity })
}

// ---- switch

// The value with which a switch over this expression compares, 0 where the label is no integer constant.
fn label_value(a: &Attr, label: Constant) -> i128
    ensures { result ≡ pure.label_value (base_kind (base (view_attr a.now))) label }
{
    match label {
        Constant::Known(v) => label_kind(kind_of(a), v),
        _ => 0,
    }
}

/// A label, with the value that it compares with.
pub fn case_item(a: &Attr, label: Constant) -> SwitchItem
    ensures { (more : typed.SwitchItems) → view_switch_item result more ≡ typed.AndCase (pure.label_value
        (base_kind (base (view_attr a.now))) label) more }
{
    SwitchItem::Case(label_value(a, label))
}

/// The constant of a `case`.
pub fn walk_label(
    value: &upc_tree::Expr,
    setting: Setting<'_>,
    env: &Env<'_>,
    tags: &mut Tags<'_>,
    known: &mut Known,
) -> Result<Constant, Stop>
    ensures { Meets (λ l. l) (andthen (walks.walk (view_setting setting.entry) (view_env env.now)
        node.Plain (view value.now)) (λ a. walks.constantly (view_setting setting.entry) a) (state_of
        tags.old known.old)) (state_of tags.new known.new) result }
{
    let a = walk(value, Use::Plain, setting, env, tags, known)?;
    constantly(setting, &a)
}

/// One more than a count.
pub fn one_more(count: usize) -> Result<usize, OutOfMemory>
    ensures { IfOk result (λ n. n ≡ count + 1) }
{
    count.checked_add(1).ok_or(OutOfMemory)
}
