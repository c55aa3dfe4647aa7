//! Nodes of expressions, judged over their parts: what each is where it meets its rules.

ghost use Rattle.std.specs.Prelude.{◌≡◌, IfOk, map};
ghost use Rattle.upc_tree.specs.layer.View.{view};
ghost use Rattle.typing_rules.specs.Attributes as attributes;
ghost use Rattle.typing_rules.specs.Attributes.{Facts};
ghost use Rattle.typing_rules.specs.Nodes as node;
ghost use Rattle.typing_rules.specs.Nodes.{view_attr};
ghost use Rattle.typing_rules.specs.Values.{base_target};
ghost use Rattle.typed_tree.specs.Tree.{exprs_of, attrs_of};
ghost use Rattle.typed_tree.specs.ViewTree.{view_expr};
ghost use Rattle.typing_rules.specs.layer.Views.{view_formed, view_meaning, view_use};
ghost use Rattle.upc_checker_nodes.specs.Called as calls;
ghost use Rattle.upc_checker_nodes.specs.Parts as walks;
ghost use Rattle.upc_checker_nodes.specs.code.ViewJudged.{JudgesMember};
ghost use Rattle.upc_checker_scopes.specs.layer.Finishes.{Judges};
ghost use Rattle.upc_checker_scopes.specs.layer.Views.{facts_of, view_setting};

use crate::called::runs;
use crate::calls;
use crate::parts::{format_in, last_of};
use integers::{BinOp, UnOp};
use std::alloc::Global;
use typed_tree::Expr;
use typing_rules::{Attr, Formed, Meaning, SizeOperator, Use};
use typing_rules_checks::reached::MemberNode;
use typing_rules_checks::{attributes, declarations, elements, members, reached, rules, sizes};
use upc_checker_scopes::finish::judged;
use upc_checker_scopes::known::Known;
use upc_checker_scopes::setting::Setting;
use upc_text::{Place, Stop};

/// A name that stands for this and is used so.
pub(crate) fn judge_name(how: Use<'_>, means: Meaning<'_>, at: Place) -> Result<Attr, Stop>
    ensures { (φ : Facts) → Judges φ at (node.Name (view_use how.entry) (view_meaning means.entry))
        result }
{
    judged(rules::name(how, means), at)?;
    let attr = attributes::name(means)?;
    Ok(attr)
}

/// A call, used so, of what has this meaning.
pub(crate) fn judge_call(
    setting: Setting<'_>,
    known: &Known,
    how: Use<'_>,
    means: Meaning<'_>,
    callee: &upc_tree::Expr,
    at: Place,
    args: &[Expr],
) -> Result<Attr, Stop>
    ensures { Judges (facts_of setting.entry known.now) at (node.Call (view_use how.entry)
        (view_meaning means.entry) (calls.runs (view_setting setting.entry) (view callee.now))
        (walks.format_in (exprs_of (map view_expr args.now))) (attrs_of (exprs_of (map view_expr
        args.now)))) result }
{
    let runs = runs(setting, callee);
    let rule = calls::call(&known.structs, how, means, runs, format_in(args), args);
    judged(rule, at)?;
    let attr = attributes::call(setting.alloc, how, means)?;
    Ok(attr)
}

/// `a.name`, with the number of the member.
pub(crate) fn judge_member_of(
    setting: Setting<'_>,
    known: &Known,
    a: &Expr,
    name: &[u8],
) -> Result<MemberNode, Stop>
    ensures { JudgesMember (facts_of setting.entry known.now) a.now.place (node.MemberOf (view_attr
        a.now.attr) name.now) (attributes.found_index (attributes.member_named (facts_of
        setting.entry known.now).structs (view_attr a.now.attr).ctype name.now)) result }
{
    judged(members::member_of(&known.structs, &a.attr, name), a.place)?;
    let member = reached::member_of(setting.alloc, &known.structs, &a.attr, name)?;
    Ok(member)
}

/// `a->name`, with the number of the member.
pub(crate) fn judge_member_behind(
    setting: Setting<'_>,
    known: &Known,
    a: &Expr,
    name: &[u8],
) -> Result<MemberNode, Stop>
    ensures { JudgesMember (facts_of setting.entry known.now) a.now.place (node.MemberBehind (view_attr
        a.now.attr) name.now) (attributes.target_index (facts_of setting.entry known.now).structs
        (base_target (attributes.base (view_attr a.now.attr))) name.now) result }
{
    judged(
        members::member_behind(&known.structs, &a.attr, name),
        a.place,
    )?;
    let member = reached::member_behind(setting.alloc, &known.structs, &a.attr, name)?;
    Ok(member)
}

/// The size of an expression.
pub(crate) fn judge_size_of(
    setting: Setting<'_>,
    known: &Known,
    op: SizeOperator,
    at: Place,
    a: &Expr,
) -> Result<Attr, Stop>
    ensures { Judges (facts_of setting.entry known.now) at (node.SizeOf op (view_attr a.now.attr))
        result }
{
    judged(rules::size_of(&known.structs, op, &a.attr), at)?;
    let attr = sizes::size_of(&known.structs, setting.threads, op, &a.attr);
    Ok(attr)
}

/// The size of a type.
pub(crate) fn judge_size_of_type(
    setting: Setting<'_>,
    known: &Known,
    op: SizeOperator,
    at: Place,
    t: &Formed,
) -> Result<Attr, Stop>
    ensures { Judges (facts_of setting.entry known.now) at (node.SizeOfType op (view_formed t.now))
        result }
{
    judged(declarations::size_of_type(&known.structs, op, t), at)?;
    let attr = sizes::size_of_type(&known.structs, setting.threads, op, t);
    Ok(attr)
}

/// A comma expression, which is what its last part is.
pub(crate) fn judge_comma(first: &Expr, more: &[Expr]) -> Result<Attr, Stop>
    ensures { (φ : Facts) → Judges φ first.now.place (node.Comma (walks.last_of (view_expr first.now)
        (exprs_of (map view_expr more.now)))) result }
{
    let last = last_of(first, more);
    judged(rules::comma(last), first.place)?;
    let attr = attributes::value_of(last)?;
    Ok(attr)
}

/// `a[i]`, used so.
pub(crate) fn judge_subscript(
    setting: Setting<'_>,
    known: &Known,
    how: Use<'_>,
    a: &Expr,
    i: &Expr,
) -> Result<Attr, Stop>
    ensures { Judges (facts_of setting.entry known.now) a.now.place (node.Subscript (view_use
        how.entry) (view_attr a.now.attr) (view_attr i.now.attr)) result }
{
    judged(
        rules::subscript(&known.structs, how, &a.attr, &i.attr),
        a.place,
    )?;
    let attr = elements::subscript(&known.structs, setting.threads, &a.attr, &i.attr)?;
    Ok(attr)
}

/// `++` or `--` at this place.
pub(crate) fn judge_step(
    setting: Setting<'_>,
    known: &Known,
    at: Place,
    a: &Expr,
) -> Result<Attr, Stop>
    ensures { Judges (facts_of setting.entry known.now) at (node.Step (view_attr a.now.attr)) result }
{
    judged(rules::step(&known.structs, &a.attr), at)?;
    let attr = attributes::value_of(&a.attr)?;
    Ok(attr)
}

/// `&a`.
pub(crate) fn judge_address(alloc: Global, at: Place, a: &Expr) -> Result<Attr, Stop>
    ensures { (φ : Facts) → Judges φ at (node.Address (view_attr a.now.attr)) result }
{
    judged(rules::address(&a.attr), at)?;
    let attr = attributes::address(alloc, &a.attr)?;
    Ok(attr)
}

/// `*a`.
pub(crate) fn judge_dereference(at: Place, a: &Expr) -> Result<Attr, Stop>
    ensures { (φ : Facts) → Judges φ at (node.Dereference (view_attr a.now.attr)) result }
{
    judged(rules::dereference(&a.attr), at)?;
    let attr = attributes::dereference(&a.attr)?;
    Ok(attr)
}

/// `+a`, `-a`, `~a` or `!a`.
pub(crate) fn judge_operator(op: UnOp, at: Place, a: &Expr) -> Result<Attr, Stop>
    ensures { (φ : Facts) → Judges φ at (node.Unary op (view_attr a.now.attr)) result }
{
    judged(rules::unary(op, &a.attr), at)?;
    let attr = attributes::unary(op, &a.attr);
    Ok(attr)
}

/// A cast to this type.
pub(crate) fn judge_cast(at: Place, t: &Formed, a: &Expr) -> Result<Attr, Stop>
    ensures { (φ : Facts) → Judges φ at (node.Cast (view_formed t.now) (view_attr a.now.attr)) result }
{
    judged(rules::cast(t, &a.attr), at)?;
    let attr = attributes::cast(&t.ctype, &a.attr)?;
    Ok(attr)
}

/// A binary operator other than `&&` and `||`.
pub(crate) fn judge_operation(
    setting: Setting<'_>,
    known: &Known,
    op: BinOp,
    a: &Expr,
    b: &Expr,
) -> Result<Attr, Stop>
    ensures { Judges (facts_of setting.entry known.now) a.now.place (node.Binary op (view_attr
        a.now.attr) (view_attr b.now.attr)) result }
{
    judged(rules::binary(&known.structs, op, &a.attr, &b.attr), a.place)?;
    let attr = elements::binary(
        setting.alloc,
        &known.structs,
        setting.threads,
        op,
        &a.attr,
        &b.attr,
    )?;
    Ok(attr)
}

/// `a && b`.
pub(crate) fn judge_and(a: &Expr, b: &Expr) -> Result<Attr, Stop>
    ensures { (φ : Facts) → Judges φ a.now.place (node.And (view_attr a.now.attr) (view_attr
        b.now.attr)) result }
{
    judged(rules::logical(&a.attr, &b.attr), a.place)?;
    let attr = attributes::and(&a.attr, &b.attr);
    Ok(attr)
}

/// `a || b`.
pub(crate) fn judge_or(a: &Expr, b: &Expr) -> Result<Attr, Stop>
    ensures { (φ : Facts) → Judges φ a.now.place (node.Or (view_attr a.now.attr) (view_attr
        b.now.attr)) result }
{
    judged(rules::logical(&a.attr, &b.attr), a.place)?;
    let attr = attributes::or(&a.attr, &b.attr);
    Ok(attr)
}

/// `a = b`.
pub(crate) fn judge_plain_assign(a: &Expr, b: &Expr) -> Result<Attr, Stop>
    ensures { (φ : Facts) → Judges φ a.now.place (node.Assign (view_attr a.now.attr) (view_attr
        b.now.attr)) result }
{
    judged(rules::assign(&a.attr, &b.attr), a.place)?;
    let attr = attributes::value_of(&a.attr)?;
    Ok(attr)
}

/// A compound assignment.
pub(crate) fn judge_compound(
    setting: Setting<'_>,
    known: &Known,
    op: BinOp,
    a: &Expr,
    b: &Expr,
) -> Result<Attr, Stop>
    ensures { Judges (facts_of setting.entry known.now) a.now.place (node.Compound op (view_attr
        a.now.attr) (view_attr b.now.attr)) result }
{
    judged(
        rules::compound(&known.structs, op, &a.attr, &b.attr),
        a.place,
    )?;
    let attr = attributes::value_of(&a.attr)?;
    Ok(attr)
}

/// A choice.
pub(crate) fn judge_conditional(test: &Expr, a: &Expr, b: &Expr) -> Result<Attr, Stop>
    ensures { (φ : Facts) → Judges φ test.now.place (node.Conditional (view_attr test.now.attr)
        (view_attr a.now.attr) (view_attr b.now.attr)) result }
{
    judged(rules::conditional(&test.attr, &a.attr, &b.attr), test.place)?;
    let attr = attributes::conditional(&test.attr, &a.attr, &b.attr)?;
    Ok(attr)
}
