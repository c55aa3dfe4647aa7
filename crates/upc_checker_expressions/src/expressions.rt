//! The walk over expressions (C99 6.5, UPC 6.4).

ghost use Rattle.std.specs.Prelude.{IsTrue, map};
ghost use Rattle.upc_tree.specs.layer.Lists.{next_exprs_of};
ghost use Rattle.upc_tree.specs.layer.View.{view, view_arguments, view_next_expr};
ghost use Rattle.typing_rules.specs.Nodes as node;
ghost use Rattle.typed_tree.specs.Scopes.{State};
ghost use Rattle.typed_tree.specs.Tree.{exprs_of};
ghost use Rattle.typed_tree.specs.layer.ViewEnv.{view_env};
ghost use Rattle.typed_tree.specs.ViewTree.{view_expr};
ghost use Rattle.typing_rules.specs.layer.Views.{view_use};
ghost use Rattle.upc_checker_scopes.specs.layer.Ends.{Meets, boxed};
ghost use Rattle.upc_checker_expressions.specs.Expressions as pure;
ghost use Rattle.upc_checker_expressions.specs.code.Groups.{is_call, is_choice, is_infix};
ghost use Rattle.upc_checker_expressions.specs.code.Groups.{is_leaf, is_postfix, is_prefix};
ghost use Rattle.upc_checker_expressions.specs.code.Groups.{is_typed};
ghost use Rattle.upc_checker_scopes.specs.layer.Views.{state_of, view_setting};
ghost use Rattle.upc_checker_nodes.specs.layer.ViewUses.{view_uses};

use crate::types::walk_type;
use typed_tree::Expr;
use typed_tree::env::Env;
use typing_rules::{Constant, Use};
use typing_rules_checks::declarations;
use upc_checker_nodes::called::{Uses, called, first_use, later_uses, uses_by};
use upc_checker_nodes::marks::right_use;
use upc_checker_nodes::nodes::{
    finish_assign, finish_binary, finish_call, finish_cast, finish_character, finish_comma,
    finish_conditional, finish_constant, finish_member, finish_name, finish_number, finish_postfix,
    finish_size_of, finish_size_of_type, finish_strings, finish_subscript, finish_unary, joined,
    paren,
};
use upc_checker_scopes::finish::judged;
use upc_checker_scopes::known::Known;
use upc_checker_scopes::setting::Setting;
use upc_checker_scopes::tags::Tags;
use upc_text::Stop;
use upc_tree::{Arguments, NextExpr};

/// An expression at a place where a constant is asked for: what it is as a constant.
pub fn constantly(setting: Setting<'_>, a: &Expr) -> Result<Constant, Stop>
    ensures { (s : State) → Meets (λ c. c) (pure.constantly (view_setting setting.entry) (view_expr
        a.now) s) s result }
{
    judged(declarations::constantly(&a.attr), a.place)?;
    Ok(a.attr.constant)
}

/// An expression that is used so.
#[cycle(walk)]
pub fn walk(
    e: &upc_tree::Expr,
    how: Use<'_>,
    setting: Setting<'_>,
    env: &Env<'_>,
    tags: &mut Tags<'_>,
    known: &mut Known,
) -> Result<Box<Expr>, Stop>
    ensures { Meets (boxed view_expr) (pure.walk (view_setting setting.entry) (view_env env.now)
        (view_use how.entry) (view e.now) (state_of tags.old known.old)) (state_of tags.new
        known.new) result }
{
    match e {
        upc_tree::Expr::Name(_)
        | upc_tree::Expr::Number { .. }
        | upc_tree::Expr::Character { .. }
        | upc_tree::Expr::Strings { .. }
        | upc_tree::Expr::Constant { .. } => walk_leaf(e, how, setting, env),
        upc_tree::Expr::Paren { .. }
        | upc_tree::Expr::Subscript { .. }
        | upc_tree::Expr::Member { .. }
        | upc_tree::Expr::Postfix { .. } => walk_postfix(e, how, setting, env, tags, known),
        upc_tree::Expr::Call { .. } => walk_call(e, how, setting, env, tags, known),
        upc_tree::Expr::Unary { .. } | upc_tree::Expr::SizeOfExpr { .. } => {
            walk_prefix(e, setting, env, tags, known)
        }
        upc_tree::Expr::SizeOfType { .. } | upc_tree::Expr::Cast { .. } => {
            walk_typed(e, setting, env, tags, known)
        }
        upc_tree::Expr::Conditional { .. } => walk_choice(e, setting, env, tags, known),
        upc_tree::Expr::Binary { .. }
        | upc_tree::Expr::Assign { .. }
        | upc_tree::Expr::Comma { .. } => walk_infix(e, setting, env, tags, known),
    }
}

// An expression without parts.
fn walk_leaf(
    e: &upc_tree::Expr,
    how: Use<'_>,
    setting: Setting<'_>,
    env: &Env<'_>,
) -> Result<Box<Expr>, Stop>
    requires { IsTrue (is_leaf (view e.now)) }
    ensures { (s : State) → Meets (boxed view_expr) (pure.walk (view_setting setting.entry)
        (view_env env.now) (view_use how.entry) (view e.now) s) s result }
{
    match e {
        upc_tree::Expr::Name(name) => finish_name(setting, env, how, *name),
        upc_tree::Expr::Number { value, kind, span } => finish_number(
            setting.alloc,
            *value,
            *kind,
            span.place,
        ),
        upc_tree::Expr::Character { value, span } => finish_character(
            setting.alloc,
            *value,
            span.place,
        ),
        upc_tree::Expr::Strings { first, more } => {
            finish_strings(setting.alloc, how, first, more.as_slice())
        }
        upc_tree::Expr::Constant { word, span } => finish_constant(setting, *word, span.place),
        _ => unreachable!(),
    }
}

// Another expression that begins with one of its parts, or with a parenthesis around it.
#[cycle(walk)]
fn walk_postfix(
    e: &upc_tree::Expr,
    how: Use<'_>,
    setting: Setting<'_>,
    env: &Env<'_>,
    tags: &mut Tags<'_>,
    known: &mut Known,
) -> Result<Box<Expr>, Stop>
    requires { IsTrue (is_postfix (view e.now)) }
    ensures { Meets (boxed view_expr) (pure.walk (view_setting setting.entry) (view_env env.now)
        (view_use how.entry) (view e.now) (state_of tags.old known.old)) (state_of tags.new
        known.new) result }
{
    match e {
        upc_tree::Expr::Paren { open, inner, .. } => {
            let a = walk(inner, how, setting, env, tags, known)?;
            Ok(paren(setting.alloc, open.place, a)?)
        }
        upc_tree::Expr::Subscript { base, index, .. } => {
            let a = walk(base, Use::Indexed, setting, env, tags, known)?;
            let i = walk(index, Use::Plain, setting, env, tags, known)?;
            finish_subscript(setting, known, how, a, i)
        }
        upc_tree::Expr::Member {
            base,
            mark,
            member,
            ..
        } => {
            let a = walk(base, Use::Plain, setting, env, tags, known)?;
            finish_member(setting, known, *mark, a, *member)
        }
        upc_tree::Expr::Postfix { base, mark, .. } => {
            let a = walk(base, Use::Plain, setting, env, tags, known)?;
            finish_postfix(setting, known, *mark, a)
        }
        _ => unreachable!(),
    }
}

// A call.
#[cycle(walk)]
fn walk_call(
    e: &upc_tree::Expr,
    how: Use<'_>,
    setting: Setting<'_>,
    env: &Env<'_>,
    tags: &mut Tags<'_>,
    known: &mut Known,
) -> Result<Box<Expr>, Stop>
    requires { IsTrue (is_call (view e.now)) }
    ensures { Meets (boxed view_expr) (pure.walk (view_setting setting.entry) (view_env env.now)
        (view_use how.entry) (view e.now) (state_of tags.old known.old)) (state_of tags.new
        known.new) result }
{
    match e {
        upc_tree::Expr::Call {
            callee,
            arguments,
            ..
        } => {
            let f = walk(callee, Use::Called, setting, env, tags, known)?;
            let means = called(setting, env, callee);
            let args = walk_arguments(arguments, uses_by(means), setting, env, tags, known)?;
            finish_call(setting, known, how, means, callee, f.place, args)
        }
        _ => unreachable!(),
    }
}

// An operator in front of an expression.
#[cycle(walk)]
fn walk_prefix(
    e: &upc_tree::Expr,
    setting: Setting<'_>,
    env: &Env<'_>,
    tags: &mut Tags<'_>,
    known: &mut Known,
) -> Result<Box<Expr>, Stop>
    requires { IsTrue (is_prefix (view e.now)) }
    ensures { (how : node.Use) → Meets (boxed view_expr) (pure.walk (view_setting setting.entry)
        (view_env env.now) how (view e.now) (state_of tags.old known.old)) (state_of tags.new
        known.new) result }
{
    match e {
        upc_tree::Expr::Unary { mark, at, operand } => {
            let a = walk(operand, Use::Plain, setting, env, tags, known)?;
            finish_unary(setting, known, *mark, at.place, a)
        }
        upc_tree::Expr::SizeOfExpr { word, at, operand } => {
            let a = walk(operand, Use::Measured, setting, env, tags, known)?;
            finish_size_of(setting, known, *word, at.place, a)
        }
        _ => unreachable!(),
    }
}

// The size of a type, or a cast.
#[cycle(walk)]
fn walk_typed(
    e: &upc_tree::Expr,
    setting: Setting<'_>,
    env: &Env<'_>,
    tags: &mut Tags<'_>,
    known: &mut Known,
) -> Result<Box<Expr>, Stop>
    requires { IsTrue (is_typed (view e.now)) }
    ensures { (how : node.Use) → Meets (boxed view_expr) (pure.walk (view_setting setting.entry)
        (view_env env.now) how (view e.now) (state_of tags.old known.old)) (state_of tags.new
        known.new) result }
{
    match e {
        upc_tree::Expr::SizeOfType {
            word,
            at,
            operand,
            ..
        } => {
            let t = walk_type(operand, at.place, setting, env, tags, known)?;
            finish_size_of_type(setting, known, *word, at.place, t)
        }
        upc_tree::Expr::Cast {
            open,
            target,
            operand,
            ..
        } => {
            let t = walk_type(target, open.place, setting, env, tags, known)?;
            let a = walk(operand, Use::Into(&t.ctype), setting, env, tags, known)?;
            finish_cast(setting.alloc, open.place, &t, a)
        }
        _ => unreachable!(),
    }
}

// A choice.
#[cycle(walk)]
fn walk_choice(
    e: &upc_tree::Expr,
    setting: Setting<'_>,
    env: &Env<'_>,
    tags: &mut Tags<'_>,
    known: &mut Known,
) -> Result<Box<Expr>, Stop>
    requires { IsTrue (is_choice (view e.now)) }
    ensures { (how : node.Use) → Meets (boxed view_expr) (pure.walk (view_setting setting.entry)
        (view_env env.now) how (view e.now) (state_of tags.old known.old)) (state_of tags.new
        known.new) result }
{
    match e {
        upc_tree::Expr::Conditional {
            test,
            chosen,
            other,
            ..
        } => {
            let t = walk(test, Use::Plain, setting, env, tags, known)?;
            let a = walk(chosen, Use::Plain, setting, env, tags, known)?;
            let b = walk(other, Use::Plain, setting, env, tags, known)?;
            finish_conditional(setting.alloc, t, a, b)
        }
        _ => unreachable!(),
    }
}

// Other operands with operators between them.
#[cycle(walk)]
fn walk_infix(
    e: &upc_tree::Expr,
    setting: Setting<'_>,
    env: &Env<'_>,
    tags: &mut Tags<'_>,
    known: &mut Known,
) -> Result<Box<Expr>, Stop>
    requires { IsTrue (is_infix (view e.now)) }
    ensures { (how : node.Use) → Meets (boxed view_expr) (pure.walk (view_setting setting.entry)
        (view_env env.now) how (view e.now) (state_of tags.old known.old)) (state_of tags.new
        known.new) result }
{
    match e {
        upc_tree::Expr::Binary {
            left,
            mark,
            right,
            ..
        } => {
            let a = walk(left, Use::Plain, setting, env, tags, known)?;
            let b = walk(right, Use::Plain, setting, env, tags, known)?;
            finish_binary(setting, known, *mark, a, b)
        }
        upc_tree::Expr::Assign {
            left,
            mark,
            right,
            ..
        } => {
            let a = walk(left, Use::Plain, setting, env, tags, known)?;
            let into = right_use(*mark, &a.attr.ctype);
            let b = walk(right, into, setting, env, tags, known)?;
            finish_assign(setting, known, *mark, a, b)
        }
        upc_tree::Expr::Comma { first, more } => {
            let a = walk(first, Use::Plain, setting, env, tags, known)?;
            let all = walk_more(more.as_slice(), Uses::Plain, setting, env, tags, known)?;
            finish_comma(setting.alloc, a, all)
        }
        _ => unreachable!(),
    }
}

// The arguments of a call, each with its use.
#[cycle(walk)]
fn walk_arguments(
    arguments: &Arguments,
    uses: Uses<'_>,
    setting: Setting<'_>,
    env: &Env<'_>,
    tags: &mut Tags<'_>,
    known: &mut Known,
) -> Result<Vec<Expr>, Stop>
    ensures { Meets (λ xs. exprs_of (map view_expr xs.items)) (pure.walk_arguments (view_setting
        setting.entry) (view_env env.now) (view_uses uses.entry) (view_arguments arguments.now)
        (state_of tags.old known.old)) (state_of tags.new known.new) result }
{
    match arguments {
        Arguments::Empty { .. } => Ok(Vec::new(setting.alloc)),
        Arguments::Filled { first, more, .. } => {
            let a = walk(first, first_use(uses), setting, env, tags, known)?;
            let all = walk_more(more.as_slice(), later_uses(uses), setting, env, tags, known)?;
            Ok(joined(a, all)?)
        }
    }
}

// Further expressions, each with its use.
#[cycle(walk)]
fn walk_more(
    more: &[NextExpr],
    uses: Uses<'_>,
    setting: Setting<'_>,
    env: &Env<'_>,
    tags: &mut Tags<'_>,
    known: &mut Known,
) -> Result<Vec<Expr>, Stop>
    ensures { Meets (λ xs. exprs_of (map view_expr xs.items)) (pure.walk_more (view_setting
        setting.entry) (view_env env.now) (view_uses uses.entry) (next_exprs_of (map view_next_expr
        more.now)) (state_of tags.old known.old)) (state_of tags.new known.new) result }
{
    let mut all = Vec::new(setting.alloc);
    let mut uses = uses;
    for part in more {
        let x = walk(&part.value, first_use(uses), setting, env, tags, known)?;
        all.push(Box::into_inner(x))?;
        uses = later_uses(uses);
    }
    Ok(all)
}
