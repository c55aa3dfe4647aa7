//! Nodes of expressions that are finished: each meets its rules, and is what it says.

ghost use Rattle.std.specs.Prelude.{◌≡◌, ◌∷◌, IfOk, map};
ghost use Rattle.upc_tree.specs.layer.View.{view};
ghost use Rattle.typing_rules.specs.Attributes.{Facts};
ghost use Rattle.typing_rules.specs.Nodes as node;
ghost use Rattle.typing_rules.specs.Nodes.{view_attr};
ghost use Rattle.upc_types.specs.View as types;
ghost use Rattle.typed_tree.specs.Scopes as pure;
ghost use Rattle.typed_tree.specs.Tree as typed;
ghost use Rattle.typed_tree.specs.Tree.{exprs_of, attrs_of};
ghost use Rattle.typed_tree.specs.layer.ViewEnv.{view_env};
ghost use Rattle.typed_tree.specs.ViewTree.{view_expr};
ghost use Rattle.typing_rules.specs.layer.Views.{view_formed, view_meaning, view_use};
ghost use Rattle.upc_checker_nodes.specs.Called as calls;
ghost use Rattle.upc_checker_scopes.specs.Places as places;
ghost use Rattle.upc_checker_nodes.specs.Parts as walks;
ghost use Rattle.upc_checker_scopes.specs.layer.Finishes.{Finishes};
ghost use Rattle.upc_checker_nodes.specs.Marks as marks;
ghost use Rattle.upc_checker_scopes.specs.layer.Views.{facts_of, view_setting};

use crate::build;
use crate::called::target_of;
use crate::judgements::{
    judge_address, judge_and, judge_call, judge_cast, judge_comma, judge_compound,
    judge_conditional, judge_dereference, judge_member_behind, judge_member_of, judge_name,
    judge_operation, judge_operator, judge_or, judge_plain_assign, judge_size_of,
    judge_size_of_type, judge_step, judge_subscript,
};
use crate::marks::{number_kind, postfix_operator, size_operator};
use integers::{BinOp, UnOp};
use std::alloc::Global;
use typed_tree::env::Env;
use typed_tree::{Expr, StepOperator, Target};
use typing_rules::{Attr, Formed, Meaning, Use};
use typing_rules_checks::{attributes, rules};
use upc_checker_scopes::finish::judged;
use upc_checker_scopes::known::Known;
use upc_checker_scopes::setting::{Setting, meaning, spelling};
use upc_lexer::NumberKind;
use upc_text::{OutOfMemory, Place, Stop, Text};
use upc_tree::{
    AssignMark, BinaryMark, ConstantWord, MemberMark, Name, PostfixMark, SizeWord, StringLiteral,
    UnaryMark,
};
use upc_types::CType;

/// Expressions in a list, with one in front of them.
pub fn joined(first: Box<Expr>, more: Vec<Expr>) -> Result<Vec<Expr>, OutOfMemory>
    ensures { IfOk result (λ all. map view_expr all.items ≡ view_expr first.value ∷ map view_expr
        more.items) }
{
    let mut all = more;
    all.insert(0, Box::into_inner(first))?;
    Ok(all)
}

/// An expression in parentheses, which begin there.
pub fn paren(alloc: Global, at: Place, inner: Box<Expr>) -> Result<Box<Expr>, OutOfMemory>
    ensures { IfOk result (λ e. view_expr e.value ≡ typed.Is at (view_attr inner.value.attr) (typed.Paren
        (view_expr inner.value))) }
{
    let attr = attributes::copy(&inner.attr)?;
    Ok(build::paren(alloc, at, attr, inner)?)
}

// ---- expressions without parts

// What a name makes.
fn named(
    setting: Setting<'_>,
    means: Meaning<'_>,
    name: u32,
    at: Place,
    attr: Attr,
) -> Result<Box<Expr>, OutOfMemory>
    ensures { IfOk result (λ e. view_expr e.value ≡ typed.Is at (view_attr attr) (calls.name_kind
        (view_setting setting.entry) (view_meaning means.entry) name)) }
{
    let alloc = setting.alloc;
    match means {
        Meaning::Object(_, home) => build::object(alloc, at, attr, home),
        Meaning::Function(_) => {
            let number = setting.defined.number(name);
            build::callee(alloc, at, attr, Target::Function(number))
        }
        Meaning::Library(call) => build::callee(alloc, at, attr, Target::Library(call)),
        Meaning::Unknown | Meaning::Named(_) => build::literal(alloc, at, attr),
    }
}

/// A name that is used so.
pub fn finish_name(
    setting: Setting<'_>,
    env: &Env<'_>,
    how: Use<'_>,
    name: Name,
) -> Result<Box<Expr>, Stop>
    ensures { (φ : Facts) → Finishes φ (places.name_at name) (node.Name (view_use how.entry)
        (pure.meaning (view_setting setting.entry) (view_env env.now) name.number)) (calls.name_kind
        (view_setting setting.entry) (pure.meaning (view_setting setting.entry) (view_env env.now)
        name.number) name.number) result }
{
    let at = name.span.place;
    let means = meaning(setting, env, name.number);
    let attr = judge_name(how, means, at)?;
    Ok(named(setting, means, name.number, at, attr)?)
}

/// A number.
pub fn finish_number(
    alloc: Global,
    value: u64,
    kind: NumberKind,
    at: Place,
) -> Result<Box<Expr>, Stop>
    ensures { (φ : Facts) → Finishes φ at (node.Number (marks.number_kind kind) value) (typed.Literal)
        result }
{
    let attr = attributes::number(number_kind(kind), value);
    Ok(build::literal(alloc, at, attr)?)
}

/// A character.
pub fn finish_character(alloc: Global, value: u8, at: Place) -> Result<Box<Expr>, Stop>
    ensures { (φ : Facts) → Finishes φ at (node.Character value) (typed.Literal) result }
{
    Ok(build::literal(alloc, at, attributes::character(value))?)
}

// The text of string literals. All copies of it share its bytes.
fn text_of(
    alloc: Global,
    first: &StringLiteral,
    more: &[StringLiteral],
) -> Result<Text, OutOfMemory>
    ensures { IfOk result (λ text. text ≡ walks.joined (first.now ∷ more.now)) }
{
    let mut text = first.bytes.copy(alloc)?;
    for literal in more {
        text.push_slice(literal.bytes.as_slice())?;
    }
    text.share()
}

/// String literals that stand one after another.
pub fn finish_strings(
    alloc: Global,
    how: Use<'_>,
    first: &StringLiteral,
    more: &[StringLiteral],
) -> Result<Box<Expr>, Stop>
    ensures { (φ : Facts) → Finishes φ (places.at first.now.span) (node.Strings (view_use how.entry))
        (typed.Format (walks.joined (first.now ∷ more.now))) result }
{
    let at = first.span.place;
    judged(rules::strings(how), at)?;
    let text = text_of(alloc, first, more)?;
    Ok(build::format(alloc, at, attributes::strings(), text)?)
}

/// `MYTHREAD`, `THREADS` or `UPC_MAX_BLOCK_SIZE`.
pub fn finish_constant(
    setting: Setting<'_>,
    word: ConstantWord,
    at: Place,
) -> Result<Box<Expr>, Stop>
    ensures { (φ : Facts) → Finishes φ at (walks.constant_node (view_setting setting.entry) word)
        (walks.constant_kind word) result }
{
    let alloc = setting.alloc;
    match word {
        ConstantWord::Mythread => Ok(build::mythread(alloc, at, attributes::mythread())?),
        ConstantWord::Threads => {
            Ok(build::literal(alloc, at, attributes::threads(setting.threads))?)
        }
        ConstantWord::MaxBlockSize => Ok(build::literal(alloc, at, attributes::max_block_size())?),
    }
}

// ---- expressions that begin with one of their parts

/// A subscript that is used so.
pub fn finish_subscript(
    setting: Setting<'_>,
    known: &Known,
    how: Use<'_>,
    a: Box<Expr>,
    i: Box<Expr>,
) -> Result<Box<Expr>, Stop>
    ensures { Finishes (facts_of setting.entry known.now) a.value.place (node.Subscript (view_use
        how.entry) (view_attr a.value.attr) (view_attr i.value.attr)) (typed.Subscript (view_expr
        a.value) (view_expr i.value)) result }
{
    let at = a.place;
    let attr = judge_subscript(setting, known, how, &a, &i)?;
    Ok(build::subscript(setting.alloc, at, attr, a, i)?)
}

/// A call, used so, of what has this meaning.
pub fn finish_call(
    setting: Setting<'_>,
    known: &Known,
    how: Use<'_>,
    means: Meaning<'_>,
    callee: &upc_tree::Expr,
    at: Place,
    args: Vec<Expr>,
) -> Result<Box<Expr>, Stop>
    ensures { Finishes (facts_of setting.entry known.now) at (node.Call (view_use how.entry)
        (view_meaning means.entry) (calls.runs (view_setting setting.entry) (view callee.now))
        (walks.format_in (exprs_of (map view_expr args.items))) (attrs_of (exprs_of (map view_expr
        args.items)))) (typed.Call (calls.target_by (view_setting setting.entry) (view_meaning
        means.entry) (calls.called_name (view callee.now))) (exprs_of (map view_expr args.items)))
        result }
{
    let attr = judge_call(setting, known, how, means, callee, at, args.as_slice())?;
    let target = target_of(setting, means, callee);
    Ok(build::call(setting.alloc, at, attr, target, args)?)
}

// `a.name`.
fn finish_member_of(
    setting: Setting<'_>,
    known: &Known,
    a: Box<Expr>,
    name: &[u8],
) -> Result<Box<Expr>, Stop>
    ensures { Finishes (facts_of setting.entry known.now) a.value.place (node.MemberOf (view_attr
        a.value.attr) name.now) (walks.member_kind MemberMark.Dot (view_expr a.value) name.now
        (facts_of setting.entry known.now)) result }
{
    let at = a.place;
    let member = judge_member_of(setting, known, &a, name)?;
    Ok(build::member(setting.alloc, at, member.attr, a, member.index)?)
}

// `a->name`.
fn finish_member_behind(
    setting: Setting<'_>,
    known: &Known,
    a: Box<Expr>,
    name: &[u8],
) -> Result<Box<Expr>, Stop>
    ensures { Finishes (facts_of setting.entry known.now) a.value.place (node.MemberBehind (view_attr
        a.value.attr) name.now) (walks.member_kind MemberMark.Arrow (view_expr a.value) name.now
        (facts_of setting.entry known.now)) result }
{
    let at = a.place;
    let member = judge_member_behind(setting, known, &a, name)?;
    Ok(build::member_behind(setting.alloc, at, member.attr, a, member.index)?)
}

/// A member by its name.
pub fn finish_member(
    setting: Setting<'_>,
    known: &Known,
    mark: MemberMark,
    a: Box<Expr>,
    name: Name,
) -> Result<Box<Expr>, Stop>
    ensures { Finishes (facts_of setting.entry known.now) a.value.place (walks.member_of mark
        (view_attr a.value.attr) (pure.spelling (view_setting setting.entry) name.number))
        (walks.member_kind mark (view_expr a.value) (pure.spelling (view_setting setting.entry)
        name.number) (facts_of setting.entry known.now)) result }
{
    let name = spelling(setting, name.number);
    match mark {
        MemberMark::Dot => finish_member_of(setting, known, a, name),
        MemberMark::Arrow => finish_member_behind(setting, known, a, name),
    }
}

// `++` or `--`.
fn finish_step(
    setting: Setting<'_>,
    known: &Known,
    op: StepOperator,
    at: Place,
    a: Box<Expr>,
) -> Result<Box<Expr>, Stop>
    ensures { Finishes (facts_of setting.entry known.now) at (node.Step (view_attr a.value.attr))
        (typed.Step op (view_expr a.value)) result }
{
    let attr = judge_step(setting, known, at, &a)?;
    Ok(build::step(setting.alloc, at, attr, op, a)?)
}

/// `++` or `--` after its operand.
pub fn finish_postfix(
    setting: Setting<'_>,
    known: &Known,
    mark: PostfixMark,
    a: Box<Expr>,
) -> Result<Box<Expr>, Stop>
    ensures { Finishes (facts_of setting.entry known.now) a.value.place (node.Step (view_attr
        a.value.attr)) (typed.Step (marks.postfix_operator mark) (view_expr a.value)) result }
{
    let at = a.place;
    finish_step(setting, known, postfix_operator(mark), at, a)
}

// ---- operators in front of an expression

// `&a`.
fn finish_address(alloc: Global, at: Place, a: Box<Expr>) -> Result<Box<Expr>, Stop>
    ensures { (φ : Facts) → Finishes φ at (node.Address (view_attr a.value.attr)) (typed.Address (view_expr
        a.value)) result }
{
    let attr = judge_address(alloc, at, &a)?;
    Ok(build::address(alloc, at, attr, a)?)
}

// `*a`.
fn finish_dereference(alloc: Global, at: Place, a: Box<Expr>) -> Result<Box<Expr>, Stop>
    ensures { (φ : Facts) → Finishes φ at (node.Dereference (view_attr a.value.attr)) (typed.Dereference
        (view_expr a.value)) result }
{
    let attr = judge_dereference(at, &a)?;
    Ok(build::dereference(alloc, at, attr, a)?)
}

// `+a`, `-a`, `~a` and `!a`.
fn finish_operator(alloc: Global, op: UnOp, at: Place, a: Box<Expr>) -> Result<Box<Expr>, Stop>
    ensures { (φ : Facts) → Finishes φ at (node.Unary op (view_attr a.value.attr)) (typed.Unary op
        (view_expr a.value)) result }
{
    let attr = judge_operator(op, at, &a)?;
    Ok(build::unary(alloc, at, attr, op, a)?)
}

/// An operator in front of its operand.
pub fn finish_unary(
    setting: Setting<'_>,
    known: &Known,
    mark: UnaryMark,
    at: Place,
    a: Box<Expr>,
) -> Result<Box<Expr>, Stop>
    ensures { Finishes (facts_of setting.entry known.now) at (marks.unary_node mark (view_attr
        a.value.attr)) (marks.unary_kind mark (view_expr a.value)) result }
{
    match mark {
        UnaryMark::AddressOf => finish_address(setting.alloc, at, a),
        UnaryMark::Dereference => finish_dereference(setting.alloc, at, a),
        UnaryMark::Plus => finish_operator(setting.alloc, UnOp::Plus, at, a),
        UnaryMark::Minus => finish_operator(setting.alloc, UnOp::Minus, at, a),
        UnaryMark::Complement => finish_operator(setting.alloc, UnOp::Complement, at, a),
        UnaryMark::Not => finish_operator(setting.alloc, UnOp::Not, at, a),
        UnaryMark::Increment => finish_step(setting, known, StepOperator::IncrementFirst, at, a),
        UnaryMark::Decrement => finish_step(setting, known, StepOperator::DecrementFirst, at, a),
    }
}

/// The size of an expression.
pub fn finish_size_of(
    setting: Setting<'_>,
    known: &Known,
    word: SizeWord,
    at: Place,
    a: Box<Expr>,
) -> Result<Box<Expr>, Stop>
    ensures { Finishes (facts_of setting.entry known.now) at (node.SizeOf (marks.size_operator word)
        (view_attr a.value.attr)) (typed.SizeOf (marks.size_operator word) (view_expr a.value)) result }
{
    let op = size_operator(word);
    let attr = judge_size_of(setting, known, op, at, &a)?;
    Ok(build::size_of(setting.alloc, at, attr, op, a)?)
}

/// The size of a type.
pub fn finish_size_of_type(
    setting: Setting<'_>,
    known: &Known,
    word: SizeWord,
    at: Place,
    t: Formed,
) -> Result<Box<Expr>, Stop>
    ensures { Finishes (facts_of setting.entry known.now) at (node.SizeOfType (marks.size_operator
        word) (view_formed t)) (typed.SizeOfType (marks.size_operator word) (view_formed t).ctype)
        result }
{
    let op = size_operator(word);
    let attr = judge_size_of_type(setting, known, op, at, &t)?;
    let operand = boxed(setting.alloc, t.ctype)?;
    Ok(build::size_of_type(setting.alloc, at, attr, op, operand)?)
}

// A type in a box.
fn boxed(alloc: Global, t: CType) -> Result<Box<CType>, OutOfMemory>
    ensures { IfOk result (λ x. types.view x.value ≡ types.view t) }
{
    Ok(Box::new(alloc, t)?)
}

/// A cast.
pub fn finish_cast(alloc: Global, at: Place, t: &Formed, a: Box<Expr>) -> Result<Box<Expr>, Stop>
    ensures { (φ : Facts) → Finishes φ at (node.Cast (view_formed t.now) (view_attr a.value.attr))
        (typed.Cast (view_expr a.value)) result }
{
    let attr = judge_cast(at, t, &a)?;
    Ok(build::cast(alloc, at, attr, a)?)
}

// ---- operators between expressions

// A binary operator other than `&&` and `||`.
fn finish_operation(
    setting: Setting<'_>,
    known: &Known,
    op: BinOp,
    a: Box<Expr>,
    b: Box<Expr>,
) -> Result<Box<Expr>, Stop>
    ensures { Finishes (facts_of setting.entry known.now) a.value.place (node.Binary op (view_attr
        a.value.attr) (view_attr b.value.attr)) (typed.Binary op (view_expr a.value) (view_expr
        b.value)) result }
{
    let at = a.place;
    let attr = judge_operation(setting, known, op, &a, &b)?;
    Ok(build::binary(setting.alloc, at, attr, op, a, b)?)
}

// `a && b`.
fn finish_and(alloc: Global, a: Box<Expr>, b: Box<Expr>) -> Result<Box<Expr>, Stop>
    ensures { (φ : Facts) → Finishes φ a.value.place (node.And (view_attr a.value.attr) (view_attr
        b.value.attr)) (typed.And (view_expr a.value) (view_expr b.value)) result }
{
    let at = a.place;
    let attr = judge_and(&a, &b)?;
    Ok(build::and(alloc, at, attr, a, b)?)
}

// `a || b`.
fn finish_or(alloc: Global, a: Box<Expr>, b: Box<Expr>) -> Result<Box<Expr>, Stop>
    ensures { (φ : Facts) → Finishes φ a.value.place (node.Or (view_attr a.value.attr) (view_attr
        b.value.attr)) (typed.Or (view_expr a.value) (view_expr b.value)) result }
{
    let at = a.place;
    let attr = judge_or(&a, &b)?;
    Ok(build::or(alloc, at, attr, a, b)?)
}

/// An operator between two operands.
pub fn finish_binary(
    setting: Setting<'_>,
    known: &Known,
    mark: BinaryMark,
    a: Box<Expr>,
    b: Box<Expr>,
) -> Result<Box<Expr>, Stop>
    ensures { Finishes (facts_of setting.entry known.now) a.value.place (marks.binary_node mark
        (view_attr a.value.attr) (view_attr b.value.attr)) (marks.binary_kind mark (view_expr
        a.value) (view_expr b.value)) result }
{
    match mark {
        BinaryMark::Multiply => finish_operation(setting, known, BinOp::Multiply, a, b),
        BinaryMark::Divide => finish_operation(setting, known, BinOp::Divide, a, b),
        BinaryMark::Remainder => finish_operation(setting, known, BinOp::Remainder, a, b),
        BinaryMark::Add => finish_operation(setting, known, BinOp::Add, a, b),
        BinaryMark::Subtract => finish_operation(setting, known, BinOp::Subtract, a, b),
        BinaryMark::ShiftLeft => finish_operation(setting, known, BinOp::ShiftLeft, a, b),
        BinaryMark::ShiftRight => finish_operation(setting, known, BinOp::ShiftRight, a, b),
        BinaryMark::Less => finish_operation(setting, known, BinOp::Less, a, b),
        BinaryMark::Greater => finish_operation(setting, known, BinOp::Greater, a, b),
        BinaryMark::LessEqual => finish_operation(setting, known, BinOp::LessEqual, a, b),
        BinaryMark::GreaterEqual => finish_operation(setting, known, BinOp::GreaterEqual, a, b),
        BinaryMark::Equal => finish_operation(setting, known, BinOp::Equal, a, b),
        BinaryMark::NotEqual => finish_operation(setting, known, BinOp::NotEqual, a, b),
        BinaryMark::BitAnd => finish_operation(setting, known, BinOp::BitAnd, a, b),
        BinaryMark::BitXor => finish_operation(setting, known, BinOp::BitXor, a, b),
        BinaryMark::BitOr => finish_operation(setting, known, BinOp::BitOr, a, b),
        BinaryMark::And => finish_and(setting.alloc, a, b),
        BinaryMark::Or => finish_or(setting.alloc, a, b),
    }
}

// `a = b`.
fn finish_plain_assign(alloc: Global, a: Box<Expr>, b: Box<Expr>) -> Result<Box<Expr>, Stop>
    ensures { (φ : Facts) → Finishes φ a.value.place (node.Assign (view_attr a.value.attr) (view_attr
        b.value.attr)) (typed.Assign (view_expr a.value) (view_expr b.value)) result }
{
    let at = a.place;
    let attr = judge_plain_assign(&a, &b)?;
    Ok(build::assign(alloc, at, attr, a, b)?)
}

// A compound assignment.
fn finish_compound(
    setting: Setting<'_>,
    known: &Known,
    op: BinOp,
    a: Box<Expr>,
    b: Box<Expr>,
) -> Result<Box<Expr>, Stop>
    ensures { Finishes (facts_of setting.entry known.now) a.value.place (node.Compound op (view_attr
        a.value.attr) (view_attr b.value.attr)) (typed.Compound op (view_expr a.value) (view_expr
        b.value)) result }
{
    let at = a.place;
    let attr = judge_compound(setting, known, op, &a, &b)?;
    Ok(build::compound(setting.alloc, at, attr, op, a, b)?)
}

/// An assignment.
pub fn finish_assign(
    setting: Setting<'_>,
    known: &Known,
    mark: AssignMark,
    a: Box<Expr>,
    b: Box<Expr>,
) -> Result<Box<Expr>, Stop>
    ensures { Finishes (facts_of setting.entry known.now) a.value.place (marks.assign_node mark
        (view_attr a.value.attr) (view_attr b.value.attr)) (marks.assign_kind mark (view_expr
        a.value) (view_expr b.value)) result }
{
    match mark {
        AssignMark::Assign => finish_plain_assign(setting.alloc, a, b),
        AssignMark::Multiply => finish_compound(setting, known, BinOp::Multiply, a, b),
        AssignMark::Divide => finish_compound(setting, known, BinOp::Divide, a, b),
        AssignMark::Remainder => finish_compound(setting, known, BinOp::Remainder, a, b),
        AssignMark::Add => finish_compound(setting, known, BinOp::Add, a, b),
        AssignMark::Subtract => finish_compound(setting, known, BinOp::Subtract, a, b),
        AssignMark::ShiftLeft => finish_compound(setting, known, BinOp::ShiftLeft, a, b),
        AssignMark::ShiftRight => finish_compound(setting, known, BinOp::ShiftRight, a, b),
        AssignMark::BitAnd => finish_compound(setting, known, BinOp::BitAnd, a, b),
        AssignMark::BitXor => finish_compound(setting, known, BinOp::BitXor, a, b),
        AssignMark::BitOr => finish_compound(setting, known, BinOp::BitOr, a, b),
    }
}

/// A choice.
pub fn finish_conditional(
    alloc: Global,
    test: Box<Expr>,
    a: Box<Expr>,
    b: Box<Expr>,
) -> Result<Box<Expr>, Stop>
    ensures { (φ : Facts) → Finishes φ test.value.place (node.Conditional (view_attr test.value.attr)
        (view_attr a.value.attr) (view_attr b.value.attr)) (typed.Conditional (view_expr test.value)
        (view_expr a.value) (view_expr b.value)) result }
{
    let at = test.place;
    let attr = judge_conditional(&test, &a, &b)?;
    Ok(build::conditional(alloc, at, attr, test, a, b)?)
}

/// A comma expression.
pub fn finish_comma(alloc: Global, first: Box<Expr>, more: Vec<Expr>) -> Result<Box<Expr>, Stop>
    ensures { (φ : Facts) → Finishes φ first.value.place (node.Comma (walks.last_of (view_expr
        first.value) (exprs_of (map view_expr more.items)))) (typed.Comma (typed.AndExpr (view_expr
        first.value) (exprs_of (map view_expr more.items)))) result }
{
    let at = first.place;
    let attr = judge_comma(&first, more.as_slice())?;
    let parts = joined(first, more)?;
    Ok(build::comma(alloc, at, attr, parts)?)
}
