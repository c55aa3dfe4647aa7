//! Expressions with types, made of their place, what they are, and their parts.

ghost use Rattle.std.specs.Prelude.{◌≡◌, IfOk, map};
ghost use Rattle.upc_types.specs.View.{view};
ghost use Rattle.typing_rules.specs.Nodes.{view_attr};
ghost use Rattle.typed_tree.specs.Tree as typed;
ghost use Rattle.typed_tree.specs.Tree.{Is, exprs_of};
ghost use Rattle.typed_tree.specs.ViewTree.{view_expr, view_kind};

use integers::{BinOp, UnOp};
use std::alloc::Global;
use typed_tree::{Expr, ExprKind, StepOperator, Target};
use typing_rules::{Attr, Home, SizeOperator};
use upc_text::{OutOfMemory, Place, Text};
use upc_types::CType;

// An expression of this kind.
fn node(alloc: Global, place: Place, attr: Attr, kind: ExprKind) -> Result<Box<Expr>, OutOfMemory>
    ensures { IfOk result (λ e. view_expr e.value ≡ Is place (view_attr attr) (view_kind kind)) }
{
    Ok(Box::new(alloc, Expr { place, attr, kind })?)
}

/// A number, a character or a named constant.
pub fn literal(alloc: Global, place: Place, attr: Attr) -> Result<Box<Expr>, OutOfMemory>
    ensures { IfOk result (λ e. view_expr e.value ≡ Is place (view_attr attr) typed.Literal) }
{
    node(alloc, place, attr, ExprKind::Literal)
}

/// `MYTHREAD`.
pub fn mythread(alloc: Global, place: Place, attr: Attr) -> Result<Box<Expr>, OutOfMemory>
    ensures { IfOk result (λ e. view_expr e.value ≡ Is place (view_attr attr) typed.Mythread) }
{
    node(alloc, place, attr, ExprKind::Mythread)
}

/// The name of an object.
pub fn object(alloc: Global, place: Place, attr: Attr, home: Home) -> Result<Box<Expr>, OutOfMemory>
    ensures { IfOk result (λ e. view_expr e.value ≡ Is place (view_attr attr) (typed.Object home)) }
{
    node(alloc, place, attr, ExprKind::Object(home))
}

/// The name of a function that is called.
pub fn callee(
    alloc: Global,
    place: Place,
    attr: Attr,
    target: Target,
) -> Result<Box<Expr>, OutOfMemory>
    ensures { IfOk result (λ e. view_expr e.value ≡ Is place (view_attr attr) (typed.Callee target)) }
{
    node(alloc, place, attr, ExprKind::Callee(target))
}

/// The format of a printf.
pub fn format(alloc: Global, place: Place, attr: Attr, text: Text) -> Result<Box<Expr>, OutOfMemory>
    ensures { IfOk result (λ e. view_expr e.value ≡ Is place (view_attr attr) (typed.Format text)) }
{
    node(alloc, place, attr, ExprKind::Format(text))
}

/// `(a)`.
pub fn paren(
    alloc: Global,
    place: Place,
    attr: Attr,
    a: Box<Expr>,
) -> Result<Box<Expr>, OutOfMemory>
    ensures { IfOk result (λ e. view_expr e.value ≡ Is place (view_attr attr) (typed.Paren (view_expr a.value))) }
{
    node(alloc, place, attr, ExprKind::Paren(a))
}

/// `a[i]`.
pub fn subscript(
    alloc: Global,
    place: Place,
    attr: Attr,
    a: Box<Expr>,
    i: Box<Expr>,
) -> Result<Box<Expr>, OutOfMemory>
    ensures { IfOk result (λ e. view_expr e.value
        ≡ Is place (view_attr attr) (typed.Subscript (view_expr a.value) (view_expr i.value))) }
{
    node(alloc, place, attr, ExprKind::Subscript(a, i))
}

/// A call of that with these arguments.
pub fn call(
    alloc: Global,
    place: Place,
    attr: Attr,
    target: Target,
    args: Vec<Expr>,
) -> Result<Box<Expr>, OutOfMemory>
    ensures { IfOk result (λ e. view_expr e.value
        ≡ Is place (view_attr attr) (typed.Call target (exprs_of (map view_expr args.items)))) }
{
    node(alloc, place, attr, ExprKind::Call(target, args))
}

/// The member of this number.
pub fn member(
    alloc: Global,
    place: Place,
    attr: Attr,
    a: Box<Expr>,
    index: u32,
) -> Result<Box<Expr>, OutOfMemory>
    ensures { IfOk result (λ e. view_expr e.value
        ≡ Is place (view_attr attr) (typed.Member (view_expr a.value) index)) }
{
    node(alloc, place, attr, ExprKind::Member(a, index))
}

/// The member of this number of the struct that a pointer leads to.
pub fn member_behind(
    alloc: Global,
    place: Place,
    attr: Attr,
    a: Box<Expr>,
    index: u32,
) -> Result<Box<Expr>, OutOfMemory>
    ensures { IfOk result (λ e. view_expr e.value
        ≡ Is place (view_attr attr) (typed.MemberBehind (view_expr a.value) index)) }
{
    node(alloc, place, attr, ExprKind::MemberBehind(a, index))
}

/// `++` and `--`.
pub fn step(
    alloc: Global,
    place: Place,
    attr: Attr,
    op: StepOperator,
    a: Box<Expr>,
) -> Result<Box<Expr>, OutOfMemory>
    ensures { IfOk result (λ e. view_expr e.value
        ≡ Is place (view_attr attr) (typed.Step op (view_expr a.value))) }
{
    node(alloc, place, attr, ExprKind::Step(op, a))
}

/// `&a`.
pub fn address(
    alloc: Global,
    place: Place,
    attr: Attr,
    a: Box<Expr>,
) -> Result<Box<Expr>, OutOfMemory>
    ensures { IfOk result (λ e. view_expr e.value
        ≡ Is place (view_attr attr) (typed.Address (view_expr a.value))) }
{
    node(alloc, place, attr, ExprKind::Address(a))
}

/// `*a`.
pub fn dereference(
    alloc: Global,
    place: Place,
    attr: Attr,
    a: Box<Expr>,
) -> Result<Box<Expr>, OutOfMemory>
    ensures { IfOk result (λ e. view_expr e.value
        ≡ Is place (view_attr attr) (typed.Dereference (view_expr a.value))) }
{
    node(alloc, place, attr, ExprKind::Dereference(a))
}

/// `+a`, `-a`, `~a` and `!a`.
pub fn unary(
    alloc: Global,
    place: Place,
    attr: Attr,
    op: UnOp,
    a: Box<Expr>,
) -> Result<Box<Expr>, OutOfMemory>
    ensures { IfOk result (λ e. view_expr e.value
        ≡ Is place (view_attr attr) (typed.Unary op (view_expr a.value))) }
{
    node(alloc, place, attr, ExprKind::Unary(op, a))
}

/// The size of an expression.
pub fn size_of(
    alloc: Global,
    place: Place,
    attr: Attr,
    op: SizeOperator,
    a: Box<Expr>,
) -> Result<Box<Expr>, OutOfMemory>
    ensures { IfOk result (λ e. view_expr e.value
        ≡ Is place (view_attr attr) (typed.SizeOf op (view_expr a.value))) }
{
    node(alloc, place, attr, ExprKind::SizeOf(op, a))
}

/// The size of a type.
pub fn size_of_type(
    alloc: Global,
    place: Place,
    attr: Attr,
    op: SizeOperator,
    t: Box<CType>,
) -> Result<Box<Expr>, OutOfMemory>
    ensures { IfOk result (λ e. view_expr e.value
        ≡ Is place (view_attr attr) (typed.SizeOfType op (view t.value))) }
{
    node(alloc, place, attr, ExprKind::SizeOfType(op, t))
}

/// A cast.
pub fn cast(alloc: Global, place: Place, attr: Attr, a: Box<Expr>) -> Result<Box<Expr>, OutOfMemory>
    ensures { IfOk result (λ e. view_expr e.value ≡ Is place (view_attr attr) (typed.Cast (view_expr a.value))) }
{
    node(alloc, place, attr, ExprKind::Cast(a))
}

/// A binary operator other than `&&` and `||`.
pub fn binary(
    alloc: Global,
    place: Place,
    attr: Attr,
    op: BinOp,
    a: Box<Expr>,
    b: Box<Expr>,
) -> Result<Box<Expr>, OutOfMemory>
    ensures { IfOk result (λ e. view_expr e.value
        ≡ Is place (view_attr attr) (typed.Binary op (view_expr a.value) (view_expr b.value))) }
{
    node(alloc, place, attr, ExprKind::Binary(op, a, b))
}

/// `a && b`.
pub fn and(
    alloc: Global,
    place: Place,
    attr: Attr,
    a: Box<Expr>,
    b: Box<Expr>,
) -> Result<Box<Expr>, OutOfMemory>
    ensures { IfOk result (λ e. view_expr e.value
        ≡ Is place (view_attr attr) (typed.And (view_expr a.value) (view_expr b.value))) }
{
    node(alloc, place, attr, ExprKind::And(a, b))
}

/// `a || b`.
pub fn or(
    alloc: Global,
    place: Place,
    attr: Attr,
    a: Box<Expr>,
    b: Box<Expr>,
) -> Result<Box<Expr>, OutOfMemory>
    ensures { IfOk result (λ e. view_expr e.value
        ≡ Is place (view_attr attr) (typed.Or (view_expr a.value) (view_expr b.value))) }
{
    node(alloc, place, attr, ExprKind::Or(a, b))
}

/// `a = b`.
pub fn assign(
    alloc: Global,
    place: Place,
    attr: Attr,
    a: Box<Expr>,
    b: Box<Expr>,
) -> Result<Box<Expr>, OutOfMemory>
    ensures { IfOk result (λ e. view_expr e.value
        ≡ Is place (view_attr attr) (typed.Assign (view_expr a.value) (view_expr b.value))) }
{
    node(alloc, place, attr, ExprKind::Assign(a, b))
}

/// A compound assignment.
pub fn compound(
    alloc: Global,
    place: Place,
    attr: Attr,
    op: BinOp,
    a: Box<Expr>,
    b: Box<Expr>,
) -> Result<Box<Expr>, OutOfMemory>
    ensures { IfOk result (λ e. view_expr e.value
        ≡ Is place (view_attr attr) (typed.Compound op (view_expr a.value) (view_expr b.value))) }
{
    node(alloc, place, attr, ExprKind::Compound(op, a, b))
}

/// `test ? a : b`.
pub fn conditional(
    alloc: Global,
    place: Place,
    attr: Attr,
    test: Box<Expr>,
    a: Box<Expr>,
    b: Box<Expr>,
) -> Result<Box<Expr>, OutOfMemory>
    ensures { IfOk result (λ e. view_expr e.value
        ≡ Is place (view_attr attr)
        (typed.Conditional (view_expr test.value) (view_expr a.value) (view_expr b.value))) }
{
    node(alloc, place, attr, ExprKind::Conditional(test, a, b))
}

/// Expressions with commas between them.
pub fn comma(
    alloc: Global,
    place: Place,
    attr: Attr,
    parts: Vec<Expr>,
) -> Result<Box<Expr>, OutOfMemory>
    ensures { IfOk result (λ e. view_expr e.value
        ≡ Is place (view_attr attr) (typed.Comma (exprs_of (map view_expr parts.items)))) }
{
    node(alloc, place, attr, ExprKind::Comma(parts))
}
