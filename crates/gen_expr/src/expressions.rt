//! The code of expressions, appended (C99 6.5, UPC 6.4).

ghost use Rattle.std.specs.Prelude.{◌≡◌, [], ◌∷◌, ◌++◌, IsTrue, IfOk, OnOk, drop, map};
ghost use Rattle.upc_types.specs.View.{view};
ghost use Rattle.typing_rules.specs.Nodes.{view_attr};
ghost use Rattle.typed_tree.specs.Tree.{Call, exprs_of};
ghost use Rattle.typed_tree.specs.ViewTree.{view_expr};
ghost use Rattle.source_meaning.specs.Types as types;
ghost use Rattle.stack_code.specs.declared.instruction.StackWork.TheVariants.{Truth};
ghost use Rattle.gen_expr.specs.layer.Codes as pure;
ghost use Rattle.gen_expr.specs.layer.ViewSource.{view_source};
ghost use Rattle.gen_expr.specs.code.Groups.{is_leaf, is_unary, is_infix, is_assignment, is_choice};
ghost use Rattle.gen_expr.specs.code.Calls.{function_call_code, library_call_code};

use crate::access::{
    put_compound, put_held, put_kept, put_step, put_step_effect, put_subscript, put_value_in,
};
use crate::branches::{constant_part, put_branches};
use crate::calls::{
    call_casts, count, library_casts, promotions, put_call_to, put_library, put_print,
};
use crate::objects::put_object;
use crate::operators::{put_binary, put_unary};
use crate::places::{put_constant, put_nothing};
use crate::put::{put_cast, put_stack, put_value};
use crate::source::Source;
use meaning_types::{
    conversion, dimension, inner_place, integer_of, is_printf, member_offset, target_of,
    target_offset,
};
use stack_code::{Instr, StackWork, ValueWork};
use std::alloc::Global;
use thread_steps::CastTo;
use typed_tree::{Expr, ExprKind, Target};
use typing_rules::{Attr, Form};
use upc_text::{OutOfMemory, Place};
use upc_types::CType;
use upc_values::LibraryCall;

/// Appends the code of the value of an expression.
#[cycle(expression_code)]
pub fn put_value_code(
    code: &mut Vec<Instr>,
    source: Source<'_>,
    strict: bool,
    e: &Expr,
) -> Result<(), OutOfMemory>
    ensures { OnOk result (code.new.items
        ≡ code.old.items ++ pure.value_code (view_source source.entry) strict (view_expr e.now)) }
{
    put_address_code(code, source, strict, e)?;
    put_value_in(code, source, strict, inner_place(e), &e.attr)
}

/// Appends the code of the place of the object that an expression names, or of its value where it names none.
#[cycle(expression_code)]
pub fn put_address_code(
    code: &mut Vec<Instr>,
    source: Source<'_>,
    strict: bool,
    e: &Expr,
) -> Result<(), OutOfMemory>
    ensures { OnOk result (code.new.items
        ≡ code.old.items ++ pure.address_code (view_source source.entry) strict (view_expr e.now)) }
{
    match &e.kind {
        ExprKind::Literal
        | ExprKind::Mythread
        | ExprKind::Object(_)
        | ExprKind::Callee(_)
        | ExprKind::Format(_)
        | ExprKind::SizeOf(_, _)
        | ExprKind::SizeOfType(_, _) => put_leaf(code, source, strict, e),
        ExprKind::Paren(a) | ExprKind::Address(a) => put_address_code(code, source, strict, a),
        ExprKind::Dereference(a) => put_value_code(code, source, strict, a),
        ExprKind::Member(_, _)
        | ExprKind::MemberBehind(_, _)
        | ExprKind::Step(_, _)
        | ExprKind::Unary(_, _)
        | ExprKind::Cast(_) => put_on_one(code, source, strict, e),
        ExprKind::Subscript(_, _) | ExprKind::Binary(_, _, _) => put_infix(code, source, strict, e),
        ExprKind::Assign(_, _) | ExprKind::Compound(_, _, _) => {
            put_assignment(code, source, strict, e)
        }
        ExprKind::And(_, _) | ExprKind::Or(_, _) | ExprKind::Conditional(_, _, _) => {
            put_choice(code, source, strict, e)
        }
        ExprKind::Call(target, args) => {
            put_call(
                code,
                source,
                strict,
                args.as_slice(),
                e.place,
                &e.attr,
                *target,
            )
        }
        ExprKind::Comma(parts) => put_parts(code, source, strict, parts.as_slice(), e.place),
    }
}

// Constants, names, and the number of the thread (C99 6.5.1, 6.5.3.4; UPC 6.4.1).
fn put_leaf(
    code: &mut Vec<Instr>,
    source: Source<'_>,
    strict: bool,
    e: &Expr,
) -> Result<(), OutOfMemory>
    requires { IsTrue (is_leaf (view_expr e.now)) }
    ensures { OnOk result (code.new.items
        ≡ code.old.items ++ pure.address_code (view_source source.entry) strict (view_expr e.now)) }
{
    match &e.kind {
        ExprKind::Literal | ExprKind::SizeOf(_, _) | ExprKind::SizeOfType(_, _) => {
            put_constant(code, e.place, e.attr.constant)
        }
        ExprKind::Mythread => put_stack(code, e.place, StackWork::Me),
        ExprKind::Object(home) => put_object(code, source, e.place, *home),
        ExprKind::Callee(_) | ExprKind::Format(_) => put_nothing(code, e.place),
        _ => unreachable!(),
    }
}

// Operators on one operand, and members (C99 6.5.2.3, 6.5.2.4, 6.5.3, 6.5.4).
#[cycle(expression_code)]
fn put_on_one(
    code: &mut Vec<Instr>,
    source: Source<'_>,
    strict: bool,
    e: &Expr,
) -> Result<(), OutOfMemory>
    requires { IsTrue (is_unary (view_expr e.now)) }
    ensures { OnOk result (code.new.items
        ≡ code.old.items ++ pure.address_code (view_source source.entry) strict (view_expr e.now)) }
{
    match &e.kind {
        ExprKind::Member(a, index) => {
            put_address_code(code, source, strict, a)?;
            let offset = member_offset(source.structs, &a.attr.ctype, *index);
            put_value(code, e.place, ValueWork::Member(offset))
        }
        ExprKind::MemberBehind(a, index) => {
            put_value_code(code, source, strict, a)?;
            let offset = target_offset(source.structs, target_of(&a.attr.ctype), *index);
            put_value(code, e.place, ValueWork::Member(offset))
        }
        ExprKind::Step(operator, a) => {
            put_address_code(code, source, strict, a)?;
            put_step(code, source, strict, e.place, *operator, &a.attr.ctype)
        }
        ExprKind::Unary(operator, a) => {
            put_value_code(code, source, strict, a)?;
            put_unary(code, e.place, *operator, integer_of(&a.attr.ctype))
        }
        ExprKind::Cast(a) => {
            put_value_code(code, source, strict, a)?;
            put_cast(code, e.place, conversion(&a.attr.ctype, &e.attr.ctype))
        }
        _ => unreachable!(),
    }
}

// Operators on the values of two operands (C99 6.5.2.1, 6.5.5 to 6.5.12).
#[cycle(expression_code)]
fn put_infix(
    code: &mut Vec<Instr>,
    source: Source<'_>,
    strict: bool,
    e: &Expr,
) -> Result<(), OutOfMemory>
    requires { IsTrue (is_infix (view_expr e.now)) }
    ensures { OnOk result (code.new.items
        ≡ code.old.items ++ pure.address_code (view_source source.entry) strict (view_expr e.now)) }
{
    match &e.kind {
        ExprKind::Subscript(a, i) => {
            put_value_code(code, source, strict, a)?;
            put_value_code(code, source, strict, i)?;
            put_subscript(code, source, e.place, &e.attr.ctype, dimension(a))
        }
        ExprKind::Binary(operator, a, b) => {
            put_value_code(code, source, strict, a)?;
            put_value_code(code, source, strict, b)?;
            put_binary(
                code,
                source,
                e.place,
                *operator,
                &a.attr.ctype,
                &b.attr.ctype,
            )
        }
        _ => unreachable!(),
    }
}

// Assignments (C99 6.5.16).
#[cycle(expression_code)]
fn put_assignment(
    code: &mut Vec<Instr>,
    source: Source<'_>,
    strict: bool,
    e: &Expr,
) -> Result<(), OutOfMemory>
    requires { IsTrue (is_assignment (view_expr e.now)) }
    ensures { OnOk result (code.new.items
        ≡ code.old.items ++ pure.address_code (view_source source.entry) strict (view_expr e.now)) }
{
    match &e.kind {
        ExprKind::Assign(a, b) => {
            put_address_code(code, source, strict, a)?;
            put_cast_value(
                code,
                source,
                strict,
                b,
                conversion(&b.attr.ctype, &a.attr.ctype),
            )?;
            put_kept(code, source, strict, e.place, &a.attr.ctype)
        }
        ExprKind::Compound(operator, a, b) => {
            put_address_code(code, source, strict, a)?;
            put_value_code(code, source, strict, b)?;
            put_compound(
                code,
                source,
                strict,
                e.place,
                *operator,
                &a.attr.ctype,
                &b.attr.ctype,
            )
        }
        _ => unreachable!(),
    }
}

// What does one of two parts (C99 6.5.13 to 6.5.15).
#[cycle(expression_code)]
fn put_choice(
    code: &mut Vec<Instr>,
    source: Source<'_>,
    strict: bool,
    e: &Expr,
) -> Result<(), OutOfMemory>
    requires { IsTrue (is_choice (view_expr e.now)) }
    ensures { OnOk result (code.new.items
        ≡ code.old.items ++ pure.address_code (view_source source.entry) strict (view_expr e.now)) }
{
    let alloc = *code.allocator();
    match &e.kind {
        ExprKind::And(a, b) => {
            put_value_code(code, source, strict, a)?;
            let first = truth_part(alloc, source, strict, e.place, b)?;
            put_branches(code, e.place, first, constant_part(alloc, e.place, 0)?)
        }
        ExprKind::Or(a, b) => {
            put_value_code(code, source, strict, a)?;
            let second = truth_part(alloc, source, strict, e.place, b)?;
            put_branches(code, e.place, constant_part(alloc, e.place, 1)?, second)
        }
        ExprKind::Conditional(test, a, b) => {
            put_value_code(code, source, strict, test)?;
            let first = converted_part(alloc, source, strict, a, &e.attr.ctype)?;
            let second = converted_part(alloc, source, strict, b, &e.attr.ctype)?;
            put_branches(code, e.place, first, second)
        }
        _ => unreachable!(),
    }
}

// The code of whether an expression is not 0.
#[cycle(expression_code)]
fn truth_part(
    alloc: Global,
    source: Source<'_>,
    strict: bool,
    place: Place,
    e: &Expr,
) -> Result<Vec<Instr>, OutOfMemory>
    ensures { IfOk result (λ code. code.items
        ≡ pure.value_code (view_source source.entry) strict (view_expr e.now) ++ (pure.stacks place Truth ∷ [])) }
{
    let mut code = Vec::new(alloc);
    put_value_code(&mut code, source, strict, e)?;
    put_stack(&mut code, place, StackWork::Truth)?;
    Ok(code)
}

// The code of the value of an expression as one of another type.
#[cycle(expression_code)]
fn converted_part(
    alloc: Global,
    source: Source<'_>,
    strict: bool,
    e: &Expr,
    t: &CType,
) -> Result<Vec<Instr>, OutOfMemory>
    ensures { IfOk result (λ code. code.items
        ≡ pure.value_code (view_source source.entry) strict (view_expr e.now)
        ++ (pure.casts e.now.place (types.conversion (view e.now.attr.ctype) (view t.now)) ∷ [])) }
{
    let mut code = Vec::new(alloc);
    put_cast_value(&mut code, source, strict, e, conversion(&e.attr.ctype, t))?;
    Ok(code)
}

// Appends the code of the value of an expression, cast.
#[cycle(expression_code)]
fn put_cast_value(
    code: &mut Vec<Instr>,
    source: Source<'_>,
    strict: bool,
    e: &Expr,
    into: CastTo,
) -> Result<(), OutOfMemory>
    ensures { OnOk result (code.new.items
        ≡ code.old.items ++ (pure.value_code (view_source source.entry) strict (view_expr e.now)
        ++ (pure.casts e.now.place into ∷ []))) }
{
    put_value_code(code, source, strict, e)?;
    put_cast(code, e.place, into)
}

// A call (C99 6.5.2.2, 7.19.6.3; UPC 7.2, 7.3).
#[cycle(expression_code)]
fn put_call(
    code: &mut Vec<Instr>,
    source: Source<'_>,
    strict: bool,
    args: &[Expr],
    place: Place,
    attr: &Attr,
    target: Target,
) -> Result<(), OutOfMemory>
    ensures { OnOk result (code.new.items
        ≡ code.old.items ++ pure.given_code (view_source source.entry) strict place (view_attr attr.now)
        (Call target (exprs_of (map view_expr args.now)))) }
{
    match target {
        Target::Function(number) => put_function_call(code, source, strict, args, place, number),
        Target::Library(call) => {
            if is_printf(call) {
                put_printed(code, source, strict, args, place)
            } else {
                put_library_call(code, source, strict, args, place, attr, call)
            }
        }
    }
}

// A call of a function of the source (C99 6.5.2.2).
#[cycle(expression_code)]
fn put_function_call(
    code: &mut Vec<Instr>,
    source: Source<'_>,
    strict: bool,
    args: &[Expr],
    place: Place,
    number: u32,
) -> Result<(), OutOfMemory>
    ensures { OnOk result (code.new.items
        ≡ code.old.items ++ function_call_code (view_source source.entry) strict place number
        (exprs_of (map view_expr args.now))) }
{
    let casts = call_casts(*code.allocator(), source, number, args)?;
    put_arguments(code, source, strict, args, 0, casts.as_slice())?;
    put_call_to(code, place, number, count(casts.as_slice(), args))
}

// A call of the library (UPC 7.2, 7.3).
#[cycle(expression_code)]
fn put_library_call(
    code: &mut Vec<Instr>,
    source: Source<'_>,
    strict: bool,
    args: &[Expr],
    place: Place,
    attr: &Attr,
    call: LibraryCall,
) -> Result<(), OutOfMemory>
    ensures { OnOk result (code.new.items
        ≡ code.old.items ++ library_call_code (view_source source.entry) strict place (view attr.now.ctype) call
        (exprs_of (map view_expr args.now))) }
{
    let casts = library_casts(*code.allocator(), call)?;
    put_arguments(code, source, strict, args, 0, casts.as_slice())?;
    put_library(
        code,
        source,
        place,
        &attr.ctype,
        call,
        count(casts.as_slice(), args),
    )
}

// A printf (C99 7.19.6.3).
#[cycle(expression_code)]
fn put_printed(
    code: &mut Vec<Instr>,
    source: Source<'_>,
    strict: bool,
    args: &[Expr],
    place: Place,
) -> Result<(), OutOfMemory>
    ensures { OnOk result (code.new.items
        ≡ code.old.items ++ pure.printed_code (view_source source.entry) strict place
        (exprs_of (map view_expr args.now))) }
{
    match args.split_first() {
        None => put_nothing(code, place),
        Some((format, more)) => {
            let casts = promotions(*code.allocator(), more)?;
            put_arguments(code, source, strict, args, 1, casts.as_slice())?;
            put_print(code, place, format, count(casts.as_slice(), more))
        }
    }
}

// The arguments from one on, while they have a conversion (C99 6.5.2.2).
#[cycle(expression_code)]
fn put_arguments(
    code: &mut Vec<Instr>,
    source: Source<'_>,
    strict: bool,
    args: &[Expr],
    first: usize,
    casts: &[CastTo],
) -> Result<(), OutOfMemory>
    ensures { OnOk result (code.new.items
        ≡ code.old.items ++ pure.arguments_code (view_source source.entry) strict casts.now
        (exprs_of (map view_expr (drop first args.now)))) }
{
    let mut rest = casts;
    for i in first..args.len() {
        let Some((into, more)) = rest.split_first() else {
            return Ok(());
        };
        put_cast_value(code, source, strict, &args[i], *into)?;
        rest = more;
    }
    Ok(())
}

// The value of the last of some expressions, after what the others do (C99 6.5.17).
#[cycle(expression_code)]
fn put_parts(
    code: &mut Vec<Instr>,
    source: Source<'_>,
    strict: bool,
    parts: &[Expr],
    place: Place,
) -> Result<(), OutOfMemory>
    ensures { OnOk result (code.new.items
        ≡ code.old.items ++ pure.last_code (view_source source.entry) strict place
        (exprs_of (map view_expr parts.now))) }
{
    if parts.is_empty() {
        return put_nothing(code, place);
    }
    let last = parts.len() - 1;
    for i in 0..last {
        put_effect_code(code, source, strict, &parts[i])?;
    }
    put_value_code(code, source, strict, &parts[last])
}

/// Appends the code of an expression for what it does: it leaves no operand.
#[cycle(expression_code)]
pub fn put_effect_code(
    code: &mut Vec<Instr>,
    source: Source<'_>,
    strict: bool,
    e: &Expr,
) -> Result<(), OutOfMemory>
    ensures { OnOk result (code.new.items
        ≡ code.old.items ++ pure.effect_code (view_source source.entry) strict (view_expr e.now)) }
{
    match e.attr.form {
        Form::Lvalue(_) => {
            put_address_code(code, source, strict, e)?;
            put_held(code, source, strict, inner_place(e), &e.attr.ctype)?;
            put_stack(code, e.place, StackWork::Pop)
        }
        _ => put_done(code, source, strict, e),
    }
}

// An expression for what it does, where nothing is read.
#[cycle(expression_code)]
fn put_done(
    code: &mut Vec<Instr>,
    source: Source<'_>,
    strict: bool,
    e: &Expr,
) -> Result<(), OutOfMemory>
    ensures { OnOk result (code.new.items
        ≡ code.old.items ++ pure.dropped_address_code (view_source source.entry) strict (view_expr e.now)
        (pure.address_code (view_source source.entry) strict (view_expr e.now))) }
{
    match &e.kind {
        ExprKind::Paren(a) => put_done(code, source, strict, a),
        ExprKind::Step(operator, a) => {
            put_address_code(code, source, strict, a)?;
            put_step_effect(code, source, strict, e.place, *operator, &a.attr.ctype)
        }
        ExprKind::Cast(a) => match conversion(&a.attr.ctype, &e.attr.ctype) {
            CastTo::Nothing => put_effect_code(code, source, strict, a),
            _ => put_popped(code, source, strict, e),
        },
        ExprKind::Comma(parts) => put_effects(code, source, strict, parts.as_slice()),
        _ => put_popped(code, source, strict, e),
    }
}

// What an expression gives, which is removed.
#[cycle(expression_code)]
fn put_popped(
    code: &mut Vec<Instr>,
    source: Source<'_>,
    strict: bool,
    e: &Expr,
) -> Result<(), OutOfMemory>
    ensures { OnOk result (code.new.items
        ≡ code.old.items ++ pure.popped_code e.now.place
        (pure.address_code (view_source source.entry) strict (view_expr e.now))) }
{
    put_address_code(code, source, strict, e)?;
    put_stack(code, e.place, StackWork::Pop)
}

// Some expressions, each for what it does (C99 6.5.17).
#[cycle(expression_code)]
fn put_effects(
    code: &mut Vec<Instr>,
    source: Source<'_>,
    strict: bool,
    parts: &[Expr],
) -> Result<(), OutOfMemory>
    ensures { OnOk result (code.new.items
        ≡ code.old.items ++ pure.effects_code (view_source source.entry) strict
        (exprs_of (map view_expr parts.now))) }
{
    for i in 0..parts.len() {
        put_effect_code(code, source, strict, &parts[i])?;
    }
    Ok(())
}
