//! The code of objects and of accesses to them (C99 6.2.4, 6.3.2.1, 6.5.2.1, 6.5.2.4, 6.5.16; UPC 6.5.1).

ghost use Rattle.std.specs.Prelude.{◌≡◌, ◌++◌, OnOk};
ghost use Rattle.upc_types.specs.View.{view};
ghost use Rattle.typing_rules.specs.Nodes.{view_attr};
ghost use Rattle.gen_expr.specs.layer.Codes as pure;
ghost use Rattle.gen_expr.specs.layer.ViewSource.{view_source};

use crate::operators::{put_advance, put_binary};
use crate::put::{put_cast, put_load, put_push, put_save, put_stack, put_value};
use crate::source::Source;
use integers::BinOp;
use meaning_types::{cell_kind, conversion, is_strict};
use stack_code::{Instr, StackWork, ValueWork};
use typed_tree::StepOperator;
use typing_rules::types::int_type;
use typing_rules::{Attr, Form};
use upc_text::{OutOfMemory, Place};
use upc_types::CType;
use upc_values::{Scalar, Value};

/// Appends the code of the value of the object of a type at the place on top.
pub(crate) fn put_held(
    code: &mut Vec<Instr>,
    source: Source<'_>,
    strict: bool,
    place: Place,
    t: &CType,
) -> Result<(), OutOfMemory>
    ensures { OnOk result (code.new.items
        ≡ code.old.items ++ pure.held_code (view_source source.entry) strict place (view t.now)) }
{
    match cell_kind(source.structs, t) {
        Some(kind) => put_load(code, place, kind, is_strict(strict, t)),
        None => Ok(()),
    }
}

fn put_under(code: &mut Vec<Instr>, place: Place) -> Result<(), OutOfMemory>
    ensures { OnOk result (code.new.items ≡ code.old.items ++ pure.under_code place) }
{
    put_stack(code, place, StackWork::Swap)?;
    put_stack(code, place, StackWork::Pop)
}

/// Appends the code that keeps the value on top in the object of a type at the place below it.
pub fn put_kept(
    code: &mut Vec<Instr>,
    source: Source<'_>,
    strict: bool,
    place: Place,
    t: &CType,
) -> Result<(), OutOfMemory>
    ensures { OnOk result (code.new.items
        ≡ code.old.items ++ pure.put_code (view_source source.entry) strict place (view t.now)) }
{
    match cell_kind(source.structs, t) {
        Some(kind) => put_save(code, place, kind, is_strict(strict, t)),
        None => put_under(code, place),
    }
}

/// Appends the code of the value of what names an object, or nothing.
pub(crate) fn put_value_in(
    code: &mut Vec<Instr>,
    source: Source<'_>,
    strict: bool,
    place: Place,
    attr: &Attr,
) -> Result<(), OutOfMemory>
    ensures { OnOk result (code.new.items
        ≡ code.old.items ++ pure.value_in_code (view_source source.entry) strict place (view_attr attr.now)) }
{
    match attr.form {
        Form::Lvalue(_) => put_held(code, source, strict, place, &attr.ctype),
        _ => Ok(()),
    }
}

/// Appends the code of the place that a subscript names.
pub(crate) fn put_subscript(
    code: &mut Vec<Instr>,
    source: Source<'_>,
    place: Place,
    t: &CType,
    dimension: Option<u32>,
) -> Result<(), OutOfMemory>
    ensures { OnOk result (code.new.items
        ≡ code.old.items ++ pure.subscript_code (view_source source.entry) place (view t.now) dimension) }
{
    match dimension {
        None => put_advance(code, source, place, t),
        Some(count) => {
            put_stack(code, place, StackWork::Over)?;
            put_stack(code, place, StackWork::Over)?;
            put_advance(code, source, place, t)?;
            put_value(code, place, ValueWork::InRow(count))
        }
    }
}

// A conversion, and what keeps its value.
fn put_cast_kept(
    code: &mut Vec<Instr>,
    source: Source<'_>,
    strict: bool,
    place: Place,
    t: &CType,
) -> Result<(), OutOfMemory>
    ensures { OnOk result (code.new.items
        ≡ code.old.items ++ pure.again_code (view_source source.entry) strict place (view t.now)) }
{
    put_cast(code, place, conversion(t, t))?;
    put_kept(code, source, strict, place, t)
}

fn put_first_step(
    code: &mut Vec<Instr>,
    source: Source<'_>,
    strict: bool,
    place: Place,
    operator: BinOp,
    t: &CType,
) -> Result<(), OutOfMemory>
    ensures { OnOk result (code.new.items
        ≡ code.old.items ++ pure.first_step_code (view_source source.entry) strict place operator (view t.now)) }
{
    put_stack(code, place, StackWork::Copy)?;
    put_held(code, source, strict, place, t)?;
    put_push(code, place, Value::Scalar(Scalar::Int(1)))?;
    put_binary(code, source, place, operator, t, &int_type())?;
    put_cast_kept(code, source, strict, place, t)
}

fn put_after_step(
    code: &mut Vec<Instr>,
    source: Source<'_>,
    strict: bool,
    place: Place,
    operator: BinOp,
    t: &CType,
) -> Result<(), OutOfMemory>
    ensures { OnOk result (code.new.items
        ≡ code.old.items ++ pure.after_step_code (view_source source.entry) strict place operator (view t.now)) }
{
    put_stack(code, place, StackWork::Copy)?;
    put_held(code, source, strict, place, t)?;
    put_stack(code, place, StackWork::Swap)?;
    put_stack(code, place, StackWork::Over)?;
    put_push(code, place, Value::Scalar(Scalar::Int(1)))?;
    put_binary(code, source, place, operator, t, &int_type())?;
    put_cast_kept(code, source, strict, place, t)?;
    put_stack(code, place, StackWork::Pop)
}

fn put_plain_step(
    code: &mut Vec<Instr>,
    source: Source<'_>,
    strict: bool,
    place: Place,
    operator: BinOp,
    t: &CType,
) -> Result<(), OutOfMemory>
    ensures { OnOk result (code.new.items
        ≡ code.old.items ++ pure.plain_step_code (view_source source.entry) strict place operator (view t.now)) }
{
    put_stack(code, place, StackWork::Copy)?;
    put_held(code, source, strict, place, t)?;
    put_push(code, place, Value::Scalar(Scalar::Int(1)))?;
    put_binary(code, source, place, operator, t, &int_type())?;
    put_cast_kept(code, source, strict, place, t)?;
    put_stack(code, place, StackWork::Pop)
}

/// Appends the code of what `++` and `--` do to the place on top.
pub(crate) fn put_step_effect(
    code: &mut Vec<Instr>,
    source: Source<'_>,
    strict: bool,
    place: Place,
    operator: StepOperator,
    t: &CType,
) -> Result<(), OutOfMemory>
    ensures { OnOk result (code.new.items
        ≡ code.old.items ++ pure.step_effect_code (view_source source.entry) strict place operator (view t.now)) }
{
    match operator {
        StepOperator::IncrementFirst | StepOperator::IncrementAfter => {
            put_plain_step(code, source, strict, place, BinOp::Add, t)
        }
        StepOperator::DecrementFirst | StepOperator::DecrementAfter => {
            put_plain_step(code, source, strict, place, BinOp::Subtract, t)
        }
    }
}

/// Appends the code of `++` and `--` on the place on top.
pub(crate) fn put_step(
    code: &mut Vec<Instr>,
    source: Source<'_>,
    strict: bool,
    place: Place,
    operator: StepOperator,
    t: &CType,
) -> Result<(), OutOfMemory>
    ensures { OnOk result (code.new.items
        ≡ code.old.items ++ pure.step_code (view_source source.entry) strict place operator (view t.now)) }
{
    match operator {
        StepOperator::IncrementFirst => put_first_step(code, source, strict, place, BinOp::Add, t),
        StepOperator::DecrementFirst => put_first_step(
            code,
            source,
            strict,
            place,
            BinOp::Subtract,
            t,
        ),
        StepOperator::IncrementAfter => put_after_step(code, source, strict, place, BinOp::Add, t),
        StepOperator::DecrementAfter => put_after_step(
            code,
            source,
            strict,
            place,
            BinOp::Subtract,
            t,
        ),
    }
}

/// Appends the code of a compound assignment, from the place and the right operand on top.
pub(crate) fn put_compound(
    code: &mut Vec<Instr>,
    source: Source<'_>,
    strict: bool,
    place: Place,
    operator: BinOp,
    left: &CType,
    right: &CType,
) -> Result<(), OutOfMemory>
    ensures { OnOk result (code.new.items
        ≡ code.old.items
        ++ pure.compound_code (view_source source.entry) strict place operator (view left.now) (view right.now)) }
{
    put_stack(code, place, StackWork::Over)?;
    put_held(code, source, strict, place, left)?;
    put_stack(code, place, StackWork::Swap)?;
    put_binary(code, source, place, operator, left, right)?;
    put_cast_kept(code, source, strict, place, left)
}
