//! The code of operators (C99 6.5.3.3, 6.5.5 to 6.5.12; UPC 6.4.2).

ghost use Rattle.std.specs.Prelude.{◌≡◌, ◌++◌, IfSome, OnOk};
ghost use Rattle.integers.specs.Integers.{IsInteger};
ghost use Rattle.upc_types.specs.View.{view};
ghost use Rattle.typing_rules.specs.layer.Views.{view_target};
ghost use Rattle.typing_rules.specs.Constants as constants;
ghost use Rattle.gen_expr.specs.layer.Codes as pure;
ghost use Rattle.gen_expr.specs.layer.ViewSource.{view_source};

use crate::put::{put_push, put_stack, put_value};
use crate::source::Source;
use block_layout::Kind;
use integers::{BinOp, UnOp};
use meaning_types::{elements_of, integer_of, leaves_of, target_of};
use stack_code::{Instr, StackWork, ValueWork};
use typing_rules::constants::working_kind;
use upc_text::{OutOfMemory, Place};
use upc_types::{CType, promoted, usual};
use upc_values::{Scalar, Value};

// What stands where there is no value.
fn put_no_value(code: &mut Vec<Instr>, place: Place) -> Result<(), OutOfMemory>
    ensures { OnOk result (code.new.items ≡ code.old.items ++ pure.no_value_code place) }
{
    put_stack(code, place, StackWork::Pop)?;
    put_stack(code, place, StackWork::Pop)?;
    put_push(code, place, Value::Scalar(Scalar::Int(0)))
}

/// Appends the code of a unary operator on the value on top.
pub(crate) fn put_unary(
    code: &mut Vec<Instr>,
    place: Place,
    operator: UnOp,
    kind: Option<Kind>,
) -> Result<(), OutOfMemory>
    requires { IfSome kind IsInteger }
    ensures { OnOk result (code.new.items ≡ code.old.items ++ pure.unary_code place operator kind) }
{
    match (operator, kind) {
        (UnOp::Not, _) => put_stack(code, place, StackWork::Not),
        (_, Some(kind)) => put_value(
            code,
            place,
            ValueWork::Apply {
                operator,
                kind: promoted(kind),
            },
        ),
        (_, None) => {
            put_stack(code, place, StackWork::Pop)?;
            put_push(code, place, Value::Scalar(Scalar::Int(0)))
        }
    }
}

// The kind of the right operand of a binary operator.
fn right_kind(operator: BinOp, left: Kind, right: Kind) -> Kind
    requires left { IsInteger left }
    requires right { IsInteger right }
    ensures { result ≡ constants.right_kind operator left right }
{
    match operator {
        BinOp::ShiftLeft | BinOp::ShiftRight => promoted(right),
        _ => usual(left, right),
    }
}

fn put_integers(
    code: &mut Vec<Instr>,
    place: Place,
    operator: BinOp,
    left: Option<Kind>,
    right: Option<Kind>,
) -> Result<(), OutOfMemory>
    requires left { IfSome left IsInteger }
    requires right { IfSome right IsInteger }
    ensures { OnOk result (code.new.items ≡ code.old.items ++ pure.integers_code place operator left right) }
{
    match (left, right) {
        (Some(j), Some(k)) => put_value(
            code,
            place,
            ValueWork::Operate {
                operator,
                left: working_kind(operator, j, k),
                right: right_kind(operator, j, k),
            },
        ),
        _ => put_no_value(code, place),
    }
}

/// Appends the code of a pointer that an integer on top moves on.
pub fn put_advance(
    code: &mut Vec<Instr>,
    source: Source<'_>,
    place: Place,
    t: &CType,
) -> Result<(), OutOfMemory>
    ensures { OnOk result (code.new.items
        ≡ code.old.items ++ pure.advance_code (view_source source.entry) place (view t.now)) }
{
    let elements = elements_of(source.structs, t);
    match leaves_of(&t.base) {
        Some(count) => put_value(code, place, ValueWork::Advance { elements, count }),
        None => Err(OutOfMemory),
    }
}

fn put_retreat(
    code: &mut Vec<Instr>,
    source: Source<'_>,
    place: Place,
    t: &CType,
) -> Result<(), OutOfMemory>
    ensures { OnOk result (code.new.items
        ≡ code.old.items ++ pure.retreat_code (view_source source.entry) place (view t.now)) }
{
    let elements = elements_of(source.structs, t);
    match leaves_of(&t.base) {
        Some(count) => put_value(code, place, ValueWork::Retreat { elements, count }),
        None => Err(OutOfMemory),
    }
}

fn put_different(code: &mut Vec<Instr>, place: Place) -> Result<(), OutOfMemory>
    ensures { OnOk result (code.new.items ≡ code.old.items ++ pure.different_code place) }
{
    put_value(code, place, ValueWork::Same)?;
    put_stack(code, place, StackWork::Not)
}

fn put_on_pointers(
    code: &mut Vec<Instr>,
    source: Source<'_>,
    place: Place,
    operator: BinOp,
    t: &CType,
) -> Result<(), OutOfMemory>
    ensures { OnOk result (code.new.items
        ≡ code.old.items ++ pure.on_pointers_code (view_source source.entry) place operator (view t.now)) }
{
    let elements = elements_of(source.structs, t);
    match operator {
        BinOp::Subtract => put_value(code, place, ValueWork::Difference(elements)),
        BinOp::Equal => put_value(code, place, ValueWork::Same),
        BinOp::NotEqual => put_different(code, place),
        _ => put_value(code, place, ValueWork::Order { operator, elements }),
    }
}

fn put_on_pointer(
    code: &mut Vec<Instr>,
    source: Source<'_>,
    place: Place,
    operator: BinOp,
    t: &CType,
) -> Result<(), OutOfMemory>
    ensures { OnOk result (code.new.items
        ≡ code.old.items ++ pure.on_pointer_code (view_source source.entry) place operator (view t.now)) }
{
    match operator {
        BinOp::Add => put_advance(code, source, place, t),
        BinOp::Subtract => put_retreat(code, source, place, t),
        _ => put_on_pointers(code, source, place, operator, t),
    }
}

fn put_before_pointer(
    code: &mut Vec<Instr>,
    source: Source<'_>,
    place: Place,
    operator: BinOp,
    t: &CType,
) -> Result<(), OutOfMemory>
    ensures { OnOk result (code.new.items
        ≡ code.old.items ++ pure.before_pointer_code (view_source source.entry) place operator (view t.now)) }
{
    match operator {
        BinOp::Add => {
            put_stack(code, place, StackWork::Swap)?;
            put_advance(code, source, place, t)
        }
        _ => put_on_pointers(code, source, place, operator, t),
    }
}

/// Appends the code of a binary operator on the values of two types on top.
pub(crate) fn put_binary(
    code: &mut Vec<Instr>,
    source: Source<'_>,
    place: Place,
    operator: BinOp,
    left: &CType,
    right: &CType,
) -> Result<(), OutOfMemory>
    ensures { OnOk result (code.new.items
        ≡ code.old.items ++ pure.binary_code (view_source source.entry) place operator
        (view left.now) (view right.now)) }
{
    match (target_of(left), target_of(right)) {
        (Some(t), Some(_)) => put_on_pointers(code, source, place, operator, t),
        (Some(t), None) => put_on_pointer(code, source, place, operator, t),
        (None, Some(u)) => put_before_pointer(code, source, place, operator, u),
        (None, None) => put_integers(code, place, operator, integer_of(left), integer_of(right)),
    }
}
