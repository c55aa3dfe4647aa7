//! The code of initialisers (C99 6.7.8).

ghost use Rattle.std.specs.Prelude.{◌≡◌, ◌++◌, map, OnOk};
ghost use Rattle.typed_tree.specs.Tree.{exprs_of, AndExpr, InitialValue, NoExprs};
ghost use Rattle.typed_tree.specs.ViewTree.{view_expr};
ghost use Rattle.typed_tree.specs.ViewStatements.{view_head, view_initial, view_object};
ghost use Rattle.gen_expr.specs.layer.ViewSource.{view_source};
ghost use Rattle.gen_stmt.specs.layer.Codes as pure;

use crate::values::{put_aside, put_converted};
use gen_expr::{Source, put_advance, put_kept, put_object, put_push, put_stack};
use meaning_types::element_type;
use stack_code::{Instr, StackWork};
use typed_tree::{Expr, Head, Initial, Object};
use upc_text::OutOfMemory;
use upc_values::{Scalar, Value};

// One element of an array.
fn put_element(
    code: &mut Vec<Instr>,
    source: Source<'_>,
    strict: bool,
    object: &Object,
    index: usize,
    e: &Expr,
) -> Result<(), OutOfMemory>
    ensures { OnOk result (code.new.items
        ≡ code.old.items
        ++ pure.listed_code (view_source source.entry) strict (view_object object.now) index
        (AndExpr (view_expr e.now) NoExprs)) }
{
    let t = element_type(&object.ctype);
    put_object(code, source, object.place, object.home)?;
    put_push(
        code,
        object.place,
        Value::Scalar(Scalar::Int(index as i128)),
    )?;
    put_advance(code, source, object.place, t)?;
    put_converted(code, source, strict, t, e)?;
    put_kept(code, source, strict, object.place, t)?;
    put_stack(code, object.place, StackWork::Pop)
}

fn put_listed(
    code: &mut Vec<Instr>,
    source: Source<'_>,
    strict: bool,
    object: &Object,
    values: &[Expr],
) -> Result<(), OutOfMemory>
    ensures { OnOk result (code.new.items
        ≡ code.old.items
        ++ pure.listed_code (view_source source.entry) strict (view_object object.now) 0
        (exprs_of (map view_expr values.now))) }
{
    for (index, e) in values.iter().enumerate() {
        put_element(code, source, strict, object, index, e)?;
    }
    Ok(())
}

fn put_value(
    code: &mut Vec<Instr>,
    source: Source<'_>,
    strict: bool,
    object: &Object,
    e: &Expr,
) -> Result<(), OutOfMemory>
    ensures { OnOk result (code.new.items
        ≡ code.old.items
        ++ pure.initial_code (view_source source.entry) strict (view_object object.now)
        (InitialValue (view_expr e.now))) }
{
    put_object(code, source, object.place, object.home)?;
    put_converted(code, source, strict, &object.ctype, e)?;
    put_kept(code, source, strict, object.place, &object.ctype)?;
    put_stack(code, object.place, StackWork::Pop)
}

fn put_initial(
    code: &mut Vec<Instr>,
    source: Source<'_>,
    strict: bool,
    object: &Object,
) -> Result<(), OutOfMemory>
    ensures { OnOk result (code.new.items
        ≡ code.old.items
        ++ pure.initial_code (view_source source.entry) strict (view_object object.now)
        (view_initial object.now.initial)) }
{
    match &object.initial {
        Initial::Absent => Ok(()),
        Initial::Value(e) => put_value(code, source, strict, object, e),
        Initial::List(values) => put_listed(code, source, strict, object, values.as_slice()),
    }
}

/// Appends the code by which some objects get their initial values, in order.
pub(crate) fn put_declared(
    code: &mut Vec<Instr>,
    source: Source<'_>,
    strict: bool,
    objects: &[Object],
) -> Result<(), OutOfMemory>
    ensures { OnOk result (code.new.items
        ≡ code.old.items ++ pure.declared_code (view_source source.entry) strict (map view_object objects.now)) }
{
    for object in objects {
        put_initial(code, source, strict, object)?;
    }
    Ok(())
}

/// Appends the code of what the head of a loop does first.
pub(crate) fn put_first(
    code: &mut Vec<Instr>,
    source: Source<'_>,
    strict: bool,
    head: &Head,
) -> Result<(), OutOfMemory>
    ensures { OnOk result (code.new.items
        ≡ code.old.items ++ pure.first_code (view_source source.entry) strict (view_head head.now)) }
{
    put_declared(code, source, strict, head.objects.as_slice())?;
    put_aside(code, source, strict, &head.first)
}
