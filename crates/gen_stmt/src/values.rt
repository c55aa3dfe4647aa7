//! The code of expressions in statements (C99 6.5.16.1, 6.8.3, 6.8.5.3).

ghost use Rattle.std.specs.Prelude.{◌≡◌, ◌++◌, OnOk, IfOk};
ghost use Rattle.upc_types.specs.View.{view};
ghost use Rattle.typed_tree.specs.ViewTree.{view_expr};
ghost use Rattle.typed_tree.specs.ViewStatements.{view_value};
ghost use Rattle.gen_expr.specs.layer.Codes.{value_code};
ghost use Rattle.gen_expr.specs.layer.ViewSource.{view_source};
ghost use Rattle.gen_stmt.specs.layer.Codes as pure;

use gen_expr::{Source, put_cast, put_effect_code, put_push, put_value_code};
use meaning_types::conversion;
use stack_code::Instr;
use std::alloc::Global;
use typed_tree::Expr;
use upc_text::{OutOfMemory, Place};
use upc_types::CType;
use upc_values::{Scalar, Value};

/// The code of the value of an expression.
pub(crate) fn value_of(
    alloc: Global,
    source: Source<'_>,
    strict: bool,
    e: &Expr,
) -> Result<Vec<Instr>, OutOfMemory>
    ensures { IfOk result (λ code. code.items ≡ value_code (view_source source.entry) strict (view_expr e.now)) }
{
    let mut code = Vec::new(alloc);
    put_value_code(&mut code, source, strict, e)?;
    Ok(code)
}

/// Appends the code of the value of an expression, converted into a type.
pub(crate) fn put_converted(
    code: &mut Vec<Instr>,
    source: Source<'_>,
    strict: bool,
    t: &CType,
    e: &Expr,
) -> Result<(), OutOfMemory>
    ensures { OnOk result (code.new.items
        ≡ code.old.items ++ pure.converted_code (view_source source.entry) strict (view t.now) (view_expr e.now)) }
{
    put_value_code(code, source, strict, e)?;
    put_cast(code, e.place, conversion(&e.attr.ctype, t))
}

/// Appends the code of an expression for what it does.
pub(crate) fn put_aside(
    code: &mut Vec<Instr>,
    source: Source<'_>,
    strict: bool,
    value: &Option<Box<Expr>>,
) -> Result<(), OutOfMemory>
    ensures { OnOk result (code.new.items
        ≡ code.old.items ++ pure.aside_code (view_source source.entry) strict (view_value value.now)) }
{
    match value {
        None => Ok(()),
        Some(e) => put_effect_code(code, source, strict, e),
    }
}

/// The code of an expression for what it does.
pub(crate) fn aside_of(
    alloc: Global,
    source: Source<'_>,
    strict: bool,
    value: &Option<Box<Expr>>,
) -> Result<Vec<Instr>, OutOfMemory>
    ensures { IfOk result (λ code. code.items
        ≡ pure.aside_code (view_source source.entry) strict (view_value value.now)) }
{
    let mut code = Vec::new(alloc);
    put_aside(&mut code, source, strict, value)?;
    Ok(code)
}

/// The code of the test of a loop.
pub(crate) fn test_of(
    alloc: Global,
    source: Source<'_>,
    place: Place,
    strict: bool,
    test: &Option<Box<Expr>>,
) -> Result<Vec<Instr>, OutOfMemory>
    ensures { IfOk result (λ code. code.items
        ≡ pure.test_code (view_source source.entry) place strict (view_value test.now)) }
{
    let mut code = Vec::new(alloc);
    match test {
        None => put_push(&mut code, place, Value::Scalar(Scalar::Int(1)))?,
        Some(e) => put_value_code(&mut code, source, strict, e)?,
    }
    Ok(code)
}
