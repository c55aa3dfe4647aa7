//! The code of functions, and of what a thread begins with (C99 5.1.2.2.3, 6.9.1; UPC 6.6.1).

ghost use Rattle.std.specs.Prelude.{◌≡◌, [], ◌∷◌, ◌++◌, false, map, IfOk, OnOk};
ghost use Rattle.upc_types.specs.View.{view};
ghost use Rattle.typed_tree.specs.ViewStatements.{view_function, view_items, view_statement};
ghost use Rattle.source_meaning.specs.Running.{Running};
ghost use Rattle.source_meaning.specs.Threads as threads;
ghost use Rattle.gen_expr.specs.layer.Sources.{running_of};
ghost use Rattle.gen_expr.specs.layer.ViewSource.{view_source};
ghost use Rattle.gen_stmt.specs.layer.Ways.{in_function};
ghost use Rattle.gen_stmt.specs.layer.Codes.{statement_code};
ghost use Rattle.gen_stmt.specs.layer.Programs as pure;
ghost use Rattle.gen_stmt.specs.code.Parts as parts;
ghost use Rattle.gen_stmt.specs.code.Views.{view_standing};

use crate::exits::in_function;
use crate::put::{put_all, put_enter, put_give_back, put_leave, put_operation};
use crate::shapes::{push_block_shapes, push_type_shapes};
use crate::standing::Standing;
use crate::statements::{items_of, put_statement};
use block_layout::Kind;
use gen_expr::{Source, put_push};
use meaning_types::{cell_kind, is_strict};
use stack_code::{CallWork, CellAccess, Instr, Operation};
use std::alloc::Global;
use typed_tree::{Function, Item, StatementKind};
use upc_text::{OutOfMemory, Place};
use upc_types::CType;
use upc_values::{Listing, Scalar, Value, blank_value};

// What the body of a function stands in, after its parameters.
fn in_body(function: &Function, strict: bool) -> Standing<'_>
    ensures { (ρ : Running) → view_standing result ≡ threads.in_body ρ (view_function function.now) strict }
{
    Standing {
        strict,
        count: function.parameters.len(),
        result: &function.result,
    }
}

// How the argument of a parameter is kept.
fn parameter_access(source: Source<'_>, t: &CType) -> Option<CellAccess>
    ensures { result ≡ pure.parameter_access (view_source source.entry) (view t.now) }
{
    match cell_kind(source.structs, t) {
        Some(kind) => Some(CellAccess {
            kind,
            strict: is_strict(false, t),
        }),
        None => None,
    }
}

fn put_access(
    cells: &mut Vec<Option<CellAccess>>,
    source: Source<'_>,
    t: &CType,
) -> Result<(), OutOfMemory>
    ensures { OnOk result (cells.new.items
        ≡ cells.old.items ++ (pure.parameter_access (view_source source.entry) (view t.now) ∷ [])) }
{
    cells.push(parameter_access(source, t))?;
    Ok(())
}

// How the arguments of parameters are kept.
fn accesses(
    alloc: Global,
    source: Source<'_>,
    parameters: &[CType],
) -> Result<Vec<Option<CellAccess>>, OutOfMemory>
    ensures { IfOk result (λ cells. cells.items
        ≡ map (pure.parameter_access (view_source source.entry)) (map view parameters.now)) }
{
    let mut cells = Vec::new(alloc);
    for t in parameters {
        put_access(&mut cells, source, t)?;
    }
    Ok(cells)
}

// The parameters get the values of the arguments.
fn put_receive(
    code: &mut Vec<Instr>,
    place: Place,
    cells: Vec<Option<CellAccess>>,
) -> Result<(), OutOfMemory>
    ensures { OnOk result (code.new.items ≡ code.old.items ++ (pure.receives place cells.items ∷ [])) }
{
    put_operation(
        code,
        place,
        Operation::Call(CallWork::Receive(Listing::from_vec(cells))),
    )
}

// The begin of a function's block, with its parameters.
fn put_opening(
    code: &mut Vec<Instr>,
    source: Source<'_>,
    function: &Function,
    place: Place,
    items: &[Item],
) -> Result<(), OutOfMemory>
    ensures { OnOk result (code.new.items
        ≡ code.old.items
        ++ parts.opening_code (view_source source.entry) (view_function function.now) place (view_items items.now)) }
{
    let alloc = *code.allocator();
    let mut shapes = Vec::new(alloc);
    push_type_shapes(
        &mut shapes,
        alloc,
        source.structs,
        function.parameters.as_slice(),
    )?;
    push_block_shapes(&mut shapes, alloc, source, items)?;
    put_enter(code, place, 0, shapes)?;
    let cells = accesses(alloc, source, function.parameters.as_slice())?;
    put_receive(code, place, cells)
}

// A body that is a block.
fn put_opened(
    code: &mut Vec<Instr>,
    source: Source<'_>,
    function: &Function,
    place: Place,
    strict: bool,
    items: &[Item],
) -> Result<(), OutOfMemory>
    ensures { OnOk result (code.new.items
        ≡ code.old.items
        ++ pure.opened_code (view_source source.entry) (view_function function.now) place strict
        (view_items items.now)) }
{
    put_opening(code, source, function, place, items)?;
    let standing = in_body(function, strict);
    let body = items_of(*code.allocator(), source, standing, in_function(1), items)?;
    put_all(code, body)?;
    put_leave(code, place)
}

// A body that is no block.
fn put_plain(
    code: &mut Vec<Instr>,
    source: Source<'_>,
    function: &Function,
) -> Result<(), OutOfMemory>
    ensures { OnOk result (code.new.items
        ≡ code.old.items
        ++ (pure.receives function.now.place []
        ∷ statement_code (view_source source.entry)
        (threads.in_body (running_of (view_source source.entry)) (view_function function.now) false) (in_function 0)
        (view_statement function.now.body.value))) }
{
    let cells = Vec::new(*code.allocator());
    put_receive(code, function.place, cells)?;
    let standing = in_body(function, false);
    put_statement(code, source, standing, in_function(0), &function.body)
}

fn put_body(
    code: &mut Vec<Instr>,
    source: Source<'_>,
    function: &Function,
) -> Result<(), OutOfMemory>
    ensures { OnOk result (code.new.items
        ≡ code.old.items
        ++ pure.body_code (view_source source.entry) (view_function function.now)
        (view_statement function.now.body.value)) }
{
    match &function.body.kind {
        StatementKind::Block(strict, items) => put_opened(
            code,
            source,
            function,
            function.body.place,
            *strict,
            items.as_slice(),
        ),
        _ => put_plain(code, source, function),
    }
}

// What a function gives that ends without `return`.
fn blank_of(kind: Option<Kind>) -> Value
    ensures { result ≡ threads.blank_of kind }
{
    match kind {
        Some(kind) => blank_value(kind),
        None => Value::Scalar(Scalar::Int(0)),
    }
}

/// The code of a function.
pub(crate) fn function_of(
    alloc: Global,
    source: Source<'_>,
    function: &Function,
) -> Result<Vec<Instr>, OutOfMemory>
    ensures { IfOk result (λ code. code.items
        ≡ pure.function_code (view_source source.entry) (view_function function.now)) }
{
    let mut code = Vec::new(alloc);
    put_body(&mut code, source, function)?;
    let blank = blank_of(cell_kind(source.structs, &function.result));
    put_push(&mut code, function.place, blank)?;
    put_give_back(&mut code, function.place, 0)?;
    Ok(code)
}
