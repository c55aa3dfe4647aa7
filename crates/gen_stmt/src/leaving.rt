//! The code of `break`, `continue` and `return`, and of barriers (C99 6.8.6, UPC 6.6.1).

ghost use Rattle.std.specs.Prelude.{◌≡◌, ◌++◌, OnOk};
ghost use Rattle.typed_tree.specs.Tree.{Return, Synchronise};
ghost use Rattle.typed_tree.specs.ViewStatements.{view_value};
ghost use Rattle.gen_expr.specs.layer.ViewSource.{view_source};
ghost use Rattle.gen_stmt.specs.layer.Codes as pure;
ghost use Rattle.gen_stmt.specs.code.Views.{view_exit, view_exits, view_standing};

use crate::exits::{Exit, Exits};
use crate::put::{put_act, put_give_back};
use crate::standing::Standing;
use crate::values::put_converted;
use gen_expr::{Source, put_jump, put_push, put_stack, put_value_code};
use stack_code::{Instr, Jump, StackWork, ThreadWork};
use typed_tree::{Expr, Synchronises};
use upc_text::{OutOfMemory, Place};
use upc_values::{Mark, Scalar, Value};

/// Appends a way out.
pub(crate) fn put_exit(code: &mut Vec<Instr>, place: Place, exit: Exit) -> Result<(), OutOfMemory>
    ensures { OnOk result (code.new.items ≡ code.old.items ++ pure.exit_code place (view_exit exit)) }
{
    put_jump(
        code,
        place,
        Jump::Exit {
            blocks: exit.blocks,
            distance: exit.distance,
        },
    )
}

/// Appends a return.
pub(crate) fn put_return(
    code: &mut Vec<Instr>,
    source: Source<'_>,
    standing: Standing<'_>,
    exits: Exits,
    place: Place,
    value: &Option<Box<Expr>>,
) -> Result<(), OutOfMemory>
    ensures { OnOk result (code.new.items
        ≡ code.old.items
        ++ pure.kind_code (view_source source.entry) (view_standing standing.entry) (view_exits exits) place
        (Return (view_value value.now))) }
{
    match value {
        None => put_push(code, place, Value::Scalar(Scalar::Int(0)))?,
        Some(e) => put_converted(code, source, standing.strict, standing.result, e)?,
    }
    put_give_back(code, place, exits.blocks)
}

fn put_bare(code: &mut Vec<Instr>, place: Place, how: Synchronises) -> Result<(), OutOfMemory>
    ensures { OnOk result (code.new.items ≡ code.old.items ++ pure.synchronise_code place how) }
{
    match how {
        Synchronises::Notify => put_act(code, place, ThreadWork::Notify(Mark::Absent)),
        Synchronises::Wait => put_act(code, place, ThreadWork::Wait(Mark::Absent)),
        Synchronises::Barrier => {
            put_act(code, place, ThreadWork::Notify(Mark::Absent))?;
            put_act(code, place, ThreadWork::Wait(Mark::Absent))
        }
    }
}

fn put_marked(code: &mut Vec<Instr>, place: Place, how: Synchronises) -> Result<(), OutOfMemory>
    ensures { OnOk result (code.new.items ≡ code.old.items ++ pure.synchronise_value_code place how) }
{
    match how {
        Synchronises::Notify => put_act(code, place, ThreadWork::NotifyValue),
        Synchronises::Wait => put_act(code, place, ThreadWork::WaitValue),
        Synchronises::Barrier => {
            put_stack(code, place, StackWork::Copy)?;
            put_act(code, place, ThreadWork::NotifyValue)?;
            put_act(code, place, ThreadWork::WaitValue)
        }
    }
}

/// Appends a barrier statement.
pub(crate) fn put_synchronise(
    code: &mut Vec<Instr>,
    source: Source<'_>,
    standing: Standing<'_>,
    exits: Exits,
    place: Place,
    how: Synchronises,
    value: &Option<Box<Expr>>,
) -> Result<(), OutOfMemory>
    ensures { OnOk result (code.new.items
        ≡ code.old.items
        ++ pure.kind_code (view_source source.entry) (view_standing standing.entry) (view_exits exits) place
        (Synchronise how (view_value value.now))) }
{
    match value {
        None => put_bare(code, place, how),
        Some(e) => {
            put_value_code(code, source, standing.strict, e)?;
            put_marked(code, place, how)
        }
    }
}
