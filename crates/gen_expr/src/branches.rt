//! The code of one of two parts (C99 6.5.13 to 6.5.15).

ghost use Rattle.std.specs.Prelude.{◌≡◌, ◌+◌, [], ◌∷◌, ◌++◌, length, IfOk, OnOk};
ghost use Rattle.thread_steps.specs.Values.{number};
ghost use Rattle.stack_code.specs.declared.instruction.Jump.TheVariants.{SkipIfZero, GoOn};
ghost use Rattle.gen_expr.specs.layer.Codes as pure;

use crate::put::{put_jump, put_push};
use stack_code::{Instr, Jump};
use std::alloc::Global;
use upc_text::{OutOfMemory, Place};
use upc_values::{Scalar, Value};

/// The code of a constant.
pub(crate) fn constant_part(
    alloc: Global,
    place: Place,
    value: i128,
) -> Result<Vec<Instr>, OutOfMemory>
    ensures { IfOk result (λ code. code.items ≡ pure.pushes place (number value) ∷ []) }
{
    let mut code = Vec::new(alloc);
    put_push(&mut code, place, Value::Scalar(Scalar::Int(value)))?;
    Ok(code)
}

/// Appends what goes on in the first part where the value on top is not 0, else in the second.
pub(crate) fn put_branches(
    code: &mut Vec<Instr>,
    place: Place,
    first: Vec<Instr>,
    second: Vec<Instr>,
) -> Result<(), OutOfMemory>
    ensures { OnOk result (code.new.items
        ≡ code.old.items ++ (pure.jumps place (SkipIfZero (length first.items + 1))
        ∷ (first.items ++ (pure.jumps place (GoOn (length second.items)) ∷ second.items)))) }
{
    let mut first = first;
    let mut second = second;
    put_jump(code, place, Jump::SkipIfZero(first.len() + 1))?;
    code.append(&mut first)?;
    put_jump(code, place, Jump::GoOn(second.len()))?;
    code.append(&mut second)?;
    Ok(())
}
