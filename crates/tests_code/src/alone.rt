//! The code of an expression alone.

use gen_expr::expr_code;
use stack_code::{Builder, CallWork, Code, Instr, Operation};
use std::alloc::Global;
use typed_tree::{Expr, Program};
use upc_text::OutOfMemory;

/// Code whose first function gives the value of an expression of a program, for the threads and with the shapes of the
/// whole code of the program.
pub fn code_alone(
    alloc: Global,
    whole: &Code,
    program: &Program,
    e: &Expr,
) -> Result<Code, OutOfMemory> {
    let mut builder = Builder::make(alloc, whole.threads(), whole.shapes())?;
    expr_code(program, false, e, &mut builder)?;
    builder.append(Instr {
        place: e.place,
        does: Operation::Call(CallWork::GiveBack(0)),
    })?;
    builder.end_function()?;
    builder.finish()
}
