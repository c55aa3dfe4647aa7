//! The code that a thread begins with (C99 5.1.2.2.1, 5.1.2.2.3; UPC 6.6.1).

ghost use Rattle.std.specs.Prelude.{◌≡◌, ◌++◌, map, IfOk, OnOk};
ghost use Rattle.typed_tree.specs.ViewStatements.{view_function};
ghost use Rattle.source_meaning.specs.Running.{Running};
ghost use Rattle.source_meaning.specs.Threads as threads;
ghost use Rattle.gen_expr.specs.layer.ViewSource.{view_source};
ghost use Rattle.gen_stmt.specs.layer.Programs as pure;
ghost use Rattle.gen_stmt.specs.code.Parts as parts;

use crate::exits::sum;
use crate::put::{put_act, put_operation};
use gen_expr::Source;
use meaning_types::is_main;
use stack_code::{CallWork, Instr, Operation, ThreadWork};
use std::alloc::Global;
use typed_tree::Function;
use upc_text::{OutOfMemory, Place};
use upc_values::Mark;

// The place of main.
#[tactic(auto, using(crate::proofs::Mains::first_main))]
fn main_place(functions: &[Function]) -> Place
    ensures { (ρ : Running) → result ≡ threads.main_place ρ (threads.main_of (map view_function functions.now)) }
{
    for function in functions {
        if is_main(function) {
            return function.place;
        }
    }
    Place { line: 1, column: 1 }
}

// How many functions stand before main, or all where there is none.
#[tactic(auto, using(crate::proofs::Mains::first_main))]
fn main_number(functions: &[Function]) -> usize
    ensures { result ≡ pure.main_number (map view_function functions.now) }
{
    let mut number = 0;
    for function in functions {
        if is_main(function) {
            return number;
        }
        number += 1;
    }
    number
}

// The two halves of a barrier.
fn put_mark(code: &mut Vec<Instr>, place: Place, mark: Mark) -> Result<(), OutOfMemory>
    ensures { OnOk result (code.new.items ≡ code.old.items ++ parts.barrier_code place mark) }
{
    put_act(code, place, ThreadWork::Notify(mark))?;
    put_act(code, place, ThreadWork::Wait(mark))
}

/// The code that a thread begins with.
pub(crate) fn entry_of(alloc: Global, source: Source<'_>) -> Result<Vec<Instr>, OutOfMemory>
    ensures { IfOk result (λ code. code.items ≡ pure.entry_code (view_source source.entry)) }
{
    let place = main_place(source.functions);
    let main = sum(main_number(source.functions), 1)?;
    let mut code = Vec::new(alloc);
    put_mark(&mut code, place, Mark::Start)?;
    put_operation(&mut code, place, Operation::Call(CallWork::Begin(main)))?;
    put_mark(&mut code, place, Mark::Finish)?;
    put_operation(&mut code, place, Operation::Call(CallWork::Quit))?;
    Ok(code)
}
