//! A program, and what a thread does by it.

ghost use Rattle.std.specs.Prelude.{◌<◌};

use crate::front::program_of;
use gen_stmt::compile;
use stack_code::Code;
use stack_machine::{Machine, Wish};
use std::alloc::Global;
use std::test::Fail;
use upc_text::{OutOfMemory, Stop};
use upc_values::{Action, Reply, Scalar};

// How a turn of a thread ends: what it asked for was answered, or it ended with a value or otherwise.
#[derive(Clone, Copy)]
enum Turn {
    Answered(Reply),
    Ended(i32),
    Stopped,
}

// What the memory answers, which has one cell and keeps what is printed.
fn answer(action: &Action, cell: &mut i128, out: &mut Vec<u8>) -> Result<Reply, OutOfMemory> {
    match action {
        Action::Read { .. } => Ok(Reply::Value(Scalar::Int(*cell))),
        Action::Write {
            value: Scalar::Int(x),
            ..
        } => {
            *cell = *x;
            Ok(Reply::Done)
        }
        Action::Print(text) => {
            out.extend_from_slice(text.as_slice())?;
            Ok(Reply::Done)
        }
        _ => Ok(Reply::Done),
    }
}

fn take_turn(
    machine: &mut Machine,
    code: &Code,
    reply: Option<Reply>,
    cell: &mut i128,
    out: &mut Vec<u8>,
) -> Result<Turn, OutOfMemory> {
    let wish = machine.resume(code, reply)?;
    match &wish {
        Wish::Act(action) => Ok(Turn::Answered(answer(action, cell, out)?)),
        Wish::Ended(value) => Ok(Turn::Ended(*value)),
        _ => Ok(Turn::Stopped),
    }
}

// What is printed and returned by thread 0 of 1, over a memory that only it uses.
fn carry_out(alloc: Global, code: &Code) -> Result<(Vec<u8>, Option<i32>), OutOfMemory>
    requires { 0 < code.now.threads }
{
    let mut out = Vec::new(alloc);
    let mut cell = 0i128;
    let mut machine = Machine::make(alloc, code, 0, 1024)?;
    let mut reply = None;
    for _turn in 0..1000 {
        match take_turn(&mut machine, code, reply, &mut cell, &mut out)? {
            Turn::Answered(given) => reply = Some(given),
            Turn::Ended(value) => return Ok((out, Some(value))),
            Turn::Stopped => return Ok((out, None)),
        }
    }
    Ok((out, None))
}

const SOURCE: &[u8] =
    b"shared int x; int main(){x = 6 * 7; while (x - 42) {} printf(\"%d\\n\", x); return x;}";

// The code of that source for one thread, which has one shared object.
fn code(alloc: Global) -> Result<Option<Code>, Stop> {
    let program = program_of(alloc, 1, SOURCE)?;
    if program.shared_objects().len() != 1 {
        return Ok(None);
    }
    Ok(Some(compile(alloc, &program)?))
}

#[test]
fn one_machine(rt: HostRuntime) -> Result<(), Fail> {
    let code = code(rt.alloc())?.expect(&rt, "one shared object");
    assert!(rt; code.threads() == 1);
    let (out, value) = carry_out(rt.alloc(), &code)?;
    assert!(rt; out.as_slice() == b"42\n".as_slice());
    assert_eq!(rt; value, Some(42));
    Ok(())
}
