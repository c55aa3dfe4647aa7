//! Work on objects.

ghost use Rattle.std.specs.Prelude.{◌<◌, OnOk};
ghost use Rattle.block_layout.specs.Shapes.{IsShape};
ghost use Rattle.upc_values.specs.Lists.{Each};
ghost use Rattle.stack_code.specs.declared.instruction.ObjectWork.TheVariants as work;
ghost use Rattle.stack_code.specs.layer.Kept.{ObjectsFit};
ghost use Rattle.stack_machine.specs.code.Kept.{AreAllHeld, HasKept};
ghost use Rattle.stack_machine.specs.code.Turns.{Places, Rests};

use crate::progress::Progress;
use crate::runner::Runner;
use crate::wish::Halt;
use block_layout::Shape;
use stack_code::{CellAccess, Code, ObjectWork};
use stack_machine_values::stacks::Operands;
use thread_values::pointer_to;
use upc_text::Place;
use upc_values::Listing;

// Where a local object lies.
#[tactic(auto, unfolding(thread_steps::specs::Blocks::local_object))]
fn local(
    operands: &mut Operands,
    progress: &mut Progress,
    n: u32,
    place: Place,
    code: &Code,
    runner: &Runner,
) -> Result<(), Halt>
    requires thread { runner.now.number < code.now.threads }
    requires held { AreAllHeld code.now.threads code.now.shapes operands.old progress.old.store }
    ensures does { Places code.now runner.now (work.Local n) place result operands.old operands.new
        progress.old progress.new }
    ensures rests { Rests result operands.old operands.new }
    ensures kept { OnOk result
        (HasKept code.now.threads code.now.shapes progress.old progress.new operands.new) }
{
    operands.push(pointer_to(progress.store.local(n)))?;
    Ok(())
}

// What a cell holds.
fn load(
    operands: &mut Operands,
    progress: &mut Progress,
    access: CellAccess,
    place: Place,
    code: &Code,
    runner: &Runner,
) -> Result<(), Halt>
    requires thread { runner.now.number < code.now.threads }
    requires held { AreAllHeld code.now.threads code.now.shapes operands.old progress.old.store }
    ensures does { Places code.now runner.now (work.Load access) place result operands.old operands.new
        progress.old progress.new }
    ensures rests { Rests result operands.old operands.new }
    ensures kept { OnOk result
        (HasKept code.now.threads code.now.shapes progress.old progress.new operands.new) }
{
    match progress.load(code, access, place, *operands.top()) {
        Err(e) => Err(e),
        Ok(v) => {
            operands.pop();
            operands.push(v)?;
            Ok(())
        }
    }
}

// A new value of a cell.
fn save(
    operands: &mut Operands,
    progress: &mut Progress,
    access: CellAccess,
    place: Place,
    code: &Code,
    runner: &Runner,
) -> Result<(), Halt>
    requires thread { runner.now.number < code.now.threads }
    requires held { AreAllHeld code.now.threads code.now.shapes operands.old progress.old.store }
    ensures does { Places code.now runner.now (work.Save access) place result operands.old operands.new
        progress.old progress.new }
    ensures rests { Rests result operands.old operands.new }
    ensures kept { OnOk result
        (HasKept code.now.threads code.now.shapes progress.old progress.new operands.new) }
{
    let v = *operands.top();
    match progress.save(code, access, place, *operands.second(), v) {
        Err(e) => Err(e),
        Ok(()) => {
            operands.pop();
            operands.pop();
            operands.push(v)?;
            Ok(())
        }
    }
}

// A block begins.
fn enter(
    operands: &mut Operands,
    progress: &mut Progress,
    from: u32,
    shapes: &Listing<Shape>,
    place: Place,
    code: &Code,
    runner: &Runner,
) -> Result<(), Halt>
    requires thread { runner.now.number < code.now.threads }
    requires held { AreAllHeld code.now.threads code.now.shapes operands.old progress.old.store }
    requires shapes { Each IsShape shapes.now }
    ensures does { Places code.now runner.now (work.Enter from shapes.now) place result operands.old operands.new
        progress.old progress.new }
    ensures rests { Rests result operands.old operands.new }
    ensures kept { OnOk result
        (HasKept code.now.threads code.now.shapes progress.old progress.new operands.new) }
{
    match progress.open_block(from, shapes.as_slice(), place) {
        Err(e) => Err(e),
        Ok(()) => Ok(()),
    }
}

// The youngest block ends.
#[tactic(auto, unfolding(thread_steps::specs::Blocks::close_block))]
fn leave(
    operands: &mut Operands,
    progress: &mut Progress,
    place: Place,
    code: &Code,
    runner: &Runner,
) -> Result<(), Halt>
    requires thread { runner.now.number < code.now.threads }
    requires held { AreAllHeld code.now.threads code.now.shapes operands.old progress.old.store }
    ensures does { Places code.now runner.now work.Leave place result operands.old operands.new
        progress.old progress.new }
    ensures rests { Rests result operands.old operands.new }
    ensures kept { OnOk result
        (HasKept code.now.threads code.now.shapes progress.old progress.new operands.new) }
{
    progress.store.leave();
    Ok(())
}

/// Work on objects.
pub(crate) fn object_work(
    operands: &mut Operands,
    progress: &mut Progress,
    work: &ObjectWork,
    place: Place,
    code: &Code,
    runner: &Runner,
) -> Result<(), Halt>
    requires thread { runner.now.number < code.now.threads }
    requires held { AreAllHeld code.now.threads code.now.shapes operands.old progress.old.store }
    requires fits { ObjectsFit work.now }
    ensures does { Places code.now runner.now work.now place result operands.old operands.new
        progress.old progress.new }
    ensures rests { Rests result operands.old operands.new }
    ensures kept { OnOk result
        (HasKept code.now.threads code.now.shapes progress.old progress.new operands.new) }
{
    match work {
        ObjectWork::Local(n) => local(operands, progress, *n, place, code, runner),
        ObjectWork::Load(access) => load(operands, progress, *access, place, code, runner),
        ObjectWork::Save(access) => save(operands, progress, *access, place, code, runner),
        ObjectWork::Enter { from, shapes } => {
            enter(operands, progress, *from, shapes, place, code, runner)
        }
        ObjectWork::Leave => leave(operands, progress, place, code, runner),
    }
}
