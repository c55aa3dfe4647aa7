//! What a thread does among the others.

ghost use Rattle.std.specs.Prelude.{◌≡◌, ◌<◌, OnOk};
ghost use Rattle.upc_values.specs.declared.action.Action.{Action};
ghost use Rattle.upc_values.specs.declared.scalar.Value.{Value};
ghost use Rattle.thread_steps.specs.Library as library;
ghost use Rattle.thread_steps.specs.layer.Ranges.{IsNumber};
ghost use Rattle.thread_steps.specs.Values.{number_of};
ghost use Rattle.stack_code.specs.declared.instruction.ThreadWork.TheVariants as work;
ghost use Rattle.stack_code.specs.layer.Steps.{top};
ghost use Rattle.stack_code.specs.layer.Steps as steps;
ghost use Rattle.stack_machine.specs.code.Kept.{AreAllHeld, HasKept};
ghost use Rattle.stack_machine.specs.code.Turns.{Acts, Rests};

use crate::progress::Progress;
use crate::runner::Runner;
use crate::wish::Halt;
use stack_code::{Code, ThreadWork};
use stack_machine_values::stacks::Operands;
use thread_values::{
    first_int, has_turn, int_of, library_value, printed, printed_count, truth_value,
};
use upc_text::{Place, Text};
use upc_values::{Action, LibraryCall, Mark, Reply};

// The value of a notify or a wait, which lies on the stack.
fn mark_on(operands: &Operands) -> Mark
    requires { IsNumber (number_of (top operands.now)) }
    ensures { result ≡ Mark.Given (steps.int_of (top operands.now)) }
{
    Mark::Given(int_of(operands.top()))
}

// upc_notify.
fn notify(
    operands: &mut Operands,
    progress: &mut Progress,
    mark: Mark,
    place: Place,
    code: &Code,
    runner: &Runner,
) -> Result<(), Halt>
    requires thread { runner.now.number < code.now.threads }
    requires held { AreAllHeld code.now.threads code.now.shapes operands.old progress.old.store }
    ensures does { Acts code.now runner.now (work.Notify mark) place result operands.old operands.new
        progress.old progress.new }
    ensures rests { Rests result operands.old operands.new }
    ensures kept { OnOk result
        (HasKept code.now.threads code.now.shapes progress.old progress.new operands.new) }
{
    match progress.notify(place, mark) {
        Err(e) => Err(e),
        Ok(()) => Ok(()),
    }
}

// upc_notify with a value, which lies on the stack.
fn notify_value(
    operands: &mut Operands,
    progress: &mut Progress,
    place: Place,
    code: &Code,
    runner: &Runner,
) -> Result<(), Halt>
    requires thread { runner.now.number < code.now.threads }
    requires held { AreAllHeld code.now.threads code.now.shapes operands.old progress.old.store }
    ensures does { Acts code.now runner.now work.NotifyValue place result operands.old operands.new
        progress.old progress.new }
    ensures rests { Rests result operands.old operands.new }
    ensures kept { OnOk result
        (HasKept code.now.threads code.now.shapes progress.old progress.new operands.new) }
{
    match progress.notify(place, mark_on(operands)) {
        Err(e) => Err(e),
        Ok(()) => {
            operands.pop();
            Ok(())
        }
    }
}

// upc_wait.
fn wait(
    operands: &mut Operands,
    progress: &mut Progress,
    mark: Mark,
    place: Place,
    code: &Code,
    runner: &Runner,
) -> Result<(), Halt>
    requires thread { runner.now.number < code.now.threads }
    requires held { AreAllHeld code.now.threads code.now.shapes operands.old progress.old.store }
    ensures does { Acts code.now runner.now (work.Wait mark) place result operands.old operands.new
        progress.old progress.new }
    ensures rests { Rests result operands.old operands.new }
    ensures kept { OnOk result
        (HasKept code.now.threads code.now.shapes progress.old progress.new operands.new) }
{
    match progress.wait(place, mark) {
        Err(e) => Err(e),
        Ok(()) => Ok(()),
    }
}

// upc_wait with a value, which lies on the stack.
fn wait_value(
    operands: &mut Operands,
    progress: &mut Progress,
    place: Place,
    code: &Code,
    runner: &Runner,
) -> Result<(), Halt>
    requires thread { runner.now.number < code.now.threads }
    requires held { AreAllHeld code.now.threads code.now.shapes operands.old progress.old.store }
    ensures does { Acts code.now runner.now work.WaitValue place result operands.old operands.new
        progress.old progress.new }
    ensures rests { Rests result operands.old operands.new }
    ensures kept { OnOk result
        (HasKept code.now.threads code.now.shapes progress.old progress.new operands.new) }
{
    match progress.wait(place, mark_on(operands)) {
        Err(e) => Err(e),
        Ok(()) => {
            operands.pop();
            Ok(())
        }
    }
}

// upc_fence.
fn fence(
    operands: &mut Operands,
    progress: &mut Progress,
    place: Place,
    code: &Code,
    runner: &Runner,
) -> Result<(), Halt>
    requires thread { runner.now.number < code.now.threads }
    requires held { AreAllHeld code.now.threads code.now.shapes operands.old progress.old.store }
    ensures does { Acts code.now runner.now work.Fence place result operands.old operands.new
        progress.old progress.new }
    ensures rests { Rests result operands.old operands.new }
    ensures kept { OnOk result
        (HasKept code.now.threads code.now.shapes progress.old progress.new operands.new) }
{
    match progress.fence() {
        Err(e) => Err(e),
        Ok(()) => Ok(()),
    }
}

// The body of a controlling upc_forall begins.
#[tactic(auto, unfolding(thread_steps::specs::Blocks::control))]
fn control(
    operands: &mut Operands,
    progress: &mut Progress,
    place: Place,
    code: &Code,
    runner: &Runner,
) -> Result<(), Halt>
    requires thread { runner.now.number < code.now.threads }
    requires held { AreAllHeld code.now.threads code.now.shapes operands.old progress.old.store }
    ensures does { Acts code.now runner.now work.Control place result operands.old operands.new
        progress.old progress.new }
    ensures rests { Rests result operands.old operands.new }
    ensures kept { OnOk result
        (HasKept code.now.threads code.now.shapes progress.old progress.new operands.new) }
{
    progress.store.control()?;
    Ok(())
}

// It ends.
#[tactic(auto, unfolding(thread_steps::specs::Blocks::release))]
fn release(
    operands: &mut Operands,
    progress: &mut Progress,
    place: Place,
    code: &Code,
    runner: &Runner,
) -> Result<(), Halt>
    requires thread { runner.now.number < code.now.threads }
    requires held { AreAllHeld code.now.threads code.now.shapes operands.old progress.old.store }
    ensures does { Acts code.now runner.now work.Release place result operands.old operands.new
        progress.old progress.new }
    ensures rests { Rests result operands.old operands.new }
    ensures kept { OnOk result
        (HasKept code.now.threads code.now.shapes progress.old progress.new operands.new) }
{
    progress.store.release();
    Ok(())
}

// Whether a turn is the thread's.
#[tactic(auto, unfolding(thread_steps::specs::Blocks::mine))]
fn mine(
    operands: &mut Operands,
    progress: &mut Progress,
    place: Place,
    code: &Code,
    runner: &Runner,
) -> Result<(), Halt>
    requires thread { runner.now.number < code.now.threads }
    requires held { AreAllHeld code.now.threads code.now.shapes operands.old progress.old.store }
    ensures does { Acts code.now runner.now work.Mine place result operands.old operands.new
        progress.old progress.new }
    ensures rests { Rests result operands.old operands.new }
    ensures kept { OnOk result
        (HasKept code.now.threads code.now.shapes progress.old progress.new operands.new) }
{
    match has_turn(code.threads(), runner.number, operands.top()) {
        Err(error) => Err(progress.fault(error, place)),
        Ok(is_mine) => {
            operands.pop();
            operands.push(truth_value(is_mine))?;
            Ok(())
        }
    }
}

// printf.
#[tactic(auto, unfolding(thread_steps::specs::Library::print, thread_steps::specs::Actions::ask))]
fn print(
    operands: &mut Operands,
    progress: &mut Progress,
    format: &Text,
    arguments: usize,
    place: Place,
    code: &Code,
    runner: &Runner,
) -> Result<(), Halt>
    requires thread { runner.now.number < code.now.threads }
    requires held { AreAllHeld code.now.threads code.now.shapes operands.old progress.old.store }
    ensures does { Acts code.now runner.now (work.Print format.now arguments) place result operands.old operands.new
        progress.old progress.new }
    ensures rests { Rests result operands.old operands.new }
    ensures kept { OnOk result
        (HasKept code.now.threads code.now.shapes progress.old progress.new operands.new) }
{
    let text = printed(
        runner.alloc,
        format.as_slice(),
        operands.youngest(arguments),
    )?;
    let count = printed_count(&text);
    match progress.reply.take() {
        None => Err(Halt::Asks(Action::Print(text), progress.ticks)),
        Some(Reply::Done) => {
            operands.drop_youngest(arguments);
            operands.push(count)?;
            Ok(())
        }
        Some(_) => Err(Halt::Memory),
    }
}

// upc_global_exit.
fn exit(
    operands: &mut Operands,
    progress: &mut Progress,
    shape: u32,
    arguments: usize,
    place: Place,
    code: &Code,
    runner: &Runner,
) -> Result<(), Halt>
    requires thread { runner.now.number < code.now.threads }
    requires held { AreAllHeld code.now.threads code.now.shapes operands.old progress.old.store }
    ensures does { Acts code.now runner.now (work.Library LibraryCall.GlobalExit shape arguments) place result
        operands.old operands.new progress.old progress.new }
    ensures rests { Rests result operands.old operands.new }
    ensures kept { OnOk result
        (HasKept code.now.threads code.now.shapes progress.old progress.new operands.new) }
{
    match first_int(operands.youngest(arguments)) {
        None => Err(Halt::Memory),
        Some(value) => Err(progress.exit(value)),
    }
}

// A call that may ask for an action.
fn asking(
    operands: &mut Operands,
    progress: &mut Progress,
    call: LibraryCall,
    shape: u32,
    arguments: usize,
    place: Place,
    code: &Code,
    runner: &Runner,
) -> Result<(), Halt>
    requires thread { runner.now.number < code.now.threads }
    requires held { AreAllHeld code.now.threads code.now.shapes operands.old progress.old.store }
    ensures does { Acts code.now runner.now (work.Library call shape arguments) place result operands.old operands.new
        progress.old progress.new }
    ensures rests { Rests result operands.old operands.new }
    ensures kept { OnOk result
        (HasKept code.now.threads code.now.shapes progress.old progress.new operands.new) }
{
    match progress.library(
        call,
        shape,
        operands.youngest(arguments),
        place,
        code,
        runner,
    ) {
        Err(e) => Err(e),
        Ok(v) => {
            operands.drop_youngest(arguments);
            operands.push(v)?;
            Ok(())
        }
    }
}

// A call of the library that is no memory call. A collective one that asks for more than one action begins elsewhere,
// and comes here only where it may not begin.
fn library(
    operands: &mut Operands,
    progress: &mut Progress,
    call: LibraryCall,
    shape: u32,
    arguments: usize,
    place: Place,
    code: &Code,
    runner: &Runner,
) -> Result<(), Halt>
    requires thread { runner.now.number < code.now.threads }
    requires held { AreAllHeld code.now.threads code.now.shapes operands.old progress.old.store }
    ensures does { Acts code.now runner.now (work.Library call shape arguments) place result operands.old operands.new
        progress.old progress.new }
    ensures rests { Rests result operands.old operands.new }
    ensures kept { OnOk result
        (HasKept code.now.threads code.now.shapes progress.old progress.new operands.new) }
{
    if matches!(call, LibraryCall::GlobalExit) {
        return exit(operands, progress, shape, arguments, place, code, runner);
    }
    match library_value(code.threads(), call, operands.youngest(arguments)) {
        None => asking(
            operands, progress, call, shape, arguments, place, code, runner,
        ),
        Some(answer) => match answer {
            Err(error) => Err(progress.fault(error, place)),
            Ok(v) => {
                operands.drop_youngest(arguments);
                operands.push(v)?;
                Ok(())
            }
        },
    }
}

/// What a thread does among the others.
pub(crate) fn thread_work(
    operands: &mut Operands,
    progress: &mut Progress,
    work: &ThreadWork,
    place: Place,
    code: &Code,
    runner: &Runner,
) -> Result<(), Halt>
    requires thread { runner.now.number < code.now.threads }
    requires held { AreAllHeld code.now.threads code.now.shapes operands.old progress.old.store }
    ensures does { Acts code.now runner.now work.now place result operands.old operands.new
        progress.old progress.new }
    ensures rests { Rests result operands.old operands.new }
    ensures kept { OnOk result
        (HasKept code.now.threads code.now.shapes progress.old progress.new operands.new) }
{
    match work {
        ThreadWork::Notify(mark) => notify(operands, progress, *mark, place, code, runner),
        ThreadWork::Wait(mark) => wait(operands, progress, *mark, place, code, runner),
        ThreadWork::NotifyValue => notify_value(operands, progress, place, code, runner),
        ThreadWork::WaitValue => wait_value(operands, progress, place, code, runner),
        ThreadWork::Fence => fence(operands, progress, place, code, runner),
        ThreadWork::Control => control(operands, progress, place, code, runner),
        ThreadWork::Release => release(operands, progress, place, code, runner),
        ThreadWork::Mine => mine(operands, progress, place, code, runner),
        ThreadWork::Library {
            call,
            shape,
            arguments,
        } => library(
            operands, progress, *call, *shape, *arguments, place, code, runner,
        ),
        ThreadWork::Print { format, arguments } => {
            print(operands, progress, format, *arguments, place, code, runner)
        }
    }
}
