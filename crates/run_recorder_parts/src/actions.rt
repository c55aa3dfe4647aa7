//! Actions, from words.

ghost use Rattle.std.specs.Prelude.{◌≡◌};
ghost use Rattle.run_recorder_parts.specs.layer.Readers.{Reads, same, texts};
ghost use Rattle.run_recorder_parts.specs.layer.Values as reader;

use crate::composed::{loc, pointer, scalar};
use crate::fail::Fail;
use crate::fields::{hex, home, int32, mark, number8, number32, number64, strict};
use crate::parts::{Parts, is};
use crate::series::many;
use std::alloc::Global;
use upc_text::Text;
use upc_values::{Action, Listing};

fn read(alloc: Global, words: &mut Parts<'_, '_>) -> Result<Action, Fail>
    ensures { Reads same (reader.read_of (texts words.old.rest.now)) result
        (texts words.new.rest.now) }
{
    let strict = strict(words.next()?)?;
    let loc = loc(alloc, words.next()?)?;
    Ok(Action::Read { loc, strict })
}

fn write(alloc: Global, words: &mut Parts<'_, '_>) -> Result<Action, Fail>
    ensures { Reads same (reader.write_of (texts words.old.rest.now)) result
        (texts words.new.rest.now) }
{
    let strict = strict(words.next()?)?;
    let loc = loc(alloc, words.next()?)?;
    let value = scalar(alloc, words.next()?)?;
    Ok(Action::Write { loc, value, strict })
}

fn notify(words: &mut Parts<'_, '_>) -> Result<Action, Fail>
    ensures { Reads same (reader.marked_of Action.Notify (texts words.old.rest.now)) result
        (texts words.new.rest.now) }
{
    Ok(Action::Notify(mark(words.next()?)?))
}

fn wait(words: &mut Parts<'_, '_>) -> Result<Action, Fail>
    ensures { Reads same (reader.marked_of Action.Wait (texts words.old.rest.now)) result
        (texts words.new.rest.now) }
{
    Ok(Action::Wait(mark(words.next()?)?))
}

fn attempt(words: &mut Parts<'_, '_>) -> Result<Action, Fail>
    ensures { Reads same (reader.locked_of Action.Attempt (texts words.old.rest.now)) result
        (texts words.new.rest.now) }
{
    Ok(Action::Attempt(number32(words.next()?)?))
}

fn unlock(words: &mut Parts<'_, '_>) -> Result<Action, Fail>
    ensures { Reads same (reader.locked_of Action.Unlock (texts words.old.rest.now)) result
        (texts words.new.rest.now) }
{
    Ok(Action::Unlock(number32(words.next()?)?))
}

fn lock_free(words: &mut Parts<'_, '_>) -> Result<Action, Fail>
    ensures { Reads same (reader.locked_of Action.LockFree (texts words.old.rest.now)) result
        (texts words.new.rest.now) }
{
    Ok(Action::LockFree(number32(words.next()?)?))
}

fn free(alloc: Global, words: &mut Parts<'_, '_>) -> Result<Action, Fail>
    ensures { Reads same (reader.free_of (texts words.old.rest.now)) result
        (texts words.new.rest.now) }
{
    Ok(Action::Free(pointer(alloc, words.next()?)?))
}

fn lock(words: &mut Parts<'_, '_>) -> Result<Action, Fail>
    ensures { Reads same (reader.locked_of Action.Lock (texts words.old.rest.now)) result
        (texts words.new.rest.now) }
{
    Ok(Action::Lock(number32(words.next()?)?))
}

fn alloc_of(words: &mut Parts<'_, '_>) -> Result<Action, Fail>
    ensures { Reads same (reader.alloc_of (texts words.old.rest.now)) result
        (texts words.new.rest.now) }
{
    let nblocks = number64(words.next()?)?;
    let nbytes = number64(words.next()?)?;
    let home = home(words.next()?)?;
    let shape = number32(words.next()?)?;
    Ok(Action::Alloc {
        nblocks,
        nbytes,
        home,
        shape,
    })
}

fn meet(alloc: Global, words: &mut Parts<'_, '_>) -> Result<Action, Fail>
    ensures { Reads same (reader.meet_of (texts words.old.rest.now)) result
        (texts words.new.rest.now) }
{
    let call = number8(words.next()?)?;
    let count = number64(words.next()?)?;
    let args = many(alloc, count, words)?;
    Ok(Action::Meet {
        call,
        args: Listing::from_vec(args),
    })
}

fn print(alloc: Global, words: &mut Parts<'_, '_>) -> Result<Action, Fail>
    ensures { Reads same (reader.print_of (texts words.old.rest.now)) result
        (texts words.new.rest.now) }
{
    Ok(Action::Print(Text::from_vec(hex(alloc, words.next()?)?)))
}

fn exit(words: &mut Parts<'_, '_>) -> Result<Action, Fail>
    ensures { Reads same (reader.exit_of (texts words.old.rest.now)) result
        (texts words.new.rest.now) }
{
    Ok(Action::Exit(int32(words.next()?)?))
}

/// The action at the front of the words.
pub fn action(alloc: Global, words: &mut Parts<'_, '_>) -> Result<Action, Fail>
    ensures { Reads same (reader.action_of (texts words.old.rest.now)) result
        (texts words.new.rest.now) }
{
    let tag = words.next()?;
    if is(tag, "read") {
        return read(alloc, words);
    }
    if is(tag, "write") {
        return write(alloc, words);
    }
    if is(tag, "fence") {
        return Ok(Action::Fence);
    }
    if is(tag, "beat") {
        return Ok(Action::Beat);
    }
    if is(tag, "notify") {
        return notify(words);
    }
    if is(tag, "wait") {
        return wait(words);
    }
    if is(tag, "lock") {
        return lock(words);
    }
    if is(tag, "attempt") {
        return attempt(words);
    }
    if is(tag, "unlock") {
        return unlock(words);
    }
    if is(tag, "lockmake") {
        return Ok(Action::LockMake);
    }
    if is(tag, "lockfree") {
        return lock_free(words);
    }
    if is(tag, "free") {
        return free(alloc, words);
    }
    if is(tag, "alloc") {
        return alloc_of(words);
    }
    if is(tag, "meet") {
        return meet(alloc, words);
    }
    if is(tag, "print") {
        return print(alloc, words);
    }
    if is(tag, "exit") {
        return exit(words);
    }
    Err(Fail::Bad)
}
