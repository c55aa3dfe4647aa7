//! Ends, from words.

ghost use Rattle.std.specs.Prelude.{◌≡◌};
ghost use Rattle.run_recorder_parts.specs.layer.Readers.{Gives, Reads, same, texts};
ghost use Rattle.run_recorder_parts.specs.layer.Values as reader;

use crate::actions::action;
use crate::fail::Fail;
use crate::fields::{int32, number8, number32};
use crate::parts::{Parts, is, split};
use std::alloc::Global;
use upc_text::Place;
use upc_values::End;

fn place_parts(parts: &mut Parts<'_, '_>) -> Result<Place, Fail>
    ensures { Reads same (reader.place_parts_of (texts parts.old.rest.now)) result
        (texts parts.new.rest.now) }
{
    let line = number32(parts.next()?)?;
    let column = number32(parts.next()?)?;
    Ok(Place { line, column })
}

fn place(alloc: Global, word: &[u8]) -> Result<Place, Fail>
    ensures { Gives same result (reader.place_of word.now) }
{
    let all = split(alloc, word, b':')?;
    let mut parts = Parts { rest: &all };
    let place = place_parts(&mut parts)?;
    if parts.end() {
        Ok(place)
    } else {
        Err(Fail::Bad)
    }
}

fn ended(words: &mut Parts<'_, '_>) -> Result<End, Fail>
    ensures { Reads same (reader.valued_of End.Ended (texts words.old.rest.now)) result
        (texts words.new.rest.now) }
{
    Ok(End::Ended(int32(words.next()?)?))
}

fn fault(alloc: Global, words: &mut Parts<'_, '_>) -> Result<End, Fail>
    ensures { Reads same (reader.fault_of (texts words.old.rest.now)) result
        (texts words.new.rest.now) }
{
    let code = number8(words.next()?)?;
    let place = place(alloc, words.next()?)?;
    Ok(End::Fault(code, place))
}

fn exit_end(words: &mut Parts<'_, '_>) -> Result<End, Fail>
    ensures { Reads same (reader.valued_of End.Exit (texts words.old.rest.now)) result
        (texts words.new.rest.now) }
{
    Ok(End::Exit(int32(words.next()?)?))
}

fn deadlocked(alloc: Global, words: &mut Parts<'_, '_>) -> Result<End, Fail>
    ensures { Reads same (reader.deadlocked_of (texts words.old.rest.now)) result
        (texts words.new.rest.now) }
{
    Ok(End::Deadlocked(action(alloc, words)?))
}

/// The end at the front of the words.
pub fn end(alloc: Global, words: &mut Parts<'_, '_>) -> Result<End, Fail>
    ensures { Reads same (reader.end_of (texts words.old.rest.now)) result
        (texts words.new.rest.now) }
{
    let tag = words.next()?;
    if is(tag, "ended") {
        return ended(words);
    }
    if is(tag, "fault") {
        return fault(alloc, words);
    }
    if is(tag, "budget") {
        return Ok(End::Budget);
    }
    if is(tag, "full") {
        return Ok(End::ActionsFull);
    }
    if is(tag, "exit") {
        return exit_end(words);
    }
    if is(tag, "halted") {
        return Ok(End::Halted);
    }
    if is(tag, "deadlocked") {
        return deadlocked(alloc, words);
    }
    Err(Fail::Bad)
}
