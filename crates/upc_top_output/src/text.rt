//! The text of a run, and the lines of the error output.

ghost use Rattle.std.specs.Prelude.{◌≡◌, ◌<◌, ◌^◌, ◌++◌, IfOk, length, decimal, codes};
ghost use Rattle.replica_space.specs.Events.{history_in};
ghost use Rattle.upc_top_output.specs.Output.{output, place_text, code_text, refusal_line, stop_line, line_by};
ghost use Rattle.upc_top_output.specs.Output.{first_stop, printed, bad_record_line, broken_line};

use crate::status::{all_ended, first_stop};
use itoa::Buffer;
use replica_space::{Deed, Events};
use std::alloc::{AllocError as OutOfMemory, Global};
use upc_text::{Code, Place, Refusal};
use upc_values::{Action, End, Entries, Strand};

// Appends the text of a Print; any other action has none.
fn add_printed(text: &mut Vec<u8>, action: &Action) -> Result<(), OutOfMemory>
    ensures { IfOk result (λ _. text.new.items ≡ text.old.items ++ printed action.now) }
{
    if let Action::Print(printed) = action {
        text.extend_from_slice(printed.as_slice())?;
    }
    Ok(())
}

/// The texts of all Prints, in the order of the history.
pub fn output_text(alloc: Global, history: &Entries) -> Result<Vec<u8>, OutOfMemory>
    ensures { IfOk result (λ text. text.items ≡ output history.now) }
{
    let mut text = Vec::new(alloc);
    for entry in history.iter() {
        add_printed(&mut text, &entry.action)?;
    }
    Ok(text)
}

/// The texts of all Prints, in the order of the events.
pub fn events_text(alloc: Global, events: &Events) -> Result<Vec<u8>, OutOfMemory>
    ensures { IfOk result (λ text. text.items ≡ output (history_in events.now)) }
{
    let mut text = Vec::new(alloc);
    for event in events.iter() {
        if let Deed::Did { action, .. } = &event.deed {
            add_printed(&mut text, action)?;
        }
    }
    Ok(text)
}

/// Appends a text to a line.
pub fn add(line: &mut Vec<u8>, text: &[u8]) -> Result<(), OutOfMemory>
    ensures { IfOk result (λ _. line.new.items ≡ line.old.items ++ text.now) }
{
    line.extend_from_slice(text)?;
    Ok(())
}

/// Appends a number to a line, in decimal.
pub fn add_number(line: &mut Vec<u8>, number: u32) -> Result<(), OutOfMemory>
    ensures { IfOk result (λ _. line.new.items ≡ line.old.items ++ decimal number) }
{
    let mut buffer = Buffer::new();
    add(line, buffer.format(number).as_bytes())
}

fn place(alloc: Global, place: Place) -> Result<Vec<u8>, OutOfMemory>
    ensures { IfOk result (λ text. text.items ≡ place_text place) }
{
    let mut text = Vec::new(alloc);
    add_number(&mut text, place.line)?;
    add(&mut text, b":")?;
    add_number(&mut text, place.column)?;
    Ok(text)
}

// A word, a blank, and a number.
fn numbered(alloc: Global, word: &[u8], number: u8) -> Result<Vec<u8>, OutOfMemory>
    ensures { IfOk result (λ text. text.items ≡ word.now ++ decimal number) }
{
    let mut text = Vec::from_slice(alloc, word)?;
    add_number(&mut text, u32::from(number))?;
    Ok(text)
}

fn code(alloc: Global, code: Code) -> Result<Vec<u8>, OutOfMemory>
    ensures { IfOk result (λ text. text.items ≡ code_text code) }
{
    match code {
        Code::Lex => Vec::from_slice(alloc, b"lex"),
        Code::Directive => Vec::from_slice(alloc, b"directive"),
        Code::Profile(n) => numbered(alloc, b"profile ", n),
        Code::Syntax => Vec::from_slice(alloc, b"syntax"),
        Code::Typing(n) => numbered(alloc, b"typing ", n),
        Code::Limit(n) => numbered(alloc, b"limit ", n),
    }
}

/// The line of a refused source.
pub fn refusal_text(alloc: Global, refusal: Refusal) -> Result<Vec<u8>, OutOfMemory>
    ensures { IfOk result (λ line. line.items ≡ refusal_line refusal) }
{
    let mut line = Vec::from_slice(alloc, b"upc: refused at ")?;
    add(&mut line, place(alloc, refusal.place)?.as_slice())?;
    add(&mut line, b": ")?;
    add(&mut line, code(alloc, refusal.code)?.as_slice())?;
    add(&mut line, b"\n")?;
    Ok(line)
}

/// The line of a record that is no run's text.
pub fn bad_record_text(alloc: Global, at: Place) -> Result<Vec<u8>, OutOfMemory>
    ensures { IfOk result (λ line. line.items ≡ bad_record_line at) }
{
    let mut line = Vec::from_slice(alloc, b"upc: bad record at ")?;
    add(&mut line, place(alloc, at)?.as_slice())?;
    add(&mut line, b"\n")?;
    Ok(line)
}

/// The line of a record that is not sound.
pub fn broken_text(alloc: Global, part: u8, thread: u32) -> Result<Vec<u8>, OutOfMemory>
    ensures { IfOk result (λ line. line.items ≡ broken_line part thread) }
{
    let mut line = numbered(alloc, b"upc: not sound: part ", part)?;
    add(&mut line, b" on thread ")?;
    add_number(&mut line, thread)?;
    add(&mut line, b"\n")?;
    Ok(line)
}

// The line of a run error.
fn fault(alloc: Global, thread: u32, error: u8, at: Place) -> Result<Vec<u8>, OutOfMemory>
    ensures { IfOk result (λ line. line.items
        ≡ codes "upc: run error E" ++ decimal error ++ codes " at " ++ place_text at
        ++ codes " on thread " ++ decimal thread ++ codes "\n") }
{
    let mut line = numbered(alloc, b"upc: run error E", error)?;
    add(&mut line, b" at ")?;
    add(&mut line, place(alloc, at)?.as_slice())?;
    add(&mut line, b" on thread ")?;
    add_number(&mut line, thread)?;
    add(&mut line, b"\n")?;
    Ok(line)
}

// A line that ends with the number of a thread.
fn on_thread(alloc: Global, words: &[u8], thread: u32) -> Result<Vec<u8>, OutOfMemory>
    ensures { IfOk result (λ line. line.items ≡ words.now ++ decimal thread ++ codes "\n") }
{
    let mut line = Vec::from_slice(alloc, words)?;
    add_number(&mut line, thread)?;
    add(&mut line, b"\n")?;
    Ok(line)
}

fn stop_text(alloc: Global, thread: u32, end: &End) -> Result<Vec<u8>, OutOfMemory>
    ensures { IfOk result (λ line. line.items ≡ stop_line thread «end».now) }
{
    match end {
        End::Fault(error, at) => fault(alloc, thread, *error, *at),
        End::Budget => on_thread(alloc, b"upc: budget on thread ", thread),
        End::ActionsFull => on_thread(alloc, b"upc: actions full on thread ", thread),
        _ => Ok(Vec::new(alloc)),
    }
}

/// The line of the status of a run with these strands.
pub fn run_text(alloc: Global, strands: &[Strand]) -> Result<Vec<u8>, OutOfMemory>
    requires { length strands.now < 2 ^ 32 }
    ensures { IfOk result (λ line. line.items ≡ line_by (first_stop 0 strands.now) strands.now) }
{
    if let Some(stop) = first_stop(strands) {
        return stop_text(alloc, stop.thread, stop.end);
    }
    if all_ended(strands) {
        Ok(Vec::new(alloc))
    } else {
        Vec::from_slice(alloc, b"upc: deadlock\n")
    }
}
