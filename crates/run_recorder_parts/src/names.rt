//! The names of entries and of operations, from their lines, and sections of them.

ghost use Rattle.std.specs.Prelude.{◌≡◌};
ghost use Rattle.run_recorder_parts.specs.layer.Lines as reader;
ghost use Rattle.run_recorder_parts.specs.layer.Readers as part;
ghost use Rattle.run_recorder_parts.specs.layer.Readers.{Gives, Reads, same, texts};

use crate::fail::Fail;
use crate::fields::{number32, number64, starts};
use crate::parts::{Parts, expect, is, split};
use crate::series::{Part, many};
use std::alloc::Global;
use upc_values::{Listing, Op};

/// An entry of the history by its thread and its number there.
#[derive(Clone, Copy, PartialEq, Eq, Debug)]
pub struct Name {
    pub thread: u32,
    pub index: u32,
}

fn name_parts(parts: &mut Parts<'_, '_>) -> Result<Name, Fail>
    ensures { Reads same (reader.name_parts_of (texts parts.old.rest.now)) result
        (texts parts.new.rest.now) }
{
    let thread = number32(parts.next()?)?;
    let index = number32(parts.next()?)?;
    Ok(Name { thread, index })
}

fn entry_name(alloc: Global, line: &[u8]) -> Result<Name, Fail>
    ensures { Gives same result (reader.name_of line.now) }
{
    let all = split(alloc, line, b'.')?;
    let mut parts = Parts { rest: &all };
    let name = name_parts(&mut parts)?;
    if parts.end() {
        Ok(name)
    } else {
        Err(Fail::Bad)
    }
}

impl Part for Name {
    ghost use Rattle.run_recorder_parts.specs.layer.Lines.{name_of};
    ghost use Rattle.run_recorder_parts.specs.layer.Readers.{each};

    ghost of = { each name_of };

    fn read(alloc: Global, _at: u64, lines: &mut Parts<'_, '_>) -> Result<Name, Fail> {
        let line = lines.next()?;
        entry_name(alloc, line)
    }
}

fn access(part: &[u8]) -> Result<bool, Fail>
    ensures { Gives same result (reader.access_of part.now) }
{
    if starts(part, b'w') {
        return if is(part, "w") {
            Ok(true)
        } else {
            Err(Fail::Bad)
        };
    }
    if is(part, "r") {
        Ok(false)
    } else {
        Err(Fail::Bad)
    }
}

fn op_parts(parts: &mut Parts<'_, '_>) -> Result<Op, Fail>
    ensures { Reads same (reader.op_parts_of (texts parts.old.rest.now)) result
        (texts parts.new.rest.now) }
{
    let thread = number32(parts.next()?)?;
    let index = number32(parts.next()?)?;
    let write = access(parts.next()?)?;
    Ok(Op {
        thread,
        index,
        write,
    })
}

fn op(alloc: Global, line: &[u8]) -> Result<Op, Fail>
    ensures { Gives same result (reader.op_of line.now) }
{
    let all = split(alloc, line, b'.')?;
    let mut parts = Parts { rest: &all };
    let op = op_parts(&mut parts)?;
    if parts.end() { Ok(op) } else { Err(Fail::Bad) }
}

impl Part for Op {
    ghost use Rattle.run_recorder_parts.specs.layer.Lines.{op_of};
    ghost use Rattle.run_recorder_parts.specs.layer.Readers.{each};

    ghost of = { each op_of };

    fn read(alloc: Global, _at: u64, lines: &mut Parts<'_, '_>) -> Result<Op, Fail> {
        let line = lines.next()?;
        op(alloc, line)
    }
}

fn count_words(words: &mut Parts<'_, '_>, name: &str) -> Result<u64, Fail>
    ensures { Reads same (reader.count_words_of name.now (texts words.old.rest.now)) result
        (texts words.new.rest.now) }
{
    expect(words, name)?;
    number64(words.next()?)
}

fn count(alloc: Global, line: &[u8], name: &str) -> Result<u64, Fail>
    ensures { Gives same result (part.whole 32 (reader.count_words_of name.now) line.now) }
{
    let all = split(alloc, line, b' ')?;
    let mut words = Parts { rest: &all };
    let count = count_words(&mut words, name)?;
    if words.end() {
        Ok(count)
    } else {
        Err(Fail::Bad)
    }
}

/// A heading with a count, and so many.
pub fn section<T: Part>(
    alloc: Global,
    name: &str,
    lines: &mut Parts<'_, '_>,
) -> Result<Vec<T>, Fail>
    ensures { Reads (λ v. v.items)
        (reader.section_of name.now T.of (texts lines.old.rest.now)) result
        (texts lines.new.rest.now) }
{
    let count = count(alloc, lines.next()?, name)?;
    many(alloc, count, lines)
}

fn order_words(words: &mut Parts<'_, '_>) -> Result<(u32, u64), Fail>
    ensures { Reads same (reader.order_words_of (texts words.old.rest.now)) result
        (texts words.new.rest.now) }
{
    expect(words, "order")?;
    let thread = number32(words.next()?)?;
    let count = number64(words.next()?)?;
    Ok((thread, count))
}

fn order_header(alloc: Global, line: &[u8]) -> Result<(u32, u64), Fail>
    ensures { Gives same result (part.whole 32 reader.order_words_of line.now) }
{
    let all = split(alloc, line, b' ')?;
    let mut words = Parts { rest: &all };
    let header = order_words(&mut words)?;
    if words.end() {
        Ok(header)
    } else {
        Err(Fail::Bad)
    }
}

impl Part for Listing<Op> {
    ghost use Rattle.run_recorder_parts.specs.layer.Lines.{order_of};

    ghost of = { order_of };

    fn read(alloc: Global, at: u64, lines: &mut Parts<'_, '_>) -> Result<Listing<Op>, Fail> {
        let (thread, count) = order_header(alloc, lines.next()?)?;
        if u64::from(thread) != at {
            return Err(Fail::Bad);
        }
        Ok(Listing::from_vec(many(alloc, count, lines)?))
    }
}
