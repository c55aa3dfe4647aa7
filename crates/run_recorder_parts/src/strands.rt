//! Threads, from their lines.

ghost use Rattle.std.specs.Prelude.{◌≡◌};
ghost use Rattle.run_recorder_parts.specs.layer.Lines as reader;
ghost use Rattle.run_recorder_parts.specs.layer.Readers.{Gives, Reads, same, texts};

use crate::ends::end;
use crate::fail::Fail;
use crate::fields::{number32, number64};
use crate::parts::{Parts, expect, split};
use crate::series::{Part, many};
use std::alloc::Global;
use upc_values::{End, Items, Strand};

/// The first line of a thread.
#[derive(Drop)]
pub struct Header {
    pub thread: u32,
    pub items: u64,
    pub ticks: u64,
    pub end: End,
}

fn header_words(alloc: Global, words: &mut Parts<'_, '_>) -> Result<Header, Fail>
    ensures { Reads same (reader.header_words_of (texts words.old.rest.now)) result
        (texts words.new.rest.now) }
{
    expect(words, "thread")?;
    let thread = number32(words.next()?)?;
    expect(words, "items")?;
    let items = number64(words.next()?)?;
    expect(words, "ticks")?;
    let ticks = number64(words.next()?)?;
    let end = end(alloc, words)?;
    Ok(Header {
        thread,
        items,
        ticks,
        end,
    })
}

fn read_header(alloc: Global, line: &[u8]) -> Result<Header, Fail>
    ensures { Gives same result (reader.header_of line.now) }
{
    let all = split(alloc, line, b' ')?;
    let mut words = Parts { rest: &all };
    let header = header_words(alloc, &mut words)?;
    if words.end() {
        Ok(header)
    } else {
        Err(Fail::Bad)
    }
}

impl Part for Strand {
    ghost use Rattle.run_recorder_parts.specs.layer.Lines.{strand_of};

    ghost of = { strand_of };

    fn read(alloc: Global, at: u64, lines: &mut Parts<'_, '_>) -> Result<Strand, Fail> {
        let header = read_header(alloc, lines.next()?)?;
        if u64::from(header.thread) != at {
            return Err(Fail::Bad);
        }
        let items = many(alloc, header.items, lines)?;
        Ok(Strand {
            items: Items::from_vec(alloc, items)?,
            ticks: header.ticks,
            end: header.end,
        })
    }
}
