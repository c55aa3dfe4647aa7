//! The second line.

ghost use Rattle.std.specs.Prelude.{◌≡◌};
ghost use Rattle.run_recorder_parts.specs.layer.Lines as reader;
ghost use Rattle.run_recorder_parts.specs.layer.Readers.{Gives, Reads, same, texts};

use crate::fail::Fail;
use crate::fields::{number32, number64};
use crate::parts::{Parts, expect, split};
use std::alloc::Global;

/// The numbers of a run: how many threads it has, and the ticks and items that each was allowed.
#[derive(Clone, Copy)]
pub struct Limits {
    pub threads: u32,
    pub budget: u64,
    pub actions: u64,
}

fn limits_words(words: &mut Parts<'_, '_>) -> Result<Limits, Fail>
    ensures { Reads same (reader.limits_words_of (texts words.old.rest.now)) result
        (texts words.new.rest.now) }
{
    expect(words, "threads")?;
    let threads = number32(words.next()?)?;
    expect(words, "budget")?;
    let budget = number64(words.next()?)?;
    expect(words, "actions")?;
    let actions = number64(words.next()?)?;
    Ok(Limits {
        threads,
        budget,
        actions,
    })
}

/// The second line.
pub fn read_limits(alloc: Global, line: &[u8]) -> Result<Limits, Fail>
    ensures { Gives same result (reader.limits_of line.now) }
{
    let all = split(alloc, line, b' ')?;
    let mut words = Parts { rest: &all };
    let limits = limits_words(&mut words)?;
    if words.end() {
        Ok(limits)
    } else {
        Err(Fail::Bad)
    }
}
