//! The first lines of a text.

ghost use Rattle.std.specs.Prelude.{◌≡◌};
ghost use Rattle.run_recorder_parts.specs.layer.Lines as reader;
ghost use Rattle.run_recorder_parts.specs.layer.Readers.{Reads, same, texts};

use crate::fail::Fail;
use crate::limits::{Limits, read_limits};
use crate::parts::{Parts, expect, is};
use std::alloc::Global;

/// What the first lines of a text say: its version, 1 or 2, and the numbers of its run.
#[derive(Clone, Copy)]
pub struct Head {
    pub version: u8,
    pub limits: Limits,
}

// The head of version 1, after its first line.
fn old_head(alloc: Global, lines: &mut Parts<'_, '_>) -> Result<Head, Fail>
    ensures { Reads same (reader.old_head_of (texts lines.old.rest.now)) result
        (texts lines.new.rest.now) }
{
    let limits = read_limits(alloc, lines.next()?)?;
    Ok(Head { version: 1, limits })
}

// The head of version 2, after its first line.
fn combining_head(alloc: Global, lines: &mut Parts<'_, '_>) -> Result<Head, Fail>
    ensures { Reads same (reader.combining_head_of (texts lines.old.rest.now)) result
        (texts lines.new.rest.now) }
{
    let limits = read_limits(alloc, lines.next()?)?;
    expect(lines, "rule places 64 combine")?;
    Ok(Head { version: 2, limits })
}

/// Takes the first lines of a text: two of version 1, or three of version 2.
pub fn read_head(alloc: Global, lines: &mut Parts<'_, '_>) -> Result<Head, Fail>
    ensures { Reads same (reader.head_of (texts lines.old.rest.now)) result
        (texts lines.new.rest.now) }
{
    let first = lines.next()?;
    if is(first, "upc-record 1") {
        return old_head(alloc, lines);
    }
    if is(first, "upc-record 2") {
        return combining_head(alloc, lines);
    }
    Err(Fail::Bad)
}
