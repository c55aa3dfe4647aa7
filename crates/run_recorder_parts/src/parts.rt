//! A text as its lines, a line as its words, and a word as its parts.

ghost use Rattle.std.specs.Prelude.{◌≡◌, ◌==◌, IfOk, length};
ghost use Rattle.std.specs.List.{slice_split};
ghost use Rattle.std.specs.Str.{bytes_eq};
ghost use Rattle.run_recorder_parts.specs.layer.Readers as reader;
ghost use Rattle.run_recorder_parts.specs.layer.Readers.{Reads, next, same, texts};

use crate::fail::Fail;
use std::alloc::Global;
use upc_text::OutOfMemory;

/// Parts, from the front.
#[derive(Clone, Copy)]
pub struct Parts<'w, 'a> {
    pub rest: &'w [&'a [u8]],
}

impl<'w, 'a> Parts<'w, 'a> {
    /// The next part.
    pub fn next(&mut self) -> Result<&'a [u8], Fail>
        ensures { Reads (λ w. w.now) (next (texts self.old.rest.now)) result
            (texts self.new.rest.now) }
    {
        match self.rest {
            [part, rest @ ..] => {
                let part = *part;
                self.rest = rest;
                Ok(part)
            }
            [] => Err(Fail::Bad),
        }
    }

    /// Whether no part is left.
    pub fn end(&self) -> bool
        ensures { result ≡ (length (texts self.now.rest.now) == 0) }
    {
        self.rest.is_empty()
    }
}

/// The parts between the bytes that are the mark.
pub fn split<'a>(alloc: Global, bytes: &'a [u8], mark: u8) -> Result<Vec<&'a [u8]>, OutOfMemory>
    ensures { IfOk result (λ v. texts v.items ≡ slice_split (λ b. b == mark) bytes.entry.now) }
{
    bytes.split(|b| *b == mark).collect(alloc)
}

/// Whether the word is this text.
pub fn is(word: &[u8], text: &str) -> bool
    ensures { result ≡ bytes_eq word.now text.now }
{
    *word == *text.as_bytes()
}

/// Takes a part that is this text.
pub fn expect(parts: &mut Parts<'_, '_>, text: &str) -> Result<(), Fail>
    ensures { Reads same (reader.expect text.now (texts parts.old.rest.now)) result
        (texts parts.new.rest.now) }
{
    if is(parts.next()?, text) {
        Ok(())
    } else {
        Err(Fail::Bad)
    }
}
