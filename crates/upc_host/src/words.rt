//! The words after a program's name.

ghost use Rattle.std.specs.Prelude.{◌≡◌, ◌⊎◌, IfErr};

use std::env::{self, Env};
use std::io::{self, ErrorKind};
use upc_text::{Sink, put_all};

fn all_words<R: Env + AllocGlobal>(rt: &R) -> io::Result<Vec<String>> {
    let mut words = Vec::new(rt.alloc());
    for word in env::args(rt)?.skip(1) {
        words.push(word)?;
    }
    Ok(words)
}

// The status where memory was wanting for the words, with its line.
fn without_memory<E: Sink>(err: &mut E) -> u8
    ensures { (result ≡ 103) ⊎ (result ≡ 104) }
{
    match put_all(err, b"upc: no memory\n") {
        Ok(()) => 104,
        Err(_) => 103,
    }
}

/// The words after the program's name; words that are no text are refused as no words are. Where memory was wanting for
/// them, the status to end with, after its line.
pub fn host_words<R: Env + AllocGlobal, E: Sink>(rt: &R, err: &mut E) -> Result<Vec<String>, u8>
    ensures { IfErr result (λ status. (status ≡ 103) ⊎ (status ≡ 104)) }
{
    match all_words(rt) {
        Ok(words) => Ok(words),
        Err(error) if error.kind() == ErrorKind::OutOfMemory => Err(without_memory(err)),
        Err(_) => Ok(Vec::new(rt.alloc())),
    }
}
