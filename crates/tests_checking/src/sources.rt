//! From a source to its checked program.

ghost use Rattle.std.specs.Prelude.{◌≤◌, length};

use std::alloc::Global;
use upc_checker::{Program, accepts, check};
use upc_lexer::lex;
use upc_macros::expand;
use upc_parser::parse;
use upc_text::Stop;

/// The program of a source for so many threads.
pub fn program_of(alloc: Global, threads: u32, source: &[u8]) -> Result<Program, Stop>
    requires least { 1 ≤ threads }
    requires most { threads ≤ 32 }
    requires short { length source.now ≤ 1048576 }
{
    let lexed = lex(alloc, source)?;
    let tokens = expand(alloc, source, &lexed)?;
    let unit = parse(alloc, tokens.as_slice())?;
    check(alloc, &unit, &lexed.names, threads)
}

/// Whether a source is accepted for so many threads.
pub fn accepted(alloc: Global, threads: u32, source: &[u8]) -> Result<(), Stop>
    requires least { 1 ≤ threads }
    requires short { length source.now ≤ 1048576 }
{
    let lexed = lex(alloc, source)?;
    let tokens = expand(alloc, source, &lexed)?;
    let unit = parse(alloc, tokens.as_slice())?;
    accepts(alloc, &unit, &lexed.names, threads)
}
