//! From a source to its program.
use std::alloc::Global;
use std::test::Fail;
use upc_checker::{Program, check};
use upc_lexer::lex;
use upc_macros::expand;
use upc_parser::parse;

/// The program of a source for so many threads.
pub fn program_of(alloc: Global, threads: u32, source: &[u8]) -> Result<Option<Program>, Fail> {
    if source.len() > 1_048_576 || threads == 0 || threads > 32 {
        return Ok(None);
    }
    let lexed = lex(alloc, source)?;
    let tokens = expand(alloc, source, &lexed)?;
    let unit = parse(alloc, tokens.as_slice())?;
    Ok(Some(check(alloc, &unit, &lexed.names, threads)?))
}
