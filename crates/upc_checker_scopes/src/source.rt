//! What is the same for the whole source.

ghost use Rattle.std.specs.Prelude.{◌<◌};

use crate::defined::Defined;
use std::alloc::Global;
use upc_lexer::Names;

/// The allocator, the names of the source, the number of threads, of which there is one at least, and the functions
/// that the source defines.
#[derive(Clone, Copy)]
pub struct Setting<'s> {
    pub alloc: Global,
    pub names: &'s Names,
    pub threads: u32,
    pub defined: &'s Defined,
    ghost some: { 0 < threads },
}
