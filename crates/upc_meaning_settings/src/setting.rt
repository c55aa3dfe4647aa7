//! A program as a thread runs it.

use crate::runner::Runner;
use typed_tree::{Function, SharedDecl};
use upc_types::Structs;

/// A program that a thread runs: the thread, the program's functions by number, its structs with the numbers of pointer
/// types, and its declared shared objects in order.
#[derive(Clone, Copy)]
pub struct Setting<'p> {
    pub runner: Runner<'p>,
    pub functions: &'p [Function],
    pub structs: &'p Structs,
    pub shared: &'p [SharedDecl],
}
