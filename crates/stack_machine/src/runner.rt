//! Who runs code.

use std::alloc::Global;

/// A thread, by its number, with its budget of ticks.
#[derive(Clone, Copy)]
pub(crate) struct Runner {
    pub(crate) alloc: Global,
    pub(crate) number: u32,
    pub(crate) budget: u64,
}
