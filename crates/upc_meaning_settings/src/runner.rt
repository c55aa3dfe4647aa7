//! The thread that runs.

use block_layout::Shape;
use std::alloc::Global;

/// A thread, by its number, among so many, with its budget of ticks and the shapes of the elements of shared objects.
#[derive(Clone, Copy)]
pub struct Runner<'p> {
    pub alloc: Global,
    pub number: u32,
    pub threads: u32,
    pub budget: u64,
    pub shapes: &'p [Shape],
}
