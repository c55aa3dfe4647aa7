//! Who makes a call.

ghost use Rattle.std.specs.Prelude.{◌<◌, ◌≤◌};

use block_layout::Shape;

/// A thread of a run: its number, and how many there are.
#[derive(Clone, Copy)]
pub struct Seat {
    pub number: u32,
    pub threads: u32,
    ghost some: { 0 < threads },
    ghost few: { threads ≤ 32 },
}

/// A thread of a run: its number, how many there are, and the program's shapes.
#[derive(Clone, Copy)]
pub struct Thread<'a> {
    pub number: u32,
    pub threads: u32,
    pub shapes: &'a [Shape],
    ghost some: { 0 < threads },
    ghost few: { threads ≤ 32 },
}
