//! Numbers by thread.

ghost use Rattle.std.specs.Prelude.{◌≡◌, ℕ, ◌<◌, ◌==◌, [], max, cond, length, slice_index, OnOk};

use std::alloc::Global;
use std::marker::Model;
use upc_text::OutOfMemory;

/// A number for each thread; past the end of the list they are 0.
#[derive(Drop)]
pub struct Row {
    numbers: Vec<u32>,
}

impl Model for Row {
    ghost use Rattle.std.specs.Prelude.{List, ℕ};

    ghost Value = { List ℕ };

    ghost view = { λ r. r.numbers.items };
}

// The list has a place with this number.
#[inline]
fn reach(numbers: &mut Vec<u32>, at: usize) -> Result<(), OutOfMemory>
    ensures same { OnOk result ((u : ℕ) → slice_index numbers.new.items u ≡ slice_index numbers.old.items u) }
    ensures within { OnOk result (at < length numbers.new.items) }
{
    while numbers.len() <= at {
        numbers.push(0)?;
    }
    Ok(())
}

impl Row {
    /// Each number is 0.
    pub fn new(alloc: Global) -> Row
        ensures { result ≡ [] }
    {
        Row {
            numbers: Vec::new(alloc),
        }
    }

    /// The number of a thread.
    #[inline]
    pub fn at(&self, thread: u32) -> u32
        ensures { result ≡ slice_index self.now thread }
    {
        let at = thread as usize;
        if at < self.numbers.len() {
            self.numbers[at]
        } else {
            0
        }
    }

    /// The number of a thread is at least this one from now on.
    #[inline]
    pub fn raise(&mut self, thread: usize, number: u32) -> Result<(), OutOfMemory>
        ensures { OnOk result ((u : ℕ) →
            slice_index self.new u ≡ max (slice_index self.old u) (cond (thread == u) number 0)) }
    {
        reach(&mut self.numbers, thread)?;
        if self.numbers[thread] < number {
            self.numbers[thread] = number;
        }
        Ok(())
    }

    /// Each number is at least that of another row from now on.
    pub fn join(&mut self, other: &Row) -> Result<(), OutOfMemory>
        ensures { OnOk result ((u : ℕ) →
            slice_index self.new u ≡ max (slice_index self.old u) (slice_index other.now u)) }
    {
        for (thread, number) in other.numbers.iter().enumerate() {
            self.raise(thread, *number)?;
        }
        Ok(())
    }
}
