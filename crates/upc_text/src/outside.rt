//! The outside: what is read, what is written, and what is called when a round begins.
ghost use Rattle.std.specs.Prelude.{◌≡◌, ◌<◌, ◌≤◌, ℕ, List, Option, length, take, IfOk, OnErr};
ghost use Rattle.upc_text.specs.Outside.{Rose, StandsAt, EndsBy, taken_with};

use crate::Failed;

/// Named inputs, each read from any place.
pub trait Sources {
    /// The bytes of each name, where they are known. No read changes them.
    ghost bytes_of: { Self → List ℕ → Option (List ℕ) };

    /// The count of faults of each name. It never falls.
    ghost faults: { Self → List ℕ → ℕ };

    /// Reads bytes of the name from byte `at` on into the front of `buf`, and gives how many. The bytes of
    /// `buf` after them are left open. It gives `Ok(0)`, no bytes at all, only at the end or past it.
    fn read_at(&mut self, name: &str, at: u64, buf: &mut [u8]) -> Result<usize, Failed>
        requires room { 0 < length buf.old }
        ensures bound { IfOk result (λ n. n ≤ length buf.new) }
        ensures placed { IfOk result (λ n. StandsAt (bytes_of self.old name.now) at (take n buf.new)) }
        ensures end { IfOk result (λ n. n ≡ 0 → EndsBy (bytes_of self.old name.now) at) }
        ensures failed { OnErr result (Rose (faults self.old name.now) (faults self.new name.now)) }
        ensures counts { (other : List ℕ) → faults self.old other ≤ faults self.new other }
        ensures same { (other : List ℕ) → bytes_of self.new other ≡ bytes_of self.old other };
}

/// An output, which takes bytes at its end.
pub trait Sink {
    /// The bytes that it has taken, where they are known.
    ghost taken: { Self → Option (List ℕ) };

    /// The count of faults. It never falls.
    ghost faults: { Self → ℕ };

    /// Takes the first bytes of the piece, at least one, and gives how many. After `Failed` it has taken none.
    fn put(&mut self, piece: &[u8]) -> Result<usize, Failed>
        requires some { 0 < length piece.now }
        ensures least { IfOk result (λ n. 0 < n) }
        ensures bound { IfOk result (λ n. n ≤ length piece.now) }
        ensures took { IfOk result (λ n. taken self.new ≡ taken_with (taken self.old) (take n piece.now)) }
        ensures failed { OnErr result (Rose (faults self.old) (faults self.new)) }
        ensures nothing { OnErr result (taken self.new ≡ taken self.old) }
        ensures counts { faults self.old ≤ faults self.new };
}

/// What is called at the beginning of each thread's part of a round.
pub trait Gate: Sync {
    /// Called once at the start of the thread's part of the round. Threads are numbered from 0, rounds from 1.
    fn round_begins(&self, thread: u32, round: u64);
}

/// The gate that does nothing.
#[derive(Clone, Copy, PartialEq, Eq, Debug)]
pub struct OpenGate;

impl Gate for OpenGate {
    fn round_begins(&self, _thread: u32, _round: u64) {}
}
