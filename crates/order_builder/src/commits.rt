//! The commits of a thread in flat lists.

ghost use Rattle.std.specs.Prelude.{◌≡◌, ◌<◌};
ghost use Rattle.order_builder.specs.layer.Commits.{HasCommit, names_at};

use crate::names::{Named, Names};
use upc_values::Listing;

/// The operations that stand in the places of a thread's entries, in the order of the history, and for each entry how
/// many there are up to its last.
#[derive(Drop)]
pub struct Commits {
    pub names: Names,
    pub ends: Listing<usize>,
}

impl Commits {
    /// The operations in the place of the thread's entry with this number, counted from 0.
    pub fn at(&self, number: usize) -> &[Named]
        requires { HasCommit self.now number }
        ensures names { result.now ≡ names_at self.now number }
        // There is a number after this one.
        ensures counted { number < usize.MAX }
    {
        let ends = self.ends.as_slice();
        let begin = if number == 0 { 0 } else { ends[number - 1] };
        &self.names.as_slice()[begin..ends[number]]
    }
}
