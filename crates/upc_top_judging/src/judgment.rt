//! What is found of a record.

use upc_text::Place;
use upc_verify::Verdict;

/// What is found of the bytes of a record.
#[derive(Clone, Copy, PartialEq, Eq, Debug)]
pub enum Judgment {
    /// No run has this text. The place is that of a line.
    BadText(Place),
    /// The text is of version 1, from before writes were combined.
    OldText,
    /// The text is of version 2, and this is the verdict on its run.
    Judged(Verdict),
}
