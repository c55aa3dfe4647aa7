//! The body of a switch with its labels.

use crate::backwards::Backwards;

/// The code of a switch's body, its labels with values from the last to the first, and its `default`. Each has the
/// number of instructions that stand after it, and so has `default`: 0 where there is none.
#[derive(Drop)]
pub(crate) struct Labelled {
    pub code: Backwards,
    pub labels: Vec<(i128, usize)>,
    pub default: usize,
}
