//! Where an operation acts.

use block_layout::Loc;

/// A location, or the one place of all implied strict accesses (UPC Appendix B).
#[derive(Clone, Copy, PartialEq, Eq, Debug)]
pub enum Place {
    Cell(Loc),
    Sync,
}
