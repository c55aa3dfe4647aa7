//! What a value is cast to.

use block_layout::Kind;

/// A conversion of a value (C99 6.3, 6.5.4; UPC 6.4.3). What is none of the values that it names becomes 0 or null.
#[derive(Clone, Copy)]
pub enum CastTo {
    /// Into an integer kind.
    Integer(Kind),
    /// Into a pointer-to-shared with the same block, which keeps its phase.
    Shared,
    /// Into a pointer-to-shared with another block, whose phase is 0.
    OtherBlock,
    /// Into a pointer-to-local.
    Local,
    /// Into a pointer to a lock.
    Lock,
    /// Into void: no value is left, which stands as 0.
    Nothing,
}
