//! What the type of a pointer says of its target.

/// The elements that the type of a pointer names.
#[derive(Clone, Copy)]
pub struct Elements {
    /// How many of them make a block (UPC 6.5.1.1), 0 where the block is indefinite.
    pub block: u32,
    /// The bytes of one, at least 1.
    pub size: u32,
}
