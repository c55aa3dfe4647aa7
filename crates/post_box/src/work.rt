//! What a box has to know of the work that goes through it.

/// Plain data, fixed when the box is made, that says which items may be posted and what is done to them.
pub trait Work {
    /// What is posted.
    type Item: Drop;

    /// The item may be posted.
    ghost takes: { Self → Self.Item → Type 0 };

    /// The second item is what may have become of the first.
    ghost did: { Self → Self.Item → Self.Item → Type 0 };
}
