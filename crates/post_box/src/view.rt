//! What the two threads at a box know. No value of `View` or `Role` is made.

/// Whose view it is. The first one has the slot at home, the ready one has it in hand, and is then cut into the owner's
/// and the doer's.
pub enum Role {
    First,
    Ready,
    Owner,
    Doer,
}

/// What a thread at a box knows: the work, whose view it is, and the item for which the owner waits, or which the doer
/// has.
pub struct View<I, W> {
    pub work: W,
    pub role: Role,
    pub item: Option<I>,
}
