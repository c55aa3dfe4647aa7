//! What comes of an action.

use upc_values::Reply;

/// What comes of an action that a thread asks for.
#[derive(Clone, Copy, PartialEq, Eq, Debug)]
pub enum Step {
    /// One entry was appended, with this reply.
    Done(Reply),
    /// The action is not legal now, and nothing changed. It is a Lock or a Wait.
    Disabled,
}
