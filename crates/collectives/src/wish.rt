//! What a collective call asks for.

use upc_values::Action;

/// What a collective call asks for next: an action, or nothing more.
#[derive(Drop)]
pub enum CollWish {
    Act(Action),
    Finished,
}
