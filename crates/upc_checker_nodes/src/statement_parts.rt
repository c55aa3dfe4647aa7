//! Parts of statements with types.

use typed_tree::{Affinity, Head, SwitchItem};
use typing_rules::Constant;

/// The head of a upc_forall with its affinity.
#[derive(Drop)]
pub struct Headed {
    pub head: Box<Head>,
    pub affinity: Affinity,
}

/// The labels of a switch, and how often `default` stands there.
#[derive(Drop)]
pub struct Labelled {
    pub items: Vec<SwitchItem>,
    pub labels: Vec<Constant>,
    pub defaults: usize,
}
