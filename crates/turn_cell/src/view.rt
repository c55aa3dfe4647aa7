//! What a seat knows. No value of `View` or `Part` is made.
use std::collections::LinkedList;
use std::snapshot::Snapshot;

/// A number and the members that its seat added.
pub struct Part<M> {
    pub number: u64,
    pub own: LinkedList<M>,
}

/// What a seat knows: whether it holds the turn, the list that it has seen, its numbers with what was added under each,
/// the lists that were seen before a join, and the opening, which a spent view has not.
pub struct View<M, O> {
    pub holds: bool,
    pub seen: LinkedList<M>,
    pub parts: LinkedList<Part<M>>,
    pub olds: LinkedList<LinkedList<M>>,
    pub opening: Option<O>,
}

/// What the table is told when it is made.
#[derive(Drop)]
pub struct Begun<W> {
    pub world: Snapshot<W>,
    pub seats: u64,
}
