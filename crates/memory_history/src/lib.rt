//! The shared memory as one history of all threads' entries: the lawful reply of an action after it, and its one entry.
#![tactic(auto)]

mod allocations;
mod barrier;
mod calls;
mod collective;
mod formed;
mod kept;
mod leader;
mod locks;
mod meets;
mod parts;
mod step;
mod world;

pub use shared_heap::Beginning;
pub use step::Step;
pub use world::World;
