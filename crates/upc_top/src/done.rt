//! What the top call hands out.

use replica_space::ReplicaJournal;
use upc_text::Refusal;
use upc_values::{Journal, Orders};

/// What the top call did.
#[derive(Drop)]
pub struct Done {
    /// The status that the program ends with.
    pub status: u8,
    /// Why the source was refused.
    pub refusal: Option<Refusal>,
    /// The run, wherever one was had; in mode `replica` it is `replica` that has it.
    pub journal: Option<Journal>,
    /// The orders of the run's operations, where the text of a record was made.
    pub orders: Option<Orders>,
    /// The run on a memory in which each thread has its own copy, wherever one was had.
    pub replica: Option<ReplicaJournal>,
}
