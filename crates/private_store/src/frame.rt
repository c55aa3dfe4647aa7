//! Open blocks and active calls.

/// An open block.
#[derive(Clone, Copy)]
pub struct Block {
    /// How many objects of its function were in scope when it was entered.
    pub from: u32,
    /// The number of its first object.
    pub first: u64,
    /// How many objects lived when it was entered.
    pub objects: usize,
}

/// An active call.
#[derive(Clone, Copy)]
pub struct Call {
    /// In how many bodies of controlling `upc_forall`s it is, those of its callers counted.
    pub controls: u64,
    /// How many blocks were open when it began.
    pub blocks: usize,
    /// How many objects lived when it began.
    pub objects: usize,
}
