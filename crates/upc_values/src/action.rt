//! What a thread asks of the shared memory and of the outside, and what it is answered.

use crate::listing::Listing;
use crate::scalar::{Args, Mark, Scalar};
use block_layout::{Loc, SharedPtr};
use upc_text::Text;

/// What a thread asks for.
#[derive(Drop)]
pub enum Action {
    Read {
        loc: Loc,
        strict: bool,
    },
    Write {
        // First, since fields lie in the order of the source: an item takes 144 bytes so, else 160.
        strict: bool,
        loc: Loc,
        value: Scalar,
    },
    Fence,
    /// One for every 1,024 ticks of a thread.
    Beat,
    Notify(Mark),
    Wait(Mark),
    Lock(u32),
    Attempt(u32),
    Unlock(u32),
    LockMake,
    LockFree(u32),
    Alloc {
        nblocks: u64,
        nbytes: u64,
        home: Option<u32>,
        shape: u32,
    },
    Free(SharedPtr),
    /// A collective call, by its number.
    Meet {
        call: u8,
        args: Args,
    },
    Print(Text),
    Exit(i32),
}

/// What it is answered.
#[derive(Clone, Copy, PartialEq, Eq, Debug)]
pub enum Reply {
    Done,
    Value(Scalar),
    Flag(bool),
    /// The number of a run error.
    Refused(u8),
}

/// A list of actions.
pub type Actions = Listing<Action>;
