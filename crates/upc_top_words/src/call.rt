//! What the words of the command line ask for.

ghost use Rattle.std.specs.Prelude.{◌≡◌};
ghost use Rattle.upc_top_words.specs.declared.call.NoCall.TheVariants.{Memory};

use std::alloc::AllocError as OutOfMemory;

/// What is to be done with a source.
#[derive(Clone, Copy, PartialEq, Eq, Debug)]
pub enum Mode {
    /// Run it, and write what it prints.
    Run,
    /// Run it, and write the record of the run.
    Record,
    /// Say whether it is accepted.
    Check,
    /// Write where its shared objects lie.
    Layout,
    /// Run the sample source with so many stages.
    Sample,
    /// Judge a record against it.
    Verify,
    /// Run it, and write its races.
    Races,
    /// Run it on a memory in which each thread has its own copy, and write what it prints.
    Replica,
}

/// What the words ask for.
#[derive(Clone, Copy)]
pub struct Call<'a> {
    pub mode: Mode,
    /// From 1 to 32.
    pub threads: u32,
    /// The ticks at which a thread ends, from 1 to 1,000,000,000,000.
    pub budget: u64,
    /// The items that each thread's record may have, at least 1; over all threads at most 8,388,608, in mode `replica`
    /// over all pairs of threads.
    pub actions: u64,
    /// The FILE word.
    pub file: &'a str,
    /// The RECORD word, which stands in mode `verify` alone.
    pub recording: Option<&'a str>,
}

/// Why the words are no call.
#[derive(Clone, Copy, PartialEq, Eq, Debug)]
pub enum NoCall {
    /// They ask for nothing.
    Usage,
    /// There is not enough memory.
    Memory,
}

impl From<OutOfMemory> for NoCall {
    ghost from_gives = { λ _ e. e ≡ Memory };

    fn from(_error: OutOfMemory) -> NoCall {
        NoCall::Memory
    }
}
