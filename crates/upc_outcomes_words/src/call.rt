//! What the words of the command line ask for.

/// Which lists of picks a program is run by.
#[derive(Drop)]
pub enum Plan {
    /// So many lists, from 1 to 100,000, made from a seed.
    Seeded(u64, u64),
    /// Every list of at most so many picks, at most 64; of these lists there are at most 100,000.
    Every(u64),
    /// This list.
    Given(Vec<u32>),
    /// This list, and the record of its run is wanted.
    Recorded(Vec<u32>),
}

/// What the words ask for.
#[derive(Drop)]
pub struct Call<'a> {
    /// From 1 to 32.
    pub threads: u64,
    /// The ticks at which a thread ends, from 1 to 1,000,000,000,000.
    pub budget: u64,
    /// The items that each thread's record may have, at least 1; over all threads at most 8,388,608.
    pub actions: u64,
    /// The FILE word.
    pub file: &'a str,
    /// The lists of picks.
    pub plan: Plan,
}
