//! The report of a run's races.

use upc_values::{Listing, Loc, Op};

/// Two operations that race, on a location: the second is the first there that races with one before it.
#[derive(Clone, Copy, PartialEq, Eq, Debug)]
pub struct Race {
    pub loc: Loc,
    pub first: Op,
    pub second: Op,
}

/// The races of a run: one for each location that has one, by object, thread and offset.
pub type Races = Listing<Race>;

/// What is told of a run: its races.
#[derive(Drop)]
pub struct Report {
    pub races: Races,
}
