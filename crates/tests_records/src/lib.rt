//! Tests of turns at a cell, of posts, of write buffers, of the shared heap, of histories and runs by hand, and of the
//! text of a run.
#![tactic(auto)]

#[cfg(test)]
mod buffers;
#[cfg(test)]
mod by_hand;
#[cfg(test)]
mod heaps;
#[cfg(test)]
mod histories;
#[cfg(test)]
mod posts;
#[cfg(test)]
mod records;
#[cfg(test)]
mod turns;
