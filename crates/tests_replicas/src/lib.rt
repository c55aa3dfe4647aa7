//! Tests of runs with a copy of the shared memory for each thread: replies, deliveries and orders.
#![tactic(auto)]

#[cfg(test)]
mod play;
#[cfg(test)]
mod runs;
