//! Tests of the meaning of programs: plain evaluation gives again what their threads did in runs.
#![tactic(auto)]

#[cfg(test)]
mod edges;
#[cfg(test)]
mod front;
#[cfg(test)]
mod sources;
#[cfg(test)]
mod strands;
#[cfg(test)]
mod together;
