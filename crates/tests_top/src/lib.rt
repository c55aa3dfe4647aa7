//! Tests of the top calls.
#![tactic(auto)]

#[cfg(test)]
mod calls;
#[cfg(test)]
mod listings;
#[cfg(test)]
mod refused;
