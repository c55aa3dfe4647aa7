//! Tests of code: what is made of a source, and what a machine does with it.
#![tactic(auto)]

#[cfg(test)]
mod alone;
#[cfg(test)]
mod front;
#[cfg(test)]
mod hand;
#[cfg(test)]
mod listings;
#[cfg(test)]
mod parts;
#[cfg(test)]
mod traces;
#[cfg(test)]
mod words;
