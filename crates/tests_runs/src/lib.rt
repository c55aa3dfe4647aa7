//! Tests of machines and of whole runs.
#![tactic(auto)]

#[cfg(test)]
mod copies;
#[cfg(test)]
mod front;
#[cfg(test)]
mod given;
#[cfg(test)]
mod machines;
#[cfg(test)]
mod orders;
#[cfg(test)]
mod races;
#[cfg(test)]
mod runs;
#[cfg(test)]
mod texts;
#[cfg(test)]
mod threads;
