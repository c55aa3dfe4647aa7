//! Tests of checking: what the typing rules answer, and what programs begin with.
#![tactic(auto)]

#[cfg(test)]
mod checked_rows;
#[cfg(test)]
mod sources;
#[cfg(test)]
mod typing_rows;
