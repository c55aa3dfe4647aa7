//! Tests of what a machine stands on: private objects, and the text of printf.
#![tactic(auto)]

#[cfg(test)]
mod objects;
#[cfg(test)]
mod printing;
#[cfg(test)]
mod shapes;
