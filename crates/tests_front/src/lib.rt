//! Tests of the front: texts, tokens, macros, trees, and where `break`, `continue` and `return` may stand.
#![tactic(auto)]

#[cfg(test)]
mod affinity;
#[cfg(test)]
mod lexing;
#[cfg(test)]
mod macros;
#[cfg(test)]
mod parsing;
#[cfg(test)]
mod text;
