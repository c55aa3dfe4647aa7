//! Tests of places, cells, values and types.
#![tactic(auto)]

#[cfg(test)]
mod actions;
#[cfg(test)]
mod arithmetic_rows;
#[cfg(test)]
mod cells;
#[cfg(test)]
mod chunks;
#[cfg(test)]
mod collective_calls;
#[cfg(test)]
mod counted;
#[cfg(test)]
mod edges;
#[cfg(test)]
mod given;
#[cfg(test)]
mod integer_rows;
#[cfg(test)]
mod journals;
#[cfg(test)]
mod memory_calls;
#[cfg(test)]
mod orders;
#[cfg(test)]
mod places;
#[cfg(test)]
mod plain;
#[cfg(test)]
mod pointers;
#[cfg(test)]
mod types;
