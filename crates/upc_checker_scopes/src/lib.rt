//! What a walk over a source knows on its way: names and what they stand for, tags, structs, functions, and the
//! places of its parts.
#![tactic(auto)]

pub mod defined;
pub mod finish;
mod functions;
pub mod known;
mod own_tags;
pub mod places;
mod places_of_names;
pub mod setting;
pub mod signatures;
mod source;
pub mod tags;
