//! Code of statements and of whole programs, which keeps their meaning.
#![tactic(auto)]

mod backwards;
mod branches;
mod entry;
mod exits;
mod functions;
mod initials;
mod labelled;
mod laws;
mod leaving;
mod loops;
mod programs;
mod put;
mod shapes;
mod standing;
mod statements;
mod values;

pub use laws::{
    blocks_begin_after_few, depths_agree, entries_begin_once, programs_are_meant, pushes_are_known,
};
pub use programs::compile;
