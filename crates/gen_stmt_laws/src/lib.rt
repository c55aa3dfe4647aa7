//! That no test of the compiler fails but for want of memory.
#![tactic(auto)]

mod laws;

pub use laws::{accepted_have_formed_types, accepted_pass_tests, programs_are_ranged, tests_hold};
