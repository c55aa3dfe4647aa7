//! What runs on either memory share: what a program begins with, and how threads come to their ends.
#![tactic(auto)]

mod objects;

pub use objects::objects_of;
