//! What a thread does at each item of a statement: of a block, the head of a loop or an initial value, of a jump, a
//! barrier, an `if`, a loop or a switch, and of lists of statements.
#![tactic(auto)]

pub mod declarations;
pub mod loops;
pub mod statements;
pub mod switches;
