//! What every thread of every code does: it comes to an end, keeps its budget, and asks for what may be asked for.
#![tactic(auto)]

mod laws;

pub use laws::{
    code_asks_rightly, code_asks_well, code_has_outcomes, code_is_a_meaning, code_keeps_budgets,
    code_takes_turns,
};
