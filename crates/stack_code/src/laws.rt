//! What holds of every code.

ghost use Rattle.std.specs.Prelude.{List};
ghost use Rattle.thread_steps.specs.States.{Thread};
ghost use Rattle.stack_code.specs.declared.instruction.Instr.{Instr};
ghost use Rattle.stack_code.specs.layer.Codes.{Codes};
ghost use Rattle.stack_code.specs.layer.Outcomes.{HasOneOutcome, StaysEnded};

/// A thread of code has at most one outcome, whatever it is answered.
#[tactic(auto, using(crate::proofs::Ends::one_outcome))]
pub fn one_outcome_at_most()
    ensures { (codes : Codes) → HasOneOutcome codes }
{}

/// A thread that has ended stays as it is.
#[tactic(auto, using(crate::proofs::Ends::stays_ended))]
pub fn ends_are_kept()
    ensures { (τ : Thread) (functions : List (List Instr)) → StaysEnded τ functions }
{}
