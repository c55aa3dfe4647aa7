//! What holds of every code.

ghost use Rattle.std.specs.Prelude.{ℕ, List};
ghost use Rattle.thread_steps.specs.States.{Thread};
ghost use Rattle.stack_code.specs.declared.instruction.Instr.{Instr};
ghost use Rattle.stack_code.specs.layer.Codes.{Codes};
ghost use Rattle.stack_machine.specs.code.Bodies.{GoesOn};
ghost use Rattle.stack_machine.specs.code.Inside.{Enters, GoesInside};
ghost use Rattle.stack_machine.specs.code.Standing.{GoesByReplies};

/// What one instruction does goes by the body and the replies that it hears alone: not by the actions before, nor by
/// the replies that follow.
#[tactic(auto, using(crate::proofs::Instructions::goes_on))]
pub fn instructions_go_on()
    ensures { (τ : Thread) (functions : List (List Instr)) → GoesOn τ functions }
{}

/// A machine that goes on as its instructions say, and keeps nothing of the actions and replies before, answers what
/// the code means on the replies that it was given.
#[tactic(auto, using(crate::proofs::Standings::goes_by_replies))]
pub fn machines_go_by_replies()
    ensures { (codes : Codes) (thread budget : ℕ) → GoesByReplies codes thread budget }
{}

/// A machine that goes on inside a call of the library, reply by reply, answers what the code means on the replies that
/// it was given.
#[tactic(auto, using(crate::proofs::Inside::goes_inside))]
pub fn calls_go_by_replies()
    ensures { (codes : Codes) (thread budget : ℕ) → GoesInside codes thread budget }
{}

/// The instruction of a call of the library leads into the call.
#[tactic(auto, using(crate::proofs::Entering::enters))]
pub fn calls_are_entered()
    ensures { (codes : Codes) (thread budget : ℕ) → Enters codes thread budget }
{}
