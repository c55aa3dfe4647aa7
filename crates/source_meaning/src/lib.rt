//! The meaning of a program: what each of its threads does, whatever it is answered.
#![tactic(auto)]

ghost use Rattle.typed_tree.specs.Programs.{Checked};
ghost use Rattle.source_meaning.specs.Laws.{AllAreFramed, AllBeatInTime, AllFormCalls, AllGoOn, AllKeepBudgets};
ghost use Rattle.source_meaning.specs.Laws.{AllKeepTurns, AllTakeReplies, IsTotal};

/// No thread of any program is left unfinished, where its budget has at least one tick.
#[tactic(auto, using(crate::proofs::Finished::is_total))]
pub fn threads_are_finished()
    ensures { (program : Checked) → IsTotal program }
{}

/// Every thread takes its replies in order: each answers the action that was wanted without it, and once nothing is
/// wanted further replies change nothing.
#[tactic(auto, using(crate::proofs::Replies::all_take_replies))]
pub fn replies_are_taken_in_order()
    ensures { (program : Checked) → AllTakeReplies program }
{}

/// Every thread stands between the barrier before main and the one after it (UPC 6.6.1).
#[tactic(auto, using(crate::proofs::Framed::all_are_framed))]
pub fn threads_are_framed()
    ensures { (program : Checked) → AllAreFramed program }
{}

/// No thread counts more ticks than its budget, and each whose ticks are out has counted just so many.
#[tactic(auto, using(crate::proofs::Finished::all_keep_budgets))]
pub fn budgets_are_kept()
    ensures { (program : Checked) → AllKeepBudgets program }
{}

/// Every thread notifies and waits in turn, beginning with a notify (UPC 6.6.1).
#[tactic(auto, using(crate::proofs::InTurn::all_keep_turns))]
pub fn notifies_and_waits_alternate()
    ensures { (program : Checked) → AllKeepTurns program }
{}

/// Where a thread wants a Beat, its ticks are 1,024 for each Beat that it has done, and 1,024 more.
#[tactic(auto, using(crate::proofs::Beats::all_beat_in_time))]
pub fn beats_come_in_time()
    ensures { (program : Checked) → AllBeatInTime program }
{}

/// Every thread begins with nothing done, and each reply that fits the wanted action adds just this action.
#[tactic(auto, using(crate::proofs::Going::all_go_on))]
pub fn fitting_replies_are_taken()
    ensures { (program : Checked) → AllGoOn program }
{}

/// All threads may meet with what comes of the arguments of a collective call, where they are as many as its parameters
/// (UPC 7.2.2, 7.3). So no call of a typed program is left undone for what its arguments are.
#[tactic(auto, using(crate::proofs::Forming::all_form_calls))]
pub fn calls_are_formed()
    ensures { (program : Checked) → AllFormCalls program }
{}
