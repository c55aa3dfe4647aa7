//! What holds of every code that names nothing but what an opening declares.

ghost use Rattle.std.specs.Prelude.{ℕ, ◌≤◌, List};
ghost use Rattle.block_layout.specs.declared.place.ObjectRef.{ObjectRef};
ghost use Rattle.upc_values.specs.declared.action.Reply.{Reply};
ghost use Rattle.upc_values.specs.Outcomes.{Outcome, IsMeaning};
ghost use Rattle.upc_values.specs.Openings.{Opening};
ghost use Rattle.stack_code.specs.layer.Codes.{Codes};
ghost use Rattle.stack_code.specs.layer.Kept.{IsCode};
ghost use Rattle.stack_code.specs.layer.Outcomes.{CodeMeans};
ghost use Rattle.stack_code_laws.specs.layer.Asking.{IsThreadOf, AsksWell};
ghost use Rattle.stack_code_laws.specs.code.Wanted.{IsThreadNaming, AsksRightly};
ghost use Rattle.stack_code_laws.specs.code.Endings.{IsWithinBudget};
ghost use Rattle.stack_code_laws.specs.code.Turns.{TakesTurns};

/// Whatever a thread of code wants may be asked for after each history that may have given its replies, and with a
/// reply that fits it is one more of the actions that the thread did. It names nothing but what the opening declares or
/// one of these replies gave.
pub fn code_asks_well()
    ensures { (o : Opening) (codes : Codes) (thread budget : ℕ) (f : List Reply → Outcome)
        → IsThreadOf o codes thread budget f → AsksWell o f }
{}

/// Whatever a thread of code was answered, fitting or not, what it wants names nothing but what its code names or one
/// of these replies gave, leads to a cell of such an object, in a read to one of the very kind that the instruction
/// reads there, and has its pointers and numbers in range. A further reply that fits it, a read by that kind, is taken,
/// and any other one ends the thread.
pub fn code_asks_rightly()
    ensures { (named : List ObjectRef) (codes : Codes) (thread budget : ℕ) (f : List Reply → Outcome)
        → IsThreadNaming named codes thread budget f → AsksRightly named codes thread budget f }
{}

/// Every thread of every code notifies and waits in turn, beginning with a notify (UPC 6.6.1).
pub fn code_takes_turns()
    ensures { (codes : Codes) (thread budget : ℕ) (replies : List Reply) (outcome : Outcome)
        → CodeMeans codes thread budget replies outcome → TakesTurns outcome }
{}

/// Every thread of every code, with a budget of at least one tick, comes to an end, whatever it is answered: every way
/// back to an instruction passes a tick.
pub fn code_has_outcomes()
    ensures { (codes : Codes) (thread budget : ℕ) (replies : List Reply) → IsCode codes → 1 ≤ budget
        → (outcome : Outcome) × CodeMeans codes thread budget replies outcome }
{}

/// No thread of code, with a budget of at least one tick, counts more ticks than its budget.
pub fn code_keeps_budgets()
    ensures { (codes : Codes) (thread budget : ℕ) (replies : List Reply) (outcome : Outcome) → 1 ≤ budget
        → CodeMeans codes thread budget replies outcome → IsWithinBudget budget outcome }
{}

/// What a thread of code does keeps what every meaning of a source keeps, where the code names nothing but what the
/// opening declares.
pub fn code_is_a_meaning()
    ensures { (o : Opening) (codes : Codes) (thread budget : ℕ) (f : List Reply → Outcome)
        → IsThreadOf o codes thread budget f → IsMeaning o f }
{}
