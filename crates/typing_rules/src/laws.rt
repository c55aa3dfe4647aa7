//! What a first fault means.

ghost use Rattle.std.specs.Prelude.{◌≡◌, List, Some, None};
ghost use Rattle.typing_rules.specs.Faults.{Seen, Fault, first_fault, IsFirst, AllMeet};

/// A first fault is that of the first node that breaks a rule, with the lowest such rule: all nodes that are finished
/// before it meet every rule.
pub fn fault_is_first()
    ensures { (xs : List Seen) (f : Fault) → first_fault xs ≡ Some f → IsFirst xs f }
{}

/// Where there is no first fault, every node meets every rule.
pub fn none_is_broken()
    ensures { (xs : List Seen) → first_fault xs ≡ None → AllMeet xs }
{}
