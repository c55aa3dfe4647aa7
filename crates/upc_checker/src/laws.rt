//! What an outcome means.

ghost use Rattle.std.specs.Prelude.{◌≡◌, ℕ, List, map};
ghost use Rattle.upc_text.specs.declared.place.Refusal.{Refusal};
ghost use Rattle.upc_lexer.specs.Names.{firsts};
ghost use Rattle.upc_lexer.specs.Numbers.{NumbersFit};
ghost use Rattle.upc_tree.specs.Unit.{External, tokens_of};
ghost use Rattle.upc_checker.specs.code.Causes.{IsWellTyped, HasCause};
ghost use Rattle.upc_checker.specs.Outcomes.{Accepted, Refused, outcome};
ghost use Rattle.typed_tree.specs.layer.ExpressionLaws.{OperandsFit, AssignedIsModifiable, ObjectIsLvalue};
ghost use Rattle.typed_tree.specs.layer.ExpressionLaws.{CallFits, MemberInRange, MemberBehindInRange};
ghost use Rattle.typed_tree.specs.layer.ExpressionLaws.{LayoutsStay, LiteralInRange};
ghost use Rattle.typed_tree.specs.layer.TypedNodes.{MeetsRules};
ghost use Rattle.typed_tree.specs.Programs.{Checked};
ghost use Rattle.upc_checker.specs.Units.{unit_nodes};
ghost use Rattle.affinity_checker.specs.layer.Breaches.{unit_breaches};
ghost use Rattle.upc_checker.specs.code.TreeNodes.{tree_nodes, node_of};
ghost use Rattle.upc_checker.specs.code.Jumps.{jump_breaches};
ghost use Rattle.upc_checker.specs.code.Mains.{HasOneMain};

/// A source that is accepted is well typed.
pub fn accepted_is_typed()
    ensures { (names : List (List ℕ)) (threads : ℕ) (unit : List External) (x : Checked) → outcome
        names threads unit ≡ Accepted x → IsWellTyped names threads unit x }
{}

/// A source that is refused breaks a rule or passes a limit.
pub fn refused_has_cause()
    ensures { (names : List (List ℕ)) (threads : ℕ) (unit : List External) (r : Refusal) → outcome
        names threads unit ≡ Refused r → HasCause names threads unit r }
{}

/// The nodes of a source that are judged are all nodes of its tree, each once, in the order in which they are finished.
pub fn every_node_is_judged()
    ensures { (names : List (List ℕ)) (threads : ℕ) (unit : List External) → map node_of (unit_nodes names
        threads unit) ≡ tree_nodes unit }
{}

/// The breaks, continues and returns of a source break rules 23 and 24 just where `affinity_checker` finds it.
pub fn jumps_break_the_same_rules()
    ensures { (names : List (List ℕ)) (threads : ℕ) (unit : List External) → jump_breaches (unit_nodes
        names threads unit) ≡ unit_breaches unit }
{}

/// What a source declares and defines that is accepted, and whose numbers are in range, meets the typing rules: every
/// node of its typed tree breaks none, and every expression has the attribute of its node.
pub fn accepted_meets_rules()
    ensures { (names : List (List ℕ)) (threads : ℕ) (unit : List External) (x : Checked)
        → NumbersFit (tokens_of unit) → outcome names threads unit ≡ Accepted x → MeetsRules x }
{}

/// A source that is accepted, whose numbers are in range and whose names are those of a text, each once, has exactly
/// one function named main.
pub fn accepted_has_one_main()
    ensures { (all : List (List ℕ)) (threads : ℕ) (unit : List External) (x : Checked) → NumbersFit (tokens_of unit)
        → outcome (firsts all) threads unit ≡ Accepted x → HasOneMain x.functions }
{}

/// What the typing of a node gives to who has the typed tree alone: the kinds of operands, the form of what is
/// assigned and of objects, the function that is called, the number of a member, and the range of a literal; and that
/// the structs that are complete where it stands have the same layouts at the end.
pub fn nodes_give()
    ensures operands { OperandsFit }
    ensures assigned { AssignedIsModifiable }
    ensures objects { ObjectIsLvalue }
    ensures calls { CallFits }
    ensures members { MemberInRange }
    ensures members_behind { MemberBehindInRange }
    ensures literals { LiteralInRange }
    ensures layouts { LayoutsStay }
{}
