//! What holds of the code of every program that meets the typing rules.

ghost use Rattle.typed_tree.specs.Programs.{Checked};
ghost use Rattle.typed_tree.specs.ViewProgram.{view_program};
ghost use Rattle.gen_stmt_laws.specs.code.Fitting.{HasFormedTypes, IsRanged, PassesTests};
ghost use Rattle.gen_stmt_laws.specs.code.Accepted.{IsOfSource};

use typed_tree::Program;

/// The tests by which the compiler makes the code of a program hold, where the program meets the typing rules and its
/// types are formed as declarations form them: its code is all that code keeps, what each instruction names being in
/// range, each block begins after few objects in scope, ways out and shapes are no more than the program has room for,
/// and what calls allocate has a layout.
pub fn tests_hold()
    ensures { (program : Checked) → IsRanged program → HasFormedTypes program → PassesTests program }
{}

/// Every program that the compiler is given is one of which this law speaks, but for its types: it meets the typing
/// rules, begins with an opening, and its structs and constants are in range.
pub fn programs_are_ranged(program: &Program)
    ensures { ∥ IsRanged (view_program program.now) ∥₁ }
{
    let _threads = program.threads();
}

/// The types in the program of each source that is accepted are formed, and none is a pointer to an array.
pub fn accepted_have_formed_types()
    ensures { (program : Checked) → IsOfSource program → HasFormedTypes program }
{}

/// So the tests hold of each program that the compiler is given, where it is that of a source that is accepted.
pub fn accepted_pass_tests(program: &Program)
    ensures { IsOfSource (view_program program.now) → ∥ PassesTests (view_program program.now) ∥₁ }
{
    programs_are_ranged(program);
}
