//! What holds of the code of every program.

ghost use Rattle.typed_tree.specs.Programs.{Checked};
ghost use Rattle.upc_values.specs.Lists.{Each};
ghost use Rattle.stack_code.specs.layer.Depths.{BeginsOnce, IsDeep};
ghost use Rattle.gen_stmt.specs.layer.Programs.{program_code};
ghost use Rattle.gen_stmt.specs.layer.Enters.{EntersFew};
ghost use Rattle.gen_stmt.specs.code.Pushes.{PushesOnly};
ghost use Rattle.gen_stmt.specs.layer.Meanings.{MeansProgram};

/// The code of a program means what the program means: each of its threads has the same outcome, whatever it is
/// answered.
pub fn programs_are_meant()
    ensures { (program : Checked) → MeansProgram (program_code program) program }
{}

/// The depths of the operands agree in each of its functions.
pub fn depths_agree()
    ensures { (program : Checked) → Each IsDeep (program_code program).functions }
{}

/// Only its entry begins a function without a tick.
pub fn entries_begin_once()
    ensures { (program : Checked) → BeginsOnce (program_code program).functions }
{}

/// It pushes integers, places of objects of the file, and 0 or null.
pub fn pushes_are_known()
    ensures { (program : Checked) → PushesOnly program }
{}

/// None of its blocks begins after more objects in scope than the program declares in all.
pub fn blocks_begin_after_few()
    ensures { (program : Checked) → EntersFew program }
{}
