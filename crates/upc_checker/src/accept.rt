//! From a syntax tree to its program.

ghost use Rattle.std.specs.Prelude.{◌≡◌, ◌<◌, ◌≤◌, IfOk};
ghost use Rattle.upc_lexer.specs.Numbers.{NumbersFit};
ghost use Rattle.upc_tree.specs.Unit.{tokens_of};
ghost use Rattle.upc_tree.specs.layer.ViewStatement.{view_unit};
ghost use Rattle.typed_tree.specs.ViewProgram.{view_program};
ghost use Rattle.upc_checker.specs.code.Accepted.{IsAccepted};
ghost use Rattle.upc_checker.specs.Outcomes.{Answers, Decides, outcome};
ghost use Rattle.upc_checker.specs.code.ViewUnits.{view_checked};

use crate::whole::{Checked, check_source};
use std::alloc::Global;
use typed_tree::Program;
use typed_tree_opening::begin;
use upc_lexer::Names;
use upc_text::{OutOfMemory, Stop};
use upc_tree::Unit;

// The program of a source that is accepted.
fn program_of(alloc: Global, source: Checked) -> Result<Program, OutOfMemory>
    requires least { 0 < source.threads }
    requires most { source.threads ≤ 32 }
    requires accepted { IsAccepted (view_checked source) }
    ensures { IfOk result (λ p. view_program p ≡ view_checked source) }
{
    let beginning = begin(
        alloc,
        source.threads,
        source.structs,
        source.objects.as_slice(),
        source.functions.as_slice(),
    )?;
    Ok(Program::make(source.threads, source.objects, source.functions, beginning))
}

/// The program of a source for so many threads: what it declares and defines, where every node meets the typing rules
/// and no limit is passed. Refusals: `Typing(n)`, the first node in the order in which nodes are finished (children
/// before their parent, from left to right) that breaks a rule, with the lowest such number; where there is none,
/// `Limit(4)`, `Limit(5)` or `Limit(7)`, the first in this order, at the first declaration that passes it. The names
/// are those of the source by number, and each of its numbers is in the range of its kind.
pub fn check(alloc: Global, unit: &Unit, names: &Names, threads: u32) -> Result<Program, Stop>
    requires least { 1 ≤ threads }
    requires most { threads ≤ 32 }
    requires numbers { NumbersFit (tokens_of (view_unit unit.now)) }
    ensures { Answers view_program (outcome names.now threads (view_unit unit.now)) result }
{
    let source = check_source(alloc, unit, names, threads)?;
    Ok(program_of(alloc, source)?)
}

/// Whether a source is accepted for so many threads: the answer of `check`, without a program. What its objects begin
/// with is not made.
pub fn accepts(alloc: Global, unit: &Unit, names: &Names, threads: u32) -> Result<(), Stop>
    requires least { 1 ≤ threads }
    ensures { Decides (outcome names.now threads (view_unit unit.now)) result }
{
    check_source(alloc, unit, names, threads)?;
    Ok(())
}
