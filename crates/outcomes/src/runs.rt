//! The runs of a program by each of these lists of picks.

ghost use Rattle.std.specs.Prelude.{◌≡◌, ◌≤◌, ◌<◌, ◌*◌, ◌^◌, IfOk, map, length};
ghost use Rattle.upc_values.specs.declared.journal.Journal.{Journal};
ghost use Rattle.typed_tree.specs.ViewProgram.{view_program};
ghost use Rattle.outcomes.specs.Tally.{listed, shown_by};
ghost use Rattle.outcomes.specs.Found.{IsFound};

use crate::row::Row;
use crate::tally::add;
use program_runs::run_program_by;
use std::alloc::{AllocError as OutOfMemory, Global};
use std::sync::Wait;
use typed_tree::Program;
use upc_task::Limits;
use upc_top_output::status::status_of;
use upc_top_output::text::{output_text, run_text};
use upc_values::Journal;

// The row of one run.
fn row_of(alloc: Global, picks: &[u32], journal: &Journal) -> Result<Row, OutOfMemory>
    requires { length journal.now.strands < 2 ^ 32 }
    ensures { IfOk result (λ row. listed row
        ≡ record { count = 1; picks = picks.now; shown = shown_by journal.now }) }
{
    Ok(Row {
        count: 1,
        picks: Vec::from_slice(alloc, picks)?,
        status: status_of(journal.strands.as_slice()),
        text: output_text(alloc, &journal.history)?,
        line: run_text(alloc, journal.strands.as_slice())?,
    })
}

/// Runs a program by each of these lists of picks, and says what the runs show.
pub fn explore<R: Wait>(
    rt: &R,
    alloc: Global,
    program: &Program,
    limits: Limits,
    schedules: &[Vec<u32>],
) -> Result<Vec<Row>, OutOfMemory>
    requires threads { program.now.threads ≡ limits.threads }
    requires budget { (1 ≤ limits.budget) × (limits.budget ≤ 1000000000000) }
    requires actions { (1 ≤ limits.actions) × (limits.threads * limits.actions ≤ 8388608) }
    requires few { length schedules.now < 2 ^ 32 }
    ensures { IfOk result (λ rows. IsFound (view_program program.now) limits
        (map (λ v. v.items) schedules.now) (map listed rows.items)) }
{
    let mut rows = Vec::new(alloc);
    for picks in schedules {
        let journal = run_program_by(rt, alloc, program, limits, picks.as_slice())?;
        let row = row_of(alloc, picks.as_slice(), &journal)?;
        add(&mut rows, row)?;
    }
    Ok(rows)
}
