//! A walk over the history of a run, which finds its races.

ghost use Rattle.std.specs.Prelude.{◌≡◌, ℕ, [], ◌∷◌, ◌++◌, List, IfOk, OnOk};
ghost use Rattle.upc_values.specs.declared.journal.Entry.{Entry};
ghost use Rattle.upc_values.specs.declared.journal.Journal.{Journal};
ghost use Rattle.upc_values.specs.Consistent.{FollowsBuffers};
ghost use Rattle.order_builder.specs.layer.Commits.{AreCommits};
ghost use Rattle.race_report.specs.Serial.{IsRun};
ghost use Rattle.race_report_tables.specs.layer.Tables.{AreClocks, IsReady};
ghost use Rattle.race_report_places.specs.layer.Sights.{sights};
ghost use Rattle.race_report_places.specs.Report.{IsReport};
ghost use Rattle.race_report_cells.specs.layer.Cells.{IsKept, IsWalked};
ghost use Rattle.race_report_walk.specs.code.Walk.{location_of, sights_before, IsEntry};

use order_builder::{Commits, Named, all_commits};
use race_report_cells::Cells;
use race_report_places::Report;
use race_report_tables::Tables;
use std::alloc::Global;
use upc_text::OutOfMemory;
use upc_values::{Action, Entry, Journal, Loc};

// The location that an action reads or writes, if it does.
fn location(action: &Action) -> Option<Loc>
    ensures { result ≡ location_of action.now }
{
    match action {
        Action::Read { loc, .. } | Action::Write { loc, .. } => Some(*loc),
        _ => None,
    }
}

// One more entry, in whose place the operations with these names stand.
fn step(
    alloc: Global,
    tables: &mut Tables,
    cells: &mut Cells,
    entry: &Entry,
    names: &[Named],
) -> Result<(), OutOfMemory>
    requires ready { IsReady entry.now.thread tables.old }
    requires kept { IsKept cells.old }
    ensures clocks { OnOk result ((n : ℕ) (before : List Entry) →
        AreClocks n before tables.old → AreClocks n (before ++ entry.now ∷ []) tables.new) }
    ensures cells { OnOk result ((j : Journal) (before : List Entry) → IsEntry j entry.now names.now
        → AreClocks j.threads before tables.old → IsWalked cells.old (sights_before j before)
        → IsWalked cells.new (sights_before j (before ++ entry.now ∷ []))) }
{
    tables.step(alloc, entry)?;
    match location(&entry.action) {
        Some(loc) => {
            cells.look_all(alloc, loc, names, tables.of(entry.thread))?;
            Ok(())
        }
        None => Ok(()),
    }
}

// What is kept of all locations after the whole history, with these commits of each thread.
fn walk(alloc: Global, journal: &Journal, commits: &[Commits]) -> Result<Cells, OutOfMemory>
    requires follows { FollowsBuffers journal.now }
    requires commits { AreCommits journal.now commits.now }
    ensures { IfOk result (λ cells. IsWalked cells (sights journal.now)) }
{
    let mut tables = Tables::new(alloc, journal.threads)?;
    let mut cells = Cells::new(alloc);
    let mut cursors: Vec<usize> = vec![in alloc; 0; commits.len()]?;
    for entry in journal.history.iter() {
        let thread = entry.thread as usize;
        let cursor = cursors[thread];
        let names = commits[thread].at(cursor);
        step(alloc, &mut tables, &mut cells, entry, names)?;
        cursors[thread] = cursor + 1;
    }
    Ok(cells)
}

/// The races of a run: one for each location that has one, by object, thread and offset. The second operation of each
/// is the first there, in the order of the history, that races with one before it; the first is, of the lowest thread
/// that has such a one, the last in program order.
pub fn races(alloc: Global, journal: &Journal) -> Result<Report, OutOfMemory>
    requires { IsRun journal.now }
    ensures { IfOk result (λ report. IsReport journal.now report.races) }
{
    let commits = all_commits(alloc, journal)?;
    let cells = walk(alloc, journal, commits.as_slice())?;
    Ok(Report {
        races: cells.races(alloc)?,
    })
}
