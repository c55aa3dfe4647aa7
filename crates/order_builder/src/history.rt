//! The operations of a journal in the order of its history.

ghost use Rattle.std.specs.Prelude.{◌≡◌, map, IfOk};
ghost use Rattle.upc_values.specs.Orders as said;
ghost use Rattle.upc_values.specs.Consistent.{FollowsBuffers};
ghost use Rattle.order_builder.specs.layer.Commits.{named, AreCommits};

use crate::commits::Commits;
use crate::names::Names;
use crate::records::all_commits;
use std::alloc::Global;
use upc_text::OutOfMemory;
use upc_values::Journal;

// Each entry of the history takes the place of the next commit of its thread.
fn place_all(alloc: Global, journal: &Journal, commits: &[Commits]) -> Result<Names, OutOfMemory>
    requires follows { FollowsBuffers journal.now }
    requires commits { AreCommits journal.now commits.now }
    ensures { IfOk result (λ names. names ≡ map named (said.global_order journal.now)) }
{
    let mut names = Names::new(alloc);
    let mut cursors: Vec<usize> = vec![in alloc; 0; commits.len()]?;
    for entry in journal.history.iter() {
        let thread = entry.thread as usize;
        let cursor = cursors[thread];
        names.extend(commits[thread].at(cursor))?;
        cursors[thread] = cursor + 1;
    }
    Ok(names)
}

/// The operations of a journal, in the order of the history.
pub fn global_names(alloc: Global, journal: &Journal) -> Result<Names, OutOfMemory>
    requires { FollowsBuffers journal.now }
    ensures { IfOk result (λ names. names ≡ map named (said.global_order journal.now)) }
{
    let commits = all_commits(alloc, journal)?;
    place_all(alloc, journal, commits.as_slice())
}
