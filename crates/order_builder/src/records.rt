//! What the records of a journal emit.

ghost use Rattle.std.specs.Prelude.{◌≡◌, length, IfOk};
ghost use Rattle.upc_values.specs.Drain.{commits, drained};
ghost use Rattle.order_builder.specs.layer.Commits.{Holds, AreCommits};
ghost use Rattle.order_builder.specs.code.Views.{IsShown};

use crate::commits::Commits;
use crate::walk::Walk;
use std::alloc::Global;
use upc_text::OutOfMemory;
use upc_values::{Items, Journal, Listing};

/// The walk over all of a thread's items.
pub fn drained<'a>(alloc: Global, thread: u32, items: &'a Items) -> Result<Walk<'a>, OutOfMemory>
    ensures { IfOk result (λ walk. IsShown (drained thread items.now) walk) }
{
    let mut walk = Walk::new(alloc);
    for item in items.iter() {
        walk.step(alloc, thread, item)?;
    }
    walk.empty()?;
    Ok(walk)
}

// The commits of a thread with this record.
fn commits_of(alloc: Global, thread: u32, items: &Items) -> Result<Commits, OutOfMemory>
    ensures { IfOk result (λ kept. Holds kept (commits thread items.now)) }
{
    let emitted = drained(alloc, thread, items)?.emitted;
    Ok(Commits {
        names: emitted.names,
        ends: Listing::from_vec(emitted.ends),
    })
}

/// The commits of each thread of the journal, by number.
pub fn all_commits(alloc: Global, journal: &Journal) -> Result<Vec<Commits>, OutOfMemory>
    requires { length journal.now.strands ≡ journal.now.threads }
    ensures { IfOk result (λ all. AreCommits journal.now all.items) }
{
    let strands = journal.strands.as_slice();
    let mut all = Vec::new(alloc);
    for thread in 0..journal.threads {
        all.push(commits_of(alloc, thread, &strands[thread as usize].items)?)?;
    }
    Ok(all)
}
