//! Runs on a memory in which each thread has its own copy.

use crate::front::program_of;
use crate::threads::SUM;
use program_runs_replicas::{run_program_replicas, run_program_replicas_by};
use replica_space::{Deed, ReplicaJournal};
use std::alloc::Global;
use std::sync::Wait;
use std::test::Fail;
use std::thread::Threads;
use upc_task::Limits;
use upc_text::{OpenGate, Stop};
use upc_values::{Action, End};

// Whether every thread has ended with 0.
fn has_ended(journal: &ReplicaJournal) -> bool {
    for strand in journal.strands.as_slice() {
        if !matches!(strand.end, End::Ended(0)) {
            return false;
        }
    }
    true
}

// Whether the events print this line, and nothing else.
fn prints(journal: &ReplicaJournal, line: &[u8]) -> bool {
    let mut lines = 0usize;
    for event in journal.events.iter() {
        if let Deed::Did {
            action: Action::Print(text),
            ..
        } = &event.deed
        {
            if text.as_slice() != line {
                return false;
            }
            lines = lines.saturating_add(1);
        }
    }
    lines == 1
}

// The run of a source on so many threads, 1 to 32, side by side.
fn run_on<R: Threads + Wait + Sync>(
    rt: &R,
    alloc: Global,
    source: &[u8],
    threads: u32,
) -> Result<ReplicaJournal, Stop> {
    let limits = Limits {
        threads,
        budget: 100_000_000,
        actions: 100_000,
    };
    let program = program_of(alloc, threads, source)?;
    if threads > 32 || program.threads() != threads {
        return Err(Stop::Memory);
    }
    let journal = run_program_replicas(rt, alloc, &program, limits, &OpenGate)?;
    Ok(journal)
}

// The run of a source on so many threads, 1 to 32, by picks.
fn run_by<R: Wait>(
    rt: &R,
    alloc: Global,
    source: &[u8],
    threads: u32,
    picks: &[u32],
) -> Result<ReplicaJournal, Stop> {
    let limits = Limits {
        threads,
        budget: 100_000_000,
        actions: 100_000,
    };
    let program = program_of(alloc, threads, source)?;
    if threads > 32 || program.threads() != threads {
        return Err(Stop::Memory);
    }
    let journal = run_program_replicas_by(rt, alloc, &program, limits, picks)?;
    Ok(journal)
}

#[test]
fn sums_are_the_same_on_copies(rt: HostRuntime) -> Result<(), Fail> {
    for _ in 0..20 {
        let journal = run_on(&rt, rt.alloc(), SUM, 4)?;
        assert!(rt; has_ended(&journal) && prints(&journal, b"79800\n"));
    }
    Ok(())
}

#[test]
fn an_empty_main_has_four_events(rt: HostRuntime) -> Result<(), Fail> {
    let journal = run_by(&rt, rt.alloc(), b"int main(){return 0;}", 1, &[])?;
    assert!(rt; has_ended(&journal) && journal.events.len() == 4);
    Ok(())
}

#[test]
fn sums_by_picks_are_the_same(rt: HostRuntime) -> Result<(), Fail> {
    let journal = run_by(&rt, rt.alloc(), SUM, 4, &[3, 1, 0, 2, 2, 1, 5, 0])?;
    assert!(rt; has_ended(&journal) && prints(&journal, b"79800\n"));
    Ok(())
}
