//! Strands of runs: what a thread did there is what it does by its source on the replies that it got.

ghost use Rattle.std.specs.Prelude.{◌<◌};

use crate::front::program_of;
use crate::sources::SOURCES;
use program_runs::run_program_by;
use std::alloc::Global;
use std::test::Fail;
use upc_checker::Program;
use upc_meaning::{Told, replay};
use upc_task::Limits;
use upc_text::OutOfMemory;
use upc_values::{Action, End, Item, Reply, Strand, ToldEnd, same_action};

const BUDGET: u64 = 10_000;

// The replies to the actions of a strand.
fn replies_of(alloc: Global, strand: &Strand) -> Result<Vec<Reply>, OutOfMemory> {
    let mut replies = Vec::new(alloc);
    for item in strand.items.iter() {
        if let Item::Did(_, reply) = item {
            replies.push(*reply)?;
        }
    }
    Ok(replies)
}

// Whether these are the actions of a strand.
fn are_actions_of(strand: &Strand, actions: &[Action]) -> bool {
    let mut left = actions;
    for item in strand.items.iter() {
        if let Item::Did(action, _) = item {
            let Some((first, more)) = left.split_first() else {
                return false;
            };
            if !same_action(action, first) {
                return false;
            }
            left = more;
        }
    }
    left.is_empty()
}

// Whether a strand may end so where its source has this outcome.
fn is_end_of(told: &ToldEnd, end: &End) -> bool {
    match (told, end) {
        (ToldEnd::Ended(a), End::Ended(b)) => a == b,
        (ToldEnd::Exit(a), End::Exit(b)) => a == b,
        (ToldEnd::Fault(a, at), End::Fault(b, there)) => a == b && at == there,
        (ToldEnd::OutOfTicks, End::Budget) => true,
        (ToldEnd::Wants(_), End::ActionsFull) => true,
        (ToldEnd::Wants(a), End::Deadlocked(b)) => same_action(a, b),
        (_, End::Halted) => true,
        _ => false,
    }
}

// A strand, evaluated again on its replies.
fn told_of(
    alloc: Global,
    program: &Program,
    thread: u32,
    strand: &Strand,
) -> Result<Told, OutOfMemory>
    requires { thread < program.now.threads }
{
    let replies = replies_of(alloc, strand)?;
    replay(alloc, program, thread, replies.as_slice(), BUDGET)
}

#[test]
fn strands_are_told_again(rt: HostRuntime) -> Result<(), Fail> {
    for (number, source) in SOURCES.iter().enumerate() {
        for count in source.threads {
            let program = program_of(rt.alloc(), *count, source.text)?.expect(&rt, "a program");
            let threads = program.threads();
            assert!(rt; threads <= 32);
            let limits = Limits {
                threads,
                budget: BUDGET,
                actions: 1_000,
            };
            let journal = run_program_by(&rt, rt.alloc(), &program, limits, &[0, 1, 1, 0])?;
            for thread in 0..threads {
                let strand = journal
                    .strands
                    .as_slice()
                    .get(thread as usize)
                    .expect(&rt, "a strand");
                let told = told_of(rt.alloc(), &program, thread, strand)?;
                assert!(rt; are_actions_of(strand, told.actions.as_slice()), "{number}");
                assert!(rt; is_end_of(&told.end, &strand.end), "{number}");
            }
        }
    }
    Ok(())
}
