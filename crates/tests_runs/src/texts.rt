//! The text of a run of a program.

ghost use Rattle.std.specs.Prelude.{IsTrue};
ghost use Rattle.run_recorder_text.specs.Short.{HasText};

use crate::runs::run_of;
use order_builder::orders;
use run_recorder_text::{is_short, render};
use std::alloc::Global;
use std::sync::Wait;
use std::test::Fail;
use upc_task::Limits;
use upc_values::{Journal, Orders, agrees};

// The text of `int main(){return 0;}`, run by one thread.
const TEXT: &str = "upc-record 2\n\
threads 1 budget 100000000 actions 4194304\n\
rule places 64 combine\n\
thread 0 items 4 ticks 0 ended 0\n\
notify start -> done\n\
wait start -> done\n\
notify finish -> done\n\
wait finish -> done\n\
history 4\n0.0\n0.1\n0.2\n0.3\n\
strict 4\n0.0.w\n0.1.r\n0.2.w\n0.3.r\n\
order 0 4\n0.0.w\n0.1.r\n0.2.w\n0.3.r\n\
end\n";

/// Whether a run with these orders has a text.
fn has_text(journal: &Journal, orders: &Orders) -> bool
    ensures { IsTrue result → HasText journal.now orders.now }
{
    journal.strands.len() == journal.threads as usize
        && orders.threads.len() == journal.threads as usize
        && agrees(journal)
        && is_short(journal)
}

const LIMITS: Limits = Limits {
    threads: 1,
    budget: 100_000_000,
    actions: 4_194_304,
};

// The text of a run of a source, where it has one.
fn text_of<R: Wait>(
    rt: &R,
    alloc: Global,
    source: &[u8],
    limits: Limits,
) -> Result<Option<Vec<u8>>, Fail> {
    let journal = run_of(rt, alloc, source, limits, &[])?;
    let orders = orders(alloc, &journal)?;
    if has_text(&journal, &orders) {
        Ok(Some(render(alloc, &journal, &orders)?))
    } else {
        Ok(None)
    }
}

#[test]
fn a_run_is_written(rt: HostRuntime) -> Result<(), Fail> {
    let text = text_of(&rt, rt.alloc(), b"int main(){return 0;}", LIMITS)?;
    let bytes = text.expect(&rt, "a text");
    assert!(rt; bytes.as_slice() == TEXT.as_bytes());
    Ok(())
}
