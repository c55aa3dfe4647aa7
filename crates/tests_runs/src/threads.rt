//! Runs whose threads go side by side: what they print in every interleaving.

use crate::front::program_of;
use crate::runs::has_printed;
use program_runs::run_program;
use std::alloc::Global;
use std::sync::Wait;
use std::sync::atomic::{AtomicU64, Ordering};
use std::test::Fail;
use std::thread::Threads;
use upc_task::Limits;
use upc_text::{Gate, OpenGate, Stop};
use upc_values::{End, Journal};

/// The sum of an array in parts, added up under a lock.
pub const SUM: &[u8] = b"#include <upc_relaxed.h>
#include <stdio.h>
#define N 400
shared int a[N];
shared int total;
int main(void) {
  int i; int part = 0;
  upc_lock_t *lk = upc_all_lock_alloc();
  upc_forall (i = 0; i < N; i++; &a[i]) a[i] = i;
  upc_barrier;
  for (i = MYTHREAD; i < N; i += THREADS) part += a[i];
  upc_lock(lk); total += part; upc_unlock(lk);
  upc_barrier;
  if (MYTHREAD == 0) printf(\"%d\\n\", total);
  return 0;
}
";

const FLAG: &[u8] =
    b"strict shared int f; int main(void){if(MYTHREAD==0){while(!f);}else f=1;return 0;}";

const STORES: &[u8] = b"strict shared int x, y; shared int seen[2];
int main(void) {
  if (MYTHREAD == 0) { x = 1; seen[0] = y; } else { y = 1; seen[1] = x; }
  upc_barrier;
  if (MYTHREAD == 0 && seen[0] + seen[1] > 0) printf(\"seen\\n\");
  return 0;
}
";

const MESSAGE: &[u8] = b"relaxed shared int data; strict shared int flag; shared int seen;
int main(void) {
  if (MYTHREAD == 0) { data = 42; flag = 1; } else if (flag) seen = data; else seen = 42;
  upc_barrier;
  if (MYTHREAD == 0 && seen == 42) printf(\"seen\\n\");
  return 0;
}
";

// The run of a source on so many threads, 1 to 32.
fn run_on<R: Threads + Wait + Sync, G: Gate>(
    rt: &R,
    alloc: Global,
    source: &[u8],
    threads: u32,
    gate: &G,
) -> Result<Journal, Stop> {
    let limits = Limits {
        threads,
        budget: 100_000_000,
        actions: 200_000,
    };
    let program = program_of(alloc, threads, source)?;
    if threads > 32 || program.threads() != threads {
        return Err(Stop::Memory);
    }
    let journal = run_program(rt, alloc, &program, limits, gate)?;
    Ok(journal)
}

// Whether every thread has ended with 0.
fn has_ended(journal: &Journal) -> bool {
    for strand in journal.strands.as_slice() {
        if !matches!(strand.end, End::Ended(0)) {
            return false;
        }
    }
    true
}

// Whether so many runs of a source all end with 0, and print this line.
fn always_prints<R: Threads + Wait + Sync>(
    rt: &R,
    alloc: Global,
    source: &[u8],
    threads: u32,
    line: &[u8],
    runs: u32,
) -> Result<bool, Stop> {
    for _ in 0..runs {
        let journal = run_on(rt, alloc, source, threads, &OpenGate)?;
        if !has_ended(&journal) || !has_printed(&journal, &[line]) {
            return Ok(false);
        }
    }
    Ok(true)
}

#[test]
fn sums_are_the_same_in_every_interleaving(rt: HostRuntime) -> Result<(), Fail> {
    assert!(rt; always_prints(&rt, rt.alloc(), SUM, 4, b"79800\n", 20)?);
    assert!(rt; always_prints(&rt, rt.alloc(), SUM, 32, b"79800\n", 5)?);
    Ok(())
}

#[test]
fn a_flag_ends_a_loop(rt: HostRuntime) -> Result<(), Fail> {
    for _ in 0..20 {
        let journal = run_on(&rt, rt.alloc(), FLAG, 2, &OpenGate)?;
        assert!(rt; has_ended(&journal));
    }
    Ok(())
}

#[test]
fn strict_accesses_are_seen_in_one_order(rt: HostRuntime) -> Result<(), Fail> {
    assert!(rt; always_prints(&rt, rt.alloc(), STORES, 2, b"seen\n", 100)?);
    assert!(rt; always_prints(&rt, rt.alloc(), MESSAGE, 2, b"seen\n", 100)?);
    Ok(())
}

// A gate at which two threads look for each other in the first round: how many have come, and how many have seen both.
#[derive(Drop)]
struct Meeting {
    come: AtomicU64,
    seen: AtomicU64,
}

impl Gate for Meeting {
    fn round_begins(&self, _thread: u32, round: u64) {
        if round != 1 {
            return;
        }
        self.come.fetch_add(1, Ordering::SeqCst);
        for _ in 0..100_000_000u32 {
            if self.come.load(Ordering::SeqCst) == 2 {
                self.seen.fetch_add(1, Ordering::SeqCst);
                return;
            }
        }
    }
}

#[test]
fn both_threads_are_in_a_round_at_the_same_time(rt: HostRuntime) -> Result<(), Fail> {
    let gate = Meeting {
        come: AtomicU64::new(0),
        seen: AtomicU64::new(0),
    };
    let journal = run_on(&rt, rt.alloc(), b"int main(void){return 0;}", 2, &gate)?;
    assert!(rt; has_ended(&journal));
    assert!(rt; gate.seen.load(Ordering::SeqCst) == 2);
    Ok(())
}
