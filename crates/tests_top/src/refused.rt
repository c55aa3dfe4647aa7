//! What is refused in the middle: reads, writes, and sources that are cut short.
use std::alloc::Global;
use std::sync::Wait;
use std::test::Fail;
use std::thread::Threads;
use upc_text::{MemFiles, MemSink, OpenGate};
use upc_top::upc_main;

// A sum of which each thread adds its part under a lock, and what it prints.
const SUM: &[u8] = b"#include <upc_relaxed.h>
#include <stdio.h>
#define N 400
shared int a[N];
shared int total;
int main(void) {
  int i; int part = 0;
  upc_lock_t *lk = upc_all_lock_alloc();
  upc_forall (i = 0; i < N; i++; &a[i]) a[i] = i;
  upc_barrier;
  for (i = MYTHREAD; i < N; i += THREADS) part += a[i];
  upc_lock(lk); total += part; upc_unlock(lk);
  upc_barrier;
  if (MYTHREAD == 0) printf(\"%d\\n\", total);
  return 0;
}
";

const PRINTED: &[u8] = b"79800\n";

// What a call comes to: its status, how many bytes the output took, whether they are the first of what is printed, and
// whether there is a journal.
#[derive(Clone, Copy)]
struct Found {
    status: u8,
    taken: usize,
    begins: bool,
    ran: bool,
}

// A call on four threads, over a source read 32 bytes at a time and an output that takes four at a time, of which the
// calls with these numbers fail.
fn call<R: Threads + Wait + Sync>(
    rt: &R,
    alloc: Global,
    mode: &str,
    source: &[u8],
    failing_reads: &[u64],
    failing_puts: &[u64],
) -> Result<Found, Fail> {
    let mut words = Vec::new(alloc);
    for word in &[mode, "-T", "4", "f.upc"] {
        words.push(String::from_str(alloc, word)?)?;
    }
    let mut files = MemFiles::make(alloc, failing_reads, 32)?;
    files.add("f.upc", source)?;
    let mut out = MemSink::make(alloc, failing_puts, 4)?;
    let mut err = MemSink::make(alloc, &[], 64)?;
    let done = upc_main(
        rt,
        alloc,
        words.as_slice(),
        &mut files,
        &mut out,
        &mut err,
        &OpenGate,
    );
    Ok(Found {
        status: done.status,
        taken: out.taken().len(),
        begins: PRINTED.starts_with(out.taken()),
        ran: done.journal.is_some(),
    })
}

#[test]
fn each_read_that_fails_is_a_read_fault(rt: HostRuntime) -> Result<(), Fail> {
    for number in 1..200u64 {
        let found = call(&rt, rt.alloc(), "run", SUM, &[number], &[])?;
        if found.status == 0 {
            assert!(rt; number > 13 && found.ran && found.begins && found.taken == PRINTED.len());
            return Ok(());
        }
        assert!(rt;
            found.status == 102 && !found.ran && found.taken == 0,
            "read {number}"
        );
    }
    assert!(rt; false, "each run met a failure");
    Ok(())
}

#[test]
fn each_write_that_fails_leaves_the_journal(rt: HostRuntime) -> Result<(), Fail> {
    for number in 1..20usize {
        let found = call(&rt, rt.alloc(), "run", SUM, &[], &[number as u64])?;
        assert!(rt; found.ran && found.begins);
        if found.status == 0 {
            assert!(rt; number > 2 && found.taken == PRINTED.len());
            return Ok(());
        }
        assert!(rt;
            found.status == 103 && found.taken <= 4 * (number - 1),
            "write {number}"
        );
    }
    assert!(rt; false, "each run met a failure");
    Ok(())
}

#[test]
fn each_front_of_a_source_is_accepted_or_refused(rt: HostRuntime) -> Result<(), Fail> {
    for length in 0..SUM.len() {
        let found = call(&rt, rt.alloc(), "check", &SUM[..length], &[], &[])?;
        assert!(rt;
            (found.status == 0 || found.status == 101) && !found.ran,
            "{length} bytes"
        );
    }
    Ok(())
}
