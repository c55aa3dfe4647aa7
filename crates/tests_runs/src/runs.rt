//! Small runs, with the histories, ends and outputs that the rules of the language give.

ghost use Rattle.std.specs.Prelude.{◌≤◌, ◌*◌, IfOk, IsTrue};
ghost use Rattle.upc_values.specs.Consistent.{FollowsBuffers};
ghost use Rattle.race_report.specs.Serial.{IsRun};

use crate::front::program_of;
use program_runs::run_program_by;
use std::alloc::Global;
use std::sync::Wait;
use std::test::Fail;
use upc_task::Limits;
use upc_text::Stop;
use upc_values::{Action, End, Journal};

/// Whether these are the entries, each by its thread and its number there.
pub fn has_history(journal: &Journal, entries: &[(u32, u32)]) -> bool {
    let history = &journal.history;
    if history.len() != entries.len() {
        return false;
    }
    for (entry, (thread, index)) in history.iter().zip(entries) {
        if entry.thread != *thread || entry.index != *index {
            return false;
        }
    }
    true
}

fn name_of(end: &End) -> &'static str {
    match end {
        End::Ended(_) => "ended",
        End::Fault(_, _) => "fault",
        End::Budget => "budget",
        End::ActionsFull => "full",
        End::Exit(_) => "exit",
        End::Halted => "halted",
        End::Deadlocked(_) => "deadlocked",
    }
}

// Whether the threads end so, with so many items and ticks.
fn has_strands(journal: &Journal, strands: &[(&str, usize, u64)]) -> bool {
    let all = journal.strands.as_slice();
    if all.len() != strands.len() {
        return false;
    }
    for (strand, (name, items, ticks)) in all.iter().zip(strands) {
        let is_so = strand.items.len() == *items && strand.ticks == *ticks;
        if name_of(&strand.end) != *name || !is_so {
            return false;
        }
    }
    true
}

/// Whether the print entries write these lines, in order.
pub fn has_printed(journal: &Journal, lines: &[&[u8]]) -> bool {
    let mut at = 0usize;
    for entry in journal.history.iter() {
        if let Action::Print(text) = &entry.action {
            if at >= lines.len() || text.as_slice() != lines[at] {
                return false;
            }
            at += 1;
        }
    }
    at == lines.len()
}

// A run of a source by picks, and what is seen of it. An empty list is not looked at.
struct Run {
    source: &'static [u8],
    limits: Limits,
    picks: &'static [u32],
    history: &'static [(u32, u32)],
    strands: &'static [(&'static str, usize, u64)],
    printed: &'static [&'static [u8]],
}

// Each thread writes a variable of its own and then reads the other's.
const STORE_BUFFER: &[u8] = b"shared int x; shared int y; int main(){\
while ((1 - MYTHREAD) * (1 - x)) {x = 1; printf(\"%d\\n\", y);} \
while (MYTHREAD * (1 - y)) {y = 1; printf(\"%d\\n\", x);} return 0;}";

const ENDLESS: &[u8] = b"int main(){while (1) {} return 0;}";

const RUNS: [Run; 12] = [
    // A relaxed read of a pending location gives the pending value and is no entry; another read passes the pending
    // writes.
    Run {
        source: b"shared int x; shared int y; int main(){x = 1; x = y + x; return 0;}",
        limits: Limits {
            threads: 1,
            budget: 1000,
            actions: 8,
        },
        picks: &[],
        history: &[(0, 0), (0, 1), (0, 3), (0, 5), (0, 6), (0, 7)],
        strands: &[("ended", 8, 0)],
        printed: &[],
    },
    // A relaxed write takes the place of the pending write of its location.
    Run {
        source: b"shared int x; shared int y; int main(void){x = 1; y = 1; x = 2; upc_fence; return 0;}",
        limits: Limits {
            threads: 1,
            budget: 1000,
            actions: 100,
        },
        picks: &[],
        history: &[(0, 0), (0, 1), (0, 4), (0, 3), (0, 5), (0, 6), (0, 7)],
        strands: &[("ended", 8, 0)],
        printed: &[],
    },
    // A read has the value that was pending then, though a later write takes its place.
    Run {
        source: b"shared int x; int main(void){int r; x = 1; r = x; x = 2; \
printf(\"%d\\n\", r); printf(\"%d\\n\", x); return 0;}",
        limits: Limits {
            threads: 1,
            budget: 1000,
            actions: 100,
        },
        picks: &[],
        history: &[(0, 0), (0, 1), (0, 5), (0, 7), (0, 4), (0, 8), (0, 9)],
        strands: &[],
        printed: &[b"1\n", b"2\n"],
    },
    // However many writes of one location are pending, they take one place.
    Run {
        source: b"shared int x; int main(void){int i; for (i = 0; i < 70; i++) x = i; upc_fence; return 0;}",
        limits: Limits {
            threads: 1,
            budget: 1000,
            actions: 100,
        },
        picks: &[],
        history: &[(0, 0), (0, 1), (0, 71), (0, 72), (0, 73), (0, 74)],
        strands: &[],
        printed: &[],
    },
    // The 65th pending write makes the oldest leave; a read of another location passes the others, and a fence empties
    // the buffer.
    Run {
        source: b"shared int x[65]; shared int y; int main(void){int i; int r; \
for (i = 0; i < 65; i++) x[i] = i; r = y; upc_fence; return 0;}",
        limits: Limits {
            threads: 1,
            budget: 1000,
            actions: 100,
        },
        picks: &[],
        history: &[
            (0, 0),
            (0, 1),
            (0, 2),
            (0, 67),
            (0, 3),
            (0, 4),
            (0, 5),
            (0, 6),
            (0, 7),
            (0, 8),
            (0, 9),
            (0, 10),
            (0, 11),
            (0, 12),
            (0, 13),
            (0, 14),
            (0, 15),
            (0, 16),
            (0, 17),
            (0, 18),
            (0, 19),
            (0, 20),
            (0, 21),
            (0, 22),
            (0, 23),
            (0, 24),
            (0, 25),
            (0, 26),
            (0, 27),
            (0, 28),
            (0, 29),
            (0, 30),
            (0, 31),
            (0, 32),
            (0, 33),
            (0, 34),
            (0, 35),
            (0, 36),
            (0, 37),
            (0, 38),
            (0, 39),
            (0, 40),
            (0, 41),
            (0, 42),
            (0, 43),
            (0, 44),
            (0, 45),
            (0, 46),
            (0, 47),
            (0, 48),
            (0, 49),
            (0, 50),
            (0, 51),
            (0, 52),
            (0, 53),
            (0, 54),
            (0, 55),
            (0, 56),
            (0, 57),
            (0, 58),
            (0, 59),
            (0, 60),
            (0, 61),
            (0, 62),
            (0, 63),
            (0, 64),
            (0, 65),
            (0, 66),
            (0, 68),
            (0, 69),
            (0, 70),
        ],
        strands: &[],
        printed: &[],
    },
    // The second barrier of thread 1 is met by the barrier after main of thread 0, its third by none.
    Run {
        source: b"int main(){while (MYTHREAD) {upc_barrier;} return 0;}",
        limits: Limits {
            threads: 2,
            budget: 1000,
            actions: 100,
        },
        picks: &[],
        history: &[],
        strands: &[("ended", 5, 1), ("deadlocked", 7, 2)],
        printed: &[],
    },
    Run {
        source: ENDLESS,
        limits: Limits {
            threads: 1,
            budget: 1024,
            actions: 100,
        },
        picks: &[],
        history: &[],
        strands: &[("budget", 3, 1024)],
        printed: &[],
    },
    // Three threads by picks: when the first has spent its budget, each other rests at its next Beat.
    Run {
        source: ENDLESS,
        limits: Limits {
            threads: 3,
            budget: 2000,
            actions: 100,
        },
        picks: &[2, 1, 0, 0, 0, 0],
        history: &[],
        strands: &[
            ("budget", 3, 2000),
            ("halted", 3, 1024),
            ("halted", 3, 1024),
        ],
        printed: &[],
    },
    // The second stands at its Beat when the first has spent its budget, and does not go on, whatever is picked then.
    Run {
        source: ENDLESS,
        limits: Limits {
            threads: 2,
            budget: 2000,
            actions: 100,
        },
        picks: &[0, 1, 0, 1, 1, 0, 0, 1, 1],
        history: &[],
        strands: &[("budget", 3, 2000), ("halted", 3, 1024)],
        printed: &[],
    },
    // A thread that wants one action more than it may have.
    Run {
        source: b"strict shared int x; int main(){while (1) {x = 1;} return 0;}",
        limits: Limits {
            threads: 1,
            budget: 1000,
            actions: 5,
        },
        picks: &[],
        history: &[(0, 0), (0, 1), (0, 2), (0, 3), (0, 4)],
        strands: &[("full", 5, 4)],
        printed: &[],
    },
    // Turn by turn both threads read 0, as relaxed accesses may (UPC Appendix B).
    Run {
        source: STORE_BUFFER,
        limits: Limits {
            threads: 2,
            budget: 1000,
            actions: 100,
        },
        picks: &[0, 1, 0, 1, 0, 1, 0, 1, 0, 1, 0, 1, 0, 1, 0, 1],
        history: &[],
        strands: &[],
        printed: &[b"0\n", b"0\n"],
    },
    // One after the other the second reads 1.
    Run {
        source: STORE_BUFFER,
        limits: Limits {
            threads: 2,
            budget: 1000,
            actions: 100,
        },
        picks: &[],
        history: &[],
        strands: &[],
        printed: &[b"0\n", b"1\n"],
    },
];

/// Whether the limits are such as a run may have.
pub fn may_be(limits: Limits) -> bool
    ensures threads { IsTrue result → (1 ≤ limits.threads) × (limits.threads ≤ 32) }
    ensures budget { IsTrue result → (1 ≤ limits.budget) × (limits.budget ≤ 1000000000000) }
    ensures actions { IsTrue result → (1 ≤ limits.actions)
        × (limits.threads * limits.actions ≤ 8388608) }
{
    let Some(total) = u64::from(limits.threads).checked_mul(limits.actions) else {
        return false;
    };
    1 <= limits.threads
        && limits.threads <= 32
        && 1 <= limits.budget
        && limits.budget <= 1_000_000_000_000
        && 1 <= limits.actions
        && total <= 8_388_608
}

/// The run of a source by picks. Limits that no run may have count as want of memory.
pub fn run_of<R: Wait>(
    rt: &R,
    alloc: Global,
    source: &[u8],
    limits: Limits,
    picks: &[u32],
) -> Result<Journal, Stop>
    ensures follows { IfOk result FollowsBuffers }
    ensures run { IfOk result IsRun }
{
    if !may_be(limits) {
        return Err(Stop::Memory);
    }
    let program = program_of(alloc, limits.threads, source)?;
    if program.threads() != limits.threads {
        return Err(Stop::Memory);
    }
    let journal = run_program_by(rt, alloc, &program, limits, picks)?;
    Ok(journal)
}

// Whether a run is seen as its row says.
fn is_seen<R: Wait>(rt: &R, alloc: Global, run: &Run) -> Result<bool, Stop> {
    let journal = run_of(rt, alloc, run.source, run.limits, run.picks)?;
    Ok(
        (run.history.is_empty() || has_history(&journal, run.history))
            && (run.strands.is_empty() || has_strands(&journal, run.strands))
            && (run.printed.is_empty() || has_printed(&journal, run.printed)),
    )
}

#[test]
fn runs(rt: HostRuntime) -> Result<(), Fail> {
    for (number, run) in RUNS.iter().enumerate() {
        assert!(rt; is_seen(&rt, rt.alloc(), run)?, "{number}");
    }
    Ok(())
}
