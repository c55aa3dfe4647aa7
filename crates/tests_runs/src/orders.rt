//! Orders of small runs, as Appendix B of UPC 1.3 gives them.

use crate::front::program_of;
use crate::given::is_consistent;
use crate::runs::{has_history, run_of};
use order_builder::orders;
use std::alloc::Global;
use std::sync::Wait;
use std::test::Fail;
use upc_task::Limits;
use upc_values::Order;

/// The name of an operation: its thread, the number of its action there, and whether it is a write.
pub type Name = (u32, u32, bool);

/// Whether the order has just these operations.
pub fn has_names(order: &Order, names: &[Name]) -> bool {
    let operations = order.as_slice();
    if operations.len() != names.len() {
        return false;
    }
    for (operation, (thread, index, write)) in operations.iter().zip(names) {
        let is_of = operation.thread == *thread && operation.index == *index;
        if !is_of || operation.write != *write {
            return false;
        }
    }
    true
}

// Whether each thread's order has just these.
fn have_names(orders: &[Order], threads: &[&[Name]]) -> bool {
    if orders.len() != threads.len() {
        return false;
    }
    for (order, names) in orders.iter().zip(threads) {
        if !has_names(order, names) {
            return false;
        }
    }
    true
}

// A run of a source by picks, its history, its strict order, and the order of each thread.
struct Run {
    source: &'static [u8],
    limits: Limits,
    picks: &'static [u32],
    history: &'static [(u32, u32)],
    strict: &'static [Name],
    threads: &'static [&'static [Name]],
}

/// A read.
pub const R: bool = false;

/// A write.
pub const W: bool = true;

const RUNS: [Run; 7] = [
    // The two barriers of a thread that does nothing between them.
    Run {
        source: b"int main(void){return 0;}",
        limits: Limits {
            threads: 1,
            budget: 1000,
            actions: 100,
        },
        picks: &[],
        history: &[(0, 0), (0, 1), (0, 2), (0, 3)],
        strict: &[(0, 0, W), (0, 1, R), (0, 2, W), (0, 3, R)],
        threads: &[&[(0, 0, W), (0, 1, R), (0, 2, W), (0, 3, R)]],
    },
    // A forwarded read stands with the write that it reads, which stands with the write that took its place, after a
    // read that was issued before that write was done.
    Run {
        source: b"shared int x; shared int y; int main(){x = 1; x = y + x; return 0;}",
        limits: Limits {
            threads: 1,
            budget: 1000,
            actions: 100,
        },
        picks: &[],
        history: &[(0, 0), (0, 1), (0, 3), (0, 5), (0, 6), (0, 7)],
        strict: &[(0, 0, W), (0, 1, R), (0, 6, W), (0, 7, R)],
        threads: &[&[
            (0, 0, W),
            (0, 1, R),
            (0, 3, R),
            (0, 2, W),
            (0, 4, R),
            (0, 5, W),
            (0, 6, W),
            (0, 7, R),
        ]],
    },
    // A second write of x takes the place of the first, so both are done before the write of y between them.
    Run {
        source: b"shared int x; shared int y; int main(void){x = 1; y = 1; x = 2; upc_fence; return 0;}",
        limits: Limits {
            threads: 1,
            budget: 1000,
            actions: 100,
        },
        picks: &[],
        history: &[(0, 0), (0, 1), (0, 4), (0, 3), (0, 5), (0, 6), (0, 7)],
        strict: &[
            (0, 0, W),
            (0, 1, R),
            (0, 5, W),
            (0, 5, R),
            (0, 6, W),
            (0, 7, R),
        ],
        threads: &[&[
            (0, 0, W),
            (0, 1, R),
            (0, 2, W),
            (0, 4, W),
            (0, 3, W),
            (0, 5, W),
            (0, 5, R),
            (0, 6, W),
            (0, 7, R),
        ]],
    },
    // A read between two writes of its location, of which the second takes the place of the first, has the first's
    // value.
    Run {
        source: b"shared int x; int main(void){int r; x = 1; r = x; x = 2; return 0;}",
        limits: Limits {
            threads: 1,
            budget: 1000,
            actions: 100,
        },
        picks: &[],
        history: &[(0, 0), (0, 1), (0, 4), (0, 5), (0, 6)],
        strict: &[(0, 0, W), (0, 1, R), (0, 5, W), (0, 6, R)],
        threads: &[&[
            (0, 0, W),
            (0, 1, R),
            (0, 2, W),
            (0, 3, R),
            (0, 4, W),
            (0, 5, W),
            (0, 6, R),
        ]],
    },
    // A write that another took the place of is no entry, and stands before that one in the order of each thread.
    Run {
        source: b"shared int x; int main(void){int r; \
if (MYTHREAD == 0) {x = 1; x = 2;} upc_barrier; if (MYTHREAD == 1) r = x; return 0;}",
        limits: Limits {
            threads: 2,
            budget: 1000,
            actions: 100,
        },
        picks: &[],
        history: &[
            (0, 0),
            (1, 0),
            (1, 1),
            (1, 2),
            (0, 1),
            (0, 3),
            (0, 4),
            (0, 5),
            (0, 6),
            (1, 3),
            (1, 4),
            (1, 5),
            (1, 6),
            (0, 7),
        ],
        strict: &[
            (0, 0, W),
            (1, 0, W),
            (1, 1, R),
            (1, 2, W),
            (0, 1, R),
            (0, 4, W),
            (0, 5, R),
            (0, 6, W),
            (1, 3, R),
            (1, 5, W),
            (1, 6, R),
            (0, 7, R),
        ],
        threads: &[
            &[
                (0, 0, W),
                (1, 0, W),
                (1, 1, R),
                (1, 2, W),
                (0, 1, R),
                (0, 2, W),
                (0, 3, W),
                (0, 4, W),
                (0, 5, R),
                (0, 6, W),
                (1, 3, R),
                (1, 5, W),
                (1, 6, R),
                (0, 7, R),
            ],
            &[
                (0, 0, W),
                (1, 0, W),
                (1, 1, R),
                (1, 2, W),
                (0, 1, R),
                (0, 2, W),
                (0, 3, W),
                (0, 4, W),
                (0, 5, R),
                (0, 6, W),
                (1, 3, R),
                (1, 4, R),
                (1, 5, W),
                (1, 6, R),
                (0, 7, R),
            ],
        ],
    },
    // Both threads read 0 before either write is done; a relaxed read of the other thread is not in a thread's order.
    Run {
        source: b"shared int x; shared int y; int main(void){int r; \
if (MYTHREAD == 0) {x = 1; r = y;} else {y = 1; r = x;} return 0;}",
        limits: Limits {
            threads: 2,
            budget: 1000,
            actions: 100,
        },
        picks: &[0, 1, 0, 1, 0, 1, 0, 1, 0, 1, 0, 1],
        history: &[
            (0, 0),
            (1, 0),
            (0, 1),
            (1, 1),
            (0, 3),
            (1, 3),
            (0, 2),
            (0, 4),
            (1, 2),
            (1, 4),
            (0, 5),
            (1, 5),
        ],
        strict: &[
            (0, 0, W),
            (1, 0, W),
            (0, 1, R),
            (1, 1, R),
            (0, 4, W),
            (1, 4, W),
            (0, 5, R),
            (1, 5, R),
        ],
        threads: &[
            &[
                (0, 0, W),
                (1, 0, W),
                (0, 1, R),
                (1, 1, R),
                (0, 3, R),
                (0, 2, W),
                (0, 4, W),
                (1, 2, W),
                (1, 4, W),
                (0, 5, R),
                (1, 5, R),
            ],
            &[
                (0, 0, W),
                (1, 0, W),
                (0, 1, R),
                (1, 1, R),
                (1, 3, R),
                (0, 2, W),
                (0, 4, W),
                (1, 2, W),
                (1, 4, W),
                (0, 5, R),
                (1, 5, R),
            ],
        ],
    },
    // A thread reads its own pending write, and another's write is done before it.
    Run {
        source: b"shared int x; int main(void){int r; \
if (MYTHREAD == 0) {x = 1; r = x;} else x = 2; return 0;}",
        limits: Limits {
            threads: 2,
            budget: 1000,
            actions: 100,
        },
        picks: &[0, 1, 0, 1, 1, 1, 0, 0, 0, 0, 1],
        history: &[
            (0, 0),
            (1, 0),
            (0, 1),
            (1, 1),
            (1, 2),
            (1, 3),
            (0, 2),
            (0, 4),
            (0, 5),
            (1, 4),
        ],
        strict: &[
            (0, 0, W),
            (1, 0, W),
            (0, 1, R),
            (1, 1, R),
            (1, 3, W),
            (0, 4, W),
            (0, 5, R),
            (1, 4, R),
        ],
        threads: &[
            &[
                (0, 0, W),
                (1, 0, W),
                (0, 1, R),
                (1, 1, R),
                (1, 2, W),
                (1, 3, W),
                (0, 2, W),
                (0, 3, R),
                (0, 4, W),
                (0, 5, R),
                (1, 4, R),
            ],
            &[
                (0, 0, W),
                (1, 0, W),
                (0, 1, R),
                (1, 1, R),
                (1, 2, W),
                (1, 3, W),
                (0, 2, W),
                (0, 4, W),
                (0, 5, R),
                (1, 4, R),
            ],
        ],
    },
];

// Whether a run has the history and the orders of its row, and these are consistent.
fn is_ordered<R: Wait>(rt: &R, alloc: Global, run: &Run) -> Result<bool, Fail> {
    let journal = run_of(rt, alloc, run.source, run.limits, run.picks)?;
    let found = orders(alloc, &journal)?;
    let is_so = has_history(&journal, run.history)
        && has_names(&found.strict, run.strict)
        && have_names(found.threads.as_slice(), run.threads);
    Ok(is_so && is_consistent(alloc, &journal, &[], &found)?)
}

#[test]
fn orders_of_runs(rt: HostRuntime) -> Result<(), Fail> {
    for (number, run) in RUNS.iter().enumerate() {
        assert!(rt; is_ordered(&rt, rt.alloc(), run)?, "{number}");
    }
    Ok(())
}

// A source that two threads run by picks.
struct Case {
    source: &'static [u8],
    picks: &'static [u32],
}

const TWO: Limits = Limits {
    threads: 2,
    budget: 10_000,
    actions: 10_000,
};

const IN_TURN: &[u32] = &[
    0, 1, 0, 1, 0, 1, 0, 1, 0, 1, 0, 1, 0, 1, 0, 1, 0, 1, 0, 1, 0, 1, 0, 1, 0, 1, 0, 1, 0, 1, 0, 1,
];

const CASES: [Case; 10] = [
    // Message passing with a strict flag.
    Case {
        source: b"relaxed shared int data; strict shared int flag; int main(void){int r = 0; \
if (MYTHREAD == 0) {data = 42; flag = 1;} else {while (flag == 0) {} r = data;} return r;}",
        picks: &[1, 1, 1, 0, 1, 0, 1, 0, 1, 0, 0, 1],
    },
    // Message passing with fences, both accesses relaxed.
    Case {
        source: b"shared int data; shared int flag; int main(void){int r; int s = 0; \
if (MYTHREAD == 0) {data = 42; upc_fence; flag = 1;} else {r = flag; upc_fence; s = data;} return s;}",
        picks: IN_TURN,
    },
    // Store buffering where the writes are strict.
    Case {
        source: b"strict shared int x; strict shared int y; int main(void){int r; \
if (MYTHREAD == 0) {x = 1; r = y;} else {y = 1; r = x;} return r;}",
        picks: IN_TURN,
    },
    // Each thread reads before the other writes.
    Case {
        source: b"shared int x; shared int y; int main(void){int r; \
if (MYTHREAD == 0) {r = x; y = 1;} else {r = y; x = 1;} return r;}",
        picks: IN_TURN,
    },
    // Two writers of one location, which each reads its own pending write and then what the memory has.
    Case {
        source: b"shared int x; int main(void){int r; x = MYTHREAD + 1; r = x; x = 10 * r; r = x; \
upc_fence; return r + x;}",
        picks: IN_TURN,
    },
    // A write in memory is read by another thread while an older one of the same thread is pending elsewhere.
    Case {
        source: b"shared int x; strict shared int y; shared int z; int main(void){int r; \
if (MYTHREAD == 0) {x = 1; z = 2; r = x + z; y = 3; x = 4;} else {r = y; z = 5; r = x + z + y;} return r;}",
        picks: &[1, 0, 0, 1, 0, 1, 0, 1, 1, 0, 0, 1, 0, 1, 0, 1],
    },
    // Initial values are read, and then written over.
    Case {
        source: b"shared int x = 5; strict shared int y = 6; int main(void){int r; r = x + y; \
if (MYTHREAD == 0) {x = 7; y = 8;} r = x + y; return r;}",
        picks: IN_TURN,
    },
    // Writes between upc_notify and upc_wait.
    Case {
        source: b"shared int a[2]; int main(void){int r; a[MYTHREAD] = 1; upc_notify; a[1 - MYTHREAD] = 2; \
r = a[MYTHREAD]; upc_wait; r = a[0] + a[1]; upc_barrier; return r;}",
        picks: IN_TURN,
    },
    // More writes than may be pending, which the other thread reads.
    Case {
        source: b"shared int x[70]; int main(void){int i; int r = 0; \
for (i = 0; i < 70; i++) {if (MYTHREAD == 0) x[i] = i + 1; else r += x[69 - i];} return r;}",
        picks: IN_TURN,
    },
    // A run error while writes are pending.
    Case {
        source: b"shared int x; strict shared int y; int main(void){int r = 0; x = 1; r = x; \
if (MYTHREAD == 1) r = 1 / y; y = r; return x;}",
        picks: IN_TURN,
    },
];

// Whether the orders of a case are consistent, from what its program begins with.
fn is_kept<R: Wait>(rt: &R, alloc: Global, case: &Case) -> Result<bool, Fail> {
    let program = program_of(alloc, 2, case.source)?;
    let journal = run_of(rt, alloc, case.source, TWO, case.picks)?;
    let found = orders(alloc, &journal)?;
    Ok(is_consistent(alloc, &journal, program.initials(), &found)?)
}

#[test]
fn orders_of_cases(rt: HostRuntime) -> Result<(), Fail> {
    for (number, case) in CASES.iter().enumerate() {
        assert!(rt; is_kept(&rt, rt.alloc(), case)?, "{number}");
    }
    Ok(())
}

// Each turn of a thread is a relaxed write, a relaxed read and a strict write.
const MANY: &[u8] = b"shared int x[4]; strict shared int s; int main(void){int i; \
for (i = 0; i < 340; i++) {x[i % 4] = i; s = x[(i + 1) % 4];} return 0;}";

// Around main each thread notifies and waits twice.
#[test]
fn orders_of_many_entries(rt: HostRuntime) -> Result<(), Fail> {
    let journal = run_of(&rt, rt.alloc(), MANY, TWO, &[])?;
    assert_eq!(rt; journal.history.len(), 2 * (3 * 340 + 4));
    let found = orders(rt.alloc(), &journal)?;
    assert_eq!(rt; found.strict.len(), 2 * (340 + 4));
    for order in found.threads.as_slice() {
        assert_eq!(rt; order.len(), 3 * 340 + 4 + 2 * 340 + 4);
    }
    Ok(())
}
