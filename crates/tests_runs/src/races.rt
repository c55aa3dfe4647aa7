//! Races of small runs, and the serial orders of some.

use crate::orders::{Name, R, W, has_names};
use crate::runs::run_of;
use race_report::serial_order;
use race_report_text::report_text;
use race_report_walk::races;
use std::alloc::Global;
use std::sync::Wait;
use std::test::Fail;
use upc_task::Limits;

// A run of a source by picks on two threads, and what is told of its races.
struct Raced {
    source: &'static [u8],
    picks: &'static [u32],
    told: &'static str,
}

const TWO: Limits = Limits {
    threads: 2,
    budget: 10_000,
    actions: 10_000,
};

const ONE: Limits = Limits {
    threads: 1,
    budget: 1000,
    actions: 100,
};

const TWO_WRITES: &[u8] = b"shared int x; int main(void){x = MYTHREAD; return 0;}";

const STORE_BUFFERING: &[u8] = b"shared int x; shared int y; int main(void){int r; \
if (MYTHREAD == 0) {x = 1; r = y;} else {y = 1; r = x;} return 0;}";

const IN_TURN: &[u32] = &[0, 1, 0, 1, 0, 1, 0, 1, 0, 1, 0, 1];

const RACED: [Raced; 8] = [
    // The write of thread 0 stands first in the history, and then that of thread 1.
    Raced {
        source: TWO_WRITES,
        picks: &[0, 1, 0, 0, 0],
        told: "race @1.0.0 0.2.w 1.2.w\nraces 1\n",
    },
    Raced {
        source: TWO_WRITES,
        picks: &[0, 1, 1, 1, 1],
        told: "race @1.0.0 1.2.w 0.2.w\nraces 1\n",
    },
    // Both threads read before either write is done.
    Raced {
        source: STORE_BUFFERING,
        picks: IN_TURN,
        told: "race @1.0.0 1.3.r 0.2.w\nrace @2.0.0 0.3.r 1.2.w\nraces 2\n",
    },
    // A barrier, and a split one of which the read does not wait for the end.
    Raced {
        source: b"shared int x; int main(void){int r; if (MYTHREAD == 0) x = 1; upc_barrier; \
if (MYTHREAD == 1) r = x; return 0;}",
        picks: IN_TURN,
        told: "races 0\n",
    },
    Raced {
        source: b"shared int x; int main(void){int r; if (MYTHREAD == 0) x = 1; upc_notify; \
if (MYTHREAD == 1) r = x; upc_wait; return 0;}",
        picks: &[0, 1, 0, 1, 0, 0, 0, 0, 0, 1, 1, 1, 1],
        told: "race @1.0.0 0.2.w 1.3.r\nraces 1\n",
    },
    // A strict flag that is seen, and so the data is no race; and a relaxed one.
    Raced {
        source: b"shared int data; strict shared int flag; int main(void){int r; \
if (MYTHREAD == 0) {data = 1; flag = 1;} else if (flag) r = data; return 0;}",
        picks: &[0, 1, 0, 0, 0, 1, 1, 1],
        told: "races 0\n",
    },
    Raced {
        source: b"shared int data; shared int flag; int main(void){int r; \
if (MYTHREAD == 0) {data = 1; flag = 1;} else if (flag) r = data; return 0;}",
        picks: &[0, 1, 0, 0, 0, 0, 1, 1, 1],
        told: "race @1.0.0 0.2.w 1.3.r\nrace @2.0.0 0.3.w 1.2.r\nraces 2\n",
    },
    // A lock around each addition.
    Raced {
        source: b"shared int x; int main(void){upc_lock_t *l = upc_all_lock_alloc(); \
upc_lock(l); x = x + 1; upc_unlock(l); return 0;}",
        picks: IN_TURN,
        told: "races 0\n",
    },
];

// Whether that is what is told of the run.
fn is_told<R: Wait>(rt: &R, alloc: Global, raced: &Raced) -> Result<bool, Fail> {
    let journal = run_of(rt, alloc, raced.source, TWO, raced.picks)?;
    let report = races(alloc, &journal)?;
    let text = report_text(alloc, &report)?;
    Ok(text.as_slice() == raced.told.as_bytes())
}

#[test]
fn races_of_runs(rt: HostRuntime) -> Result<(), Fail> {
    for (number, raced) in RACED.iter().enumerate() {
        assert!(rt; is_told(&rt, rt.alloc(), raced)?, "{number}");
    }
    Ok(())
}

// A run of a source by picks, and its serial order.
struct Serial {
    source: &'static [u8],
    limits: Limits,
    picks: &'static [u32],
    order: &'static [Name],
}

const SERIAL: [Serial; 2] = [
    // The two barriers of a thread that does nothing between them.
    Serial {
        source: b"int main(void){return 0;}",
        limits: ONE,
        picks: &[],
        order: &[(0, 0, W), (0, 1, R), (0, 2, W), (0, 3, R)],
    },
    // The relaxed accesses of a thread stand between its strict ones, before and after them.
    Serial {
        source: STORE_BUFFERING,
        limits: TWO,
        picks: IN_TURN,
        order: &[
            (0, 0, W),
            (1, 0, W),
            (0, 1, R),
            (0, 2, W),
            (0, 3, R),
            (1, 1, R),
            (1, 2, W),
            (1, 3, R),
            (0, 4, W),
            (1, 4, W),
            (0, 5, R),
            (1, 5, R),
        ],
    },
];

// Whether that is the serial order of the run.
fn is_serial<R: Wait>(rt: &R, alloc: Global, serial: &Serial) -> Result<bool, Fail> {
    let journal = run_of(rt, alloc, serial.source, serial.limits, serial.picks)?;
    let order = serial_order(alloc, &journal)?;
    Ok(has_names(&order, serial.order))
}

#[test]
fn serial_orders_of_runs(rt: HostRuntime) -> Result<(), Fail> {
    for (number, serial) in SERIAL.iter().enumerate() {
        assert!(rt; is_serial(&rt, rt.alloc(), serial)?, "{number}");
    }
    Ok(())
}
