//! Collective calls on replies that are made by hand: what each thread writes, and how it ends.

use crate::edges::told_as;
use crate::front::program_of;
use std::test::Fail;
use upc_meaning::replay;
use upc_values::{Action, Reply, Scalar};

const SCATTER: &[u8] = b"#include <upc.h>
#include <upc_collective.h>
shared [] int s[4];
shared [2] int d[4];
int main(void) {
  upc_all_scatter(d, s, 2 * sizeof(int), 0);
  return 0;
}
";

const REDUCE: &[u8] = b"#include <upc.h>
#include <upc_collective.h>
shared [2] int d[4];
shared int r;
int main(void) {
  upc_all_reduceI(&r, d, UPC_ADD, 4, 2, NULL, 0);
  return 0;
}
";

const UNMET: &[u8] = b"#include <upc.h>
#include <upc_collective.h>
shared [] int s[4];
shared [2] int d[4];
int main(void) {
  upc_notify;
  upc_all_scatter(d, s, 8, 64);
  return 0;
}
";

// A thread of two, with these replies: the values that it writes, its end, as a word and a number, and how many actions
// it has done.
struct Row {
    source: &'static [u8],
    thread: u32,
    replies: &'static [Reply],
    written: &'static [i128],
    told: (&'static str, i64),
    actions: usize,
}

const ROWS: [Row; 9] = [
    // A barrier before main, the call, a barrier, two cells copied, a barrier, and one after main.
    Row {
        source: SCATTER,
        thread: 1,
        replies: &[
            Reply::Done,
            Reply::Done,
            Reply::Done,
            Reply::Done,
            Reply::Done,
            Reply::Value(Scalar::Int(7)),
            Reply::Done,
            Reply::Value(Scalar::Int(-3)),
            Reply::Done,
            Reply::Done,
            Reply::Done,
            Reply::Done,
            Reply::Done,
        ],
        written: &[7, -3],
        told: ("ended", 0),
        actions: 13,
    },
    // The thread where the sum goes reads all elements.
    Row {
        source: REDUCE,
        thread: 0,
        replies: &[
            Reply::Done,
            Reply::Done,
            Reply::Done,
            Reply::Done,
            Reply::Done,
            Reply::Value(Scalar::Int(1)),
            Reply::Value(Scalar::Int(20)),
            Reply::Value(Scalar::Int(-300)),
            Reply::Value(Scalar::Int(4000)),
            Reply::Done,
            Reply::Done,
            Reply::Done,
            Reply::Done,
            Reply::Done,
        ],
        written: &[3721],
        told: ("ended", 0),
        actions: 14,
    },
    // The other one waits.
    Row {
        source: REDUCE,
        thread: 1,
        replies: &[Reply::Done; 9],
        written: &[],
        told: ("ended", 0),
        actions: 9,
    },
    // A sum that is no int.
    Row {
        source: REDUCE,
        thread: 0,
        replies: &[
            Reply::Done,
            Reply::Done,
            Reply::Done,
            Reply::Done,
            Reply::Done,
            Reply::Value(Scalar::Int(2_147_483_647)),
            Reply::Value(Scalar::Int(1)),
            Reply::Value(Scalar::Int(1)),
        ],
        written: &[],
        told: ("fault", 1),
        actions: 7,
    },
    // A reply that fits no element.
    Row {
        source: REDUCE,
        thread: 0,
        replies: &[
            Reply::Done,
            Reply::Done,
            Reply::Done,
            Reply::Done,
            Reply::Done,
            Reply::Value(Scalar::Lock(1)),
        ],
        written: &[],
        told: ("misfit", 5),
        actions: 5,
    },
    // The threads meet in different calls.
    Row {
        source: SCATTER,
        thread: 0,
        replies: &[Reply::Done, Reply::Done, Reply::Refused(17)],
        written: &[],
        told: ("fault", 17),
        actions: 3,
    },
    // No reply is left for the call, and none for a cell.
    Row {
        source: SCATTER,
        thread: 0,
        replies: &[Reply::Done, Reply::Done],
        written: &[],
        told: ("wants another", 0),
        actions: 2,
    },
    Row {
        source: SCATTER,
        thread: 0,
        replies: &[Reply::Done; 5],
        written: &[],
        told: ("wants read", 0),
        actions: 5,
    },
    // A notify is open, and the flags are none: the first is told.
    Row {
        source: UNMET,
        thread: 0,
        replies: &[Reply::Done; 3],
        written: &[],
        told: ("fault", 10),
        actions: 3,
    },
];

// Whether these are the values that are written, in order.
fn are_written(actions: &[Action], values: &[i128]) -> bool {
    let mut left = values;
    for action in actions {
        if let Action::Write {
            value: Scalar::Int(written),
            ..
        } = action
        {
            let Some((first, more)) = left.split_first() else {
                return false;
            };
            if written != first {
                return false;
            }
            left = more;
        }
    }
    left.is_empty()
}

#[test]
fn together(rt: HostRuntime) -> Result<(), Fail> {
    for (number, row) in ROWS.iter().enumerate() {
        let program = program_of(rt.alloc(), 2, row.source)?.expect(&rt, "a program");
        assert!(rt; row.thread < program.threads());
        let told = replay(rt.alloc(), &program, row.thread, row.replies, 10)?;
        let (word, value) = told_as(&told.end);
        assert!(rt; word == row.told.0, "{number}");
        assert!(rt; value == row.told.1, "{number}");
        assert!(rt; told.actions.len() == row.actions, "{number}");
        assert!(rt;
            are_written(told.actions.as_slice(), row.written),
            "{number}"
        );
    }
    Ok(())
}
