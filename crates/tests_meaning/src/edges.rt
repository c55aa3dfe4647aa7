//! Replies that are missing, that do not fit, and that are one too many; and ticks that run out.

use crate::front::program_of;
use std::test::Fail;
use upc_meaning::{replay, replay_whole};
use upc_values::{Action, Reply, Scalar, ToldEnd};

const READS: &[u8] = b"shared int x; int main(void){return x;}";

const LOOPS: &[u8] = b"int main(void){int i = 0; while (i < 3) i = i + 1; return i;}";

// The only thread of a source, with these replies and this budget of ticks: its end, as a word and a number, and
// how many actions it has done.
struct Row {
    source: &'static [u8],
    replies: &'static [Reply],
    ticks: u64,
    told: (&'static str, i64),
    actions: usize,
}

const ROWS: [Row; 14] = [
    // The barriers before main and after it, and a read between them.
    Row {
        source: READS,
        replies: &[],
        ticks: 10,
        told: ("wants notify", 0),
        actions: 0,
    },
    Row {
        source: READS,
        replies: &[Reply::Done],
        ticks: 10,
        told: ("wants wait", 0),
        actions: 1,
    },
    Row {
        source: READS,
        replies: &[Reply::Done, Reply::Done],
        ticks: 10,
        told: ("wants read", 0),
        actions: 2,
    },
    Row {
        source: READS,
        replies: &[Reply::Done, Reply::Done, Reply::Value(Scalar::Int(7))],
        ticks: 10,
        told: ("wants notify", 0),
        actions: 3,
    },
    Row {
        source: READS,
        replies: &[
            Reply::Done,
            Reply::Done,
            Reply::Value(Scalar::Int(7)),
            Reply::Done,
        ],
        ticks: 10,
        told: ("wants wait", 0),
        actions: 4,
    },
    Row {
        source: READS,
        replies: &[
            Reply::Done,
            Reply::Done,
            Reply::Value(Scalar::Int(7)),
            Reply::Done,
            Reply::Done,
        ],
        ticks: 1,
        told: ("ended", 7),
        actions: 5,
    },
    // A reply to nothing is not looked at.
    Row {
        source: READS,
        replies: &[
            Reply::Done,
            Reply::Done,
            Reply::Value(Scalar::Int(-1)),
            Reply::Done,
            Reply::Done,
            Reply::Flag(true),
        ],
        ticks: 1,
        told: ("ended", -1),
        actions: 5,
    },
    // Replies that do not fit.
    Row {
        source: READS,
        replies: &[Reply::Flag(true)],
        ticks: 10,
        told: ("misfit", 0),
        actions: 0,
    },
    Row {
        source: READS,
        replies: &[Reply::Done, Reply::Done, Reply::Done, Reply::Done],
        ticks: 10,
        told: ("misfit", 2),
        actions: 2,
    },
    Row {
        source: READS,
        replies: &[
            Reply::Done,
            Reply::Done,
            Reply::Value(Scalar::Int(2_147_483_648)),
        ],
        ticks: 10,
        told: ("misfit", 2),
        actions: 2,
    },
    Row {
        source: READS,
        replies: &[Reply::Done, Reply::Done, Reply::Value(Scalar::Lock(1))],
        ticks: 10,
        told: ("misfit", 2),
        actions: 2,
    },
    // A refusal is a run error.
    Row {
        source: READS,
        replies: &[Reply::Done, Reply::Refused(11)],
        ticks: 10,
        told: ("fault", 11),
        actions: 2,
    },
    // Three turns, and the test after them, are four ticks.
    Row {
        source: LOOPS,
        replies: &[Reply::Done, Reply::Done],
        ticks: 4,
        told: ("out of ticks", 0),
        actions: 2,
    },
    Row {
        source: LOOPS,
        replies: &[Reply::Done, Reply::Done, Reply::Done, Reply::Done],
        ticks: 5,
        told: ("ended", 3),
        actions: 4,
    },
];

/// An end, as a word and a number.
pub fn told_as(end: &ToldEnd) -> (&'static str, i64) {
    match end {
        ToldEnd::Wants(Action::Notify(_)) => ("wants notify", 0),
        ToldEnd::Wants(Action::Wait(_)) => ("wants wait", 0),
        ToldEnd::Wants(Action::Read { .. }) => ("wants read", 0),
        ToldEnd::Wants(_) => ("wants another", 0),
        ToldEnd::Misfit(number) => ("misfit", i64::from(*number)),
        ToldEnd::Ended(value) => ("ended", i64::from(*value)),
        ToldEnd::Exit(value) => ("exit", i64::from(*value)),
        ToldEnd::Fault(code, _) => ("fault", i64::from(*code)),
        ToldEnd::OutOfTicks => ("out of ticks", 0),
    }
}

#[test]
fn edges(rt: HostRuntime) -> Result<(), Fail> {
    for (number, row) in ROWS.iter().enumerate() {
        let program = program_of(rt.alloc(), 1, row.source)?.expect(&rt, "a program");
        assert!(rt; program.threads() == 1);
        assert!(rt; 1 <= row.ticks);
        let told = replay(rt.alloc(), &program, 0, row.replies, row.ticks)?;
        let (word, value) = told_as(&told.end);
        assert!(rt; word == row.told.0, "{number}");
        assert!(rt; value == row.told.1, "{number}");
        assert!(rt; told.actions.len() == row.actions, "{number}");
    }
    Ok(())
}

// The only thread of a source, with these replies and a budget of ten ticks: its end, as a word, and its ticks.
struct Ticked {
    source: &'static [u8],
    replies: &'static [Reply],
    word: &'static str,
    ticks: u64,
}

const TICKED: [Ticked; 3] = [
    Ticked {
        source: b"int main(void){while(1);return 0;}",
        replies: &[Reply::Done, Reply::Done],
        word: "out of ticks",
        ticks: 10,
    },
    Ticked {
        source: LOOPS,
        replies: &[Reply::Done, Reply::Done, Reply::Done, Reply::Done],
        word: "ended",
        ticks: 4,
    },
    Ticked {
        source: READS,
        replies: &[Reply::Done, Reply::Done],
        word: "wants read",
        ticks: 0,
    },
];

#[test]
fn ticks(rt: HostRuntime) -> Result<(), Fail> {
    for (number, row) in TICKED.iter().enumerate() {
        let program = program_of(rt.alloc(), 1, row.source)?.expect(&rt, "a program");
        assert!(rt; program.threads() == 1);
        let outcome = replay_whole(rt.alloc(), &program, 0, row.replies, 10)?;
        assert!(rt; told_as(&outcome.end).0 == row.word, "{number}");
        assert!(rt; outcome.ticks == row.ticks, "{number}");
        assert!(rt; outcome.actions.len() == row.replies.len(), "{number}");
    }
    Ok(())
}
