//! The second program's top call over memory.
use std::alloc::Global;
use std::sync::Wait;
use std::test::Fail;
use upc_outcomes::outcomes_main;
use upc_text::{MemFiles, MemSink};

// One call: the words, the calls of the output that fail, and what it must answer.
#[derive(Clone, Copy)]
struct Row {
    words: &'static [&'static str],
    source: &'static [u8],
    failing_puts: &'static [u64],
    status: u8,
    out: &'static [u8],
    err: &'static [u8],
}

// Two threads add 1 to one variable.
const ADDING: &[u8] = b"shared int x; int main(){x = x + 1; upc_barrier; \
if (MYTHREAD == 0) printf(\"%d\\n\", x); return 0;}";

const UNENDED: &[u8] = b"int main(){printf(\"a\\nb\"); return 3;}";

const FAILING: &[u8] = b"int main(){return 1 / 0;}";

const ROWS: [Row; 8] = [
    // Both lists of at most one pick show the same, and the shorter one is kept. A text may end without a line end.
    Row {
        words: &["-T", "1", "--all", "1", "f.upc"],
        source: UNENDED,
        failing_puts: &[],
        status: 0,
        out: b"2 of 2: status 3, picks none\n    a\n    b\n\\ no line end\n",
        err: b"",
    },
    // One after the other; and where thread 1 has begun and read when thread 0 goes on.
    Row {
        words: &["-T", "2", "--picks", "none", "f.upc"],
        source: ADDING,
        failing_puts: &[],
        status: 0,
        out: b"1 of 1: status 0, picks none\n    2\n",
        err: b"",
    },
    Row {
        words: &["-T", "2", "--picks", "1,0,1,1", "f.upc"],
        source: ADDING,
        failing_puts: &[],
        status: 0,
        out: b"1 of 1: status 0, picks 1,0,1,1\n    1\n",
        err: b"",
    },
    // The text of one run.
    Row {
        words: &[
            "-T",
            "1",
            "--picks",
            "none",
            "--record",
            "--actions",
            "9",
            "f.upc",
        ],
        source: FAILING,
        failing_puts: &[],
        status: 0,
        out: b"upc-record 2\nthreads 1 budget 100000 actions 9\nrule places 64 combine\n\
thread 0 items 2 ticks 0 fault 2 1:19\n\
notify start -> done\nwait start -> done\nhistory 2\n0.0\n0.1\nstrict 2\n0.0.w\n0.1.r\n\
order 0 2\n0.0.w\n0.1.r\nend\n",
        err: b"",
    },
    // What `upc` refuses is refused.
    Row {
        words: &["-T", "1", "f.upc"],
        source: b"int main(){return y;}",
        failing_puts: &[],
        status: 101,
        out: b"",
        err: b"upc: refused at 1:19: typing 1\n",
    },
    Row {
        words: &["-T", "1", "other.upc"],
        source: ADDING,
        failing_puts: &[],
        status: 102,
        out: b"",
        err: b"upc: read fault\n",
    },
    // The output takes two bytes and then fails.
    Row {
        words: &["-T", "2", "--picks", "none", "f.upc"],
        source: ADDING,
        failing_puts: &[2],
        status: 103,
        out: b"1 ",
        err: b"",
    },
    // A run that ends with a line has it in the list.
    Row {
        words: &["-T", "1", "--all", "64", "f.upc"],
        source: FAILING,
        failing_puts: &[],
        status: 0,
        out: b"65 of 65: status 105, picks none\nupc: run error E2 at 1:19 on thread 0\n",
        err: b"",
    },
];

// Words that are refused.
const USAGES: [&[&str]; 14] = [
    &[],
    &["f.upc"],
    &["-T", "2"],
    &["-T", "33", "f.upc"],
    &["-T", "2", "--schedules", "0", "f.upc"],
    &["-T", "2", "--schedules", "100001", "f.upc"],
    &["-T", "2", "--all", "16", "f.upc"],
    &["-T", "1", "--all", "65", "f.upc"],
    &["-T", "2", "--all", "2", "--seed", "1", "f.upc"],
    &["-T", "2", "--all", "2", "--picks", "0", "f.upc"],
    &["-T", "2", "--picks", "0,,1", "f.upc"],
    &["-T", "2", "--picks", "4294967296", "f.upc"],
    &["-T", "2", "--record", "f.upc"],
    &["-T", "2", "--actions", "4194305", "f.upc"],
];

fn usage_of(words: &&'static [&'static str]) -> Row {
    Row {
        words: *words,
        source: ADDING,
        failing_puts: &[],
        status: 100,
        out: b"",
        err: b"upc: usage\n",
    }
}

fn is_answered<R: Wait>(rt: &R, alloc: Global, row: &Row) -> Result<bool, Fail> {
    let mut words = Vec::new(alloc);
    for word in row.words {
        words.push(String::from_str(alloc, word)?)?;
    }
    let mut files = MemFiles::make(alloc, &[], 32)?;
    files.add("f.upc", row.source)?;
    let mut out = MemSink::make(alloc, row.failing_puts, 2)?;
    let mut err = MemSink::make(alloc, &[], 64)?;
    let status = outcomes_main(rt, alloc, words.as_slice(), &mut files, &mut out, &mut err);
    Ok(status == row.status && out.taken() == row.out && err.taken() == row.err)
}

#[test]
fn answers(rt: HostRuntime) -> Result<(), Fail> {
    for (number, row) in ROWS.iter().enumerate() {
        assert!(rt; is_answered(&rt, rt.alloc(), row)?, "row {number}");
    }
    for (number, words) in USAGES.iter().enumerate() {
        assert!(rt;
            is_answered(&rt, rt.alloc(), &usage_of(words))?,
            "usage {number}"
        );
    }
    Ok(())
}
