//! The top call over memory.
use std::alloc::Global;
use std::sync::Wait;
use std::test::Fail;
use std::thread::Threads;
use upc_text::{MemFiles, MemSink, OpenGate};
use upc_top::upc_main;

const SUM: &[u8] =
    b"strict shared int x; int main(){x = 6 * 7; upc_barrier; printf(\"%d\\n\", x); return 0;}";

// One call: the words, the file and the record, the calls of the source and of the output that fail, and what it must
// answer.
#[derive(Clone, Copy)]
struct Row {
    words: &'static [&'static str],
    source: &'static [u8],
    record: &'static [u8],
    failing_reads: &'static [u64],
    failing_puts: &'static [u64],
    status: u8,
    out: &'static [u8],
    err: &'static [u8],
    ran: bool,
}

const ROWS: [Row; 6] = [
    // It answers with ample memory, and returns.
    Row {
        words: &["run", "-T", "1", "f.upc"],
        source: SUM,
        record: b"",
        failing_reads: &[],
        failing_puts: &[],
        status: 0,
        out: b"42\n",
        err: b"",
        ran: true,
    },
    Row {
        words: &["run", "-T", "2", "f.upc"],
        source: SUM,
        record: b"",
        failing_reads: &[],
        failing_puts: &[],
        status: 0,
        out: b"42\n42\n",
        err: b"",
        ran: true,
    },
    // A read fails in the middle of the file.
    Row {
        words: &["run", "-T", "1", "f.upc"],
        source: SUM,
        record: b"",
        failing_reads: &[2],
        failing_puts: &[],
        status: 102,
        out: b"",
        err: b"upc: read fault\n",
        ran: false,
    },
    // The output takes two bytes and then fails: the run stands, and no line is tried.
    Row {
        words: &["run", "-T", "1", "f.upc"],
        source: SUM,
        record: b"",
        failing_reads: &[],
        failing_puts: &[2],
        status: 103,
        out: b"42",
        err: b"",
        ran: true,
    },
    Row {
        words: &["run", "-T", "1", "other.upc"],
        source: SUM,
        record: b"",
        failing_reads: &[],
        failing_puts: &[],
        status: 102,
        out: b"",
        err: b"upc: read fault\n",
        ran: false,
    },
    Row {
        words: &["run", "-T", "1", "f.upc"],
        source: b"int main(){return y;}",
        record: b"",
        failing_reads: &[],
        failing_puts: &[],
        status: 101,
        out: b"",
        err: b"upc: refused at 1:19: typing 1\n",
        ran: false,
    },
];

// Words that are refused.
const USAGES: [&[&str]; 22] = [
    &[],
    &["run", "f.upc"],
    &["run", "-T", "1"],
    &["run", "-T", "0", "f.upc"],
    &["run", "-T", "33", "f.upc"],
    &["run", "-T", "-1", "f.upc"],
    &["run", "-T", "one", "f.upc"],
    &["run", "-T", "1", "-T", "1", "f.upc"],
    &["run", "-T", "1", "f.upc", "g.upc"],
    &["walk", "-T", "1", "f.upc"],
    &["run", "-T", "1", "--budget", "0", "f.upc"],
    &["run", "-T", "1", "--budget", "1000000000001", "f.upc"],
    &["run", "-T", "1", "--actions", "0", "f.upc"],
    &["run", "-T", "1", "--actions", "8388609", "f.upc"],
    &["run", "-T", "2", "--actions", "4194305", "f.upc"],
    &["--help"],
    &["sample", "-T", "1", "01"],
    &["sample", "-T", "1", "1001"],
    &["verify", "-T", "1", "f.upc"],
    &["races", "-T", "1", "f.upc", "f.rec"],
    &["replica", "-T", "1", "f.upc", "f.rec"],
    &["replica", "-T", "2", "--actions", "2097153", "f.upc"],
];

// Words with a source, its status, and what it writes to the output and to the error output.
type Call = (
    &'static [&'static str],
    &'static [u8],
    u8,
    &'static [u8],
    &'static [u8],
);

const FOREVER: &[u8] = b"strict shared int x; int main(void){while(1) { x = 1; } return 0;}";

const LOCKED: &[u8] = b"#include <upc_relaxed.h>
shared int n;
int main(void) {
  upc_lock_t *l = upc_all_lock_alloc();
  upc_lock(l); n = n + MYTHREAD + 1; upc_unlock(l);
  upc_barrier;
  if (MYTHREAD == 0) printf(\"%d\\n\", n);
  return 0;
}
";

const OBJECTS: &[u8] = b"shared [3] int a[20]; shared [] int s[8]; int p; shared [*] int d[10]; \
struct pair { int a; char c; }; shared [2] struct pair q[5]; shared [2] char m[3][4]; strict shared long x; \
int main(void){int i; return 0;}";

const CALLS: [Call; 20] = [
    // However the words are spelled and ordered.
    (
        &["run", "-T", "+04", "f.upc"],
        b"int main(){return THREADS;}",
        4,
        b"",
        b"",
    ),
    (
        &["-T+2", "--budget=7", "--actions=9", "run", "f.upc"],
        b"int main(){return THREADS;}",
        2,
        b"",
        b"",
    ),
    // A thread reaches its budget, and the end of its record.
    (
        &["run", "-T", "1", "--budget", "10", "f.upc"],
        FOREVER,
        107,
        b"",
        b"upc: budget on thread 0\n",
    ),
    (
        &["run", "-T", "1", "--actions", "5", "f.upc"],
        FOREVER,
        108,
        b"",
        b"upc: actions full on thread 0\n",
    ),
    (
        &["run", "-T", "1", "--actions", "4", "f.upc"],
        b"int main(void){return 0;}",
        0,
        b"",
        b"",
    ),
    (
        &["run", "-T", "1", "--actions", "3", "f.upc"],
        b"int main(void){return 0;}",
        108,
        b"",
        b"upc: actions full on thread 0\n",
    ),
    // What is accepted.
    (
        &["check", "-T", "2", "f.upc"],
        b"int main(void){int i; return 0;}",
        0,
        b"ok\n",
        b"",
    ),
    (
        &["check", "-T", "2", "f.upc"],
        b"int main(void){return x;}",
        101,
        b"",
        b"upc: refused at 1:23: typing 1\n",
    ),
    (&["run", "-T", "2", "f.upc"], OBJECTS, 0, b"", b""),
    // The text of a run, and a source of stages.
    (
        &["record", "-T", "1", "--actions", "9", "f.upc"],
        b"int main(){return 1 / 0;}",
        105,
        b"upc-record 2\nthreads 1 budget 100000000 actions 9\nrule places 64 combine\n\
thread 0 items 2 ticks 0 fault 2 1:19\n\
notify start -> done\nwait start -> done\nhistory 2\n0.0\n0.1\nstrict 2\n0.0.w\n0.1.r\n\
order 0 2\n0.0.w\n0.1.r\nend\n",
        b"upc: run error E2 at 1:19 on thread 0\n",
    ),
    (
        &["sample", "-T", "1", "1"],
        b"",
        0,
        b"stages 1 sum 120\n",
        b"",
    ),
    // The races of a run, in place of what it prints.
    (&["races", "-T", "1", "f.upc"], SUM, 0, b"races 0\n", b""),
    (
        &["races", "-T", "1", "f.upc"],
        b"int main(){return 1 / 0;}",
        105,
        b"races 0\n",
        b"upc: run error E2 at 1:19 on thread 0\n",
    ),
    // A run in which each thread has its own copy of the shared memory.
    (&["replica", "-T", "2", "f.upc"], SUM, 0, b"42\n42\n", b""),
    (&["replica", "-T", "4", "f.upc"], LOCKED, 0, b"10\n", b""),
    (
        &["replica", "-T", "1", "f.upc"],
        b"int main(){return 1 / 0;}",
        105,
        b"",
        b"upc: run error E2 at 1:19 on thread 0\n",
    ),
    // Where shared objects lie.
    (
        &["layout", "-T", "4", "f.upc"],
        OBJECTS,
        0,
        b"a block 3 elements 20 size 4 pieces 24 24 20 12\n\
s block 0 elements 8 size 4 pieces 32 0 0 0\n\
d block 3 elements 10 size 4 pieces 12 12 12 4\n\
q block 2 elements 5 size 8 pieces 16 16 8 0\n\
m block 2 elements 12 size 1 pieces 4 4 2 2\n\
x block 1 elements 1 size 8 pieces 8 0 0 0\n",
        b"",
    ),
    (
        &["layout", "-T", "1", "f.upc"],
        b"shared [*] int d[10]; int main(){return 0;}",
        0,
        b"d block 10 elements 10 size 4 pieces 40\n",
        b"",
    ),
    (
        &["layout", "-T", "32", "f.upc"],
        b"int main(){return 0;}",
        0,
        b"",
        b"",
    ),
    (
        &["layout", "-T", "1", "f.upc"],
        b"",
        101,
        b"",
        b"upc: refused at 1:1: syntax\n",
    ),
];

// A record of a source on one thread, its status, and what is written to the output and to the error output.
type Record = (&'static [u8], u8, &'static [u8], &'static [u8]);

const RECORDS: [Record; 5] = [
    (
        b"upc-record 2\nthreads 1 budget 100000000 actions 4194304\nrule places 64 combine\n\
thread 0 items 4 ticks 0 ended 0\n\
notify start -> done\nwait start -> done\nnotify finish -> done\nwait finish -> done\n\
history 4\n0.0\n0.1\n0.2\n0.3\nstrict 4\n0.0.w\n0.1.r\n0.2.w\n0.3.r\n\
order 0 4\n0.0.w\n0.1.r\n0.2.w\n0.3.r\nend\n",
        0,
        b"sound\n",
        b"",
    ),
    // Another end, and entries out of program order.
    (
        b"upc-record 2\nthreads 1 budget 100000000 actions 4194304\nrule places 64 combine\n\
thread 0 items 4 ticks 0 ended 1\n\
notify start -> done\nwait start -> done\nnotify finish -> done\nwait finish -> done\n\
history 4\n0.0\n0.1\n0.2\n0.3\nstrict 4\n0.0.w\n0.1.r\n0.2.w\n0.3.r\n\
order 0 4\n0.0.w\n0.1.r\n0.2.w\n0.3.r\nend\n",
        111,
        b"",
        b"upc: not sound: part 5 on thread 0\n",
    ),
    (
        b"upc-record 2\nthreads 1 budget 100000000 actions 4194304\nrule places 64 combine\n\
thread 0 items 4 ticks 0 ended 0\n\
notify start -> done\nwait start -> done\nnotify finish -> done\nwait finish -> done\n\
history 4\n0.0\n0.1\n0.3\n0.2\nstrict 4\n0.0.w\n0.1.r\n0.2.w\n0.3.r\n\
order 0 4\n0.0.w\n0.1.r\n0.2.w\n0.3.r\nend\n",
        111,
        b"",
        b"upc: not sound: part 2 on thread 0\n",
    ),
    // A text of version 1, and no text of a run.
    (
        b"upc-record 1\nthreads 1 budget 100000000 actions 4194304\n\
thread 0 items 4 ticks 0 ended 0\n\
notify start -> done\nwait start -> done\nnotify finish -> done\nwait finish -> done\n\
history 4\n0.0\n0.1\n0.2\n0.3\nstrict 4\n0.0.w\n0.1.r\n0.2.w\n0.3.r\n\
order 0 4\n0.0.w\n0.1.r\n0.2.w\n0.3.r\nend\n",
        113,
        b"",
        b"upc: old record\n",
    ),
    (b"no record\n", 112, b"", b"upc: bad record at 1:1\n"),
];

// A source on one thread, its status, and what it writes to the output and to the error output.
type Program = (&'static [u8], u8, &'static [u8], &'static [u8]);

const PROGRAMS: [Program; 34] = [
    // Sums, variables, loops and their run errors.
    (
        b"strict shared int x; int main(){x = 2147483647 + 1; return 0;}",
        105,
        b"",
        b"upc: run error E1 at 1:37 on thread 0\n",
    ),
    (
        b"int main(){return\n 1 - 2147483647 * (3) - 2;}",
        105,
        b"",
        b"upc: run error E1 at 2:6 on thread 0\n",
    ),
    (b"int main(void){return 100;}", 99, b"", b""),
    (b"int main(){return 3 - 2 - 1;}", 0, b"", b""),
    (b"int main(){return 2 + 3 * 4;}", 14, b"", b""),
    (b"int main(){return (2 + 3) * 4;}", 20, b"", b""),
    (b"int main(){return MYTHREAD + 10 * THREADS;}", 10, b"", b""),
    (
        b"shared int i; relaxed shared int s; int main(){i = 3; while (i) { s = s + i; i = i - 1; } \
printf(\"%d\\n\", s); upc_fence; return s;}",
        6,
        b"6\n",
        b"",
    ),
    (
        b"shared int x; shared int y; int main(){y = 5; printf(\"%d\\n\", 0 - x - y); return 0;}",
        0,
        b"-5\n",
        b"",
    ),
    // Comments, macros, headers, and numbers however they are spelled.
    (
        b"#include <upc.h>\n/* a\n b */ #define N 0x2A // c\nint main(void){return N;}",
        42,
        b"",
        b"",
    ),
    (
        b"#include <upc.h>\n#define N 0x2A // c\nint main(void){return N /* d */ + 010 - NULL;}",
        50,
        b"",
        b"",
    ),
    (b"#define N 5\nint main(void){return N*2;}", 10, b"", b""),
    // What is refused, stage by stage.
    (b"@", 101, b"", b"upc: refused at 1:1: lex\n"),
    (
        b"int main(void){return 18446744073709551616;}",
        101,
        b"",
        b"upc: refused at 1:23: limit 2\n",
    ),
    (b"#if 1\n", 101, b"", b"upc: refused at 1:1: directive\n"),
    (
        b"\n\nunion u { int x; };",
        101,
        b"",
        b"upc: refused at 3:1: profile 11\n",
    ),
    (b"", 101, b"", b"upc: refused at 1:1: syntax\n"),
    (
        b"int main(){return 0;} }",
        101,
        b"",
        b"upc: refused at 1:23: syntax\n",
    ),
    (
        b"#define A A+1\nint main(void){return A;}",
        101,
        b"",
        b"upc: refused at 2:23: typing 1\n",
    ),
    (
        b"shared int x; shared int x; int main(){return 0;}",
        101,
        b"",
        b"upc: refused at 1:26: typing 2\n",
    ),
    (
        b"shared int upc_all_alloc; int main(){return 0;}",
        101,
        b"",
        b"upc: refused at 1:12: typing 2\n",
    ),
    // C as it stands: declarations, constants, signs, blocks.
    (b"int main(void){int i;return 0;}", 0, b"", b""),
    (b"int main(){return 2147483648;}", 99, b"", b""),
    (b"int main(){return 'a';}", 97, b"", b""),
    (b"shared [2] int x; int main(){return 0;}", 0, b"", b""),
    (b"int main(){return 1 + + 1;}", 2, b"", b""),
    (b"int main(){{} return 1;}", 1, b"", b""),
    // Values at barriers, and locks.
    (b"int main(){upc_barrier 1; return 0;}", 0, b"", b""),
    (
        b"int main(){upc_lock_t *l = upc_all_lock_alloc(); upc_lock(l); upc_lock(l); return 0;}",
        105,
        b"",
        b"upc: run error E13 at 1:63 on thread 0\n",
    ),
    // Memory calls, and the collective functions of UPC 7.3.
    (
        b"shared char a[4]; int main(){upc_memset(a, 7, 3); return a[2] - a[3];}",
        7,
        b"",
        b"",
    ),
    (
        b"shared [] int a[2]; int main(){int b[2]; a[1] = 5; upc_memget(b, a, 8); return b[1];}",
        5,
        b"",
        b"",
    ),
    (
        b"shared int a; shared int b; int main(){b = 9; upc_all_exchange(&a, &b, 4, 0); return a;}",
        9,
        b"",
        b"",
    ),
    (
        b"shared int a[3], s; int main(){a[2] = 4; upc_all_reduceI(&s, a, UPC_ADD, 3, 1, 0, 0); return s;}",
        4,
        b"",
        b"",
    ),
    (
        b"shared char a[4]; int main(){upc_memset(a, 0, 5); return 0;}",
        105,
        b"",
        b"upc: run error E5 at 1:30 on thread 0\n",
    ),
];

const ONE_THREAD: [&str; 4] = ["run", "-T", "1", "f.upc"];

fn row_of((source, status, out, err): &Program) -> Row {
    Row {
        words: &ONE_THREAD,
        source,
        record: b"",
        failing_reads: &[],
        failing_puts: &[],
        status: *status,
        out,
        err,
        ran: *status != 101,
    }
}

fn record_of((record, status, out, err): &Record) -> Row {
    Row {
        words: &["verify", "-T", "1", "f.upc", "f.rec"],
        source: b"int main(){return 0;}",
        record,
        failing_reads: &[],
        failing_puts: &[],
        status: *status,
        out,
        err,
        ran: false,
    }
}

fn usage_of(words: &&'static [&'static str]) -> Row {
    called(&(*words, SUM, 100, b"", b"upc: usage\n"))
}

// Whether the word is a mode that runs the source.
fn runs(word: &str) -> bool {
    word == "run" || word == "record" || word == "sample" || word == "races" || word == "replica"
}

// Whether the source is to run with a copy of the shared memory for each thread.
fn copies(words: &[&str]) -> bool {
    words.iter().any(|word| *word == "replica")
}

fn called((words, source, status, out, err): &Call) -> Row {
    Row {
        words,
        source,
        record: b"",
        failing_reads: &[],
        failing_puts: &[],
        status: *status,
        out,
        err,
        ran: !matches!(*status, 100 | 101) && words.iter().any(|word| runs(word)),
    }
}

// What a call answers: its status, what was taken, and whether there is a run and a refusal.
#[derive(Clone, Copy)]
struct Answer {
    status: u8,
    out: bool,
    err: bool,
    ran: bool,
    refused: bool,
}

// What the call of a row answers, over memory.
fn answer_to<R: Threads + Wait + Sync>(rt: &R, alloc: Global, row: &Row) -> Result<Answer, Fail> {
    let mut words = Vec::new(alloc);
    for word in row.words {
        words.push(String::from_str(alloc, word)?)?;
    }
    let mut files = MemFiles::make(alloc, row.failing_reads, 32)?;
    files.add("f.upc", row.source)?;
    files.add("f.rec", row.record)?;
    let mut out = MemSink::make(alloc, row.failing_puts, 2)?;
    let mut err = MemSink::make(alloc, &[], 64)?;
    let done = upc_main(
        rt,
        alloc,
        words.as_slice(),
        &mut files,
        &mut out,
        &mut err,
        &OpenGate,
    );
    Ok(Answer {
        status: done.status,
        out: out.taken() == row.out,
        err: err.taken() == row.err,
        ran: if copies(row.words) {
            done.replica.is_some() && done.journal.is_none()
        } else {
            done.journal.is_some() && done.replica.is_none()
        },
        refused: done.refusal.is_some(),
    })
}

fn is_answered<R: Threads + Wait + Sync>(rt: &R, alloc: Global, row: &Row) -> Result<bool, Fail> {
    let found = answer_to(rt, alloc, row)?;
    Ok(
        found.status == row.status
            && found.out
            && found.err
            && found.ran == row.ran
            && found.refused == (row.status == 101),
    )
}

#[test]
fn answers(rt: HostRuntime) -> Result<(), Fail> {
    for row in &ROWS {
        assert!(rt; is_answered(&rt, rt.alloc(), row)?);
    }
    for (number, program) in PROGRAMS.iter().enumerate() {
        assert!(rt;
            is_answered(&rt, rt.alloc(), &row_of(program))?,
            "program {number}"
        );
    }
    for (number, words) in USAGES.iter().enumerate() {
        assert!(rt;
            is_answered(&rt, rt.alloc(), &usage_of(words))?,
            "usage {number}"
        );
    }
    for (number, record) in RECORDS.iter().enumerate() {
        assert!(rt;
            is_answered(&rt, rt.alloc(), &record_of(record))?,
            "record {number}"
        );
    }
    for (number, call) in CALLS.iter().enumerate() {
        assert!(rt;
            is_answered(&rt, rt.alloc(), &called(call))?,
            "call {number}"
        );
    }
    Ok(())
}
