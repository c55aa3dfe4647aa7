//! What machines ask for and how they end.

use crate::alone::code_alone;
use crate::front::program_of;
use crate::hand::code_by_hand;
use crate::words::{put_mark, put_number, word};
use gen_stmt::compile;
use stack_code::Code;
use stack_machine::{Machine, Wish};
use std::alloc::Global;
use std::test::Fail;
use typed_tree::{Expr, Item, Program, StatementKind};
use upc_text::{OutOfMemory, Stop};
use upc_values::{Action, Loc, Reply, Scalar};

fn put_access(
    text: &mut String,
    word: &'static str,
    loc: Loc,
    strict: bool,
) -> Result<(), OutOfMemory> {
    text.push_str(if strict { "strict" } else { "relaxed" })?;
    text.push_str(word)?;
    write!(
        text,
        " {} thread {} offset {}",
        loc.object, loc.thread, loc.offset
    )
}

// An action in words.
fn put_action(text: &mut String, action: &Action) -> Result<(), OutOfMemory> {
    match action {
        Action::Read { loc, strict } => put_access(text, " read", *loc, *strict),
        Action::Write { loc, value, strict } => {
            put_access(text, " write", *loc, *strict)?;
            if let Scalar::Int(number) = value {
                put_number(text, *number)?;
            }
            Ok(())
        }
        Action::Fence => text.push_str("fence"),
        Action::Beat => text.push_str("beat"),
        Action::Notify(mark) => {
            text.push_str("notify")?;
            put_mark(text, *mark)
        }
        Action::Wait(mark) => {
            text.push_str("wait")?;
            put_mark(text, *mark)
        }
        Action::Print(printed) => {
            text.push_str("print ")?;
            for byte in printed.as_slice() {
                text.push(*byte as char)?;
            }
            Ok(())
        }
        Action::Exit(value) => write!(text, "ask to exit {value}"),
        _ => text.push_str("another"),
    }
}

// Adds how a wish ends the thread, where it does.
fn put_end(text: &mut String, wish: &Wish) -> Result<(), OutOfMemory> {
    match wish {
        Wish::Act(_) => Ok(()),
        Wish::Ended(value) => write!(text, "ended {value}"),
        Wish::Exit(value) => write!(text, "exit {value}"),
        Wish::Fault(number, at) => write!(text, "fault {number} at {}:{}", at.line, at.column),
        Wish::Budget => text.push_str("budget"),
    }
}

// What the machine answers next: an action that waits for a reply, which is a read's or another one's, or the end.
#[derive(Clone, Copy)]
enum Told {
    Reads,
    Acts,
    Ends,
}

fn put_wish(text: &mut String, wish: &Wish) -> Result<Told, OutOfMemory> {
    match wish {
        Wish::Act(action) => {
            put_action(text, action)?;
            text.push_str("\n")?;
            let reads = matches!(action, Action::Read { .. });
            Ok(if reads { Told::Reads } else { Told::Acts })
        }
        _ => {
            put_end(text, wish)?;
            Ok(Told::Ends)
        }
    }
}

// Goes on with a thread by one wish.
fn tell(
    machine: &mut Machine,
    code: &Code,
    reply: Option<Reply>,
    text: &mut String,
) -> Result<Told, OutOfMemory> {
    let wish = machine.resume(code, reply)?;
    Ok(put_wish(text, &wish)?)
}

// What the thread of a row asks for in turn, a line each, to the end with its ticks. Its reads are answered by the
// values of the row in turn, and by 0 after them.
fn told_by(alloc: Global, code: &Code, row: &Row) -> Result<String, OutOfMemory> {
    let mut text = String::new(alloc);
    if row.thread >= code.threads() || row.budget < 1 {
        return Ok(text);
    }
    let mut machine = Machine::make(alloc, code, row.thread, row.budget)?;
    let mut values = row.reads.iter();
    let mut reply = None;
    for _turn in 0..1000 {
        match tell(&mut machine, code, reply, &mut text)? {
            Told::Reads => {
                let value = values.next().copied().unwrap_or(0);
                reply = Some(Reply::Value(Scalar::Int(value)));
            }
            Told::Acts => reply = Some(Reply::Done),
            Told::Ends => {
                writeln!(text, ", ticks {}", machine.ticks())?;
                return Ok(text);
            }
        }
    }
    Ok(text)
}

// What main returns first.
fn returned(program: &Program) -> Option<&Expr> {
    let main = program.functions().first()?;
    let StatementKind::Block(_, items) = &main.body.kind else {
        return None;
    };
    let Some(Item::Do(statement)) = items.as_slice().first() else {
        return None;
    };
    match &statement.kind {
        StatementKind::Return(Some(e)) => Some(e),
        _ => None,
    }
}

// What code is made of: a whole source, the expression alone that its main returns, or nothing, but by hand.
#[derive(Clone, Copy)]
enum Made {
    Whole,
    Alone,
    ByHand,
}

// A thread of so many by a source, the values that its reads are given, and the text of all that it asks for.
struct Row {
    source: &'static [u8],
    made: Made,
    threads: u32,
    thread: u32,
    budget: u64,
    reads: &'static [i128],
    told: &'static str,
}

const ROWS: [Row; 10] = [
    // What an object of the file begins with.
    Row {
        source: b"int x = 7; int main(void) { return x; }",
        made: Made::ByHand,
        threads: 1,
        thread: 0,
        budget: 1,
        reads: &[],
        told: "ended 7, ticks 0
",
    },
    // C99 6.5 (5): a sum that no int is.
    Row {
        source: b"int main(void) { return 2147483647 + 1; }",
        made: Made::Alone,
        threads: 1,
        thread: 0,
        budget: 1,
        reads: &[],
        told: "fault 1 at 1:25, ticks 0
",
    },
    // UPC 6.5.1.1: element 7 is the second of the third block.
    Row {
        source: b"shared [3] int a[20]; int main(void) { return a[7]; }",
        made: Made::Alone,
        threads: 4,
        thread: 1,
        budget: 1,
        reads: &[9],
        told: "relaxed read 1 thread 2 offset 4
ended 9, ticks 0
",
    },
    // C99 6.3.1.3: the value modulo 65,536.
    Row {
        source: b"int main(void) { return (short)40000; }",
        made: Made::Alone,
        threads: 1,
        thread: 0,
        budget: 1,
        reads: &[],
        told: "ended -25536, ticks 0
",
    },
    // Members, rows, and pointers moved, subtracted and compared: element 3 is the second of the second block.
    Row {
        source: b"struct s { int a; int b; }; shared [2] int x[8]; int m[2][3]; int main(void) { \
struct s t; struct s *p = &t; shared [2] int *q = &x[5]; int i = 1; p->b = -6; m[i][2] = ~t.b; q = q - 2; \
*q = m[1][2]; return (q - x) * 100 + (q < &x[4]) * 10 + (q == x + 3) + !i; }",
        made: Made::Whole,
        threads: 2,
        thread: 0,
        budget: 1,
        reads: &[],
        told: "notify start
wait start
relaxed write 1 thread 1 offset 4 5
notify finish
wait finish
ended 311, ticks 0
",
    },
    // Three turns back and two calls.
    Row {
        source: b"int f(int n) { switch (n) { case 1: return 10; case 2: n++; break; default: n = 0; } return n; } \
int main(void) { int r = 0; int i = 0; do { i++; if (i == 2 && r) continue; if (i > 3) break; r = r * 10 + f(i); } \
while (1); return i, r; }",
        made: Made::Whole,
        threads: 1,
        thread: 0,
        budget: 100,
        reads: &[],
        told: "notify start
wait start
notify finish
wait finish
ended 100, ticks 5
",
    },
    // Inside a upc_forall that controls, another has every turn. Five ticks of the outer one, three for each of its two
    // turns.
    Row {
        source: b"shared int a[4]; strict shared int s; int main(void) { int i; int j; int n = 0; \
upc_notify 3; upc_wait 3; upc_barrier 4; upc_fence; \
upc_forall (i = 0; i < 4; i++; i) upc_forall (j = 0; j < 2; j++; j) n += 1; \
s = n; a[3] = s; printf(\"%d\\n\", (int)upc_threadof(&a[3])); return MYTHREAD; }",
        made: Made::Whole,
        threads: 2,
        thread: 1,
        budget: 100,
        reads: &[7],
        told: "notify start
wait start
notify 3
wait 3
notify 4
wait 4
fence
strict write 2 thread 0 offset 0 4
strict read 2 thread 0 offset 0
relaxed write 1 thread 1 offset 4 7
print 1\n
notify finish
wait finish
ended 1, ticks 11
",
    },
    // A recursion of 999 calls, with main as deep as calls may be.
    Row {
        source: b"int f(int n) { if (n == 0) return 0; return 1 + f(n - 1); } int main(void) { return f(998); }",
        made: Made::Whole,
        threads: 1,
        thread: 0,
        budget: 1000,
        reads: &[],
        told: "notify start
wait start
notify finish
wait finish
ended 998, ticks 999
",
    },
    // The budget is reached inside a call.
    Row {
        source: b"int f(void) { while (1) {} return 0; } int main(void) { return f(); }",
        made: Made::Whole,
        threads: 1,
        thread: 0,
        budget: 10,
        reads: &[],
        told: "notify start
wait start
budget, ticks 10
",
    },
    // UPC 7.2.1: the thread ends at once, also inside a call.
    Row {
        source: b"int f(int n) { upc_global_exit(n); return 0; } int main(void) { return f(3); }",
        made: Made::Whole,
        threads: 1,
        thread: 0,
        budget: 10,
        reads: &[],
        told: "notify start
wait start
ask to exit 3
exit 3, ticks 1
",
    },
];

// Adds the names of the instructions of a function that are not there yet.
fn add_words(
    words: &mut Vec<&'static str>,
    code: &Code,
    function: usize,
) -> Result<(), OutOfMemory> {
    for place in 0..code.size(function) {
        if let Some(instr) = code.fetch(function, place) {
            let name = word(&instr.does);
            if !words.as_slice().iter().any(|other| *other == name) {
                words.push(name)?;
            }
        }
    }
    Ok(())
}

// The code of the expression alone that main returns.
fn alone(alloc: Global, program: &Program) -> Result<Option<Code>, OutOfMemory> {
    let whole = compile(alloc, program)?;
    match returned(program) {
        Some(e) => Ok(Some(code_alone(alloc, &whole, program, e)?)),
        None => Ok(None),
    }
}

// The code of a row.
fn code_of(alloc: Global, row: &Row) -> Result<Option<Code>, Stop> {
    let program = program_of(alloc, row.threads, row.source)?;
    match row.made {
        Made::Whole => Ok(Some(compile(alloc, &program)?)),
        Made::Alone => Ok(alone(alloc, &program)?),
        Made::ByHand => Ok(Some(code_by_hand(alloc)?)),
    }
}

// Adds the names of the instructions of code, and gives the text of what the thread of the row asks for.
fn told_of(
    alloc: Global,
    row: &Row,
    words: &mut Vec<&'static str>,
) -> Result<Option<String>, Stop> {
    let Some(code) = code_of(alloc, row)? else {
        return Ok(None);
    };
    for function in 0..code.functions() {
        add_words(words, &code, function)?;
    }
    Ok(Some(told_by(alloc, &code, row)?))
}

// Each of the 45 instructions is in the code of some row.
#[test]
fn machines_tell(rt: HostRuntime) -> Result<(), Fail> {
    let alloc = rt.alloc();
    let mut words = Vec::new(alloc);
    for (number, row) in ROWS.iter().enumerate() {
        let told = told_of(alloc, row, &mut words)?.expect(&rt, "code");
        assert_eq!(rt; told.as_str(), row.told, "{number}");
    }
    assert_eq!(rt; words.len(), 45);
    Ok(())
}
