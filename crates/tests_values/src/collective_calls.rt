//! Worked collective calls, each by the replies that it is given; each wish is asked for twice.

use collectives::{CollWish, Collective};
use std::alloc::{AllocError as OutOfMemory, Global};
use std::test::Fail;
use upc_values::{Action, Cells, Kind, Mark, ObjectRef, Refused, Reply, Scalar, Shape, SharedPtr};

// A step of a test: reads and writes by object, thread and offset, writes with their number.
#[derive(Clone, Copy, PartialEq, Eq)]
enum Row {
    Meet(u8),
    Notify,
    Wait,
    Read(u32, u32, u32),
    Write(u32, u32, u32, i128),
    Other,
}

#[derive(Clone, Copy, PartialEq, Eq)]
enum Last {
    Asks(Row),
    Done,
    Fails(u8),
}

// A thread of a run, with the program's shapes.
#[derive(Clone, Copy)]
struct Thread<'a> {
    number: u32,
    threads: u32,
    shapes: &'a [Shape],
}

fn number_of(value: Scalar) -> i128 {
    match value {
        Scalar::Int(v) => v,
        _ => -99,
    }
}

fn row_of(action: &Action) -> Row {
    match action {
        Action::Meet { call, .. } => Row::Meet(*call),
        Action::Notify(Mark::Absent) => Row::Notify,
        Action::Wait(Mark::Absent) => Row::Wait,
        Action::Read { loc, strict: false } => Row::Read(loc.object, loc.thread, loc.offset),
        Action::Write {
            loc,
            value,
            strict: false,
        } => Row::Write(loc.object, loc.thread, loc.offset, number_of(*value)),
        _ => Row::Other,
    }
}

fn last_of(wish: &CollWish) -> Last {
    match wish {
        CollWish::Act(action) => Last::Asks(row_of(action)),
        CollWish::Finished => Last::Done,
    }
}

// What is asked for next, by a reply if there is one.
fn asked(
    alloc: Global,
    call: &mut Collective,
    reply: Option<&Reply>,
    shapes: &[Shape],
) -> Result<Last, OutOfMemory> {
    match call.next(alloc, reply, shapes) {
        Ok(wish) => Ok(last_of(&wish)),
        Err(Refused::Error(code)) => Ok(Last::Fails(code)),
        Err(Refused::Memory) => Err(OutOfMemory),
    }
}

// The call once it is made, or its run error.
fn made(
    alloc: Global,
    thread: &Thread<'_>,
    call: u8,
    args: &[Scalar],
) -> Result<Result<Collective, u8>, OutOfMemory> {
    if thread.threads == 0 || thread.threads > 32 {
        return Ok(Err(0));
    }
    match Collective::make(alloc, call, args, thread.number, thread.threads) {
        Ok(call) => Ok(Ok(call)),
        Err(Refused::Error(code)) => Ok(Err(code)),
        Err(Refused::Memory) => Err(OutOfMemory),
    }
}

// Whether these are the steps and the end of a call by these replies, of which there may be more.
fn walks(
    alloc: Global,
    call: &mut Collective,
    shapes: &[Shape],
    replies: &[Reply],
    rows: &[Row],
    last: Last,
) -> Result<bool, OutOfMemory> {
    let mut now = asked(alloc, call, None, shapes)?;
    for (row, reply) in rows.iter().zip(replies) {
        if now != Last::Asks(*row) || asked(alloc, call, None, shapes)? != now {
            return Ok(false);
        }
        now = asked(alloc, call, Some(reply), shapes)?;
    }
    Ok(rows.len() <= replies.len() && now == last)
}

// Whether a collective call takes these steps and has this end.
fn tells(
    alloc: Global,
    thread: &Thread<'_>,
    call: u8,
    args: &[Scalar],
    replies: &[Reply],
    rows: &[Row],
    last: Last,
) -> Result<bool, OutOfMemory> {
    match made(alloc, thread, call, args)? {
        Ok(mut call) => walks(alloc, &mut call, thread.shapes, replies, rows, last),
        Err(code) => Ok(rows.is_empty() && last == Last::Fails(code)),
    }
}

// Whether it takes the first of these steps, so many, and has this end.
fn begins(
    alloc: Global,
    thread: &Thread<'_>,
    call: u8,
    args: &[Scalar],
    replies: &[Reply],
    (rows, count): (&[Row], usize),
    last: Last,
) -> Result<bool, OutOfMemory> {
    if count > rows.len() {
        return Ok(false);
    }
    tells(alloc, thread, call, args, replies, &rows[..count], last)
}

// The shapes of elements of these sizes, each of one cell.
fn shapes_of(alloc: Global, elements: &[(u32, Kind)]) -> Result<Vec<Shape>, OutOfMemory> {
    let mut list = Vec::new(alloc);
    for (size, kind) in elements {
        let cells = Vec::from_array(alloc, [(0, *kind)])?;
        list.push(Shape {
            size: *size,
            cells: Cells::from_vec(cells),
        })?;
    }
    Ok(list)
}

// Elements of type int, and of type pointer-to-shared.
const ELEMENTS: [(u32, Kind); 2] = [(4, Kind::Int), (16, Kind::Shared(0, 1))];

fn start_of(number: u32, total: u32, block: u32) -> SharedPtr {
    SharedPtr {
        object: ObjectRef {
            number,
            total,
            block,
            home: 0,
            shape: 0,
            base: 0,
        },
        thread: 0,
        phase: 0,
        offset: 0,
    }
}

fn value(v: i128) -> Reply {
    Reply::Value(Scalar::Int(v))
}

fn four(dst: SharedPtr, src: SharedPtr, bytes: i128, flags: i128) -> [Scalar; 4] {
    [
        Scalar::Shared(dst),
        Scalar::Shared(src),
        Scalar::Int(bytes),
        Scalar::Int(flags),
    ]
}

// shared [] int s[8]; shared [2] int d[8]; on four threads
const S: SharedPtr = SharedPtr {
    object: ObjectRef {
        number: 1,
        total: 32,
        block: 0,
        home: 0,
        shape: 0,
        base: 0,
    },
    thread: 0,
    phase: 0,
    offset: 0,
};

const D: SharedPtr = SharedPtr {
    object: ObjectRef {
        number: 2,
        total: 32,
        block: 8,
        home: 0,
        shape: 0,
        base: 0,
    },
    thread: 0,
    phase: 0,
    offset: 0,
};

#[test]
fn scatter(rt: HostRuntime) -> Result<(), Fail> {
    let alloc = rt.alloc();
    let shapes = shapes_of(alloc, &ELEMENTS)?;
    let thread = Thread {
        number: 2,
        threads: 4,
        shapes: shapes.as_slice(),
    };
    let replies = [
        Reply::Done,
        Reply::Done,
        Reply::Done,
        value(5),
        Reply::Done,
        value(6),
        Reply::Done,
        Reply::Done,
        Reply::Done,
    ];
    let rows = [
        Row::Meet(6),
        Row::Notify,
        Row::Wait,
        Row::Read(1, 0, 16),
        Row::Write(2, 2, 0, 5),
        Row::Read(1, 0, 20),
        Row::Write(2, 2, 4, 6),
        Row::Notify,
        Row::Wait,
    ];
    let args = four(D, S, 8, 0);
    assert!(rt; tells(alloc, &thread, 6, &args, &replies, &rows, Last::Done)?);
    for k in 0..9 {
        let last = Last::Asks(rows[k]);
        assert!(rt; tells(alloc, &thread, 6, &args, &replies[..k], &rows[..k], last)?);
    }
    Ok(())
}

// The first element of d on another thread, an offset outside its range, and d with elements of pointers.
const ELSEWHERE: SharedPtr = SharedPtr {
    object: ObjectRef {
        number: 2,
        total: 32,
        block: 8,
        home: 0,
        shape: 0,
        base: 0,
    },
    thread: 1,
    phase: 0,
    offset: 0,
};

const FAR: SharedPtr = SharedPtr {
    object: ObjectRef {
        number: 2,
        total: 32,
        block: 8,
        home: 0,
        shape: 0,
        base: 0,
    },
    thread: 0,
    phase: 0,
    offset: 1_099_511_627_776,
};

const POINTERS: SharedPtr = SharedPtr {
    object: ObjectRef {
        number: 2,
        total: 32,
        block: 8,
        home: 0,
        shape: 1,
        base: 0,
    },
    thread: 0,
    phase: 0,
    offset: 0,
};

// Arguments are refused before the call; then 3 bytes cut an int, 12 bytes leave the pieces of d, an offset leaves its
// range, and a pointer is no int. Each row has what is copied where, the flags, whether the call is met, and its code.
const REFUSED: [(SharedPtr, SharedPtr, i128, i128, bool, u8); 11] = [
    (ELSEWHERE, S, 8, 0, false, 22),
    (SharedPtr::NULL, S, 8, 3, false, 4),
    (D, SharedPtr::NULL, 8, 0, false, 4),
    (D, S, 8, 3, false, 22),
    (D, S, 8, 64, false, 22),
    (D, S, 8, -1, false, 22),
    (D, S, 16_777_217, 0, false, 22),
    (D, S, 3, 9, true, 18),
    (D, S, 12, 9, true, 5),
    (FAR, S, 8, 9, true, 8),
    (POINTERS, S, 8, 9, true, 18),
];

#[test]
fn refusals(rt: HostRuntime) -> Result<(), Fail> {
    let alloc = rt.alloc();
    let shapes = shapes_of(alloc, &ELEMENTS)?;
    let thread = Thread {
        number: 2,
        threads: 4,
        shapes: shapes.as_slice(),
    };
    let met = [Row::Meet(6)];
    let replies = [Reply::Done];
    for (dst, src, bytes, flags, is_met, code) in &REFUSED {
        let args = four(*dst, *src, *bytes, *flags);
        let (given, steps): (&[Reply], &[Row]) = if *is_met {
            (&replies, &met)
        } else {
            (&[], &[])
        };
        let last = Last::Fails(*code);
        assert!(rt; tells(alloc, &thread, 6, &args, given, steps, last)?);
    }
    let args = four(D, S, 0, 9);
    assert!(rt; tells(alloc, &thread, 6, &args, &replies, &met, Last::Done)?);
    assert!(rt;
        tells(
            alloc,
            &thread,
            6,
            &args,
            &[Reply::Refused(17)],
            &met,
            Last::Fails(17)
        )?
    );
    Ok(())
}

// shared [1] int b[2], c[2]; on two threads, each call without barriers, by both threads: the call, the thread, the
// blocks of what is written and of what is read, and where the thread reads and writes.
const ONE_INT: [(u8, u32, u32, u32, &[Row]); 6] = [
    (
        5,
        1,
        8,
        0,
        &[Row::Meet(5), Row::Read(1, 0, 0), Row::Write(2, 1, 0, 7)],
    ),
    (
        6,
        1,
        8,
        0,
        &[Row::Meet(6), Row::Read(1, 0, 4), Row::Write(2, 1, 0, 7)],
    ),
    (
        7,
        0,
        0,
        8,
        &[
            Row::Meet(7),
            Row::Read(1, 0, 0),
            Row::Write(2, 0, 0, 7),
            Row::Read(1, 1, 0),
            Row::Write(2, 0, 4, 8),
        ],
    ),
    (7, 1, 0, 8, &[Row::Meet(7)]),
    (
        8,
        1,
        8,
        8,
        &[
            Row::Meet(8),
            Row::Read(1, 0, 0),
            Row::Write(2, 1, 0, 7),
            Row::Read(1, 1, 0),
            Row::Write(2, 1, 4, 8),
        ],
    ),
    (
        9,
        1,
        8,
        8,
        &[
            Row::Meet(9),
            Row::Read(1, 0, 4),
            Row::Write(2, 1, 0, 7),
            Row::Read(1, 1, 4),
            Row::Write(2, 1, 4, 8),
        ],
    ),
];

#[test]
fn one_int_of_each_thread(rt: HostRuntime) -> Result<(), Fail> {
    let alloc = rt.alloc();
    let shapes = shapes_of(alloc, &ELEMENTS)?;
    let replies = [Reply::Done, value(7), Reply::Done, value(8), Reply::Done];
    for (call, number, into, from, rows) in &ONE_INT {
        let thread = Thread {
            number: *number,
            threads: 2,
            shapes: shapes.as_slice(),
        };
        let args = four(start_of(2, 16, *into), start_of(1, 16, *from), 4, 9);
        assert!(rt; tells(alloc, &thread, *call, &args, &replies, rows, Last::Done)?);
    }
    Ok(())
}

fn five(bytes: i128) -> [Scalar; 5] {
    [
        Scalar::Shared(start_of(2, 16, 8)),
        Scalar::Shared(start_of(1, 16, 8)),
        Scalar::Shared(start_of(3, 8, 4)),
        Scalar::Int(bytes),
        Scalar::Int(9),
    ]
}

#[test]
fn permute(rt: HostRuntime) -> Result<(), Fail> {
    let alloc = rt.alloc();
    let shapes = shapes_of(alloc, &ELEMENTS)?;
    let thread = Thread {
        number: 0,
        threads: 2,
        shapes: shapes.as_slice(),
    };
    let rows = [
        Row::Meet(10),
        Row::Read(3, 0, 0),
        Row::Read(3, 1, 0),
        Row::Read(1, 1, 0),
        Row::Write(2, 0, 0, 7),
    ];
    let swapped = [Reply::Done, value(1), value(0), value(7), Reply::Done];
    assert!(rt; tells(alloc, &thread, 10, &five(4), &swapped, &rows, Last::Done)?);
    assert!(rt;
        tells(
            alloc,
            &thread,
            10,
            &five(0),
            &swapped,
            &rows[..3],
            Last::Done
        )?
    );
    let twice = [Reply::Done, value(1), value(1)];
    assert!(rt;
        tells(
            alloc,
            &thread,
            10,
            &five(4),
            &twice,
            &rows[..3],
            Last::Fails(22)
        )?
    );
    let (wide, cut) = (five(12), five(3));
    let (range, kind) = (Last::Fails(5), Last::Fails(18));
    assert!(rt; tells(alloc, &thread, 10, &wide, &twice, &rows[..1], range)?);
    assert!(rt; tells(alloc, &thread, 10, &cut, &twice, &rows[..1], kind)?);
    Ok(())
}

fn seven(dst: SharedPtr, op: i128, count: i128, block: i128, kind: i128) -> [Scalar; 7] {
    [
        Scalar::Shared(dst),
        Scalar::Shared(D),
        Scalar::Int(op),
        Scalar::Int(count),
        Scalar::Int(block),
        Scalar::Int(kind),
        Scalar::Int(9),
    ]
}

// A thread, and how many steps it takes.
const REDUCERS: [(u32, usize); 2] = [(0, 6), (1, 1)];

// An operator, how many elements, the number of their type, how many steps are taken, and the code.
const UNREDUCED: [(i128, i128, i128, usize, u8); 4] = [
    (3, 4, 4, 0, 22),
    (1, 0, 4, 0, 22),
    (1, 4, 5, 1, 18),
    (1, 40, 4, 1, 5),
];

// The sum of d into r, by the thread of r alone.
#[test]
fn reduce(rt: HostRuntime) -> Result<(), Fail> {
    let alloc = rt.alloc();
    let shapes = shapes_of(alloc, &ELEMENTS)?;
    let r = start_of(3, 4, 4);
    let rows = [
        Row::Meet(11),
        Row::Read(2, 0, 0),
        Row::Read(2, 0, 4),
        Row::Read(2, 1, 0),
        Row::Read(2, 1, 4),
        Row::Write(3, 0, 0, 10),
    ];
    let replies = [
        Reply::Done,
        value(1),
        value(2),
        value(3),
        value(4),
        Reply::Done,
    ];
    let args = seven(r, 1, 4, 2, 4);
    for (number, steps) in &REDUCERS {
        let thread = Thread {
            number: *number,
            threads: 4,
            shapes: shapes.as_slice(),
        };
        let part = (rows.as_slice(), *steps);
        assert!(rt; begins(alloc, &thread, 11, &args, &replies, part, Last::Done)?);
    }
    let thread = Thread {
        number: 0,
        threads: 4,
        shapes: shapes.as_slice(),
    };
    let large = [Reply::Done, value(2_147_483_647), value(1)];
    assert!(rt;
        tells(
            alloc,
            &thread,
            11,
            &seven(r, 1, 4, 2, 4),
            &large,
            &rows[..3],
            Last::Fails(1)
        )?
    );
    for (op, count, kind, met, code) in &UNREDUCED {
        let args = seven(r, *op, *count, 2, *kind);
        let part = (rows.as_slice(), *met);
        assert!(rt;
            begins(
                alloc,
                &thread,
                11,
                &args,
                &replies,
                part,
                Last::Fails(*code)
            )?
        );
    }
    Ok(())
}

// The size of a type's elements and its kind, its number, an operator, two numbers, and what the operator makes of
// them.
const OPERATIONS: [(u32, Kind, i128, i128, i128, i128, Last); 13] = [
    (
        4,
        Kind::Int,
        4,
        2,
        6,
        7,
        Last::Asks(Row::Write(3, 0, 0, 42)),
    ),
    (
        4,
        Kind::Int,
        4,
        4,
        12,
        10,
        Last::Asks(Row::Write(3, 0, 0, 8)),
    ),
    (
        4,
        Kind::Int,
        4,
        8,
        12,
        10,
        Last::Asks(Row::Write(3, 0, 0, 14)),
    ),
    (
        4,
        Kind::Int,
        4,
        16,
        12,
        -1,
        Last::Asks(Row::Write(3, 0, 0, -13)),
    ),
    (
        4,
        Kind::Int,
        4,
        32,
        2,
        0,
        Last::Asks(Row::Write(3, 0, 0, 0)),
    ),
    (
        4,
        Kind::Int,
        4,
        64,
        0,
        5,
        Last::Asks(Row::Write(3, 0, 0, 1)),
    ),
    (
        4,
        Kind::Int,
        4,
        128,
        -3,
        5,
        Last::Asks(Row::Write(3, 0, 0, -3)),
    ),
    (
        4,
        Kind::Int,
        4,
        256,
        -3,
        5,
        Last::Asks(Row::Write(3, 0, 0, 5)),
    ),
    (4, Kind::Int, 4, 2, 65_536, 65_536, Last::Fails(1)),
    (
        1,
        Kind::UChar,
        1,
        1,
        200,
        100,
        Last::Asks(Row::Write(3, 0, 0, 44)),
    ),
    (
        1,
        Kind::Char,
        0,
        1,
        100,
        100,
        Last::Asks(Row::Write(3, 0, 0, -56)),
    ),
    (
        4,
        Kind::UInt,
        5,
        2,
        65_536,
        65_537,
        Last::Asks(Row::Write(3, 0, 0, 65_536)),
    ),
    (
        8,
        Kind::ULong,
        7,
        2,
        18_446_744_073_709_551_615,
        18_446_744_073_709_551_615,
        Last::Asks(Row::Write(3, 0, 0, 1)),
    ),
];

// Each operand is read as the call says.
#[test]
fn operators(rt: HostRuntime) -> Result<(), Fail> {
    let alloc = rt.alloc();
    let r = start_of(3, 8, 8);
    let rows = [Row::Meet(11), Row::Read(2, 0, 0), Row::Read(2, 1, 0)];
    for (size, element, kind, op, a, b, want) in &OPERATIONS {
        let shapes = shapes_of(alloc, &[(*size, *element)])?;
        let thread = Thread {
            number: 0,
            threads: 2,
            shapes: shapes.as_slice(),
        };
        let replies = [Reply::Done, value(*a), value(*b)];
        let args = seven(r, *op, 2, 1, *kind);
        assert!(rt; tells(alloc, &thread, 11, &args, &replies, &rows, *want)?);
    }
    Ok(())
}

#[test]
fn prefixes(rt: HostRuntime) -> Result<(), Fail> {
    let alloc = rt.alloc();
    let shapes = shapes_of(alloc, &ELEMENTS)?;
    let thread = Thread {
        number: 0,
        threads: 2,
        shapes: shapes.as_slice(),
    };
    let c = start_of(3, 32, 8);
    let replies = [
        Reply::Done,
        value(2),
        Reply::Done,
        value(3),
        Reply::Done,
        value(4),
        Reply::Done,
    ];
    let rows = [
        Row::Meet(12),
        Row::Read(2, 0, 0),
        Row::Write(3, 0, 0, 2),
        Row::Read(2, 0, 4),
        Row::Write(3, 0, 4, 6),
        Row::Read(2, 1, 0),
        Row::Write(3, 1, 0, 24),
    ];
    assert!(rt;
        tells(
            alloc,
            &thread,
            12,
            &seven(c, 2, 3, 2, 4),
            &replies,
            &rows,
            Last::Done
        )?
    );
    let askew = SharedPtr { phase: 1, ..c };
    assert!(rt;
        tells(
            alloc,
            &thread,
            12,
            &seven(askew, 2, 3, 2, 4),
            &replies,
            &[],
            Last::Fails(22)
        )?
    );
    Ok(())
}

// A wait that is refused, at the entry and at the exit.
#[test]
fn waits(rt: HostRuntime) -> Result<(), Fail> {
    let alloc = rt.alloc();
    let shapes = shapes_of(alloc, &ELEMENTS)?;
    let thread = Thread {
        number: 0,
        threads: 4,
        shapes: shapes.as_slice(),
    };
    let args = four(D, S, 0, 0);
    let rows = [Row::Meet(5), Row::Notify, Row::Wait, Row::Notify, Row::Wait];
    let done = [Reply::Done; 5];
    let entry = [Reply::Done, Reply::Done, Reply::Refused(11)];
    let exit = [
        Reply::Done,
        Reply::Done,
        Reply::Done,
        Reply::Done,
        Reply::Refused(11),
    ];
    let barred = Last::Fails(11);
    assert!(rt; tells(alloc, &thread, 5, &args, &done, &rows, Last::Done)?);
    assert!(rt; tells(alloc, &thread, 5, &args, &entry, &rows[..3], barred)?);
    assert!(rt; tells(alloc, &thread, 5, &args, &exit, &rows, barred)?);
    Ok(())
}

// The kind of the cell that is read is told, and none where anything else is asked for.
#[test]
fn kinds(rt: HostRuntime) -> Result<(), Fail> {
    let alloc = rt.alloc();
    let shapes = shapes_of(alloc, &ELEMENTS)?;
    let args = four(start_of(2, 16, 8), start_of(1, 16, 8), 4, 9);
    let Ok(mut call) = Collective::make(alloc, 9, &args, 0, 2) else {
        assert!(rt; false);
        return Ok(());
    };
    assert!(rt; call.reads().is_none());
    let meet = asked(alloc, &mut call, Some(&Reply::Done), shapes.as_slice())?;
    assert!(rt; meet == Last::Asks(Row::Read(1, 0, 0)));
    assert_eq!(rt; call.reads(), Some(Kind::Int));
    let read = asked(alloc, &mut call, Some(&value(5)), shapes.as_slice())?;
    assert!(rt; read == Last::Asks(Row::Write(2, 0, 0, 5)));
    assert!(rt; call.reads().is_none());
    Ok(())
}
