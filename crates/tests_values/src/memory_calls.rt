//! Memory calls, step by step, by the replies that they are given.

ghost use Rattle.std.specs.Prelude.{IsTrue};
ghost use Rattle.block_layout.specs.Shapes.{IsShape};

use block_layout::{Cells, Kind, LocalPtr, ObjectRef, Shape, SharedPtr};
use std::alloc::{AllocError as OutOfMemory, Global};
use std::slice;
use std::test::Fail;
use upc_library::{CopySpec, CopyWish, Copying, Side};
use upc_values::{Action, Refused, Reply, Scalar};

// What a call asks for: accesses by object, thread and offset, writes with their number.
#[derive(Clone, Copy, PartialEq, Eq)]
enum Row {
    Read(u32, u32, u32),
    Write(u32, u32, u32, i128),
    Load(u64, i64),
    Store(u64, i64, i128),
    Finished,
    Other,
}

// What a call is given.
#[derive(Clone, Copy)]
enum Given {
    Nothing,
    Value(i128),
    Done,
}

fn number_of(value: Scalar) -> i128 {
    match value {
        Scalar::Int(v) => v,
        _ => -99,
    }
}

fn row_of_action(action: &Action) -> Row {
    match action {
        Action::Read { loc, strict: false } => Row::Read(loc.object, loc.thread, loc.offset),
        Action::Write {
            loc,
            value,
            strict: false,
        } => Row::Write(loc.object, loc.thread, loc.offset, number_of(*value)),
        _ => Row::Other,
    }
}

fn row_of(wish: &CopyWish) -> Row {
    match wish {
        CopyWish::Act(action) => row_of_action(action),
        CopyWish::LoadPrivate(LocalPtr::Private { object, offset }, _) => {
            Row::Load(*object, *offset)
        }
        CopyWish::StorePrivate(LocalPtr::Private { object, offset }, _, value) => {
            Row::Store(*object, *offset, number_of(*value))
        }
        CopyWish::Finished => Row::Finished,
        _ => Row::Other,
    }
}

fn asked(call: &mut Copying, given: Given) -> Row {
    match given {
        Given::Nothing => row_of(&call.next(None)),
        Given::Value(v) => row_of(&call.next(Some(&Reply::Value(Scalar::Int(v))))),
        Given::Done => row_of(&call.next(Some(&Reply::Done))),
    }
}

// Whether a call asks for these in order, for each as often as it is given nothing, and is finished after the last.
fn asks_for(call: &mut Copying, rows: &[(Row, Given)]) -> bool {
    for (row, given) in rows {
        if asked(call, Given::Nothing) != *row || asked(call, Given::Nothing) != *row {
            return false;
        }
        let is_read = matches!(row, Row::Read(_, _, _));
        if call.reads().is_some() != is_read {
            return false;
        }
        asked(call, *given);
    }
    asked(call, Given::Nothing) == Row::Finished
}

fn is_shape(shape: &Shape) -> bool
    ensures { IsTrue result → IsShape shape.now }
{
    shape.size > 0 && shape.cells.lie_within(shape.size)
}

// A call of four threads in a program whose only shape this is; the private object that it names has it too, or has
// ended.
fn begun(alloc: Global, shape: &Shape, spec: &CopySpec, is_live: bool) -> Result<Copying, Refused> {
    if !is_shape(shape) {
        return Err(Refused::Memory);
    }
    let shapes = slice::from_ref(shape);
    if is_live {
        Copying::make(alloc, spec, shapes, Some(shape), 4)
    } else {
        Copying::make(alloc, spec, shapes, None, 4)
    }
}

// Whether a call asks for just these.
fn goes(
    alloc: Global,
    shape: &Shape,
    spec: &CopySpec,
    rows: &[(Row, Given)],
) -> Result<bool, Fail> {
    match begun(alloc, shape, spec, true) {
        Ok(mut call) => Ok(asks_for(&mut call, rows)),
        Err(Refused::Memory) => Err(Fail::from(OutOfMemory)),
        Err(Refused::Error(_)) => Ok(false),
    }
}

// Whether a call is refused by this code.
fn fails(
    alloc: Global,
    shape: &Shape,
    spec: &CopySpec,
    is_live: bool,
    code: u8,
) -> Result<bool, Fail> {
    match begun(alloc, shape, spec, is_live) {
        Err(Refused::Memory) => Err(Fail::from(OutOfMemory)),
        Err(Refused::Error(found)) => Ok(found == code),
        Ok(_) => Ok(false),
    }
}

// An element of one cell.
fn of_one(alloc: Global, size: u32, kind: Kind) -> Result<Shape, OutOfMemory> {
    let cells = Vec::from_array(alloc, [(0, kind)])?;
    Ok(Shape {
        size,
        cells: Cells::from_vec(cells),
    })
}

// struct { int a; char c; }, of eight bytes
fn of_two(alloc: Global) -> Result<Shape, OutOfMemory> {
    let cells = Vec::from_array(alloc, [(0, Kind::Int), (4, Kind::Char)])?;
    Ok(Shape {
        size: 8,
        cells: Cells::from_vec(cells),
    })
}

// A pointer to the first element of an array.
fn start_of(number: u32, total: u32, block: u32) -> SharedPtr {
    SharedPtr {
        object: ObjectRef {
            number,
            total,
            block,
            home: 0,
            shape: 0,
            base: 0,
        },
        thread: 0,
        phase: 0,
        offset: 0,
    }
}

fn shared(p: SharedPtr) -> Side {
    Side::Shared(p)
}

// A byte of the private object 9.
fn own(offset: i64) -> Side {
    Side::Local(LocalPtr::Private { object: 9, offset })
}

fn copy(dst: Side, src: Side, bytes: u64) -> CopySpec {
    CopySpec {
        set: false,
        dst,
        src,
        bytes,
        byte: 0,
    }
}

fn fill(dst: Side, byte: u8, bytes: u64) -> CopySpec {
    CopySpec {
        set: true,
        dst,
        src: Side::Local(LocalPtr::Null),
        bytes,
        byte,
    }
}

// shared [] int s[8]; shared [2] int d[8]; and the third int of d, which is on thread 1 with no other after it there.
#[test]
fn copies(rt: HostRuntime) -> Result<(), Fail> {
    let alloc = rt.alloc();
    let int = of_one(alloc, 4, Kind::Int)?;
    let from = shared(start_of(1, 32, 0));
    let into = shared(SharedPtr {
        thread: 1,
        offset: 4,
        ..start_of(2, 32, 8)
    });
    let read = (Row::Read(1, 0, 0), Given::Value(7));
    let load = (Row::Load(9, 0), Given::Value(7));
    let write = (Row::Write(2, 1, 4, 7), Given::Done);
    let store = (Row::Store(9, 0, 7), Given::Done);
    assert!(rt; goes(alloc, &int, &copy(into, from, 4), &[read, write])?);
    assert!(rt; goes(alloc, &int, &copy(into, from, 0), &[])?);
    assert!(rt; goes(alloc, &int, &copy(own(0), from, 4), &[read, store])?);
    assert!(rt; goes(alloc, &int, &copy(into, own(0), 4), &[load, write])?);
    assert!(rt;
        fails(
            alloc,
            &int,
            &copy(into, shared(SharedPtr::NULL), 4),
            true,
            4
        )?
    );
    assert!(rt; fails(alloc, &int, &copy(into, from, 8), true, 5)?);
    assert!(rt; fails(alloc, &int, &copy(own(0), from, 8), true, 6)?);
    assert!(rt; fails(alloc, &int, &copy(into, from, 2), true, 18)?);
    assert!(rt; fails(alloc, &int, &copy(into, own(0), 4), false, 6)?);
    Ok(())
}

// shared [] struct s[2]; shared [1] struct d[8], and its second element of thread 1.
#[test]
fn copies_of_members(rt: HostRuntime) -> Result<(), Fail> {
    let alloc = rt.alloc();
    let both = of_two(alloc)?;
    let from = start_of(1, 16, 0);
    let into = shared(SharedPtr {
        thread: 1,
        offset: 8,
        ..start_of(2, 64, 8)
    });
    let second = shared(SharedPtr { offset: 4, ..from });
    let from = shared(from);
    let rows = [
        (Row::Read(1, 0, 0), Given::Value(7)),
        (Row::Write(2, 1, 8, 7), Given::Done),
        (Row::Read(1, 0, 4), Given::Value(8)),
        (Row::Write(2, 1, 12, 8), Given::Done),
    ];
    let one = [
        (Row::Read(1, 0, 4), Given::Value(8)),
        (Row::Store(9, 4, 8), Given::Done),
    ];
    assert!(rt; goes(alloc, &both, &copy(into, from, 8), &rows)?);
    assert!(rt; goes(alloc, &both, &copy(own(4), second, 4), &one)?);
    assert!(rt; fails(alloc, &both, &copy(into, from, 16), true, 5)?);
    assert!(rt; fails(alloc, &both, &copy(own(1), from, 8), true, 6)?);
    assert!(rt; fails(alloc, &both, &copy(own(4), from, 4), true, 18)?);
    Ok(())
}

#[test]
fn fills(rt: HostRuntime) -> Result<(), Fail> {
    let alloc = rt.alloc();
    let int = of_one(alloc, 4, Kind::Int)?;
    let into = shared(start_of(2, 32, 8));
    let null = shared(SharedPtr::NULL);
    let rows = [
        (Row::Write(2, 0, 0, -1), Given::Done),
        (Row::Write(2, 0, 4, -1), Given::Done),
    ];
    assert!(rt; goes(alloc, &int, &fill(into, 255, 8), &rows)?);
    assert!(rt; goes(alloc, &int, &fill(null, 255, 0), &[])?);
    assert!(rt; fails(alloc, &int, &fill(null, 0, 4), false, 4)?);
    assert!(rt; fails(alloc, &int, &fill(into, 0, 12), false, 5)?);
    assert!(rt; fails(alloc, &int, &fill(into, 0, 2), false, 18)?);
    let pointer = of_one(alloc, 16, Kind::Shared(0, 1))?;
    assert!(rt;
        fails(
            alloc,
            &pointer,
            &fill(shared(start_of(2, 32, 16)), 0, 16),
            false,
            18
        )?
    );
    Ok(())
}
