//! Private objects: what enters and leaves, what cells hold, and what is refused.

ghost use Rattle.std.specs.Prelude.{◌<◌, ◌≤◌};

use crate::shapes::{row, two_ints};
use block_layout::run_error::{CELL_TYPE, DEPTH, NULL_ACCESS, PRIVATE_RANGE, PRIVATE_SPACE};
use private_store::{Kind, LocalPtr, MOST_CALLS, Refused, Store, Value};
use std::alloc::Global;
use std::test::Fail;
use upc_text::OutOfMemory;
use upc_values::Scalar;

// What an int at an offset of an object holds, or the code of the run error.
fn int_at(store: &Store, object: u64, offset: i64) -> Result<i128, u8> {
    let p = LocalPtr::Private { object, offset };
    match store.load(&p, Kind::Int) {
        Ok(Value::Scalar(Scalar::Int(n))) => Ok(n),
        Ok(_) => Ok(-1),
        Err(code) => Err(code),
    }
}

// The size of a live object.
fn size_of(store: &Store, object: u64) -> Option<u32> {
    match store.shape(object) {
        Some(shape) => Some(shape.size),
        None => None,
    }
}

// Whether a cell of a kind begins at a byte of a live object.
fn has_cell(store: &Store, object: u64, byte: u32, kind: Kind) -> bool {
    match store.shape(object) {
        Some(shape) => shape.cells.has(byte, kind),
        None => false,
    }
}

// Whether an access of a kind is refused with a code.
fn is_refused(store: &Store, object: u64, offset: i64, kind: Kind, code: u8) -> bool {
    let p = LocalPtr::Private { object, offset };
    match store.load(&p, kind) {
        Ok(_) => false,
        Err(other) => other == code,
    }
}

// Stores 7 in an int.
fn store_seven(store: &mut Store, object: u64, offset: i64) -> Result<(), u8> {
    let p = LocalPtr::Private { object, offset };
    store.store(&p, Kind::Int, Value::Scalar(Scalar::Int(7)))
}

// Enters a block with one object, of so many cells of a kind.
fn enter_row(
    store: &mut Store,
    alloc: Global,
    from: u32,
    kind: Kind,
    count: u32,
) -> Result<Result<u64, Refused>, OutOfMemory>
    requires some { 0 < count }
    requires few { count ≤ 1048576 }
{
    let shapes = [row(alloc, kind, count)?];
    Ok(store.enter(from, &shapes))
}

// Enters a block with two objects, each an int.
fn enter_two(
    store: &mut Store,
    alloc: Global,
    from: u32,
) -> Result<Result<u64, Refused>, OutOfMemory> {
    let first = row(alloc, Kind::Int, 1)?;
    let second = row(alloc, Kind::Int, 1)?;
    let shapes = [first, second];
    Ok(store.enter(from, &shapes))
}

#[test]
fn cells_hold_what_is_stored(rt: HostRuntime) -> Result<(), Fail> {
    let alloc = rt.alloc();
    let mut store = Store::make(alloc, &[], &[])?;
    assert_eq!(rt; enter_row(&mut store, alloc, 0, Kind::Int, 4)?, Ok(0));
    assert_eq!(rt; int_at(&store, 0, 4), Ok(0));
    assert_eq!(rt; store_seven(&mut store, 0, 4), Ok(()));
    assert_eq!(rt; int_at(&store, 0, 4), Ok(7));
    assert_eq!(rt; int_at(&store, 0, 0), Ok(0));
    Ok(())
}

#[test]
fn objects_end_with_block_and_call(rt: HostRuntime) -> Result<(), Fail> {
    let alloc = rt.alloc();
    let mut store = Store::make(alloc, &[], &[])?;
    store.push_call()?;
    assert_eq!(rt; enter_row(&mut store, alloc, 0, Kind::Int, 1)?, Ok(0));
    assert_eq!(rt; size_of(&store, 0), Some(4));
    store.leave();
    assert_eq!(rt; int_at(&store, 0, 0), Err(PRIVATE_RANGE));
    assert_eq!(rt; enter_row(&mut store, alloc, 0, Kind::Int, 1)?, Ok(1));
    store.pop_call();
    assert_eq!(rt; size_of(&store, 1), None);
    Ok(())
}

#[test]
fn objects_have_their_shapes(rt: HostRuntime) -> Result<(), Fail> {
    let alloc = rt.alloc();
    let mut store = Store::make(alloc, &[], &[])?;
    assert_eq!(rt; store.enter(0, &[two_ints(alloc)?]), Ok(0));
    assert_eq!(rt; size_of(&store, 0), Some(8));
    assert!(rt; has_cell(&store, 0, 4, Kind::Int));
    assert!(rt; !has_cell(&store, 0, 4, Kind::UInt));
    assert!(rt; !has_cell(&store, 0, 2, Kind::Int));
    store.leave();
    assert_eq!(rt; size_of(&store, 0), None);
    Ok(())
}

// A pointer to an int of the file, in an object of a block.
#[test]
fn pointers_are_kept(rt: HostRuntime) -> Result<(), Fail> {
    let alloc = rt.alloc();
    let mut store = Store::make(alloc, &[], &[])?;
    assert_eq!(rt;
        enter_row(&mut store, alloc, 0, Kind::Private(1), 2)?,
        Ok(0)
    );
    let p = LocalPtr::Private {
        object: 0,
        offset: 8,
    };
    assert_eq!(rt;
        store.load(&p, Kind::Private(1)),
        Ok(Value::Local(LocalPtr::Null))
    );
    assert_eq!(rt; store.store(&p, Kind::Private(1), Value::Local(p)), Ok(()));
    assert_eq!(rt; store.load(&p, Kind::Private(1)), Ok(Value::Local(p)));
    Ok(())
}

// An object, an offset, a kind, and the code of the refusal.
const REFUSED: [(u64, i64, Kind, u8); 8] = [
    (1, 0, Kind::Int, PRIVATE_RANGE),
    (0, 16, Kind::Int, PRIVATE_RANGE),
    (0, -4, Kind::Int, PRIVATE_RANGE),
    (0, 14, Kind::Int, PRIVATE_RANGE),
    (0, 12, Kind::Long, PRIVATE_RANGE),
    (0, 2, Kind::Int, CELL_TYPE),
    (0, 0, Kind::UInt, CELL_TYPE),
    (0, 15, Kind::Char, CELL_TYPE),
];

#[test]
fn accesses_are_refused_in_order(rt: HostRuntime) -> Result<(), Fail> {
    let alloc = rt.alloc();
    let mut store = Store::make(alloc, &[], &[])?;
    assert_eq!(rt; enter_row(&mut store, alloc, 0, Kind::Int, 4)?, Ok(0));
    let null = store.load(&LocalPtr::Null, Kind::Int);
    assert_eq!(rt; null.err(), Some(NULL_ACCESS));
    for (object, offset, kind, code) in &REFUSED {
        assert!(rt;
            is_refused(&store, *object, *offset, *kind, *code),
            "at {offset}"
        );
    }
    Ok(())
}

// `int a[2] = {0, 7};`
#[test]
fn initial_values_stand_in_their_cells(rt: HostRuntime) -> Result<(), Fail> {
    let alloc = rt.alloc();
    let file = [two_ints(alloc)?];
    let second = LocalPtr::Private {
        object: 0,
        offset: 4,
    };
    let seven = Value::Scalar(Scalar::Int(7));
    let store = Store::make(alloc, &file, &[(second, seven)])?;
    assert_eq!(rt; int_at(&store, 0, 0), Ok(0));
    assert_eq!(rt; int_at(&store, 0, 4), Ok(7));
    Ok(())
}

#[test]
fn a_thousand_calls_are_active(rt: HostRuntime) -> Result<(), Fail> {
    let mut store = Store::make(rt.alloc(), &[], &[])?;
    for _ in 0..MOST_CALLS {
        store.push_call()?;
    }
    assert_eq!(rt; store.push_call(), Err(Refused::Error(DEPTH)));
    store.pop_call();
    assert_eq!(rt; store.push_call(), Ok(()));
    Ok(())
}

#[test]
fn a_million_cells_are_entered(rt: HostRuntime) -> Result<(), Fail> {
    let alloc = rt.alloc();
    let mut store = Store::make(alloc, &[], &[])?;
    assert_eq!(rt;
        enter_row(&mut store, alloc, 0, Kind::Char, 1_048_576)?,
        Ok(0)
    );
    assert_eq!(rt;
        enter_row(&mut store, alloc, 0, Kind::Char, 1)?,
        Err(Refused::Error(PRIVATE_SPACE))
    );
    store.leave();
    assert_eq!(rt; enter_row(&mut store, alloc, 0, Kind::Char, 1)?, Ok(1));
    assert_eq!(rt;
        enter_row(&mut store, alloc, 0, Kind::Char, 1_048_576)?,
        Err(Refused::Error(PRIVATE_SPACE))
    );
    Ok(())
}

// Name 0 is of the outer block, 1 and 2 of the inner one; a call sees none of its caller's.
#[test]
fn local_names_count_objects_in_scope(rt: HostRuntime) -> Result<(), Fail> {
    let alloc = rt.alloc();
    let mut store = Store::make(alloc, &[], &[])?;
    store.push_call()?;
    assert_eq!(rt; enter_row(&mut store, alloc, 0, Kind::Int, 1)?, Ok(0));
    assert_eq!(rt; enter_two(&mut store, alloc, 1)?, Ok(1));
    for (name, number) in [(0, 0), (1, 1), (2, 2)] {
        assert_eq!(rt; store.local(name), Some(number));
    }
    store.push_call()?;
    assert_eq!(rt; store.local(0), None);
    Ok(())
}

// What an int holds that a local name stands for.
fn int_of(store: &Store, n: u32) -> Option<Result<Value, u8>> {
    store.load_local(n, Kind::Int)
}

// The answer of a local name that stands for this int.
const fn holds(n: i128) -> Option<Result<Value, u8>> {
    Some(Ok(Value::Scalar(Scalar::Int(n))))
}

// A store where name 0 is of the outer block, which declares a second object behind the inner block. In the inner block
// name 1 is its own; in the outer block it is the second object.
fn nested(alloc: Global) -> Result<Store, Fail> {
    let mut store = Store::make(alloc, &[], &[])?;
    store.push_call()?;
    let outer = enter_two(&mut store, alloc, 0)?;
    let inner = enter_row(&mut store, alloc, 1, Kind::Int, 1)?;
    if outer.is_err() || inner.is_err() {
        return Err(Fail::from(OutOfMemory));
    }
    Ok(store)
}

#[test]
fn locals_are_found_by_name(rt: HostRuntime) -> Result<(), Fail> {
    let alloc = rt.alloc();
    let mut store = nested(alloc)?;
    let seven = Value::Scalar(Scalar::Int(7));
    let eight = Value::Scalar(Scalar::Int(8));
    assert_eq!(rt; store.store_local(0, Kind::Int, seven), Some(Ok(())));
    assert_eq!(rt; store.store_local(1, Kind::Int, eight), Some(Ok(())));
    assert_eq!(rt; int_of(&store, 0), holds(7));
    assert_eq!(rt; int_of(&store, 1), holds(8));
    assert_eq!(rt; int_at(&store, 2, 0), Ok(8));
    store.leave();
    assert_eq!(rt; int_of(&store, 0), holds(7));
    assert_eq!(rt; int_of(&store, 1), holds(0));
    Ok(())
}

#[test]
fn locals_of_a_call_are_its_own(rt: HostRuntime) -> Result<(), Fail> {
    let alloc = rt.alloc();
    let mut store = nested(alloc)?;
    let seven = Value::Scalar(Scalar::Int(7));
    store.push_call()?;
    assert_eq!(rt; int_of(&store, 0), None);
    assert_eq!(rt; store.store_local(0, Kind::Int, seven), None);
    assert_eq!(rt; enter_row(&mut store, alloc, 0, Kind::Char, 1)?, Ok(3));
    assert_eq!(rt; int_of(&store, 0), Some(Err(PRIVATE_RANGE)));
    assert_eq!(rt;
        store.store_local(0, Kind::Int, seven),
        Some(Err(PRIVATE_RANGE))
    );
    store.pop_call();
    assert_eq!(rt; store.store_local(0, Kind::Int, seven), Some(Ok(())));
    assert_eq!(rt; int_at(&store, 0, 0), Ok(7));
    assert_eq!(rt; store.local(1), Some(2));
    Ok(())
}

#[test]
fn calls_inherit_controls(rt: HostRuntime) -> Result<(), Fail> {
    let mut store = Store::make(rt.alloc(), &[], &[])?;
    store.push_call()?;
    store.control()?;
    store.push_call()?;
    assert!(rt; store.is_controlled());
    store.release();
    assert!(rt; !store.is_controlled());
    store.pop_call();
    assert!(rt; store.is_controlled());
    Ok(())
}
