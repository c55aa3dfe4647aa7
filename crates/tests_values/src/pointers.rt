//! `shared [3] int a[20];` with four threads.

ghost use Rattle.std.specs.Prelude.{◌≡◌};

use block_layout::run_error::{
    CELL_TYPE, NOT_LOCAL, NULL_ACCESS, OUT_OF_OBJECT, POINTER_PAIR, POINTER_RANGE,
};
use block_layout::{Cells, Kind, Loc, LocalPtr, ObjectRef, Shape, SharedPtr};
use shared_pointers::{
    advance, cell, distance, member, order, same, stands_for_some_element, to_block, to_local,
};
use std::cmp::Ordering;
use std::test::Fail;

const OBJECT: ObjectRef = ObjectRef {
    number: 1,
    total: 80,
    block: 12,
    home: 0,
    shape: 0,
    base: 0,
};

fn at(thread: u32, phase: u32, offset: i64) -> SharedPtr
    ensures { result ≡ record { object = OBJECT; thread = thread; phase = phase; offset = offset } }
{
    SharedPtr {
        object: OBJECT,
        thread,
        phase,
        offset,
    }
}

#[test]
fn moved_by_elements(rt: HostRuntime) {
    // &a[4] - 5, &a[7] + 5, and with block 4 from &a[7] cast
    assert_eq!(rt; advance(&at(1, 1, 4), -5, 3, 4, 4), Ok(at(3, 2, -4)));
    assert_eq!(rt; advance(&at(2, 1, 4), 5, 3, 4, 4), Ok(at(0, 0, 12)));
    assert_eq!(rt; to_block(&at(2, 1, 4), 3, 4), at(2, 0, 4));
    assert_eq!(rt; advance(&at(2, 0, 4), 1, 4, 4, 4), Ok(at(2, 1, 8)));
    // an indefinite block keeps the thread
    assert_eq!(rt; advance(&at(0, 0, 0), 7, 0, 4, 4), Ok(at(0, 0, 28)));
    assert_eq!(rt; advance(&at(2, 0, 4), 9, 0, 4, 4), Ok(at(2, 0, 40)));
    assert_eq!(rt; advance(&SharedPtr::NULL, 0, 3, 4, 4), Err(NULL_ACCESS));
    assert_eq!(rt;
        advance(&at(1, 1, 4), 1_099_511_627_776, 3, 4, 2),
        Err(POINTER_RANGE)
    );
    stands_for_some_element(&at(1, 1, 4), 3, 4, 4);
}

#[test]
fn compared(rt: HostRuntime) {
    // &a[12] - &a[7]; the phase of &a[7] is lost in a cast to block 4 and back
    assert_eq!(rt; distance(&at(0, 0, 12), &at(2, 1, 4), 3, 4, 4), Ok(5));
    assert_eq!(rt;
        distance(&at(0, 0, 12), &at(2, 1, 5), 3, 4, 4),
        Err(POINTER_PAIR)
    );
    assert_eq!(rt;
        order(&at(2, 1, 4), &at(0, 0, 12), 3, 4, 4),
        Ok(Ordering::Less)
    );
    assert!(rt; same(&at(2, 0, 4), &at(2, 1, 4)));
    assert!(rt; !same(&at(2, 1, 4), &at(1, 1, 4)));
}

#[test]
fn read_and_cast(rt: HostRuntime) -> Result<(), Fail> {
    let mut list = Vec::new(rt.alloc());
    list.push((0, Kind::Int))?;
    let shape = Shape {
        size: 4,
        cells: Cells::from_vec(list),
    };
    assert_eq!(rt;
        cell(&at(2, 1, 4), &shape, Kind::Int, 4),
        Ok(Loc {
            object: 1,
            thread: 2,
            offset: 4
        })
    );
    assert_eq!(rt;
        cell(&at(3, 2, -4), &shape, Kind::Int, 4),
        Err(OUT_OF_OBJECT)
    );
    assert_eq!(rt; cell(&at(2, 1, 4), &shape, Kind::Short, 4), Err(CELL_TYPE));
    assert_eq!(rt; member(&at(2, 1, 4), 8), Ok(at(2, 0, 12)));
    assert_eq!(rt;
        to_local(&at(2, 1, 4), 2),
        Ok(LocalPtr::Shared {
            object: OBJECT,
            thread: 2,
            offset: 4
        })
    );
    assert_eq!(rt; to_local(&at(2, 1, 4), 1), Err(NOT_LOCAL));
    Ok(())
}
