//! A full write buffer, and writes that are combined in it.
use std::alloc::AllocError as OutOfMemory;
use upc_values::{Loc, Scalar};
use write_buffer::WriteBuffer;

// The location of this number, all of which have one place among the buffer's counts.
fn nth(number: u32) -> Loc {
    Loc {
        object: 1,
        thread: 0,
        offset: 1_024 * (number % 100),
    }
}

fn value(number: u32) -> Scalar {
    Scalar::Int(i128::from(number))
}

// A store of each of 65 locations: only the last hands out a write, the first.
#[test]
fn holds_sixty_four(rt: HostRuntime) -> Result<(), OutOfMemory> {
    let mut buffer = WriteBuffer::make(rt.alloc())?;
    for number in 0..65u32 {
        let handed = buffer.store(number, nth(number), value(number));
        let index = handed.map(|write| write.index);
        assert_eq!(rt; index, if number == 64 { Some(0) } else { None });
    }
    assert_eq!(rt; buffer.len(), 64);
    for number in 0..66u32 {
        let found = buffer.forward(nth(number));
        let pending = number > 0 && number < 65;
        let wanted = if pending {
            Some((number, value(number)))
        } else {
            None
        };
        assert_eq!(rt; found, wanted, "{number}");
    }
    let oldest = buffer.take_oldest().map(|write| write.index);
    assert_eq!(rt; oldest, Some(1));
    Ok(())
}

// A store to a location that is pending takes that one's place, also where 64 are pending.
#[test]
fn combines_writes(rt: HostRuntime) -> Result<(), OutOfMemory> {
    let mut buffer = WriteBuffer::make(rt.alloc())?;
    for number in 0..64u32 {
        assert!(rt; buffer.store(number, nth(number), value(number)).is_none());
    }
    assert!(rt; buffer.store(64, nth(0), value(7)).is_none());
    assert_eq!(rt; buffer.len(), 64);
    assert_eq!(rt; buffer.forward(nth(0)), Some((64, value(7))));
    let oldest = buffer.take_oldest().map(|write| write.index);
    assert_eq!(rt; oldest, Some(64));
    let next = buffer.take_oldest().map(|write| write.index);
    assert_eq!(rt; next, Some(1));
    Ok(())
}
