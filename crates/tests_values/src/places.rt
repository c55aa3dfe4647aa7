//! Elements, pieces and blocks of shared arrays, by hand.

ghost use Rattle.std.specs.Prelude.{◌≡◌};

use block_layout::{ObjectRef, offset_of, phase_of, piece_bytes, star_block, thread_of};

fn object(total: u32, block: u32) -> ObjectRef
    ensures total { result.total ≡ total }
    ensures block { result.block ≡ block }
{
    ObjectRef {
        number: 1,
        total,
        block,
        home: 2,
        shape: 0,
        base: 0,
    }
}

// An element of an array in blocks of three on four threads, and its thread, phase and offset.
const ELEMENTS: [(i8, u32, u32, i64); 5] = [
    (0, 0, 0, 0),
    (7, 2, 1, 4),
    (12, 0, 0, 12),
    (-1, 3, 2, -4),
    (-13, 3, 2, -16),
];

// A block of an object of 80 bytes, and the object's bytes on each of four threads.
const PIECES: [(u32, [u32; 4]); 3] = [
    (12, [24, 24, 20, 12]),
    (80, [80, 0, 0, 0]),
    (0, [0, 0, 80, 0]),
];

#[test]
fn places(rt: HostRuntime) {
    for (e, thread, phase, offset) in &ELEMENTS {
        let e = i64::from(*e);
        assert_eq!(rt; thread_of(e, 3, 4), *thread);
        assert_eq!(rt; phase_of(e, 3), *phase);
        assert_eq!(rt; offset_of(e, 3, 4, 4), *offset);
    }
    for (block, bytes) in &PIECES {
        let array = object(80, (*block).min(80));
        for (thread, expected) in bytes.iter().enumerate() {
            assert_eq!(rt; piece_bytes(&array, (thread % 4) as u32, 4), *expected);
        }
    }
    assert_eq!(rt; star_block(10, 4), 3);
    assert_eq!(rt; star_block(10, 1), 10);
}
