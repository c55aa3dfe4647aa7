//! Every element of some hundred arrays, named by steps of one and by one step, against counting.

ghost use Rattle.std.specs.Prelude.{◌≡◌, ◌≤◌, pos};
ghost use Rattle.shared_pointers.specs.layer.Ranges.{IsTarget, IsThreads};

use block_layout::{ObjectRef, SharedPtr, phase_of, piece_bytes, thread_of};
use shared_pointers::advance;

// A place in the round of blocks: the thread, and how many elements of its block come before.
#[derive(Clone, Copy)]
struct Turn {
    thread: u32,
    phase: u32,
}

const FIRST: Turn = Turn {
    thread: 0,
    phase: 0,
};

// The next place: blocks go to the threads in turn, and an indefinite block never ends.
fn following(turn: Turn, block: u32, threads: u32) -> Turn {
    if block == 0 {
        return turn;
    }
    let phase = turn.phase.saturating_add(1);
    if phase < block {
        return Turn {
            thread: turn.thread,
            phase,
        };
    }
    let thread = turn.thread.saturating_add(1);
    Turn {
        thread: if thread < threads { thread } else { 0 },
        phase: 0,
    }
}

// How many of the first `count` places are on a thread.
fn places_on(thread: u32, count: u32, block: u32, threads: u32) -> u32 {
    let mut turn = FIRST;
    let mut placed: u32 = 0;
    for _ in 0..count {
        if turn.thread == thread {
            placed = placed.saturating_add(1);
        }
        turn = following(turn, block, threads);
    }
    placed
}

fn first_element(total: u32, block: u32) -> SharedPtr
    ensures { result ≡ record {
      object = record {
        number = 1;
        total = total;
        block = block;
        home = 0;
        shape = 0;
        base = 0;
      };
      thread = 0;
      phase = 0;
      offset = pos 0;
    } }
{
    SharedPtr {
        object: ObjectRef {
            number: 1,
            total,
            block,
            home: 0,
            shape: 0,
            base: 0,
        },
        thread: 0,
        phase: 0,
        offset: 0,
    }
}

// Whether a pointer is where counting puts element `e`.
fn lies_at(p: &SharedPtr, e: u32, turn: Turn, block: u32, size: u32, threads: u32) -> bool {
    let earlier = i64::from(places_on(turn.thread, e, block, threads));
    p.thread == turn.thread
        && p.phase == turn.phase
        && p.offset == earlier.saturating_mul(i64::from(size))
}

// Whether `block_layout` says the same of element `e`.
fn is_told(e: u32, turn: Turn, block: u32, threads: u32) -> bool
    requires { IsThreads threads }
{
    if block == 0 {
        return true;
    }
    thread_of(i64::from(e), block, threads) == turn.thread
        && phase_of(i64::from(e), block) == turn.phase
}

// Whether each of the first `count` elements lies where counting puts it.
fn lies_as_counted(count: u32, block: u32, size: u32, threads: u32) -> bool
    requires target { IsTarget block size }
    requires some_threads { IsThreads threads }
{
    let first = first_element(0, 0);
    let mut walked = first;
    let mut turn = FIRST;
    for e in 0..count {
        let Ok(named) = advance(&first, i128::from(e), block, size, threads) else {
            return false;
        };
        if named != walked
            || !lies_at(&named, e, turn, block, size, threads)
            || !is_told(e, turn, block, threads)
        {
            return false;
        }
        let Ok(next) = advance(&walked, 1, block, size, threads) else {
            return false;
        };
        walked = next;
        turn = following(turn, block, threads);
    }
    true
}

// Whether each thread's piece has the bytes that counting gives it.
fn pieces_as_counted(total: u32, block: u32, threads: u32) -> bool
    requires small { total ≤ 16777216 }
    requires small_block { block ≤ 16777216 }
{
    let object = first_element(total, block).object;
    for thread in 0..threads {
        if piece_bytes(&object, thread, threads) != places_on(thread, total, block, threads) {
            return false;
        }
    }
    true
}

#[test]
fn arrays_lie_as_counted(rt: HostRuntime) {
    for threads in 1..7 {
        for block in 0..8 {
            for (count, size) in [(1, 8), (7, 4), (20, 2), (33, 1)] {
                assert!(rt; lies_as_counted(count, block, size, threads));
                assert!(rt; pieces_as_counted(count, block, threads));
            }
        }
    }
}
