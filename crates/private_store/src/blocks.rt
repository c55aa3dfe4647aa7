//! The objects of blocks, and what blocks and calls say.

ghost use Rattle.std.specs.Prelude.{◌≡◌, ◌+◌, ◌≤◌, ◌^◌, ◌∷◌, ◌++◌, [], nat_le, length, take, drop, reverse, All};
ghost use Rattle.std.specs.Prelude.{IsTrue, ◌↔◌, IfOk, IfSome, OnOk, OnErr};
ghost use Rattle.std.specs.List.{find};
ghost use Rattle.block_layout.specs.Shapes.{IsShape};
ghost use Rattle.upc_values.specs.Lists.{Each};
ghost use Rattle.private_store.specs.Live as live;
ghost use Rattle.private_store.specs.Live.{youngest, thing_bytes, bytes_in, blank_things};
ghost use Rattle.private_store.specs.code.Straight.{recounted_calls};

use crate::frame::{Block, Call};
use crate::object_list::ObjectList;
use block_layout::Shape;
use std::alloc::Global;
use upc_text::OutOfMemory;

/// Whether objects of these shapes have at most so many bytes.
pub(crate) fn fit(shapes: &[Shape], most: usize) -> bool
    ensures { IsTrue result ↔ (bytes_in shapes.now ≤ most) }
{
    let mut left = most;
    for shape in shapes {
        let size = shape.size as usize;
        if size > left {
            return false;
        }
        left -= size;
    }
    true
}

/// Ends all objects but the first `kept`, and answers how many bytes they had.
pub(crate) fn end_objects(objects: &mut ObjectList, kept: usize) -> usize
    requires { thing_bytes objects.old ≤ 1048576 }
    ensures items { objects.new ≡ take kept objects.old }
    ensures bytes { thing_bytes objects.new + result ≡ thing_bytes objects.old }
{
    let bytes = objects.bytes_behind(kept);
    objects.truncate(kept);
    bytes
}

/// Adds new objects of these shapes, numbered from `first`, or some of them and the answer is want of memory.
#[tactic(auto, using(crate::proofs::Keeping::making))]
pub(crate) fn add_objects(
    alloc: Global,
    objects: &mut ObjectList,
    first: u64,
    shapes: &[Shape],
) -> Result<usize, OutOfMemory>
    requires few { first + length shapes.now ≤ 2 ^ 63 }
    requires room { bytes_in shapes.now ≤ 1048576 }
    requires shapes { Each IsShape shapes.now }
    ensures all { OnOk result (objects.new ≡ objects.old ++ blank_things first shapes.now) }
    ensures bytes { IfOk result (λ bytes. bytes ≡ bytes_in shapes.now) }
    ensures kept { take (length objects.old) objects.new ≡ objects.old }
{
    let mut number = first;
    let mut bytes = 0;
    for shape in shapes {
        objects.push(alloc, number, shape)?;
        number += 1;
        bytes += shape.size as usize;
    }
    Ok(bytes)
}

/// Opens a block and makes its objects. The answer is how many bytes they have. After want of memory all is as it was.
pub(crate) fn add_block(
    alloc: Global,
    objects: &mut ObjectList,
    blocks: &mut Vec<Block>,
    block: Block,
    shapes: &[Shape],
) -> Result<usize, OutOfMemory>
    requires few { block.first + length shapes.now ≤ 2 ^ 63 }
    requires room { bytes_in shapes.now ≤ 1048576 }
    requires shapes { Each IsShape shapes.now }
    requires before { block.objects ≡ length objects.old }
    ensures objects { OnOk result (objects.new ≡ objects.old ++ blank_things block.first shapes.now) }
    ensures blocks { OnOk result (blocks.new.items ≡ blocks.old.items ++ block ∷ []) }
    ensures bytes { IfOk result (λ bytes. bytes ≡ bytes_in shapes.now) }
    ensures objects_kept { OnErr result (objects.new ≡ objects.old) }
    ensures blocks_kept { OnErr result (blocks.new.items ≡ blocks.old.items) }
{
    match add_objects(alloc, objects, block.first, shapes) {
        Err(e) => {
            objects.truncate(block.objects);
            Err(e)
        }
        Ok(bytes) => match blocks.push(block) {
            Err(_) => {
                objects.truncate(block.objects);
                Err(OutOfMemory)
            }
            Ok(_) => Ok(bytes),
        },
    }
}

/// How many blocks were open when the youngest call began.
#[inline(always)]
pub(crate) fn blocks_before(calls: &[Call]) -> usize
    ensures { result ≡ live.blocks_before (youngest calls.now) }
{
    match calls.last() {
        None => 0,
        Some(call) => call.blocks,
    }
}

/// In how many controlling bodies the youngest call is.
pub(crate) fn controls_of(calls: &[Call]) -> u64
    ensures { result ≡ live.controls_in (youngest calls.now) }
{
    match calls.last() {
        None => 0,
        Some(call) => call.controls,
    }
}

/// The youngest call is in so many controlling bodies.
pub(crate) fn recount(calls: &mut Vec<Call>, count: u64)
    ensures { calls.new.items ≡ recounted_calls (youngest calls.old.items) count calls.old.items }
{
    if let Some(call) = calls.last_mut() {
        call.controls = count;
    }
}

/// All blocks but the first so many.
pub(crate) fn open_from(blocks: &[Block], first: usize) -> &[Block]
    ensures { result.now ≡ drop first blocks.now }
{
    if first < blocks.len() {
        &blocks[first..]
    } else {
        &[]
    }
}

// The youngest of these blocks that was entered with at most `n` names in scope.
#[tactic(auto, using(crate::proofs::Frames::looking_back))]
fn innermost(blocks: &[Block], n: u32) -> Option<Block>
    requires { All (λ b. b.first ≤ 2 ^ 63) blocks.now }
    ensures value { result ≡ find (λ b. nat_le b.from n) (reverse blocks.now) }
    ensures from { IfSome result (λ b. b.from ≤ n) }
    ensures few { IfSome result (λ b. b.first ≤ 2 ^ 63) }
{
    for at in (0..blocks.len()).rev() {
        let block = blocks[at];
        if block.from <= n {
            return Some(block);
        }
    }
    None
}

/// The youngest of all blocks but the first so many that was entered with at most `n` names in scope. Mostly it is the
/// last one.
#[tactic(auto, using(crate::proofs::Frames::firsts_open))]
#[inline(always)]
pub(crate) fn innermost_from(blocks: &[Block], first: usize, n: u32) -> Option<Block>
    requires { All (λ b. b.first ≤ 2 ^ 63) blocks.now }
    ensures value { result ≡ find (λ b. nat_le b.from n) (reverse (drop first blocks.now)) }
    ensures from { IfSome result (λ b. b.from ≤ n) }
    ensures few { IfSome result (λ b. b.first ≤ 2 ^ 63) }
{
    if first < blocks.len() {
        let last = blocks[blocks.len() - 1];
        if last.from <= n {
            return Some(last);
        }
    }
    innermost(open_from(blocks, first), n)
}
