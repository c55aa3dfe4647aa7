//! The tests of a collective call's arguments.

ghost use Rattle.std.specs.Prelude.{◌≡◌, ℕ, List, not, ◌==◌, ◌||◌, ◌&&◌, ◌∷◌, []};
ghost use Rattle.block_layout.specs.declared.kind.Shape.{Shape};
ghost use Rattle.upc_values.specs.Expansions as said;
ghost use Rattle.collectives.specs.code.Calls.{call_in, way_in, refusal_in};

use crate::call::{Call, Operands, Way};
use crate::reduction::is_operator;
use block_layout::run_error::{LIBRARY_ARGS, NULL_ACCESS};
use block_layout::{SharedPtr, limits};

// The most bytes or elements that a call takes.
const MOST: u64 = limits::SHARED_BYTES as u64;

// A group of flags: none, or one of the three.
fn is_sync(bits: u32) -> bool
    ensures { result ≡ said.is_sync bits }
{
    bits == 0 || bits == 1 || bits == 2 || bits == 4
}

// At most one flag of each group, and no other bits.
fn are_flags(flags: i32) -> bool
    ensures { result ≡ said.are_flags flags }
{
    let bits = flags.unsigned_abs();
    0 <= flags && flags < 64 && is_sync(bits % 8) && is_sync(bits / 8)
}

// A size that is more than a call takes.
fn is_large(n: u64) -> bool
    ensures { result ≡ said.is_large n }
{
    MOST < n
}

// The destination begins on thread 0, but for a gather.
fn is_destination(way: Way, p: &SharedPtr) -> bool
    ensures { result ≡ said.is_destination (way_in way) p.now }
{
    match way {
        Way::Gather => true,
        _ => p.thread == 0,
    }
}

// The source begins on thread 0, but for a broadcast and a scatter.
fn is_source(way: Way, p: &SharedPtr) -> bool
    ensures { result ≡ said.is_source (way_in way) p.now }
{
    match way {
        Way::Broadcast | Way::Scatter => true,
        _ => p.thread == 0,
    }
}

fn are_copy_args(way: Way, dst: &SharedPtr, src: &SharedPtr, bytes: u64, flags: i32) -> bool
    ensures { result ≡ said.are_copy_args (way_in way) dst.now src.now bytes flags }
{
    are_flags(flags) && !is_large(bytes) && is_destination(way, dst) && is_source(way, src)
}

fn are_permute_args(
    dst: &SharedPtr,
    src: &SharedPtr,
    perm: &SharedPtr,
    bytes: u64,
    flags: i32,
) -> bool
    ensures { result ≡ said.are_permute_args dst.now src.now perm.now bytes flags }
{
    are_flags(flags) && !is_large(bytes) && dst.thread == 0 && src.thread == 0 && perm.thread == 0
}

// With a block, the phase is below it.
fn is_phase(p: &SharedPtr, block: u64) -> bool
    ensures { result ≡ said.is_phase p.now block }
{
    block == 0 || u64::from(p.phase) < block
}

// At least one element, sizes in range.
fn are_sizes(operands: &Operands) -> bool
    ensures { result ≡ (not (operands.now.count == 0)
        && (not (said.is_large operands.now.count)
        && (not (said.is_large operands.now.block)
        && said.is_phase operands.now.src operands.now.block))) }
{
    operands.count != 0
        && !is_large(operands.count)
        && !is_large(operands.block)
        && is_phase(&operands.src, operands.block)
}

fn are_reduction_args(operands: &Operands, flags: i32) -> bool
    ensures { result ≡ said.are_reduction_args operands.now.src operands.now.op operands.now.count
        operands.now.block flags }
{
    if !are_flags(flags) {
        return false;
    }
    if !is_operator(operands.op) {
        return false;
    }
    are_sizes(operands)
}

// In a prefix reduction the destination begins at the same element as the source.
fn is_aligned(operands: &Operands) -> bool
    ensures { result ≡ said.is_aligned operands.now.dst operands.now.src operands.now.block }
{
    operands.dst.thread == operands.src.thread
        && (operands.block == 0 || operands.dst.phase == operands.src.phase)
}

// The first cause that there is.
fn first_cause(null: bool, unfit: bool) -> Option<u8>
    ensures { result ≡ refusal_in ((null, NULL_ACCESS) ∷ (unfit, LIBRARY_ARGS) ∷ []) }
{
    if null {
        return Some(NULL_ACCESS);
    }
    if unfit { Some(LIBRARY_ARGS) } else { None }
}

/// The run error by which the call's arguments are refused.
pub fn refusal(call: &Call) -> Option<u8>
    ensures { (threads : ℕ) (shapes : List Shape) (me : ℕ)
        → result ≡ refusal_in (said.tests threads shapes me (call_in call.now)) }
{
    match call {
        Call::Copies {
            way,
            dst,
            src,
            bytes,
            flags,
        } => first_cause(
            dst.is_null() || src.is_null(),
            !are_copy_args(*way, dst, src, *bytes, *flags),
        ),
        Call::Permutes {
            dst,
            src,
            perm,
            bytes,
            flags,
        } => first_cause(
            dst.is_null() || src.is_null() || perm.is_null(),
            !are_permute_args(dst, src, perm, *bytes, *flags),
        ),
        Call::Reduces(operands, flags) => first_cause(
            operands.dst.is_null() || operands.src.is_null(),
            !are_reduction_args(operands, *flags),
        ),
        Call::ReducesPrefixes(operands, flags) => first_cause(
            operands.dst.is_null() || operands.src.is_null(),
            !(are_reduction_args(operands, *flags)
                && is_phase(&operands.dst, operands.block)
                && is_aligned(operands)),
        ),
        Call::Other => None,
    }
}
