//! Which parts each way of copying copies (UPC 7.3).

ghost use Rattle.std.specs.Prelude.{◌≡◌, ◌≤◌, ◌<◌, ◌+◌, ◌*◌, map, IfOk, [], ◌∷◌};
ghost use Rattle.upc_values.specs.Calls as calls;
ghost use Rattle.upc_values.specs.Views as views;
ghost use Rattle.upc_values.specs.Expansions as said;
ghost use Rattle.collectives.specs.code.Calls.{way_in};
ghost use Rattle.collectives.specs.code.Parts.{part_of};

use crate::call::Way;
use crate::part::Part;
use crate::thread::Thread;
use block_layout::SharedPtr;
use std::alloc::{AllocError as OutOfMemory, Global};
use upc_library::byte_at;

/// Where the bytes of a copying call lie: `bytes` of each thread.
#[derive(Clone, Copy)]
pub struct Ends<'a> {
    pub dst: &'a SharedPtr,
    pub src: &'a SharedPtr,
    pub bytes: u32,
    ghost few: { bytes ≤ 16777216 },
}

// The block of the array that the destination is seen as.
fn destination_block(way: Way, threads: u32, bytes: u32) -> u32
    requires some { threads ≤ 32 }
    requires few { bytes ≤ 16777216 }
    ensures { result ≡ (views.destination (way_in way) threads bytes).block }
{
    match way {
        Way::Broadcast | Way::Scatter => bytes,
        Way::Gather => 0,
        Way::GatherAll | Way::Exchange => bytes * threads,
    }
}

// The block of the array that the source is seen as.
fn source_block(way: Way, threads: u32, bytes: u32) -> u32
    requires some { threads ≤ 32 }
    requires few { bytes ≤ 16777216 }
    ensures { result ≡ (views.source (way_in way) threads bytes).block }
{
    match way {
        Way::Broadcast | Way::Scatter => 0,
        Way::Gather | Way::GatherAll => bytes,
        Way::Exchange => bytes * threads,
    }
}

// The part from this byte of the source to this byte of the destination.
fn goes(thread: &Thread<'_>, way: Way, ends: &Ends<'_>, from: u64, into: u64) -> Part
    ensures { part_of result ≡ said.goes thread.now.threads thread.now.shapes.now thread.now.number
        (way_in way) ends.now.dst.now ends.now.src.now ends.now.bytes from into }
{
    let threads = thread.threads;
    let into_block = destination_block(way, threads, ends.bytes);
    let from_block = source_block(way, threads, ends.bytes);
    Part {
        into: byte_at(ends.dst, into_block, threads, into),
        from: byte_at(ends.src, from_block, threads, from),
    }
}

// The source to the thread's block.
fn broadcast(thread: &Thread<'_>, ends: &Ends<'_>) -> Part
    ensures { part_of result ≡ said.goes thread.now.threads thread.now.shapes.now thread.now.number
        calls.Broadcast ends.now.dst.now ends.now.src.now ends.now.bytes 0
        (thread.now.number * ends.now.bytes) }
{
    let own = u64::from(thread.number) * u64::from(ends.bytes);
    goes(thread, Way::Broadcast, ends, 0, own)
}

// The thread's part of the source to its block.
fn scatter(thread: &Thread<'_>, ends: &Ends<'_>) -> Part
    ensures { part_of result ≡ said.goes thread.now.threads thread.now.shapes.now thread.now.number
        calls.Scatter ends.now.dst.now ends.now.src.now ends.now.bytes
        (thread.now.number * ends.now.bytes) (thread.now.number * ends.now.bytes) }
{
    let own = u64::from(thread.number) * u64::from(ends.bytes);
    goes(thread, Way::Scatter, ends, own, own)
}

// The block of thread `i` to its part.
fn gathered(thread: &Thread<'_>, ends: &Ends<'_>, i: u32) -> Part
    ensures { part_of result ≡ said.goes thread.now.threads thread.now.shapes.now thread.now.number
        calls.Gather ends.now.dst.now ends.now.src.now ends.now.bytes (i * ends.now.bytes)
        (i * ends.now.bytes) }
{
    let other = u64::from(i) * u64::from(ends.bytes);
    goes(thread, Way::Gather, ends, other, other)
}

// The block of thread `i` to its part of the thread's block.
fn gathered_by_all(thread: &Thread<'_>, ends: &Ends<'_>, i: u32) -> Part
    requires { i < 32 }
    ensures { part_of result ≡ said.goes thread.now.threads thread.now.shapes.now thread.now.number
        calls.Gather_all ends.now.dst.now ends.now.src.now ends.now.bytes (i * ends.now.bytes)
        (thread.now.number * (ends.now.bytes * thread.now.threads) + i * ends.now.bytes) }
{
    let bytes = u64::from(ends.bytes);
    let own = u64::from(thread.number) * (bytes * u64::from(thread.threads));
    let other = u64::from(i) * bytes;
    goes(thread, Way::GatherAll, ends, other, own + other)
}

// The thread's part of the block of thread `i` to that thread's part of its block.
fn exchanged(thread: &Thread<'_>, ends: &Ends<'_>, i: u32) -> Part
    requires { i < 32 }
    ensures { part_of result ≡ said.goes thread.now.threads thread.now.shapes.now thread.now.number
        calls.Exchange ends.now.dst.now ends.now.src.now ends.now.bytes
        (i * (ends.now.bytes * thread.now.threads) + thread.now.number * ends.now.bytes)
        (thread.now.number * (ends.now.bytes * thread.now.threads) + i * ends.now.bytes) }
{
    let bytes = u64::from(ends.bytes);
    let block = bytes * u64::from(thread.threads);
    let from = u64::from(i) * block + u64::from(thread.number) * bytes;
    let into = u64::from(thread.number) * block + u64::from(i) * bytes;
    goes(thread, Way::Exchange, ends, from, into)
}

fn gather(alloc: Global, thread: &Thread<'_>, ends: &Ends<'_>) -> Result<Vec<Part>, OutOfMemory>
    ensures { IfOk result (λ parts. map part_of parts.items
        ≡ said.parts thread.now.threads thread.now.shapes.now thread.now.number calls.Gather
        ends.now.dst.now ends.now.src.now ends.now.bytes) }
{
    let mut parts = Vec::new(alloc);
    if ends.dst.thread == thread.number {
        for i in 0..thread.threads {
            parts.push(gathered(thread, ends, i))?;
        }
    }
    Ok(parts)
}

fn gather_all(alloc: Global, thread: &Thread<'_>, ends: &Ends<'_>) -> Result<Vec<Part>, OutOfMemory>
    ensures { IfOk result (λ parts. map part_of parts.items
        ≡ said.parts thread.now.threads thread.now.shapes.now thread.now.number calls.Gather_all
        ends.now.dst.now ends.now.src.now ends.now.bytes) }
{
    let mut parts = Vec::new(alloc);
    for i in 0..thread.threads {
        parts.push(gathered_by_all(thread, ends, i))?;
    }
    Ok(parts)
}

fn exchange(alloc: Global, thread: &Thread<'_>, ends: &Ends<'_>) -> Result<Vec<Part>, OutOfMemory>
    ensures { IfOk result (λ parts. map part_of parts.items
        ≡ said.parts thread.now.threads thread.now.shapes.now thread.now.number calls.Exchange
        ends.now.dst.now ends.now.src.now ends.now.bytes) }
{
    let mut parts = Vec::new(alloc);
    for i in 0..thread.threads {
        parts.push(exchanged(thread, ends, i))?;
    }
    Ok(parts)
}

/// The part alone.
pub fn one(alloc: Global, part: Part) -> Result<Vec<Part>, OutOfMemory>
    ensures { IfOk result (λ parts. parts.items ≡ part ∷ []) }
{
    let mut parts = Vec::new(alloc);
    parts.push(part)?;
    Ok(parts)
}

/// The parts that the thread copies.
pub fn parts(
    alloc: Global,
    thread: &Thread<'_>,
    way: Way,
    ends: &Ends<'_>,
) -> Result<Vec<Part>, OutOfMemory>
    ensures { IfOk result (λ parts. map part_of parts.items
        ≡ said.parts thread.now.threads thread.now.shapes.now thread.now.number
        (way_in way) ends.now.dst.now ends.now.src.now ends.now.bytes) }
{
    match way {
        Way::Broadcast => one(alloc, broadcast(thread, ends)),
        Way::Scatter => one(alloc, scatter(thread, ends)),
        Way::Gather => gather(alloc, thread, ends),
        Way::GatherAll => gather_all(alloc, thread, ends),
        Way::Exchange => exchange(alloc, thread, ends),
    }
}
