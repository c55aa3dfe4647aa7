//! The work of a collective call, between its barriers (UPC 7.3).

ghost use Rattle.std.specs.Prelude.{◌≡◌, ℕ, List, map, IfOk, IfErr};
ghost use Rattle.block_layout.specs.declared.kind.Shape.{Shape};
ghost use Rattle.upc_values.specs.Expansion.{after_reply};
ghost use Rattle.upc_values.specs.layer.Parts.{unless_refused};
ghost use Rattle.upc_values.specs.declared.scalar.Scalar.{Scalar};
ghost use Rattle.upc_values.specs.Expansions as said;
ghost use Rattle.collectives.specs.code.Calls.{call_in, way_in, FitsLimits};
ghost use Rattle.collectives.specs.code.Parts.{part_of};
ghost use Rattle.collectives.specs.layer.Left.{copies_left, copies_put, prefixes_put};
ghost use Rattle.collectives.specs.layer.Walks.{work_rest, work_left};
ghost use Rattle.collectives.specs.layer.Wishes.{IsAsked, RefusesSo, kind_read};

use crate::call::{Call, Way};
use crate::copies::Copies;
use crate::number::Number;
use crate::part::Part;
use crate::permute::{Numbers, permute};
use crate::prefixes::{Prefixes, reduce_all_prefixes};
use crate::reply::{done, value_in};
use crate::thread::Thread;
use crate::total::{Total, reduce_all};
use crate::ways::{Ends, parts};
use block_layout::{Kind, Loc};
use std::alloc::Global;
use upc_values::{Action, Refused, Reply, Scalar};

/// Work that is left.
#[derive(Drop)]
pub enum Work {
    /// Parts that are copied.
    Copies(Copies),
    /// The same, where the value of a cell has come, which is to be written.
    CellRead(Copies, Scalar),
    /// A permutation that is read.
    Numbers(Numbers),
    /// A reduction whose elements are read.
    Total(Total),
    /// The value of a reduction, which is to be written.
    Put(Loc, i128),
    /// A prefix reduction.
    Prefixes(Prefixes),
    /// The same, where the value so far of an element is to be written.
    ElementRead(Prefixes, Number),
}

/// The copies that are left, if there are any.
pub fn copied(copies: Option<Copies>) -> Option<Work>
    ensures { (threads : ℕ) (shapes : List Shape) (me : ℕ) → work_left threads shapes me result
        ≡ copies_left shapes copies }
{
    match copies {
        Some(copies) => Some(Work::Copies(copies)),
        None => None,
    }
}

/// Tests all ranges of parts of so many bytes, which are then to be copied.
pub fn copy(
    alloc: Global,
    thread: &Thread<'_>,
    bytes: u64,
    parts: Vec<Part>,
) -> Result<Option<Work>, Refused>
    ensures made { IfOk result (λ o. work_left thread.now.threads thread.now.shapes.now thread.now.number o
        ≡ said.move thread.now.threads thread.now.shapes.now thread.now.number bytes
        (map part_of parts.items)) }
    ensures refused { IfErr result (λ e. RefusesSo e (said.move thread.now.threads
        thread.now.shapes.now thread.now.number bytes (map part_of parts.items))) }
{
    match Copies::begin(alloc, thread, bytes, parts) {
        Ok(copies) => Ok(copied(copies)),
        Err(e) => Err(e),
    }
}

// The work of calls 5 to 9.
fn copy_parts(
    alloc: Global,
    thread: &Thread<'_>,
    way: Way,
    ends: &Ends<'_>,
) -> Result<Option<Work>, Refused>
    ensures made { IfOk result (λ o. work_left thread.now.threads thread.now.shapes.now thread.now.number o
        ≡ said.some_bytes thread.now.threads thread.now.shapes.now thread.now.number ends.now.bytes
        (said.move thread.now.threads thread.now.shapes.now thread.now.number ends.now.bytes
        (said.parts thread.now.threads thread.now.shapes.now thread.now.number (way_in way)
        ends.now.dst.now ends.now.src.now ends.now.bytes))) }
    ensures refused { IfErr result (λ e. RefusesSo e (said.some_bytes thread.now.threads
        thread.now.shapes.now thread.now.number ends.now.bytes (said.move thread.now.threads
        thread.now.shapes.now thread.now.number ends.now.bytes (said.parts thread.now.threads
        thread.now.shapes.now thread.now.number (way_in way) ends.now.dst.now ends.now.src.now
        ends.now.bytes)))) }
{
    if ends.bytes == 0 {
        return Ok(None);
    }
    let parts = parts(alloc, thread, way, ends)?;
    copy(alloc, thread, u64::from(ends.bytes), parts)
}

// A cell has been written, with this value.
fn written(
    alloc: Global,
    thread: &Thread<'_>,
    copies: Copies,
    value: Scalar,
    reply: &Reply,
) -> Result<Option<Work>, Refused>
    ensures rest { IfOk result (λ o. work_left thread.now.threads
        thread.now.shapes.now thread.now.number o
        ≡ after_reply (copies_put thread.now.shapes.now copies value) reply.now) }
    ensures refused { IfErr result (λ e.
        RefusesSo e (after_reply (copies_put thread.now.shapes.now copies value) reply.now)) }
{
    match done(reply) {
        Ok(()) => Ok(copied(copies.further(alloc, thread)?)),
        Err(e) => Err(e),
    }
}

// The value of a reduction has been written.
fn put(reply: &Reply) -> Result<Option<Work>, Refused>
    ensures rest { IfOk result (λ o. (threads : ℕ) (shapes : List Shape) (me : ℕ)
        → work_left threads shapes me o ≡ unless_refused reply.now) }
    ensures refused { IfErr result (λ e. RefusesSo e (unless_refused reply.now)) }
{
    match done(reply) {
        Ok(()) => Ok(None),
        Err(e) => Err(e),
    }
}

// The value so far of an element has been written.
fn prefixed(prefixes: Prefixes, value: Number, reply: &Reply) -> Result<Option<Work>, Refused>
    ensures rest { IfOk result (λ o. (threads : ℕ) (shapes : List Shape) (me : ℕ)
        → work_left threads shapes me o ≡ after_reply (prefixes_put prefixes value) reply.now) }
    ensures refused { IfErr result (λ e.
        RefusesSo e (after_reply (prefixes_put prefixes value) reply.now)) }
{
    match done(reply) {
        Ok(()) => Ok(prefixes.further(value)),
        Err(e) => Err(e),
    }
}

impl Work {
    /// The work of a call on this thread, whose ranges are tested; nothing may be left of it.
    pub fn begin(alloc: Global, thread: &Thread<'_>, call: &Call) -> Result<Option<Work>, Refused>
        requires { FitsLimits call.now }
        ensures made { IfOk result (λ o. work_left thread.now.threads thread.now.shapes.now
            thread.now.number o ≡ said.work thread.now.threads thread.now.shapes.now
            thread.now.number (call_in call.now)) }
        ensures refused { IfErr result (λ e. RefusesSo e (said.work thread.now.threads
            thread.now.shapes.now thread.now.number (call_in call.now))) }
    {
        match call {
            Call::Copies {
                way,
                dst,
                src,
                bytes,
                ..
            } => {
                let bytes = *bytes as u32;
                copy_parts(alloc, thread, *way, &Ends { dst, src, bytes })
            }
            Call::Permutes {
                dst,
                src,
                perm,
                bytes,
                ..
            } => {
                let bytes = *bytes as u32;
                permute(alloc, thread, &Ends { dst, src, bytes }, perm)
            }
            Call::Reduces(operands, _) => reduce_all(alloc, thread, operands),
            Call::ReducesPrefixes(operands, _) => reduce_all_prefixes(alloc, thread, operands),
            Call::Other => Ok(None),
        }
    }

    /// What is left after a reply.
    pub fn take(
        self,
        alloc: Global,
        thread: &Thread<'_>,
        reply: &Reply,
    ) -> Result<Option<Work>, Refused>
        ensures rest { IfOk result (λ o. work_left thread.now.threads thread.now.shapes.now
            thread.now.number o ≡ after_reply (work_rest thread.now.threads thread.now.shapes.now
            thread.now.number self) reply.now) }
        ensures refused { IfErr result (λ e. RefusesSo e (after_reply (work_rest
            thread.now.threads thread.now.shapes.now thread.now.number self) reply.now)) }
    {
        match self {
            Work::Copies(copies) => Ok(Some(Work::CellRead(copies, value_in(reply)))),
            Work::CellRead(copies, value) => written(alloc, thread, copies, value, reply),
            Work::Numbers(numbers) => numbers.take(alloc, thread, reply),
            Work::Total(total) => total.take(reply),
            Work::Put(_loc, _value) => put(reply),
            Work::Prefixes(prefixes) => prefixes.take(reply),
            Work::ElementRead(prefixes, value) => prefixed(prefixes, value, reply),
        }
    }

    /// The action that is asked for.
    pub fn action(&self) -> Action
        ensures { (threads : ℕ) (shapes : List Shape) (me : ℕ)
            → IsAsked (work_rest threads shapes me self.now) result }
    {
        match self {
            Work::Copies(copies) => copies.read(),
            Work::CellRead(copies, value) => copies.write(*value),
            Work::Numbers(numbers) => numbers.action(),
            Work::Total(total) => total.action(),
            Work::Put(loc, value) => Action::Write {
                strict: false,
                loc: *loc,
                value: Scalar::Int(*value),
            },
            Work::Prefixes(prefixes) => prefixes.read(),
            Work::ElementRead(prefixes, value) => prefixes.write(value),
        }
    }

    /// The kind of the cell that is read, None where one is written.
    pub fn reads(&self) -> Option<Kind>
        ensures { (threads : ℕ) (shapes : List Shape) (me : ℕ)
            → result ≡ kind_read (work_rest threads shapes me self.now) }
    {
        match self {
            Work::Copies(copies) => Some(copies.kind()),
            Work::CellRead(_, _) => None,
            Work::Numbers(_) => Some(Kind::Int),
            Work::Total(total) => Some(total.kind()),
            Work::Put(_, _) => None,
            Work::Prefixes(prefixes) => Some(prefixes.kind()),
            Work::ElementRead(_, _) => None,
        }
    }
}
