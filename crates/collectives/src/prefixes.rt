//! `upc_all_prefix_reduce` (UPC 7.3).

ghost use Rattle.std.specs.Prelude.{◌≡◌, ◌≤◌, ℕ, ℤ, List, [], length, map, IfOk, IfErr, Some};
ghost use Rattle.integers.specs.Integers.{IsInteger};
ghost use Rattle.collectives.specs.code.Reductions.{reduction_in};
ghost use Rattle.std.specs.List.{All};
ghost use Rattle.block_layout.specs.declared.kind.Shape.{Shape};
ghost use Rattle.upc_values.specs.Calls as calls;
ghost use Rattle.upc_values.specs.layer.Parts as parts;
ghost use Rattle.upc_values.specs.Expansion.{after_reply, value_in};
ghost use Rattle.upc_values.specs.Expansions as said;
ghost use Rattle.upc_values.specs.Reductions as reductions;
ghost use Rattle.upc_library.specs.layer.Spots.{pointer_of};
ghost use Rattle.collectives.specs.code.Elements.{HasPlace};
ghost use Rattle.collectives.specs.layer.Left.{prefixes_rest, prefixes_put, joined};
ghost use Rattle.collectives.specs.layer.Walks.{work_left};
ghost use Rattle.collectives.specs.layer.Wishes.{IsAsked, RefusesSo};

use crate::call::Operands;
use crate::join::join;
use crate::number::Number;
use crate::reduce::{operands, test_cells};
use crate::reduction::{Reduction, element_kind, reduction_of};
use crate::reply::number_in;
use crate::thread::Thread;
use crate::work::Work;
use block_layout::Kind;
use std::alloc::Global;
use std::marker::Model;
use upc_library::Spot;
use upc_values::{Action, Refused, Reply, Scalar};

/// A prefix reduction on its way. Contracts see what is left of it.
#[derive(Drop)]
pub struct Prefixes {
    op: Reduction,
    kind: Kind,
    // The value so far, if an element is done.
    so_far: Option<Number>,
    // The element that is read and written next.
    into: Spot,
    from: Spot,
    // All elements of both sides: those from `at` on come after that one.
    intos: Vec<Spot>,
    froms: Vec<Spot>,
    at: usize,
}

impl Model for Prefixes {
    ghost use Rattle.std.specs.Prelude.{[], drop, map};
    ghost use Rattle.upc_values.specs.Expansions.{part, paired};
    ghost use Rattle.upc_library.specs.layer.Spots.{pointer_of};
    ghost use Rattle.collectives.specs.code.Reductions.{reduction_in};
    ghost use Rattle.collectives.specs.code.Elements.{IsPrefixes};
    ghost use Rattle.collectives.specs.layer.Left.{PrefixesLeft};

    ghost Value = { PrefixesLeft };

    ghost view = { λ p. record {
      op = reduction_in p.op;
      kind = p.kind;
      so_far = p.so_far;
      part = part (pointer_of p.into) (pointer_of p.from);
      parts = paired 0 [] 0 (map pointer_of (drop p.at p.intos.items)) (map pointer_of (drop p.at p.froms.items));
    } };

    ghost invariant = { λ p. IsPrefixes p.kind p.into p.from p.intos.items p.froms.items };
}

// The prefix reduction of elements, none of which is read.
fn started(op: Reduction, kind: Kind, intos: Vec<Spot>, froms: Vec<Spot>) -> Option<Work>
    requires integer { IsInteger kind }
    requires same { length intos.items ≡ length froms.items }
    requires places { All HasPlace intos.items }
    requires rooms { All HasPlace froms.items }
    ensures { (threads : ℕ) (shapes : List Shape) (me : ℕ) → work_left threads shapes me result
        ≡ said.reduce_prefixes 0 [] 0 (Some (reduction_in op)) kind
        (said.paired 0 [] 0 (map pointer_of intos.items) (map pointer_of froms.items)) }
{
    if intos.len() == 0 {
        return None;
    }
    Some(Work::Prefixes(Prefixes {
        op,
        kind,
        so_far: None,
        into: intos[0],
        from: froms[0],
        intos,
        froms,
        at: 1,
    }))
}

// The same, by the operator with the call's number; there is one.
fn begun(of: &Operands, intos: Vec<Spot>, froms: Vec<Spot>) -> Option<Work>
    requires same { length intos.items ≡ length froms.items }
    requires places { All HasPlace intos.items }
    requires rooms { All HasPlace froms.items }
    ensures { (threads : ℕ) (shapes : List Shape) (me : ℕ) → work_left threads shapes me result
        ≡ said.reduce_prefixes 0 [] 0 (reductions.reduction of.now.op)
        (reductions.element_kind of.now.kind)
        (said.paired 0 [] 0 (map pointer_of intos.items) (map pointer_of froms.items)) }
{
    match reduction_of(of.op) {
        None => None,
        Some(op) => started(op, element_kind(of.kind), intos, froms),
    }
}

/// Tests all elements, which the destination's thread is then to read and write, ascending.
pub fn reduce_all_prefixes(
    alloc: Global,
    thread: &Thread<'_>,
    of: &Operands,
) -> Result<Option<Work>, Refused>
    requires { of.now.block ≤ 16777216 }
    ensures made { (flags : ℤ) → IfOk result (λ o. work_left thread.now.threads
        thread.now.shapes.now thread.now.number o ≡ said.work thread.now.threads
        thread.now.shapes.now thread.now.number (calls.Reduces_prefixes of.now.dst of.now.src
        of.now.op of.now.count of.now.block of.now.kind flags)) }
    ensures refused { (flags : ℤ) → IfErr result (λ e. RefusesSo e (said.work thread.now.threads
        thread.now.shapes.now thread.now.number (calls.Reduces_prefixes of.now.dst of.now.src
        of.now.op of.now.count of.now.block of.now.kind flags))) }
{
    if of.dst.thread != thread.number {
        return Ok(None);
    }
    let intos = operands(alloc, thread, &of.dst, of)?;
    let froms = operands(alloc, thread, &of.src, of)?;
    match test_cells(thread, of, intos.as_slice(), froms.as_slice()) {
        Some(code) => Err(Refused::Error(code)),
        None => Ok(begun(of, intos, froms)),
    }
}

impl Prefixes {
    /// The next element, once this one is written with its value so far.
    pub fn further(mut self, so_far: Number) -> Option<Work>
        ensures { (threads : ℕ) (shapes : List Shape) (me : ℕ) → work_left threads shapes me result
            ≡ said.totals 0 [] 0 self.op self.kind so_far self.parts }
    {
        if self.at >= self.intos.len() {
            return None;
        }
        self.into = self.intos[self.at];
        self.from = self.froms[self.at];
        self.at += 1;
        self.so_far = Some(so_far);
        Some(Work::Prefixes(self))
    }

    // The value so far with the element that a reply gives.
    fn joined(&self, reply: &Reply) -> Result<Number, u8>
        ensures { result ≡ joined self.now.op self.now.kind self.now.so_far
            (parts.number_of 0 [] 0 (value_in reply.now)) }
    {
        join(self.op, self.kind, &self.so_far, number_in(reply))
    }

    /// What is left once the element has been read.
    pub fn take(self, reply: &Reply) -> Result<Option<Work>, Refused>
        ensures rest { IfOk result (λ o. (threads : ℕ) (shapes : List Shape) (me : ℕ)
            → work_left threads shapes me o ≡ after_reply (prefixes_rest self) reply.now) }
        ensures refused { IfErr result (λ e. RefusesSo e (after_reply (prefixes_rest self) reply.now)) }
    {
        match self.joined(reply) {
            Ok(value) => Ok(Some(Work::ElementRead(self, value))),
            Err(code) => Err(Refused::Error(code)),
        }
    }

    /// The read of the element.
    pub fn read(&self) -> Action
        ensures { IsAsked (prefixes_rest self.now) result }
    {
        Action::Read {
            loc: self.from.location(),
            strict: false,
        }
    }

    /// The write of the element.
    pub fn write(&self, value: &Number) -> Action
        ensures { IsAsked (prefixes_put self.now value.now) result }
    {
        Action::Write {
            strict: false,
            loc: self.into.location(),
            value: Scalar::Int(value.value()),
        }
    }

    /// The kind of the element.
    pub fn kind(&self) -> Kind
        ensures { result ≡ self.now.kind }
    {
        self.kind
    }
}
