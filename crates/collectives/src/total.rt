//! `upc_all_reduce` (UPC 7.3).

ghost use Rattle.std.specs.Prelude.{◌≡◌, ◌≤◌, ℕ, ℤ, List, [], map, IfOk, IfErr, Some};
ghost use Rattle.integers.specs.Integers.{IsInteger};
ghost use Rattle.collectives.specs.code.Reductions.{reduction_in};
ghost use Rattle.std.specs.List.{All};
ghost use Rattle.block_layout.specs.declared.kind.Shape.{Shape};
ghost use Rattle.upc_values.specs.Calls as calls;
ghost use Rattle.upc_values.specs.layer.Parts as parts;
ghost use Rattle.upc_values.specs.Expansion.{after_reply, value_in};
ghost use Rattle.upc_values.specs.Expansions as said;
ghost use Rattle.upc_values.specs.Reductions as reductions;
ghost use Rattle.upc_library.specs.layer.Spots.{pointer_of};
ghost use Rattle.collectives.specs.code.Elements.{HasPlace};
ghost use Rattle.collectives.specs.layer.Left.{total_rest, joined};
ghost use Rattle.collectives.specs.layer.Walks.{work_left, work_rest};
ghost use Rattle.collectives.specs.layer.Wishes.{IsAsked, RefusesSo};

use crate::call::Operands;
use crate::join::join;
use crate::number::Number;
use crate::reduce::{operands, test_cells};
use crate::reduction::{Reduction, element_kind, reduction_of};
use crate::reply::number_in;
use crate::thread::Thread;
use crate::work::Work;
use block_layout::Kind;
use std::alloc::Global;
use std::marker::Model;
use upc_library::{Spot, spot_at};
use upc_values::{Action, Refused, Reply};

/// A reduction whose elements are read. Contracts see what is left of it.
#[derive(Drop)]
pub struct Total {
    op: Reduction,
    kind: Kind,
    // The value so far, if an element has come.
    so_far: Option<Number>,
    dst: Spot,
    // The element that is read next.
    element: Spot,
    // All elements: those from `at` on come after that one.
    elements: Vec<Spot>,
    at: usize,
}

impl Model for Total {
    ghost use Rattle.std.specs.Prelude.{drop, map};
    ghost use Rattle.upc_library.specs.layer.Spots.{pointer_of};
    ghost use Rattle.collectives.specs.code.Reductions.{reduction_in};
    ghost use Rattle.collectives.specs.code.Elements.{IsTotal};
    ghost use Rattle.collectives.specs.layer.Left.{TotalLeft};

    ghost Value = { TotalLeft };

    ghost view = { λ t. record {
      op = reduction_in t.op;
      kind = t.kind;
      so_far = t.so_far;
      dst = pointer_of t.dst;
      element = pointer_of t.element;
      elements = map pointer_of (drop t.at t.elements.items);
    } };

    ghost invariant = { λ t. IsTotal t.kind t.dst t.element t.elements.items };
}

// The reduction of elements, none of which is read.
fn started(op: Reduction, kind: Kind, dst: Spot, elements: Vec<Spot>) -> Option<Work>
    requires integer { IsInteger kind }
    requires place { HasPlace dst }
    requires rooms { All HasPlace elements.items }
    ensures { (threads : ℕ) (shapes : List Shape) (me : ℕ) → work_left threads shapes me result
        ≡ said.reduce 0 [] 0 (Some (reduction_in op)) kind (pointer_of dst) (map pointer_of elements.items) }
{
    if elements.len() == 0 {
        return None;
    }
    Some(Work::Total(Total {
        op,
        kind,
        so_far: None,
        dst,
        element: elements[0],
        elements,
        at: 1,
    }))
}

// The same, by the operator with the call's number; there is one.
fn begun(of: &Operands, dst: Spot, elements: Vec<Spot>) -> Option<Work>
    requires place { HasPlace dst }
    requires rooms { All HasPlace elements.items }
    ensures { (threads : ℕ) (shapes : List Shape) (me : ℕ) → work_left threads shapes me result
        ≡ said.reduce 0 [] 0 (reductions.reduction of.now.op) (reductions.element_kind of.now.kind)
        (pointer_of dst) (map pointer_of elements.items) }
{
    match reduction_of(of.op) {
        None => None,
        Some(op) => started(op, element_kind(of.kind), dst, elements),
    }
}

/// Tests the destination and the elements, which the destination's thread is then to read, ascending.
pub fn reduce_all(
    alloc: Global,
    thread: &Thread<'_>,
    of: &Operands,
) -> Result<Option<Work>, Refused>
    requires { of.now.block ≤ 16777216 }
    ensures made { (flags : ℤ) → IfOk result (λ o. work_left thread.now.threads
        thread.now.shapes.now thread.now.number o ≡ said.work thread.now.threads
        thread.now.shapes.now thread.now.number (calls.Reduces of.now.dst of.now.src of.now.op
        of.now.count of.now.block of.now.kind flags)) }
    ensures refused { (flags : ℤ) → IfErr result (λ e. RefusesSo e (said.work thread.now.threads
        thread.now.shapes.now thread.now.number (calls.Reduces of.now.dst of.now.src of.now.op
        of.now.count of.now.block of.now.kind flags))) }
{
    if of.dst.thread != thread.number {
        return Ok(None);
    }
    let elements = operands(alloc, thread, &of.src, of)?;
    let dst = spot_at(&of.dst);
    match test_cells(thread, of, &[dst], elements.as_slice()) {
        Some(code) => Err(Refused::Error(code)),
        None => Ok(begun(of, dst, elements)),
    }
}

impl Total {
    // The next element, or else the value is to be written.
    fn further(mut self, so_far: Number) -> Work
        ensures { (threads : ℕ) (shapes : List Shape) (me : ℕ) → work_rest threads shapes me result
            ≡ said.total 0 [] 0 self.op self.kind so_far self.dst self.elements }
    {
        if self.at < self.elements.len() {
            self.element = self.elements[self.at];
            self.at += 1;
            self.so_far = Some(so_far);
            return Work::Total(self);
        }
        Work::Put(self.dst.location(), so_far.value())
    }

    // The value so far with the element that a reply gives.
    fn joined(&self, reply: &Reply) -> Result<Number, u8>
        ensures { result ≡ joined self.now.op self.now.kind self.now.so_far
            (parts.number_of 0 [] 0 (value_in reply.now)) }
    {
        join(self.op, self.kind, &self.so_far, number_in(reply))
    }

    /// What is left after a reply.
    pub fn take(self, reply: &Reply) -> Result<Option<Work>, Refused>
        ensures rest { IfOk result (λ o. (threads : ℕ) (shapes : List Shape) (me : ℕ)
            → work_left threads shapes me o ≡ after_reply (total_rest self) reply.now) }
        ensures refused { IfErr result (λ e. RefusesSo e (after_reply (total_rest self) reply.now)) }
    {
        match self.joined(reply) {
            Ok(so_far) => Ok(Some(self.further(so_far))),
            Err(code) => Err(Refused::Error(code)),
        }
    }

    /// The read that is asked for.
    pub fn action(&self) -> Action
        ensures { IsAsked (total_rest self.now) result }
    {
        Action::Read {
            loc: self.element.location(),
            strict: false,
        }
    }

    /// The kind of the element.
    pub fn kind(&self) -> Kind
        ensures { result ≡ self.now.kind }
    {
        self.kind
    }
}
