//! Calls of the library that ask for many actions, on their way.

ghost use Rattle.std.specs.Prelude.{◌≡◌, ◌<◌, List, Option, IfOk, IfErr, OnOk};
ghost use Rattle.block_layout.specs.declared.kind.Shape.{Shape};
ghost use Rattle.upc_values.specs.declared.action.Reply.{Reply};
ghost use Rattle.upc_values.specs.Expansion.{after_reply};
ghost use Rattle.upc_library.specs.layer.Walks.{rest, replies_left};
ghost use Rattle.collectives.specs.layer.Walks as together;
ghost use Rattle.upc_library.specs.layer.Wishes.{IsWish, RefusesSo, is_refusal, kind_read};
ghost use Rattle.stack_machine.specs.code.Calls.{left_of, turns_left, IsNearer};

use block_layout::{Kind, Shape};
use collectives::{CollWish, Collective};
use std::alloc::Global;
use upc_library::{CopyWish, Copying};
use upc_text::{OutOfMemory, Place};
use upc_values::{Refused, Reply};

/// A call on its way, reply by reply.
#[derive(Drop)]
pub(crate) enum Walk {
    Copying(Copying),
    Collective(Collective),
}

/// A call on its way, with its place in the source.
#[derive(Drop)]
pub(crate) struct OpenCall {
    pub(crate) walk: Walk,
    pub(crate) place: Place,
}

// No action of a memory call is refused.
fn is_refusal(reply: &Reply) -> bool
    ensures { result ≡ is_refusal reply.now }
{
    matches!(reply, Reply::Refused(_))
}

// A memory call is answered.
fn take_copied(copying: &mut Copying, reply: &Reply) -> Result<(), Refused>
    ensures rest { OnOk result (rest copying.new ≡ after_reply (rest copying.old) reply.now) }
    ensures refused { IfErr result (λ e. RefusesSo e (after_reply (rest copying.old) reply.now)) }
    ensures falls { OnOk result
        (0 < replies_left copying.old → replies_left copying.new < replies_left copying.old) }
{
    if is_refusal(reply) {
        return Err(Refused::Memory);
    }
    copying.take(reply);
    Ok(())
}

// What a collective call asks for, as a memory call would.
fn wish_together(collective: &Collective, alloc: Global) -> Result<CopyWish, OutOfMemory>
    ensures { IfOk result (λ w. (shapes : List Shape) → IsWish (together.rest shapes collective.now) w) }
{
    match collective.wish(alloc) {
        Ok(CollWish::Act(action)) => Ok(CopyWish::Act(action)),
        Ok(CollWish::Finished) => Ok(CopyWish::Finished),
        Err(_) => Err(OutOfMemory),
    }
}

// The kind of the cell that a collective call asks to read, None where it asks for anything else.
fn reads_together(collective: &Collective) -> Option<Kind>
    ensures { (shapes : List Shape) → result ≡ kind_read (together.rest shapes collective.now) }
{
    collective.reads()
}

// A collective call is answered.
fn take_together(
    collective: &mut Collective,
    alloc: Global,
    reply: &Reply,
    shapes: &[Shape],
) -> Result<(), Refused>
    ensures rest { OnOk result (together.rest shapes.now collective.new
        ≡ after_reply (together.rest shapes.now collective.old) reply.now) }
    ensures refused { IfErr result (λ e.
        RefusesSo e (after_reply (together.rest shapes.now collective.old) reply.now)) }
{
    match collective.take(alloc, reply, shapes) {
        Ok(()) => Ok(()),
        Err(e) => Err(e),
    }
}

impl Walk {
    /// What the call asks for next.
    pub(crate) fn wish(&self, alloc: Global) -> Result<CopyWish, OutOfMemory>
        ensures { IfOk result (λ w. (shapes : List Shape) → IsWish (left_of shapes self.now) w) }
    {
        match self {
            Walk::Copying(copying) => Ok(copying.wish()),
            Walk::Collective(collective) => wish_together(collective, alloc),
        }
    }

    /// The kind of the cell that the call asks to read in a shared object, None where it asks for anything else.
    pub(crate) fn reads(&self) -> Option<Kind>
        ensures { (shapes : List Shape) → result ≡ kind_read (left_of shapes self.now) }
    {
        match self {
            Walk::Copying(copying) => copying.reads(),
            Walk::Collective(collective) => reads_together(collective),
        }
    }

    /// What the call asked for is answered; `shapes` are the program's.
    pub(crate) fn take(
        &mut self,
        alloc: Global,
        reply: &Reply,
        shapes: &[Shape],
    ) -> Result<(), Refused>
        ensures rest { OnOk result
            (left_of shapes.now self.new ≡ after_reply (left_of shapes.now self.old) reply.now) }
        ensures refused { IfErr result (λ e. RefusesSo e (after_reply (left_of shapes.now self.old) reply.now)) }
        ensures falls { OnOk result ((before after : Option Reply) → IsNearer self.old before after
            → turns_left self.new after < turns_left self.old before) }
    {
        match self {
            Walk::Copying(copying) => take_copied(copying, reply),
            Walk::Collective(collective) => take_together(collective, alloc, reply, shapes),
        }
    }
}
