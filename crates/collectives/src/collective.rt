//! The collective calls 5 to 12, step by step (UPC 7.3).

ghost use Rattle.std.specs.Prelude.{◌≡◌, ◌<◌, ◌≤◌, ℕ, List, IfOk, IfErr};
ghost use Rattle.std.specs.Option.{option_copied};
ghost use Rattle.block_layout.specs.declared.kind.Shape.{Shape};
ghost use Rattle.upc_values.specs.Expansion.{after_reply, bind, does};
ghost use Rattle.upc_values.specs.declared.action.Action.TheVariants as act;
ghost use Rattle.upc_values.specs.Expansions as said;
ghost use Rattle.upc_values.specs.declared.refused.Refused.TheVariants.{Memory};
ghost use Rattle.collectives.specs.layer.Walks.{rest, from_entry};
ghost use Rattle.collectives.specs.layer.Wishes.{IsWish, RefusesSo, behind, kind_read};

use crate::asked::Asked;
use crate::stage::{Stage, listed};
use crate::thread::{Seat, Thread};
use crate::wish::CollWish;
use block_layout::{Kind, Shape};
use std::alloc::Global;
use upc_values::{Refused, Reply, Scalar};

/// A collective call on its way: the thread that makes it, and what comes next.
#[derive(Drop)]
pub struct Collective {
    seat: Seat,
    stage: Stage,
}

// A call whose Meet is asked for first.
fn begun(
    alloc: Global,
    seat: Seat,
    call: u8,
    args: &[Scalar],
    asked: Asked,
) -> Result<Collective, Refused>
    ensures made { IfOk result (λ c. (shapes : List Shape) → rest shapes c
        ≡ bind (does (act.Meet call args.now)) (λ u. from_entry seat.threads shapes seat.number asked)) }
    ensures memory { IfErr result (λ e. e ≡ Memory) }
{
    let args = listed(alloc, args)?;
    Ok(Collective {
        seat,
        stage: Stage::Meets(call, args, asked),
    })
}

impl Collective {
    /// Thread `me` of so many begins the collective call with this number, from 5 to 12, and these arguments.
    ///
    /// Refused by `NULL_ACCESS` or `LIBRARY_ARGS`.
    pub fn make(
        alloc: Global,
        call: u8,
        args: &[Scalar],
        me: u32,
        threads: u32,
    ) -> Result<Collective, Refused>
        requires some { 0 < threads }
        requires few { threads ≤ 32 }
        ensures made { IfOk result (λ c. (shapes : List Shape)
            → rest shapes c ≡ said.collective threads shapes me call args.now) }
        ensures refused { IfErr result (λ e. (shapes : List Shape)
            → RefusesSo e (said.collective threads shapes me call args.now)) }
    {
        match Asked::read(call, args) {
            Ok(asked) => begun(
                alloc,
                Seat {
                    number: me,
                    threads,
                },
                call,
                args,
                asked,
            ),
            Err(e) => Err(e),
        }
    }

    /// A reply to what was asked for last is taken; `shapes` are the program's. After a refusal the call is not called
    /// again.
    ///
    /// Refused by the code of the reply, or by `SIGNED_OVERFLOW`, `OUT_OF_OBJECT`, `POINTER_RANGE`, `CELL_TYPE` or
    /// `LIBRARY_ARGS`.
    pub fn take(&mut self, alloc: Global, reply: &Reply, shapes: &[Shape]) -> Result<(), Refused>
        ensures rest { IfOk result (λ _. rest shapes.now self.new
            ≡ after_reply (rest shapes.now self.old) reply.now) }
        ensures refused { IfErr result (λ e.
            RefusesSo e (after_reply (rest shapes.now self.old) reply.now)) }
    {
        let thread = Thread {
            number: self.seat.number,
            threads: self.seat.threads,
            shapes,
        };
        let stage = std::mem::replace(&mut self.stage, Stage::Over);
        match stage.take(alloc, &thread, reply) {
            Ok(stage) => {
                self.stage = stage;
                Ok(())
            }
            Err(e) => Err(e),
        }
    }

    /// What is asked for; want of memory is the one refusal.
    pub fn wish(&self, alloc: Global) -> Result<CollWish, Refused>
        ensures wish { IfOk result (λ w. (shapes : List Shape) → IsWish (rest shapes self.now) w) }
        ensures memory { IfErr result (λ e. e ≡ Memory) }
    {
        let wish = self.stage.wish(alloc)?;
        Ok(wish)
    }

    /// What is asked for next, where the reply answers what was asked for last; without one, the same once more.
    /// `shapes` are the program's. After a refusal the call is not called again.
    pub fn next(
        &mut self,
        alloc: Global,
        reply: Option<&Reply>,
        shapes: &[Shape],
    ) -> Result<CollWish, Refused>
        ensures rest { IfOk result (λ _. rest shapes.now self.new
            ≡ behind (rest shapes.now self.old) (option_copied reply.entry)) }
        ensures wish { IfOk result (λ w. IsWish (rest shapes.now self.new) w) }
        ensures refused { IfErr result (λ e.
            RefusesSo e (behind (rest shapes.now self.old) (option_copied reply.entry))) }
    {
        match reply {
            None => self.wish(alloc),
            Some(reply) => match self.take(alloc, reply, shapes) {
                Ok(()) => self.wish(alloc),
                Err(e) => Err(e),
            },
        }
    }

    /// The kind of the cell that is read, None where anything else is asked for.
    pub fn reads(&self) -> Option<Kind>
        ensures { (shapes : List Shape) → result ≡ kind_read (rest shapes self.now) }
    {
        self.stage.reads()
    }
}
