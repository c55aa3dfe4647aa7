//! Parameters (C99 6.5.2.2).

ghost use Rattle.std.specs.Prelude.{◌≡◌, ℕ, List, IfErr, OnOk};
ghost use Rattle.block_layout.specs.declared.kind.Shape.{Shape};
ghost use Rattle.upc_values.specs.declared.action.Action.{Action};
ghost use Rattle.private_store.specs.Live.{local_number};
ghost use Rattle.private_store.specs.Cells.{IsPrivate};
ghost use Rattle.thread_steps.specs.Blocks as blocks;
ghost use Rattle.thread_steps.specs.layer.Parts as parts;
ghost use Rattle.thread_steps.specs.layer.Ranges.{IsHeld};
ghost use Rattle.thread_steps.specs.States.{Thread, Val};
ghost use Rattle.stack_code.specs.layer.Steps.{received};
ghost use Rattle.stack_machine.specs.code.Kept.{AreHeld, HoldsHeld};
ghost use Rattle.stack_machine.specs.code.Receiving.{received_one};
ghost use Rattle.stack_machine.specs.code.Turns.{Came, IsFirm, state_seen};

use crate::progress::Progress;
use crate::wish::Halt;
use block_layout::LocalPtr;
use stack_code::CellAccess;
use upc_text::Place;
use upc_values::Value;

// The number of a name takes 32 bits.
const MOST_NAMES: usize = 4_294_967_295;

impl Progress {
    // The pointer to a local object.
    fn local_pointer(&self, n: u32) -> LocalPtr
        ensures value { parts.pointer_to (local_number n self.now.store) ≡ Value.Local result }
        ensures private { IsPrivate result }
    {
        match self.store.local(n) {
            None => LocalPtr::Null,
            Some(object) => LocalPtr::Private { object, offset: 0 },
        }
    }

    // A parameter gets the value of its argument.
    fn receive_one(
        &mut self,
        number: usize,
        cell: Option<CellAccess>,
        v: Value,
        place: Place,
    ) -> Result<(), Halt>
        ensures does { (τ : Thread) (before : List Action)
            → Came before (received_one τ place number cell v (state_seen before self.old)) result
            self.old self.new }
        ensures exact { (τ : Thread) (before : List Action)
            → OnOk result (received_one τ place number cell v (state_seen before self.old)
            ≡ Val tt (state_seen before self.new)) }
        ensures firm { IfErr result IsFirm }
        ensures kept { OnOk result (self.new ≡ record self.old { store = self.new.store }) }
        ensures held { (threads : ℕ) (shapes : List Shape) → HoldsHeld threads shapes self.old.store
            → IsHeld threads shapes v → OnOk result (HoldsHeld threads shapes self.new.store) }
    {
        if number > MOST_NAMES {
            return Err(Halt::Memory);
        }
        match cell {
            None => Ok(()),
            Some(access) => {
                let p = self.local_pointer(number as u32);
                self.save_private(access.kind, place, &p, v)
            }
        }
    }

    /// The parameters get the values of the arguments, as far as there are both.
    #[tactic(auto, using(crate::proofs::Parameters::received_none))]
    pub(crate) fn receive(
        &mut self,
        cells: &[Option<CellAccess>],
        given: &[Value],
        place: Place,
    ) -> Result<(), Halt>
        ensures does { (τ : Thread) (before : List Action)
            → Came before (received τ place 0 cells.now given.now (state_seen before self.old)) result
            self.old self.new }
        ensures firm { IfErr result IsFirm }
        ensures kept { OnOk result (self.new ≡ record self.old { store = self.new.store }) }
        ensures held { (threads : ℕ) (shapes : List Shape) → HoldsHeld threads shapes self.old.store
            → AreHeld threads shapes given.now → OnOk result (HoldsHeld threads shapes self.new.store) }
    {
        for i in 0..cells.len().min(given.len()) {
            match self.receive_one(i, cells[i], given[i], place) {
                Err(e) => return Err(e),
                Ok(()) => {}
            }
        }
        Ok(())
    }
}
