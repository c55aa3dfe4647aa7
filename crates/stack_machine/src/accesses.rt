//! Accesses to objects.

ghost use Rattle.std.specs.Prelude.{◌≡◌, ℕ, List, IfErr, IfOk, OnOk, Ok, true};
ghost use Rattle.upc_values.specs.declared.action.Action.{Action};
ghost use Rattle.upc_values.specs.declared.scalar.Scalar.TheVariants as scalar;
ghost use Rattle.private_store.specs.Cells as cells;
ghost use Rattle.private_store.specs.Cells.{IsPrivate};
ghost use Rattle.thread_steps.specs.Accesses as pure;
ghost use Rattle.thread_steps.specs.layer.Parts as parts;
ghost use Rattle.thread_steps.specs.layer.Ranges.{IsHeld, IsHeldScalar};
ghost use Rattle.thread_steps.specs.States.{Thread, Val};
ghost use Rattle.thread_steps.specs.Values as values;
ghost use Rattle.stack_code.specs.layer.Codes.{thread_of};
ghost use Rattle.stack_machine.specs.code.Kept.{HoldsHeld};
ghost use Rattle.stack_machine.specs.code.Turns.{Came, IsFirm, state_seen};

use crate::progress::Progress;
use crate::wish::Halt;
use block_layout::run_error::NULL_ACCESS;
use block_layout::{Kind, Loc, LocalPtr, SharedPtr};
use stack_code::{CellAccess, Code};
use thread_values::{cell, into_shared, is_read, kept, kept_scalar, scalar_of};
use upc_text::Place;
use upc_values::{Action, Reply, Scalar, Value};

impl Progress {
    /// The value of the cell of a kind to which a pointer leads.
    pub(crate) fn load(
        &mut self,
        code: &Code,
        access: CellAccess,
        place: Place,
        p: Value,
    ) -> Result<Value, Halt>
        requires pointer { IsHeld code.now.threads code.now.shapes p }
        requires store { HoldsHeld code.now.threads code.now.shapes self.old.store }
        ensures does { (thread budget : ℕ) (before : List Action)
            → Came before
            (pure.load (thread_of code.now thread budget) access.kind access.strict place p
            (state_seen before self.old))
            result self.old self.new }
        ensures value { IfOk result (IsHeld code.now.threads code.now.shapes) }
        ensures kept { OnOk result (self.new ≡ record self.old { reply = self.new.reply }) }
    {
        match p {
            Value::Scalar(v) => self.load_scalar(code, access, place, v),
            Value::Local(p) => self.load_local(code, access, place, p),
        }
    }

    fn load_scalar(
        &mut self,
        code: &Code,
        access: CellAccess,
        place: Place,
        p: Scalar,
    ) -> Result<Value, Halt>
        requires { IsHeldScalar code.now.threads code.now.shapes p }
        ensures does { (thread budget : ℕ) (before : List Action)
            → Came before
            (pure.load (thread_of code.now thread budget) access.kind access.strict place (Value.Scalar p)
            (state_seen before self.old))
            result self.old self.new }
        ensures value { IfOk result (IsHeld code.now.threads code.now.shapes) }
        ensures kept { OnOk result (self.new ≡ record self.old { reply = self.new.reply }) }
    {
        match p {
            Scalar::Shared(p) => self.load_shared(code, access, place, &p),
            _ => Err(self.fault(NULL_ACCESS, place)),
        }
    }

    fn load_local(
        &mut self,
        code: &Code,
        access: CellAccess,
        place: Place,
        p: LocalPtr,
    ) -> Result<Value, Halt>
        requires pointer { IsHeld code.now.threads code.now.shapes (Value.Local p) }
        requires store { HoldsHeld code.now.threads code.now.shapes self.old.store }
        ensures does { (thread budget : ℕ) (before : List Action)
            → Came before
            (pure.load (thread_of code.now thread budget) access.kind access.strict place (Value.Local p)
            (state_seen before self.old))
            result self.old self.new }
        ensures value { IfOk result (IsHeld code.now.threads code.now.shapes) }
        ensures kept { OnOk result (self.new ≡ record self.old { reply = self.new.reply }) }
    {
        match p {
            LocalPtr::Shared {
                object,
                thread,
                offset,
            } => {
                let relaxed = CellAccess {
                    kind: access.kind,
                    strict: false,
                };
                self.load_shared(code, relaxed, place, &into_shared(object, thread, offset))
            }
            _ => self.load_private(access.kind, place, &p),
        }
    }

    // The read of a location.
    #[tactic(auto, unfolding(thread_steps::specs::Actions::ask))]
    fn read(&mut self, code: &Code, access: CellAccess, loc: Loc) -> Result<Scalar, Halt>
        ensures does { (thread budget : ℕ) (before : List Action)
            → Came before
            (pure.read (thread_of code.now thread budget) access.kind access.strict loc
            (state_seen before self.old))
            result self.old self.new }
        ensures value { IfOk result (IsHeldScalar code.now.threads code.now.shapes) }
        ensures kept { OnOk result (self.new ≡ record self.old { reply = self.new.reply }) }
    {
        let strict = access.strict;
        match self.reply.take() {
            None => Err(Halt::Asks(Action::Read { loc, strict }, self.ticks)),
            Some(reply) => match reply {
                Reply::Value(v) => {
                    if is_read(code.threads(), code.shapes(), access.kind, &v) {
                        Ok(v)
                    } else {
                        Err(Halt::Memory)
                    }
                }
                _ => Err(Halt::Memory),
            },
        }
    }

    fn load_shared(
        &mut self,
        code: &Code,
        access: CellAccess,
        place: Place,
        p: &SharedPtr,
    ) -> Result<Value, Halt>
        requires { IsHeldScalar code.now.threads code.now.shapes (scalar.Shared p.now) }
        ensures does { (thread budget : ℕ) (before : List Action)
            → Came before
            (pure.load_shared (thread_of code.now thread budget) access.kind access.strict place p.now
            (state_seen before self.old))
            result self.old self.new }
        ensures value { IfOk result (IsHeld code.now.threads code.now.shapes) }
        ensures kept { OnOk result (self.new ≡ record self.old { reply = self.new.reply }) }
    {
        match cell(code.threads(), code.shapes(), access.kind, p) {
            Err(error) => Err(self.fault(error, place)),
            Ok(loc) => match self.read(code, access, loc) {
                Err(e) => Err(e),
                Ok(v) => Ok(Value::Scalar(v)),
            },
        }
    }

    fn load_private(&self, kind: Kind, place: Place, p: &LocalPtr) -> Result<Value, Halt>
        requires { IsPrivate p.now }
        ensures does { (before : List Action)
            → Came before (pure.load_private kind place p.now (state_seen before self.now)) result
            self.now self.now }
        ensures value { IfOk result (λ v. cells.loaded p.now kind self.now.store ≡ Ok v) }
    {
        match self.store.load(p, kind) {
            Ok(v) => Ok(v),
            Err(code) => Err(self.fault(code, place)),
        }
    }

    /// A new value of the cell of a kind to which a pointer leads.
    pub(crate) fn save(
        &mut self,
        code: &Code,
        access: CellAccess,
        place: Place,
        p: Value,
        v: Value,
    ) -> Result<(), Halt>
        requires pointer { IsHeld code.now.threads code.now.shapes p }
        requires value { IsHeld code.now.threads code.now.shapes v }
        requires store { HoldsHeld code.now.threads code.now.shapes self.old.store }
        ensures does { (thread budget : ℕ) (before : List Action)
            → Came before
            (pure.save (thread_of code.now thread budget) access.kind access.strict place p v
            (state_seen before self.old))
            result self.old self.new }
        ensures held { OnOk result (HoldsHeld code.now.threads code.now.shapes self.new.store) }
        ensures kept { OnOk result
            (self.new ≡ record self.old { store = self.new.store; reply = self.new.reply }) }
    {
        match p {
            Value::Scalar(p) => self.save_scalar(code, access, place, p, v),
            Value::Local(p) => self.save_local(code, access, place, p, v),
        }
    }

    fn save_scalar(
        &mut self,
        code: &Code,
        access: CellAccess,
        place: Place,
        p: Scalar,
        v: Value,
    ) -> Result<(), Halt>
        requires { IsHeldScalar code.now.threads code.now.shapes p }
        ensures does { (thread budget : ℕ) (before : List Action)
            → Came before
            (pure.save (thread_of code.now thread budget) access.kind access.strict place (Value.Scalar p) v
            (state_seen before self.old))
            result self.old self.new }
        ensures kept { OnOk result (self.new ≡ record self.old { reply = self.new.reply }) }
    {
        match p {
            Scalar::Shared(p) => self.save_shared(code, access, place, &p, v),
            _ => Err(self.fault(NULL_ACCESS, place)),
        }
    }

    fn save_local(
        &mut self,
        code: &Code,
        access: CellAccess,
        place: Place,
        p: LocalPtr,
        v: Value,
    ) -> Result<(), Halt>
        requires pointer { IsHeld code.now.threads code.now.shapes (Value.Local p) }
        requires value { IsHeld code.now.threads code.now.shapes v }
        requires store { HoldsHeld code.now.threads code.now.shapes self.old.store }
        ensures does { (thread budget : ℕ) (before : List Action)
            → Came before
            (pure.save (thread_of code.now thread budget) access.kind access.strict place (Value.Local p) v
            (state_seen before self.old))
            result self.old self.new }
        ensures held { OnOk result (HoldsHeld code.now.threads code.now.shapes self.new.store) }
        ensures kept { OnOk result
            (self.new ≡ record self.old { store = self.new.store; reply = self.new.reply }) }
    {
        match p {
            LocalPtr::Shared {
                object,
                thread,
                offset,
            } => {
                let relaxed = CellAccess {
                    kind: access.kind,
                    strict: false,
                };
                self.save_shared(
                    code,
                    relaxed,
                    place,
                    &into_shared(object, thread, offset),
                    v,
                )
            }
            _ => self.save_private(access.kind, place, &p, v),
        }
    }

    // The write of a location.
    #[tactic(auto, unfolding(thread_steps::specs::Actions::ask))]
    fn write(&mut self, strict: bool, loc: Loc, value: Scalar) -> Result<(), Halt>
        ensures does { (τ : Thread) (before : List Action)
            → Came before (parts.write τ strict loc value (state_seen before self.old)) result
            self.old self.new }
        ensures kept { OnOk result (self.new ≡ record self.old { reply = self.new.reply }) }
    {
        match self.reply.take() {
            None => Err(Halt::Asks(Action::Write { loc, value, strict }, self.ticks)),
            Some(Reply::Done) => Ok(()),
            Some(_) => Err(Halt::Memory),
        }
    }

    fn save_shared(
        &mut self,
        code: &Code,
        access: CellAccess,
        place: Place,
        p: &SharedPtr,
        v: Value,
    ) -> Result<(), Halt>
        requires { IsHeldScalar code.now.threads code.now.shapes (scalar.Shared p.now) }
        ensures does { (thread budget : ℕ) (before : List Action)
            → Came before
            (pure.save_shared (thread_of code.now thread budget) access.kind access.strict place p.now v
            (state_seen before self.old))
            result self.old self.new }
        ensures kept { OnOk result (self.new ≡ record self.old { reply = self.new.reply }) }
    {
        match cell(code.threads(), code.shapes(), access.kind, p) {
            Err(error) => Err(self.fault(error, place)),
            Ok(loc) => self.write(access.strict, loc, kept_scalar(access.kind, scalar_of(&v))),
        }
    }

    /// A new value of the cell of a kind of a private object.
    #[tactic(auto, using(thread_steps::proofs::Blanks::kept_fits))]
    pub(crate) fn save_private(
        &mut self,
        kind: Kind,
        place: Place,
        p: &LocalPtr,
        v: Value,
    ) -> Result<(), Halt>
        requires { IsPrivate p.now }
        ensures does { (before : List Action)
            → Came before (pure.save_private kind place p.now v (state_seen before self.old)) result
            self.old self.new }
        ensures exact { (before : List Action)
            → OnOk result (pure.save_private kind place p.now v (state_seen before self.old)
            ≡ Val tt (state_seen before self.new)) }
        ensures stored { OnOk result
            (cells.stored p.now kind (values.kept kind v) self.old.store ≡ Ok self.new.store) }
        ensures kept { OnOk result (self.new ≡ record self.old { store = self.new.store }) }
        ensures firm { IfErr result IsFirm }
    {
        match self.store.store(p, kind, kept(kind, v)) {
            Ok(()) => Ok(()),
            Err(code) => Err(self.fault(code, place)),
        }
    }
}
