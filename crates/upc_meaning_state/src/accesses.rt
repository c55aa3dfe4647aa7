//! Accesses to objects.

ghost use Rattle.std.specs.Prelude.{IfOk};
ghost use Rattle.private_store.specs.Cells.{IsPrivate};
ghost use Rattle.thread_steps.specs.Accesses as pure;
ghost use Rattle.thread_steps.specs.layer.Parts as parts;
ghost use Rattle.upc_meaning_state.specs.layer.Came.{Came, state_seen};
ghost use Rattle.upc_meaning_settings.specs.layer.Runners.{Fits, thread_seen};

use crate::progress::{Progress, Step};
use block_layout::run_error::NULL_ACCESS;
use block_layout::{Kind, Loc, LocalPtr, SharedPtr};
use thread_values::{into_shared, kept, kept_scalar, scalar_of};
use upc_meaning_settings::{Runner, cell_at};
use upc_text::{OutOfMemory, Place};
use upc_values::{Action, Reply, Scalar, ToldEnd, Value};

impl<'r> Progress<'r> {
    // The read of a location.
    fn read(
        &mut self,
        runner: Runner<'_>,
        kind: Kind,
        strict: bool,
        loc: Loc,
    ) -> Result<Step<Scalar>, OutOfMemory>
        ensures { IfOk result (λ s. Came (pure.read (thread_seen runner.entry) kind strict loc (state_seen self.old)) s
            self.new) }
    {
        match self.ask(runner, Some(kind), Action::Read { loc, strict })? {
            Step::Ends(end) => Ok(Step::Ends(end)),
            Step::Gives(Reply::Value(v)) => Ok(Step::Gives(v)),
            Step::Gives(_) => Err(OutOfMemory),
        }
    }

    // The write of a location.
    fn write(
        &mut self,
        runner: Runner<'_>,
        strict: bool,
        loc: Loc,
        value: Scalar,
    ) -> Result<Step<()>, OutOfMemory>
        ensures { IfOk result (λ s. Came (parts.write (thread_seen runner.entry) strict loc value (state_seen self.old))
            s self.new) }
    {
        match self.ask(runner, None, Action::Write { loc, value, strict })? {
            Step::Ends(end) => Ok(Step::Ends(end)),
            Step::Gives(_) => Ok(Step::Gives(())),
        }
    }

    fn load_shared(
        &mut self,
        runner: Runner<'_>,
        kind: Kind,
        strict: bool,
        place: Place,
        p: &SharedPtr,
    ) -> Result<Step<Value>, OutOfMemory>
        requires { Fits runner }
        ensures { IfOk result (λ s. Came (pure.load_shared (thread_seen runner.entry) kind strict place p.now
            (state_seen self.old)) s self.new) }
    {
        match cell_at(runner, kind, p)? {
            Err(code) => Ok(Step::Ends(ToldEnd::Fault(code, place))),
            Ok(loc) => match self.read(runner, kind, strict, loc)? {
                Step::Ends(end) => Ok(Step::Ends(end)),
                Step::Gives(v) => Ok(Step::Gives(Value::Scalar(v))),
            },
        }
    }

    fn load_private(&self, kind: Kind, place: Place, p: &LocalPtr) -> Step<Value>
        requires { IsPrivate p.now }
        ensures { Came (pure.load_private kind place p.now (state_seen self.now)) result self.now }
    {
        match self.store.load(p, kind) {
            Ok(v) => Step::Gives(v),
            Err(code) => Step::Ends(ToldEnd::Fault(code, place)),
        }
    }

    /// The value of the cell of a kind to which a pointer leads.
    #[tactic(auto, unfolding(thread_steps::specs::Accesses::load))]
    pub(crate) fn load(
        &mut self,
        runner: Runner<'_>,
        kind: Kind,
        strict: bool,
        place: Place,
        p: Value,
    ) -> Result<Step<Value>, OutOfMemory>
        requires { Fits runner }
        ensures { IfOk result (λ s. Came (pure.load (thread_seen runner.entry) kind strict place p
            (state_seen self.old)) s self.new) }
    {
        match p {
            Value::Scalar(Scalar::Shared(p)) => self.load_shared(runner, kind, strict, place, &p),
            Value::Scalar(_) => Ok(Step::Ends(ToldEnd::Fault(NULL_ACCESS, place))),
            Value::Local(
                LocalPtr::Shared {
                    object,
                    thread,
                    offset,
                },
            ) => self.load_shared(
                runner,
                kind,
                false,
                place,
                &into_shared(object, thread, offset),
            ),
            Value::Local(p) => Ok(self.load_private(kind, place, &p)),
        }
    }

    fn save_shared(
        &mut self,
        runner: Runner<'_>,
        kind: Kind,
        strict: bool,
        place: Place,
        p: &SharedPtr,
        v: Value,
    ) -> Result<Step<()>, OutOfMemory>
        requires { Fits runner }
        ensures { IfOk result (λ s. Came (pure.save_shared (thread_seen runner.entry) kind strict place p.now v
            (state_seen self.old)) s self.new) }
    {
        match cell_at(runner, kind, p)? {
            Err(code) => Ok(Step::Ends(ToldEnd::Fault(code, place))),
            Ok(loc) => self.write(runner, strict, loc, kept_scalar(kind, scalar_of(&v))),
        }
    }

    fn save_private(&mut self, kind: Kind, place: Place, p: &LocalPtr, v: Value) -> Step<()>
        requires { IsPrivate p.now }
        ensures { Came (pure.save_private kind place p.now v (state_seen self.old)) result self.new }
    {
        match self.store.store(p, kind, kept(kind, v)) {
            Ok(()) => Step::Gives(()),
            Err(code) => Step::Ends(ToldEnd::Fault(code, place)),
        }
    }

    /// A new value of the cell of a kind to which a pointer leads.
    #[tactic(auto, unfolding(thread_steps::specs::Accesses::save))]
    pub(crate) fn save(
        &mut self,
        runner: Runner<'_>,
        kind: Kind,
        strict: bool,
        place: Place,
        p: Value,
        v: Value,
    ) -> Result<Step<()>, OutOfMemory>
        requires { Fits runner }
        ensures { IfOk result (λ s. Came (pure.save (thread_seen runner.entry) kind strict place p v
            (state_seen self.old)) s self.new) }
    {
        match p {
            Value::Scalar(Scalar::Shared(p)) => {
                self.save_shared(runner, kind, strict, place, &p, v)
            }
            Value::Scalar(_) => Ok(Step::Ends(ToldEnd::Fault(NULL_ACCESS, place))),
            Value::Local(
                LocalPtr::Shared {
                    object,
                    thread,
                    offset,
                },
            ) => {
                let there = into_shared(object, thread, offset);
                self.save_shared(runner, kind, false, place, &there, v)
            }
            Value::Local(p) => Ok(self.save_private(kind, place, &p, v)),
        }
    }
}
