//! Memory calls whose arguments have their values (UPC 7.2.5).

ghost use Rattle.std.specs.Prelude.{◌≡◌, ◌<◌, IfOk, IfSome, Some, None, true, false};
ghost use Rattle.upc_library.specs.layer.Walks.{rest};
ghost use Rattle.upc_library.specs.layer.Wishes.{IsWish, is_refusal};
ghost use Rattle.upc_library.specs.declared.copying.CopyWish.TheVariants as wishes;
ghost use Rattle.thread_steps.specs.Library as pure;
ghost use Rattle.thread_values.specs.layer.Copies.{copies};
ghost use Rattle.upc_values.specs.LibraryCalls.{gives_zero};
ghost use Rattle.upc_meaning_state.specs.code.Walking.{Answers, IsAnswered, IsAnsweredOrOver, IsUnfinished};
ghost use Rattle.upc_meaning_state.specs.layer.Came.{Came, state_seen};
ghost use Rattle.upc_meaning_state.specs.layer.Libraries.{expanded_to};
ghost use Rattle.upc_meaning_settings.specs.layer.Runners.{Fits, thread_seen};

use crate::library::are_numeric;
use crate::progress::{Progress, Step};
use block_layout::{Kind, LocalPtr};
use thread_values::{kept, private_of, scalar_of, spec_of};
use upc_library::{CopyWish, Copying};
use upc_meaning_settings::Runner;
use upc_text::{OutOfMemory, Place};
use upc_values::{Action, LibraryCall, Refused, Reply, Scalar, ToldEnd, Value};

// No action of a memory call is refused.
fn is_refusal(reply: &Reply) -> bool
    ensures { result ≡ is_refusal reply.now }
{
    matches!(reply, Reply::Refused(_))
}

impl<'r> Progress<'r> {
    // An action of the call, answered by the next reply.
    fn act_inside(
        &mut self,
        runner: Runner<'_>,
        place: Place,
        call: &Copying,
        action: Action,
    ) -> Result<Step<Reply>, OutOfMemory>
        requires { IsWish (rest call.now) (wishes.Act action) }
        ensures goes { IfOk result (λ s. IsAnswered (thread_seen runner.entry) place (rest call.now)
            (state_seen self.old) s self.new) }
        ensures answers { IfOk result Answers }
    {
        match self.ask(runner, call.reads(), action)? {
            Step::Ends(end) => Ok(Step::Ends(end)),
            Step::Gives(reply) => {
                if is_refusal(&reply) {
                    return Err(OutOfMemory);
                }
                Ok(Step::Gives(reply))
            }
        }
    }

    // A private cell is read.
    fn load_inside(
        &self,
        runner: Runner<'_>,
        place: Place,
        call: &Copying,
        p: LocalPtr,
        kind: Kind,
    ) -> Result<Step<Reply>, OutOfMemory>
        requires { IsWish (rest call.now) (wishes.LoadPrivate p kind) }
        ensures goes { IfOk result (λ s. IsAnswered (thread_seen runner.entry) place (rest call.now)
            (state_seen self.now) s self.now) }
        ensures answers { IfOk result Answers }
    {
        match p {
            LocalPtr::Shared { .. } => Err(OutOfMemory),
            _ => match self.store.load(&p, kind) {
                Err(code) => Ok(Step::Ends(ToldEnd::Fault(code, place))),
                Ok(v) => Ok(Step::Gives(Reply::Value(scalar_of(&v)))),
            },
        }
    }

    // A private cell is written.
    fn save_inside(
        &mut self,
        runner: Runner<'_>,
        place: Place,
        call: &Copying,
        p: LocalPtr,
        kind: Kind,
        v: Scalar,
    ) -> Result<Step<Reply>, OutOfMemory>
        requires { IsWish (rest call.now) (wishes.StorePrivate p kind v) }
        ensures goes { IfOk result (λ s. IsAnswered (thread_seen runner.entry) place (rest call.now)
            (state_seen self.old) s self.new) }
        ensures answers { IfOk result Answers }
    {
        match p {
            LocalPtr::Shared { .. } => Err(OutOfMemory),
            _ => match self.store.store(&p, kind, kept(kind, Value::Scalar(v))) {
                Err(code) => Ok(Step::Ends(ToldEnd::Fault(code, place))),
                Ok(()) => Ok(Step::Gives(Reply::Done)),
            },
        }
    }

    // What the call asks for is done, if it asks for anything.
    fn answer_inside(
        &mut self,
        runner: Runner<'_>,
        place: Place,
        call: &Copying,
        wish: CopyWish,
    ) -> Result<Option<Step<Reply>>, OutOfMemory>
        requires { IsWish (rest call.now) wish }
        ensures goes { IfOk result (λ s. IsAnsweredOrOver (thread_seen runner.entry) place (rest call.now)
            (state_seen self.old) s self.new) }
        ensures answers { IfOk result (λ s. IfSome s Answers) }
        ensures unfinished { IfOk result (λ s. IfSome s (λ _. IsUnfinished (rest call.now))) }
    {
        let step = match wish {
            CopyWish::Finished => return Ok(None),
            CopyWish::Act(action) => self.act_inside(runner, place, call, action)?,
            CopyWish::LoadPrivate(p, kind) => self.load_inside(runner, place, call, p, kind)?,
            CopyWish::StorePrivate(p, kind, v) => self.save_inside(
                runner, place, call, p, kind, v,
            )?,
        };
        Ok(Some(step))
    }

    // The call goes on, to its end.
    fn go_inside(
        &mut self,
        runner: Runner<'_>,
        place: Place,
        mut call: Copying,
    ) -> Result<Step<Value>, OutOfMemory>
        ensures { IfOk result (λ s. Came (expanded_to (thread_seen runner.entry) place (gives_zero (rest call))
            (state_seen self.old)) s self.new) }
    {
        loop {
            match self.answer_inside(runner, place, &call, call.wish())? {
                None => return Ok(Step::Gives(Value::Scalar(Scalar::Int(0)))),
                Some(Step::Ends(end)) => return Ok(Step::Ends(end)),
                Some(Step::Gives(reply)) => call.take(&reply),
            }
        }
    }

    /// A memory call.
    pub(crate) fn memory_call(
        &mut self,
        runner: Runner<'_>,
        place: Place,
        call: LibraryCall,
        shape: u32,
        args: &[Value],
    ) -> Result<Step<Value>, OutOfMemory>
        requires fits { Fits runner }
        requires copies { copies call ≡ true }
        ensures { IfOk result (λ s. Came (pure.library (thread_seen runner.entry) call shape place args.now
            (state_seen self.old)) s self.new) }
    {
        if !are_numeric(args) {
            return Err(OutOfMemory);
        }
        let spec = spec_of(call, args);
        let private = private_of(&self.store, call, &spec);
        match Copying::make(runner.alloc, &spec, runner.shapes, private, runner.threads) {
            Err(Refused::Memory) => Err(OutOfMemory),
            Err(Refused::Error(code)) => Ok(Step::Ends(ToldEnd::Fault(code, place))),
            Ok(copying) => self.go_inside(runner, place, copying),
        }
    }
}
