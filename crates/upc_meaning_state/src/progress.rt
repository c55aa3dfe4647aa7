//! The state of a thread beside what is left to do.

ghost use Rattle.std.specs.Prelude.{◌≡◌, ◌<◌, length, IfOk};
ghost use Rattle.upc_meaning_state.specs.code.Fitting.{beat, fits_read};
ghost use Rattle.block_layout.specs.Shapes.{IsShape};
ghost use Rattle.upc_values.specs.Lists.{Each};
ghost use Rattle.upc_values.specs.Formed as formed;
ghost use Rattle.thread_steps.specs.Actions as pure;
ghost use Rattle.thread_steps.specs.Blocks as blocks;
ghost use Rattle.upc_meaning_state.specs.layer.Came.{Came, state_seen};
ghost use Rattle.upc_meaning_settings.specs.layer.Runners.{thread_seen};

use block_layout::run_error::{BARRIER_IN_FORALL, PHASE_ORDER};
use block_layout::{Kind, Shape};
use private_store::Store;
use thread_values::{has_turn, is_read, reply_fits, truth_value};
use upc_meaning_settings::Runner;
use upc_text::{OutOfMemory, Place};
use upc_values::{Action, Mark, Refused, Reply, ToldEnd, Value};

/// What comes of a step: a value, or the end of the thread, where it may want an action.
#[derive(Drop)]
pub enum Step<T> {
    Gives(T),
    Ends(ToldEnd),
}

/// The private objects of a thread, its ticks, whether a notify is open, what it did, and the replies that are left.
#[derive(Drop)]
pub struct Progress<'r> {
    pub store: Store,
    pub ticks: u64,
    pub notified: bool,
    pub actions: Vec<Action>,
    pub replies: &'r [Reply],
}

// Whether a reply fits a read of a cell of this kind.
fn fits_read(runner: Runner<'_>, kind: Option<Kind>, reply: &Reply) -> bool
    ensures { result ≡ fits_read runner.entry.threads runner.entry.shapes.now kind reply.now }
{
    match (reply, kind) {
        (Reply::Value(v), Some(kind)) => is_read(runner.threads, runner.shapes, kind, v),
        _ => false,
    }
}

// Whether a reply fits an action, where a read is of a cell of this kind.
fn fits(runner: Runner<'_>, kind: Option<Kind>, action: &Action, reply: &Reply) -> bool
    ensures { result ≡ formed.fits runner.entry.threads runner.entry.shapes.now kind action.now reply.now }
{
    match action {
        Action::Read { .. } => fits_read(runner, kind, reply),
        _ => reply_fits(runner.threads, runner.shapes, action, reply),
    }
}

impl<'r> Progress<'r> {
    /// One action, answered by the next reply. A read is of a cell of that kind.
    #[tactic(auto, unfolding(thread_steps::specs::Actions::ask))]
    pub(crate) fn ask(
        &mut self,
        runner: Runner<'_>,
        kind: Option<Kind>,
        action: Action,
    ) -> Result<Step<Reply>, OutOfMemory>
        ensures { IfOk result (λ s. Came (pure.ask (thread_seen runner.entry) kind action (state_seen self.old)) s
            self.new) }
    {
        match self.replies.split_first() {
            None => Ok(Step::Ends(ToldEnd::Wants(action))),
            Some((reply, more)) => {
                if !fits(runner, kind, &action, reply) {
                    return self.misfit();
                }
                self.actions.push(action)?;
                self.replies = more;
                Ok(Step::Gives(*reply))
            }
        }
    }

    // The end by a reply that does not fit.
    fn misfit(&self) -> Result<Step<Reply>, OutOfMemory>
        ensures { IfOk result (λ s. s ≡ Step.Ends (ToldEnd.Misfit (length self.now.actions.items))) }
    {
        if self.actions.len() > 4_294_967_295 {
            return Err(OutOfMemory);
        }
        Ok(Step::Ends(ToldEnd::Misfit(self.actions.len() as u32)))
    }

    // One action whose reply is Done, or a refusal.
    fn does(
        &mut self,
        runner: Runner<'_>,
        place: Place,
        action: Action,
    ) -> Result<Step<()>, OutOfMemory>
        ensures { IfOk result (λ s. Came (pure.does (thread_seen runner.entry) place action (state_seen self.old)) s
            self.new) }
    {
        match self.ask(runner, None, action)? {
            Step::Ends(end) => Ok(Step::Ends(end)),
            Step::Gives(Reply::Refused(code)) => Ok(Step::Ends(ToldEnd::Fault(code, place))),
            Step::Gives(_) => Ok(Step::Gives(())),
        }
    }

    // A Beat at each multiple of 1,024 ticks.
    fn beat(&mut self, runner: Runner<'_>) -> Result<Step<()>, OutOfMemory>
        ensures { IfOk result (λ s. Came (beat (thread_seen runner.entry) self.old.ticks (state_seen self.old)) s
            self.new) }
    {
        if self.ticks % 1024 != 0 {
            return Ok(Step::Gives(()));
        }
        match self.ask(runner, None, Action::Beat)? {
            Step::Ends(end) => Ok(Step::Ends(end)),
            Step::Gives(_) => Ok(Step::Gives(())),
        }
    }

    /// One tick.
    #[tactic(auto, unfolding(thread_steps::specs::Actions::tick))]
    pub fn tick(&mut self, runner: Runner<'_>) -> Result<Step<()>, OutOfMemory>
        ensures { IfOk result (λ s. Came (pure.tick (thread_seen runner.entry) (state_seen self.old)) s self.new) }
    {
        if self.ticks == u64::MAX {
            return Err(OutOfMemory);
        }
        self.ticks += 1;
        let ticks = self.ticks;
        match self.beat(runner)? {
            Step::Ends(end) => Ok(Step::Ends(end)),
            Step::Gives(()) => {
                if ticks == runner.budget {
                    return Ok(Step::Ends(ToldEnd::OutOfTicks));
                }
                Ok(Step::Gives(()))
            }
        }
    }

    /// A upc_notify (UPC 6.6.1).
    #[tactic(auto, unfolding(thread_steps::specs::Actions::notify))]
    pub(crate) fn notify(
        &mut self,
        runner: Runner<'_>,
        place: Place,
        mark: Mark,
    ) -> Result<Step<()>, OutOfMemory>
        ensures { IfOk result (λ s. Came (pure.notify (thread_seen runner.entry) place mark (state_seen self.old)) s
            self.new) }
    {
        if self.store.is_controlled() {
            return Ok(Step::Ends(ToldEnd::Fault(BARRIER_IN_FORALL, place)));
        }
        if self.notified {
            return Ok(Step::Ends(ToldEnd::Fault(PHASE_ORDER, place)));
        }
        match self.does(runner, place, Action::Notify(mark))? {
            Step::Ends(end) => Ok(Step::Ends(end)),
            Step::Gives(()) => {
                self.notified = true;
                Ok(Step::Gives(()))
            }
        }
    }

    /// A upc_wait (UPC 6.6.1).
    #[tactic(auto, unfolding(thread_steps::specs::Actions::wait))]
    pub(crate) fn wait(
        &mut self,
        runner: Runner<'_>,
        place: Place,
        mark: Mark,
    ) -> Result<Step<()>, OutOfMemory>
        ensures { IfOk result (λ s. Came (pure.wait (thread_seen runner.entry) place mark (state_seen self.old)) s
            self.new) }
    {
        if self.store.is_controlled() {
            return Ok(Step::Ends(ToldEnd::Fault(BARRIER_IN_FORALL, place)));
        }
        if !self.notified {
            return Ok(Step::Ends(ToldEnd::Fault(PHASE_ORDER, place)));
        }
        match self.does(runner, place, Action::Wait(mark))? {
            Step::Ends(end) => Ok(Step::Ends(end)),
            Step::Gives(()) => {
                self.notified = false;
                Ok(Step::Gives(()))
            }
        }
    }

    /// A collective call may begin.
    #[tactic(auto, unfolding(thread_steps::specs::Actions::meet))]
    pub(crate) fn meet(&self, runner: Runner<'_>, place: Place) -> Step<()>
        ensures { Came (pure.meet (thread_seen runner.entry) place (state_seen self.now)) result self.now }
    {
        if self.store.is_controlled() {
            return Step::Ends(ToldEnd::Fault(BARRIER_IN_FORALL, place));
        }
        if self.notified {
            return Step::Ends(ToldEnd::Fault(PHASE_ORDER, place));
        }
        Step::Gives(())
    }

    /// A upc_fence (UPC 6.6.1).
    #[tactic(auto, unfolding(thread_steps::specs::Actions::fence))]
    pub fn fence(&mut self, runner: Runner<'_>) -> Result<Step<()>, OutOfMemory>
        ensures { IfOk result (λ s. Came (pure.fence (thread_seen runner.entry) (state_seen self.old)) s self.new) }
    {
        match self.ask(runner, None, Action::Fence)? {
            Step::Ends(end) => Ok(Step::Ends(end)),
            Step::Gives(_) => Ok(Step::Gives(())),
        }
    }

    /// A upc_global_exit, after which the thread ends (UPC 7.2.1).
    #[tactic(auto, unfolding(thread_steps::specs::Actions::exit))]
    pub(crate) fn exit(
        &mut self,
        runner: Runner<'_>,
        value: i32,
    ) -> Result<Step<Value>, OutOfMemory>
        ensures { IfOk result (λ s. Came (pure.exit (thread_seen runner.entry) value (state_seen self.old)) s
            self.new) }
    {
        match self.ask(runner, None, Action::Exit(value))? {
            Step::Ends(end) => Ok(Step::Ends(end)),
            Step::Gives(_) => Ok(Step::Ends(ToldEnd::Exit(value))),
        }
    }

    /// A call begins.
    #[tactic(auto, unfolding(thread_steps::specs::Blocks::begin_call))]
    pub fn begin_call(&mut self, place: Place) -> Result<Step<()>, OutOfMemory>
        ensures { IfOk result (λ s. Came (blocks.begin_call place (state_seen self.old)) s self.new) }
    {
        match self.store.push_call() {
            Ok(()) => Ok(Step::Gives(())),
            Err(Refused::Error(code)) => Ok(Step::Ends(ToldEnd::Fault(code, place))),
            Err(Refused::Memory) => Err(OutOfMemory),
        }
    }

    /// A block begins.
    #[tactic(auto, unfolding(thread_steps::specs::Blocks::open_block))]
    pub fn open_block(
        &mut self,
        from: u32,
        shapes: &[Shape],
        place: Place,
    ) -> Result<Step<()>, OutOfMemory>
        requires { Each IsShape shapes.now }
        ensures { IfOk result (λ s. Came (blocks.open_block from shapes.now place (state_seen self.old)) s self.new) }
    {
        match self.store.enter(from, shapes) {
            Ok(_) => Ok(Step::Gives(())),
            Err(Refused::Error(code)) => Ok(Step::Ends(ToldEnd::Fault(code, place))),
            Err(Refused::Memory) => Err(OutOfMemory),
        }
    }

    /// Whether a turn of a upc_forall is the thread's, as 1 or 0.
    #[tactic(auto, unfolding(thread_steps::specs::Blocks::mine))]
    pub fn mine(&self, runner: Runner<'_>, place: Place, v: &Value) -> Step<Value>
        requires { 0 < runner.threads }
        ensures { Came (blocks.mine (thread_seen runner.entry) place v.now (state_seen self.now)) result self.now }
    {
        match has_turn(runner.threads, runner.number, v) {
            Err(code) => Step::Ends(ToldEnd::Fault(code, place)),
            Ok(is_mine) => Step::Gives(truth_value(is_mine)),
        }
    }
}
