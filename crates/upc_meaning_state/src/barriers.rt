//! Notifies, waits and barriers (UPC 6.6.1).

ghost use Rattle.std.specs.Prelude.{IfOk};
ghost use Rattle.source_meaning.specs.Statements as mean;
ghost use Rattle.upc_meaning_state.specs.layer.Barriers.{passed};
ghost use Rattle.upc_meaning_state.specs.layer.Came.{Came, state_seen};
ghost use Rattle.upc_meaning_settings.specs.layer.Runners.{thread_seen};
ghost use Rattle.upc_meaning_settings.specs.layer.Settings.{running_seen};

use crate::progress::{Progress, Step};
use typed_tree::Synchronises;
use upc_meaning_settings::{Runner, Setting};
use upc_text::{OutOfMemory, Place};
use upc_values::Mark;

impl<'r> Progress<'r> {
    /// A notify, a wait or a barrier.
    pub fn synchronise(
        &mut self,
        setting: Setting<'_>,
        how: Synchronises,
        place: Place,
        mark: Mark,
    ) -> Result<Step<()>, OutOfMemory>
        ensures { IfOk result (λ s. Came (mean.synchronised (running_seen setting.entry) how place mark
            (state_seen self.old)) s self.new) }
    {
        let runner = setting.runner;
        match how {
            Synchronises::Notify => self.notify(runner, place, mark),
            Synchronises::Wait => self.wait(runner, place, mark),
            Synchronises::Barrier => match self.notify(runner, place, mark)? {
                Step::Ends(end) => Ok(Step::Ends(end)),
                Step::Gives(()) => self.wait(runner, place, mark),
            },
        }
    }

    /// The barrier before main, or after it.
    #[tactic(auto, unfolding(crate::specs::layer::Barriers::passed))]
    pub fn pass(
        &mut self,
        runner: Runner<'_>,
        place: Place,
        mark: Mark,
    ) -> Result<Step<()>, OutOfMemory>
        ensures { IfOk result (λ s. Came (passed (thread_seen runner.entry) place mark (state_seen self.old)) s
            self.new) }
    {
        match self.notify(runner, place, mark)? {
            Step::Ends(end) => Ok(Step::Ends(end)),
            Step::Gives(()) => self.wait(runner, place, mark),
        }
    }
}
