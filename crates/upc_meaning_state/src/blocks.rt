//! Where blocks, calls and the bodies of upc_foralls end, and where those bodies begin.

ghost use Rattle.std.specs.Prelude.{◌≡◌, OnOk};
ghost use Rattle.thread_steps.specs.Blocks as blocks;
ghost use Rattle.thread_steps.specs.States.{Val};
ghost use Rattle.upc_meaning_state.specs.layer.Came.{state_seen};

use crate::progress::Progress;
use upc_text::OutOfMemory;

impl<'r> Progress<'r> {
    /// The youngest block ends.
    #[tactic(auto, unfolding(thread_steps::specs::Blocks::close_block))]
    pub fn close_block(&mut self)
        ensures { blocks.close_block (state_seen self.old) ≡ Val tt (state_seen self.new) }
    {
        self.store.leave();
    }

    /// The youngest call ends.
    #[tactic(auto, unfolding(thread_steps::specs::Blocks::end_call))]
    pub fn end_call(&mut self)
        ensures { blocks.end_call (state_seen self.old) ≡ Val tt (state_seen self.new) }
    {
        self.store.pop_call();
    }

    /// The thread comes into the body of a upc_forall whose affinity counts.
    #[tactic(auto, unfolding(thread_steps::specs::Blocks::control))]
    pub fn control(&mut self) -> Result<(), OutOfMemory>
        ensures { OnOk result (blocks.control (state_seen self.old) ≡ Val tt (state_seen self.new)) }
    {
        self.store.control()?;
        Ok(())
    }

    /// It leaves it.
    #[tactic(auto, unfolding(thread_steps::specs::Blocks::release))]
    pub fn release(&mut self)
        ensures { blocks.release (state_seen self.old) ≡ Val tt (state_seen self.new) }
    {
        self.store.release();
    }
}
