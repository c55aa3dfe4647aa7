//! The parameters of functions (C99 6.5.2.2, 6.9.1).

ghost use Rattle.std.specs.Prelude.{map, IfOk};
ghost use Rattle.upc_types.specs.View.{view};
ghost use Rattle.typed_tree.specs.ViewStatements as views;
ghost use Rattle.typed_tree.specs.ViewStatements.{view_function};
ghost use Rattle.thread_steps.specs.Blocks as blocks;
ghost use Rattle.source_meaning.specs.Threads as mean;
ghost use Rattle.source_meaning.specs.layer.Parts as parts;
ghost use Rattle.upc_meaning_state.specs.layer.Came.{Came, state_seen};
ghost use Rattle.upc_meaning_settings.specs.layer.Runners.{Fits};
ghost use Rattle.upc_meaning_settings.specs.layer.Settings.{running_seen};

use crate::progress::{Progress, Step};
use typed_tree::{Function, Item};
use typing_rules::Home;
use upc_meaning_settings::{Setting, Shapes};
use upc_text::{OutOfMemory, Place};
use upc_types::CType;
use upc_values::Value;

impl<'r> Progress<'r> {
    /// A function's block is entered, with room for its parameters and the objects that its body declares.
    pub fn open_body(
        &mut self,
        setting: Setting<'_>,
        place: Place,
        function: &Function,
        items: &[Item],
    ) -> Result<Step<()>, OutOfMemory>
        ensures { IfOk result (λ s. Came (blocks.open_block 0 (parts.shapes_in (running_seen setting.entry)
            (view_function function.now) (views.view_items items.now)) place (state_seen self.old)) s self.new) }
    {
        let mut shapes = Shapes::new(setting.runner.alloc);
        shapes.push_types(setting, function.parameters.as_slice())?;
        shapes.push_items(setting, items)?;
        match self.open_block(0, shapes.items.as_slice(), place)? {
            Step::Ends(end) => Ok(Step::Ends(end)),
            Step::Gives(()) => Ok(Step::Gives(())),
        }
    }

    /// The parameters get the values of the arguments.
    pub fn receive(
        &mut self,
        setting: Setting<'_>,
        place: Place,
        types: &[CType],
        args: &[Value],
    ) -> Result<Step<()>, OutOfMemory>
        requires { Fits setting.runner }
        ensures { IfOk result (λ s. Came (mean.received (running_seen setting.entry) place 0 (map view types.now)
            args.now (state_seen self.old)) s self.new) }
    {
        let count = types.len().min(args.len());
        if count > u32::MAX as usize {
            return Err(OutOfMemory);
        }
        for i in 0..count {
            let p = self.object(setting, Home::Local(i as u32));
            match self.put(setting, false, place, &types[i], p, args[i])? {
                Step::Ends(end) => return Ok(Step::Ends(end)),
                Step::Gives(()) => {}
            }
        }
        Ok(Step::Gives(()))
    }
}
