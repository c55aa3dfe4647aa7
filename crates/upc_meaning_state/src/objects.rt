//! Named objects, and the values of the objects that expressions name (C99 6.2.4, 6.3.2.1; UPC 6.5.1).

ghost use Rattle.std.specs.Prelude.{IfOk};
ghost use Rattle.typing_rules.specs.Nodes.{view_attr};
ghost use Rattle.source_meaning.specs.Expressions as mean;
ghost use Rattle.source_meaning.specs.layer.Parts as parts;
ghost use Rattle.upc_meaning_state.specs.layer.Came.{Came, state_seen};
ghost use Rattle.upc_meaning_settings.specs.layer.Runners.{Fits};
ghost use Rattle.upc_meaning_settings.specs.layer.Settings.{running_seen};

use crate::progress::{Progress, Step};
use block_layout::LocalPtr;
use thread_values::pointer_to;
use typing_rules::{Attr, Form, Home};
use upc_meaning_settings::{Setting, shared_object};
use upc_text::{OutOfMemory, Place};
use upc_values::Value;

impl<'r> Progress<'r> {
    /// Where a named object lies (C99 6.2.4, UPC 6.5.1).
    #[tactic(auto, unfolding(thread_steps::specs::Blocks::local_object))]
    pub fn object(&self, setting: Setting<'_>, home: Home) -> Value
        ensures { Came (mean.object (running_seen setting.entry) home (state_seen self.now)) (Step.Gives result)
            self.now }
    {
        match home {
            Home::Private(number) => Value::Local(LocalPtr::Private {
                object: number as u64,
                offset: 0,
            }),
            Home::Shared(number) => shared_object(setting, number),
            Home::Local(number) => pointer_to(self.store.local(number)),
        }
    }

    /// What an expression gives that names an object or not.
    pub fn value_in(
        &mut self,
        setting: Setting<'_>,
        strict: bool,
        place: Place,
        attr: &Attr,
        v: Value,
    ) -> Result<Step<Value>, OutOfMemory>
        requires { Fits setting.runner }
        ensures { IfOk result (λ s. Came (parts.value_in (running_seen setting.entry) strict place (view_attr attr.now)
            v (state_seen self.old)) s self.new) }
    {
        match attr.form {
            Form::Lvalue(_) => self.held(setting, strict, place, &attr.ctype, v),
            _ => Ok(Step::Gives(v)),
        }
    }
}
