//! How far the evaluation of a thread is: what it pushes, and what it takes off.

ghost use Rattle.std.specs.Prelude.{◌≡◌, ◌∷◌, [], OnOk};
ghost use Rattle.typed_tree.specs.ViewStatements.{view_value};
ghost use Rattle.thread_steps.specs.Values.{number};
ghost use Rattle.source_meaning.specs.Statements as mean;
ghost use Rattle.upc_meaning_work.specs.layer.Evaluations.{seen};
ghost use Rattle.upc_meaning_work.specs.layer.Seen.{aside_items, more_values, more_works, popped, with_flow};
ghost use Rattle.upc_meaning_work.specs.code.Stacks.{top};
ghost use Rattle.upc_meaning_work.specs.layer.ViewItems.{flow_seen, view_standing, view_work};

use crate::flow::Flow;
use crate::standing::Standing;
use crate::values::Values;
use crate::works::{Work, Works};
use upc_meaning_state::Progress;
use typed_tree::Expr;
use upc_text::OutOfMemory;
use upc_values::{Scalar, Value};

/// What is left to do, the values of the expressions that are under way, how the last statement was left, how many
/// calls may still become active, and the state of the thread.
#[derive(Drop)]
pub struct Evaluation<'p> {
    pub works: Works<'p>,
    pub values: Values,
    pub flow: Flow,
    pub free: usize,
    pub progress: Progress<'p>,
}

impl<'p> Evaluation<'p> {
    /// One item more, which comes first.
    pub fn push_one(&mut self, first: Work<'p>) -> Result<(), OutOfMemory>
        ensures { OnOk result (seen self.new ≡ more_works (view_work first.entry ∷ []) (seen self.old)) }
    {
        self.works.push(first)
    }

    /// Two items more, the last named of which comes first.
    pub fn push_two(&mut self, second: Work<'p>, first: Work<'p>) -> Result<(), OutOfMemory>
        ensures { OnOk result (seen self.new
            ≡ more_works (view_work first.entry ∷ view_work second.entry ∷ []) (seen self.old)) }
    {
        self.works.push(second)?;
        self.works.push(first)
    }

    /// Three items more, the last named of which comes first.
    pub fn push_three(
        &mut self,
        third: Work<'p>,
        second: Work<'p>,
        first: Work<'p>,
    ) -> Result<(), OutOfMemory>
        ensures { OnOk result (seen self.new
            ≡ more_works (view_work first.entry ∷ view_work second.entry ∷ view_work third.entry ∷ [])
            (seen self.old)) }
    {
        self.push_two(third, second)?;
        self.works.push(first)
    }

    /// One value more.
    pub fn push_value(&mut self, v: Value) -> Result<(), OutOfMemory>
        ensures { OnOk result (seen self.new ≡ more_values (v ∷ []) (seen self.old)) }
    {
        self.values.push(v)
    }

    /// A number more as a value.
    pub fn push_number(&mut self, v: i128) -> Result<(), OutOfMemory>
        ensures { OnOk result (seen self.new ≡ more_values (number v ∷ []) (seen self.old)) }
    {
        self.values.push(Value::Scalar(Scalar::Int(v)))
    }

    /// Takes the youngest value off; where there is none it is 0.
    pub fn pop_value(&mut self) -> Value
        ensures value { result ≡ top (seen self.old).values }
        ensures rest { seen self.new ≡ popped (seen self.old) }
    {
        self.values.pop()
    }

    /// The last statement was left so.
    pub fn leave_so(&mut self, flow: Flow)
        ensures { seen self.new ≡ with_flow (flow_seen flow) (seen self.old) }
    {
        self.flow = flow;
    }

    /// An expression for what it does, where there is one, is left to be done.
    pub fn push_aside(
        &mut self,
        standing: Standing<'p>,
        e: &'p Option<Box<Expr>>,
    ) -> Result<(), OutOfMemory>
        ensures { OnOk result (seen self.new
            ≡ more_works (aside_items (view_standing standing.entry) (view_value e.now))
            (with_flow mean.Next (seen self.old))) }
    {
        self.leave_so(Flow::Next);
        match e {
            None => Ok(()),
            Some(e) => self.push_two(Work::Drop, Work::Value(standing.strict, e)),
        }
    }
}
