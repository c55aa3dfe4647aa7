//! What is left to do.

ghost use Rattle.std.specs.Prelude.{◌≡◌, ◌∷◌, [], OnOk, MatchOption};
ghost use Rattle.upc_meaning_work.specs.layer.ViewItems.{listed, view_work};

use crate::flow::Flow;
use crate::standing::Standing;
use block_layout::Kind;
use std::alloc::Global;
use thread_steps::CastTo;
use typed_tree::{Arm, Expr, Item, Object, Statement, StatementKind, SwitchItem, Synchronises};
use typing_rules::{Attr, LibraryParameter};
use upc_text::{OutOfMemory, Place};
use upc_types::CType;
use upc_values::Value;

/// What the arguments of a call are converted into.
#[derive(Clone, Copy)]
pub enum Parameters<'p> {
    /// The types of a function's parameters.
    Types(&'p [CType]),
    /// What a call of the library takes.
    Library(&'p [LibraryParameter]),
    /// Their promoted types, as of the arguments of a printf.
    Promoted,
}

/// An item of work.
#[derive(Clone, Copy)]
pub enum Work<'p> {
    /// The value of an expression, in a block whose accesses are strict or not.
    Value(bool, &'p Expr),
    /// The place of the object that an expression names, or its value.
    Address(bool, &'p Expr),
    /// The value of the object at a place, where an expression names one.
    Hold(bool, Place, &'p Attr),
    /// The operator of an expression whose operands have their values.
    Operate(bool, &'p Expr),
    /// What follows a first operand that decides what is done.
    Branch(bool, &'p Expr),
    Truth,
    Convert(CastTo, Place),
    /// The call of an expression, of whose arguments so many have their values.
    Arguments {
        strict: bool,
        call: &'p Expr,
        parameters: Parameters<'p>,
        more: &'p [Expr],
        done: usize,
    },
    /// The value of the last of some expressions.
    Last(bool, &'p [Expr]),
    /// A value that nothing uses.
    Drop,
    /// A statement.
    Run(Standing<'p>, &'p Statement),
    /// The further parts of a block, and of a switch.
    Parts(Standing<'p>, &'p [Item]),
    Cases(Standing<'p>, &'p [SwitchItem]),
    /// The part of a switch where its value leads, compared as a value of this kind.
    Select(Standing<'p>, Option<Kind>, &'p [SwitchItem]),
    /// The end of a switch, and of a block.
    Caught,
    Leave,
    /// A loop that has so many turns left: a whole turn, the rest of one after its test, and the rest after its body.
    Turn(Standing<'p>, &'p StatementKind, u64),
    Test(Standing<'p>, &'p StatementKind, u64),
    Around(Standing<'p>, &'p StatementKind, u64),
    /// Whether the turn of an affinity is the thread's, and the body of a upc_forall after that.
    Mine(Place),
    Guard(Standing<'p>, &'p Statement),
    /// The end of the body of a upc_forall, and its end where it controls.
    Finished,
    Release,
    /// What a condition guards, and what comes where it is 0.
    Arm {
        standing: Standing<'p>,
        body: &'p Statement,
        more: &'p [Arm],
        last: &'p Option<Box<Statement>>,
    },
    /// Initial values of objects, and of the elements of an array from one on.
    Declare(Standing<'p>, &'p [Object]),
    Listed {
        standing: Standing<'p>,
        object: &'p Object,
        index: usize,
        values: &'p [Expr],
    },
    /// A value for the object of a type at a place.
    Keep(bool, Place, &'p CType),
    /// The value of a `return`, and of a notify, wait or barrier.
    Give,
    Mark(Synchronises, Place),
    /// The end of a call, after a statement that was left so, and that of main.
    Return(Flow, Value),
    End(Place),
}

/// What is left to do, what comes first being the youngest.
#[derive(Drop)]
pub struct Works<'p> {
    items: Vec<Work<'p>>,
}

impl<'p> Works<'p> {
    /// Nothing.
    pub fn new(alloc: Global) -> Works<'p>
        ensures { listed result ≡ [] }
    {
        Works {
            items: Vec::new(alloc),
        }
    }

    /// One item more, which comes first.
    pub fn push(&mut self, work: Work<'p>) -> Result<(), OutOfMemory>
        ensures { OnOk result (listed self.new ≡ view_work work.entry ∷ listed self.old) }
    {
        self.items.push(work)?;
        Ok(())
    }

    /// Takes the first item off.
    pub fn pop(&mut self) -> Option<Work<'p>>
        ensures { MatchOption result ((listed self.old ≡ []) × (listed self.new ≡ []))
            (λ work. listed self.old ≡ view_work work ∷ listed self.new) }
    {
        self.items.pop()
    }
}
