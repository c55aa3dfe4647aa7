//! A collective call whose arguments passed their tests.

ghost use Rattle.std.specs.Prelude.{◌≡◌, ℕ, List, IfOk, IfErr, unsigned_abs};
ghost use Rattle.block_layout.specs.declared.kind.Shape.{Shape};
ghost use Rattle.upc_values.specs.Calls.{call_of};
ghost use Rattle.upc_values.specs.Expansion.{Expansion, refused_by};
ghost use Rattle.upc_values.specs.Expansions as said;
ghost use Rattle.collectives.specs.code.Calls.{call_in, kept, FitsLimits};
ghost use Rattle.collectives.specs.layer.Wishes.{RefusesSo};

use crate::arguments::refusal;
use crate::call::{Call, call_of};
use std::marker::Model;
use upc_values::{Refused, Scalar};

/// A call whose arguments passed their tests. Contracts see the call that the definitions have.
#[derive(Drop)]
pub struct Asked {
    call: Call,
}

impl Model for Asked {
    ghost use Rattle.upc_values.specs.Calls as calls;
    ghost use Rattle.collectives.specs.code.Calls.{call_in, FitsLimits};

    ghost Value = { calls.Call };

    ghost view = { λ a. call_in a.call };

    ghost invariant = { λ a. FitsLimits a.call };
}

impl Asked {
    /// The call with this number and these arguments, if they pass its tests.
    ///
    /// Refused by `NULL_ACCESS` or `LIBRARY_ARGS`.
    pub fn read(call: u8, args: &[Scalar]) -> Result<Asked, Refused>
        ensures call { IfOk result (λ a. a ≡ kept (call_of call args.now)) }
        ensures passed { IfOk result (λ a. (threads : ℕ) (shapes : List Shape) (me : ℕ)
            (go : Expansion (Unit {0})) → go ≡ refused_by (said.tests threads shapes me a) go) }
        ensures refused { IfErr result (λ e. (threads : ℕ) (shapes : List Shape) (me : ℕ)
            (go : Expansion (Unit {0}))
            → RefusesSo e (refused_by (said.tests threads shapes me (kept (call_of call args.now))) go)) }
    {
        let call = call_of(call, args);
        match refusal(&call) {
            Some(code) => Err(Refused::Error(code)),
            None => Ok(Asked { call }),
        }
    }

    /// The call.
    pub fn call(&self) -> Call
        ensures same { call_in result ≡ self.now }
        ensures limits { FitsLimits result }
    {
        self.call
    }

    /// The bits of its flags.
    pub fn bits(&self) -> u32
        ensures { (threads : ℕ) (shapes : List Shape) (me : ℕ)
            → result ≡ unsigned_abs (said.flags_of threads shapes me self.now) }
    {
        match &self.call {
            Call::Copies { flags, .. } | Call::Permutes { flags, .. } => flags.unsigned_abs(),
            Call::Reduces(_, flags) | Call::ReducesPrefixes(_, flags) => flags.unsigned_abs(),
            Call::Other => 0,
        }
    }
}
