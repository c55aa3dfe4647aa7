//! What a machine wishes, and how private work ends early.

ghost use Rattle.std.specs.Prelude.{◌≡◌};
ghost use Rattle.stack_machine.specs.declared.wish.Halt.TheVariants as halt;

use std::alloc::AllocFailed;
use upc_text::{OutOfMemory, Place};
use upc_values::Action;

/// What a thread asks for, or how it ended.
#[derive(Drop)]
pub enum Wish {
    Act(Action),
    /// The code gave this value, and no call was left.
    Ended(i32),
    Exit(i32),
    /// A run error, by its number, with the place of its construct.
    Fault(u8, Place),
    /// The ticks reached the budget.
    Budget,
}

/// How a thread ends by itself.
#[derive(Clone, Copy)]
pub(crate) enum Stop {
    Ended(i32),
    Exit(i32),
    Fault(u8, Place),
    Budget,
}

/// How far a machine is.
#[derive(Clone, Copy)]
pub(crate) enum Phase {
    Ready,
    Asked,
    Over(Stop),
    /// It is of no more use.
    Failed,
}

/// Why an instruction is not done. An action is wanted, or the thread ends, at so many ticks.
#[derive(Drop)]
pub(crate) enum Halt {
    /// There is not enough memory.
    Memory,
    Asks(Action, u64),
    Stops(Stop, u64),
}

impl From<OutOfMemory> for Halt {
    ghost from_gives = { λ _ e. e ≡ halt.Memory };

    fn from(_e: OutOfMemory) -> Halt {
        Halt::Memory
    }
}

impl<T: Drop> From<AllocFailed<T>> for Halt {
    ghost from_gives = { λ _ e. e ≡ halt.Memory };

    fn from(_e: AllocFailed<T>) -> Halt {
        Halt::Memory
    }
}
