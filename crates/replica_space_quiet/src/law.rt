//! That reads and writes change no reply of other actions.

ghost use Rattle.replica_space_quiet.specs.layer.Loud.{AccessesAreQuiet, AccessesFormNothing};

/// A law: without its reads and writes a history gives each other action the same reply, and the same actions are well
/// formed after it.
pub fn accesses_are_quiet()
    ensures replies { AccessesAreQuiet }
    ensures formed { AccessesFormNothing }
{}
