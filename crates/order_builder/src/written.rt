//! What actions write, and the replies that they have.

ghost use Rattle.std.specs.Prelude.{◌≡◌};
ghost use Rattle.upc_values.specs.Drain as drain;

use upc_values::{Action, Loc, Reply, Scalar, same_scalar};

/// What the action writes to the location.
pub fn written(loc: Loc, action: &Action) -> Option<Scalar>
    ensures { result ≡ drain.written loc action.now }
{
    match action {
        Action::Write { loc: at, value, .. } => { if *at == loc { Some(*value) } else { None } }
        _ => None,
    }
}

/// Whether it is the reply that a relaxed write has.
pub fn is_done(reply: Reply) -> bool
    ensures { result ≡ drain.is_done reply }
{
    matches!(reply, Reply::Done)
}

/// Whether it is the reply that a read of a pending write of this value has.
pub fn is_value(value: Scalar, reply: Reply) -> bool
    ensures { result ≡ drain.is_value value reply }
{
    match reply {
        Reply::Value(found) => same_scalar(&found, &value),
        _ => false,
    }
}
