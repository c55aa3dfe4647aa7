//! What replies say.

ghost use Rattle.std.specs.Prelude.{◌≡◌, [], IfOk, IfErr};
ghost use Rattle.upc_values.specs.Expansion.{value_in, nothing};
ghost use Rattle.upc_values.specs.layer.Parts.{unless_refused};
ghost use Rattle.upc_values.specs.layer.Parts as parts;
ghost use Rattle.upc_values.specs.Expansions as said;
ghost use Rattle.collectives.specs.layer.Wishes.{RefusesSo};

use crate::number::Number;
use upc_values::{Refused, Reply, Scalar};

/// The value that a reply gives, 0 where it gives none.
pub fn value_in(reply: &Reply) -> Scalar
    ensures { result ≡ value_in reply.now }
{
    match reply {
        Reply::Value(value) => *value,
        _ => Scalar::Int(0),
    }
}

/// The integer that a reply gives, 0 where it gives none.
pub fn number_in(reply: &Reply) -> Number
    ensures { result ≡ parts.number_of 0 [] 0 (value_in reply.now) }
{
    match reply {
        Reply::Value(Scalar::Int(value)) => Number::new(*value),
        _ => Number::new(0),
    }
}

/// Whether an action was done; a reply that refuses it is its run error.
pub fn done(reply: &Reply) -> Result<(), Refused>
    ensures done { IfOk result (λ _. unless_refused reply.now ≡ nothing) }
    ensures refused { IfErr result (λ e. RefusesSo e (unless_refused reply.now)) }
{
    match reply {
        Reply::Refused(code) => Err(Refused::Error(*code)),
        Reply::Done | Reply::Value(_) | Reply::Flag(_) => Ok(()),
    }
}
