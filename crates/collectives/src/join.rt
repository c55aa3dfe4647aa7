//! The value so far of a reduction (UPC 7.3).

ghost use Rattle.std.specs.Prelude.{◌≡◌};
ghost use Rattle.integers.specs.Integers.{IsInteger};
ghost use Rattle.collectives.specs.code.Reductions.{reduction_in};
ghost use Rattle.collectives.specs.layer.Left.{joined};

use crate::number::Number;
use crate::reduction::Reduction;
use crate::step::step;
use block_layout::Kind;

/// The value so far with one element more; the first is as it is.
pub fn join(op: Reduction, kind: Kind, so_far: &Option<Number>, value: Number) -> Result<Number, u8>
    requires { IsInteger kind }
    ensures { result ≡ joined (reduction_in op) kind so_far.now value }
{
    match so_far {
        None => Ok(value),
        Some(a) => match step(op, kind, a.value(), value.value()) {
            Ok(v) => Ok(Number::new(v)),
            Err(code) => Err(code),
        },
    }
}
