//! Which values fit a cell.

ghost use Rattle.std.specs.Prelude.{◌≡◌, ◌↔◌, true, IsTrue};
ghost use Rattle.integers.specs.Integers.{IsInteger};
ghost use Rattle.upc_values.specs.Shapes as shapes;

use crate::scalar::{Scalar, Value};
use block_layout::{Kind, LocalPtr, SharedPtr};
use integers::lies_in;

/// Whether a kind is of integers (C99 6.2.5).
pub fn is_integer(kind: Kind) -> bool
    ensures value { result ≡ shapes.is_integer kind }
    ensures integer { IsTrue result ↔ IsInteger kind }
{
    !matches!(kind, Kind::Shared(_, _) | Kind::Lock | Kind::Private(_))
}

/// Whether the value fits a cell of this kind: an integer in the kind's range, a pointer-to-shared whose phase is 0 or
/// below the kind's block, a lock. It takes no memory.
pub fn fits_kind(value: &Scalar, kind: Kind) -> bool
    ensures { result ≡ shapes.fits_kind value.now kind }
{
    match value {
        Scalar::Int(v) => is_integer(kind) && lies_in(kind, *v),
        Scalar::Shared(pointer) => match kind {
            Kind::Shared(_, block) => pointer.phase == 0 || pointer.phase < block,
            _ => false,
        },
        Scalar::Lock(_) => matches!(kind, Kind::Lock),
    }
}

/// What a cell of this kind begins with where no initial value is given: 0, or null (C99 6.7.8).
pub fn blank(kind: Kind) -> Scalar
    ensures { result ≡ shapes.blank kind }
{
    match kind {
        Kind::Shared(_, _) => Scalar::Shared(SharedPtr::NULL),
        Kind::Lock => Scalar::Lock(0),
        _ => Scalar::Int(0),
    }
}

/// Whether a value fits a cell of this kind: a scalar as `fits_kind` says, a pointer-to-local each kind of private
/// pointers. It takes no memory.
pub fn value_fits(value: &Value, kind: Kind) -> bool
    ensures { result ≡ shapes.value_fits value.now kind }
{
    match value {
        Value::Scalar(scalar) => fits_kind(scalar, kind),
        Value::Local(_) => matches!(kind, Kind::Private(_)),
    }
}

/// What a cell of any kind begins with where no initial value is given: 0, or null (C99 6.7.8).
pub fn blank_value(kind: Kind) -> Value
    ensures value { result ≡ shapes.blank_value kind }
    ensures fits { shapes.value_fits result kind ≡ true }
{
    match kind {
        Kind::Private(_) => Value::Local(LocalPtr::Null),
        _ => Value::Scalar(blank(kind)),
    }
}
