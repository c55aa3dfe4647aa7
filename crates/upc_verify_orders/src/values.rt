//! Whether each read of an order has the last value.

ghost use Rattle.std.specs.Prelude.{◌<◌, ◌↔◌, ◌≡◌, false, IsTrue, length, slice_index_or};
ghost use Rattle.upc_values.specs.Lists.{Each};
ghost use Rattle.upc_values.specs.Scalars.{zero};
ghost use Rattle.upc_verify_orders.specs.code.Values.{ReadsHeld, held_after};

use upc_values::Scalar;

/// An operation: whether it writes, the number of its place, and its value.
#[derive(Clone, Copy)]
pub struct Access {
    pub write: bool,
    pub place: usize,
    pub value: Scalar,
}

// Whether a read has what its place holds.
fn has_value(held: &[Scalar], access: Access) -> bool
    requires { access.place < length held.now }
    ensures { IsTrue result ↔ (access.write ≡ false → access.value ≡ slice_index_or held.now access.place zero) }
{
    access.write || access.value == held[access.place]
}

// A write is held.
fn hold(held: &mut [Scalar], access: Access)
    requires { access.place < length held.old }
    ensures { held.new ≡ held_after held.old access }
{
    if access.write {
        held[access.place] = access.value;
    }
}

/// Whether each read has the value of the last write of its place before it, in one walk; `held` is what the places
/// begin with.
pub fn reads_held(held: &mut [Scalar], order: &[Access]) -> bool
    requires { Each (λ o. o.place < length held.old) order.now }
    ensures { IsTrue result ↔ ReadsHeld held.old order.now }
{
    for access in order {
        if !has_value(held, *access) {
            return false;
        }
        hold(held, *access);
    }
    true
}
