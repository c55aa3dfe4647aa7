//! The place of a stamp among others.

ghost use Rattle.replica_space_orders.specs.layer.Finding.{Ascend, IsFirstLater};

use replica_space::Stamp;

/// The number of the first of these stamps, which ascend, that is later than the given one; found by halving.
pub fn first_later(stamps: &[Stamp], stamp: &Stamp) -> usize
    requires { Ascend stamps.now }
    ensures { IsFirstLater stamps.now stamp.now result }
{
    stamps.partition_point(|one| !one.is_later(stamp))
}
