//! The range of elements and offsets.

ghost use Rattle.std.specs.Prelude.{◌≡◌, ◌↔◌, ◌≤◌, ◌^◌, unsigned_abs, IsTrue};
ghost use Rattle.block_layout.specs.Places.{InRange, in_range};

/// The greatest distance of an element or an offset from 0.
pub const FARTHEST: i64 = 1_099_511_627_776;

// The same, among wide numbers.
const MOST: i128 = FARTHEST as i128;

/// Whether a number lies from -2^40 to 2^40, as the elements and the offsets of pointers do.
pub fn is_in_range(z: i128) -> bool
    ensures value { result ≡ in_range z }
    ensures exact { IsTrue result ↔ InRange z }
    ensures near { IsTrue result → unsigned_abs z ≤ 2 ^ 40 }
{
    -MOST <= z && z <= MOST
}
