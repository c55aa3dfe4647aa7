//! Division rounded down. C99's `/` rounds towards zero (C99 6.5.5), but elements before the first one lie where the
//! rule of the later ones puts them.

ghost use Rattle.std.specs.Prelude.{◌≡◌, ◌+◌, ◌<◌, ◌≤◌, unsigned_abs, pos, ◌+ℤ◌, ◌*ℤ◌};
ghost use Rattle.block_layout.specs.Floor.{floor_div, floor_mod};

/// The quotient by a divisor of at least 1, rounded down.
pub fn floor_quotient(a: i128, d: u64) -> i128
    requires { 0 < d }
    ensures value { result ≡ floor_div a d }
    ensures near { unsigned_abs result ≤ unsigned_abs a }
    ensures sum { result *ℤ pos d +ℤ pos (floor_mod a d) ≡ a }
{
    a.div_euclid(i128::from(d))
}

/// What is left of a number by a divisor of at least 1, from 0 to the divisor less 1.
pub fn floor_rest(a: i128, d: u64) -> u64
    requires { 0 < d }
    ensures value { result ≡ floor_mod a d }
    ensures bound { result < d }
{
    a.rem_euclid(i128::from(d)) as u64
}
