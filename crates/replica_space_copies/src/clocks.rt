//! The clocks of all threads.

ghost use Rattle.std.specs.Prelude.{◌≡◌, ◌+◌, ◌<◌, ◌==◌, ◌^◌, ℕ, cond, length, slice_index};
ghost use Rattle.replica_space.specs.Spaces as said;

// The greatest clock, 0 where there is none.
fn greatest(clocks: &[u64]) -> u64
    ensures { result ≡ said.greatest (length clocks.now) (λ t. slice_index clocks.now t) }
{
    let mut latest = 0;
    for clock in clocks {
        if latest < *clock {
            latest = *clock;
        }
    }
    latest
}

/// Raises each clock to the greatest.
pub(crate) fn meet(clocks: &mut [u64])
    ensures { (t : ℕ) → t < length clocks.old → slice_index clocks.new t
        ≡ said.greatest (length clocks.old) (λ u. slice_index clocks.old u) }
{
    let latest = greatest(clocks);
    for clock in clocks.iter_mut() {
        *clock = latest;
    }
}

/// Raises each clock by 1.
pub(crate) fn raise(clocks: &mut [u64])
    requires { (t : ℕ) → t < length clocks.old → slice_index clocks.old t + 1 < 2 ^ 64 }
    ensures { (t : ℕ) → t < length clocks.old → slice_index clocks.new t ≡ slice_index clocks.old t + 1 }
{
    for clock in clocks.iter_mut() {
        *clock += 1;
    }
}

/// Raises a thread's clock to this one, if that is greater.
pub(crate) fn raise_to(clocks: &mut [u64], thread: usize, clock: u64)
    requires { thread < length clocks.old }
    ensures { (t : ℕ) → slice_index clocks.new t
        ≡ cond (t == thread) (said.greater (slice_index clocks.old t) clock) (slice_index clocks.old t) }
{
    if clocks[thread] < clock {
        clocks[thread] = clock;
    }
}
