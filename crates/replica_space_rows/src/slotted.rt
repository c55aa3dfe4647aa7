//! Members with their slots.

ghost use Rattle.std.specs.Prelude.{◌≡◌};
ghost use Rattle.std.specs.Ordering.{is_lt};
ghost use Rattle.replica_space_rows.specs.code.Places as said;

use crate::member::{Member, Written};
use replica_space::Stamp;
use std::cmp::Ordering;

/// A member of a thread's list, and the slot that it is in.
#[derive(Clone, Copy)]
pub struct Slotted {
    pub member: Member,
    pub slot: usize,
}

// The stamp of a write, if it is one.
fn stamp_in(written: &Option<Written>) -> Stamp
    ensures { result ≡ said.stamp_in written.now }
{
    match written {
        Some(write) => write.stamp,
        None => Stamp {
            clock: 0,
            thread: 0,
        },
    }
}

// Whether the first comes before the second: its slot is lower, or it is the same one and its stamp is the earlier one.
fn is_before(a: &Slotted, b: &Slotted) -> bool
    ensures { result ≡ said.is_before a.now b.now }
{
    let before = stamp_in(&a.member.written);
    let after = stamp_in(&b.member.written);
    a.slot < b.slot || (a.slot == b.slot && after.is_later(&before))
}

/// Which of two comes first.
pub(crate) fn compare(a: &Slotted, b: &Slotted) -> Ordering
    ensures { is_lt result ≡ said.is_before a.now b.now }
{
    if is_before(a, b) {
        Ordering::Less
    } else if is_before(b, a) {
        Ordering::Greater
    } else {
        Ordering::Equal
    }
}
