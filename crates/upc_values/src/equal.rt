//! Equality.

ghost use Rattle.std.specs.Prelude.{◌≡◌, ◌↔◌, IsTrue};
ghost use Rattle.upc_values.specs.Scalars as said;

use crate::action::{Action, Reply};
use crate::scalar::Scalar;
use block_layout::Loc;

/// Whether both are one location.
pub fn same_loc(a: &Loc, b: &Loc) -> bool
    ensures value { result ≡ said.same_loc a.now b.now }
    ensures same { IsTrue result ↔ (a.now ≡ b.now) }
{
    *a == *b
}

/// Whether both are one scalar.
pub fn same_scalar(a: &Scalar, b: &Scalar) -> bool
    ensures value { result ≡ said.same_scalar a.now b.now }
    ensures same { IsTrue result ↔ (a.now ≡ b.now) }
{
    *a == *b
}

/// Whether both are one reply.
pub fn same_reply(a: &Reply, b: &Reply) -> bool
    ensures { IsTrue result ↔ (a.now ≡ b.now) }
{
    *a == *b
}

fn same_args(a: &[Scalar], b: &[Scalar]) -> bool
    ensures { IsTrue result ↔ (a.now ≡ b.now) }
{
    if a.len() != b.len() {
        return false;
    }
    for at in 0..a.len() {
        if a[at] != b[at] {
            return false;
        }
    }
    true
}

/// Whether both are one action.
pub fn same_action(a: &Action, b: &Action) -> bool
    ensures { IsTrue result ↔ (a.now ≡ b.now) }
{
    match a {
        Action::Read { loc, strict } => {
            matches!(b, Action::Read { loc: l, strict: s } if *loc == *l && *strict == *s)
        }
        Action::Write { loc, value, strict } => {
            matches!(b, Action::Write { loc: l, value: v, strict: s } if *loc == *l && *value == *v && *strict == *s)
        }
        Action::Fence => matches!(b, Action::Fence),
        Action::Beat => matches!(b, Action::Beat),
        Action::Notify(mark) => matches!(b, Action::Notify(m) if *mark == *m),
        Action::Wait(mark) => matches!(b, Action::Wait(m) if *mark == *m),
        Action::Lock(lock) => matches!(b, Action::Lock(l) if *lock == *l),
        Action::Attempt(lock) => matches!(b, Action::Attempt(l) if *lock == *l),
        Action::Unlock(lock) => matches!(b, Action::Unlock(l) if *lock == *l),
        Action::LockMake => matches!(b, Action::LockMake),
        Action::LockFree(lock) => matches!(b, Action::LockFree(l) if *lock == *l),
        Action::Alloc {
            nblocks,
            nbytes,
            home,
            shape,
        } => {
            matches!(b, Action::Alloc { nblocks: n, nbytes: y, home: h, shape: s } if *nblocks == *n
                && *nbytes == *y && *home == *h && *shape == *s)
        }
        Action::Free(pointer) => matches!(b, Action::Free(p) if *pointer == *p),
        Action::Meet { call, args } => {
            matches!(b, Action::Meet { call: c, args: r } if *call == *c && same_args(args.as_slice(), r.as_slice()))
        }
        Action::Print(text) => matches!(b, Action::Print(t) if *text == *t),
        Action::Exit(value) => matches!(b, Action::Exit(v) if *value == *v),
    }
}
