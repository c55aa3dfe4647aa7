//! The members of a list in chunks, one after the other.

ghost use Rattle.std.specs.Prelude.{◌≡◌, length};
ghost use Rattle.std.specs.Iterator.{at_most};
ghost use Rattle.std.specs.Map.Iter.{TakesFirst, deref};
ghost use Rattle.upc_values.specs.layer.Chunks.{joined, AreFull};

use std::marker::Model;

/// The members of a list in chunks that are left. Contracts see the list of them.
#[derive(Drop)]
pub struct Members<'a, T> {
    front: &'a [T],
    full: &'a [Vec<T>],
    last: &'a [T],
}

impl<'a, T> Model for Members<'a, T> {
    ghost use Rattle.std.specs.Prelude.{List, ◌++◌};
    ghost use Rattle.upc_values.specs.layer.Chunks.{joined, AreFull};

    ghost Value = { List T };

    ghost view = { λ i. i.front.now ++ joined i.full.now i.last.now };

    ghost invariant = { λ i. AreFull i.full.now };
}

impl<'a, T> Members<'a, T> {
    /// The members of full chunks, and these after them.
    pub(crate) fn of(full: &'a [Vec<T>], last: &'a [T]) -> Self
        requires { AreFull full.now }
        ensures { result ≡ joined full.now last.now }
    {
        Members {
            front: &[],
            full,
            last,
        }
    }
}

impl<'a, T> Iterator for Members<'a, T> {
    type Item = &'a T;

    ghost next_gives = { TakesFirst deref };

    ghost remaining = { λ s. at_most (length s) };

    fn next(&mut self) -> Option<&'a T> {
        let front = self.front;
        if !front.is_empty() {
            self.front = &front[1..];
            return Some(&front[0]);
        }
        let full = self.full;
        if !full.is_empty() {
            let front = full[0].as_slice();
            self.full = &full[1..];
            self.front = &front[1..];
            return Some(&front[0]);
        }
        let last = self.last;
        if last.is_empty() {
            return None;
        }
        self.last = &last[1..];
        Some(&last[0])
    }
}
