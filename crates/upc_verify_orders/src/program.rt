//! Whether a thread's own operations that conflict stand in program order.

ghost use Rattle.std.specs.Prelude.{◌≡◌, ◌<◌, ◌↔◌, IsTrue, IfOk, length};
ghost use Rattle.upc_values.specs.Lists.{Each, Pairwise};
ghost use Rattle.upc_verify_orders.specs.code.Program.{Raises, RaisesAt, After, MayFollow, InOrder, IsMark};

use std::alloc::{AllocError, Global};
use std::marker::Model;

/// An own operation: its rank in program order, whether it is strict, whether it writes, and the number of its place.
#[derive(Clone, Copy)]
pub struct Mark {
    pub rank: u64,
    pub strict: bool,
    pub write: bool,
    pub place: usize,
}

// What has been passed: one more than the greatest rank of all, of the strict ones, and at each place of all and of the
// writes; 0 where there is none.
#[derive(Drop)]
struct Passed {
    all: u64,
    strict: u64,
    any: Vec<u64>,
    wrote: Vec<u64>,
}

impl Model for Passed {
    ghost use Rattle.upc_verify_orders.specs.code.Program.{Passing};

    ghost Value = { Passing };

    ghost view = { λ p. record { all = p.all; strict = p.strict; any = p.any.items; wrote = p.wrote.items } };
}

fn raised(test: bool, old: u64, rank: u64) -> u64
    requires { rank < 9223372036854775808 }
    ensures { Raises test old result rank }
{
    if test && old < rank + 1 {
        rank + 1
    } else {
        old
    }
}

fn raise_at(test: bool, list: &mut Vec<u64>, place: usize, rank: u64)
    requires within { place < length list.old.items }
    requires fits { rank < 9223372036854775808 }
    ensures many { length list.new.items ≡ length list.old.items }
    ensures raised { RaisesAt test list.old.items list.new.items place rank }
{
    let old = list[place];
    list[place] = raised(test, old, rank);
}

impl Passed {
    fn may_follow(&self, mark: Mark) -> bool
        requires any { mark.place < length self.now.any }
        requires wrote { mark.place < length self.now.wrote }
        ensures { IsTrue result ↔ MayFollow self.now mark }
    {
        (!mark.strict || self.all <= mark.rank)
            && self.strict <= mark.rank
            && self.wrote[mark.place] <= mark.rank
            && (!mark.write || self.any[mark.place] <= mark.rank)
    }

    fn follow(&mut self, mark: Mark)
        requires any { mark.place < length self.old.any }
        requires wrote { mark.place < length self.old.wrote }
        requires fits { mark.rank < 9223372036854775808 }
        ensures any { length self.new.any ≡ length self.old.any }
        ensures wrote { length self.new.wrote ≡ length self.old.wrote }
        ensures after { After self.old mark self.new }
    {
        self.all = raised(true, self.all, mark.rank);
        self.strict = raised(mark.strict, self.strict, mark.rank);
        raise_at(true, &mut self.any, mark.place, mark.rank);
        raise_at(mark.write, &mut self.wrote, mark.place, mark.rank);
    }
}

/// Whether the own operations that conflict stand in program order, in one walk; their places are numbered.
pub fn keeps_own(alloc: Global, places: usize, marks: &[Mark]) -> Result<bool, AllocError>
    requires { Each (IsMark places) marks.now }
    ensures { IfOk result (λ b. IsTrue b ↔ Pairwise InOrder marks.now) }
{
    let mut passed = Passed {
        all: 0,
        strict: 0,
        any: vec![in alloc; 0; places]?,
        wrote: vec![in alloc; 0; places]?,
    };
    for mark in marks {
        if !passed.may_follow(*mark) {
            return Ok(false);
        }
        passed.follow(*mark);
    }
    Ok(true)
}
