//! A number on its way through a reduction.

ghost use Rattle.std.specs.Prelude.{◌≡◌};

use std::marker::Model;

/// An element's value, or the value so far. Contracts see the number.
#[derive(Drop)]
pub struct Number {
    value: i128,
}

impl Model for Number {
    ghost use Rattle.std.specs.Prelude.{ℤ};

    ghost Value = { ℤ };

    ghost view = { λ n. n.value };
}

impl Number {
    pub fn new(value: i128) -> Number
        ensures { result ≡ value }
    {
        Number { value }
    }

    pub fn value(&self) -> i128
        ensures { result ≡ self.now }
    {
        self.value
    }
}
