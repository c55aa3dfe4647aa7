//! The values of the expressions that are under way.

ghost use Rattle.std.specs.Prelude.{◌≡◌, ◌∷◌, [], drop, OnOk, IfOk};
ghost use Rattle.upc_meaning_work.specs.code.Stacks.{below, top, rest, second, youngest};

use std::alloc::Global;
use std::marker::Model;
use upc_text::OutOfMemory;
use upc_values::{Scalar, Value};

/// The values. Contracts see them youngest first.
#[derive(Drop)]
pub struct Values {
    items: Vec<Value>,
}

impl Model for Values {
    ghost use Rattle.std.specs.Prelude.{List, reverse};
    ghost use Rattle.upc_values.specs.declared.scalar.Value.{Value as Given};

    ghost Value = { List Given };

    ghost view = { λ s. reverse s.items.items };
}

impl Values {
    /// No value.
    pub fn new(alloc: Global) -> Values
        ensures { result ≡ [] }
    {
        Values {
            items: Vec::new(alloc),
        }
    }

    /// One value more.
    pub fn push(&mut self, v: Value) -> Result<(), OutOfMemory>
        ensures { OnOk result (self.new ≡ v ∷ self.old) }
    {
        self.items.push(v)?;
        Ok(())
    }

    /// Takes the youngest value off; where there is none it is 0.
    pub fn pop(&mut self) -> Value
        ensures value { result ≡ top self.old }
        ensures rest { self.new ≡ rest self.old }
    {
        match self.items.pop() {
            None => Value::Scalar(Scalar::Int(0)),
            Some(v) => v,
        }
    }

    /// The youngest value; where there is none it is 0.
    pub fn top(&self) -> Value
        ensures { result ≡ top self.now }
    {
        match self.items.last() {
            None => Value::Scalar(Scalar::Int(0)),
            Some(v) => *v,
        }
    }

    /// The operands of an operator, of which it takes both off, or the second alone.
    pub fn take_operands(&mut self, two: bool) -> (Value, Value)
        ensures first { result.0 ≡ second self.old }
        ensures second { result.1 ≡ top self.old }
        ensures below { self.new ≡ below two self.old }
    {
        let y = self.pop();
        if two {
            let x = self.pop();
            (x, y)
        } else {
            (self.top(), y)
        }
    }

    /// Takes the `n` youngest values off, oldest first.
    pub fn split_youngest(&mut self, n: usize) -> Result<Vec<Value>, OutOfMemory>
        ensures taken { IfOk result (λ taken. taken.items ≡ youngest n self.old) }
        ensures left { OnOk result (self.new ≡ drop n self.old) }
    {
        let at = self.items.len().saturating_sub(n);
        Ok(self.items.split_off(at)?)
    }
}
