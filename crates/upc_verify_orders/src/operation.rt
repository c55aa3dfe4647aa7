//! Reads and writes by actions of threads (UPC Appendix B).

ghost use Rattle.std.specs.Prelude.{◌≡◌, ◌↔◌, IsTrue};
ghost use Rattle.upc_values.specs.Operations as operations;
ghost use Rattle.upc_values.specs.Orders.{name_of};
ghost use Rattle.upc_values.specs.Orders as orders;
ghost use Rattle.upc_verify_orders.specs.code.Found.{IsBefore};
ghost use Rattle.upc_verify_orders.specs.layer.Parts.{place_of};

use crate::place::Place;
use std::marker::Model;
use upc_values::{Op, Scalar};

/// A read or a write by an action of a thread. Contracts see the operation of the definitions.
#[derive(Drop)]
pub struct Operation {
    thread: usize,
    index: usize,
    write: bool,
    strict: bool,
    place: Place,
    value: Scalar,
}

impl Model for Operation {
    ghost use Rattle.upc_values.specs.Operations as operations;
    ghost use Rattle.upc_verify_orders.specs.layer.Parts.{place_of};

    ghost Value = { operations.Operation };

    ghost view = { λ o. record {
      thread = o.thread;
      index = o.index;
      write = o.write;
      strict = o.strict;
      place = place_of o.place;
      value = o.value;
    } };
}

impl Operation {
    /// A read by the thread's action of this number.
    pub fn read_at(
        thread: usize,
        index: usize,
        place: Place,
        strict: bool,
        value: Scalar,
    ) -> Operation
        ensures { result ≡ operations.read_at thread index (place_of place) strict value }
    {
        Operation {
            thread,
            index,
            write: false,
            strict,
            place,
            value,
        }
    }

    /// A write by the thread's action of this number.
    pub fn write_at(
        thread: usize,
        index: usize,
        place: Place,
        strict: bool,
        value: Scalar,
    ) -> Operation
        ensures { result ≡ operations.write_at thread index (place_of place) strict value }
    {
        Operation {
            thread,
            index,
            write: true,
            strict,
            place,
            value,
        }
    }

    /// The number of its thread.
    pub fn thread(&self) -> usize
        ensures { result ≡ self.now.thread }
    {
        self.thread
    }

    /// Whether it is a write.
    pub fn is_write(&self) -> bool
        ensures { result ≡ self.now.write }
    {
        self.write
    }

    /// Whether it is strict.
    pub fn is_strict(&self) -> bool
        ensures { result ≡ self.now.strict }
    {
        self.strict
    }

    /// The value that it reads or writes.
    pub fn value(&self) -> Scalar
        ensures { result ≡ self.now.value }
    {
        self.value
    }

    /// Where it acts.
    pub fn place(&self) -> Place
        ensures { place_of result ≡ self.now.place }
    {
        self.place
    }

    /// Whether this is its name.
    pub fn is_named(&self, name: Op) -> bool
        ensures { IsTrue result ↔ (name_of self.now ≡ name) }
    {
        self.thread == name.thread as usize
            && self.index == name.index as usize
            && self.write == name.write
    }

    /// Whether it stands before the one with this name, where threads stand one after another, each in program order.
    pub fn is_before(&self, name: Op) -> bool
        ensures { IsTrue result ↔ IsBefore self.now name }
    {
        let thread = name.thread as usize;
        let index = name.index as usize;
        self.thread < thread
            || (self.thread == thread
                && (self.index < index || (self.index == index && self.write && !name.write)))
    }

    /// Whether it stands in the thread's order: its own operations, all writes and all strict reads.
    pub fn is_shown(&self, thread: usize) -> bool
        ensures { result ≡ orders.is_shown thread self.now }
    {
        self.thread == thread || self.write || self.strict
    }
}
