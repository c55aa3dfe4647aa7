//! How a cell lies in memory.

ghost use Rattle.std.specs.Prelude.{◌≡◌};
ghost use Rattle.private_store.specs.code.Held.{held_value};

use block_layout::{LocalPtr, SharedPtr};
use upc_values::{Scalar, Value};

/// What a cell holds, in 48 bytes, where a value takes 64.
#[derive(Clone, Copy)]
pub(crate) enum Held {
    Number(i128),
    Shared(SharedPtr),
    Lock(u32),
    Local(LocalPtr),
}

impl Held {
    /// The form of a value.
    #[inline(always)]
    pub(crate) fn of(v: Value) -> Held
        ensures { held_value result ≡ v }
    {
        match v {
            Value::Scalar(Scalar::Int(number)) => Held::Number(number),
            Value::Scalar(Scalar::Shared(pointer)) => Held::Shared(pointer),
            Value::Scalar(Scalar::Lock(lock)) => Held::Lock(lock),
            Value::Local(pointer) => Held::Local(pointer),
        }
    }

    /// The value.
    #[inline(always)]
    pub(crate) fn value(&self) -> Value
        ensures { result ≡ held_value self.now }
    {
        match *self {
            Held::Number(number) => Value::Scalar(Scalar::Int(number)),
            Held::Shared(pointer) => Value::Scalar(Scalar::Shared(pointer)),
            Held::Lock(lock) => Value::Scalar(Scalar::Lock(lock)),
            Held::Local(pointer) => Value::Local(pointer),
        }
    }

    /// Another value.
    #[inline(always)]
    pub(crate) fn put(&mut self, v: Value)
        ensures { held_value self.new ≡ v }
    {
        *self = Held::of(v);
    }
}
