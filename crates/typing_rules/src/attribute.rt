//! What an expression is to the node above it.

ghost use Rattle.std.proofs.Props.{props};
ghost use Rattle.typing_rules.specs.Constants.{IsWithin, NamesWithin};

use upc_types::CType;

/// A place that is known before the run (C99 6.6): bytes from the beginning of a private object of the file, or a
/// pointer into a shared object, without what is the same for the whole object.
#[derive(Clone, Copy)]
pub enum Static {
    Private {
        object: u32,
        offset: i64,
    },
    Shared {
        object: u32,
        thread: u32,
        phase: u32,
        offset: i64,
    },
}

/// Which element of its array an object is, from 0 to the number of elements: the last is the place after the array's
/// end. An object that is no element of an array is the one element of its own (C99 6.5.6).
#[derive(Clone, Copy)]
pub struct Element {
    pub index: u32,
    /// How many elements the array has.
    pub count: u32,
}

/// The value of a constant expression (C99 6.6).
#[derive(Clone, Copy)]
pub enum Constant {
    /// It is none.
    Variable,
    /// An integer constant expression.
    Known(i128),
    /// A constant expression whose value is undefined.
    Undefined,
    /// A null pointer.
    Null,
    /// An address, and which element of its array the object there is.
    Address(Static, Element),
}

/// What an expression is beside its type (C99 6.3.2.1).
#[derive(Clone, Copy)]
pub enum Form {
    Value,
    /// It names an object, whose address may be known before the run.
    Lvalue(Constant),
    /// It names a function.
    Callable,
    /// It is a string.
    Text,
}

/// The type of an expression, its form, and its value where it is constant.
#[derive(Drop)]
pub struct Attr {
    pub ctype: CType,
    pub form: Form,
    pub constant: Constant,
    ghost within: { IsWithin constant } by { Prim.hlevel props },
    ghost names: { NamesWithin form } by { Prim.hlevel props },
}
