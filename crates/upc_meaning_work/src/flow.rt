//! How a statement is left.

use upc_values::Value;

/// At its end, by `break`, by `continue`, or by `return` with a value.
#[derive(Clone, Copy)]
pub enum Flow {
    Next,
    Broke,
    Again,
    Gave(Value),
}
