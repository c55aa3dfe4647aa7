//! Which operations an order is of.

ghost use Rattle.std.specs.Prelude.{◌≡◌};
ghost use Rattle.upc_verify_orders.specs.layer.Parts as parts;

use crate::operation::Operation;

/// The strict operations, or those that stand in the order of a thread: its own, all writes and all strict reads (UPC
/// Appendix B).
#[derive(Clone, Copy, PartialEq, Eq, Debug)]
pub enum Part {
    Strict,
    Shown(usize),
}

/// Whether the operation is one of them.
pub(crate) fn is_in(part: Part, operation: &Operation) -> bool
    ensures { result ≡ parts.is_in part operation.now }
{
    match part {
        Part::Strict => operation.is_strict(),
        Part::Shown(thread) => operation.is_shown(thread),
    }
}
