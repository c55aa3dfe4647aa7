//! Which operations an order is of.

ghost use Rattle.std.specs.Prelude.{◌≡◌, IfOk};
ghost use Rattle.order_builder.specs.code.Parts as parts;

use crate::names::Named;
use std::alloc::Global;
use upc_text::OutOfMemory;
use upc_values::{Listing, Order};

/// All operations, the strict ones, or those that stand in the order of a thread: its own, all writes and all strict
/// reads (UPC Appendix B).
#[derive(Clone, Copy)]
pub enum Part {
    Whole,
    Strict,
    Shown(u32),
}

impl Part {
    // Whether the operation is one of them.
    fn has(self, named: Named) -> bool
        ensures { result ≡ parts.is_in self named }
    {
        match self {
            Part::Whole => true,
            Part::Strict => named.strict,
            Part::Shown(thread) => named.name.thread == thread || named.name.write || named.strict,
        }
    }
}

/// The names of those that are in the part, in the same order.
pub fn order_of(alloc: Global, part: Part, names: &[Named]) -> Result<Order, OutOfMemory>
    ensures { IfOk result (λ order. order ≡ parts.order_of part names.now) }
{
    let mut order = Vec::new(alloc);
    for named in names {
        if part.has(*named) {
            order.push(named.name)?;
        }
    }
    Ok(Listing::from_vec(order))
}
