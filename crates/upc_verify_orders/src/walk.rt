//! The walk over an order.

ghost use Rattle.std.specs.Prelude.{◌≡◌, ◌≤◌, ◌<◌, ◌↔◌, IsTrue, length};
ghost use Rattle.upc_values.specs.Lists.{Each, Pairwise};
ghost use Rattle.upc_verify_orders.specs.code.Tables as said;
ghost use Rattle.upc_verify_orders.specs.code.Tables.{InThread};

use crate::table::{Point, rank_of, reached, reaches};
use upc_values::{Listing, Op};

// The greater of two.
fn greater(a: usize, b: usize) -> usize
    ensures first { a ≤ result }
    ensures second { b ≤ result }
    ensures one { (n : _) → a ≤ n → b ≤ n → result ≤ n }
{
    if a < b { b } else { a }
}

/// Whether no two of the order stand the other way round than the strict order that the list makes: nothing earlier has
/// reached behind where a later one reaches.
pub(crate) fn walk(strict: &[Op], tables: &[Listing<Point>], order: &[Op]) -> bool
    requires tables { tables.now ≡ said.tables (length tables.now) strict.now }
    requires kept { Pairwise InThread strict.now }
    requires below { Each (λ n. n.thread < length tables.now) order.now }
    ensures { IsTrue result
        ↔ Pairwise (λ a b. said.reached strict.now a ≤ said.reaches strict.now b) order.now }
{
    let mut most = 0;
    for name in order {
        let points = tables[name.thread as usize].as_slice();
        let rank = rank_of(*name);
        let next = reaches(points, rank, strict.len());
        if most > next {
            return false;
        }
        most = greater(most, reached(points, rank, strict.len()));
    }
    true
}
