//! The numbers of pages, in an order.

ghost use Rattle.std.specs.Prelude.{◌≡◌, ◌<◌, ◌%◌};
ghost use Rattle.shared_heap.specs.code.Cells as cells;

use crate::page::OFFSETS;
use upc_values::Loc;

/// The number of a page, in the order of its object, its thread and its index among the pages of that thread's piece.
#[derive(Clone, Copy, PartialEq, Eq, PartialOrd, Ord)]
pub struct PageNumber {
    pub object: u32,
    pub thread: u32,
    pub index: u32,
}

// The page of a location.
pub(crate) fn page_of(loc: Loc) -> PageNumber
    ensures { result ≡ cells.page_of loc }
{
    PageNumber {
        object: loc.object,
        thread: loc.thread,
        index: loc.offset / OFFSETS,
    }
}

// The offset of a location in its page.
pub(crate) fn offset_in_page(loc: Loc) -> usize
    ensures rest { result ≡ loc.offset % 1024 }
    ensures within { result < 1024 }
{
    (loc.offset % OFFSETS) as usize
}
