//! Parts that a call copies.

ghost use Rattle.std.specs.Prelude.{◌≡◌, ◌<◌, ◌||◌, false, map, unsigned_abs, IfOk};
ghost use Rattle.std.specs.List.{All, list_any};
ghost use Rattle.upc_values.specs.Expansions as said;
ghost use Rattle.upc_values.specs.Views as views;
ghost use Rattle.upc_library.specs.layer.Spots.{pointer_of};
ghost use Rattle.collectives.specs.code.Parts.{part_of, HasRoom};

use crate::cells::{Cell, cells_within, cuts_cell, same_cells, shape_of};
use crate::thread::Thread;
use std::alloc::{AllocError as OutOfMemory, Global};
use upc_library::Spot;

/// Where bytes are copied to, and where from.
#[derive(Clone, Copy)]
pub struct Part {
    pub into: Spot,
    pub from: Spot,
}

/// Whether so many bytes at the pointer cut a cell.
pub fn cut(thread: &Thread<'_>, bytes: u64, p: &Spot) -> bool
    ensures { result ≡ said.cut thread.now.threads thread.now.shapes.now thread.now.number bytes (pointer_of p.now) }
{
    cuts_cell(
        shape_of(thread.shapes, p.object.shape),
        p.offset.unsigned_abs(),
        bytes,
    )
}

/// The cells in so many bytes at the pointer.
pub fn cells(
    alloc: Global,
    thread: &Thread<'_>,
    bytes: u64,
    p: &Spot,
) -> Result<Vec<Cell>, OutOfMemory>
    ensures cells { IfOk result (λ cells. cells.items
        ≡ said.cells thread.now.threads thread.now.shapes.now thread.now.number bytes
        (pointer_of p.now)) }
    ensures within { IfOk result (λ cells. All (λ c. c.0 < bytes) cells.items) }
{
    cells_within(
        alloc,
        shape_of(thread.shapes, p.object.shape),
        p.offset.unsigned_abs(),
        bytes,
    )
}

// Whether cells are cut, or differ in place or kind.
fn differ(alloc: Global, thread: &Thread<'_>, bytes: u64, part: &Part) -> Result<bool, OutOfMemory>
    ensures { IfOk result (λ b. b ≡ said.differ thread.now.threads thread.now.shapes.now
        thread.now.number bytes (part_of part.now)) }
{
    if cut(thread, bytes, &part.into) || cut(thread, bytes, &part.from) {
        return Ok(true);
    }
    let into = cells(alloc, thread, bytes, &part.into)?;
    let from = cells(alloc, thread, bytes, &part.from)?;
    Ok(!same_cells(into.as_slice(), from.as_slice()))
}

/// Whether the offset of a byte of one of the parts leaves its range.
pub fn leave_range(bytes: u64, parts: &[Part]) -> bool
    ensures { result ≡ list_any (λ x. views.leaves_range bytes x.into
        || views.leaves_range bytes x.from) (map part_of parts.now) }
{
    for part in parts {
        if part.into.leaves_range(bytes) || part.from.leaves_range(bytes) {
            return true;
        }
    }
    false
}

// Whether a part leaves the piece of its thread.
fn leaves_piece(thread: &Thread<'_>, bytes: u64, part: &Part) -> bool
    ensures value { result ≡ (views.leaves_piece thread.now.threads bytes (part_of part.now).into
        || views.leaves_piece thread.now.threads bytes (part_of part.now).from) }
    ensures inside { result ≡ false → HasRoom bytes part.now }
{
    part.into.leaves_piece(thread.threads, bytes) || part.from.leaves_piece(thread.threads, bytes)
}

/// Whether one of the parts leaves the piece of its thread.
pub fn leave_pieces(thread: &Thread<'_>, bytes: u64, parts: &[Part]) -> bool
    ensures value { result ≡ list_any (λ x. views.leaves_piece thread.now.threads bytes x.into
        || views.leaves_piece thread.now.threads bytes x.from) (map part_of parts.now) }
    ensures inside { result ≡ false → All (HasRoom bytes) parts.now }
{
    for part in parts {
        if leaves_piece(thread, bytes, part) {
            return true;
        }
    }
    false
}

/// Whether one of the parts cuts a cell, or its cells differ.
pub fn any_differs(
    alloc: Global,
    thread: &Thread<'_>,
    bytes: u64,
    parts: &[Part],
) -> Result<bool, OutOfMemory>
    ensures { IfOk result (λ b. b ≡ list_any (said.differ thread.now.threads thread.now.shapes.now
        thread.now.number bytes) (map part_of parts.now)) }
{
    for part in parts {
        if differ(alloc, thread, bytes, part)? {
            return Ok(true);
        }
    }
    Ok(false)
}
