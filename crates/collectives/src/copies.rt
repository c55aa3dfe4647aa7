//! Parts on their way: the work of calls 5 to 9, and the end of call 10.

ghost use Rattle.std.specs.Prelude.{◌≡◌, ◌+◌, None, drop, map, List, IfOk, IfErr};
ghost use Rattle.std.specs.List.{All};
ghost use Rattle.block_layout.specs.declared.kind.Shape.{Shape};
ghost use Rattle.upc_values.specs.Expansion.{bind, each_in_turn};
ghost use Rattle.upc_values.specs.Expansions as said;
ghost use Rattle.upc_values.specs.declared.refused.Refused.TheVariants.{Memory};
ghost use Rattle.collectives.specs.code.Calls.{refusal_in};
ghost use Rattle.collectives.specs.code.Parts.{part_of, HasRoom};
ghost use Rattle.collectives.specs.code.Tests.{move_tests};
ghost use Rattle.collectives.specs.layer.Left.{copies_rest, copies_put, copies_left, parts_copied, cell_copied};
ghost use Rattle.collectives.specs.layer.Wishes.{IsAsked, RefusesSo};

use crate::cells::Cell;
use crate::part::{Part, any_differs, cells, leave_pieces, leave_range};
use crate::thread::Thread;
use block_layout::Kind;
use block_layout::run_error::{CELL_TYPE, OUT_OF_OBJECT, POINTER_RANGE};
use std::alloc::{AllocError as OutOfMemory, Global};
use std::marker::Model;
use upc_values::{Action, Refused, Scalar};

/// Parts that are copied, each cell by a read and a write. Contracts see what is left of them.
#[derive(Drop)]
pub struct Copies {
    bytes: u64,
    part: Part,
    // The next cell of the part.
    cell: Cell,
    // The cells of the part: those from `at` on come after that one.
    cells: Vec<Cell>,
    at: usize,
    // All parts: those from `next` on come after this one.
    parts: Vec<Part>,
    next: usize,
}

impl Model for Copies {
    ghost use Rattle.std.specs.Prelude.{drop, map};
    ghost use Rattle.collectives.specs.layer.Left.{CopiesLeft};
    ghost use Rattle.collectives.specs.code.Parts.{part_of, IsCopying};

    ghost Value = { CopiesLeft };

    ghost view = { λ c. record {
      bytes = c.bytes;
      part = part_of c.part;
      cell = c.cell;
      cells = drop c.at c.cells.items;
      parts = map part_of (drop c.next c.parts.items);
    } };

    ghost invariant = { λ c. IsCopying c.bytes c.part c.cell c.cells.items c.parts.items };
}

// The first of these parts, from one on, that has a cell.
fn first(
    alloc: Global,
    thread: &Thread<'_>,
    bytes: u64,
    parts: Vec<Part>,
    from: usize,
) -> Result<Option<Copies>, OutOfMemory>
    requires { All (HasRoom bytes) parts.items }
    ensures { IfOk result (λ o. copies_left thread.now.shapes.now o
        ≡ parts_copied thread.now.shapes.now bytes (map part_of (drop from parts.items))) }
{
    for at in from..parts.len() {
        let part = parts[at];
        let cells = cells(alloc, thread, bytes, &part.into)?;
        if cells.len() > 0 {
            return Ok(Some(Copies {
                bytes,
                part,
                cell: cells[0],
                cells,
                at: 1,
                parts,
                next: at + 1,
            }));
        }
    }
    Ok(None)
}

// The run error of the ranges of parts of so many bytes, if they have one.
fn test(
    alloc: Global,
    thread: &Thread<'_>,
    bytes: u64,
    parts: &[Part],
) -> Result<Option<u8>, OutOfMemory>
    ensures value { IfOk result (λ o. o ≡ refusal_in (move_tests thread.now.threads thread.now.shapes.now bytes
        (map part_of parts.now))) }
    ensures rooms { IfOk result (λ o. o ≡ None → All (HasRoom bytes) parts.now) }
{
    if leave_range(bytes, parts) {
        return Ok(Some(POINTER_RANGE));
    }
    if leave_pieces(thread, bytes, parts) {
        return Ok(Some(OUT_OF_OBJECT));
    }
    if any_differs(alloc, thread, bytes, parts)? {
        return Ok(Some(CELL_TYPE));
    }
    Ok(None)
}

// The parts, none of which is begun.
fn begun(
    alloc: Global,
    thread: &Thread<'_>,
    bytes: u64,
    parts: Vec<Part>,
) -> Result<Option<Copies>, Refused>
    requires { All (HasRoom bytes) parts.items }
    ensures made { IfOk result (λ o. copies_left thread.now.shapes.now o
        ≡ parts_copied thread.now.shapes.now bytes (map part_of parts.items)) }
    ensures memory { IfErr result (λ e. e ≡ Memory) }
{
    let copies = first(alloc, thread, bytes, parts, 0)?;
    Ok(copies)
}

impl Copies {
    /// Tests all ranges of parts of so many bytes, which are then to be copied; nothing is left where none has a cell.
    pub fn begin(
        alloc: Global,
        thread: &Thread<'_>,
        bytes: u64,
        parts: Vec<Part>,
    ) -> Result<Option<Copies>, Refused>
        ensures made { IfOk result (λ o. copies_left thread.now.shapes.now o
            ≡ said.move thread.now.threads thread.now.shapes.now thread.now.number bytes (map part_of parts.items)) }
        ensures refused { IfErr result (λ e. RefusesSo e (said.move thread.now.threads
            thread.now.shapes.now thread.now.number bytes (map part_of parts.items))) }
    {
        let found = test(alloc, thread, bytes, parts.as_slice())?;
        match found {
            Some(code) => Err(Refused::Error(code)),
            None => begun(alloc, thread, bytes, parts),
        }
    }

    /// The next cell, once this one is written.
    pub fn further(
        mut self,
        alloc: Global,
        thread: &Thread<'_>,
    ) -> Result<Option<Copies>, OutOfMemory>
        ensures { IfOk result (λ o. copies_left thread.now.shapes.now o
            ≡ bind (each_in_turn (cell_copied self.part) self.cells)
            (λ u. parts_copied thread.now.shapes.now self.bytes self.parts)) }
    {
        if self.at < self.cells.len() {
            self.cell = self.cells[self.at];
            self.at += 1;
            return Ok(Some(self));
        }
        first(alloc, thread, self.bytes, self.parts, self.next)
    }

    /// The read of the next cell.
    pub fn read(&self) -> Action
        ensures { (shapes : List Shape) → IsAsked (copies_rest shapes self.now) result }
    {
        Action::Read {
            loc: self.part.from.location_behind(self.bytes, self.cell.0),
            strict: false,
        }
    }

    /// The write of the next cell.
    pub fn write(&self, value: Scalar) -> Action
        ensures { (shapes : List Shape) → IsAsked (copies_put shapes self.now value) result }
    {
        Action::Write {
            strict: false,
            loc: self.part.into.location_behind(self.bytes, self.cell.0),
            value,
        }
    }

    /// The kind of the next cell.
    pub fn kind(&self) -> Kind
        ensures { result ≡ self.now.cell.1 }
    {
        self.cell.1
    }
}
