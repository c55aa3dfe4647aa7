//! A memory call, step by step.

ghost use Rattle.std.specs.Prelude.{◌≡◌, ◌<◌, false, IfOk, IfErr, IfSome, None, [], ℕ};
ghost use Rattle.block_layout.specs.declared.kind.Kind.{Kind};
ghost use Rattle.upc_values.specs.declared.scalar.Scalar.{Scalar};
ghost use Rattle.std.specs.Option.{option_copied};
ghost use Rattle.upc_values.specs.Copying as said;
ghost use Rattle.upc_values.specs.Expansion.{after_reply, value_in, nothing as said_nothing};
ghost use Rattle.upc_values.specs.Lists.{Each};
ghost use Rattle.block_layout.specs.Shapes.{IsShape};
ghost use Rattle.upc_library.specs.code.Areas.{AreShapes, area_in, HasRooms};
ghost use Rattle.upc_library.specs.code.Kept.{source_in, IsWalk};
ghost use Rattle.upc_library.specs.layer.Walks.{left, rest, behind, replies_left, Falls, written};
ghost use Rattle.upc_library.specs.layer.Wishes.{IsWish, Answers, RefusesSo, is_refusal, kind_read, expansion, area_of};

use crate::areas::{
    Area, Caller, are_nowhere, cells, common_cells, filled, hold_pointers, is_cut, is_nowhere,
    leave_private, leave_shared, leaves_private, leaves_shared, local_area, shared_area,
};
use crate::cells::Cell;
use crate::range_cells::RangeCells;
use crate::spot::spot_at;
use block_layout::run_error::{CELL_TYPE, NULL_ACCESS, OUT_OF_OBJECT, PRIVATE_RANGE};
use block_layout::{Kind, LocalPtr, Shape, SharedPtr};
use std::alloc::Global;
use std::marker::Model;
use upc_values::{Action, Refused, Reply, Scalar};

// The accesses of a memory call are relaxed (UPC 7.2.5).
const STRICT: bool = false;

/// One side of a memory call.
#[derive(Clone, Copy)]
pub enum Side {
    Shared(SharedPtr),
    Local(LocalPtr),
}

/// A memory call. Where `set` is true the source is not used, and every byte is `byte`.
#[derive(Clone, Copy)]
pub struct CopySpec {
    pub set: bool,
    pub dst: Side,
    pub src: Side,
    pub bytes: u64,
    pub byte: u8,
}

/// What a memory call asks for next.
#[derive(Drop)]
pub enum CopyWish {
    Act(Action),
    LoadPrivate(LocalPtr, Kind),
    StorePrivate(LocalPtr, Kind, Scalar),
    Finished,
}

// Where the values come from.
#[derive(Clone, Copy)]
pub(crate) enum Source {
    Area(Area),
    Byte(u8),
}

/// A memory call on its way. Contracts see what is left of it.
#[derive(Drop)]
pub struct Copying {
    dst: Area,
    src: Source,
    bytes: u64,
    // The next cell, and those after it.
    cell: Option<Cell>,
    others: RangeCells,
    // The value of the next one, once it has come.
    value: Option<Scalar>,
}

impl Model for Copying {
    ghost use Rattle.upc_library.specs.layer.Walks.{Left, left};
    ghost use Rattle.upc_library.specs.code.Kept.{source_in, IsWalk};
    ghost use Rattle.upc_library.specs.code.Areas.{area_in};
    ghost use Rattle.upc_library.specs.code.Cursors.{coming};

    ghost Value = { Left };

    ghost view = { λ c. left (area_in c.dst) (source_in c.src) (coming c.cell c.others) c.value };

    ghost invariant = { λ c. IsWalk c.bytes c.dst c.src (coming c.cell c.others) };
}

// The value that a reply gives.
fn value_in(reply: &Reply) -> Scalar
    ensures { result ≡ value_in reply.now }
{
    match reply {
        Reply::Value(value) => *value,
        _ => Scalar::Int(0),
    }
}

// The wish to write a cell.
fn write(dst: &Area, bytes: u64, cell: Cell, value: Scalar) -> CopyWish
    requires somewhere { said.is_nowhere (area_in dst.now) ≡ false }
    requires room { HasRooms bytes dst.now }
    requires inside { cell.0 < bytes }
    ensures { IsWish (written (area_in dst.now) cell value) result }
{
    match dst {
        Area::Nowhere => CopyWish::Finished,
        Area::Shared(p) => CopyWish::Act(Action::Write {
            loc: spot_at(p).location_behind(bytes, u64::from(cell.0)),
            value,
            strict: STRICT,
        }),
        Area::Private { object, offset } => CopyWish::StorePrivate(
            LocalPtr::Private {
                object: *object,
                offset: *offset + i64::from(cell.0),
            },
            cell.1,
            value,
        ),
    }
}

// The wish to read a cell.
fn read(src: &Area, bytes: u64, cell: Cell) -> CopyWish
    requires somewhere { said.is_nowhere (area_in src.now) ≡ false }
    requires room { HasRooms bytes src.now }
    requires inside { cell.0 < bytes }
    ensures { (dst : said.Area) → IsWish (said.copied 0 [] None dst (area_in src.now) cell) result }
{
    match src {
        Area::Nowhere => CopyWish::Finished,
        Area::Shared(p) => CopyWish::Act(Action::Read {
            loc: spot_at(p).location_behind(bytes, u64::from(cell.0)),
            strict: STRICT,
        }),
        Area::Private { object, offset } => CopyWish::LoadPrivate(
            LocalPtr::Private {
                object: *object,
                offset: *offset + i64::from(cell.0),
            },
            cell.1,
        ),
    }
}

// The kind of the cell that is read, where one of a shared object is.
fn read_kind(src: &Area, cell: Cell) -> Option<Kind>
    requires somewhere { said.is_nowhere (area_in src.now) ≡ false }
    ensures { (dst : said.Area) → result ≡ kind_read (said.copied 0 [] None dst (area_in src.now) cell) }
{
    match src {
        Area::Shared(_) => Some(cell.1),
        _ => None,
    }
}

// A cell that is written is not read.
fn written_kind(dst: &Area) -> Option<Kind>
    requires somewhere { said.is_nowhere (area_in dst.now) ≡ false }
    ensures { (cell : ℕ × Kind) (value : Scalar) → result ≡ kind_read (written (area_in dst.now) cell value) }
{
    match dst {
        Area::Nowhere => None,
        Area::Shared(_) => None,
        Area::Private { .. } => None,
    }
}

fn area_of(side: &Side) -> Area
    ensures { area_in result ≡ area_of side.now }
{
    match side {
        Side::Shared(p) => shared_area(p),
        Side::Local(p) => local_area(p),
    }
}

impl Copying {
    /// The value of the next cell has come, or the next cell is done.
    pub fn take(&mut self, reply: &Reply)
        requires { is_refusal reply.now ≡ false }
        ensures rest { rest self.new ≡ after_reply (rest self.old) reply.now }
        ensures falls { 0 < replies_left self.old → replies_left self.new < replies_left self.old }
    {
        if self.cell.is_some() {
            match self.value {
                Some(_) => {
                    self.value = None;
                    self.cell = self.others.next();
                }
                None => match self.src {
                    Source::Area(_) => self.value = Some(value_in(reply)),
                    Source::Byte(_) => self.cell = self.others.next(),
                },
            }
        }
    }

    /// What is asked for next.
    pub fn wish(&self) -> CopyWish
        ensures { IsWish (rest self.now) result }
    {
        let Some(cell) = self.cell else {
            return CopyWish::Finished;
        };
        match self.value {
            Some(value) => write(&self.dst, self.bytes, cell, value),
            None => match &self.src {
                Source::Area(src) => read(src, self.bytes, cell),
                Source::Byte(byte) => write(&self.dst, self.bytes, cell, filled(*byte, cell.1)),
            },
        }
    }

    /// The kind of the cell that the call asks to read in a shared object, None where it asks for anything else.
    pub fn reads(&self) -> Option<Kind>
        ensures { result ≡ kind_read (rest self.now) }
    {
        let cell = self.cell?;
        match self.value {
            Some(_) => written_kind(&self.dst),
            None => match &self.src {
                Source::Area(src) => read_kind(src, cell),
                Source::Byte(_) => written_kind(&self.dst),
            },
        }
    }

    /// What the call asks for next, where the reply answers what it asked for last; without one, the same once more.
    pub fn next(&mut self, reply: Option<&Reply>) -> CopyWish
        requires { Answers (option_copied reply) }
        ensures rest { rest self.new ≡ behind (rest self.old) (option_copied reply.entry) }
        ensures wish { IsWish (rest self.new) result }
        ensures falls { Falls (option_copied reply.entry) self.old self.new }
    {
        if let Some(reply) = reply {
            self.take(reply);
        }
        self.wish()
    }
}

// A memory call at the first of these cells.
fn begun(dst: Area, src: Source, bytes: u64, mut cells: RangeCells) -> Copying
    requires { IsWalk bytes dst src cells }
    ensures { result ≡ left (area_in dst) (source_in src) cells None }
{
    Copying {
        dst,
        src,
        bytes,
        cell: cells.next(),
        others: cells,
        value: None,
    }
}

// A copy of the bytes of an area.
#[tactic(auto, using(crate::proofs::Walking::few_bytes))]
fn copy(
    alloc: Global,
    caller: &Caller<'_>,
    dst: Area,
    src: Area,
    bytes: u64,
) -> Result<Copying, Refused>
    requires some { 0 < bytes }
    requires shapes { AreShapes caller.now.shapes.now (option_copied caller.now.private) }
    ensures made { IfOk result (λ c. rest c ≡ said.copy caller.now.threads caller.now.shapes.now
        (option_copied caller.now.private) (area_in dst) (area_in src) bytes) }
    ensures refused { IfErr result (λ e. RefusesSo e (said.copy caller.now.threads caller.now.shapes.now
        (option_copied caller.now.private) (area_in dst) (area_in src) bytes)) }
{
    if are_nowhere(&dst, &src) {
        return Err(Refused::Error(NULL_ACCESS));
    }
    if leave_shared(caller, bytes, &dst, &src) {
        return Err(Refused::Error(OUT_OF_OBJECT));
    }
    if leave_private(caller, bytes, &dst, &src) {
        return Err(Refused::Error(PRIVATE_RANGE));
    }
    let common = common_cells(alloc, caller, bytes, &dst, &src)?;
    let Some(cells) = common else {
        return Err(Refused::Error(CELL_TYPE));
    };
    Ok(begun(dst, Source::Area(src), bytes, cells))
}

// Bytes that are set.
#[tactic(auto, using(crate::proofs::Walking::few_bytes))]
fn fill(
    alloc: Global,
    caller: &Caller<'_>,
    dst: Area,
    byte: u8,
    bytes: u64,
) -> Result<Copying, Refused>
    requires some { 0 < bytes }
    requires shapes { AreShapes caller.now.shapes.now (option_copied caller.now.private) }
    ensures made { IfOk result (λ c. rest c ≡ said.set caller.now.threads caller.now.shapes.now
        (option_copied caller.now.private) (area_in dst) byte bytes) }
    ensures refused { IfErr result (λ e. RefusesSo e (said.set caller.now.threads caller.now.shapes.now
        (option_copied caller.now.private) (area_in dst) byte bytes)) }
{
    if is_nowhere(&dst) {
        return Err(Refused::Error(NULL_ACCESS));
    }
    if leaves_shared(caller, bytes, &dst) {
        return Err(Refused::Error(OUT_OF_OBJECT));
    }
    if leaves_private(caller, bytes, &dst) {
        return Err(Refused::Error(PRIVATE_RANGE));
    }
    if is_cut(caller, bytes, &dst) {
        return Err(Refused::Error(CELL_TYPE));
    }
    if hold_pointers(caller, bytes, &dst) {
        return Err(Refused::Error(CELL_TYPE));
    }
    let cells = cells(alloc, caller, bytes, &dst)?;
    Ok(begun(dst, Source::Byte(byte), bytes, cells))
}

// A call of no byte does nothing.
fn nothing(alloc: Global) -> Copying
    ensures { rest result ≡ said_nothing }
{
    let null = Area::Shared(SharedPtr::NULL);
    begun(null, Source::Area(null), 0, RangeCells::none(alloc))
}

impl Copying {
    /// Tests the ranges of a memory call. `private` is the shape of the private object that the call names, if it has
    /// not ended.
    ///
    /// Refused by `NULL_ACCESS`, `OUT_OF_OBJECT`, `PRIVATE_RANGE` or `CELL_TYPE`.
    pub fn make(
        alloc: Global,
        spec: &CopySpec,
        shapes: &[Shape],
        private: Option<&Shape>,
        threads: u32,
    ) -> Result<Copying, Refused>
        requires some { 0 < threads }
        requires shapes { Each IsShape shapes.now }
        requires private { IfSome (option_copied private) IsShape }
        ensures made { IfOk result (λ c. rest c
            ≡ expansion threads shapes.now (option_copied private.entry) spec.now) }
        ensures refused { IfErr result (λ e. RefusesSo e
            (expansion threads shapes.now (option_copied private.entry) spec.now)) }
    {
        if spec.bytes == 0 {
            return Ok(nothing(alloc));
        }
        let caller = Caller {
            threads,
            shapes,
            private,
        };
        if spec.set {
            fill(alloc, &caller, area_of(&spec.dst), spec.byte, spec.bytes)
        } else {
            copy(
                alloc,
                &caller,
                area_of(&spec.dst),
                area_of(&spec.src),
                spec.bytes,
            )
        }
    }
}
