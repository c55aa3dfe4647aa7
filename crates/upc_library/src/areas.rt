//! Where the ranges of memory calls lie, and the tests of them (UPC 7.2.5).

ghost use Rattle.std.specs.Prelude.{◌≡◌, ◌<◌, ◌≤◌, ◌^◌, ◌-◌, ◌/◌, ◌||◌, not, false, true, []};
ghost use Rattle.std.specs.Prelude.{None, IfOk, IfSome};
ghost use Rattle.std.specs.Option.{option_copied};
ghost use Rattle.std.specs.List.{list_any};
ghost use Rattle.block_layout.specs.Shapes.{IsShape, kind_size};
ghost use Rattle.upc_values.specs.Views.{shape_at};
ghost use Rattle.upc_values.specs.layer.Parts as parts;
ghost use Rattle.upc_values.specs.Copying as said;
ghost use Rattle.upc_values.specs.Shapes as shapes;
ghost use Rattle.block_layout.specs.Cells.{same_cells};
ghost use Rattle.upc_library.specs.code.Areas.{AreCommon, AreShapes, area_in, HasSharedRoom, HasPrivateRoom};
ghost use Rattle.upc_library.specs.layer.Spots.{IsRoomFor};

use crate::cells::{cells_hold_pointers, cuts_cell, same_cells, shape_of};
use crate::piece::is_within;
use crate::range_cells::RangeCells;
use crate::spot::spot_at;
use block_layout::{Kind, LocalPtr, Shape, SharedPtr};
use integers::convert;
use std::alloc::{AllocError as OutOfMemory, Global};
use upc_values::Scalar;

/// Where a range of bytes begins: nowhere, in a shared object, or in a private one.
#[derive(Clone, Copy)]
pub(crate) enum Area {
    Nowhere,
    Shared(SharedPtr),
    Private { object: u64, offset: i64 },
}

/// The run of a memory call: how many threads there are, the program's shapes, and the shape of the private object that
/// the call names, if it has not ended.
#[derive(Clone, Copy)]
pub(crate) struct Caller<'a> {
    pub threads: u32,
    pub shapes: &'a [Shape],
    pub private: Option<&'a Shape>,
    ghost some: { 0 < threads },
}

/// Where a pointer-to-shared leads: nowhere if it is null.
pub(crate) fn shared_area(p: &SharedPtr) -> Area
    ensures { area_in result ≡ parts.shared_area p.now }
{
    if p.is_null() {
        Area::Nowhere
    } else {
        Area::Shared(*p)
    }
}

/// Where a private pointer leads: into shared space, it may be.
pub(crate) fn local_area(p: &LocalPtr) -> Area
    ensures { area_in result ≡ parts.local_area p.now }
{
    match p {
        LocalPtr::Null => Area::Nowhere,
        LocalPtr::Private { object, offset } => Area::Private {
            object: *object,
            offset: *offset,
        },
        LocalPtr::Shared {
            object,
            thread,
            offset,
        } => Area::Shared(SharedPtr {
            object: *object,
            thread: *thread,
            phase: 0,
            offset: *offset,
        }),
    }
}

// Whether the area is nowhere.
pub(crate) fn is_nowhere(area: &Area) -> bool
    ensures { result ≡ said.is_nowhere (area_in area.now) }
{
    matches!(area, Area::Nowhere)
}

// Whether so many bytes leave the piece of their thread.
pub(crate) fn leaves_shared(caller: &Caller<'_>, bytes: u64, area: &Area) -> bool
    ensures value { result ≡ said.leaves_shared caller.now.threads caller.now.shapes.now
        (option_copied caller.now.private) bytes (area_in area.now) }
    ensures inside { result ≡ false → HasSharedRoom bytes area.now }
{
    match area {
        Area::Shared(p) => spot_at(p).leaves_piece(caller.threads, bytes),
        _ => false,
    }
}

// Whether so many bytes lie inside an object of this shape.
pub(crate) fn is_inside(shape: Option<&Shape>, offset: i64, bytes: u64) -> bool
    ensures value { result ≡ parts.is_inside offset bytes (option_copied shape.entry) }
    ensures inside { result ≡ true → IsRoomFor bytes offset }
{
    match shape {
        Some(shape) => is_within(i128::from(offset), bytes, shape.size),
        None => false,
    }
}

// Whether so many bytes leave the private object, or it has ended.
pub(crate) fn leaves_private(caller: &Caller<'_>, bytes: u64, area: &Area) -> bool
    ensures value { result ≡ said.leaves_private caller.now.threads caller.now.shapes.now
        (option_copied caller.now.private) bytes (area_in area.now) }
    ensures inside { result ≡ false → HasPrivateRoom bytes area.now }
{
    match area {
        Area::Private { offset, .. } => !is_inside(caller.private, *offset, bytes),
        _ => false,
    }
}

// The byte at which the area begins.
pub(crate) fn first_byte(area: &Area) -> u128
    ensures value { result ≡ said.first_byte 0 [] None (area_in area.now) }
    ensures near { result ≤ 2 ^ 63 }
{
    match area {
        Area::Nowhere => 0,
        Area::Shared(p) => u128::from(p.offset.unsigned_abs()),
        Area::Private { offset, .. } => u128::from(offset.unsigned_abs()),
    }
}

// The shape of the elements of a pointer's object.
fn shape_at<'a>(caller: &Caller<'a>, p: &SharedPtr) -> Option<&'a Shape>
    requires { AreShapes caller.now.shapes.now (option_copied caller.now.private) }
    ensures value { option_copied result ≡ shape_at caller.now.shapes.now p.now }
    ensures valid { IfSome (option_copied result) IsShape }
{
    shape_of(caller.shapes, p.object.shape)
}

// The shape of the elements that follow one another in an area.
fn shape_in<'a>(caller: &Caller<'a>, area: &Area) -> Option<&'a Shape>
    requires { AreShapes caller.now.shapes.now (option_copied caller.now.private) }
    ensures value { option_copied result ≡ said.shape_in caller.now.threads caller.now.shapes.now
        (option_copied caller.now.private) (area_in area.now) }
    ensures valid { IfSome (option_copied result) IsShape }
{
    match area {
        Area::Nowhere => None,
        Area::Shared(p) => shape_at(caller, p),
        Area::Private { .. } => caller.private,
    }
}

// Whether a cell is cut at either end.
pub(crate) fn is_cut(caller: &Caller<'_>, bytes: u64, area: &Area) -> bool
    requires { AreShapes caller.now.shapes.now (option_copied caller.now.private) }
    ensures { result ≡ said.is_cut caller.now.threads caller.now.shapes.now
        (option_copied caller.now.private) bytes (area_in area.now) }
{
    cuts_cell(shape_in(caller, area), first_byte(area), bytes)
}

// The cells in so many bytes.
pub(crate) fn cells(
    alloc: Global,
    caller: &Caller<'_>,
    bytes: u64,
    area: &Area,
) -> Result<RangeCells, OutOfMemory>
    requires shapes { AreShapes caller.now.shapes.now (option_copied caller.now.private) }
    requires few { bytes ≤ 2 ^ 32 }
    ensures { IfOk result (λ cells. cells ≡ said.cells caller.now.threads caller.now.shapes.now
        (option_copied caller.now.private) bytes (area_in area.now)) }
{
    RangeCells::of(alloc, shape_in(caller, area), first_byte(area), bytes)
}

// Whether one of the cells in so many bytes holds a pointer or a lock.
pub(crate) fn hold_pointers(caller: &Caller<'_>, bytes: u64, area: &Area) -> bool
    requires { AreShapes caller.now.shapes.now (option_copied caller.now.private) }
    ensures { result ≡ list_any (λ x. not (shapes.is_integer x.1)) (said.cells caller.now.threads
        caller.now.shapes.now (option_copied caller.now.private) bytes (area_in area.now)) }
{
    cells_hold_pointers(shape_in(caller, area), first_byte(area), bytes)
}

// Whether one of the areas is nowhere.
pub(crate) fn are_nowhere(dst: &Area, src: &Area) -> bool
    ensures { result ≡ (said.is_nowhere (area_in dst.now) || said.is_nowhere (area_in src.now)) }
{
    is_nowhere(dst) || is_nowhere(src)
}

// Whether so many bytes leave the piece of their thread at one of the areas.
pub(crate) fn leave_shared(caller: &Caller<'_>, bytes: u64, dst: &Area, src: &Area) -> bool
    ensures value { result ≡ (said.leaves_shared caller.now.threads caller.now.shapes.now
        (option_copied caller.now.private) bytes (area_in dst.now)
        || said.leaves_shared caller.now.threads caller.now.shapes.now
        (option_copied caller.now.private) bytes (area_in src.now)) }
    ensures into { result ≡ false → HasSharedRoom bytes dst.now }
    ensures from { result ≡ false → HasSharedRoom bytes src.now }
{
    leaves_shared(caller, bytes, dst) || leaves_shared(caller, bytes, src)
}

// Whether they leave a private object at one of the areas.
pub(crate) fn leave_private(caller: &Caller<'_>, bytes: u64, dst: &Area, src: &Area) -> bool
    ensures value { result ≡ (said.leaves_private caller.now.threads caller.now.shapes.now
        (option_copied caller.now.private) bytes (area_in dst.now)
        || said.leaves_private caller.now.threads caller.now.shapes.now
        (option_copied caller.now.private) bytes (area_in src.now)) }
    ensures into { result ≡ false → HasPrivateRoom bytes dst.now }
    ensures from { result ≡ false → HasPrivateRoom bytes src.now }
{
    leaves_private(caller, bytes, dst) || leaves_private(caller, bytes, src)
}

// Whether the cells in so many bytes are the same in both areas.
fn have_same_cells(caller: &Caller<'_>, bytes: u64, dst: &Area, src: &Area) -> bool
    requires { AreShapes caller.now.shapes.now (option_copied caller.now.private) }
    ensures { result ≡ same_cells (said.cells caller.now.threads caller.now.shapes.now
        (option_copied caller.now.private) bytes (area_in dst.now)) (said.cells caller.now.threads
        caller.now.shapes.now (option_copied caller.now.private) bytes (area_in src.now)) }
{
    same_cells(
        shape_in(caller, dst),
        first_byte(dst),
        shape_in(caller, src),
        first_byte(src),
        bytes,
    )
}

// Whether a cell is cut in one of the areas, or the cells of the two differ.
fn differ(caller: &Caller<'_>, bytes: u64, dst: &Area, src: &Area) -> bool
    requires { AreShapes caller.now.shapes.now (option_copied caller.now.private) }
    ensures { result ≡ (said.is_cut caller.now.threads caller.now.shapes.now
        (option_copied caller.now.private) bytes (area_in dst.now)
        || (said.is_cut caller.now.threads caller.now.shapes.now
        (option_copied caller.now.private) bytes (area_in src.now)
        || not (same_cells (said.cells caller.now.threads caller.now.shapes.now
        (option_copied caller.now.private) bytes (area_in dst.now)) (said.cells caller.now.threads
        caller.now.shapes.now (option_copied caller.now.private) bytes (area_in src.now))))) }
{
    is_cut(caller, bytes, dst)
        || is_cut(caller, bytes, src)
        || !have_same_cells(caller, bytes, dst, src)
}

// Whether the elements of the first area are larger than those of the second.
fn is_larger(caller: &Caller<'_>, area: &Area, other: &Area) -> bool
    requires { AreShapes caller.now.shapes.now (option_copied caller.now.private) }
{
    match (shape_in(caller, area), shape_in(caller, other)) {
        (Some(shape), Some(other)) => shape.size > other.size,
        _ => false,
    }
}

/// The cells of both areas, kept by the smaller element; None where a cell is cut, or they differ in place or kind.
pub(crate) fn common_cells(
    alloc: Global,
    caller: &Caller<'_>,
    bytes: u64,
    dst: &Area,
    src: &Area,
) -> Result<Option<RangeCells>, OutOfMemory>
    requires shapes { AreShapes caller.now.shapes.now (option_copied caller.now.private) }
    requires few { bytes ≤ 2 ^ 32 }
    ensures { IfOk result (λ found. AreCommon caller.now.threads caller.now.shapes.now
        (option_copied caller.now.private) bytes (area_in dst.now) (area_in src.now) found) }
{
    if differ(caller, bytes, dst, src) {
        return Ok(None);
    }
    if is_larger(caller, dst, src) {
        Ok(Some(cells(alloc, caller, bytes, src)?))
    } else {
        Ok(Some(cells(alloc, caller, bytes, dst)?))
    }
}

// The number whose every byte is 1.
pub(crate) fn ones(kind: Kind) -> u64
    requires { shapes.is_integer kind ≡ true }
    ensures { result ≡ (256 ^ kind_size kind - 1) / 255 }
{
    match kind {
        Kind::Char | Kind::UChar => 1,
        Kind::Short | Kind::UShort => 0x0101,
        Kind::Int | Kind::UInt => 0x0101_0101,
        _ => 0x0101_0101_0101_0101,
    }
}

// The value whose every byte is this one.
pub(crate) fn filled(byte: u8, kind: Kind) -> Scalar
    requires { shapes.is_integer kind ≡ true }
    ensures { result ≡ said.filled byte kind }
{
    Scalar::Int(convert(i128::from(byte) * i128::from(ones(kind)), kind))
}
