//! Addresses that are known before the run, and those some elements after them (C99 6.5.6, 6.6; UPC 6.4.2, 6.4.4).

ghost use Rattle.std.specs.Prelude.{◌≡◌, ◌*◌, ◌<◌, ◌≤◌, ◌^◌, IfSome, pos, ◌+ℤ◌, ◌*ℤ◌, unsigned_abs};
ghost use Rattle.block_layout.specs.Places.{offset_at};
ghost use Rattle.block_layout.specs.Pointers.{element_in_row, moved, row_offset};
ghost use Rattle.shared_pointers.specs.layer.Parts.{moved_by_blocks};
ghost use Rattle.typing_rules.specs.Constants as constants;
ghost use Rattle.typing_rules.specs.Constants.{IsWithin};
ghost use Rattle.typing_rules.specs.Attributes as attributes;

use block_layout::{ObjectRef, SharedPtr, is_in_range, wide};
use typing_rules::{Constant, Element, Static};

/// An object that is no element of an array.
pub(crate) const ALONE: Element = Element { index: 0, count: 1 };

// A place in a shared object whose offset may be out of range.
#[derive(Clone, Copy)]
struct Spot {
    thread: u32,
    phase: u32,
    offset: i128,
}

fn private_at(element: Element, object: u32, offset: i128) -> Constant
    ensures value { result ≡ constants.ranged element (Static.Private object offset) }
    ensures within { IsWithin result }
{
    if !is_in_range(offset) {
        return Constant::Undefined;
    }
    let place = Static::Private {
        object,
        offset: offset as i64,
    };
    Constant::Address(place, element)
}

fn shared_at(element: Element, object: u32, spot: Spot) -> Constant
    ensures value { result ≡ constants.ranged element (Static.Shared object spot.thread spot.phase spot.offset) }
    ensures within { IsWithin result }
{
    if !is_in_range(spot.offset) {
        return Constant::Undefined;
    }
    let place = Static::Shared {
        object,
        thread: spot.thread,
        phase: spot.phase,
        offset: spot.offset as i64,
    };
    Constant::Address(place, element)
}

fn pointer_into(object: u32, thread: u32, phase: u32, offset: i64) -> SharedPtr
    ensures { result ≡ constants.pointer_into object thread phase offset }
{
    SharedPtr {
        object: ObjectRef {
            number: object,
            total: 0,
            block: 0,
            home: 0,
            shape: 0,
            base: 0,
        },
        thread,
        phase,
        offset,
    }
}

// A number times a factor.
pub(crate) fn times(z: i128, factor: u32) -> i128
    requires { unsigned_abs z ≤ 2 ^ 90 }
    ensures value { result ≡ z *ℤ pos factor }
    ensures bound { unsigned_abs result ≤ unsigned_abs z * factor }
    ensures near { unsigned_abs result ≤ 2 ^ 122 }
{
    z * i128::from(factor)
}

fn place_in_row(p: &SharedPtr, block: u32) -> i128
    ensures value { result ≡ pos (element_in_row p.now block) }
    ensures bound { unsigned_abs result ≤ 2 ^ 64 }
{
    let before = u64::from(p.thread) * u64::from(block);
    i128::from(before) + i128::from(p.phase)
}

fn row_begin(p: &SharedPtr, size: u32) -> i128
    ensures value { result ≡ row_offset p.now size }
    ensures bound { unsigned_abs result ≤ 2 ^ 65 }
{
    let bytes = u64::from(p.phase) * u64::from(size);
    i128::from(p.offset) - i128::from(bytes)
}

// The offset of an element that is counted from the row of a pointer, with a block of at least 1.
fn offset_in_row(p: &SharedPtr, e: i128, block: u32, size: u32, threads: u32) -> i128
    requires near { unsigned_abs e ≤ 2 ^ 91 }
    requires some_block { 0 < block }
    requires some_thread { 0 < threads }
    ensures { result ≡ offset_at e block size threads +ℤ row_offset p.now size }
{
    let offset = wide::offset_of(e, block, size, threads);
    let row = row_begin(p, size);
    offset + row
}

// The place some elements after a pointer, with a block of at least 1.
fn moved_by_blocks(p: &SharedPtr, i: i128, block: u32, size: u32, threads: u32) -> Spot
    requires step { unsigned_abs i ≤ 2 ^ 90 }
    requires some_block { 0 < block }
    requires some_thread { 0 < threads }
    ensures thread { result.thread ≡ (moved_by_blocks p.now i block size threads).thread }
    ensures phase { result.phase ≡ (moved_by_blocks p.now i block size threads).phase }
    ensures offset { result.offset ≡ (moved_by_blocks p.now i block size threads).offset }
{
    let e = place_in_row(p, block) + i;
    Spot {
        thread: wide::thread_of(e, block, threads),
        phase: wide::phase_of(e, block),
        offset: offset_in_row(p, e, block, size, threads),
    }
}

// An offset and some elements.
fn offset_plus(offset: i64, i: i128, size: u32) -> i128
    requires { unsigned_abs i ≤ 2 ^ 90 }
    ensures { result ≡ offset +ℤ i *ℤ pos size }
{
    let bytes = times(i, size);
    i128::from(offset) + bytes
}

// The place some elements after a pointer.
fn moved(p: &SharedPtr, i: i128, block: u32, size: u32, threads: u32) -> Spot
    requires step { unsigned_abs i ≤ 2 ^ 90 }
    requires some_thread { 0 < threads }
    ensures thread { result.thread ≡ (moved p.now i block size threads).thread }
    ensures phase { result.phase ≡ (moved p.now i block size threads).phase }
    ensures offset { result.offset ≡ (moved p.now i block size threads).offset }
{
    if block != 0 {
        return moved_by_blocks(p, i, block, size, threads);
    }
    Spot {
        thread: p.thread,
        phase: p.phase,
        offset: offset_plus(p.offset, i, size),
    }
}

/// The block, 0 where it is indefinite or there is none.
pub(crate) fn block_or_none(block: Option<u32>) -> u32
    ensures { result ≡ constants.block_or_none block }
{
    match block {
        Some(block) => block,
        None => 0,
    }
}

// An address some leaf elements after another.
fn place_plus(
    threads: u32,
    block: Option<u32>,
    size: u32,
    element: Element,
    p: Static,
    i: i128,
) -> Constant
    requires some_thread { 0 < threads }
    requires step { unsigned_abs i ≤ 2 ^ 90 }
    ensures value { result ≡ constants.ranged element (constants.stepped threads block size p i) }
    ensures within { IsWithin result }
{
    match p {
        Static::Private { object, offset } => {
            private_at(element, object, offset_plus(offset, i, size))
        }
        Static::Shared {
            object,
            thread,
            phase,
            offset,
        } => {
            let p = pointer_into(object, thread, phase, offset);
            shared_at(
                element,
                object,
                moved(&p, i, block_or_none(block), size, threads),
            )
        }
    }
}

// The element so many places after another, where it lies in their array or right after its end.
fn element_behind(e: Element, i: i128) -> Option<Element>
    requires { unsigned_abs i ≤ 2 ^ 64 }
    ensures value { result ≡ constants.element_behind e i }
    ensures near { IfSome result (λ behind. unsigned_abs i ≤ 2 ^ 32) }
{
    let at = i128::from(e.index) + i;
    if 0 <= at && at <= i128::from(e.count) {
        let index = at as u32;
        Some(Element {
            index,
            count: e.count,
        })
    } else {
        None
    }
}

/// What a step from an address gives that leads to no place (C99 6.5.6).
pub(crate) fn lost_behind(address: Constant) -> Constant
    ensures value { result ≡ constants.lost_behind address }
    ensures within { IsWithin result }
{
    match address {
        Constant::Address(_, _) | Constant::Null | Constant::Undefined => Constant::Undefined,
        Constant::Variable | Constant::Known(_) => Constant::Variable,
    }
}

/// An address and a number of elements, each of so many leaf elements with this block and this size.
pub(crate) fn address_plus(
    threads: u32,
    block: Option<u32>,
    size: u32,
    leaves: u32,
    address: Constant,
    i: i128,
) -> Constant
    requires some_thread { 0 < threads }
    requires near { unsigned_abs i ≤ 2 ^ 64 }
    ensures value { result ≡ constants.address_plus threads block size leaves address i }
    ensures within { IsWithin result }
{
    match address {
        Constant::Address(p, element) => match element_behind(element, i) {
            Some(behind) => place_plus(threads, block, size, behind, p, times(i, leaves)),
            None => Constant::Undefined,
        },
        other => lost_behind(other),
    }
}

/// The address of a member with this offset.
pub(crate) fn member_address(address: Constant, bytes: u32) -> Constant
    ensures value { result ≡ attributes.member_address address bytes }
    ensures within { IsWithin result }
{
    match address {
        Constant::Address(Static::Private { object, offset }, _) => {
            private_at(ALONE, object, i128::from(offset) + i128::from(bytes))
        }
        Constant::Address(
            Static::Shared {
                object,
                thread,
                offset,
                ..
            },
            _,
        ) => {
            let offset = i128::from(offset) + i128::from(bytes);
            let spot = Spot {
                thread,
                phase: 0,
                offset,
            };
            shared_at(ALONE, object, spot)
        }
        other => lost_behind(other),
    }
}
