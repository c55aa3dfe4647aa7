//! `upc_all_permute` (UPC 7.3).

ghost use Rattle.std.specs.Prelude.{◌≡◌, ◌<◌, ◌≤◌, ◌==◌, ◌*◌, ◌&&◌, ◌||◌, ◌∷◌, [], false, not, pos, length, map};
ghost use Rattle.std.specs.Prelude.{ℕ, List, None, IfOk, IfErr};
ghost use Rattle.block_layout.specs.declared.kind.Shape.{Shape};
ghost use Rattle.std.specs.List.{All, list_any, position_or_len};
ghost use Rattle.std.specs.Ordering.{int_eq};
ghost use Rattle.block_layout.specs.declared.kind.Kind.TheVariants as kind;
ghost use Rattle.upc_values.specs.Expansions as said;
ghost use Rattle.upc_values.specs.layer.Parts as parts;
ghost use Rattle.upc_values.specs.History.{each_thread};
ghost use Rattle.upc_values.specs.Views as views;
ghost use Rattle.upc_library.specs.layer.Spots.{pointer_of, IsRoomFor};
ghost use Rattle.upc_values.specs.Expansion.{after_reply, bind, gathered};
ghost use Rattle.collectives.specs.code.Calls.{refusal_in};
ghost use Rattle.collectives.specs.code.Tests.{permute_tests};
ghost use Rattle.collectives.specs.code.Parts.{part_of};
ghost use Rattle.collectives.specs.layer.Left.{permuted, numbers_rest};
ghost use Rattle.collectives.specs.layer.Walks.{work_left};
ghost use Rattle.collectives.specs.layer.Wishes.{IsAsked, RefusesSo};

use crate::elements::{are_not_cells, leave_pieces, leave_range};
use crate::part::{Part, cut};
use crate::reply::number_in;
use crate::thread::Thread;
use crate::ways::{Ends, one};
use crate::work::{Work, copy};
use block_layout::run_error::{CELL_TYPE, LIBRARY_ARGS, OUT_OF_OBJECT, POINTER_RANGE};
use block_layout::{Kind, SharedPtr};
use std::alloc::{AllocError as OutOfMemory, Global};
use std::marker::Model;
use upc_library::{Spot, byte_at, element, from_phase_0};
use upc_values::{Action, Refused, Reply};

/// A permutation whose numbers are read. Contracts see what is left of it.
#[derive(Drop)]
pub struct Numbers {
    dst: SharedPtr,
    src: SharedPtr,
    bytes: u32,
    // The numbers that have come.
    came: Vec<i128>,
    // The element that is read next.
    element: Spot,
    // All elements: those from `at` on come after that one.
    elements: Vec<Spot>,
    at: usize,
}

impl Model for Numbers {
    ghost use Rattle.std.specs.Prelude.{drop, map};
    ghost use Rattle.upc_library.specs.layer.Spots.{pointer_of};
    ghost use Rattle.collectives.specs.layer.Left.{NumbersLeft};
    ghost use Rattle.collectives.specs.code.Elements.{IsNumbering};

    ghost Value = { NumbersLeft };

    ghost view = { λ n. record {
      dst = n.dst;
      src = n.src;
      bytes = n.bytes;
      came = n.came.items;
      element = pointer_of n.element;
      elements = map pointer_of (drop n.at n.elements.items);
    } };

    ghost invariant = { λ n. IsNumbering n.bytes n.came.items n.element n.elements.items n.at };
}

// The elements of the permutation, one for each thread.
fn permutation(
    alloc: Global,
    thread: &Thread<'_>,
    perm: &SharedPtr,
) -> Result<Vec<Spot>, OutOfMemory>
    ensures elements { IfOk result (λ ps. map pointer_of ps.items
        ≡ parts.permutation thread.now.threads thread.now.shapes.now thread.now.number perm.now) }
    ensures many { IfOk result (λ ps. length ps.items ≡ thread.now.threads) }
{
    let start = from_phase_0(perm);
    let mut elements = Vec::new(alloc);
    for i in 0..thread.threads {
        elements.push(element(&start, 1, 4, thread.threads, u64::from(i)))?;
    }
    Ok(elements)
}

// Whether the thread's number is among these.
fn is_at(thread: u32, numbers: &[i128]) -> bool
    ensures { result ≡ parts.is_at 0 [] 0 thread numbers.now }
{
    numbers.iter().any(|v| *v == i128::from(thread))
}

// Whether each thread's number is.
fn is_permutation(threads: u32, numbers: &[i128]) -> bool
    ensures { result ≡ each_thread threads (λ t. parts.is_at 0 [] 0 t numbers.now) }
{
    for thread in 0..threads {
        if !is_at(thread, numbers) {
            return false;
        }
    }
    true
}

// Whether it is the thread's number.
fn is_number(v: &i128, thread: u32) -> bool
    ensures { result ≡ int_eq v.now (pos thread) }
{
    *v == i128::from(thread)
}

// The place of the thread's number.
fn place_of(thread: u32, numbers: &[i128]) -> usize
    ensures value { result ≡ position_or_len (λ v. int_eq v (pos thread)) numbers.now }
    ensures bound { result ≤ length numbers.now }
{
    for (place, v) in numbers.iter().enumerate() {
        if is_number(v, thread) {
            return place;
        }
    }
    numbers.len()
}

// The thread's block of the destination.
fn own_block(thread: &Thread<'_>, ends: &Ends<'_>) -> Spot
    ensures { pointer_of result ≡ views.byte_at ends.now.dst.now ends.now.bytes thread.now.threads
        (thread.now.number * ends.now.bytes) }
{
    let place = u64::from(thread.number) * u64::from(ends.bytes);
    byte_at(ends.dst, ends.bytes, thread.threads, place)
}

// Whether an offset of the permutation, or of the thread's block, leaves its range.
fn leaves_range(elements: &[Spot], own: &Spot, bytes: u32) -> bool
    ensures { result ≡ (list_any (views.leaves_range 4) (map pointer_of elements.now)
        || (not (bytes == 0) && views.leaves_range bytes (pointer_of own.now))) }
{
    leave_range(Kind::Int, elements) || bytes != 0 && own.leaves_range(u64::from(bytes))
}

// Whether the permutation or the thread's block leaves the piece of its thread.
fn leaves_piece(thread: &Thread<'_>, elements: &[Spot], own: &Spot, bytes: u32) -> bool
    ensures value { result ≡ (list_any (views.leaves_piece thread.now.threads 4)
        (map pointer_of elements.now) || (not (bytes == 0)
        && views.leaves_piece thread.now.threads bytes (pointer_of own.now))) }
    ensures inside { result ≡ false → All (λ p. IsRoomFor 1 p.offset) elements.now }
{
    leave_pieces(thread, Kind::Int, elements)
        || bytes != 0 && own.leaves_piece(thread.threads, u64::from(bytes))
}

// Whether an element of the permutation is no cell of an int, or the thread's block cuts a cell.
fn lacks_cells(thread: &Thread<'_>, elements: &[Spot], own: &Spot, bytes: u32) -> bool
    ensures { result ≡ (list_any (λ p. not (views.is_cell thread.now.shapes.now kind.Int p))
        (map pointer_of elements.now) || (not (bytes == 0)
        && said.cut thread.now.threads thread.now.shapes.now thread.now.number bytes
        (pointer_of own.now))) }
{
    are_not_cells(thread, Kind::Int, elements) || bytes != 0 && cut(thread, u64::from(bytes), own)
}

// The run error of the elements of the permutation or of the thread's block, if they have one.
fn test(thread: &Thread<'_>, elements: &[Spot], own: &Spot, bytes: u32) -> Option<u8>
    ensures value { result ≡ refusal_in (permute_tests thread.now.threads thread.now.shapes.now bytes
        (map pointer_of elements.now) (pointer_of own.now)) }
    ensures inside { result ≡ None → All (λ p. IsRoomFor 1 p.offset) elements.now }
{
    if leaves_range(elements, own, bytes) {
        return Some(POINTER_RANGE);
    }
    if leaves_piece(thread, elements, own, bytes) {
        return Some(OUT_OF_OBJECT);
    }
    if lacks_cells(thread, elements, own, bytes) {
        return Some(CELL_TYPE);
    }
    None
}

// The block of the element that has the thread's number goes to the thread's block.
fn chosen(thread: &Thread<'_>, ends: &Ends<'_>, numbers: &[i128]) -> Part
    requires { length numbers.now ≤ 32 }
    ensures { part_of result ≡ said.chosen thread.now.threads thread.now.shapes.now
        thread.now.number ends.now.dst.now ends.now.src.now ends.now.bytes numbers.now }
{
    let bytes = u64::from(ends.bytes);
    let own = u64::from(thread.number) * bytes;
    let place = place_of(thread.number, numbers) as u64;
    Part {
        into: byte_at(ends.dst, ends.bytes, thread.threads, own),
        from: byte_at(ends.src, ends.bytes, thread.threads, place * bytes),
    }
}

// Copies that block, where there is at least one byte.
fn copy_chosen(
    alloc: Global,
    thread: &Thread<'_>,
    ends: &Ends<'_>,
    numbers: &[i128],
) -> Result<Option<Work>, Refused>
    requires { length numbers.now ≤ 32 }
    ensures made { IfOk result (λ o. work_left thread.now.threads thread.now.shapes.now
        thread.now.number o
        ≡ said.some_bytes thread.now.threads thread.now.shapes.now thread.now.number
        ends.now.bytes (said.move thread.now.threads thread.now.shapes.now thread.now.number
        ends.now.bytes (said.chosen thread.now.threads thread.now.shapes.now thread.now.number
        ends.now.dst.now ends.now.src.now ends.now.bytes numbers.now ∷ []))) }
    ensures refused { IfErr result (λ e. RefusesSo e (said.some_bytes thread.now.threads
        thread.now.shapes.now thread.now.number ends.now.bytes (said.move thread.now.threads
        thread.now.shapes.now thread.now.number ends.now.bytes (said.chosen thread.now.threads
        thread.now.shapes.now thread.now.number ends.now.dst.now ends.now.src.now ends.now.bytes
        numbers.now ∷ [])))) }
{
    if ends.bytes == 0 {
        return Ok(None);
    }
    let parts = one(alloc, chosen(thread, ends, numbers))?;
    copy(alloc, thread, u64::from(ends.bytes), parts)
}

// Tests the numbers, and copies the block.
fn permute_by(
    alloc: Global,
    thread: &Thread<'_>,
    ends: &Ends<'_>,
    numbers: &[i128],
) -> Result<Option<Work>, Refused>
    requires { length numbers.now ≤ 32 }
    ensures made { IfOk result (λ o. work_left thread.now.threads thread.now.shapes.now
        thread.now.number o
        ≡ permuted thread.now.threads thread.now.shapes.now thread.now.number ends.now.dst.now
        ends.now.src.now ends.now.bytes numbers.now) }
    ensures refused { IfErr result (λ e. RefusesSo e (permuted thread.now.threads
        thread.now.shapes.now thread.now.number ends.now.dst.now ends.now.src.now ends.now.bytes
        numbers.now)) }
{
    if !is_permutation(thread.threads, numbers) {
        return Err(Refused::Error(LIBRARY_ARGS));
    }
    copy_chosen(alloc, thread, ends, numbers)
}

// The permutation, none of whose numbers has come.
fn begun(alloc: Global, ends: &Ends<'_>, elements: Vec<Spot>) -> Option<Work>
    requires some { 0 < length elements.items }
    requires few { length elements.items ≤ 32 }
    requires rooms { All (λ p. IsRoomFor 1 p.offset) elements.items }
    ensures { (threads : ℕ) (shapes : List Shape) (me : ℕ) → work_left threads shapes me result
        ≡ bind (gathered (said.number_at 0 [] 0 kind.Int) (map pointer_of elements.items))
        (λ vs. permuted threads shapes me ends.now.dst.now ends.now.src.now ends.now.bytes vs) }
{
    let element = elements[0];
    Some(Work::Numbers(Numbers {
        dst: *ends.dst,
        src: *ends.src,
        bytes: ends.bytes,
        came: Vec::new(alloc),
        element,
        elements,
        at: 1,
    }))
}

/// Tests the permutation and the thread's block; then the permutation is to be read.
pub fn permute(
    alloc: Global,
    thread: &Thread<'_>,
    ends: &Ends<'_>,
    perm: &SharedPtr,
) -> Result<Option<Work>, Refused>
    ensures made { IfOk result (λ o. work_left thread.now.threads thread.now.shapes.now
        thread.now.number o ≡ said.permute thread.now.threads thread.now.shapes.now
        thread.now.number ends.now.dst.now ends.now.src.now perm.now ends.now.bytes) }
    ensures refused { IfErr result (λ e. RefusesSo e (said.permute thread.now.threads
        thread.now.shapes.now thread.now.number ends.now.dst.now ends.now.src.now perm.now
        ends.now.bytes)) }
{
    let permutation = permutation(alloc, thread, perm)?;
    let own = own_block(thread, ends);
    match test(thread, permutation.as_slice(), &own, ends.bytes) {
        Some(code) => Err(Refused::Error(code)),
        None => Ok(begun(alloc, ends, permutation)),
    }
}

impl Numbers {
    /// What is left after a reply.
    pub fn take(
        self,
        alloc: Global,
        thread: &Thread<'_>,
        reply: &Reply,
    ) -> Result<Option<Work>, Refused>
        ensures rest { IfOk result (λ o. work_left thread.now.threads thread.now.shapes.now
            thread.now.number o ≡ after_reply (numbers_rest thread.now.threads thread.now.shapes.now
            thread.now.number self) reply.now) }
        ensures refused { IfErr result (λ e. RefusesSo e (after_reply (numbers_rest
            thread.now.threads thread.now.shapes.now thread.now.number self) reply.now)) }
    {
        let Numbers {
            dst,
            src,
            bytes,
            mut came,
            element: _,
            elements,
            at,
        } = self;
        came.push(number_in(reply).value())?;
        if at < elements.len() {
            return Ok(Some(Work::Numbers(Numbers {
                dst,
                src,
                bytes,
                came,
                element: elements[at],
                elements,
                at: at + 1,
            })));
        }
        let ends = Ends {
            dst: &dst,
            src: &src,
            bytes,
        };
        permute_by(alloc, thread, &ends, came.as_slice())
    }

    /// The read that is asked for.
    pub fn action(&self) -> Action
        ensures { (threads : ℕ) (shapes : List Shape) (me : ℕ)
            → IsAsked (numbers_rest threads shapes me self.now) result }
    {
        Action::Read {
            loc: self.element.location(),
            strict: false,
        }
    }
}
