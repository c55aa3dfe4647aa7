//! Searches where keys rise.

ghost use Rattle.std.specs.Prelude.{◌≡◌, ◌==◌, ◌<◌, IfSome};
ghost use Rattle.std.specs.List.{position, AllPairs};
ghost use Rattle.private_store.specs.code.Kept.{AreNumbered, CellIs, IsByte, IsReached};
ghost use Rattle.private_store.specs.Cells as pure;
ghost use Rattle.private_store.specs.Cells.{IsPrivate};

use crate::object_list::ObjectList;
use block_layout::run_error::{NULL_ACCESS, PRIVATE_RANGE};
use block_layout::{Kind, LocalPtr};

// The number of the youngest object.
#[inline(always)]
fn youngest_number(objects: &ObjectList) -> u64 {
    let count = objects.len();
    if count == 0 {
        return 0;
    }
    objects.number(count - 1)
}

/// The place of the object with a number, where numbers rise. A look at two places finds it where no number before its
/// own is that of an object that has ended, and where none after it is.
#[inline(always)]
pub(crate) fn object_place(objects: &ObjectList, number: u64) -> Option<usize>
    requires { AreNumbered objects.now }
    ensures { result ≡ position (λ x. x.number == number) objects.now }
{
    let first = number as usize;
    if first < objects.len() && objects.number(first) == number {
        return Some(first);
    }
    let last = objects.len().saturating_sub(1);
    let behind = youngest_number(objects).saturating_sub(number) as usize;
    let second = last.saturating_sub(behind);
    if second < objects.len() && objects.number(second) == number {
        return Some(second);
    }
    objects.search(number)
}

/// The byte at an offset, where so many bytes from there on lie in an object of this size.
#[inline(always)]
pub(crate) fn byte_at(offset: i64, width: u32, size: u32) -> Option<u32>
    ensures { IsByte offset width size result }
{
    if offset < 0 || offset > i64::from(size) {
        return None;
    }
    let byte = offset as u32;
    if u64::from(byte) + u64::from(width) > u64::from(size) {
        return None;
    }
    Some(byte)
}

/// The place of the cell that begins at a byte, where offsets rise. The first look is at a guess.
#[inline(always)]
pub(crate) fn byte_place(cells: &[(u32, Kind)], byte: u32, guess: usize) -> Option<usize>
    requires { AllPairs (λ a b. a.0 < b.0) cells.now }
    ensures { result ≡ position (λ c. c.0 == byte) cells.now }
{
    if guess < cells.len() && cells[guess].0 == byte {
        return Some(guess);
    }
    cells.binary_search_by_key(&byte, |cell| cell.0).ok()
}

// The places of the object with a number and of the cell that an access to it reaches, or the code of the run error.

#[inline(always)]
fn reach_in(
    objects: &ObjectList,
    number: u64,
    offset: i64,
    kind: Kind,
) -> Result<(usize, usize), u8>
    requires { AreNumbered objects.now }
    ensures { IsReached objects.now (LocalPtr.Private number offset) kind result }
{
    match object_place(objects, number) {
        None => Err(PRIVATE_RANGE),
        Some(at) => match objects.place(at, offset, kind) {
            Err(code) => Err(code),
            Ok(place) => Ok((at, place)),
        },
    }
}

/// The places of the object and of its cell that an access reaches, or the code of the run error, where numbers rise.
#[inline(always)]
pub(crate) fn reach(objects: &ObjectList, p: &LocalPtr, kind: Kind) -> Result<(usize, usize), u8>
    requires numbered { AreNumbered objects.now }
    requires private { IsPrivate p.now }
    ensures { IsReached objects.now p.now kind result }
{
    match p {
        LocalPtr::Null => Err(NULL_ACCESS),
        LocalPtr::Shared { .. } => Err(PRIVATE_RANGE),
        LocalPtr::Private { object, offset } => reach_in(objects, *object, *offset, kind),
    }
}

/// The place of the cell of this kind that begins at a byte, where offsets rise. Where all cells are of the kind the
/// first look finds it.
#[tactic(auto, using(crate::proofs::Places::kind_place, crate::proofs::Places::kind_nowhere))]
#[inline(always)]
pub(crate) fn cell_place(cells: &[(u32, Kind)], byte: u32, kind: Kind) -> Option<usize>
    requires { AllPairs (λ a b. a.0 < b.0) cells.now }
    ensures value { result ≡ pure.cell_place cells.now byte kind }
    ensures found { IfSome result (λ place. CellIs cells.now place kind) }
{
    match byte_place(cells, byte, (byte / kind.size()) as usize) {
        None => None,
        Some(place) => {
            if cells[place].1.is(kind) {
                Some(place)
            } else {
                None
            }
        }
    }
}
