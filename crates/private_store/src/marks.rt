//! Which names stand for the objects of a call one by one, and since when.

ghost use Rattle.std.specs.Prelude.{◌≡◌, ◌≤◌, ◌^◌, length};
ghost use Rattle.private_store.specs.Live.{blocks_before, youngest};
ghost use Rattle.private_store.specs.code.Straight.{IsBack, IsNames, here};

use crate::blocks::blocks_before;
use crate::frame::{Block, Call};
use crate::object_list::ObjectList;

/// How it stood when a block was entered or a call began: so many names stood for objects of the call one by one, from
/// a place on; so many blocks were open before the call, so many were open and so many objects lived.
#[derive(Clone, Copy)]
pub(crate) struct Mark {
    pub names: usize,
    pub base: usize,
    pub before: usize,
    pub blocks: usize,
    pub objects: usize,
}

/// How it stands now, where so many names of the youngest call stand for objects one by one, from this place on.
#[inline(always)]
pub(crate) fn mark_of(
    names: usize,
    base: usize,
    calls: &[Call],
    blocks: &[Block],
    objects: &ObjectList,
) -> Mark
    ensures { result ≡ here names base objects.now blocks.now calls.now }
{
    Mark {
        names,
        base,
        before: blocks_before(calls),
        blocks: blocks.len(),
        objects: objects.len(),
    }
}

// A mark of no names.
const NONE: Mark = Mark {
    names: 0,
    base: 0,
    before: 0,
    blocks: 0,
    objects: 0,
};

/// How many names stand for objects one by one in a block of so many objects that is entered with `from` names in
/// scope, where it stood before as the mark says.
pub(crate) fn names_with(mark: &Mark, from: u32, more: usize) -> usize
    requires { more ≤ 2 ^ 63 }
    ensures { IsNames mark.now from more result }
{
    if mark.before > mark.blocks {
        return 0;
    }
    let first = from as usize;
    if mark.names == first && mark.objects >= mark.base && mark.objects - mark.base == first {
        return first + more;
    }
    if mark.names < first {
        mark.names
    } else {
        first
    }
}

/// Goes back to the youngest mark that was made where these objects lived, these blocks were open and these calls were
/// active. Those after it are gone. Where there is none the answer is one of no names.
pub(crate) fn back_to(
    marks: &mut Vec<Mark>,
    objects: &ObjectList,
    blocks: &[Block],
    calls: &[Call],
) -> Mark
    ensures { IsBack marks.old.items marks.new.items
        (length objects.now) (length blocks.now) (blocks_before (youngest calls.now)) result }
{
    let now = mark_of(0, 0, calls, blocks, objects);
    while let Some(mark) = marks.pop() {
        if mark.objects == now.objects && mark.blocks == now.blocks && mark.before == now.before {
            return mark;
        }
    }
    NONE
}
