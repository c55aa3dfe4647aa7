//! Boxes in a row: one thread has the owners' places of all of them.
ghost use Rattle.std.specs.Prelude.{◌≡◌, ℕ, ◌+◌, ◌<◌, suc, IfOk, length, take, slice_index_or, vec_capacity};
ghost use Rattle.post_box.specs.layer.Rows.{AreFor, AreIdle, AreOut, AreFree};
ghost use Rattle.post_box.specs.layer.Boxes.{work_of};
ghost use Rattle.post_box.specs.declared.post.PostBox.{PostBox};

use crate::post::{Doer, Owner, PostBox};
use crate::work::Work;
use std::alloc::{AllocError as OutOfMemory, Global};

/// Boxes in a row, with the places at them.
#[derive(Drop)]
pub struct Row<W: Work> {
    pub boxes: Vec<PostBox<W>>,
    pub owners: Vec<Owner<W>>,
    pub doers: Vec<Doer<W>>,
    ghost owned: { length owners.items ≡ length boxes.items },
    ghost done: { length doers.items ≡ length boxes.items },
}

/// So many boxes for this work. Each place looks so many times before it sleeps.
pub fn make_row<W: Work>(
    alloc: Global,
    work: &W,
    many: u32,
    looks: u32,
) -> Result<Row<W>, OutOfMemory>
    ensures many { IfOk result (λ r. length r.boxes.items ≡ many) }
    ensures work { IfOk result (λ r. AreFor work.now r.boxes.items) }
    ensures owners { IfOk result (λ r. AreIdle r.boxes.items r.owners.items) }
    ensures doers { IfOk result (λ r. AreFree r.boxes.items r.doers.items) }
{
    let mut boxes = Vec::new(alloc);
    let mut owners = Vec::new(alloc);
    let mut doers = Vec::new(alloc);
    for _ in 0..many {
        let (post, owner, doer) = PostBox::make(alloc, work, looks)?;
        boxes.push(post)?;
        owners.push(owner)?;
        doers.push(doer)?;
    }
    Ok(Row {
        boxes,
        owners,
        doers,
    })
}

/// Posts all items but the first, in order.
pub fn post_all<W: Work>(
    boxes: &[PostBox<W>],
    owners: &mut [Owner<W>],
    items: &mut Vec<W::Item>,
    number: u64,
)
    requires many { (length owners.old ≡ length boxes.now) × (length items.old.items ≡ suc (length boxes.now)) }
    requires idle { AreIdle boxes.now owners.old }
    requires items { (i : ℕ) (b : PostBox W W.Item) (x : W.Item) → i < length boxes.now
        → W.takes (work_of (slice_index_or boxes.now i b)) (slice_index_or items.old.items (suc i) x) }
    ensures out { AreOut boxes.now owners.new items.old.items }
    ensures left { items.new.items ≡ take 1 items.old.items }
    ensures room { vec_capacity items.new ≡ vec_capacity items.old }
{
    let mut at = boxes.len();
    while at > 0 {
        at -= 1;
        let Some(item) = items.pop() else {
            unreachable!()
        };
        boxes[at].post(&mut owners[at], item, number);
    }
}

/// Dismisses all doers.
pub fn dismiss_all<W: Work>(boxes: &[PostBox<W>], mut owners: Vec<Owner<W>>)
    requires many { length owners.items ≡ length boxes.now }
    requires idle { AreIdle boxes.now owners.items }
{
    while let Some(owner) = owners.pop() {
        boxes[owners.len()].dismiss(owner);
    }
}
