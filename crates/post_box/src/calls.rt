//! What the two at a box do. No call but `make` takes memory.
ghost use Rattle.std.specs.Prelude.{◌≡◌, IfOk, IfSome, IfNone};
ghost use Rattle.post_box.specs.layer.Boxes.{work_of, IsIdle, WaitsFor, IsFree, HasItem};

use crate::plays::{Back, Begin, Deal, Dismiss, Give, Post, Retract, Take};
use crate::post::{Doer, Owner, PostBox};
use crate::work::Work;
use atomic_table::Table;
use std::alloc::{AllocError as OutOfMemory, Global};
use std::hint::spin_loop;
use std::sync::Wait;
use std::thread::yield_now;
use std::time::Duration;

// The word of the table.
const EMPTY: u64 = 0;

const POSTED: u64 = 1;

const DOING: u64 = 2;

const DONE: u64 = 3;

const DISMISSED: u64 = 4;

// So many looks follow one another at once, for about a millisecond: after them others may have the processor first.
const SPINS: u32 = 20_000;

impl<W: Work> PostBox<W> {
    /// A box for this work, with its two places. Each looks so many times before it sleeps.
    pub fn make(
        alloc: Global,
        work: &W,
        looks: u32,
    ) -> Result<(PostBox<W>, Owner<W>, Doer<W>), OutOfMemory>
        ensures work { IfOk result (λ r. work_of r.0 ≡ work.now) }
        ensures places { IfOk result (λ r. IsIdle r.0 r.1 × IsFree r.0 r.2) }
    {
        let mut slots = Vec::with_capacity(alloc, 1)?;
        slots.push_reserved(None);
        let Ok((table, mut first)) = Table::new(alloc, &[EMPTY], slots, work) else {
            return Err(OutOfMemory);
        };
        table.shared.load::<Begin>(&mut first, 0);
        let place = table.shared.split_seat::<Deal>(&mut first);
        let post = PostBox { table };
        let owner = Owner {
            place: first,
            looks,
        };
        Ok((post, owner, Doer { place, looks }))
    }

    /// Posts an item. The number goes with it.
    pub fn post(&self, owner: &mut Owner<W>, item: W::Item, number: u64)
        requires idle { IsIdle self.now owner.old }
        requires item { W.takes (work_of self.now) item }
        ensures { WaitsFor self.now owner.new item }
    {
        let shared = &self.table.shared;
        let None = shared.exchange(&mut owner.place, 0, Some((item, number))) else {
            unreachable!()
        };
        shared.store::<Post>(&mut owner.place, 0, POSTED);
        shared.wake_one(0);
    }

    /// Waits for an item, and takes it. After the owner has dismissed the doer there is none.
    pub fn take<R: Wait>(&self, rt: &R, doer: &mut Doer<W>) -> Option<(W::Item, u64)>
        requires { IsFree self.now doer.old }
        ensures some { IfSome result (λ r. HasItem self.now doer.new r.0 × W.takes (work_of self.now) r.0) }
        ensures none { IfNone result (IsFree self.now doer.new) }
    {
        let shared = &self.table.shared;
        let mut looked = 0u32;
        for _ in rt.forever() {
            let found = shared.peek(0);
            if found == DISMISSED {
                return None;
            }
            if found == POSTED {
                if shared.compare_exchange::<Take>(&mut doer.place, 0, POSTED, DOING) == POSTED {
                    let Some(posted) = shared.exchange(&mut doer.place, 0, None) else {
                        unreachable!()
                    };
                    return Some(posted);
                }
            } else {
                self.pause(rt, found, looked, doer.looks);
                looked = looked.saturating_add(1);
            }
        }
        unreachable!()
    }

    /// Gives back what has become of the item that was taken.
    pub fn give(&self, doer: &mut Doer<W>, item: W::Item)
        requires { (x : W.Item) × HasItem self.now doer.old x × W.did (work_of self.now) x item }
        ensures { IsFree self.now doer.new }
    {
        let shared = &self.table.shared;
        let None = shared.exchange(&mut doer.place, 0, Some((item, 0))) else {
            unreachable!()
        };
        shared.store::<Give>(&mut doer.place, 0, DONE);
        shared.wake_one(0);
    }

    /// Waits until the item that was posted is given back, and has it.
    pub fn back<R: Wait>(&self, rt: &R, owner: &mut Owner<W>) -> W::Item
        requires { (x : W.Item) × WaitsFor self.now owner.old x }
        ensures idle { IsIdle self.now owner.new }
        ensures did { (x : W.Item) → WaitsFor self.now owner.old x → W.did (work_of self.now) x result }
    {
        let shared = &self.table.shared;
        let mut looked = 0u32;
        for _ in rt.forever() {
            let found = shared.peek(0);
            if found == DONE {
                if shared.compare_exchange::<Back>(&mut owner.place, 0, DONE, EMPTY) == DONE {
                    let Some((item, _)) = shared.exchange(&mut owner.place, 0, None) else {
                        unreachable!()
                    };
                    return item;
                }
            } else {
                self.pause(rt, found, looked, owner.looks);
                looked = looked.saturating_add(1);
            }
        }
        unreachable!()
    }

    /// The item that was posted, as it was, if nobody has taken it yet.
    pub fn retract(&self, owner: &mut Owner<W>) -> Option<W::Item>
        requires { (x : W.Item) × WaitsFor self.now owner.old x }
        ensures some { IfSome result (λ y. IsIdle self.now owner.new
            × ((x : W.Item) → WaitsFor self.now owner.old x → y ≡ x)) }
        ensures none { IfNone result ((x : W.Item)
            → WaitsFor self.now owner.old x → WaitsFor self.now owner.new x) }
    {
        let shared = &self.table.shared;
        if shared.compare_exchange::<Retract>(&mut owner.place, 0, POSTED, EMPTY) != POSTED {
            return None;
        }
        let Some((item, _)) = shared.exchange(&mut owner.place, 0, None) else {
            unreachable!()
        };
        Some(item)
    }

    /// Nothing more is posted: the doer's next `take` finds nothing.
    pub fn dismiss(&self, mut owner: Owner<W>)
        requires { IsIdle self.now owner }
    {
        let shared = &self.table.shared;
        shared.store::<Dismiss>(&mut owner.place, 0, DISMISSED);
        shared.wake_one(0);
    }

    // Waits a little: at first just long enough to look again, later as long as another thread wants the processor, in
    // the end asleep for up to a millisecond, or until the other thread wakes it.
    fn pause<R: Wait>(&self, rt: &R, found: u64, looked: u32, looks: u32) {
        if looked < looks.min(SPINS) {
            spin_loop();
        } else if looked < looks {
            yield_now();
        } else {
            let longer = (looked - looks).min(4);
            let sleep = Duration::from_micros(50 << longer);
            self.table
                .shared
                .park_timeout(rt, 0, (found % (1 << 32)) as u32, sleep);
        }
    }
}
