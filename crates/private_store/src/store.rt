//! The store: the private objects of a thread, its open blocks and its active calls.

ghost use Rattle.std.specs.Prelude.{◌≡◌, ◌+◌, ◌-◌, ◌<◌, ◌≤◌, ◌^◌, ◌⊎◌, ◌↔◌, ◌++◌, ◌==◌, nat_lt, true, length, IsTrue};
ghost use Rattle.std.specs.Prelude.{IfOk, IfErr, IfSome, IsErrOf, OnOk, OnErr, option_map, option_copied};
ghost use Rattle.std.specs.Prelude.{slice_index_or};
ghost use Rattle.block_layout.specs.Shapes.{IsShape};
ghost use Rattle.upc_values.specs.Lists.{Each};
ghost use Rattle.upc_values.specs.Shapes as shapes;
ghost use Rattle.private_store.specs.Live.{thing, thing_bytes, bytes_in, entered, left, call_begun, returned, controls};
ghost use Rattle.private_store.specs.Live.{recounted, local_number};
ghost use Rattle.private_store.specs.Beginnings.{IsBeginning, begun, blank};
ghost use Rattle.private_store.specs.Cells.{loaded, stored, IsPrivate};
ghost use Rattle.private_store.specs.code.Locals.{IsStored, IsStoredBy, first_byte, local_loaded};
ghost use Rattle.private_store.specs.Live.{Thing};
ghost use Rattle.private_store.specs.code.Straight.{IsNamed};

use crate::beginning::cell_kind;
use crate::blocks::{
    add_block, add_objects, blocks_before, controls_of, end_objects, fit, innermost_from, recount,
};
use crate::finding::{object_place, reach};
use crate::frame::{Block, Call};
use crate::marks::{Mark, back_to, mark_of, names_with};
use crate::object_list::ObjectList;
use block_layout::run_error::{DEPTH, PRIVATE_SPACE};
use block_layout::{Kind, LocalPtr, Shape, limits};
use std::alloc::Global;
use std::marker::Model;
use upc_text::OutOfMemory;
use upc_values::{Refused, Value};

/// How many bytes of private objects of a thread may live at once.
pub const MOST_BYTES: usize = limits::PRIVATE_BYTES as usize;

/// How many calls may be active at once, `main` among them.
pub const MOST_CALLS: usize = limits::CALLS as usize;

/// How many objects a thread may make: the numbers of objects are below this.
pub const MOST_OBJECTS: u64 = 0x8000_0000_0000_0000;

/// The private objects of a thread, its open blocks and its active calls. Contracts see what lives.
#[derive(Drop)]
pub struct Store {
    alloc: Global,
    objects: ObjectList,
    blocks: Vec<Block>,
    calls: Vec<Call>,
    next: u64,
    space: usize,
    // So many names of the youngest call stand for objects one by one, from this place on.
    straight: usize,
    base: usize,
    // How that was when each block was entered and each call began.
    marks: Vec<Mark>,
}

impl Model for Store {
    ghost use Rattle.private_store.specs.Live.{Live};
    ghost use Rattle.private_store.specs.code.Straight.{IsStanding};

    ghost Value = { Live };

    ghost view = { λ s. record {
      objects = s.objects;
      blocks = s.blocks.items;
      calls = s.calls.items;
      next = s.next;
    } };

    ghost invariant = { λ s. IsStanding
        (record { objects = s.objects; blocks = s.blocks.items; calls = s.calls.items; next = s.next })
        s.space s.straight s.base s.marks.items };
}

// The file-scope objects of these shapes, numbered from 0, with 0 or null in each cell.
#[tactic(auto, using(crate::proofs::Keeping::beginning))]
fn blank_store(alloc: Global, shapes: &[Shape]) -> Result<Store, OutOfMemory>
    requires shapes { Each IsShape shapes.now }
    requires room { bytes_in shapes.now ≤ 1048576 }
    ensures { IfOk result (λ store. store ≡ blank shapes.now) }
{
    let mut objects = ObjectList::new(alloc);
    let space = add_objects(alloc, &mut objects, 0, shapes)?;
    Ok(Store {
        alloc,
        objects,
        blocks: Vec::new(alloc),
        calls: Vec::new(alloc),
        next: shapes.len() as u64,
        space,
        straight: 0,
        base: 0,
        marks: Vec::new(alloc),
    })
}

impl Store {
    /// The file-scope objects of these shapes, numbered from 0, with these initial values and 0 or null elsewhere. No
    /// block is open and no call is active.
    pub fn make(
        alloc: Global,
        shapes: &[Shape],
        initials: &[(LocalPtr, Value)],
    ) -> Result<Store, OutOfMemory>
        requires { IsBeginning shapes.now initials.now }
        ensures { IfOk result (λ store. store ≡ begun shapes.now initials.now) }
    {
        let mut store = blank_store(alloc, shapes)?;
        for initial in initials {
            if let Some(kind) = cell_kind(shapes, &initial.0) {
                let _ = store.store(&initial.0, kind, initial.1);
            }
        }
        Ok(store)
    }

    /// The shape of a live object, None exactly where no live object has the number. It takes no memory.
    pub fn shape(&self, object: u64) -> Option<&Shape>
        ensures value { option_copied result ≡ option_map (λ x. x.shape) (thing object self.now.objects) }
        ensures valid { IfSome (option_copied result) IsShape }
    {
        match object_place(&self.objects, object) {
            None => None,
            Some(at) => Some(self.objects.shape(at)),
        }
    }

    /// Enters a block of the youngest call: makes its objects, with 0 or null in each cell, and answers the first
    /// number. `from` is how many objects of the function were in scope before. Numbers rise and none is used again;
    /// where too few are left the answer is `Memory`. Where the live bytes would pass `MOST_BYTES` it is
    /// `PRIVATE_SPACE`.
    pub fn enter(&mut self, from: u32, shapes: &[Shape]) -> Result<u64, Refused>
        requires { Each IsShape shapes.now }
        ensures first { IfOk result (λ first. first ≡ self.old.next) }
        ensures ok { OnOk result (self.new ≡ entered from shapes.now self.old) }
        ensures space { IsErrOf result (Refused.Error PRIVATE_SPACE)
            ↔ (MOST_BYTES < thing_bytes self.old.objects + bytes_in shapes.now) }
        ensures codes { IfErr result (λ e. (e ≡ Refused.Error PRIVATE_SPACE) ⊎ (e ≡ Refused.Memory)) }
        ensures err { OnErr result (self.new ≡ self.old) }
    {
        if !fit(shapes, MOST_BYTES - self.space) {
            return Err(Refused::Error(PRIVATE_SPACE));
        }
        if shapes.len() as u64 > MOST_OBJECTS - self.next {
            return Err(Refused::Memory);
        }
        let mark = mark_of(
            self.straight,
            self.base,
            &self.calls,
            &self.blocks,
            &self.objects,
        );
        self.marks.push(mark)?;
        let names = names_with(&mark, from, shapes.len());
        let block = Block {
            from,
            first: self.next,
            objects: self.objects.len(),
        };
        match add_block(
            self.alloc,
            &mut self.objects,
            &mut self.blocks,
            block,
            shapes,
        ) {
            Err(_) => Err(Refused::Memory),
            Ok(bytes) => {
                self.next += shapes.len() as u64;
                self.space += bytes;
                self.straight = names;
                Ok(block.first)
            }
        }
    }

    /// Leaves the youngest block of the youngest call: its objects end. Where none is open nothing changes.
    pub fn leave(&mut self)
        ensures { self.new ≡ left self.old }
    {
        if blocks_before(&self.calls) < self.blocks.len() {
            if let Some(block) = self.blocks.pop() {
                self.space -= end_objects(&mut self.objects, block.objects);
                let back = back_to(&mut self.marks, &self.objects, &self.blocks, &self.calls);
                self.straight = back.names;
                self.base = back.base;
            }
        }
    }

    /// Begins a call, in as many controlling bodies as its caller. Where `MOST_CALLS` are active the answer is `DEPTH`.
    pub fn push_call(&mut self) -> Result<(), Refused>
        ensures ok { OnOk result (self.new ≡ call_begun self.old) }
        ensures depth { IsErrOf result (Refused.Error DEPTH) ↔ (MOST_CALLS ≤ length self.old.calls) }
        ensures codes { IfErr result (λ e. (e ≡ Refused.Error DEPTH) ⊎ (e ≡ Refused.Memory)) }
        ensures err { OnErr result (self.new ≡ self.old) }
    {
        if self.calls.len() >= MOST_CALLS {
            return Err(Refused::Error(DEPTH));
        }
        let mark = mark_of(
            self.straight,
            self.base,
            &self.calls,
            &self.blocks,
            &self.objects,
        );
        self.marks.push(mark)?;
        let call = Call {
            controls: controls_of(&self.calls),
            blocks: self.blocks.len(),
            objects: self.objects.len(),
        };
        self.calls.push(call)?;
        self.straight = 0;
        self.base = self.objects.len();
        Ok(())
    }

    /// Ends the youngest call, with its blocks and their objects. Where none is active nothing changes.
    pub fn pop_call(&mut self)
        ensures { self.new ≡ returned self.old }
    {
        if let Some(call) = self.calls.pop() {
            self.space -= end_objects(&mut self.objects, call.objects);
            self.blocks.truncate(call.blocks);
            let back = back_to(&mut self.marks, &self.objects, &self.blocks, &self.calls);
            self.straight = back.names;
            self.base = back.base;
        }
    }

    /// What the cell of this kind holds. In this order: `NULL_ACCESS` for the null pointer, `PRIVATE_RANGE` where the
    /// object has ended or a byte of the cell lies outside it, `CELL_TYPE` where no cell of the kind begins there.

    #[inline(always)]
    pub fn load(&self, p: &LocalPtr, kind: Kind) -> Result<Value, u8>
        requires { IsPrivate p.now }
        ensures value { result ≡ loaded p.now kind self.now }
        ensures fits { IfOk result (λ v. shapes.value_fits v kind ≡ true) }
    {
        match reach(&self.objects, p, kind) {
            Err(code) => Err(code),
            Ok(spot) => Ok(self.objects.get(spot.0, spot.1, kind)),
        }
    }

    /// Another value in the cell of this kind, with the refusals of `load`. It takes no memory.

    #[inline(always)]
    pub fn store(&mut self, p: &LocalPtr, kind: Kind, v: Value) -> Result<(), u8>
        requires private { IsPrivate p.now }
        requires fits { shapes.value_fits v kind ≡ true }
        ensures ok { OnOk result (stored p.now kind v self.old ≡ Ok self.new) }
        ensures code { IfErr result (λ code. stored p.now kind v self.old ≡ Err code) }
        ensures err { OnErr result (self.new ≡ self.old) }
    {
        match reach(&self.objects, p, kind) {
            Err(code) => Err(code),
            Ok(spot) => {
                self.objects.set(spot.0, spot.1, kind, v);
                Ok(())
            }
        }
    }

    // The place of the object that the `n`th local name in scope stands for, where that is known by the name.
    #[inline(always)]
    fn straight_place(&self, n: u32) -> Option<usize>
        ensures { IfSome result (λ at. IsNamed self.now n at) }
    {
        let name = n as usize;
        if name < self.straight {
            Some(self.base + name)
        } else {
            None
        }
    }

    // The number of the object that the `n`th local name in scope stands for, whichever it is.
    #[inline(never)]
    fn other_local(&self, n: u32) -> Option<u64>
        ensures { result ≡ local_number n self.now }
    {
        match innermost_from(&self.blocks, blocks_before(&self.calls), n) {
            None => None,
            Some(block) => Some(block.first + u64::from(n - block.from)),
        }
    }

    /// The number of the object that the `n`th local name in scope stands for, None where no open block of the youngest
    /// call was entered with at most `n` names in scope.
    #[inline(always)]
    pub fn local(&self, n: u32) -> Option<u64>
        ensures { result ≡ local_number n self.now }
    {
        match self.straight_place(n) {
            None => self.other_local(n),
            Some(at) => Some(self.objects.number(at)),
        }
    }

    // What `load` gives for the first byte of the object at a place.
    #[inline(always)]
    fn load_at(&self, at: usize, kind: Kind) -> Result<Value, u8>
        requires { at < length self.now.objects }
        ensures value { (d : Thing) → let p = first_byte (slice_index_or self.now.objects at d).number in
            result ≡ loaded p kind self.now }
        ensures fits { IfOk result (λ v. shapes.value_fits v kind ≡ true) }
    {
        match self.objects.place(at, 0, kind) {
            Err(code) => Err(code),
            Ok(place) => Ok(self.objects.get(at, place, kind)),
        }
    }

    // What `store` does at the first byte of the object at a place.
    #[inline(always)]
    fn store_at(&mut self, at: usize, kind: Kind, v: Value) -> Result<(), u8>
        requires there { at < length self.old.objects }
        requires fits { shapes.value_fits v kind ≡ true }
        ensures { (d : Thing) → let p = first_byte (slice_index_or self.old.objects at d).number in
            IsStored result p kind v self.old self.new }
    {
        match self.objects.place(at, 0, kind) {
            Err(code) => Err(code),
            Ok(place) => {
                self.objects.set(at, place, kind, v);
                Ok(())
            }
        }
    }

    // The same as `load_local` for any name.
    #[inline(never)]
    fn load_other(&self, n: u32, kind: Kind) -> Option<Result<Value, u8>>
        ensures value { result ≡ local_loaded n kind self.now }
        ensures fits { IfSome result (λ r. IfOk r (λ v. shapes.value_fits v kind ≡ true)) }
    {
        match self.other_local(n) {
            None => None,
            Some(object) => Some(self.load(&LocalPtr::Private { object, offset: 0 }, kind)),
        }
    }

    // The same as `store_local` for any name.
    #[inline(never)]
    fn store_other(&mut self, n: u32, kind: Kind, v: Value) -> Option<Result<(), u8>>
        requires { shapes.value_fits v kind ≡ true }
        ensures { IsStoredBy result (local_number n self.old) kind v self.old self.new }
    {
        match self.other_local(n) {
            None => None,
            Some(object) => Some(self.store(&LocalPtr::Private { object, offset: 0 }, kind, v)),
        }
    }

    /// What `load` gives for the first byte of the object that the `n`th local name in scope stands for, None exactly
    /// where there is no such object. A name that is straight is not looked for.
    #[inline(always)]
    pub fn load_local(&self, n: u32, kind: Kind) -> Option<Result<Value, u8>>
        ensures value { result ≡ local_loaded n kind self.now }
        ensures fits { IfSome result (λ r. IfOk r (λ v. shapes.value_fits v kind ≡ true)) }
    {
        match self.straight_place(n) {
            None => self.load_other(n, kind),
            Some(at) => Some(self.load_at(at, kind)),
        }
    }

    /// What `store` does at the first byte of the object that the `n`th local name in scope stands for, None exactly
    /// where there is no such object. It takes no memory.
    #[inline(always)]
    pub fn store_local(&mut self, n: u32, kind: Kind, v: Value) -> Option<Result<(), u8>>
        requires { shapes.value_fits v kind ≡ true }
        ensures { IsStoredBy result (local_number n self.old) kind v self.old self.new }
    {
        match self.straight_place(n) {
            None => self.store_other(n, kind, v),
            Some(at) => Some(self.store_at(at, kind, v)),
        }
    }

    /// Whether the youngest call is in the body of a controlling `upc_forall`, its own or a caller's (UPC 6.6.2).
    pub fn is_controlled(&self) -> bool
        ensures { IsTrue result ↔ (0 < controls self.now) }
    {
        controls_of(&self.calls) > 0
    }

    /// The youngest call comes into one more such body. Where the count cannot rise the answer is want of memory.
    pub fn control(&mut self) -> Result<(), OutOfMemory>
        ensures ok { OnOk result (self.new ≡ recounted (controls self.old + 1) self.old) }
        ensures err { OnErr result (self.new ≡ self.old) }
    {
        let count = controls_of(&self.calls);
        if count == u64::MAX {
            return Err(OutOfMemory);
        }
        recount(&mut self.calls, count + 1);
        Ok(())
    }

    /// The youngest call leaves one such body. Where it is in none nothing changes.
    pub fn release(&mut self)
        ensures { self.new ≡ recounted (controls self.old - 1) self.old }
    {
        let count = controls_of(&self.calls);
        recount(&mut self.calls, count.saturating_sub(1));
    }
}
