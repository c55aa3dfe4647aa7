//! Allocation and release (UPC 7.2.2).

ghost use Rattle.std.specs.Prelude.{◌≡◌, ◌<◌, ◌≤◌, ◌+◌, ◌*◌, length, true, is_some};
ghost use Rattle.std.specs.Prelude.{IfOk, OnErr, IfSome, IfNone};
ghost use Rattle.upc_values.specs.declared.scalar.Scalar.TheVariants.{Shared};
ghost use Rattle.upc_values.specs.declared.action.Reply.TheVariants as reply;
ghost use Rattle.upc_values.specs.Openings.{bytes_of};
ghost use Rattle.block_layout.specs.Pointers.{same_target};
ghost use Rattle.upc_values.specs.Formed.{may_alloc, is_home};
ghost use Rattle.shared_heap.specs.layer.Heap as said;
ghost use Rattle.shared_heap.specs.layer.Heap.{all_objects};
ghost use Rattle.shared_heap.specs.code.Kept.{IsNext};

use crate::heap::Heap;
use block_layout::limits;
use block_layout::run_error::{BAD_FREE, SHARED_SPACE};
use upc_text::OutOfMemory;
use upc_values::{ObjectRef, Refused, SharedPtr};

// A pointer to the first byte of an object on its home.
fn start_of(object: ObjectRef) -> SharedPtr
    ensures { result ≡ said.start_of object }
{
    SharedPtr {
        object,
        thread: object.home,
        phase: 0,
        offset: 0,
    }
}

// Whether the pointer names the first byte of the object on its home, whatever its phase (UPC 6.4.2).
fn is_start(pointer: &SharedPtr, object: &ObjectRef) -> bool
    ensures { result ≡ same_target pointer.now (said.start_of object.now) }
{
    pointer.object == *object && pointer.thread == object.home && pointer.offset == 0
}

// How many bytes so many blocks have, None where they are more than so many.
fn bytes_within(nblocks: u64, nbytes: u64, most: u32) -> Option<u32>
    ensures some { IfSome result (λ n. (n ≡ nblocks * nbytes) × (n ≤ most)) }
    ensures none { IfNone result (most < nblocks * nbytes) }
{
    let bytes = nblocks.checked_mul(nbytes)?;
    if bytes > u64::from(most) {
        return None;
    }
    Some(bytes as u32)
}

impl Heap {
    // The place among the objects made, from 0, of the one whose start the pointer names and which is not released.
    fn live_place(&self, pointer: &SharedPtr) -> Option<usize>
        ensures live { is_some result ≡ said.is_live_start pointer.now self.now.made self.now.released }
        ensures place { IfSome result (λ i. (i < length self.now.made)
            × (pointer.now.object.number ≡ length self.now.opening.declared + 1 + i)) }
    {
        let declared = self.beginning.declared().len();
        let number = pointer.object.number as usize;
        if number <= declared {
            return None;
        }
        let place = number - declared - 1;
        if place >= self.made.len() {
            return None;
        }
        if !is_start(pointer, &self.made[place]) {
            return None;
        }
        if self.released[place] {
            return None;
        }
        Some(place)
    }

    // The object that is made next.
    fn next_object(&self, total: u32, block: u32, home: u32, shape: u32) -> ObjectRef
        ensures { result ≡ said.next_object self.now total block home shape }
    {
        let number = self.beginning.declared().len() + self.made.len() + 1;
        ObjectRef {
            number: number as u32,
            total,
            block,
            home,
            shape,
            base: self.bytes,
        }
    }

    // One more object. Where there is no memory, the heap stays as it was.
    fn put(&mut self, object: ObjectRef) -> Result<(), OutOfMemory>
        requires { IsNext self.old object }
        ensures made { IfOk result (λ _. self.new ≡ said.with_object object self.old) }
        ensures kept { OnErr result (self.new ≡ self.old) }
    {
        self.released.push(false)?;
        if self.made.push(object).is_err() {
            self.released.pop();
            return Err(OutOfMemory);
        }
        self.bytes += object.total;
        Ok(())
    }

    // The object that so many blocks of so many bytes make, None where there is no room for it.
    fn fitting(&self, nblocks: u64, nbytes: u64, home: Option<u32>, shape: u32) -> Option<ObjectRef>
        requires { may_alloc self.now.opening nblocks nbytes shape ≡ true }
        ensures some { IfSome result (λ x.
            said.grow_answer self.now nblocks nbytes home shape ≡ reply.Value (Shared (said.start_of x))) }
        ensures room { IfSome result (λ x. bytes_of (all_objects self.now) + x.total ≤ 16777216) }
        ensures none { IfNone result
            (said.grow_answer self.now nblocks nbytes home shape ≡ reply.Refused SHARED_SPACE) }
    {
        let total = bytes_within(nblocks, nbytes, limits::SHARED_BYTES - self.bytes)?;
        match home {
            Some(thread) => Some(self.next_object(total, 0, thread, shape)),
            None => Some(self.next_object(total, nbytes as u32, 0, shape)),
        }
    }

    /// Makes an object of so many blocks of so many bytes, with a home where one is given, whose elements have the
    /// shape of this number: the pointer to its start. The errors: all objects would have more than 16,777,216 bytes,
    /// or there is no memory; then the heap stays as it was.
    pub fn grow(
        &mut self,
        nblocks: u64,
        nbytes: u64,
        home: Option<u32>,
        shape: u32,
    ) -> Result<SharedPtr, Refused>
        requires whole { may_alloc self.old.opening nblocks nbytes shape ≡ true }
        requires home { is_home self.old.opening.threads home ≡ true }
        ensures answer { IfSome (said.told_grown result) (λ r.
            r ≡ said.grow_answer self.old nblocks nbytes home shape) }
        ensures grown { IfOk result (λ p. self.new ≡ said.with_object p.object self.old) }
        ensures kept { OnErr result (self.new ≡ self.old) }
    {
        self.keeps();
        let Some(object) = self.fitting(nblocks, nbytes, home, shape) else {
            return Err(Refused::Error(SHARED_SPACE));
        };
        self.put(object)?;
        Ok(start_of(object))
    }

    /// Releases the object whose start the pointer names (UPC 7.2.2). The error: it names the start of no object made,
    /// or the object was released before; then the heap stays as it was.
    pub fn release(&mut self, pointer: &SharedPtr) -> Result<(), u8>
        ensures answer { said.release_answer pointer.now self.old ≡ said.told_released result }
        ensures released { IfOk result (λ _. self.new ≡ said.without_object pointer.now.object.number self.old) }
        ensures kept { OnErr result (self.new ≡ self.old) }
    {
        let Some(place) = self.live_place(pointer) else {
            return Err(BAD_FREE);
        };
        self.released[place] = true;
        Ok(())
    }
}
