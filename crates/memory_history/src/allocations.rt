//! Allocations and frees (UPC 7.2.2).

ghost use Rattle.std.specs.Prelude.{◌≡◌, true, IfOk, OnErr};
ghost use Rattle.upc_values.specs.declared.action.Action.TheVariants as act;
ghost use Rattle.upc_values.specs.Formed.{may_alloc, is_home};
ghost use Rattle.shared_heap.specs.layer.Heap.{grow_answer, release_answer};
ghost use Rattle.memory_history.specs.code.Acting.{next};

use crate::parts::Parts;
use upc_text::OutOfMemory;
use upc_values::{Refused, Reply, Scalar, SharedPtr};

impl Parts {
    // A new object, or a refusal. Where there is no memory, nothing changes.
    pub(crate) fn allocate(
        &mut self,
        nblocks: u64,
        nbytes: u64,
        home: Option<u32>,
        shape: u32,
    ) -> Result<Reply, OutOfMemory>
        requires whole { may_alloc self.old.heap.opening nblocks nbytes shape ≡ true }
        requires home { is_home self.old.heap.opening.threads home ≡ true }
        ensures answer { IfOk result (λ r. r ≡ grow_answer self.old.heap nblocks nbytes home shape) }
        ensures made { IfOk result (λ r. self.new ≡ next 0 (act.Alloc nblocks nbytes home shape) r self.old) }
        ensures kept { OnErr result (self.new ≡ self.old) }
    {
        match self.heap.grow(nblocks, nbytes, home, shape) {
            Ok(pointer) => Ok(Reply::Value(Scalar::Shared(pointer))),
            Err(Refused::Error(code)) => Ok(Reply::Refused(code)),
            Err(Refused::Memory) => Err(OutOfMemory),
        }
    }

    // The object whose start the pointer names is released, or that is refused.
    pub(crate) fn release(&mut self, pointer: &SharedPtr) -> Reply
        ensures answer { result ≡ release_answer pointer.now self.old.heap }
        ensures released { self.new ≡ next 0 (act.Free pointer.now) result self.old }
    {
        match self.heap.release(pointer) {
            Ok(()) => Reply::Done,
            Err(code) => Reply::Refused(code),
        }
    }
}
