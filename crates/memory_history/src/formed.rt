//! Whether an action may be asked for.

ghost use Rattle.std.specs.Prelude.{◌≡◌};
ghost use Rattle.upc_values.specs.Shapes as shapes;
ghost use Rattle.upc_values.specs.Formed as formed;
ghost use Rattle.memory_history.specs.code.Acting as said;

use crate::calls::{Asked, read_call};
use crate::parts::Parts;
use upc_values::{Action, Kind, Scalar, fits_kind};

// Whether there is a cell, and the value fits it.
fn fits_cell(value: &Scalar, kind: Option<Kind>) -> bool
    ensures { result ≡ shapes.fits_cell value.now kind }
{
    match kind {
        Some(kind) => fits_kind(value, kind),
        None => false,
    }
}

// Whether the home, if there is one, is below the number of threads.
fn is_home(threads: u32, home: Option<u32>) -> bool
    ensures { result ≡ formed.is_home threads home }
{
    match home {
        Some(thread) => thread < threads,
        None => true,
    }
}

impl Parts {
    // Whether the value refers to nothing but objects and locks that are there.
    fn is_known(&self, value: &Scalar) -> bool
        ensures { result ≡ said.is_known self.now value.now }
    {
        match value {
            Scalar::Int(_) => true,
            Scalar::Shared(pointer) => self.heap.knows(pointer),
            Scalar::Lock(lock) => *lock as usize <= self.locks.len(),
        }
    }

    // Whether the lock is made.
    fn is_lock(&self, lock: u32) -> bool
        ensures { result ≡ said.is_lock self.now lock }
    {
        0 < lock && lock as usize <= self.locks.len()
    }

    // Whether an object of the leader of a call may be asked for.
    fn may_lead_alloc(&self, nblocks: u64, nbytes: u64, shape: u64) -> bool
        ensures { result ≡ said.may_call self.now (Asked.Allocates nblocks nbytes shape) }
    {
        let beginning = self.heap.beginning();
        if shape >= beginning.shapes().len() as u64 {
            return false;
        }
        nblocks == 0 || nbytes == 0 || beginning.may_alloc(nblocks, nbytes, shape)
    }

    // Whether the collective call may be asked for.
    fn may_call(&self, asks: &Asked) -> bool
        ensures { result ≡ said.may_call self.now asks.now }
    {
        match asks {
            Asked::Allocates {
                nblocks,
                nbytes,
                shape,
            } => self.may_lead_alloc(*nblocks, *nbytes, *shape),
            Asked::MakesLock => true,
            Asked::Frees(pointer) => self.heap.knows(pointer),
            Asked::FreesLock(lock) => *lock as usize <= self.locks.len(),
            Asked::Uses(dst, src) => self.heap.knows(dst) && self.heap.knows(src),
            Asked::UsesThree(dst, src, perm) => {
                self.heap.knows(dst) && self.heap.knows(src) && self.heap.knows(perm)
            }
            Asked::Nothing => false,
        }
    }

    // Whether the action may be asked for.
    pub(crate) fn may_ask(&self, action: &Action) -> bool
        ensures { result ≡ said.may_ask self.now action.now }
    {
        match action {
            Action::Read { loc, .. } => self.heap.cell_of(*loc).is_some(),
            Action::Write { loc, value, .. } => {
                fits_cell(value, self.heap.cell_of(*loc)) && self.is_known(value)
            }
            Action::Lock(lock)
            | Action::Attempt(lock)
            | Action::Unlock(lock)
            | Action::LockFree(lock) => self.is_lock(*lock),
            Action::Alloc {
                nblocks,
                nbytes,
                home,
                shape,
            } => {
                let beginning = self.heap.beginning();
                beginning.may_alloc(*nblocks, *nbytes, u64::from(*shape))
                    && is_home(beginning.threads(), *home)
            }
            Action::Free(pointer) => self.heap.knows(pointer),
            Action::Meet { call, args } => self.may_call(&read_call(*call, args.as_slice())),
            _ => true,
        }
    }
}
