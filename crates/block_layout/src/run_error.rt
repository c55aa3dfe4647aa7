//! The codes of the run errors.

ghost use Rattle.std.specs.Prelude.{◌≡◌, [], ◌∷◌};
ghost use Rattle.block_layout.specs.code.RunErrors.{run_errors};

/// A signed result does not fit its type (C99 6.5).
pub const SIGNED_OVERFLOW: u8 = 1;
/// `/` or `%` by 0 (C99 6.5.5).
pub const ZERO_DIVISOR: u8 = 2;
/// A shift count is negative or at least the width (C99 6.5.7).
pub const SHIFT_RANGE: u8 = 3;
/// A null pointer is dereferenced, advanced or a pointer affinity, or a null lock is locked, attempted or unlocked.
pub const NULL_ACCESS: u8 = 4;
/// A shared access lies outside the piece of its thread.
pub const OUT_OF_OBJECT: u8 = 5;
/// A private access lies outside its object, or the object has ended.
pub const PRIVATE_RANGE: u8 = 6;
/// A cast to pointer-to-local of a pointer whose thread is another (UPC 6.4.3).
pub const NOT_LOCAL: u8 = 7;
/// A pointer's offset would leave -2^40 to 2^40.
pub const POINTER_RANGE: u8 = 8;
/// A difference or an order of two pointers does not exist (UPC 6.4.2).
pub const POINTER_PAIR: u8 = 9;
/// A notify, a collective or the end of main after a notify without its wait, or a wait without its notify (UPC 6.6.1).
pub const PHASE_ORDER: u8 = 10;
/// A wait's value differs from a notify's value of its phase (UPC 6.6.1).
pub const BARRIER_MISMATCH: u8 = 11;
/// A barrier statement or a collective is reached inside a controlling `upc_forall` (UPC 6.6.2).
pub const BARRIER_IN_FORALL: u8 = 12;
/// `upc_lock` of a lock that the caller holds (UPC 7.2.4).
pub const LOCK_AGAIN: u8 = 13;
/// `upc_unlock` of a lock that the caller does not hold (UPC 7.2.4).
pub const LOCK_NOT_HELD: u8 = 14;
/// A lock, attempt or unlock of a lock that is freed, or a free of a lock that is given up (UPC 7.2.4).
pub const LOCK_FREED: u8 = 15;
/// A free of what is not the start of an allocated object, or was freed (UPC 7.2.2).
pub const BAD_FREE: u8 = 16;
/// A collective call differs from the first recorded one of its number in call, arguments or earlier notifies.
pub const COLLECTIVE_MISMATCH: u8 = 17;
/// No cell of the needed type begins there, a copied range cuts a cell, or an allocation holds no whole number of
/// elements.
pub const CELL_TYPE: u8 = 18;
/// More than 1,000 active calls, main among them.
pub const DEPTH: u8 = 19;
/// Live private objects of a thread would exceed 1,048,576 bytes.
pub const PRIVATE_SPACE: u8 = 20;
/// All shared objects ever made would exceed 16,777,216 bytes.
pub const SHARED_SPACE: u8 = 21;
/// An argument that a library function does not take.
pub const LIBRARY_ARGS: u8 = 22;

/// The run errors have the numbers from 1 to 22.
pub fn run_errors_are_numbered()
    ensures { run_errors
        ≡ 1 ∷ 2 ∷ 3 ∷ 4 ∷ 5 ∷ 6 ∷ 7 ∷ 8 ∷ 9 ∷ 10 ∷ 11 ∷ 12 ∷ 13 ∷ 14 ∷ 15 ∷ 16 ∷ 17 ∷ 18 ∷ 19 ∷ 20 ∷ 21 ∷ 22 ∷ [] }
{}
