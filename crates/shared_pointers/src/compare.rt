//! Order and equality of pointers.

ghost use Rattle.std.specs.Prelude.{◌≡◌, ◌↔◌, ℤ, pos, Ok, IfOk, IfErr, IsTrue};
ghost use Rattle.std.specs.Ordering.{int_cmp};
ghost use Rattle.block_layout.specs.Pointers.{IsNull, same_target};
ghost use Rattle.shared_pointers.specs.layer.Ranges.{IsPointer, IsTarget, IsThreads};
ghost use Rattle.shared_pointers.specs.Steps.{LiesBehind, difference, order_of};

use crate::apart::distance;
use block_layout::SharedPtr;
use block_layout::run_error::POINTER_PAIR;
use std::cmp::Ordering;

/// How `q` compares with `p` (UPC 6.4.2): as `q - p` does with 0.
///
/// `POINTER_PAIR` where `q - p` does not exist.
pub fn order(
    q: &SharedPtr,
    p: &SharedPtr,
    block: u32,
    size: u32,
    threads: u32,
) -> Result<Ordering, u8>
    requires later { IsPointer q.now block threads }
    requires pointer { IsPointer p.now block threads }
    requires target { IsTarget block size }
    requires some_threads { IsThreads threads }
    ensures value { result ≡ order_of (difference q.now p.now block size threads) }
    ensures behind { (x : ℤ) → ¬ (IsNull p.now) → ¬ (IsNull q.now)
        → LiesBehind p.now q.now x block size threads → result ≡ Ok (int_cmp x (pos 0)) }
    ensures ok { IfOk result (λ o. (x : ℤ) × ((¬ (IsNull p.now)) × (¬ (IsNull q.now))
        × LiesBehind p.now q.now x block size threads × (o ≡ int_cmp x (pos 0)))) }
    ensures codes { IfErr result (λ code. code ≡ POINTER_PAIR) }
{
    match distance(q, p, block, size, threads) {
        Ok(x) => Ok(x.cmp(&0)),
        Err(code) => Err(code),
    }
}

/// Whether two pointers are equal (UPC 6.4.2): object, thread and offset are, whatever the phases.
pub fn same(p: &SharedPtr, q: &SharedPtr) -> bool
    ensures value { result ≡ same_target p.now q.now }
    ensures exact { IsTrue result ↔ ((p.now.object ≡ q.now.object) × (p.now.thread ≡ q.now.thread)
        × (p.now.offset ≡ q.now.offset)) }
{
    p.object == q.object && p.thread == q.thread && p.offset == q.offset
}
