//! Members and casts of pointers.

ghost use Rattle.std.specs.Prelude.{◌≡◌, ◌≢◌, ◌⊎◌, ◌↔◌, pos, ◌+ℤ◌, Ok, IfOk, IfErr, IsErrOf};
ghost use Rattle.block_layout.specs.Places.{InRange};
ghost use Rattle.block_layout.specs.Pointers.{IsNull};
ghost use Rattle.shared_pointers.specs.layer.Ranges.{IsPhase};
ghost use Rattle.shared_pointers.specs.layer.Parts.{member_pointer};
ghost use Rattle.shared_pointers.specs.Casts.{member_of, cast_block, local_of};

use block_layout::run_error::{NOT_LOCAL, NULL_ACCESS, POINTER_RANGE};
use block_layout::{FARTHEST, LocalPtr, SharedPtr};

/// What `&p->m` gives for a member at this offset in bytes: a pointer with an indefinite block (UPC 6.4.4).
///
/// `NULL_ACCESS` for the null pointer, `POINTER_RANGE` where the offset leaves -2^40 to 2^40.
pub fn member(p: &SharedPtr, offset: u32) -> Result<SharedPtr, u8>
    requires { InRange p.now.offset }
    ensures value { result ≡ member_of p.now offset }
    ensures null { IsErrOf result NULL_ACCESS ↔ IsNull p.now }
    ensures ok { IfOk result (λ q. q ≡ member_pointer p.now offset) }
    ensures range { IsErrOf result POINTER_RANGE ↔ ((¬ (IsNull p.now)) × (¬ (InRange (p.now.offset +ℤ pos offset)))) }
    ensures codes { IfErr result (λ code. (code ≡ NULL_ACCESS) ⊎ (code ≡ POINTER_RANGE)) }
{
    if p.is_null() {
        return Err(NULL_ACCESS);
    }
    let sum = p.offset + i64::from(offset);
    if sum > FARTHEST {
        return Err(POINTER_RANGE);
    }
    Ok(SharedPtr {
        object: p.object,
        thread: p.thread,
        phase: 0,
        offset: sum,
    })
}

/// A pointer cast from one block to another, 0 being indefinite: another block gives phase 0 (UPC 6.4.3).
pub fn to_block(p: &SharedPtr, from: u32, into: u32) -> SharedPtr
    requires { IsPhase p.now.phase from }
    ensures value { result ≡ cast_block p.now from into }
    ensures same { from ≡ into → result ≡ p.now }
    ensures other { from ≢ into → result ≡ record p.now { phase = 0 } }
{
    let phase = if from == into { p.phase } else { 0 };
    SharedPtr {
        object: p.object,
        thread: p.thread,
        phase,
        offset: p.offset,
    }
}

/// A pointer cast to pointer-to-local on thread `me` (UPC 6.4.3). Null gives `Null`.
///
/// `NOT_LOCAL` where the target is on another thread.
pub fn to_local(p: &SharedPtr, me: u32) -> Result<LocalPtr, u8>
    ensures value { result ≡ local_of p.now me }
    ensures null { IsNull p.now → result ≡ Ok LocalPtr.Null }
    ensures here { ¬ (IsNull p.now) → p.now.thread ≡ me
        → result ≡ Ok (LocalPtr.Shared p.now.object p.now.thread p.now.offset) }
    ensures elsewhere { IsErrOf result NOT_LOCAL ↔ ((¬ (IsNull p.now)) × (p.now.thread ≢ me)) }
    ensures codes { IfErr result (λ code. code ≡ NOT_LOCAL) }
{
    if p.is_null() {
        return Ok(LocalPtr::Null);
    }
    if p.thread != me {
        return Err(NOT_LOCAL);
    }
    Ok(LocalPtr::Shared {
        object: p.object,
        thread: p.thread,
        offset: p.offset,
    })
}
