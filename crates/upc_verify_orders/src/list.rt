//! Whether a list keeps program order.

ghost use Rattle.std.specs.Prelude.{◌≡◌, ◌<◌, ◌↔◌, List, IsTrue, IfOk, map};
ghost use Rattle.upc_values.specs.Lists.{Each, Pairwise};
ghost use Rattle.upc_values.specs.Operations.{Operation};
ghost use Rattle.upc_values.specs.Orders.{name_of};
ghost use Rattle.upc_verify_orders.specs.layer.Reach as operations;
ghost use Rattle.upc_verify_orders.specs.code.Tables.{InThread};

use crate::table::rank_of;
use std::alloc::{AllocError, Global};
use upc_values::Op;

/// Whether the members of each thread stand in program order, in one walk with the place behind each thread's last.
pub fn keeps_program(alloc: Global, threads: u32, strict: &[Op]) -> Result<bool, AllocError>
    requires { Each (λ n. n.thread < threads) strict.now }
    ensures names { IfOk result (λ b. IsTrue b ↔ Pairwise InThread strict.now) }
    ensures operations { IfOk result (λ b. (s : List Operation) → map name_of s ≡ strict.now
        → IsTrue b ↔ Pairwise operations.InThread s) }
{
    let mut behind: Vec<u64> = vec![in alloc; 0; threads as usize]?;
    for name in strict {
        let rank = rank_of(*name);
        let thread = name.thread as usize;
        if rank < behind[thread] {
            return Ok(false);
        }
        behind[thread] = rank + 1;
    }
    Ok(true)
}
