//! A record, judged.

ghost use Rattle.std.specs.Prelude.{IfOk};
ghost use Rattle.typed_tree.specs.ViewProgram.{view_program};
ghost use Rattle.upc_verify.specs.Verdicts.{IsVerdict, SoundIsASoundRun};

use crate::meant::all_meant;
use std::alloc::Global;
use typed_tree::Program;
use upc_rounds::begin::begin;
use upc_text::OutOfMemory;
use upc_values::{Journal, Orders};
use upc_verify_judge::{Verdict, judge_by};
use upc_verify_parts::has_shape;

/// The verdict on a journal and orders, as a record of the program: sound, or the first part that fails and the first
/// thread of which it does.
pub fn verify(
    alloc: Global,
    program: &Program,
    journal: &Journal,
    orders: &Orders,
) -> Result<Verdict, OutOfMemory>
    ensures { IfOk result (λ verdict. IsVerdict
        (record { program = view_program program.now; journal = journal.now; orders = orders.now }) verdict) }
{
    let threads = program.threads();
    if !has_shape(threads, journal, orders) {
        return Ok(Verdict::Broken { part: 0, thread: 0 });
    }
    let meant = all_meant(alloc, program, journal)?;
    let mut world = begin(alloc, program, threads)?;
    let mut again = begin(alloc, program, threads)?;
    let verdict = judge_by(
        alloc,
        &mut world,
        &mut again,
        journal,
        orders,
        meant.as_slice(),
    )?;
    Ok(verdict)
}

/// A law: all parts hold of all threads just where the record is one of a sound run of the program, with orders that
/// make its operations UPC consistent (UPC Appendix B).
pub fn sound_is_a_sound_run()
    ensures { SoundIsASoundRun }
{}
