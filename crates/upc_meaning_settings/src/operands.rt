//! What operators give on a thread, or their run errors (C99 6.3, 6.5; UPC 6.4).

ghost use Rattle.std.specs.Prelude.{◌≡◌, IfOk};
ghost use Rattle.integers.specs.Integers.{IsInteger, IsPromoted};
ghost use Rattle.typing_rules.specs.Constants as constants;
ghost use Rattle.thread_steps.specs.Operators as operators;
ghost use Rattle.thread_steps.specs.Pointers as pointers;
ghost use Rattle.thread_values.specs.layer.Results.{IsRightKind, number_value, ordered};
ghost use Rattle.upc_meaning_settings.specs.layer.Runners.{Fits, thread_seen};

use crate::ranges::{is_cast, is_held, is_numeric, is_step, is_target};
use crate::runner::Runner;
use block_layout::Kind;
use integers::BinOp;
use thread_steps::{CastTo, Elements};
use thread_values::{advanced, cast, difference, member_behind, order};
use upc_text::OutOfMemory;
use upc_types::{promoted, usual};
use upc_values::Value;

// ---- what a step gives, or its run error, on a thread

/// A value, converted, or its run error.
pub fn cast_on(runner: Runner<'_>, into: CastTo, v: Value) -> Result<Result<Value, u8>, OutOfMemory>
    ensures { IfOk result (λ r. r ≡ operators.cast_value (thread_seen runner.entry) into v) }
{
    if !is_cast(&into) || !is_numeric(&v) {
        return Err(OutOfMemory);
    }
    Ok(cast(runner.number, into, v))
}

/// A pointer, so many elements on, or its run error.
pub fn advanced_on(
    runner: Runner<'_>,
    elements: Elements,
    p: Value,
    i: i128,
) -> Result<Result<Value, u8>, OutOfMemory>
    requires { Fits runner }
    ensures { IfOk result (λ r. r ≡ pointers.advanced (thread_seen runner.entry) elements i p) }
{
    if !is_target(&elements) || !is_step(i) || !is_held(runner, &p) {
        return Err(OutOfMemory);
    }
    Ok(advanced(runner.threads, elements, p, i))
}

/// Where a member of the object at a pointer lies, or its run error.
pub fn member_on(
    runner: Runner<'_>,
    offset: u32,
    p: Value,
) -> Result<Result<Value, u8>, OutOfMemory>
    ensures { IfOk result (λ r. r ≡ pointers.member_behind (thread_seen runner.entry) offset p) }
{
    if !is_held(runner, &p) {
        return Err(OutOfMemory);
    }
    Ok(member_behind(offset, p))
}

/// How many elements lie between two pointers, or the run error.
pub fn difference_on(
    runner: Runner<'_>,
    elements: Elements,
    q: &Value,
    p: &Value,
) -> Result<Result<Value, u8>, OutOfMemory>
    requires { Fits runner }
    ensures { IfOk result (λ r. r ≡ number_value (pointers.apart (thread_seen runner.entry) elements q.now p.now)) }
{
    if !is_target(&elements) || !is_held(runner, q) || !is_held(runner, p) {
        return Err(OutOfMemory);
    }
    Ok(difference(runner.threads, elements, q, p))
}

/// How two pointers compare, or the run error.
pub fn order_on(
    runner: Runner<'_>,
    op: BinOp,
    elements: Elements,
    q: &Value,
    p: &Value,
) -> Result<Result<Value, u8>, OutOfMemory>
    requires { Fits runner }
    ensures { IfOk result (λ r. r ≡ ordered op (pointers.apart (thread_seen runner.entry) elements q.now p.now)) }
{
    if !is_target(&elements) || !is_held(runner, q) || !is_held(runner, p) {
        return Err(OutOfMemory);
    }
    Ok(order(op, runner.threads, elements, q, p))
}

// ---- integers

/// The kind of the right operand of a binary operator.
pub fn right_kind(op: BinOp, left: Kind, right: Kind) -> Kind
    requires left { IsInteger left }
    requires right { IsInteger right }
    ensures value { result ≡ constants.right_kind op left right }
    ensures promoted { IsPromoted result }
    ensures fits { IsRightKind op (constants.working_kind op left right) result }
{
    match op {
        BinOp::ShiftLeft | BinOp::ShiftRight => promoted(right),
        _ => usual(left, right),
    }
}
