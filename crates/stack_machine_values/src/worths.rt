//! Values made of values.

ghost use Rattle.std.specs.Prelude.{◌≡◌, ◌≤◌, ◌^◌, ◌*ℤ◌, neg_ℤ, pos, unsigned_abs, ℕ, IfOk};
ghost use Rattle.thread_steps.specs.Pointers as pointers;
ghost use Rattle.thread_steps.specs.layer.Ranges.{IsHeld, IsNumber};
ghost use Rattle.thread_steps.specs.Values as values;
ghost use Rattle.stack_code.specs.layer.Codes.{thread_of};
ghost use Rattle.stack_code.specs.layer.Kept.{ElementsFit, ValuesFit};
ghost use Rattle.thread_values.specs.layer.Results.{row_test};
ghost use Rattle.stack_machine_values.specs.layer.Works as pure;

use stack_code::{Code, ValueWork};
use thread_steps::Elements;
use thread_values::{
    advanced, applied, cast, difference, in_row, member_behind, number_of, operated, order, same,
};
use upc_values::Value;

// So many elements for each of so many objects.
#[inline(always)]
fn times(i: i128, count: u32) -> i128
    requires index { unsigned_abs i ≤ 2 ^ 64 }
    requires few { count ≤ 16777216 }
    ensures value { result ≡ i *ℤ pos count }
    ensures bound { unsigned_abs result ≤ 2 ^ 88 }
{
    i * i128::from(count)
}

// A number that may be a count.
#[inline(always)]
fn index_of(v: &Value) -> i128
    requires { IsNumber (values.number_of v.now) }
    ensures value { result ≡ values.number_of v.now }
    ensures bound { unsigned_abs result ≤ 2 ^ 64 }
{
    number_of(v)
}

fn negated(i: i128) -> i128
    requires { unsigned_abs i ≤ 2 ^ 64 }
    ensures value { result ≡ neg_ℤ i }
    ensures bound { unsigned_abs result ≤ 2 ^ 64 }
{
    -i
}

// The pointer so many objects after another, each of `count` elements.
#[inline(always)]
fn ahead(code: &Code, elements: Elements, count: u32, p: Value, i: &Value) -> Result<Value, u8>
    requires elements { ElementsFit elements count }
    requires pointer { IsHeld code.now.threads code.now.shapes p }
    requires index { IsHeld code.now.threads code.now.shapes i.now }
    ensures value { (me budget : ℕ) → result ≡ pointers.advanced (thread_of code.now me budget) elements
        (values.number_of i.now *ℤ pos count) p }
    ensures held { IfOk result (IsHeld code.now.threads code.now.shapes) }
{
    advanced(code.threads(), elements, p, times(index_of(i), count))
}

// The pointer so many objects before another, each of `count` elements.
fn behind(code: &Code, elements: Elements, count: u32, p: Value, i: &Value) -> Result<Value, u8>
    requires elements { ElementsFit elements count }
    requires pointer { IsHeld code.now.threads code.now.shapes p }
    requires index { IsHeld code.now.threads code.now.shapes i.now }
    ensures value { (me budget : ℕ) → result ≡ pointers.advanced (thread_of code.now me budget) elements
        (neg_ℤ (values.number_of i.now) *ℤ pos count) p }
    ensures held { IfOk result (IsHeld code.now.threads code.now.shapes) }
{
    advanced(
        code.threads(),
        elements,
        p,
        times(negated(index_of(i)), count),
    )
}

// The pointer, where the index lies in its row.
fn within(count: u32, row: &Value, i: &Value, p: Value) -> Result<Value, u8>
    ensures value { result ≡ pure.after_test (row_test count row.now (values.number_of i.now)) p }
    ensures held { IfOk result (λ v. v ≡ p) }
{
    match in_row(count, row, number_of(i)) {
        Err(code) => Err(code),
        Ok(()) => Ok(p),
    }
}

/// How many operands the work takes.
#[inline(always)]
pub fn taken(work: &ValueWork) -> usize
    ensures { result ≡ pure.taken work.now }
{
    match work {
        ValueWork::Apply { .. } | ValueWork::Cast(_) | ValueWork::Member(_) => 1,
        ValueWork::InRow(_) => 3,
        _ => 2,
    }
}

/// What the work makes of the three youngest operands on a thread with this number, or its run error.
#[inline(always)]
pub fn worth(
    work: &ValueWork,
    x: &Value,
    a: &Value,
    b: &Value,
    code: &Code,
    me: u32,
) -> Result<Value, u8>
    requires fits { ValuesFit work.now }
    requires third { IsHeld code.now.threads code.now.shapes x.now }
    requires second { IsHeld code.now.threads code.now.shapes a.now }
    requires first { IsHeld code.now.threads code.now.shapes b.now }
    ensures value { (budget : ℕ) → result ≡ pure.worth (thread_of code.now me budget) work.now x.now a.now b.now }
    ensures held { IfOk result (IsHeld code.now.threads code.now.shapes) }
{
    match *work {
        ValueWork::Operate {
            operator,
            left,
            right,
        } => operated(operator, left, right, a, b),
        ValueWork::Apply { operator, kind } => applied(operator, kind, b),
        ValueWork::Cast(into) => cast(me, into, *b),
        ValueWork::Advance { elements, count } => ahead(code, elements, count, *a, b),
        ValueWork::Retreat { elements, count } => behind(code, elements, count, *a, b),
        ValueWork::InRow(count) => within(count, x, a, *b),
        ValueWork::Member(offset) => member_behind(offset, *b),
        ValueWork::Difference(elements) => difference(code.threads(), elements, a, b),
        ValueWork::Order { operator, elements } => order(operator, code.threads(), elements, a, b),
        ValueWork::Same => Ok(same(a, b)),
    }
}
