//! Elements of arrays, and pointers that are moved by elements (C99 6.5.2.1, 6.5.6; UPC 6.4.2).

ghost use Rattle.std.specs.Prelude.{◌≡◌, ◌<◌, ◌≤◌, ◌^◌, IfOk, IfSome, true, false, unsigned_abs};
ghost use Rattle.upc_types.specs.Types as types;
ghost use Rattle.upc_types.specs.View.{view};
ghost use Rattle.upc_types.specs.ViewStructs.{view_structs};
ghost use Rattle.typing_rules.specs.Constants as known;
ghost use Rattle.typing_rules.specs.Constants.{IsWithin};
ghost use Rattle.typing_rules.specs.Nodes as node;
ghost use Rattle.typing_rules.specs.Nodes.{view_attr};
ghost use Rattle.typing_rules.specs.Attributes as pure;
ghost use Rattle.typing_rules.specs.Attributes.{attr};
ghost use Rattle.typing_rules.specs.Rules as rules;

use crate::addresses::{address_plus, lost_behind};
use crate::attributes::{arithmetic, int_value, object_at, plainly, value};
use crate::sizes::leaves_of;
use block_layout::Kind;
use integers::BinOp;
use std::alloc::Global;
use typing_rules::constants::constant_of;
use typing_rules::types::target_of;
use typing_rules::{Attr, Constant, Form};
use upc_text::OutOfMemory;
use upc_types::{Base, CType, Structs, Target, copy_type};

// The address so many objects of this type after another.
fn address_behind(
    structs: &Structs,
    threads: u32,
    t: &CType,
    address: Constant,
    i: i128,
) -> Constant
    requires some_thread { 0 < threads }
    requires sized { rules.has_size (view_structs structs.now) (view t.now) ≡ true }
    requires near { unsigned_abs i ≤ 2 ^ 64 }
    ensures value { result
        ≡ pure.address_behind (record { structs = view_structs structs.now; threads = threads })
        (view t.now) address i }
    ensures within { IsWithin result }
{
    let leaves = leaves_of(structs, &t.base);
    address_plus(threads, t.shared, leaves.bytes, leaves.count, address, i)
}

// The address as many objects of this type after another as a constant says.
fn indexed(structs: &Structs, threads: u32, t: &CType, address: Constant, i: Constant) -> Constant
    requires some_thread { 0 < threads }
    requires sized { rules.has_size (view_structs structs.now) (view t.now) ≡ true }
    requires near { IfSome (known.number_of i) (λ v. unsigned_abs v ≤ 2 ^ 64) }
    ensures value { result
        ≡ pure.indexed (record { structs = view_structs structs.now; threads = threads })
        (view t.now) address i }
    ensures within { IsWithin result }
{
    match i {
        Constant::Known(v) => address_behind(structs, threads, t, address, v),
        Constant::Undefined => lost_behind(address),
        _ => Constant::Variable,
    }
}

/// `a[i]`, where the elements of a have a size.
pub fn subscript(structs: &Structs, threads: u32, a: &Attr, i: &Attr) -> Result<Attr, OutOfMemory>
    requires some_thread { 0 < threads }
    requires sized { rules.is_loose (view_structs structs.now) (view_attr a.now) ≡ false }
    ensures { IfOk result (λ x. (how : node.Use) → view_attr x
        ≡ attr (record { structs = view_structs structs.now; threads = threads })
        (node.Subscript how (view_attr a.now) (view_attr i.now))) }
{
    match target_of(a) {
        Some(t) => {
            let address = indexed(structs, threads, t, constant_of(a), i.constant);
            object_at(Some(t), address)
        }
        None => Ok(int_value()),
    }
}

// A pointer, some objects after another.
fn pointer(
    alloc: Global,
    structs: &Structs,
    threads: u32,
    t: &CType,
    address: Constant,
    steps: Constant,
) -> Result<Attr, OutOfMemory>
    requires some_thread { 0 < threads }
    requires sized { rules.has_size (view_structs structs.now) (view t.now) ≡ true }
    requires near { IfSome (known.number_of steps) (λ v. unsigned_abs v ≤ 2 ^ 64) }
    ensures { IfOk result (λ x. view_attr x
        ≡ pure.pointer_attr (record { structs = view_structs structs.now; threads = threads })
        (view t.now) address steps) }
{
    let constant = indexed(structs, threads, t, address, steps);
    let target = copy_type(t)?;
    Ok(Attr {
        ctype: plainly(Base::Pointer(Target::new(alloc, target)?)),
        form: Form::Value,
        constant,
    })
}

fn sum(
    alloc: Global,
    structs: &Structs,
    threads: u32,
    a: &Attr,
    b: &Attr,
) -> Result<Attr, OutOfMemory>
    requires some_thread { 0 < threads }
    requires left { rules.is_loose (view_structs structs.now) (view_attr a.now) ≡ false }
    requires right { rules.is_loose (view_structs structs.now) (view_attr b.now) ≡ false }
    ensures { IfOk result (λ x. view_attr x
        ≡ attr (record { structs = view_structs structs.now; threads = threads })
        (node.Binary BinOp.Add (view_attr a.now) (view_attr b.now))) }
{
    match (target_of(a), target_of(b)) {
        (Some(t), _) => pointer(alloc, structs, threads, t, constant_of(a), b.constant),
        (None, Some(u)) => pointer(alloc, structs, threads, u, constant_of(b), a.constant),
        (None, None) => Ok(arithmetic(BinOp::Add, a, b)),
    }
}

fn negated(x: Constant) -> Constant
    requires { IsWithin x }
    ensures value { result ≡ pure.negated x }
    ensures near { IfSome (known.number_of result) (λ v. unsigned_abs v ≤ 2 ^ 64) }
{
    match x {
        Constant::Known(v) => Constant::Known(-v),
        Constant::Undefined => Constant::Undefined,
        _ => Constant::Variable,
    }
}

fn difference(
    alloc: Global,
    structs: &Structs,
    threads: u32,
    a: &Attr,
    b: &Attr,
) -> Result<Attr, OutOfMemory>
    requires some_thread { 0 < threads }
    requires sized { rules.moves_loosely (view_structs structs.now) BinOp.Subtract
        (view_attr a.now) (view_attr b.now) ≡ false }
    ensures { IfOk result (λ x. view_attr x
        ≡ attr (record { structs = view_structs structs.now; threads = threads })
        (node.Binary BinOp.Subtract (view_attr a.now) (view_attr b.now))) }
{
    match (target_of(a), target_of(b)) {
        (Some(_), Some(_)) => Ok(value(plainly(Base::Integer(Kind::Long)))),
        (Some(t), None) => {
            pointer(
                alloc,
                structs,
                threads,
                t,
                constant_of(a),
                negated(b.constant),
            )
        }
        (None, _) => Ok(arithmetic(BinOp::Subtract, a, b)),
    }
}

/// A binary operator other than `&&` and `||`, where pointers that it moves lead to what has a size.
pub fn binary(
    alloc: Global,
    structs: &Structs,
    threads: u32,
    op: BinOp,
    a: &Attr,
    b: &Attr,
) -> Result<Attr, OutOfMemory>
    requires some_thread { 0 < threads }
    requires sized { rules.moves_loosely (view_structs structs.now) op (view_attr a.now) (view_attr b.now) ≡ false }
    ensures { IfOk result (λ x. view_attr x
        ≡ attr (record { structs = view_structs structs.now; threads = threads })
        (node.Binary op (view_attr a.now) (view_attr b.now))) }
{
    match op {
        BinOp::Add => sum(alloc, structs, threads, a, b),
        BinOp::Subtract => difference(alloc, structs, threads, a, b),
        _ => Ok(arithmetic(op, a, b)),
    }
}
