//! What size operators give (C99 6.5.3.4, UPC 6.4.1).

ghost use Rattle.std.specs.Prelude.{◌≡◌, ◌<◌, ◌≤◌, ◌^◌, false, true};
ghost use Rattle.upc_types.specs.Layout as layouts;
ghost use Rattle.upc_types.specs.View.{view, view_base};
ghost use Rattle.upc_types.specs.ViewStructs.{view_structs};
ghost use Rattle.upc_types.specs.Cells.{leaf_base, leaves};
ghost use Rattle.typing_rules.specs.layer.Views.{view_formed};
ghost use Rattle.typing_rules.specs.Values as values;
ghost use Rattle.typing_rules.specs.Nodes as node;
ghost use Rattle.typing_rules.specs.Nodes.{view_attr};
ghost use Rattle.typing_rules.specs.Attributes as pure;
ghost use Rattle.typing_rules.specs.Attributes.{attr};
ghost use Rattle.typing_rules.specs.Rules as rules;

use crate::addresses::block_or_none;
use crate::attributes::constant;
use block_layout::Kind;
use typing_rules::types::leaf;
use typing_rules::{Attr, Constant, Formed, SizeOperator};
use upc_types::{Base, CType, Structs};

/// How many leaf elements an object has, and the bytes of each.
#[derive(Clone, Copy)]
pub(crate) struct Leaves {
    pub count: u32,
    pub bytes: u32,
}

/// The leaf elements of a type that has a size.
pub(crate) fn leaves_of(structs: &Structs, base: &Base) -> Leaves
    requires { rules.has_size (view_structs structs.now) (values.plainly (view_base base.now)) ≡ true }
    ensures count { result.count ≡ leaves (view_base base.now) }
    ensures bytes { result.bytes
        ≡ layouts.size (view_structs structs.now) (values.plainly (leaf_base (view_base base.now))) }
    ensures few { result.count ≤ 16777216 }
    ensures small { result.bytes ≤ 16777216 }
{
    match (structs.layout_of(base), structs.layout_of(leaf(base))) {
        (Some(whole), Some(part)) => Leaves {
            count: whole.size / part.size,
            bytes: part.size,
        },
        _ => unreachable!(),
    }
}

// The least number of parts of d that cover n.
fn parts(n: u64, d: u32) -> u64
    requires some { 0 < d }
    requires few { n ≤ 2 ^ 32 }
    ensures value { result ≡ pure.parts n d }
    ensures most { result ≤ n }
{
    (n + u64::from(d - 1)) / u64::from(d)
}

// The bytes that an array with a block of at least 1 takes on each thread at most.
fn block_bytes(threads: u32, elements: u32, block: u32, bytes: u32) -> u64
    requires some_block { 0 < block }
    requires some_thread { 0 < threads }
    requires few { elements ≤ 16777216 }
    requires small { bytes ≤ 16777216 }
    ensures { result ≡ pure.local_bytes threads elements block bytes }
{
    let rows = parts(parts(u64::from(elements), block), threads);
    rows * u64::from(block) * u64::from(bytes)
}

// The bytes that an array takes on each thread at most.
fn local_bytes(threads: u32, elements: u32, block: u32, bytes: u32) -> u64
    requires some_thread { 0 < threads }
    requires few { elements ≤ 16777216 }
    requires small { bytes ≤ 16777216 }
    ensures { result ≡ pure.local_bytes threads elements block bytes }
{
    if block == 0 {
        u64::from(elements) * u64::from(bytes)
    } else {
        block_bytes(threads, elements, block, bytes)
    }
}

fn measured(structs: &Structs, threads: u32, op: SizeOperator, t: &CType) -> u64
    requires some_thread { 0 < threads }
    requires sized { rules.has_size (view_structs structs.now) (view t.now) ≡ true }
    ensures { result ≡ pure.measured
        (record { structs = view_structs structs.now; threads = threads }) op (view t.now) }
{
    let leaves = leaves_of(structs, &t.base);
    match op {
        SizeOperator::Bytes => u64::from(leaves.count) * u64::from(leaves.bytes),
        SizeOperator::BlockSize => u64::from(block_or_none(t.shared)),
        SizeOperator::ElementBytes => u64::from(leaves.bytes),
        SizeOperator::LocalBytes => {
            local_bytes(threads, leaves.count, block_or_none(t.shared), leaves.bytes)
        }
    }
}

/// A size operator on an expression that has a size.
pub fn size_of(structs: &Structs, threads: u32, op: SizeOperator, a: &Attr) -> Attr
    requires some_thread { 0 < threads }
    requires sized { rules.has_no_size (view_structs structs.now) op (view a.now.ctype) ≡ false }
    ensures { view_attr result
        ≡ attr (record { structs = view_structs structs.now; threads = threads }) (node.SizeOf op (view_attr a.now)) }
{
    let bytes = measured(structs, threads, op, &a.ctype);
    constant(Kind::ULong, Constant::Known(i128::from(bytes)))
}

/// A size operator on a type that has a size.
pub fn size_of_type(structs: &Structs, threads: u32, op: SizeOperator, t: &Formed) -> Attr
    requires some_thread { 0 < threads }
    requires sized { rules.has_no_size (view_structs structs.now) op (view t.now.ctype) ≡ false }
    ensures { view_attr result
        ≡ attr (record { structs = view_structs structs.now; threads = threads })
        (node.SizeOfType op (view_formed t.now)) }
{
    let bytes = measured(structs, threads, op, &t.ctype);
    constant(Kind::ULong, Constant::Known(i128::from(bytes)))
}
