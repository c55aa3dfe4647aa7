//! Sizes and alignments (C99 6.5.3.4, 6.7.2.1).

ghost use Rattle.std.specs.Prelude.{◌≡◌, ◌+◌, ◌<◌, ◌≤◌, max, IfSome};
ghost use Rattle.upc_types.specs.Layout as pure;
ghost use Rattle.upc_types.specs.layer.Kept.{IsFine};
ghost use Rattle.upc_types.specs.View.{view_base};

use crate::ctype::Base;
use block_layout::limits;

/// No object has more bytes.
pub const MOST_BYTES: u32 = limits::SHARED_BYTES;

/// The size and the alignment of a type, in bytes.
#[derive(Clone, Copy, PartialEq, Eq, Debug)]
pub struct Layout {
    pub size: u32,
    pub align: u32,
}

/// What is known of a complete struct: its place in the order of completion, from 0, its layout, and whether an object
/// of it holds a pointer to a private object.
#[derive(Clone, Copy)]
pub struct Known {
    pub place: usize,
    pub layout: Layout,
    pub holds_private: bool,
}

// The layout of a scalar.
pub fn scalar(size: u32) -> Layout
    ensures { result ≡ pure.scalar size }
{
    Layout { size, align: size }
}

// The bytes of a pointer to a target of this kind.
pub fn pointer_size(target: &Base, shared: Option<u32>) -> u32
    ensures value { result ≡ pure.pointer_size (view_base target.now) shared }
    ensures low { 0 < result }
    ensures high { result ≤ 16 }
{
    match (target, shared) {
        (Base::LockObject, _) => 16,
        (_, Some(_)) => 16,
        (_, None) => 8,
    }
}

// The layout of an array of elements with this layout.
pub fn many(element: Option<Layout>, count: u32) -> Option<Layout>
    requires { IfSome element IsFine }
    ensures value { result ≡ pure.many element count }
    ensures fine { IfSome result IsFine }
{
    let element = element?;
    let size = u64::from(count) * u64::from(element.size);
    if count == 0 || size > u64::from(MOST_BYTES) {
        return None;
    }
    Some(Layout {
        size: size as u32,
        align: element.align,
    })
}

// The least multiple of the alignment that is at least n.
pub fn aligned(n: u32, align: u32) -> u32
    requires some { 0 < align }
    requires few { align ≤ 16 }
    requires near { n ≤ 33554432 }
    ensures value { result ≡ pure.aligned n align }
    ensures low { n ≤ result }
    ensures high { result < n + align }
{
    (n + (align - 1)) / align * align
}

// The layout of a struct whose members end there, None where it has more bytes than an object can have.
pub fn finished(end: u32, align: u32) -> Option<Layout>
    requires low { 0 < align }
    requires high { align ≤ 16 }
    requires near { end ≤ pure.most_bytes }
    ensures value { result ≡ pure.finished end align }
    ensures fine { 0 < end → IfSome result IsFine }
{
    let size = aligned(end, align);
    if size > MOST_BYTES {
        return None;
    }
    Some(Layout { size, align })
}

// The wider of two alignments.
pub fn wider(a: u32, b: u32) -> u32
    ensures { result ≡ max a b }
{
    if a < b { b } else { a }
}
