//! Numbers by which targets of pointers are found.

ghost use Rattle.std.specs.Prelude.{◌≡◌};
ghost use Rattle.upc_types.specs.code.TypeCodes as pure;
ghost use Rattle.upc_types.specs.View.{view, view_base};

use crate::ctype::{Access, Base, CType};
use block_layout::Kind;
use std::hash::{DefaultHasher, Hasher};

// One more number.
fn write(hasher: &mut DefaultHasher, n: u32)
    ensures { hasher.new ≡ pure.written hasher.old n }
{
    hasher.write_u64(u64::from(n));
}

fn access_number(access: Access) -> u32
    ensures { result ≡ pure.access_number access }
{
    match access {
        Access::Unsaid => 0,
        Access::Strict => 1,
        Access::Relaxed => 2,
    }
}

/// The number of an integer kind from 1, and 0 for another.
pub(crate) fn kind_number(kind: Kind) -> u32
    ensures { result ≡ pure.kind_number kind }
{
    match kind {
        Kind::Char => 1,
        Kind::UChar => 2,
        Kind::Short => 3,
        Kind::UShort => 4,
        Kind::Int => 5,
        Kind::UInt => 6,
        Kind::Long => 7,
        Kind::ULong => 8,
        Kind::Shared(_, _) | Kind::Lock | Kind::Private(_) => 0,
    }
}

fn write_block(hasher: &mut DefaultHasher, block: Option<u32>)
    ensures { hasher.new ≡ pure.with_block hasher.old block }
{
    match block {
        None => write(hasher, 0),
        Some(n) => {
            write(hasher, 1);
            write(hasher, n);
        }
    }
}

fn qualifier_number(t: &CType) -> u32
    ensures { result ≡ pure.qualifier_number t.now.constant t.now.access }
{
    let access = access_number(t.access);
    if t.constant { access + 3 } else { access }
}

fn write_qualifiers(hasher: &mut DefaultHasher, t: &CType)
    ensures { hasher.new ≡ pure.with_qualifiers hasher.old t.now.constant t.now.shared t.now.access }
{
    write(hasher, qualifier_number(t));
    write_block(hasher, t.shared);
}

// A loop, since a chain of pointers may be as long as a source.
fn write_base(hasher: &mut DefaultHasher, base: &Base)
    ensures { hasher.new ≡ pure.with_base hasher.old (view_base base.now) }
{
    let mut base = base;
    loop {
        match base {
            Base::Array(element, count) => {
                write(hasher, 3);
                write(hasher, *count);
                write_qualifiers(hasher, element);
                base = &element.base;
            }
            Base::Pointer(target) => {
                write(hasher, 4);
                write_qualifiers(hasher, target);
                base = &target.base;
            }
            leaf => {
                write_leaf(hasher, leaf);
                return;
            }
        }
    }
}

// What all pointers and arrays of a type lead to.
fn write_leaf(hasher: &mut DefaultHasher, base: &Base)
    ensures { hasher.new ≡ pure.with_leaf hasher.old (view_base base.now) }
{
    match base {
        Base::Void => write(hasher, 0),
        Base::Integer(kind) => {
            write(hasher, 1);
            write(hasher, kind_number(*kind));
        }
        Base::Struct(number) => {
            write(hasher, 2);
            write(hasher, *number);
        }
        Base::Array(_, _) | Base::Pointer(_) => {}
        Base::LockObject => write(hasher, 5),
    }
}

/// The code of a target, which is that of each target that is alike. Takes no memory.
pub fn code_of(target: &CType) -> u64
    ensures { result ≡ pure.code_of (view target.now) }
{
    let mut hasher = DefaultHasher::new();
    write_block(&mut hasher, target.shared);
    write_base(&mut hasher, &target.base);
    hasher.finish()
}
