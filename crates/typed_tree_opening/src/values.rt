//! What constants give cells (C99 6.6, 6.7.8).

ghost use Rattle.std.specs.Prelude.{◌≡◌};
ghost use Rattle.block_layout.specs.Places.{in_range};
ghost use Rattle.integers.specs.Integers.{IsInteger};
ghost use Rattle.upc_types.specs.View.{view_base};
ghost use Rattle.upc_types.specs.ViewStructs.{view_structs};
ghost use Rattle.typed_tree.specs.Initials as pure;
ghost use Rattle.typed_tree.specs.layer.Parts as parts;
ghost use Rattle.typed_tree_opening.specs.code.ViewSettings.{view_setting};

use crate::setting::Setting;
use block_layout::{FARTHEST, Kind, LocalPtr, ObjectRef, SharedPtr};
use typed_tree::numbered;
use typing_rules::constants::cast_constant;
use typing_rules::{Constant, Static};
use upc_types::{Base, Structs};
use upc_values::{Scalar, Value};

fn is_in_range(offset: i64) -> bool
    ensures { result ≡ in_range offset }
{
    -FARTHEST <= offset && offset <= FARTHEST
}

// The integer that a constant is in an object of this kind.
fn integer_in(kind: Kind, constant: Constant) -> i128
    requires { IsInteger kind }
    ensures { result ≡ parts.integer_in kind constant }
{
    match cast_constant(kind, constant) {
        Constant::Known(v) => v,
        _ => 0,
    }
}

fn fits(threads: u32, block: u32, p: &SharedPtr) -> bool
    ensures { result ≡ pure.fits threads block p.now }
{
    p.thread < threads && (p.phase == 0 || p.phase < block) && is_in_range(p.offset)
}

fn fitting(threads: u32, block: u32, p: SharedPtr) -> SharedPtr
    ensures { result ≡ parts.fitting threads block p }
{
    if fits(threads, block, &p) {
        p
    } else {
        SharedPtr::NULL
    }
}

fn pointer_into(
    threads: u32,
    block: u32,
    named: Option<ObjectRef>,
    thread: u32,
    phase: u32,
    offset: i64,
) -> SharedPtr
    ensures { result ≡ pure.pointer_into threads block named thread phase offset }
{
    match named {
        Some(object) => fitting(
            threads,
            block,
            SharedPtr {
                object,
                thread,
                phase,
                offset,
            },
        ),
        None => SharedPtr::NULL,
    }
}

fn shared_pointer_in(setting: &Setting<'_>, block: u32, constant: Constant) -> SharedPtr
    ensures { result ≡ pure.shared_pointer_in (view_setting setting.now) block constant }
{
    match constant {
        Constant::Address(
            Static::Shared {
                object,
                thread,
                phase,
                offset,
            },
            _,
        ) => {
            let named = numbered(setting.shared, object);
            pointer_into(setting.threads, block, named, thread, phase, offset)
        }
        _ => SharedPtr::NULL,
    }
}

fn local_pointer_in(setting: &Setting<'_>, constant: Constant) -> LocalPtr
    ensures { result ≡ pure.local_pointer_in (view_setting setting.now) constant }
{
    match constant {
        Constant::Address(Static::Private { object, offset }, _) => {
            let object = u64::from(object);
            if object < setting.privates && is_in_range(offset) {
                LocalPtr::Private { object, offset }
            } else {
                LocalPtr::Null
            }
        }
        _ => LocalPtr::Null,
    }
}

/// What a constant is in an object of this kind.
pub(crate) fn value_in(setting: &Setting<'_>, kind: Kind, constant: Constant) -> Value
    ensures { result ≡ pure.initial_value (view_setting setting.now) kind constant }
{
    match kind {
        Kind::Shared(_, block) => {
            Value::Scalar(Scalar::Shared(shared_pointer_in(setting, block, constant)))
        }
        Kind::Private(_) => Value::Local(local_pointer_in(setting, constant)),
        Kind::Lock => Value::Scalar(Scalar::Lock(0)),
        _ => Value::Scalar(Scalar::Int(integer_in(kind, constant))),
    }
}

/// The kind of a scalar.
pub(crate) fn scalar_kind(structs: &Structs, base: &Base) -> Option<Kind>
    ensures { result ≡ pure.scalar_kind (view_structs structs.now).targets (view_base base.now) }
{
    match base {
        Base::Integer(kind) => Some(*kind),
        Base::Pointer(target) => Some(structs.pointer_kind(target)),
        _ => None,
    }
}
