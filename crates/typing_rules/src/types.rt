//! Tests on types and on the values of expressions.

ghost use Rattle.std.specs.Prelude.{◌≡◌, Option, Some, None, IfSome};
ghost use Rattle.integers.specs.Integers.{IsInteger};
ghost use Rattle.upc_types.specs.Cells.{leaf_base};
ghost use Rattle.upc_types.specs.View.{view, view_base};
ghost use Rattle.upc_types.specs.ViewStructs.{view_structs};
ghost use Rattle.typing_rules.specs.layer.Views.{view_target};
ghost use Rattle.typing_rules.specs.Library.{int};
ghost use Rattle.typing_rules.specs.Values as pure;
ghost use Rattle.typing_rules.specs.Nodes.{view_attr};
ghost use Rattle.typing_rules.specs.Attributes as attributes;
ghost use Rattle.typing_rules.specs.Constants as constants;
ghost use Rattle.typing_rules.specs.Rules as rules;

use crate::attribute::{Attr, Constant, Form};
use block_layout::Kind;
use upc_types::{Access, Base, CType, Structs, same_base, same_block, same_type};

/// The type int, without qualifiers (C99 6.2.5).
pub fn int_type() -> CType
    ensures { view result ≡ int }
{
    CType {
        base: Base::Integer(Kind::Int),
        constant: false,
        shared: None,
        access: Access::Unsaid,
    }
}

pub fn is_void_type(t: &CType) -> bool
    ensures { result ≡ pure.is_void (view t.now) }
{
    matches!(t.base, Base::Void)
}

pub fn is_array(t: &CType) -> bool
    ensures { result ≡ pure.is_array (view t.now) }
{
    matches!(t.base, Base::Array(_, _))
}

pub fn is_struct(t: &CType) -> bool
    ensures { result ≡ pure.is_struct (view t.now) }
{
    matches!(t.base, Base::Struct(_))
}

pub fn is_lock(t: &CType) -> bool
    ensures { result ≡ pure.is_lock (view t.now) }
{
    matches!(t.base, Base::LockObject)
}

pub fn is_shared(t: &CType) -> bool
    ensures { result ≡ pure.is_shared (view t.now) }
{
    t.shared.is_some()
}

/// Whether it is an array of arrays.
pub fn is_nested(t: &CType) -> bool
    ensures { result ≡ pure.is_nested (view t.now) }
{
    match &t.base {
        Base::Array(element, _) => is_array(element),
        _ => false,
    }
}

/// The leaf elements of an array of arrays, without qualifiers of their own.
pub fn leaf(base: &Base) -> &Base
    ensures { view_base result.now ≡ leaf_base (view_base base.now) }
{
    match base {
        Base::Array(element, _) => leaf(&element.base),
        other => other,
    }
}

/// Whether there is no object of this type: it is void or a lock.
pub fn is_no_object(base: &Base) -> bool
    ensures { result ≡ pure.is_no_object (view_base base.now) }
{
    matches!(base, Base::Void | Base::LockObject)
}

/// Whether two pointers may be compared that lead there.
pub fn equal_targets(a: &CType, b: &CType) -> bool
    ensures { result ≡ pure.equal_targets (view a.now) (view b.now) }
{
    same_block(a.shared, b.shared) && same_base(&a.base, &b.base)
}

fn integer_kind(kind: Kind) -> Option<Kind>
    ensures value { result ≡ pure.integer_kind kind }
    ensures integer { IfSome result IsInteger }
{
    match kind {
        Kind::Shared(_, _) | Kind::Lock | Kind::Private(_) => None,
        _ => Some(kind),
    }
}

/// The kind of an integer type.
pub fn base_kind(base: &Base) -> Option<Kind>
    ensures value { result ≡ pure.base_kind (view_base base.now) }
    ensures integer { IfSome result IsInteger }
{
    match base {
        Base::Integer(kind) => integer_kind(*kind),
        _ => None,
    }
}

/// The kind of an integer.
pub fn kind_of(a: &Attr) -> Option<Kind>
    ensures value { result ≡ pure.base_kind (attributes.base (view_attr a.now)) }
    ensures integer { IfSome result IsInteger }
{
    match &a.ctype.base {
        Base::Integer(kind) => integer_kind(*kind),
        _ => None,
    }
}

/// What the value of an expression points to: an array is a pointer to its first element.
pub fn target_of(a: &Attr) -> Option<&CType>
    ensures { view_target result ≡ rules.target (view_attr a.now) }
{
    match &a.ctype.base {
        Base::Pointer(target) => Some(target),
        Base::Array(element, _) => Some(element),
        _ => None,
    }
}

pub fn counts(a: &Attr) -> bool
    ensures { result ≡ rules.counts (view_attr a.now) }
{
    matches!(a.ctype.base, Base::Integer(_))
}

pub fn points(a: &Attr) -> bool
    ensures { result ≡ rules.points (view_attr a.now) }
{
    matches!(a.ctype.base, Base::Pointer(_) | Base::Array(_, _))
}

pub fn is_scalar(a: &Attr) -> bool
    ensures { result ≡ rules.is_scalar (view_attr a.now) }
{
    counts(a) || points(a)
}

pub fn gives_void(a: &Attr) -> bool
    ensures { result ≡ rules.gives_void (view_attr a.now) }
{
    is_void_type(&a.ctype)
}

/// Whether a constant is an integer constant expression of value 0.
pub fn constant_is_zero(c: Constant) -> bool
    ensures { result ≡ constants.is_zero c }
{
    match c {
        Constant::Known(v) => v == 0,
        _ => false,
    }
}

pub fn is_zero(a: &Attr) -> bool
    ensures { result ≡ rules.is_zero (view_attr a.now) }
{
    constant_is_zero(a.constant)
}

pub fn is_lvalue(a: &Attr) -> bool
    ensures { result ≡ rules.is_lvalue (view_attr a.now) }
{
    matches!(a.form, Form::Lvalue(_))
}

pub fn is_modifiable(a: &Attr) -> bool
    ensures { result ≡ rules.is_modifiable (view_attr a.now) }
{
    is_lvalue(a) && !is_array(&a.ctype) && !is_struct(&a.ctype) && !a.ctype.constant
}

fn is_loose_target(structs: &Structs, target: Option<&CType>) -> bool
    ensures { result ≡ rules.is_loose_target (view_structs structs.now) (view_target target.entry) }
{
    match target {
        Some(t) => structs.layout_of(&t.base).is_none(),
        None => false,
    }
}

/// Whether it is a pointer to what has no known size.
pub fn is_loose(structs: &Structs, a: &Attr) -> bool
    ensures { result ≡ rules.is_loose (view_structs structs.now) (view_attr a.now) }
{
    is_loose_target(structs, target_of(a))
}

fn target_is_empty(target: Option<&CType>) -> bool
    ensures { result ≡ rules.target_is_empty (view_target target.entry) }
{
    match target {
        Some(t) => is_no_object(&t.base),
        None => false,
    }
}

/// Whether it is a pointer to void or to a lock.
pub fn leads_nowhere(a: &Attr) -> bool
    ensures { result ≡ rules.leads_nowhere (view_attr a.now) }
{
    target_is_empty(target_of(a))
}

fn targets_are_apart(a: Option<&CType>, b: Option<&CType>) -> bool
    ensures { result ≡ rules.targets_differ (view_target a.entry) (view_target b.entry) }
{
    match (a, b) {
        (Some(t), Some(u)) => !equal_targets(t, u),
        _ => false,
    }
}

/// Whether both are pointers, and lead to different targets.
pub fn targets_differ(a: &Attr, b: &Attr) -> bool
    ensures { result ≡ rules.targets_differ (rules.target (view_attr a.now)) (rules.target (view_attr b.now)) }
{
    targets_are_apart(target_of(a), target_of(b))
}

fn target_is_lock(target: Option<&CType>) -> bool
    ensures { result ≡ rules.target_is_lock (view_target target.entry) }
{
    match target {
        Some(t) => is_lock(t),
        None => false,
    }
}

/// Whether both are lock pointers.
pub fn are_locks(a: &Attr, b: &Attr) -> bool
    ensures { result ≡ rules.are_locks (view_attr a.now) (view_attr b.now) }
{
    target_is_lock(target_of(a)) && target_is_lock(target_of(b))
}

fn target_is_array(target: Option<&CType>) -> bool
    ensures { result ≡ rules.target_is_array (view_target target.entry) }
{
    match target {
        Some(t) => is_array(t),
        None => false,
    }
}

/// Whether an element of it is an array.
pub fn leads_to_array(a: &Attr) -> bool
    ensures { result ≡ rules.target_is_array (rules.target (view_attr a.now)) }
{
    target_is_array(target_of(a))
}

fn same_targets(a: Option<&CType>, b: Option<&CType>) -> bool
    ensures { result ≡ rules.same_pointers (view_target a.entry) (view_target b.entry) }
{
    match (a, b) {
        (Some(t), Some(u)) => same_type(t, u),
        _ => false,
    }
}

/// Whether both are pointers of one type.
pub fn same_pointers(a: &Attr, b: &Attr) -> bool
    ensures { result ≡ rules.same_pointers (rules.target (view_attr a.now)) (rules.target (view_attr b.now)) }
{
    same_targets(target_of(a), target_of(b))
}

fn target_is_shared(target: Option<&CType>) -> bool
    ensures { result ≡ rules.target_is_shared (view_target target.entry) }
{
    match target {
        Some(t) => is_shared(t) && !is_lock(t),
        None => false,
    }
}

/// Whether it is a pointer-to-shared; a lock pointer is none.
pub fn leads_to_shared(a: &Attr) -> bool
    ensures { result ≡ rules.leads_to_shared (view_attr a.now) }
{
    target_is_shared(target_of(a))
}
