//! The lowest typing rule that each node of a declaration or a type breaks.

ghost use Rattle.std.specs.Prelude.{◌≡◌, ℕ, map, ◌<◌};
ghost use Rattle.std.specs.List.{list_any};
ghost use Rattle.upc_types.specs.View.{view, view_base};
ghost use Rattle.upc_types.specs.ViewStructs.{view_structs};
ghost use Rattle.typing_rules.specs.layer.Views.{view_formed, view_signature};
ghost use Rattle.typing_rules.specs.Constants as known;
ghost use Rattle.typing_rules.specs.Nodes as nodes;
ghost use Rattle.typing_rules.specs.Nodes.{view_attr};
ghost use Rattle.typing_rules.specs.Attributes.{Facts};
ghost use Rattle.typing_rules.specs.Rules as r;
ghost use Rattle.typing_rules.specs.Rules.{lowest};

use crate::conversion::converts;
use crate::rules::has_no_size;
use block_layout::limits;
use typing_rules::constants::constant_of;
use typing_rules::types::{is_array, is_lock, is_nested, is_no_object, is_shared, is_struct, leaf};
use typing_rules::{Attr, Constant, Formed, Signature, SizeOperator};
use upc_types::{Base, CType, Structs};

/// The specifiers of a declaration or of members.
pub fn specifies(forms: bool) -> Option<u8>
    ensures { (φ : Facts) → result ≡ lowest φ (nodes.Specifies forms) }
{
    if forms { None } else { Some(4) }
}

fn is_block_size(k: Constant) -> bool
    ensures { result ≡ r.is_block_size k }
{
    match k {
        Constant::Known(v) => 0 <= v && v <= i128::from(limits::SHARED_BYTES),
        _ => false,
    }
}

/// The brackets of a layout.
pub fn block(a: &Attr) -> Option<u8>
    ensures { (φ : Facts) → result ≡ lowest φ (nodes.Block (view_attr a.now)) }
{
    if is_block_size(a.constant) {
        None
    } else {
        Some(5)
    }
}

/// `[*]`, where it may stand or not.
pub fn star_block(declares: bool) -> Option<u8>
    ensures { (φ : Facts) → result ≡ lowest φ (nodes.StarBlock declares) }
{
    if declares { None } else { Some(5) }
}

fn is_undefined(k: Constant) -> bool
    ensures { result ≡ known.is_undefined k }
{
    matches!(k, Constant::Undefined)
}

/// An expression where a constant is asked for.
pub fn constantly(a: &Attr) -> Option<u8>
    ensures { (φ : Facts) → result ≡ lowest φ (nodes.Constantly (view_attr a.now)) }
{
    if is_undefined(constant_of(a)) {
        Some(32)
    } else {
        None
    }
}

fn is_no_array_size(k: Constant) -> bool
    ensures { result ≡ r.is_no_array_size k }
{
    match k {
        Constant::Known(v) => v < 1,
        _ => true,
    }
}

fn any_is_no_size(sizes: &[Constant]) -> bool
    ensures { result ≡ list_any r.is_no_array_size sizes.now }
{
    for k in sizes {
        if is_no_array_size(*k) {
            return true;
        }
    }
    false
}

fn declares_nothing(t: &CType) -> bool
    ensures { result ≡ r.declares_nothing (view t.now) }
{
    is_no_object(leaf(&t.base))
}

fn base_lacks_members(structs: &Structs, base: &Base) -> bool
    ensures { result ≡ r.base_lacks_members (view_structs structs.now) (view_base base.now) }
{
    match base {
        Base::Struct(_) => !structs.is_complete(base),
        _ => false,
    }
}

/// Whether the element type is a struct that is not complete.
pub fn lacks_members(structs: &Structs, t: &CType) -> bool
    ensures { result ≡ r.lacks_members (view_structs structs.now) (view t.now) }
{
    base_lacks_members(structs, leaf(&t.base))
}

/// A member of a struct that is a function with this result.
pub fn member_function(forms: bool, t: &CType) -> Option<u8>
    ensures { (φ : Facts) → result ≡ lowest φ (nodes.MemberFunction forms (view t.now)) }
{
    if !forms || is_lock(t) {
        Some(4)
    } else if is_shared(t) {
        Some(7)
    } else {
        Some(8)
    }
}

/// The file, with its function main or without it.
pub fn file(main: bool) -> Option<u8>
    ensures { (φ : Facts) → result ≡ lowest φ (nodes.File main) }
{
    if main { None } else { Some(3) }
}

fn any_is_struct(types: &[CType]) -> bool
    ensures { result ≡ list_any r.is_struct_type (map view types.now) }
{
    for t in types {
        if is_struct(t) {
            return true;
        }
    }
    false
}

fn passes_struct(s: &Signature) -> bool
    ensures { result ≡ r.passes_struct (view_signature s.now) }
{
    is_struct(&s.result) || any_is_struct(s.parameters.as_slice())
}

/// A function that is declared.
pub fn declares_function(again: bool, forms: bool, s: &Signature) -> Option<u8>
    ensures { (φ : Facts) → result ≡ lowest φ (nodes.DeclaresFunction again forms (view_signature s.now)) }
{
    if again {
        Some(2)
    } else if !forms || is_lock(&s.result) {
        Some(4)
    } else if is_shared(&s.result) {
        Some(7)
    } else if passes_struct(s) {
        Some(11)
    } else {
        None
    }
}

/// A function that is defined.
pub fn defines(again: bool, differs: bool, forms: bool, s: &Signature) -> Option<u8>
    ensures { (φ : Facts) → result ≡ lowest φ (nodes.Defines again differs forms (view_signature s.now)) }
{
    if again {
        Some(2)
    } else if !forms || is_lock(&s.result) {
        Some(4)
    } else if is_shared(&s.result) {
        Some(7)
    } else if differs || passes_struct(s) {
        Some(11)
    } else {
        None
    }
}

fn is_too_large(structs: &Structs, t: &CType) -> bool
    ensures { result ≡ r.is_too_large (view_structs structs.now) (view t.now) }
{
    match structs.layout_of(&t.base) {
        Some(_) => false,
        None => structs.is_complete(&t.base),
    }
}

fn has_wrong_dimensions(t: &Formed) -> bool
    ensures { result ≡ r.has_wrong_dimensions (view_formed t.now) }
{
    any_is_no_size(t.sizes.as_slice()) || t.sizes.len() > 3
}

fn has_wrong_sizes(structs: &Structs, t: &Formed) -> bool
    ensures { result ≡ r.has_wrong_sizes (view_structs structs.now) (view_formed t.now) }
{
    has_wrong_dimensions(t) || is_too_large(structs, &t.ctype)
}

/// A size operator on a type.
pub fn size_of_type(structs: &Structs, op: SizeOperator, t: &Formed) -> Option<u8>
    ensures { (threads : ℕ) → result
        ≡ lowest (record { structs = view_structs structs.now; threads = threads })
        (nodes.SizeOfType op (view_formed t.now)) }
{
    if !t.forms || is_lock_leaf(&t.ctype) {
        Some(4)
    } else if has_wrong_sizes(structs, t) {
        Some(6)
    } else if has_no_size(structs, op, &t.ctype) {
        Some(21)
    } else {
        None
    }
}

/// Whether a shared object of this type holds a pointer to a private object.
pub fn shares_private(structs: &Structs, t: &CType) -> bool
    ensures { result ≡ r.shares_private (view_structs structs.now) (view t.now) }
{
    is_shared(t) && structs.holds_private(&t.base)
}

fn is_lock_leaf(t: &CType) -> bool
    ensures { result ≡ r.is_lock_leaf (view t.now) }
{
    matches!(leaf(&t.base), Base::LockObject)
}

/// A member of a struct.
pub fn member(structs: &Structs, again: bool, t: &Formed) -> Option<u8>
    ensures { (threads : ℕ) → result
        ≡ lowest (record { structs = view_structs structs.now; threads = threads })
        (nodes.Member again (view_formed t.now)) }
{
    if !t.forms || declares_nothing(&t.ctype) {
        Some(4)
    } else if has_wrong_sizes(structs, t) {
        Some(6)
    } else if is_shared(&t.ctype) {
        Some(7)
    } else if again || lacks_members(structs, &t.ctype) || t.sizes.len() > 1 {
        Some(8)
    } else {
        None
    }
}

/// An object that is declared.
pub fn declares_object(structs: &Structs, again: bool, file: bool, t: &Formed) -> Option<u8>
    ensures { (threads : ℕ) → result
        ≡ lowest (record { structs = view_structs structs.now; threads = threads })
        (nodes.DeclaresObject again file (view_formed t.now)) }
{
    if again {
        Some(2)
    } else if !t.forms || declares_nothing(&t.ctype) {
        Some(4)
    } else if has_wrong_sizes(structs, t) {
        Some(6)
    } else if is_shared(&t.ctype) && !file {
        Some(7)
    } else if lacks_members(structs, &t.ctype) || shares_private(structs, &t.ctype) {
        Some(8)
    } else {
        None
    }
}

/// A parameter.
pub fn parameter(structs: &Structs, again: bool, t: &Formed) -> Option<u8>
    ensures { (threads : ℕ) → result
        ≡ lowest (record { structs = view_structs structs.now; threads = threads })
        (nodes.Parameter again (view_formed t.now)) }
{
    if again {
        Some(2)
    } else if !t.forms || declares_nothing(&t.ctype) {
        Some(4)
    } else if has_wrong_dimensions(t) {
        Some(6)
    } else if is_shared(&t.ctype) && !is_array(&t.ctype) {
        Some(7)
    } else if is_array(&t.ctype) && lacks_members(structs, &t.ctype) {
        Some(8)
    } else {
        None
    }
}

/// Whether a list in braces may initialise an object of this type.
pub fn is_list_type(t: &CType) -> bool
    ensures { result ≡ r.is_list_type (view t.now) }
{
    is_array(t) && !is_nested(t) && !is_shared(t)
}

/// Whether a value is no constant expression.
pub fn is_variable(a: &Attr) -> bool
    ensures { result ≡ r.is_variable (view_attr a.now) }
{
    matches!(constant_of(a), Constant::Variable)
}

/// An initialiser without braces, of an object or of what is none.
pub fn initial_value(file: bool, object: bool, t: &CType, a: &Attr) -> Option<u8>
    ensures { (φ : Facts) → result ≡ lowest φ (nodes.InitialValue file object (view t.now) (view_attr a.now)) }
{
    if object && ((file && is_variable(a)) || is_array(t) || is_struct(t)) {
        Some(9)
    } else if !(object && converts(a, t)) {
        Some(12)
    } else {
        None
    }
}
