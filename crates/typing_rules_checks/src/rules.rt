//! The lowest typing rule that each node of an expression breaks.

ghost use Rattle.std.specs.Prelude.{◌≡◌, ℕ, Option};
ghost use Rattle.upc_types.specs.View.{view};
ghost use Rattle.upc_types.specs.ViewStructs.{view_structs};
ghost use Rattle.typing_rules.specs.layer.Views.{view_meaning, view_use, view_formed};
ghost use Rattle.typing_rules.specs.Nodes as nodes;
ghost use Rattle.typing_rules.specs.Nodes.{view_attr};
ghost use Rattle.typing_rules.specs.Attributes.{Facts};
ghost use Rattle.typing_rules.specs.Rules as rules;
ghost use Rattle.typing_rules.specs.Rules.{lowest};

use crate::conversion::{casts, converts};
use integers::{BinOp, UnOp};
use typing_rules::types::{
    are_locks, counts, gives_void, is_array, is_lock, is_loose, is_lvalue, is_modifiable,
    is_nested, is_scalar, is_shared, is_struct, is_void_type, is_zero, leads_nowhere,
    leads_to_array, points, same_pointers, targets_differ,
};
use typing_rules::{Attr, Formed, Meaning, SizeOperator, Use};
use upc_types::{CType, Structs};

fn takes_rows(how: Use<'_>) -> bool
    ensures { result ≡ rules.takes_rows (view_use how.entry) }
{
    matches!(how, Use::Indexed | Use::Measured)
}

fn is_called(how: Use<'_>) -> bool
    ensures { result ≡ rules.is_called (view_use how.entry) }
{
    matches!(how, Use::Called)
}

/// A name that is used so.
pub fn name(how: Use<'_>, meaning: Meaning<'_>) -> Option<u8>
    ensures { (φ : Facts) → result ≡ lowest φ (nodes.Name (view_use how.entry) (view_meaning meaning.entry)) }
{
    match meaning {
        Meaning::Unknown => Some(1),
        Meaning::Function(_) | Meaning::Library(_) => {
            if is_called(how) { None } else { Some(11) }
        }
        Meaning::Object(t, _) => {
            if is_nested(t) && !takes_rows(how) {
                Some(18)
            } else {
                None
            }
        }
        Meaning::Named(_) => None,
    }
}

/// A string that is used so.
pub fn strings(how: Use<'_>) -> Option<u8>
    ensures { (φ : Facts) → result ≡ lowest φ (nodes.Strings (view_use how.entry)) }
{
    match how {
        Use::Prints => None,
        _ => Some(30),
    }
}

/// `a[i]`.
pub fn subscript(structs: &Structs, how: Use<'_>, a: &Attr, i: &Attr) -> Option<u8>
    ensures { (threads : ℕ) → result
        ≡ lowest (record { structs = view_structs structs.now; threads = threads })
        (nodes.Subscript (view_use how.entry) (view_attr a.now) (view_attr i.now)) }
{
    if gives_void(a) || gives_void(i) || (points(a) && !counts(i)) {
        Some(14)
    } else if is_loose(structs, a) {
        Some(15)
    } else if !points(a) || (leads_to_array(a) && !takes_rows(how)) {
        Some(18)
    } else {
        None
    }
}

/// `++` and `--`.
pub fn step(structs: &Structs, a: &Attr) -> Option<u8>
    ensures { (threads : ℕ) → result
        ≡ lowest (record { structs = view_structs structs.now; threads = threads }) (nodes.Step (view_attr a.now)) }
{
    if !is_modifiable(a) {
        Some(13)
    } else if !is_scalar(a) {
        Some(14)
    } else if is_loose(structs, a) {
        Some(15)
    } else {
        None
    }
}

/// `&a`.
pub fn address(a: &Attr) -> Option<u8>
    ensures { (φ : Facts) → result ≡ lowest φ (nodes.Address (view_attr a.now)) }
{
    if gives_void(a) {
        Some(14)
    } else if !is_lvalue(a) || is_array(&a.ctype) {
        Some(20)
    } else {
        None
    }
}

/// `*a`.
pub fn dereference(a: &Attr) -> Option<u8>
    ensures { (φ : Facts) → result ≡ lowest φ (nodes.Dereference (view_attr a.now)) }
{
    if gives_void(a) || leads_nowhere(a) {
        Some(14)
    } else if !points(a) {
        Some(18)
    } else {
        None
    }
}

fn fits_unary(op: UnOp, a: &Attr) -> bool
    ensures { result ≡ rules.fits_unary op (view_attr a.now) }
{
    match op {
        UnOp::Not => is_scalar(a),
        _ => counts(a),
    }
}

/// `+a`, `-a`, `~a` and `!a`.
pub fn unary(op: UnOp, a: &Attr) -> Option<u8>
    ensures { (φ : Facts) → result ≡ lowest φ (nodes.Unary op (view_attr a.now)) }
{
    if fits_unary(op, a) { None } else { Some(14) }
}

fn is_plain_size(op: SizeOperator) -> bool
    ensures { result ≡ rules.is_plain_size op }
{
    matches!(op, SizeOperator::Bytes)
}

pub(crate) fn has_no_size(structs: &Structs, op: SizeOperator, t: &CType) -> bool
    ensures { result ≡ rules.has_no_size (view_structs structs.now) op (view t.now) }
{
    structs.layout_of(&t.base).is_none() || !(is_plain_size(op) || is_shared(t))
}

/// A size operator on an expression.
pub fn size_of(structs: &Structs, op: SizeOperator, a: &Attr) -> Option<u8>
    ensures { (threads : ℕ) → result
        ≡ lowest (record { structs = view_structs structs.now; threads = threads })
        (nodes.SizeOf op (view_attr a.now)) }
{
    if has_no_size(structs, op, &a.ctype) {
        Some(21)
    } else {
        None
    }
}

/// A cast.
pub fn cast(t: &Formed, a: &Attr) -> Option<u8>
    ensures { (φ : Facts) → result ≡ lowest φ (nodes.Cast (view_formed t.now) (view_attr a.now)) }
{
    if !t.forms || is_lock(&t.ctype) {
        Some(4)
    } else if gives_void(a) && !is_void_type(&t.ctype) {
        Some(14)
    } else if !casts(a, &t.ctype) {
        Some(17)
    } else {
        None
    }
}

fn adds(a: &Attr, b: &Attr) -> bool
    ensures { result ≡ rules.adds (view_attr a.now) (view_attr b.now) }
{
    (counts(a) || points(a)) && (counts(b) || points(b)) && !(points(a) && points(b))
}

fn subtracts(a: &Attr, b: &Attr) -> bool
    ensures { result ≡ rules.subtracts (view_attr a.now) (view_attr b.now) }
{
    (counts(a) && counts(b)) || (points(a) && is_scalar(b))
}

fn orders(a: &Attr, b: &Attr) -> bool
    ensures { result ≡ rules.orders (view_attr a.now) (view_attr b.now) }
{
    (counts(a) && counts(b)) || (points(a) && points(b))
}

fn equates(a: &Attr, b: &Attr) -> bool
    ensures { result ≡ rules.equates (view_attr a.now) (view_attr b.now) }
{
    orders(a, b) || (points(a) && is_zero(b)) || (is_zero(a) && points(b))
}

fn fits(op: BinOp, a: &Attr, b: &Attr) -> bool
    ensures { result ≡ rules.fits op (view_attr a.now) (view_attr b.now) }
{
    match op {
        BinOp::Add => adds(a, b),
        BinOp::Subtract => subtracts(a, b),
        BinOp::Less | BinOp::Greater | BinOp::LessEqual | BinOp::GreaterEqual => orders(a, b),
        BinOp::Equal | BinOp::NotEqual => equates(a, b),
        _ => counts(a) && counts(b),
    }
}

fn moves(op: BinOp) -> bool
    ensures { result ≡ rules.moves op }
{
    matches!(op, BinOp::Add | BinOp::Subtract)
}

fn is_difference(op: BinOp) -> bool
    ensures { result ≡ rules.is_difference op }
{
    matches!(op, BinOp::Subtract)
}

fn is_order(op: BinOp) -> bool
    ensures { result ≡ rules.is_order op }
{
    matches!(
        op,
        BinOp::Less | BinOp::Greater | BinOp::LessEqual | BinOp::GreaterEqual
    )
}

fn compares(op: BinOp) -> bool
    ensures { result ≡ rules.compares op }
{
    matches!(
        op,
        BinOp::Subtract
            | BinOp::Equal
            | BinOp::NotEqual
            | BinOp::Less
            | BinOp::Greater
            | BinOp::LessEqual
            | BinOp::GreaterEqual
    )
}

fn moves_loosely(structs: &Structs, op: BinOp, a: &Attr, b: &Attr) -> bool
    ensures { result ≡ rules.moves_loosely (view_structs structs.now) op (view_attr a.now) (view_attr b.now) }
{
    moves(op)
        && (is_loose(structs, a) || is_loose(structs, b))
        && !(is_difference(op) && are_locks(a, b))
}

fn mismatches(op: BinOp, a: &Attr, b: &Attr) -> bool
    ensures { result ≡ rules.mismatches op (view_attr a.now) (view_attr b.now) }
{
    (compares(op) && targets_differ(a, b))
        || ((is_order(op) || is_difference(op)) && are_locks(a, b))
}

/// A binary operator other than `&&` and `||`.
pub fn binary(structs: &Structs, op: BinOp, a: &Attr, b: &Attr) -> Option<u8>
    ensures { (threads : ℕ) → result
        ≡ lowest (record { structs = view_structs structs.now; threads = threads })
        (nodes.Binary op (view_attr a.now) (view_attr b.now)) }
{
    if !fits(op, a, b) {
        Some(14)
    } else if moves_loosely(structs, op, a, b) {
        Some(15)
    } else if mismatches(op, a, b) {
        Some(16)
    } else {
        None
    }
}

/// `a && b` and `a || b`.
pub fn logical(a: &Attr, b: &Attr) -> Option<u8>
    ensures and { (φ : Facts) → result ≡ lowest φ (nodes.And (view_attr a.now) (view_attr b.now)) }
    ensures or { (φ : Facts) → result ≡ lowest φ (nodes.Or (view_attr a.now) (view_attr b.now)) }
{
    if is_scalar(a) && is_scalar(b) {
        None
    } else {
        Some(14)
    }
}

/// `a = b`.
pub fn assign(a: &Attr, b: &Attr) -> Option<u8>
    ensures { (φ : Facts) → result ≡ lowest φ (nodes.Assign (view_attr a.now) (view_attr b.now)) }
{
    if gives_void(b) || (!(is_array(&a.ctype) || is_struct(&a.ctype)) && !converts(b, &a.ctype)) {
        Some(12)
    } else if !is_modifiable(a) {
        Some(13)
    } else {
        None
    }
}

fn fits_compound(op: BinOp, a: &Attr, b: &Attr) -> bool
    ensures { result ≡ rules.fits_compound op (view_attr a.now) (view_attr b.now) }
{
    match op {
        BinOp::Add | BinOp::Subtract => is_scalar(a) && counts(b),
        _ => counts(a) && counts(b),
    }
}

/// A compound assignment.
pub fn compound(structs: &Structs, op: BinOp, a: &Attr, b: &Attr) -> Option<u8>
    ensures { (threads : ℕ) → result
        ≡ lowest (record { structs = view_structs structs.now; threads = threads })
        (nodes.Compound op (view_attr a.now) (view_attr b.now)) }
{
    if !is_modifiable(a) {
        Some(13)
    } else if !fits_compound(op, a, b) {
        Some(14)
    } else if moves(op) && is_loose(structs, a) {
        Some(15)
    } else {
        None
    }
}

fn chooses(a: &Attr, b: &Attr) -> bool
    ensures { result ≡ rules.chooses (view_attr a.now) (view_attr b.now) }
{
    (counts(a) && counts(b))
        || (gives_void(a) && gives_void(b))
        || same_pointers(a, b)
        || (points(a) && is_zero(b))
        || (is_zero(a) && points(b))
}

/// `test ? a : b`.
pub fn conditional(test: &Attr, a: &Attr, b: &Attr) -> Option<u8>
    ensures { (φ : Facts) → result
        ≡ lowest φ (nodes.Conditional (view_attr test.now) (view_attr a.now) (view_attr b.now)) }
{
    if is_scalar(test) && chooses(a, b) {
        None
    } else {
        Some(14)
    }
}

/// A list of expressions, by its last one.
pub fn comma(last: &Attr) -> Option<u8>
    ensures { (φ : Facts) → result ≡ lowest φ (nodes.Comma (view_attr last.now)) }
{
    if is_struct(&last.ctype) {
        Some(14)
    } else {
        None
    }
}
