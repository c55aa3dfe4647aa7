//! What each expression is to the node above it (C99 6.5).

ghost use Rattle.std.specs.Prelude.{◌≡◌, ℕ, Bool, false, List, Option, IfOk};
ghost use Rattle.integers.specs.Integers.{IsInteger};
ghost use Rattle.integers.specs.Operators.{unary_kind, binary_kind};
ghost use Rattle.upc_types.specs.Arithmetic.{usual};
ghost use Rattle.upc_types.specs.Types.{Pointer, Qualified};
ghost use Rattle.upc_types.specs.View.{view, view_base};
ghost use Rattle.typing_rules.specs.layer.Views.{view_meaning, view_use, view_target};
ghost use Rattle.typing_rules.specs.Library as library;
ghost use Rattle.typing_rules.specs.Values as values;
ghost use Rattle.typing_rules.specs.Constants as known;
ghost use Rattle.typing_rules.specs.Constants.{IsWithin};
ghost use Rattle.typing_rules.specs.Nodes as nodes;
ghost use Rattle.typing_rules.specs.Nodes.{view_attr};
ghost use Rattle.typing_rules.specs.Attributes as pure;
ghost use Rattle.typing_rules.specs.Attributes.{Facts, attr};

use crate::addresses::ALONE;
use crate::constants::{
    and_constant, binary_constant, choice_constant, or_constant, unary_constant,
};
use block_layout::{Kind, limits};
use integers::{BinOp, UnOp};
use std::alloc::Global;
use typing_rules::calls::is_allocation;
use typing_rules::constants::{address_in, cast_constant, constant_of, working_kind};
use typing_rules::names::constant_value;
use typing_rules::types::{base_kind, kind_of, target_of};
use typing_rules::{Attr, Constant, Element, Form, Home, Meaning, Static, Use};
use upc_text::OutOfMemory;
use upc_types::{Access, Base, CType, Target, copy_base, copy_type, promoted, usual};
use upc_values::LibraryCall;

pub(crate) fn plainly(base: Base) -> CType
    ensures { view result ≡ values.plainly (view_base base) }
{
    CType {
        base,
        constant: false,
        shared: None,
        access: Access::Unsaid,
    }
}

pub(crate) fn value(ctype: CType) -> Attr
    ensures { view_attr result ≡ pure.value (view ctype) }
{
    Attr {
        ctype,
        form: Form::Value,
        constant: Constant::Variable,
    }
}

pub(crate) fn constant(kind: Kind, c: Constant) -> Attr
    requires { IsWithin c }
    ensures { view_attr result ≡ pure.constant kind c }
{
    Attr {
        ctype: plainly(Base::Integer(kind)),
        form: Form::Value,
        constant: c,
    }
}

fn value_base(base: &Base) -> Result<Base, OutOfMemory>
    ensures { IfOk result (λ b. view_base b ≡ values.value_base (view_base base.now)) }
{
    match base {
        Base::Array(element, _) => Ok(Base::Pointer(element.copy()?)),
        other => copy_base(other),
    }
}

/// The type of a value of this type: an array is a pointer to its first element; no qualifiers.
pub fn value_type(t: &CType) -> Result<CType, OutOfMemory>
    ensures { IfOk result (λ v. view v ≡ values.value_type (view t.now)) }
{
    Ok(plainly(value_base(&t.base)?))
}

/// The same once more.
pub fn copy(a: &Attr) -> Result<Attr, OutOfMemory>
    ensures { IfOk result (λ x. view_attr x ≡ view_attr a.now) }
{
    Ok(Attr {
        ctype: copy_type(&a.ctype)?,
        form: a.form,
        constant: a.constant,
    })
}

/// `++`, `--`, an assignment or a comma expression, from the operand whose type it has.
pub fn value_of(a: &Attr) -> Result<Attr, OutOfMemory>
    ensures step { IfOk result (λ x. (φ : Facts) → view_attr x ≡ attr φ (nodes.Step (view_attr a.now))) }
    ensures assign { IfOk result (λ x. (φ : Facts) (b : nodes.Attr)
        → view_attr x ≡ attr φ (nodes.Assign (view_attr a.now) b)) }
    ensures comma { IfOk result (λ x. (φ : Facts) → view_attr x ≡ attr φ (nodes.Comma (view_attr a.now))) }
{
    Ok(value(value_type(&a.ctype)?))
}

/// A number of this kind.
pub fn number(kind: Kind, v: u64) -> Attr
    ensures { (φ : Facts) → view_attr result ≡ attr φ (nodes.Number kind v) }
{
    constant(kind, Constant::Known(i128::from(v)))
}

/// A character.
pub fn character(v: u8) -> Attr
    ensures { (φ : Facts) → view_attr result ≡ attr φ (nodes.Character v) }
{
    constant(Kind::Int, Constant::Known(i128::from(v)))
}

/// A string.
pub fn strings() -> Attr
    ensures { (φ : Facts) (how : nodes.Use) → view_attr result ≡ attr φ (nodes.Strings how) }
{
    Attr {
        ctype: plainly(Base::Integer(Kind::Int)),
        form: Form::Text,
        constant: Constant::Variable,
    }
}

pub(crate) fn int_value() -> Attr
    ensures { view_attr result ≡ pure.value library.int }
{
    value(plainly(Base::Integer(Kind::Int)))
}

/// `MYTHREAD`.
pub fn mythread() -> Attr
    ensures { (φ : Facts) → view_attr result ≡ attr φ nodes.Mythread }
{
    int_value()
}

/// `THREADS`.
pub fn threads(threads: u32) -> Attr
    ensures { (φ : Facts) → view_attr result ≡ attr φ (nodes.Threads threads) }
{
    constant(Kind::Int, Constant::Known(i128::from(threads)))
}

/// `UPC_MAX_BLOCK_SIZE`.
pub fn max_block_size() -> Attr
    ensures { (φ : Facts) → view_attr result ≡ attr φ nodes.MaxBlockSize }
{
    constant(Kind::Int, Constant::Known(i128::from(limits::SHARED_BYTES)))
}

fn unary_kind(op: UnOp, kind: Kind) -> Kind
    ensures { result ≡ unary_kind op kind }
{
    match op {
        UnOp::Not => Kind::Int,
        _ => kind,
    }
}

/// `+a`, `-a`, `~a` and `!a`.
pub fn unary(op: UnOp, a: &Attr) -> Attr
    ensures { (φ : Facts) → view_attr result ≡ attr φ (nodes.Unary op (view_attr a.now)) }
{
    match kind_of(a) {
        Some(kind) => constant(
            unary_kind(op, promoted(kind)),
            unary_constant(op, kind, a.constant),
        ),
        None => int_value(),
    }
}

/// `a && b`.
pub fn and(a: &Attr, b: &Attr) -> Attr
    ensures { (φ : Facts) → view_attr result ≡ attr φ (nodes.And (view_attr a.now) (view_attr b.now)) }
{
    constant(Kind::Int, and_constant(a.constant, b.constant))
}

/// `a || b`.
pub fn or(a: &Attr, b: &Attr) -> Attr
    ensures { (φ : Facts) → view_attr result ≡ attr φ (nodes.Or (view_attr a.now) (view_attr b.now)) }
{
    constant(Kind::Int, or_constant(a.constant, b.constant))
}

/// `&a`.
pub fn address(alloc: Global, a: &Attr) -> Result<Attr, OutOfMemory>
    ensures { IfOk result (λ x. (φ : Facts) → view_attr x ≡ attr φ (nodes.Address (view_attr a.now))) }
{
    let target = copy_type(&a.ctype)?;
    Ok(Attr {
        ctype: plainly(Base::Pointer(Target::new(alloc, target)?)),
        form: Form::Value,
        constant: address_in(a.form),
    })
}

pub(crate) fn object_at(target: Option<&CType>, address: Constant) -> Result<Attr, OutOfMemory>
    requires { IsWithin address }
    ensures { IfOk result (λ x. view_attr x ≡ pure.object_at (view_target target.entry) address) }
{
    match target {
        Some(t) => Ok(Attr {
            ctype: copy_type(t)?,
            form: Form::Lvalue(address),
            constant: Constant::Variable,
        }),
        None => Ok(int_value()),
    }
}

/// `*a`.
pub fn dereference(a: &Attr) -> Result<Attr, OutOfMemory>
    ensures { IfOk result (λ x. (φ : Facts) → view_attr x ≡ attr φ (nodes.Dereference (view_attr a.now))) }
{
    object_at(target_of(a), constant_of(a))
}

fn home_address(home: Home) -> Constant
    ensures value { result ≡ pure.home_address home }
    ensures within { IsWithin result }
{
    match home {
        Home::Private(object) => Constant::Address(Static::Private { object, offset: 0 }, ALONE),
        Home::Shared(object) => Constant::Address(
            Static::Shared {
                object,
                thread: 0,
                phase: 0,
                offset: 0,
            },
            ALONE,
        ),
        Home::Local(_) => Constant::Variable,
    }
}

fn callable() -> Attr
    ensures { view_attr result ≡ record { ctype = library.int; form = Form.Callable; constant = Constant.Variable } }
{
    Attr {
        ctype: plainly(Base::Integer(Kind::Int)),
        form: Form::Callable,
        constant: Constant::Variable,
    }
}

/// A name.
pub fn name(meaning: Meaning<'_>) -> Result<Attr, OutOfMemory>
    ensures { IfOk result (λ x. (φ : Facts) (how : nodes.Use) → view_attr x
        ≡ attr φ (nodes.Name how (view_meaning meaning.entry))) }
{
    match meaning {
        Meaning::Unknown => Ok(int_value()),
        Meaning::Object(t, home) => Ok(Attr {
            ctype: copy_type(t)?,
            form: Form::Lvalue(home_address(home)),
            constant: Constant::Variable,
        }),
        Meaning::Function(_) | Meaning::Library(_) => Ok(callable()),
        Meaning::Named(c) => Ok(constant(
            Kind::Int,
            Constant::Known(i128::from(constant_value(c))),
        )),
    }
}

fn pointer_to(alloc: Global, base: Base, shared: Option<u32>) -> Result<CType, OutOfMemory>
    ensures { IfOk result (λ t. view t
        ≡ values.plainly (Pointer (Qualified (view_base base) false shared Access.Unsaid))) }
{
    let target = CType {
        base,
        constant: false,
        shared,
        access: Access::Unsaid,
    };
    Ok(plainly(Base::Pointer(Target::new(alloc, target)?)))
}

fn call_result(alloc: Global, call: LibraryCall) -> Result<CType, OutOfMemory>
    ensures { IfOk result (λ t. view t ≡ library.call_result call) }
{
    match call {
        LibraryCall::Printf | LibraryCall::LockAttempt => Ok(plainly(Base::Integer(Kind::Int))),
        LibraryCall::ThreadOf
        | LibraryCall::PhaseOf
        | LibraryCall::AddressField
        | LibraryCall::AffinitySize => Ok(plainly(Base::Integer(Kind::ULong))),
        LibraryCall::GlobalAlloc | LibraryCall::AllAlloc | LibraryCall::Alloc => {
            pointer_to(alloc, Base::Void, Some(1))
        }
        LibraryCall::GlobalLockAlloc | LibraryCall::AllLockAlloc => {
            pointer_to(alloc, Base::LockObject, None)
        }
        _ => Ok(plainly(Base::Void)),
    }
}

fn allocated(how: Use<'_>) -> Result<CType, OutOfMemory>
    ensures { IfOk result (λ t. view t ≡ pure.allocated (view_use how.entry)) }
{
    match how {
        Use::Into(t) => value_type(t),
        _ => Ok(plainly(Base::Integer(Kind::Int))),
    }
}

fn library_given(alloc: Global, how: Use<'_>, call: LibraryCall) -> Result<CType, OutOfMemory>
    ensures { IfOk result (λ t. view t ≡ pure.library_given (view_use how.entry) call) }
{
    if is_allocation(call) {
        allocated(how)
    } else {
        call_result(alloc, call)
    }
}

fn given(alloc: Global, how: Use<'_>, meaning: Meaning<'_>) -> Result<CType, OutOfMemory>
    ensures { IfOk result (λ t. view t ≡ pure.given (view_use how.entry) (view_meaning meaning.entry)) }
{
    match meaning {
        Meaning::Function(s) => value_type(&s.result),
        Meaning::Library(call) => library_given(alloc, how, call),
        _ => Ok(plainly(Base::Integer(Kind::Int))),
    }
}

/// A call of what a name stands for, used so.
pub fn call(alloc: Global, how: Use<'_>, meaning: Meaning<'_>) -> Result<Attr, OutOfMemory>
    ensures { IfOk result
        (λ x. (φ : Facts) (runs : Bool) (format : Option (List ℕ)) (args : List nodes.Attr) →
        view_attr x ≡ attr φ (nodes.Call (view_use how.entry) (view_meaning meaning.entry) runs format args)) }
{
    Ok(value(given(alloc, how, meaning)?))
}

fn cast_place(from: Option<u32>, into: Option<u32>, element: Element, p: Static) -> Constant
    ensures value { result ≡ known.cast_place from into element p }
    ensures within { IsWithin result }
{
    match (p, from, into) {
        (Static::Private { object, offset }, _, _) => {
            Constant::Address(Static::Private { object, offset }, element)
        }
        (
            Static::Shared {
                object,
                thread,
                phase,
                offset,
            },
            Some(b),
            Some(c),
        ) => Constant::Address(
            Static::Shared {
                object,
                thread,
                phase: if b == c { phase } else { 0 },
                offset,
            },
            element,
        ),
        _ => Constant::Variable,
    }
}

fn cast_address(from: Option<u32>, into: Option<u32>, x: Constant) -> Constant
    ensures value { result ≡ known.cast_address from into x }
    ensures within { IsWithin result }
{
    match x {
        Constant::Address(p, element) => cast_place(from, into, element, p),
        Constant::Known(v) => {
            if v == 0 {
                Constant::Null
            } else {
                Constant::Variable
            }
        }
        other => other,
    }
}

fn target_block(target: Option<&CType>) -> Option<u32>
    ensures { result ≡ pure.target_block (view_target target.entry) }
{
    match target {
        Some(t) => t.shared,
        None => None,
    }
}

fn cast_pointer(target: Option<&CType>, a: &Attr) -> Constant
    ensures value { result ≡ pure.cast_pointer (view_target target.entry) (view_attr a.now) }
    ensures within { IsWithin result }
{
    match target {
        Some(t) => cast_address(target_block(target_of(a)), t.shared, constant_of(a)),
        None => Constant::Variable,
    }
}

fn cast_by(t: &CType, a: &Attr) -> Constant
    ensures value { result
        ≡ pure.cast_by (values.value_type (view t.now))
        (values.base_kind (values.value_base (view_base t.now.base))) (view_attr a.now) }
    ensures within { IsWithin result }
{
    match base_kind(&t.base) {
        Some(kind) => cast_constant(kind, a.constant),
        None => cast_pointer(target_in(&t.base), a),
    }
}

fn target_in(base: &Base) -> Option<&CType>
    ensures { view_target result ≡ values.base_target (values.value_base (view_base base.now)) }
{
    match base {
        Base::Pointer(target) => Some(target),
        Base::Array(element, _) => Some(element),
        _ => None,
    }
}

/// A cast to this type.
pub fn cast(t: &CType, a: &Attr) -> Result<Attr, OutOfMemory>
    ensures { IfOk result (λ x. view_attr x ≡ pure.cast_attr (values.value_type (view t.now)) (view_attr a.now)) }
{
    let constant = cast_by(t, a);
    Ok(Attr {
        ctype: value_type(t)?,
        form: Form::Value,
        constant,
    })
}

fn binary_kind(op: BinOp, kind: Kind) -> Kind
    ensures { result ≡ binary_kind op kind }
{
    match op {
        BinOp::Less
        | BinOp::Greater
        | BinOp::LessEqual
        | BinOp::GreaterEqual
        | BinOp::Equal
        | BinOp::NotEqual => Kind::Int,
        _ => kind,
    }
}

/// A binary operator on two integers, as on what is none.
pub fn arithmetic(op: BinOp, a: &Attr, b: &Attr) -> Attr
    ensures { view_attr result
        ≡ pure.arithmetic_attr op (values.base_kind (pure.base (view_attr a.now)))
        (values.base_kind (pure.base (view_attr b.now))) a.now.constant b.now.constant }
{
    match (kind_of(a), kind_of(b)) {
        (Some(j), Some(k)) => constant(
            binary_kind(op, working_kind(op, j, k)),
            binary_constant(op, j, k, a.constant, b.constant),
        ),
        _ => int_value(),
    }
}

fn integer_choice(j: Kind, k: Kind, test: Constant, a: Constant, b: Constant) -> Attr
    requires left { IsInteger j }
    requires right { IsInteger k }
    ensures { view_attr result ≡ pure.constant (usual j k) (known.choice_constant (usual j k) test a b) }
{
    let kind = usual(j, k);
    constant(kind, choice_constant(kind, test, a, b))
}

fn plain_value(t: &CType) -> Result<Attr, OutOfMemory>
    ensures { IfOk result (λ x. view_attr x ≡ pure.value (values.value_type (view t.now))) }
{
    Ok(value(value_type(t)?))
}

fn other_choice(a: &Attr, b: &Attr) -> Result<Attr, OutOfMemory>
    ensures { IfOk result (λ x. view_attr x
        ≡ pure.other_choice (view_attr a.now) (view_attr b.now) (values.base_target (pure.base (view_attr a.now)))) }
{
    match target_of(a) {
        Some(_) => plain_value(&a.ctype),
        None => plain_value(&b.ctype),
    }
}

/// `test ? a : b`.
pub fn conditional(test: &Attr, a: &Attr, b: &Attr) -> Result<Attr, OutOfMemory>
    ensures { IfOk result (λ x. (φ : Facts) → view_attr x
        ≡ attr φ (nodes.Conditional (view_attr test.now) (view_attr a.now) (view_attr b.now))) }
{
    match (kind_of(a), kind_of(b)) {
        (Some(j), Some(k)) => Ok(integer_choice(j, k, test.constant, a.constant, b.constant)),
        _ => other_choice(a, b),
    }
}
