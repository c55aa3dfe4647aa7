//! What the members of structs are (C99 6.5.2.3, UPC 6.4.4).

ghost use Rattle.std.specs.Prelude.{◌≡◌, ℕ, ◌||◌, IfOk};
ghost use Rattle.upc_types.specs.Types as types;
ghost use Rattle.upc_types.specs.View.{view, view_base};
ghost use Rattle.upc_types.specs.ViewStructs.{view_structs};
ghost use Rattle.typing_rules.specs.layer.Views.{view_target};
ghost use Rattle.typing_rules_checks.specs.code.ViewFound.{view_found};
ghost use Rattle.typing_rules.specs.Values.{base_target};
ghost use Rattle.typing_rules.specs.Nodes as node;
ghost use Rattle.typing_rules.specs.Nodes.{view_attr};
ghost use Rattle.typing_rules.specs.Attributes as pure;
ghost use Rattle.typing_rules.specs.Attributes.{attr};

use crate::addresses::member_address;
use crate::attributes::int_value;
use std::alloc::Global;
use typing_rules::constants::{address_in, constant_of};
use typing_rules::types::target_of;
use typing_rules::{Attr, Constant, Form};
use upc_text::OutOfMemory;
use upc_types::{Base, CType, Structs, Target, copy_base};

/// A member with its number and the bytes before it.
#[derive(Clone, Copy)]
pub(crate) struct Found<'s> {
    pub index: u32,
    pub offset: u32,
    pub ctype: &'s CType,
}

/// What a member is, and its number.
#[derive(Drop)]
pub struct MemberNode {
    pub attr: Attr,
    pub index: u32,
}

fn find_in<'s>(structs: &'s Structs, number: u32, name: &[u8]) -> Option<Found<'s>>
    ensures { view_found result
        ≡ pure.find_member (view_structs structs.now) number 0
        (types.members_of (view_structs structs.now) number) name.now }
{
    match structs.member_named(number, name) {
        Some(index) => {
            let offset = structs.member_offset(number, index);
            let members = structs.members(number);
            Some(Found {
                index,
                offset,
                ctype: &members[index as usize].ctype,
            })
        }
        None => None,
    }
}

// A member of a struct of this type, by its name.
fn member_named<'s>(structs: &'s Structs, t: &CType, name: &[u8]) -> Option<Found<'s>>
    ensures { view_found result ≡ pure.member_named (view_structs structs.now) (view t.now) name.now }
{
    match &t.base {
        Base::Struct(number) => find_in(structs, *number, name),
        _ => None,
    }
}

fn member_block(block: Option<u32>) -> Option<u32>
    ensures { result ≡ pure.member_block block }
{
    match block {
        Some(_) => Some(0),
        None => None,
    }
}

// The elements of a member have the qualifiers of their struct.
fn spread(alloc: Global, struct_type: &CType, base: &Base) -> Result<Base, OutOfMemory>
    ensures { IfOk result (λ b. view_base b
        ≡ pure.spread struct_type.now.constant struct_type.now.shared struct_type.now.access (view_base base.now)) }
{
    match base {
        Base::Array(element, count) => {
            let inner = CType {
                base: spread(alloc, struct_type, &element.base)?,
                constant: struct_type.constant || element.constant,
                shared: member_block(struct_type.shared),
                access: struct_type.access,
            };
            Ok(Base::Array(Target::new(alloc, inner)?, *count))
        }
        other => copy_base(other),
    }
}

fn member_type(alloc: Global, struct_type: &CType, t: &CType) -> Result<CType, OutOfMemory>
    ensures { IfOk result (λ m. view m ≡ pure.member_type (view struct_type.now) (view t.now)) }
{
    Ok(CType {
        base: spread(alloc, struct_type, &t.base)?,
        constant: struct_type.constant || t.constant,
        shared: member_block(struct_type.shared),
        access: struct_type.access,
    })
}

// What a member of a struct of this type at this address is.
fn member_at(
    alloc: Global,
    struct_type: &CType,
    address: Constant,
    found: Found<'_>,
) -> Result<Attr, OutOfMemory>
    ensures { IfOk result (λ x. view_attr x
        ≡ pure.member_at (view struct_type.now) address (view_found (Some found.entry))) }
{
    Ok(Attr {
        ctype: member_type(alloc, struct_type, found.ctype)?,
        form: Form::Lvalue(member_address(address, found.offset)),
        constant: Constant::Variable,
    })
}

fn member_node(
    alloc: Global,
    structs: &Structs,
    t: &CType,
    address: Constant,
    name: &[u8],
) -> Result<MemberNode, OutOfMemory>
    ensures attr { IfOk result (λ x. view_attr x.attr
        ≡ pure.member_at (view t.now) address (pure.member_named (view_structs structs.now) (view t.now) name.now)) }
    ensures index { IfOk result (λ x. x.index
        ≡ pure.found_index (pure.member_named (view_structs structs.now) (view t.now) name.now)) }
{
    match member_named(structs, t, name) {
        Some(found) => Ok(MemberNode {
            attr: member_at(alloc, t, address, found)?,
            index: found.index,
        }),
        None => Ok(MemberNode {
            attr: int_value(),
            index: 0,
        }),
    }
}

/// `a.name`.
pub fn member_of(
    alloc: Global,
    structs: &Structs,
    a: &Attr,
    name: &[u8],
) -> Result<MemberNode, OutOfMemory>
    ensures attr { IfOk result (λ x. (threads : ℕ) → view_attr x.attr
        ≡ attr (record { structs = view_structs structs.now; threads = threads })
        (node.MemberOf (view_attr a.now) name.now)) }
    ensures index { IfOk result (λ x. x.index
        ≡ pure.found_index (pure.member_named (view_structs structs.now) (view a.now.ctype) name.now)) }
{
    member_node(alloc, structs, &a.ctype, address_in(a.form), name)
}

fn reached_behind(
    alloc: Global,
    structs: &Structs,
    target: Option<&CType>,
    address: Constant,
    name: &[u8],
) -> Result<MemberNode, OutOfMemory>
    ensures attr { IfOk result (λ x. view_attr x.attr
        ≡ pure.member_behind (view_structs structs.now) (view_target target.entry) address name.now) }
    ensures index { IfOk result (λ x. x.index
        ≡ pure.target_index (view_structs structs.now) (view_target target.entry) name.now) }
{
    match target {
        Some(t) => member_node(alloc, structs, t, address, name),
        None => Ok(MemberNode {
            attr: int_value(),
            index: 0,
        }),
    }
}

/// `a->name`.
pub fn member_behind(
    alloc: Global,
    structs: &Structs,
    a: &Attr,
    name: &[u8],
) -> Result<MemberNode, OutOfMemory>
    ensures attr { IfOk result (λ x. (threads : ℕ) → view_attr x.attr
        ≡ attr (record { structs = view_structs structs.now; threads = threads })
        (node.MemberBehind (view_attr a.now) name.now)) }
    ensures index { IfOk result (λ x. x.index
        ≡ pure.target_index (view_structs structs.now) (base_target (pure.base (view_attr a.now))) name.now) }
{
    reached_behind(alloc, structs, target_of(a), constant_of(a), name)
}
