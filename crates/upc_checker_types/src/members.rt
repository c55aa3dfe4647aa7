//! The members of a struct and the parameters of a function, one by one.

ghost use Rattle.std.specs.Prelude.{◌≡◌, ◌||◌, ℕ, nat_eq, is_some, List, [], OnOk, OnErr, map};
ghost use Rattle.std.specs.Cmp.Lexicographic.{pointwise};
ghost use Rattle.upc_types.specs.layer.Named.{at_name};
ghost use Rattle.upc_types.specs.View.{view, view_member};
ghost use Rattle.typed_tree.specs.layer.ViewEnv.{view_env};
ghost use Rattle.upc_checker_types.specs.Members as pure;

use crate::shaped::adjusted;
use std::alloc::Global;
use std::collections::BTreeMap;
use typed_tree::env::{Env, declare, declare_unnamed};
use upc_text::{OutOfMemory, Text};
use upc_tree::Name;
use upc_types::{CType, Member, copy_type};

/// The members of a struct in order, and the number of the latest member of each name. A tree, since no choice of names
/// makes it slow.
#[derive(Drop)]
pub struct Members {
    all: Vec<Member>,
    numbers: BTreeMap<Vec<u8>, usize>,
    ghost named: { pure.AreNamed numbers (λ k. k.items) (map view_member all.items) },
}

// Keeps the number of the latest member of a name.
fn note(
    numbers: &mut BTreeMap<Vec<u8>, usize>,
    name: Vec<u8>,
    number: usize,
) -> Result<(), OutOfMemory>
    ensures ok { OnOk result ((q : List ℕ) → is_some (at_name numbers.new (λ k. k.items) q)
        ≡ (pointwise nat_eq name.items q || is_some (at_name numbers.old (λ k. k.items) q))) }
    ensures err { OnErr result ((q : List ℕ) → is_some (at_name numbers.new (λ k. k.items) q)
        ≡ is_some (at_name numbers.old (λ k. k.items) q)) }
{
    numbers.insert(name, number)?;
    Ok(())
}

/// A struct that has no member yet.
pub fn no_members(alloc: Global) -> Members
    ensures { map view_member result.all.items ≡ [] }
{
    Members {
        all: Vec::new(alloc),
        numbers: BTreeMap::new(alloc),
    }
}

/// Whether one of these members has that name.
pub fn has_member(members: &Members, name: &[u8]) -> bool
    ensures { result ≡ pure.has_member (map view_member members.now.all.items) name.now }
{
    members.numbers.contains_key(name)
}

/// One more member.
pub fn add_member(
    alloc: Global,
    members: &mut Members,
    name: &[u8],
    t: CType,
) -> Result<(), OutOfMemory>
    ensures { OnOk result (map view_member members.new.all.items ≡ pure.with_member (map view_member
        members.old.all.items) name.now (view t)) }
{
    let text = Text::from_slice(alloc, name)?;
    let key = Vec::from_slice(alloc, name)?;
    let number = members.all.len();
    members.all.reserve(1)?;
    note(&mut members.numbers, key, number)?;
    members
        .all
        .push(Member {
            name: text,
            ctype: t,
        })
        .unwrap();
    Ok(())
}

/// The members in order.
pub fn all_members(members: Members) -> Vec<Member>
    ensures { result.items ≡ members.all.items }
{
    members.all
}

/// One more parameter, declared in its scope.
pub fn add_parameter(
    types: &mut Vec<CType>,
    scope: &mut Env<'_>,
    name: Option<Name>,
    t: &CType,
) -> Result<(), OutOfMemory>
    ensures { OnOk result (record { types = map view types.new.items; scope = view_env scope.new } ≡
        pure.with_parameter (record {
          types = map view types.old.items;
          scope = view_env scope.old;
        }) name (view t.now)) }
{
    let t = adjusted(t)?;
    match name {
        None => declare_unnamed(scope, &t)?,
        Some(name) => declare(scope, name.number, copy_type(&t)?)?,
    }
    types.push(t)?;
    Ok(())
}
