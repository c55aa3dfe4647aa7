//! The private objects of a file, and what they begin with.

ghost use Rattle.std.specs.Prelude.{◌≡◌, ◌≤◌, ◌++◌, ◌∷◌, [], true, length, map, take, OnOk, IfOk, vec_len};
ghost use Rattle.typing_rules.specs.Attributes.{constant_of};
ghost use Rattle.typed_tree.specs.ViewTree.{attr_seen};
ghost use Rattle.block_layout.specs.declared.kind.Shape.{Shape};
ghost use Rattle.upc_values.specs.Lists.{Each};
ghost use Rattle.upc_types.specs.Cells.{object_shape};
ghost use Rattle.upc_types.specs.Types.{base_of};
ghost use Rattle.upc_types.specs.View.{view_base};
ghost use Rattle.upc_types.specs.ViewStructs.{view_structs};
ghost use Rattle.typing_rules.specs.Rules.{has_size};
ghost use Rattle.typed_tree.specs.Initials as pure;
ghost use Rattle.typed_tree_opening.specs.code.ViewSettings.{view_setting};
ghost use Rattle.typed_tree.specs.Objects.{private_in};
ghost use Rattle.typed_tree.specs.ViewStatements.{view_initial, view_object};

use crate::objects::is_private;
use crate::setting::Setting;
use crate::values::{scalar_kind, value_in};
use block_layout::{Kind, LocalPtr, Shape};
use std::alloc::Global;
use typed_tree::{Expr, Initial, Object};
use typing_rules::Constant;
use typing_rules::constants::constant_of;
use upc_text::OutOfMemory;
use upc_types::{Base, Structs, object_shape};
use upc_values::Value;

/// The shapes of the private objects among these.
#[tactic(auto, using(crate::proofs::Chosen::private_objects))]
pub(crate) fn private_shapes(
    alloc: Global,
    structs: &Structs,
    objects: &[Object],
) -> Result<Vec<Shape>, OutOfMemory>
    requires layouts { Each (λ x. has_size (view_structs structs.now) x.ctype ≡ true) (map view_object objects.now) }
    ensures { IfOk result (λ xs. xs.items
        ≡ map (λ x. object_shape (view_structs structs.now) (base_of x.ctype))
        (private_in (map view_object objects.now))) }
{
    let mut shapes = Vec::new(alloc);
    for object in objects {
        if is_private(object.home) {
            shapes.push(object_shape(alloc, &object.ctype, structs)?)?;
        }
    }
    Ok(shapes)
}

// The constants of a list, as many as an array has elements.
fn listed(alloc: Global, values: &[Expr], count: u32) -> Result<Vec<Constant>, OutOfMemory>
    ensures value { IfOk result (λ xs. xs.items ≡ map (λ e. constant_of (attr_seen e)) (take count values.now)) }
    ensures few { IfOk result (λ xs. vec_len xs ≤ count) }
{
    let mut constants = Vec::new(alloc);
    for e in values {
        if constants.len() == count as usize {
            return Ok(constants);
        }
        constants.push(constant_of(&e.attr))?;
    }
    Ok(constants)
}

// The constants of an initialiser.
fn constants_in(alloc: Global, base: &Base, initial: &Initial) -> Result<Vec<Constant>, OutOfMemory>
    ensures value { IfOk result (λ xs. xs.items ≡ pure.constants_in (view_base base.now) (view_initial initial.now)) }
    ensures few { IfOk result (λ xs. vec_len xs ≤ 4294967295) }
{
    match (base, initial) {
        (Base::Array(_, count), Initial::List(values)) => listed(alloc, values.as_slice(), *count),
        (Base::Array(_, _), _) => Ok(Vec::new(alloc)),
        (_, Initial::Value(e)) => one(alloc, constant_of(&e.attr)),
        _ => Ok(Vec::new(alloc)),
    }
}

fn one(alloc: Global, constant: Constant) -> Result<Vec<Constant>, OutOfMemory>
    ensures { IfOk result (λ xs. xs.items ≡ constant ∷ []) }
{
    let mut constants = Vec::new(alloc);
    constants.push(constant)?;
    Ok(constants)
}

// What has these values: the elements of an array, or the object.
fn part_of(base: &Base) -> &Base
    ensures { view_base result.now ≡ pure.part_of (view_base base.now) }
{
    match base {
        Base::Array(element, _) => &element.base,
        _ => base,
    }
}

// Adds the values of cells of one kind.
fn push_cells(
    initials: &mut Vec<(LocalPtr, Value)>,
    setting: &Setting<'_>,
    object: u64,
    kind: Kind,
    constants: &[Constant],
) -> Result<(), OutOfMemory>
    requires { length constants.now ≤ 4294967295 }
    ensures { OnOk result (initials.new.items ≡ initials.old.items
        ++ pure.cells_from (view_setting setting.now) object kind 0 constants.now) }
{
    let mut offset: i64 = 0;
    for constant in constants {
        let cell = LocalPtr::Private { object, offset };
        initials.push((cell, value_in(setting, kind, *constant)))?;
        offset += i64::from(kind.size());
    }
    Ok(())
}

// Adds the values of a private object.
fn push_object(
    alloc: Global,
    initials: &mut Vec<(LocalPtr, Value)>,
    setting: &Setting<'_>,
    number: u64,
    object: &Object,
) -> Result<(), OutOfMemory>
    ensures { OnOk result (initials.new.items ≡ initials.old.items
        ++ pure.cells_in (view_setting setting.now) number
        (pure.scalar_kind (view_setting setting.now).structs.targets (pure.part_of (view_base object.now.ctype.base)))
        (pure.constants_in (view_base object.now.ctype.base) (view_initial object.now.initial))) }
{
    let base = &object.ctype.base;
    if let Some(kind) = scalar_kind(setting.structs, part_of(base)) {
        let constants = constants_in(alloc, base, &object.initial)?;
        push_cells(initials, setting, number, kind, constants.as_slice())?;
    }
    Ok(())
}

/// What the private objects among these begin with.
#[tactic(auto, using(crate::proofs::Chosen::private_walk))]
pub(crate) fn private_initials(
    alloc: Global,
    setting: &Setting<'_>,
    objects: &[Object],
) -> Result<Vec<(LocalPtr, Value)>, OutOfMemory>
    ensures { IfOk result (λ xs. xs.items
        ≡ pure.private_from (view_setting setting.now) 0 (private_in (map view_object objects.now))) }
{
    let mut initials = Vec::new(alloc);
    let mut number = 0;
    for object in objects {
        if is_private(object.home) {
            push_object(alloc, &mut initials, setting, number, object)?;
            number += 1;
        }
    }
    Ok(initials)
}
