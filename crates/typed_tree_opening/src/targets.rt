//! The numbers of the types of pointers in objects.

ghost use Rattle.std.specs.Prelude.{◌≡◌, ◌≢◌, ◌++◌, ◌∷◌, [], ℕ, List, true, false, IfOk, OnOk, map, get_or};
ghost use Rattle.upc_types.specs.Cells.{leaf_base};
ghost use Rattle.upc_types.specs.Types as pure_types;
ghost use Rattle.upc_types.specs.View.{view, view_base};
ghost use Rattle.upc_types.specs.ViewStructs.{view_structs};
ghost use Rattle.upc_values.specs.Lists.{Each};
ghost use Rattle.typing_rules.specs.Rules.{has_size};
ghost use Rattle.typed_tree.specs.Objects.{type_of};
ghost use Rattle.typed_tree.specs.Targets as pure;
ghost use Rattle.typed_tree.specs.ViewStatements.{view_object};
ghost use Rattle.typed_tree_opening.specs.code.Pending.{leaf_found, with_leaf, with_pending, AreEnded, IsDone};

use std::alloc::Global;
use typed_tree::Object;
use upc_text::OutOfMemory;
use upc_types::{Base, CType, Structs, copy_type, is_marked, leaf_of};

/// A struct of whose members those from one on are still to come.
#[derive(Clone, Copy)]
struct Pending {
    number: u32,
    member: usize,
}

/// What the leaf elements of an object hold: the target of a pointer, or a struct.
#[derive(Drop)]
enum Leaf {
    Target(CType),
    Inside(u32),
    Plain,
}

// What the leaf elements of an object hold.
fn leaf_in(base: &Base) -> Result<Leaf, OutOfMemory>
    ensures { IfOk result (λ leaf. (structs : ℕ → List pure_types.CType) → leaf_found structs leaf
        ≡ pure.leaf_targets structs (leaf_base (view_base base.now))) }
{
    match leaf_of(base) {
        Base::Pointer(target) => Ok(Leaf::Target(copy_type(target)?)),
        Base::Struct(number) => Ok(Leaf::Inside(*number)),
        Base::Void | Base::Integer(_) | Base::Array(_, _) | Base::LockObject => Ok(Leaf::Plain),
    }
}

/// One more struct is done. One that is past the end stays as it is: it is gone through again.
pub(crate) fn mark_done(done: &mut [bool], number: u32)
    ensures { (n : ℕ) → get_or done.new n false ≡ true → n ≢ number → get_or done.old n false ≡ true }
{
    if (number as usize) < done.len() {
        done[number as usize] = true;
    }
}

// Gives the target of a pointer a number. A struct is to come next, but where it is done.
fn note_leaf(
    structs: &mut Structs,
    done: &[bool],
    pending: &mut Vec<Pending>,
    leaf: Leaf,
) -> Result<(), OutOfMemory>
    requires done { IsDone (view_structs structs.old) done.now }
    requires ended { AreEnded (with_leaf (view_structs structs.old) leaf) pending.old.items }
    ensures noted { OnOk result (with_pending (view_structs structs.new) pending.new.items
        ≡ with_pending (with_leaf (view_structs structs.old) leaf) pending.old.items) }
    ensures done { OnOk result (IsDone (view_structs structs.new) done.now) }
    ensures ended { OnOk result (AreEnded (view_structs structs.new) pending.new.items) }
{
    match leaf {
        Leaf::Target(target) => {
            structs.note(&target)?;
        }
        Leaf::Inside(number) => {
            if !is_marked(done, number) {
                pending.push(Pending { number, member: 0 })?;
            }
        }
        Leaf::Plain => {}
    }
    Ok(())
}

// Goes on with the next member, and leaves those after it. A struct without a next one is done.
fn note_next(
    structs: &mut Structs,
    done: &mut [bool],
    pending: &mut Vec<Pending>,
    next: Pending,
) -> Result<(), OutOfMemory>
    requires done { IsDone (view_structs structs.old) done.old }
    requires ended { AreEnded (view_structs structs.old) (pending.old.items ++ next ∷ []) }
    ensures noted { OnOk result (with_pending (view_structs structs.new) pending.new.items
        ≡ with_pending (view_structs structs.old) (pending.old.items ++ next ∷ [])) }
    ensures done { OnOk result (IsDone (view_structs structs.new) done.new) }
    ensures ended { OnOk result (AreEnded (view_structs structs.new) pending.new.items) }
{
    let members = structs.members(next.number);
    if next.member >= members.len() {
        mark_done(done, next.number);
        return Ok(());
    }
    let leaf = leaf_in(&members[next.member].ctype.base)?;
    pending.push(Pending {
        number: next.number,
        member: next.member + 1,
    })?;
    note_leaf(structs, done, pending, leaf)?;
    Ok(())
}

// Gives the types of the pointers in an object of this type numbers. A loop, since as many structs may lie in one
// another as a source declares. Of those that are done all pointers have numbers, and so no struct is gone through
// twice.
fn note_targets(
    alloc: Global,
    structs: &mut Structs,
    done: &mut [bool],
    t: &CType,
) -> Result<(), OutOfMemory>
    requires { IsDone (view_structs structs.old) done.old }
    ensures noted { OnOk result (view_structs structs.new
        ≡ pure.with_targets (view_structs structs.old) (view t.now ∷ [])) }
    ensures done { OnOk result (IsDone (view_structs structs.new) done.new) }
{
    let mut pending = Vec::new(alloc);
    note_leaf(structs, done, &mut pending, leaf_in(&t.base)?)?;
    for _ in 0..u64::MAX {
        match pending.pop() {
            None => return Ok(()),
            Some(next) => note_next(structs, done, &mut pending, next)?,
        }
    }
    Err(OutOfMemory)
}

// Gives the types of the pointers in these objects numbers.
fn note_objects(
    alloc: Global,
    structs: &mut Structs,
    done: &mut [bool],
    objects: &[Object],
) -> Result<(), OutOfMemory>
    requires { IsDone (view_structs structs.old) done.old }
    ensures noted { OnOk result (view_structs structs.new
        ≡ pure.with_targets (view_structs structs.old) (map type_of (map view_object objects.now))) }
    ensures done { OnOk result (IsDone (view_structs structs.new) done.new) }
{
    for object in objects {
        note_targets(alloc, structs, done, &object.ctype)?;
    }
    Ok(())
}

// Gives the types of the pointers in objects of these types numbers.
fn note_types(
    alloc: Global,
    structs: &mut Structs,
    done: &mut [bool],
    types: &[CType],
) -> Result<(), OutOfMemory>
    requires { IsDone (view_structs structs.old) done.old }
    ensures noted { OnOk result (view_structs structs.new
        ≡ pure.with_targets (view_structs structs.old) (map view types.now)) }
    ensures done { OnOk result (IsDone (view_structs structs.new) done.new) }
{
    for t in types {
        note_targets(alloc, structs, done, t)?;
    }
    Ok(())
}

/// Gives the types of the pointers in these objects, in allocated ones, and in those of functions numbers. Answers
/// which structs, by their numbers, were gone through: those that are the leaf elements of such objects or lie in them.
pub(crate) fn note_all_types(
    alloc: Global,
    structs: &mut Structs,
    objects: &[Object],
    allocated: &[CType],
    inside: &[CType],
) -> Result<Vec<bool>, OutOfMemory>
    requires layouts { Each (λ x. has_size (view_structs structs.old) x.ctype ≡ true) (map view_object objects.now) }
    requires allocated { Each (λ t. has_size (view_structs structs.old) t ≡ true) (map view allocated.now) }
    requires inside { Each (λ t. has_size (view_structs structs.old) t ≡ true) (map view inside.now) }
    ensures { OnOk result (view_structs structs.new ≡ pure.with_targets (view_structs structs.old)
        (map type_of (map view_object objects.now) ++ map view allocated.now ++ map view inside.now)) }
{
    let mut done = vec![in alloc; false; structs.declared() as usize]?;
    note_objects(alloc, structs, &mut done, objects)?;
    note_types(alloc, structs, &mut done, allocated)?;
    note_types(alloc, structs, &mut done, inside)?;
    Ok(done)
}
