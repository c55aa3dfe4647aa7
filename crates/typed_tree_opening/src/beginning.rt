//! What a checked program begins with.

ghost use Rattle.std.specs.Prelude.{◌≡◌, ◌<◌, ◌≤◌, ◌++◌, true, map, IfOk, OnOk};
ghost use Rattle.upc_values.specs.Lists.{Each};
ghost use Rattle.upc_values.specs.Openings.{IsOpening};
ghost use Rattle.upc_types.specs.View.{view};
ghost use Rattle.upc_types.specs.ViewStructs.{view_structs};
ghost use Rattle.typed_tree.specs.Beginnings as pure;
ghost use Rattle.typed_tree.specs.Beginnings.{view_beginning};
ghost use Rattle.typing_rules.specs.Rules.{has_size};
ghost use Rattle.typed_tree.specs.Objects.{bytes_in, shared_in, private_in, type_of};
ghost use Rattle.typed_tree.specs.layer.PrivateOpenings.{HavePrivateValues, shape_bytes};
ghost use Rattle.typed_tree.specs.Programs.{checked_of, start_of, without_targets};
ghost use Rattle.typed_tree.specs.Targets.{with_targets};
ghost use Rattle.typed_tree.specs.ViewStatements.{view_function, view_object};

use crate::allocated::allocated_types;
use crate::initials::shared_initials;
use crate::inside::types_inside;
use crate::objects::{SharedPart, count_private, shared_part};
use crate::privates::{private_initials, private_shapes};
use crate::setting::Setting;
use crate::targets::note_all_types;
use std::alloc::Global;
use typed_tree::{Beginning, Function, Object};
use upc_text::OutOfMemory;
use upc_types::{CType, Structs};

// What begins with these objects, where the structs have their targets of pointers.
fn begun(
    alloc: Global,
    threads: u32,
    structs: Structs,
    objects: &[Object],
    allocated: &[CType],
) -> Result<Beginning, OutOfMemory>
    requires layouts { Each (λ x. has_size (view_structs structs) x.ctype ≡ true) (map view_object objects.now) }
    requires allocated { Each (λ t. has_size (view_structs structs) t ≡ true) (map view allocated.now) }
    requires bytes { bytes_in (view_structs structs) (shared_in (map view_object objects.now)) ≤ 16777216 }
    ensures { IfOk result (λ b. view_beginning b
        ≡ pure.begun threads (view_structs structs) (map view_object objects.now) (map view allocated.now)) }
{
    let SharedPart {
        shapes,
        objects: shared_objects,
    } = shared_part(alloc, &structs, objects, allocated)?;
    let setting = Setting {
        threads,
        privates: count_private(objects),
        structs: &structs,
        shared: shared_objects.as_slice(),
    };
    let initials = shared_initials(alloc, &setting, objects)?;
    let private_shapes = private_shapes(alloc, &structs, objects)?;
    let private_initials = private_initials(alloc, &setting, objects)?;
    Ok(Beginning {
        structs,
        shapes,
        shared_objects,
        initials,
        private_shapes,
        private_initials,
    })
}

// Gives the types of the pointers in all objects numbers, and puts the cells of the structs in these objects together.
fn prepare(
    alloc: Global,
    structs: &mut Structs,
    objects: &[Object],
    allocated: &[CType],
    inside: &[CType],
) -> Result<(), OutOfMemory>
    requires layouts { Each (λ x. has_size (view_structs structs.old) x.ctype ≡ true) (map view_object objects.now) }
    requires allocated { Each (λ t. has_size (view_structs structs.old) t ≡ true) (map view allocated.now) }
    requires inside { Each (λ t. has_size (view_structs structs.old) t ≡ true) (map view inside.now) }
    ensures { OnOk result (view_structs structs.new ≡ with_targets (view_structs structs.old)
        (map type_of (map view_object objects.now) ++ map view allocated.now ++ map view inside.now)) }
{
    let wanted = note_all_types(alloc, structs, objects, allocated, inside)?;
    structs.hold_cells(alloc, wanted.as_slice())
}

/// What a program begins with that runs on so many threads and has these structs, objects of the file in order of
/// declaration, types of elements of allocated objects, and types of parameters and objects of functions.
pub fn open(
    alloc: Global,
    threads: u32,
    structs: Structs,
    objects: &[Object],
    allocated: &[CType],
    inside: &[CType],
) -> Result<Beginning, OutOfMemory>
    requires least { 0 < threads }
    requires most { threads ≤ 32 }
    requires layouts { Each (λ x. has_size (view_structs structs) x.ctype ≡ true) (map view_object objects.now) }
    requires allocated { Each (λ t. has_size (view_structs structs) t ≡ true) (map view allocated.now) }
    requires inside { Each (λ t. has_size (view_structs structs) t ≡ true) (map view inside.now) }
    requires bytes { bytes_in (view_structs structs) (shared_in (map view_object objects.now)) ≤ 16777216 }
    ensures value { IfOk result (λ b. view_beginning b
        ≡ pure.beginning_of threads (view_structs structs)
        (map view_object objects.now) (map view allocated.now) (map view inside.now)) }
    ensures opening { IfOk result (λ b. IsOpening (pure.opening_in threads (view_beginning b))) }
    ensures private { IfOk result (λ b. HavePrivateValues threads (view_beginning b)) }
{
    let mut structs = structs;
    prepare(alloc, &mut structs, objects, allocated, inside)?;
    begun(alloc, threads, structs, objects, allocated)
}

/// What the program of these parts begins with. It does not matter which targets of pointers have numbers in the
/// structs before.
pub fn begin(
    alloc: Global,
    threads: u32,
    structs: Structs,
    objects: &[Object],
    functions: &[Function],
) -> Result<Beginning, OutOfMemory>
    requires least { 0 < threads }
    requires most { threads ≤ 32 }
    requires layouts { Each (λ x. has_size (view_structs structs) x.ctype ≡ true) (map view_object objects.now) }
    requires bytes { bytes_in (view_structs structs) (shared_in (map view_object objects.now)) ≤ 16777216 }
    ensures value { IfOk result (λ b. view_beginning b
        ≡ start_of (checked_of threads (view_structs structs)
        (map view_object objects.now) (map view_function functions.now))) }
    ensures same { IfOk result (λ b. without_targets (view_structs b.structs)
        ≡ without_targets (view_structs structs)) }
    ensures opening { IfOk result (λ b. IsOpening (pure.opening_in threads (view_beginning b))) }
    ensures private { IfOk result (λ b. HavePrivateValues threads (view_beginning b)) }
    ensures private_bytes { IfOk result (λ b. shape_bytes b.private_shapes.items
        ≡ bytes_in (view_structs structs) (private_in (map view_object objects.now))) }
{
    let mut structs = structs;
    structs.forget_targets();
    let allocated = allocated_types(alloc, functions, &structs)?;
    let inside = types_inside(alloc, functions, &structs)?;
    open(
        alloc,
        threads,
        structs,
        objects,
        allocated.as_slice(),
        inside.as_slice(),
    )
}
