//! The walk over a whole source (C99 6.9).

ghost use Rattle.std.specs.Prelude.{◌≡◌, Bool, true, false, ◌&&◌, List, IfOk, map};
ghost use Rattle.std.specs.List.{list_any};
ghost use Rattle.upc_text.specs.declared.place.Place.{Place};
ghost use Rattle.upc_tree.specs.layer.ViewStatement as trees;
ghost use Rattle.upc_types.specs.View.{view, view_base};
ghost use Rattle.typing_rules.specs.Nodes as node;
ghost use Rattle.typed_tree.specs.Scopes as scopes;
ghost use Rattle.typed_tree.specs.Scopes.{Tag as ScopeTag};
ghost use Rattle.typed_tree.specs.Tree as typed;
ghost use Rattle.typed_tree.specs.Tree.{DeclaredObject};
ghost use Rattle.upc_tree.specs.Unit as units;
ghost use Rattle.upc_checker.specs.code.ViewMade.{view_made};
ghost use Rattle.typed_tree.specs.layer.ViewEnv.{view_env};
ghost use Rattle.typed_tree.specs.ViewStatements.{view_function, view_object};
ghost use Rattle.typing_rules.specs.layer.Views.{view_signature};
ghost use Rattle.upc_checker_scopes.specs.layer.Ends.{Meets};
ghost use Rattle.upc_checker_types.specs.Specifiers as specifiers;
ghost use Rattle.upc_checker.specs.Units as pure;
ghost use Rattle.upc_checker_scopes.specs.layer.Views.{state_of, state_with, view_setting};
ghost use Rattle.upc_checker_types.specs.layer.ViewShapes.{view_specified, view_specifying};
ghost use Rattle.upc_checker_scopes.specs.Walk.{enclosed as inclosed, judge};

use crate::functions::walk_function;
use block_layout::Kind;
use std::alloc::Global;
use typed_tree::env::Env;
use typed_tree::{Function, Object};
use typing_rules_checks::declarations;
use upc_checker_declarations::declarations::walk_declaration;
use upc_checker_scopes::defined::Defined;
use upc_checker_scopes::finish::judged;
use upc_checker_scopes::known::Known;
use upc_checker_scopes::places::specs_place;
use upc_checker_scopes::setting::Setting;
use upc_checker_scopes::tags::Tags;
use upc_text::{OutOfMemory, Place, Stop};
use upc_tree::{Declaration, External};
use upc_types::{Base, CType};

// ---- what the source defines

/// The functions that the source defines.
pub(crate) fn defined_in(alloc: Global, externals: &[External]) -> Result<Defined, OutOfMemory>
    ensures { IfOk result (λ all. all.names.items ≡ pure.defined_in (map trees.view_external
        externals.now)) }
{
    let mut all = Defined::new(alloc);
    for part in externals {
        if let External::Function(function) = part {
            all.note(function.name.number)?;
        }
    }
    Ok(all)
}

fn external_place(external: &External) -> Place
    ensures { result ≡ pure.external_place (trees.view_external external.now) }
{
    match external {
        External::Pragma(pragma) => pragma.span.place,
        External::Declaration(declaration) => specs_place(declaration.specs.as_slice()),
        External::Function(function) => specs_place(function.specs.as_slice()),
    }
}

/// The first token of the source.
fn source_place(externals: &[External]) -> Place
    ensures { result ≡ pure.source_place (map trees.view_external externals.now) }
{
    match externals {
        [] => Place { line: 1, column: 1 },
        [first, ..] => external_place(first),
    }
}

// ---- what stands in a file

// A declaration of the file.
fn walk_objects(
    declaration: &Declaration,
    objects: &mut Vec<Object>,
    setting: Setting<'_>,
    env: &mut Env<'_>,
    tags: &mut Tags<'_>,
    known: &mut Known,
) -> Result<(), Stop>
    ensures { (strict : Bool) (functions : List typed.Function) → Meets (λ u. record {
      scope = view_env
          env.new;
      objects = map view_object objects.new.items;
      functions = functions;
    })
        (pure.walk_external (view_setting setting.entry) strict (record {
          scope = view_env env.old;
          objects = map view_object objects.old.items;
          functions = functions;
        }) (units.DeclarationPart
        (trees.view_declaration declaration.now)) (state_of tags.old known.old)) (state_of tags.new
        known.new) result }
{
    let mut more = walk_declaration(declaration, setting, env, tags, known)?;
    objects.append(&mut more)?;
    Ok(())
}

/// What a source declares and defines.
#[derive(Drop)]
pub(crate) struct Made {
    pub objects: Vec<Object>,
    pub functions: Vec<Function>,
}

fn walk_external(
    external: &External,
    strict: bool,
    made: &mut Made,
    setting: Setting<'_>,
    env: &mut Env<'_>,
    tags: &mut Tags<'_>,
    known: &mut Known,
) -> Result<(), Stop>
    ensures { Meets (λ u. view_made (view_env env.new) made.new) (pure.walk_external (view_setting
        setting.entry) strict (view_made (view_env env.old) made.old) (trees.view_external
        external.now) (state_of tags.old known.old)) (state_of tags.new known.new) result }
{
    match external {
        External::Pragma(_) => Ok(()),
        External::Declaration(declaration) => {
            walk_objects(declaration, &mut made.objects, setting, env, tags, known)
        }
        External::Function(function) => {
            walk_function(
                function,
                strict,
                &mut made.functions,
                setting,
                env,
                tags,
                known,
            )
        }
    }
}

fn strict_from(strict: bool, external: &External) -> bool
    ensures { result ≡ pure.strict_from strict (trees.view_external external.now) }
{
    match external {
        External::Pragma(pragma) => pragma.strict,
        _ => strict,
    }
}

fn walk_externals(
    externals: &[External],
    made: &mut Made,
    setting: Setting<'_>,
    env: &mut Env<'_>,
    tags: &mut Tags<'_>,
    known: &mut Known,
) -> Result<(), Stop>
    ensures { Meets (λ u. view_made (view_env env.new) made.new) (pure.walk_externals (view_setting
        setting.entry) false (view_made (view_env env.old) made.old) (map trees.view_external
        externals.now) (state_of tags.old known.old)) (state_of tags.new known.new) result }
{
    let mut strict = false;
    for part in externals {
        walk_external(part, strict, made, setting, env, tags, known)?;
        strict = strict_from(strict, part);
    }
    Ok(())
}

// ---- the whole source

fn is_int_base(base: &Base) -> bool
    ensures { result ≡ pure.is_int_base (view_base base.now) }
{
    matches!(base, Base::Integer(Kind::Int))
}

fn is_empty(parameters: &[CType]) -> bool
    ensures { result ≡ pure.is_empty (map view parameters.now) }
{
    match parameters {
        [] => true,
        [_, ..] => false,
    }
}

// A function main without parameters that gives an int (C99 5.1.2.2.1).
fn is_main_function(function: &Function) -> bool
    ensures { result ≡ pure.is_main_function (view_function function.now) }
{
    function.name.as_slice() == b"main".as_slice()
        && is_int_base(&function.result.base)
        && is_empty(function.parameters.as_slice())
}

fn has_main(functions: &[Function]) -> bool
    ensures { result ≡ list_any pure.is_main_function (map view_function functions.now) }
{
    for function in functions {
        if is_main_function(function) {
            return true;
        }
    }
    false
}

/// The whole source, from the scope of the file without names.
pub(crate) fn walk_unit(
    externals: &[External],
    setting: Setting<'_>,
    env: &mut Env<'_>,
    tags: &mut Tags<'_>,
    known: &mut Known,
) -> Result<Made, Stop>
    requires { view_env env.old ≡ scopes.file }
    ensures { Meets (λ made. view_made (view_env env.new) made) (pure.walk_unit (view_setting
        setting.entry) (map trees.view_external externals.now) (state_of tags.old known.old))
        (state_of tags.new known.new) result }
{
    let mut made = Made {
        objects: Vec::new(setting.alloc),
        functions: Vec::new(setting.alloc),
    };
    walk_externals(externals, &mut made, setting, env, tags, known)?;
    let main = has_main(made.functions.as_slice());
    judged(declarations::file(main), source_place(externals))?;
    Ok(made)
}
