//! The walk over functions (C99 6.9.1).

ghost use Rattle.std.specs.Prelude.{◌≡◌, true, ◌&&◌, ◌∷◌, [], ◌++◌, List, map, OnOk};
ghost use Rattle.upc_text.specs.declared.place.Place.{Place};
ghost use Rattle.upc_tree.specs.layer.View as views;
ghost use Rattle.upc_tree.specs.layer.ViewStatement as trees;
ghost use Rattle.upc_types.specs.View.{view};
ghost use Rattle.typing_rules.specs.Meanings as meanings;
ghost use Rattle.typing_rules.specs.Nodes as nodes;
ghost use Rattle.typing_rules.specs.layer.Views.{view_signature};
ghost use Rattle.typed_tree.specs.Scopes as scopes;
ghost use Rattle.typed_tree.specs.Scopes.{Env as ScopeEnv, Tag as ScopeTag};
ghost use Rattle.typed_tree.specs.Tree.{DeclaredObject};
ghost use Rattle.typed_tree.specs.layer.ViewEnv.{view_detached, view_env};
ghost use Rattle.typed_tree.specs.ViewStatements.{view_function, view_statement};
ghost use Rattle.upc_checker_scopes.specs.layer.Ends.{Meets};
ghost use Rattle.upc_checker_scopes.specs.layer.Views.{state_of, state_with, view_setting};
ghost use Rattle.upc_checker_scopes.specs.Walk.{enclosed as inclosed, judge};
ghost use Rattle.upc_checker_types.specs.Specifiers as specifiers;
ghost use Rattle.upc_checker_types.specs.layer.ViewShapes.{view_specified, view_specifying};
ghost use Rattle.upc_checker_expressions.specs.Expressions as walks;
ghost use Rattle.upc_checker.specs.code.Parts as parts;
ghost use Rattle.upc_checker.specs.Units as pure;
ghost use Rattle.upc_checker.specs.code.ViewEarlier.{view_earlier};

use std::alloc::Global;
use typed_tree::env::{Detached, Env, alone, enter_function, inside, within};
use typed_tree::{Function, Statement};
use typing_rules::{Around, Enclosing, Signature};
use typing_rules_checks::attributes::value_type;
use typing_rules_checks::declarations;
use upc_checker_expressions::types::{walk_parameters, walk_pointers, walk_specifiers};
use upc_checker_scopes::finish::judged;
use upc_checker_scopes::known::{
    Known, definition_again, differs, note_end, note_function, note_more,
};
use upc_checker_scopes::places::specs_place;
use upc_checker_scopes::setting::{Setting, spelling};
use upc_checker_scopes::signatures::copy_signature;
use upc_checker_scopes::tags::{Tags, enclosed};
use upc_checker_statements::statements::walk_block;
use upc_checker_types::shaped::specified_type;
use upc_checker_types::specified::{Specified, Specifying, specifiers_form};
use upc_text::{OutOfMemory, Place, Stop, Text};
use upc_tree::Parameters;
use upc_types::CType;

fn in_definition(at: Place) -> Specifying
    ensures { view_specifying result ≡ pure.in_definition at }
{
    Specifying {
        at,
        star: false,
        may_be_static: true,
        alone: false,
    }
}

/// What was said of a function before its definition: whether that declares it again, and whether it differs.
#[derive(Clone, Copy)]
pub(crate) struct Earlier {
    pub again: bool,
    pub differs: bool,
}

// What was said of a function of that name.
fn said_before(
    setting: Setting<'_>,
    env: &Env<'_>,
    known: &Known,
    name: u32,
    signature: &Signature,
) -> Earlier
    ensures { (tags : List ScopeTag) → view_earlier result
        ≡ parts.earlier_in (view_setting setting.entry) (view_env env.now) (state_with tags known.now) name
        (view_signature signature.now) }
{
    Earlier {
        again: definition_again(setting, env, known, name),
        differs: differs(known, name, signature),
    }
}

// A function is defined.
fn judge_definition(
    was: Earlier,
    forms: bool,
    signature: &Signature,
    at: Place,
    setting: Setting<'_>,
    known: &mut Known,
) -> Result<(), Stop>
    ensures { (tags : List ScopeTag) → Meets (λ u. tt {0}) (judge (view_setting setting.entry) at
        (nodes.Defines was.again was.differs forms (view_signature signature.now)) (state_with tags
        known.old)) (state_with tags known.new) result }
{
    judged(
        declarations::defines(was.again, was.differs, forms, signature),
        at,
    )?;
    let parameters = u32::try_from(signature.parameters.len()).map_err(|_| OutOfMemory)?;
    let more = parameters.checked_add(1).ok_or(OutOfMemory)?;
    note_more(known, more)?;
    note_end(known, at);
    Ok(())
}

/// The parameters of a definition: their scope, without what is around it, and their types.
#[derive(Drop)]
struct Own {
    scope: Detached,
    types: Vec<CType>,
}

// The parameters of a definition, in a scope of their own.
fn own_parameters(
    parameters: &Parameters,
    setting: Setting<'_>,
    env: &Env<'_>,
    tags: &mut Tags<'_>,
    known: &mut Known,
) -> Result<Own, Stop>
    ensures { Meets
        (λ own. record {
          types = map view own.types.items;
          scope = view_detached own.scope (scopes.Within (view_env env.now));
        })
        (walks.walk_parameters (view_setting setting.entry) (scopes.inside (view_env env.now))
        (views.view_parameters parameters.now) (state_of tags.old known.old)) (state_of tags.new known.new) result }
{
    let mut scope = inside(setting.alloc, env)?;
    let types = walk_parameters(parameters, setting, &mut scope, tags, known)?;
    Ok(Own {
        scope: alone(scope),
        types,
    })
}

// The function is in scope from here on, and defined.
fn declare_definition(
    alloc: Global,
    name: u32,
    signature: &Signature,
    env: &mut Env<'_>,
    known: &mut Known,
) -> Result<(), OutOfMemory>
    ensures known { OnOk result ((tags : List ScopeTag) → state_with tags known.new
        ≡ scopes.with_function name (view_signature signature.now) true (state_with tags known.old)) }
    ensures scope { OnOk result (view_env env.new
        ≡ scopes.with_entry name (meanings.Function (view_signature signature.now)) (view_env env.old)) }
{
    let copy = copy_signature(alloc, signature)?;
    note_function(known, name, copy, true)?;
    let copy = copy_signature(alloc, signature)?;
    enter_function(env, name, copy)?;
    Ok(())
}

// One more function.
fn add_function(
    functions: &mut Vec<Function>,
    setting: Setting<'_>,
    name: u32,
    place: Place,
    gives: CType,
    parameters: Vec<CType>,
    body: Box<Statement>,
) -> Result<(), OutOfMemory>
    ensures { OnOk result (map view_function functions.new.items
        ≡ map view_function functions.old.items
        ++ (record {
          at = place;
          name = scopes.spelling (view_setting setting.entry) name;
          result = view gives;
          parameters = map view parameters.items;
          body = view_statement body.value;
        } ∷ [])) }
{
    let name = Text::from_slice(setting.alloc, spelling(setting, name))?;
    functions.push(Function {
        place,
        name,
        result: gives,
        parameters,
        body,
    })?;
    Ok(())
}

// A definition whose function is in scope: its body, and its own node.
fn walk_defined(
    function: &upc_tree::Function,
    place: Place,
    forms: bool,
    was: Earlier,
    signature: Signature,
    strict: bool,
    functions: &mut Vec<Function>,
    setting: Setting<'_>,
    scope: &mut Env<'_>,
    tags: &Tags<'_>,
    known: &mut Known,
) -> Result<(), Stop>
    ensures { (file : ScopeEnv) (objects : List DeclaredObject) → Meets
        (λ u. record {
          scope = scopes.with_entry function.now.name.number (meanings.Function (view_signature signature)) file;
          objects = objects;
          functions = map view_function functions.new.items;
        })
        (parts.body_part (view_setting setting.entry) strict
        (record { scope = file; objects = objects; functions = map view_function functions.old.items }) place forms
        function.now.name (view_signature signature) (view_earlier was) (trees.view_compound function.now.body.value)
        (view_env scope.old) (state_of tags.now known.old)) (state_of tags.now known.new) result }
{
    let gives = value_type(&signature.result)?;
    let around = Around {
        result: &gives,
        breaks: Enclosing::Nothing,
        loops: false,
        forall: false,
    };
    let body = walk_block(&function.body, setting, scope, around, strict, tags, known)?;
    judge_definition(was, forms, &signature, place, setting, known)?;
    let (name, parameters) = (function.name.number, signature.parameters);
    add_function(functions, setting, name, place, gives, parameters, body)?;
    Ok(())
}

// A definition after its specifiers and stars: the function is in scope in its body.
fn walk_definition(
    function: &upc_tree::Function,
    place: Place,
    forms: bool,
    gives: CType,
    strict: bool,
    functions: &mut Vec<Function>,
    setting: Setting<'_>,
    env: &mut Env<'_>,
    tags: &Tags<'_>,
    known: &mut Known,
) -> Result<(), Stop>
    ensures { (objects : List DeclaredObject) → Meets
        (λ u. record { scope = view_env env.new; objects = objects; functions = map view_function functions.new.items })
        (inclosed (pure.walk_definition (view_setting setting.entry) strict
        (record {
          scope = view_env env.old;
          objects = objects;
          functions = map view_function functions.old.items;
        }) place forms
        (view gives) function.now.name (views.view_parameters function.now.parameters.value)
        (trees.view_compound function.now.body.value)) (state_of tags.now known.old))
        (state_of tags.now known.new) result }
{
    let mut inner = enclosed(setting.alloc, tags);
    let own = own_parameters(&function.parameters, setting, env, &mut inner, known)?;
    let signature = Signature {
        result: gives,
        parameters: own.types,
    };
    let name = function.name.number;
    let was = said_before(setting, env, known, name, &signature);
    declare_definition(setting.alloc, name, &signature, env, known)?;
    let mut scope = within(own.scope, env);
    walk_defined(
        function, place, forms, was, signature, strict, functions, setting, &mut scope, &inner,
        known,
    )
}

fn definition_forms(found: &Specified, forms: bool) -> bool
    ensures { result ≡ (specifiers.specifiers_form true (view_specified found.now) && forms) }
{
    specifiers_form(true, found) && forms
}

/// A definition.
pub(crate) fn walk_function(
    function: &upc_tree::Function,
    strict: bool,
    functions: &mut Vec<Function>,
    setting: Setting<'_>,
    env: &mut Env<'_>,
    tags: &mut Tags<'_>,
    known: &mut Known,
) -> Result<(), Stop>
    ensures { (objects : List DeclaredObject) → Meets (λ u. record {
      scope = view_env env.new;
      objects = objects;
      functions = map view_function functions.new.items;
    }) (pure.walk_external
        (view_setting setting.entry) strict (record {
          scope = view_env env.old;
          objects = objects;
          functions = map view_function functions.old.items;
        }) (trees.view_function function.now)
        (state_of tags.old known.old)) (state_of tags.new known.new) result }
{
    let specs = function.specs.as_slice();
    let place = specs_place(specs);
    let found = walk_specifiers(specs, in_definition(place), setting, env, tags, known)?;
    let shaped = specified_type(&found);
    let pointers = function.pointers.as_slice();
    let t = walk_pointers(pointers, false, shaped, setting, env, tags, known)?;
    let forms = definition_forms(&found, t.forms);
    walk_definition(
        function, place, forms, t.ctype, strict, functions, setting, env, tags, known,
    )
}
