//! The walk over declarations (C99 6.7).

ghost use Rattle.std.specs.Prelude.{◌≡◌, List, [], ◌∷◌, ◌++◌, map};
ghost use Rattle.upc_tree.specs.declared.span.Span.{Span};
ghost use Rattle.upc_tree.specs.layer.Lists.{next_declareds_of, next_exprs_of, dimensions_of, pointers_of};
ghost use Rattle.upc_tree.specs.layer.View.{view, view_declarator, view_dimension, view_next_expr, view_parameters};
ghost use Rattle.upc_tree.specs.layer.View.{view_pointer};
ghost use Rattle.upc_tree.specs.layer.ViewStatement as trees;
ghost use Rattle.upc_tree.specs.layer.ViewStatement.{view_next_declared};
ghost use Rattle.upc_tree.specs.Declaration as d;
ghost use Rattle.upc_tree.specs.Expression as expression_tree;
ghost use Rattle.upc_types.specs.View as types;
ghost use Rattle.typing_rules.specs.Nodes as node;
ghost use Rattle.typed_tree.specs.Scopes as scopes;
ghost use Rattle.typed_tree.specs.Scopes.{State, Tag as ScopeTag};
ghost use Rattle.typed_tree.specs.Tree as typed;
ghost use Rattle.typed_tree.specs.Tree.{exprs_of, DeclaredObject};
ghost use Rattle.typing_rules.specs.Values.{base_target};
ghost use Rattle.upc_types.specs.Types.{base_of};
ghost use Rattle.typed_tree.specs.layer.ViewEnv.{view_env};
ghost use Rattle.typed_tree.specs.ViewStatements.{view_initial, view_object};
ghost use Rattle.typed_tree.specs.ViewTree.{view_expr};
ghost use Rattle.typing_rules.specs.layer.Views.{view_formed, view_signature, view_use};
ghost use Rattle.upc_text.specs.declared.place.Place.{Place};
ghost use Rattle.upc_checker_declarations.specs.Declarations as pure;
ghost use Rattle.upc_checker_scopes.specs.Known as stands;
ghost use Rattle.upc_checker_scopes.specs.layer.Ends.{Meets, boxed};
ghost use Rattle.upc_checker_expressions.specs.Expressions as walks;
ghost use Rattle.upc_checker_types.specs.Shapes as shapes;
ghost use Rattle.upc_checker_scopes.specs.layer.Views.{state_of, state_with, view_setting};
ghost use Rattle.upc_checker_types.specs.Specifiers as specifiers;
ghost use Rattle.upc_checker_types.specs.layer.ViewShapes.{view_shaped, view_specified, view_specifying};
ghost use Rattle.upc_checker_scopes.specs.Walk.{andthen, enclosed, give, judge};

use typed_tree::env::{Env, declare, enter_function, inside, is_file, next_home};
use typed_tree::{Expr, Initial, Object};
use typing_rules::types::int_type;
use typing_rules::{Formed, Signature, Use};
use typing_rules_checks::declarations::{declares_object, initial_value, specifies};
use upc_checker_expressions::expressions::{constantly, walk};
use upc_checker_expressions::types::{walk_parameters, walk_pointers, walk_sizes, walk_specifiers};
use upc_checker_nodes::lists::initial_list;
use upc_checker_nodes::nodes::joined;
use upc_checker_scopes::finish::judged;
use upc_checker_scopes::known::{
    Known, note_end, note_function, note_more, object_again, prototype_again,
};
use upc_checker_scopes::places::{pointers_place, specs_place};
use upc_checker_scopes::setting::{Setting, spelling};
use upc_checker_scopes::signatures::copy_signature;
use upc_checker_scopes::tags::{Tags, enclosed};
use upc_checker_types::shaped::{Shaped, copy_shaped, formed, specified_type};
use upc_checker_types::specified::{Specified, Specifying, specifiers_form};
use upc_text::{Place, Stop, Text};
use upc_tree::{
    Declaration, Declarator, Declared, DeclaredList, Dimension, Name, NextDeclared, NextExpr,
    Parameters, Pointer,
};
use upc_types::{Base, CType, copy_type};

// ---- initialisers (C99 6.7.8)

// At file scope a constant is asked for.
fn initial_constant(a: &Expr, setting: Setting<'_>, env: &Env<'_>) -> Result<(), Stop>
    ensures { (s : State) → Meets (λ u. tt {0}) (pure.initial_constant (view_setting setting.entry)
        (scopes.is_file (view_env env.now)) (view_expr a.now) s) s result }
{
    if is_file(env) {
        constantly(setting, a)?;
    }
    Ok(())
}

fn walk_initial_value(
    value: &upc_tree::Expr,
    how: Use<'_>,
    setting: Setting<'_>,
    env: &Env<'_>,
    tags: &mut Tags<'_>,
    known: &mut Known,
) -> Result<Box<Expr>, Stop>
    ensures { Meets (boxed view_expr) (pure.walk_initial_value (view_setting setting.entry)
        (view_env env.now) (scopes.is_file (view_env env.now)) (view_use how.entry) (view value.now)
        (state_of tags.old known.old)) (state_of tags.new known.new) result }
{
    let a = walk(value, how, setting, env, tags, known)?;
    initial_constant(&a, setting, env)?;
    Ok(a)
}

fn walk_initial_values(
    values: &[NextExpr],
    how: Use<'_>,
    setting: Setting<'_>,
    env: &Env<'_>,
    tags: &mut Tags<'_>,
    known: &mut Known,
) -> Result<Vec<Expr>, Stop>
    ensures { Meets (λ xs. exprs_of (map view_expr xs.items)) (pure.walk_initial_values
        (view_setting setting.entry) (view_env env.now) (scopes.is_file (view_env env.now))
        (view_use how.entry) (next_exprs_of (map view_next_expr values.now)) (state_of tags.old
        known.old)) (state_of tags.new known.new) result }
{
    let mut all = Vec::new(setting.alloc);
    for part in values {
        let x = walk_initial_value(&part.value, how, setting, env, tags, known)?;
        all.push(Box::into_inner(x))?;
    }
    Ok(all)
}

// How the elements of a list are used.
fn element_use(t: &CType) -> Use<'_>
    ensures { view_use result ≡ pure.element_use (base_target (base_of (types.view t.now))) }
{
    match &t.base {
        Base::Array(element, _) => Use::Into(element),
        Base::Pointer(target) => Use::Into(target),
        _ => Use::Plain,
    }
}

// A list in braces: its values.
fn walk_initial_list(
    first: &upc_tree::Expr,
    more: &[NextExpr],
    place: Place,
    object: bool,
    t: &CType,
    setting: Setting<'_>,
    env: &Env<'_>,
    tags: &mut Tags<'_>,
    known: &mut Known,
) -> Result<Vec<Expr>, Stop>
    ensures { (equal left right : Span) → Meets (λ xs. typed.InitialList (exprs_of (map view_expr
        xs.items))) (pure.walk_initial (view_setting setting.entry) (view_env env.now) place object
        (types.view t.now) (d.ListInitial equal left (view first.now) (next_exprs_of (map
        view_next_expr more.now)) right) (state_of tags.old known.old)) (state_of tags.new
        known.new) result }
{
    let how = element_use(t);
    let x = walk_initial_value(first, how, setting, env, tags, known)?;
    let xs = walk_initial_values(more, how, setting, env, tags, known)?;
    let all = joined(x, xs)?;
    judged(initial_list(is_file(env), object, t, all.as_slice()), place)?;
    Ok(all)
}

// The initialiser of what a declarator declares: of an object of a type, or of a function.
fn walk_initial(
    initial: &upc_tree::Initial,
    place: Place,
    object: bool,
    t: &CType,
    setting: Setting<'_>,
    env: &Env<'_>,
    tags: &mut Tags<'_>,
    known: &mut Known,
) -> Result<Initial, Stop>
    ensures { Meets view_initial (pure.walk_initial (view_setting setting.entry) (view_env env.now)
        place object (types.view t.now) (trees.view_initial initial.now) (state_of tags.old
        known.old)) (state_of tags.new known.new) result }
{
    match initial {
        upc_tree::Initial::Absent => Ok(Initial::Absent),
        upc_tree::Initial::Value { value, .. } => {
            let a = walk_initial_value(value, Use::Into(t), setting, env, tags, known)?;
            judged(initial_value(is_file(env), object, t, &a.attr), place)?;
            Ok(Initial::Value(a))
        }
        upc_tree::Initial::List { first, more, .. } => {
            let more = more.as_slice();
            let values = walk_initial_list(
                first, more, place, object, t, setting, env, tags, known,
            )?;
            Ok(Initial::List(values))
        }
    }
}

// ---- functions

// A prototype declares a function.
fn declares_function(
    place: Place,
    name: u32,
    forms: bool,
    signature: &Signature,
    setting: Setting<'_>,
    env: &Env<'_>,
    known: &mut Known,
) -> Result<(), Stop>
    ensures { (tags : List ScopeTag) → Meets (λ u. tt {0}) (pure.declares_function (view_setting
        setting.entry) (view_env env.now) place name forms (view_signature signature.now)
        (state_with tags known.old)) (state_with tags known.new) result }
{
    let again = prototype_again(setting, env, known, name, signature);
    judged(
        typing_rules_checks::declarations::declares_function(again, forms, signature),
        place,
    )?;
    let copy = copy_signature(setting.alloc, signature)?;
    note_function(known, name, copy, false)?;
    Ok(())
}

// The types of the parameters of a prototype, which are in a scope of their own.
fn prototype_types(
    parameters: &Parameters,
    setting: Setting<'_>,
    env: &Env<'_>,
    tags: &Tags<'_>,
    known: &mut Known,
) -> Result<Vec<CType>, Stop>
    ensures { Meets (λ ts. map types.view ts.items) (andthen (enclosed (walks.walk_parameters
        (view_setting setting.entry) (scopes.inside (view_env env.now)) (view_parameters
        parameters.now))) (λ d. give d.types) (state_of tags.now known.old)) (state_of tags.now
        known.new) result }
{
    let mut scope = inside(setting.alloc, env)?;
    let mut inner = enclosed(setting.alloc, tags);
    let all = walk_parameters(parameters, setting, &mut scope, &mut inner, known)?;
    Ok(all)
}

// A prototype: a function is declared. It has no initialiser.
fn walk_prototype(
    pointers: &[Pointer],
    name: Name,
    parameters: &Parameters,
    initial: &upc_tree::Initial,
    t: &Shaped,
    setting: Setting<'_>,
    env: &mut Env<'_>,
    tags: &mut Tags<'_>,
    known: &mut Known,
) -> Result<(), Stop>
    ensures { (place : Place) (objects : List DeclaredObject) → Meets (λ u. record {
      scope =
          view_env env.new;
      objects = objects;
    }) (pure.walk_declared (view_setting setting.entry)
        place (view_shaped t.now) (record { scope = view_env env.old; objects = objects })
        (d.DeclaredAs (expression_tree.FunctionDeclarator (pointers_of (map view_pointer pointers.now)) name
        (view_parameters parameters.now)) (trees.view_initial initial.now)) (state_of tags.old
        known.old)) (state_of tags.new known.new) result }
{
    let t = copy_shaped(t)?;
    let p = walk_pointers(pointers, false, t, setting, env, tags, known)?;
    let parameters = prototype_types(parameters, setting, env, tags, known)?;
    let signature = Signature {
        result: p.ctype,
        parameters,
    };
    let at = pointers_place(pointers, name);
    declares_function(at, name.number, p.forms, &signature, setting, env, known)?;
    enter_function(env, name.number, signature)?;
    walk_initial(initial, at, false, &int_type(), setting, env, tags, known)?;
    Ok(())
}

// ---- objects

// An object is declared.
fn judge_object(
    name: Name,
    f: &Formed,
    at: Place,
    setting: Setting<'_>,
    env: &Env<'_>,
    known: &mut Known,
) -> Result<(), Stop>
    ensures { (tags : List ScopeTag) → Meets (λ u. tt {0}) (judge (view_setting setting.entry) at
        (node.DeclaresObject (stands.object_again (view_setting setting.entry) (view_env env.now) name)
        (scopes.is_file (view_env env.now)) (view_formed f.now)) (state_with tags known.old))
        (state_with tags known.new) result }
{
    let again = object_again(setting, env, name);
    judged(declares_object(&known.structs, again, is_file(env), f), at)?;
    note_more(known, 1)?;
    Ok(())
}

fn has_sizes(sizes: &[Dimension]) -> bool
    ensures { result ≡ shapes.has_sizes (dimensions_of (map view_dimension sizes.now)) }
{
    match sizes {
        [] => false,
        [_, ..] => true,
    }
}

fn is_none(pointers: &[Pointer]) -> bool
    ensures { result ≡ shapes.is_none (pointers_of (map view_pointer pointers.now)) }
{
    match pointers {
        [] => true,
        [_, ..] => false,
    }
}

// An object with its initialiser, in which it is in scope already (C99 6.2.1).
fn walk_object(
    pointers: &[Pointer],
    name: Name,
    sizes: &[Dimension],
    initial: &upc_tree::Initial,
    place: Place,
    t: &Shaped,
    setting: Setting<'_>,
    env: &mut Env<'_>,
    tags: &mut Tags<'_>,
    known: &mut Known,
) -> Result<Object, Stop>
    ensures { (objects : List DeclaredObject) → Meets (λ x. record {
      scope = view_env env.new;
      objects = objects ++ (view_object x ∷ []);
    }) (pure.walk_declared (view_setting
        setting.entry) place (view_shaped t.now) (record {
          scope = view_env env.old;
          objects =
              objects;
        }) (d.DeclaredAs (expression_tree.ObjectDeclarator (pointers_of (map view_pointer pointers.now))
        name (dimensions_of (map view_dimension sizes.now))) (trees.view_initial initial.now))
        (state_of tags.old known.old)) (state_of tags.new known.new) result }
{
    let t = copy_shaped(t)?;
    let p = walk_pointers(pointers, has_sizes(sizes), t, setting, env, tags, known)?;
    let sizes = walk_sizes(sizes, setting, env, tags, known)?;
    let f = formed(setting.alloc, setting.threads, p, sizes)?;
    let at = pointers_place(pointers, name);
    judge_object(name, &f, at, setting, env, known)?;
    let home = next_home(&f.ctype, env)?;
    let copy = copy_type(&f.ctype)?;
    declare(env, name.number, copy)?;
    let initial = walk_initial(initial, at, true, &f.ctype, setting, env, tags, known)?;
    let text = Text::from_slice(setting.alloc, spelling(setting, name.number))?;
    Ok(Object {
        place,
        name: text,
        home,
        ctype: f.ctype,
        initial,
    })
}

// A declarator with its initialiser.
fn walk_declared(
    declared: &Declared,
    place: Place,
    t: &Shaped,
    objects: &mut Vec<Object>,
    setting: Setting<'_>,
    env: &mut Env<'_>,
    tags: &mut Tags<'_>,
    known: &mut Known,
) -> Result<(), Stop>
    ensures { Meets (λ u. record {
      scope = view_env env.new;
      objects = map view_object
          objects.new.items;
    }) (pure.walk_declared (view_setting setting.entry) place (view_shaped
        t.now) (record { scope = view_env env.old; objects = map view_object objects.old.items })
        (trees.view_declared declared.now) (state_of tags.old known.old)) (state_of tags.new
        known.new) result }
{
    let initial = &declared.initial;
    match &*declared.declarator {
        Declarator::Object {
            pointers,
            name,
            sizes,
        } => {
            let pointers = pointers.as_slice();
            let sizes = sizes.as_slice();
            let object = walk_object(
                pointers, *name, sizes, initial, place, t, setting, env, tags, known,
            )?;
            objects.push(object)?;
            Ok(())
        }
        Declarator::Function {
            pointers,
            name,
            parameters,
        } => {
            let pointers = pointers.as_slice();
            walk_prototype(
                pointers, *name, parameters, initial, t, setting, env, tags, known,
            )
        }
    }
}

fn walk_next_declareds(
    more: &[NextDeclared],
    place: Place,
    t: &Shaped,
    objects: &mut Vec<Object>,
    setting: Setting<'_>,
    env: &mut Env<'_>,
    tags: &mut Tags<'_>,
    known: &mut Known,
) -> Result<(), Stop>
    ensures { Meets (λ u. record {
      scope = view_env env.new;
      objects = map view_object
          objects.new.items;
    }) (pure.walk_next_declareds (view_setting setting.entry) place
        (view_shaped t.now) (record {
          scope = view_env env.old;
          objects = map view_object
              objects.old.items;
        }) (next_declareds_of (map view_next_declared more.now)) (state_of
        tags.old known.old)) (state_of tags.new known.new) result }
{
    for part in more {
        walk_declared(&part.declared, place, t, objects, setting, env, tags, known)?;
    }
    Ok(())
}

fn walk_declared_list(
    list: &Option<Box<DeclaredList>>,
    place: Place,
    t: &Shaped,
    setting: Setting<'_>,
    env: &mut Env<'_>,
    tags: &mut Tags<'_>,
    known: &mut Known,
) -> Result<Vec<Object>, Stop>
    ensures { Meets (λ xs. record { scope = view_env env.new; objects = map view_object xs.items })
        (pure.walk_declared_list (view_setting setting.entry) place (view_shaped t.now) (record {
          scope = view_env env.old;
          objects = [];
        }) (trees.view_declared_list list.now) (state_of
        tags.old known.old)) (state_of tags.new known.new) result }
{
    let mut objects = Vec::new(setting.alloc);
    match list {
        None => Ok(objects),
        Some(list) => {
            walk_declared(
                &list.first,
                place,
                t,
                &mut objects,
                setting,
                env,
                tags,
                known,
            )?;
            let more = list.more.as_slice();
            walk_next_declareds(more, place, t, &mut objects, setting, env, tags, known)?;
            Ok(objects)
        }
    }
}

// ---- declarations

fn is_plain_array(declarator: &Declarator) -> bool
    ensures { result ≡ pure.is_plain_array (view_declarator declarator.now) }
{
    match declarator {
        Declarator::Object {
            pointers,
            sizes,
            ..
        } => { is_none(pointers.as_slice()) && has_sizes(sizes.as_slice()) }
        Declarator::Function { .. } => false,
    }
}

fn all_plain_arrays(more: &[NextDeclared]) -> bool
    ensures { result ≡ pure.all_plain_arrays (next_declareds_of (map view_next_declared more.now)) }
{
    for part in more {
        if !is_plain_array(&part.declared.declarator) {
            return false;
        }
    }
    true
}

fn declares_arrays(list: &Option<Box<DeclaredList>>) -> bool
    ensures { result ≡ pure.declares_arrays (trees.view_declared_list list.now) }
{
    match list {
        None => false,
        Some(list) => is_plain_array(&list.first.declarator)
            && all_plain_arrays(list.more.as_slice()),
    }
}

fn specifying(at: Place, env: &Env<'_>, list: &Option<Box<DeclaredList>>) -> Specifying
    ensures { view_specifying result ≡ pure.specifying at (view_env env.now) (trees.view_declared_list
        list.now) }
{
    Specifying {
        at,
        star: declares_arrays(list),
        may_be_static: is_file(env),
        alone: list.is_none(),
    }
}

// The specifiers of a declaration, which ends there.
fn judge_specifiers(
    file: bool,
    found: &Specified,
    at: Place,
    setting: Setting<'_>,
    known: &mut Known,
) -> Result<(), Stop>
    ensures { (tags : List ScopeTag) → Meets (λ u. tt {0}) (judge (view_setting setting.entry) at
        (node.Specifies (specifiers.specifiers_form file (view_specified found.now))) (state_with tags
        known.old)) (state_with tags known.new) result }
{
    judged(specifies(specifiers_form(file, found)), at)?;
    note_end(known, at);
    Ok(())
}

/// A declaration: the objects that it declares, in order. Its specifiers form a type before its declarators, and what
/// else they break is judged after its initialisers.
pub fn walk_declaration(
    declaration: &Declaration,
    setting: Setting<'_>,
    env: &mut Env<'_>,
    tags: &mut Tags<'_>,
    known: &mut Known,
) -> Result<Vec<Object>, Stop>
    ensures { Meets (λ xs. record { scope = view_env env.new; objects = map view_object xs.items })
        (pure.walk_declaration (view_setting setting.entry) (view_env env.old)
        (trees.view_declaration declaration.now) (state_of tags.old known.old)) (state_of tags.new
        known.new) result }
{
    let file = is_file(env);
    let list = &declaration.declared;
    let specs = declaration.specs.as_slice();
    let place = specs_place(specs);
    let how = specifying(place, env, list);
    let found = walk_specifiers(specs, how, setting, env, tags, known)?;
    let t = specified_type(&found);
    let objects = walk_declared_list(list, place, &t, setting, env, tags, known)?;
    judge_specifiers(file, &found, place, setting, known)?;
    Ok(objects)
}
