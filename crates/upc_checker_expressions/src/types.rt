//! The walk over specifiers, declarators and parameters (C99 6.7, UPC 6.5).

ghost use Rattle.std.specs.Prelude.{◌≡◌, ◌<◌, ◌+◌, ◌&&◌, [], drop, length, map};
ghost use Rattle.upc_tree.specs.layer.Lists.{dimensions_of, members_of, next_declarators_of, next_parameters_of};
ghost use Rattle.upc_tree.specs.layer.Lists.{pointers_of, quals_of, specs_of};
ghost use Rattle.upc_tree.specs.layer.View.{view_array, view_declarator, view_dimension, view_layout, view_member};
ghost use Rattle.upc_tree.specs.layer.View.{view_next_declarator, view_next_parameter, view_parameter, view_parameters};
ghost use Rattle.upc_tree.specs.layer.View.{view_pointer, view_qual, view_spec, view_type};
ghost use Rattle.upc_types.specs.View as types;
ghost use Rattle.typed_tree.specs.layer.ViewEnv.{view_env};
ghost use Rattle.typing_rules.specs.layer.Views.{view_formed};
ghost use Rattle.upc_checker_scopes.specs.layer.Ends.{Meets};
ghost use Rattle.upc_checker_expressions.specs.Expressions as pure;
ghost use Rattle.upc_checker_types.specs.Shapes as shapes;
ghost use Rattle.upc_checker_scopes.specs.layer.Views.{state_of, view_setting};
ghost use Rattle.upc_checker_types.specs.layer.ViewShapes.{view_blocks, view_qualifier, view_quals, view_shaped};
ghost use Rattle.upc_checker_types.specs.layer.ViewShapes.{view_specified, view_specifier, view_specifying};

use crate::expressions::{constantly, walk};
use typed_tree::env::{Env, inside};
use typing_rules::{Constant, Formed, Use};
use typing_rules_checks::declarations::{
    block, member, member_function, parameter, specifies, star_block,
};
use upc_checker_scopes::finish::judged;
use upc_checker_scopes::known::{Known, close_struct, is_again, note_end, open_struct, refer};
use upc_checker_scopes::places::{declarator_place, specs_place};
use upc_checker_scopes::setting::{Setting, spelling};
use upc_checker_scopes::tags::{Tags, enclosed};
use upc_checker_types::members::{
    Members, add_member, add_parameter, all_members, has_member, no_members,
};
use upc_checker_types::shaped::{
    Shaped, copy_shaped, formed, named_type, parameter_array, pointer_to, specified_type,
};
use upc_checker_types::specified::{
    Blocks, Qualifier, Quals, Specified, Specifier, Specifying, add_qual, add_specifier,
    block_size, forms_type, in_type, no_quals, nothing_specified, specifiers_form,
};
use upc_text::{Place, Stop};
use upc_tree::{
    Declarator, Dimension, Layout, NextDeclarator, NextParameter, Parameter, ParameterArray,
    Parameters, Pointer, Qual, Spec, TypeName,
};
use upc_types::{CType, Member};

/// A type name, which is refused there.
#[cycle(walk)]
pub fn walk_type(
    t: &TypeName,
    at: Place,
    setting: Setting<'_>,
    env: &Env<'_>,
    tags: &mut Tags<'_>,
    known: &mut Known,
) -> Result<Formed, Stop>
    ensures { Meets view_formed (pure.walk_type (view_setting setting.entry) (view_env env.now)
        at (view_type t.now) (state_of tags.old known.old)) (state_of tags.new known.new) result }
{
    let found = walk_specifiers(t.specs.as_slice(), in_type(at), setting, env, tags, known)?;
    let shaped = specified_type(&found);
    let shaped = walk_pointers(
        t.pointers.as_slice(),
        false,
        shaped,
        setting,
        env,
        tags,
        known,
    )?;
    let sizes = walk_sizes(t.sizes.as_slice(), setting, env, tags, known)?;
    let shaped = named_type(specifiers_form(false, &found), shaped);
    Ok(formed(setting.alloc, setting.threads, shaped, sizes)?)
}

/// Specifiers and qualifiers, where this stands around them. They form a type.
#[cycle(walk)]
pub fn walk_specifiers(
    specs: &[Spec],
    how: Specifying,
    setting: Setting<'_>,
    env: &Env<'_>,
    tags: &mut Tags<'_>,
    known: &mut Known,
) -> Result<Specified, Stop>
    ensures { Meets view_specified (pure.walk_specifiers (view_setting setting.entry) (view_env env.now)
        (view_specifying how) (specs_of (map view_spec specs.now)) (state_of tags.old known.old))
        (state_of tags.new known.new) result }
{
    let found = walk_specs(specs, how, setting, env, tags, known)?;
    judged(specifies(forms_type(&found)), how.at)?;
    Ok(found)
}

#[cycle(walk)]
fn walk_specs(
    specs: &[Spec],
    how: Specifying,
    setting: Setting<'_>,
    env: &Env<'_>,
    tags: &mut Tags<'_>,
    known: &mut Known,
) -> Result<Specified, Stop>
    ensures { Meets view_specified (pure.walk_specs (view_setting setting.entry) (view_env env.now)
        (view_specifying how) (specs_of (map view_spec specs.now)) (state_of tags.old known.old))
        (state_of tags.new known.new) result }
{
    let mut found = nothing_specified(setting.alloc);
    for spec in specs {
        let specifier = walk_spec(spec, how, setting, env, tags, known)?;
        add_specifier(&mut found, specifier)?;
    }
    Ok(found)
}

#[cycle(walk)]
fn walk_spec(
    spec: &Spec,
    how: Specifying,
    setting: Setting<'_>,
    env: &Env<'_>,
    tags: &mut Tags<'_>,
    known: &mut Known,
) -> Result<Specifier, Stop>
    ensures { Meets view_specifier (pure.walk_spec (view_setting setting.entry) (view_env env.now)
        (view_specifying how) (view_spec spec.now) (state_of tags.old known.old)) (state_of tags.new
        known.new) result }
{
    match spec {
        Spec::Word { word, .. } => Ok(Specifier::Word(*word)),
        Spec::Qual(qual) => {
            let qualifier = walk_qual(qual, how.star, setting, env, tags, known)?;
            Ok(Specifier::Qual(qualifier))
        }
        Spec::Tag { tag, .. } => {
            let number = refer(how.alone, env, tag.number, tags, known)?;
            Ok(Specifier::Struct(number))
        }
        Spec::Struct {
            word,
            tag,
            members,
            ..
        } => {
            let number = open_struct(env, tag.number, tags, known)?;
            let all = walk_members(members.as_slice(), setting, env, tags, known)?;
            close_struct(setting, word.place, number, all, known)?;
            Ok(Specifier::Struct(number))
        }
    }
}

#[cycle(walk)]
fn walk_quals(
    quals: &[Qual],
    star: bool,
    setting: Setting<'_>,
    env: &Env<'_>,
    tags: &mut Tags<'_>,
    known: &mut Known,
) -> Result<Quals, Stop>
    ensures { Meets view_quals (pure.walk_quals (view_setting setting.entry) (view_env env.now) star
        (quals_of (map view_qual quals.now)) (state_of tags.old known.old)) (state_of tags.new
        known.new) result }
{
    let mut all = no_quals(setting.alloc);
    for qual in quals {
        let qualifier = walk_qual(qual, star, setting, env, tags, known)?;
        add_qual(&mut all, qualifier)?;
    }
    Ok(all)
}

#[cycle(walk)]
fn walk_qual(
    qual: &Qual,
    star: bool,
    setting: Setting<'_>,
    env: &Env<'_>,
    tags: &mut Tags<'_>,
    known: &mut Known,
) -> Result<Qualifier, Stop>
    ensures { Meets view_qualifier (pure.walk_qual (view_setting setting.entry) (view_env env.now)
        star (view_qual qual.now) (state_of tags.old known.old)) (state_of tags.new known.new)
        result }
{
    match qual {
        Qual::Const(_) => Ok(Qualifier::Const),
        Qual::Strict(_) => Ok(Qualifier::Strict),
        Qual::Relaxed(_) => Ok(Qualifier::Relaxed),
        Qual::Shared { layout, .. } => {
            let found = walk_layout(layout, star, setting, env, tags, known)?;
            Ok(Qualifier::Shared(found))
        }
    }
}

// A layout: none is block size 1, an empty one is indefinite.
#[cycle(walk)]
fn walk_layout(
    layout: &Layout,
    star: bool,
    setting: Setting<'_>,
    env: &Env<'_>,
    tags: &mut Tags<'_>,
    known: &mut Known,
) -> Result<Blocks, Stop>
    ensures { Meets view_blocks (pure.walk_layout (view_setting setting.entry) (view_env env.now)
        star (view_layout layout.now) (state_of tags.old known.old)) (state_of tags.new known.new)
        result }
{
    match layout {
        Layout::Absent => Ok(Blocks::Size(1)),
        Layout::Indefinite { .. } => Ok(Blocks::Size(0)),
        Layout::Star { open, .. } => {
            judged(star_block(star), open.place)?;
            Ok(Blocks::Star)
        }
        Layout::Block { open, size, .. } => {
            let a = walk(size, Use::Plain, setting, env, tags, known)?;
            let constant = constantly(setting, &a)?;
            judged(block(&a.attr), open.place)?;
            Ok(Blocks::Size(block_size(constant)))
        }
    }
}

// Whether `[*]` may stand after a star, which it may after the last one.
fn is_last(star: bool, pointers: &[Pointer], i: usize) -> bool
    requires { i < length pointers.now }
    ensures { result ≡ (star && shapes.is_none (pointers_of (map view_pointer (drop (i + 1)
        pointers.now)))) }
{
    star && i + 1 == pointers.len()
}

/// Stars after a type; `star`: `[*]` may stand after the last one.
#[cycle(walk)]
pub fn walk_pointers(
    pointers: &[Pointer],
    star: bool,
    t: Shaped,
    setting: Setting<'_>,
    env: &Env<'_>,
    tags: &mut Tags<'_>,
    known: &mut Known,
) -> Result<Shaped, Stop>
    ensures { Meets view_shaped (pure.walk_pointers (view_setting setting.entry) (view_env env.now)
        star (view_shaped t) (pointers_of (map view_pointer pointers.now)) (state_of tags.old
        known.old)) (state_of tags.new known.new) result }
{
    let mut t = t;
    for (i, pointer) in pointers.iter().enumerate() {
        let last = is_last(star, pointers, i);
        let quals = walk_quals(pointer.quals.as_slice(), last, setting, env, tags, known)?;
        t = pointer_to(setting.alloc, t, &quals)?;
    }
    Ok(t)
}

/// Sizes in brackets.
#[cycle(walk)]
pub fn walk_sizes(
    sizes: &[Dimension],
    setting: Setting<'_>,
    env: &Env<'_>,
    tags: &mut Tags<'_>,
    known: &mut Known,
) -> Result<Vec<Constant>, Stop>
    ensures { Meets (λ cs. cs.items) (pure.walk_sizes (view_setting setting.entry) (view_env
        env.now) (dimensions_of (map view_dimension sizes.now)) (state_of tags.old known.old))
        (state_of tags.new known.new) result }
{
    let mut all = Vec::new(setting.alloc);
    for part in sizes {
        let a = walk(&part.size, Use::Plain, setting, env, tags, known)?;
        all.push(constantly(setting, &a)?)?;
    }
    Ok(all)
}

// The members of a struct.
#[cycle(walk)]
fn walk_members(
    lines: &[upc_tree::Member],
    setting: Setting<'_>,
    env: &Env<'_>,
    tags: &mut Tags<'_>,
    known: &mut Known,
) -> Result<Vec<Member>, Stop>
    ensures { Meets (λ ms. map types.view_member ms.items) (pure.walk_members (view_setting
        setting.entry) (view_env env.now) [] (members_of (map view_member lines.now)) (state_of
        tags.old known.old)) (state_of tags.new known.new) result }
{
    let mut members = no_members(setting.alloc);
    for line in lines {
        let specs = line.specs.as_slice();
        let at = specs_place(specs);
        let found = walk_specifiers(specs, in_type(at), setting, env, tags, known)?;
        let t = specified_type(&found);
        walk_member(&line.first, &t, &mut members, setting, env, tags, known)?;
        let more = line.more.as_slice();
        walk_next_members(more, &t, &mut members, setting, env, tags, known)?;
        judged(specifies(specifiers_form(false, &found)), at)?;
        note_end(known, at);
    }
    Ok(all_members(members))
}

// Further members of a line.
#[cycle(walk)]
fn walk_next_members(
    more: &[NextDeclarator],
    t: &Shaped,
    members: &mut Members,
    setting: Setting<'_>,
    env: &Env<'_>,
    tags: &mut Tags<'_>,
    known: &mut Known,
) -> Result<(), Stop>
    ensures { Meets (λ u. map types.view_member members.new.all.items) (pure.walk_next_members
        (view_setting setting.entry) (view_env env.now) (view_shaped t.now) (map types.view_member
        members.old.all.items) (next_declarators_of (map view_next_declarator more.now)) (state_of
        tags.old known.old)) (state_of tags.new known.new) result }
{
    for part in more {
        walk_member(&part.declarator, t, members, setting, env, tags, known)?;
    }
    Ok(())
}

// A member of a struct; a function is none.
#[cycle(walk)]
fn walk_member(
    declarator: &Declarator,
    t: &Shaped,
    members: &mut Members,
    setting: Setting<'_>,
    env: &Env<'_>,
    tags: &mut Tags<'_>,
    known: &mut Known,
) -> Result<(), Stop>
    ensures { Meets (λ u. map types.view_member members.new.all.items) (pure.walk_member (view_setting
        setting.entry) (view_env env.now) (view_shaped t.now) (map types.view_member
        members.old.all.items) (view_declarator declarator.now) (state_of tags.old known.old)) (state_of
        tags.new known.new) result }
{
    let t = copy_shaped(t)?;
    let at = declarator_place(declarator);
    match declarator {
        Declarator::Object {
            pointers,
            name,
            sizes,
        } => {
            let t = walk_pointers(pointers.as_slice(), false, t, setting, env, tags, known)?;
            let sizes = walk_sizes(sizes.as_slice(), setting, env, tags, known)?;
            let t = formed(setting.alloc, setting.threads, t, sizes)?;
            let text = spelling(setting, name.number);
            let again = has_member(members, text);
            judged(member(&known.structs, again, &t), at)?;
            Ok(add_member(setting.alloc, members, text, t.ctype)?)
        }
        Declarator::Function {
            pointers,
            name,
            parameters,
        } => {
            let t = walk_pointers(pointers.as_slice(), false, t, setting, env, tags, known)?;
            let mut scope = inside(setting.alloc, env)?;
            let mut inner = enclosed(setting.alloc, &*tags);
            walk_parameters(parameters, setting, &mut scope, &mut inner, known)?;
            judged(member_function(t.forms, &t.ctype), at)
        }
    }
}

/// Parameters, which are declared in this scope: their types.
#[cycle(walk)]
pub fn walk_parameters(
    parameters: &Parameters,
    setting: Setting<'_>,
    scope: &mut Env<'_>,
    tags: &mut Tags<'_>,
    known: &mut Known,
) -> Result<Vec<CType>, Stop>
    ensures { Meets (λ ts. record { types = map types.view ts.items; scope = view_env scope.new })
        (pure.walk_parameters (view_setting setting.entry) (view_env scope.old) (view_parameters
        parameters.now) (state_of tags.old known.old)) (state_of tags.new known.new) result }
{
    match parameters {
        Parameters::Empty { .. } => Ok(Vec::new(setting.alloc)),
        Parameters::Void { .. } => Ok(Vec::new(setting.alloc)),
        Parameters::Filled { first, more, .. } => {
            let mut all = Vec::new(setting.alloc);
            walk_parameter(first, &mut all, setting, scope, tags, known)?;
            walk_next_parameters(more.as_slice(), &mut all, setting, scope, tags, known)?;
            Ok(all)
        }
    }
}

// Further parameters.
#[cycle(walk)]
fn walk_next_parameters(
    more: &[NextParameter],
    all: &mut Vec<CType>,
    setting: Setting<'_>,
    scope: &mut Env<'_>,
    tags: &mut Tags<'_>,
    known: &mut Known,
) -> Result<(), Stop>
    ensures { Meets (λ u. record {
      types = map types.view all.new.items;
      scope = view_env scope.new;
    }) (pure.walk_next_parameters (view_setting setting.entry) (record {
      types = map types.view
          all.old.items;
      scope = view_env scope.old;
    }) (next_parameters_of (map view_next_parameter
        more.now)) (state_of tags.old known.old)) (state_of tags.new known.new) result }
{
    for part in more {
        walk_parameter(&part.parameter, all, setting, scope, tags, known)?;
    }
    Ok(())
}

#[cycle(walk)]
fn walk_parameter(
    x: &Parameter,
    all: &mut Vec<CType>,
    setting: Setting<'_>,
    scope: &mut Env<'_>,
    tags: &mut Tags<'_>,
    known: &mut Known,
) -> Result<(), Stop>
    ensures { Meets (λ u. record {
      types = map types.view all.new.items;
      scope = view_env scope.new;
    }) (pure.walk_parameter (view_setting setting.entry) (record {
      types = map types.view
          all.old.items;
      scope = view_env scope.old;
    }) (view_parameter x.now) (state_of tags.old
        known.old)) (state_of tags.new known.new) result }
{
    let specs = x.specs.as_slice();
    let at = specs_place(specs);
    let found = walk_specifiers(specs, in_type(at), setting, scope, tags, known)?;
    let t = specified_type(&found);
    let stars = x.pointers.as_slice();
    let t = walk_pointers(stars, false, t, setting, scope, tags, known)?;
    let t = named_type(specifiers_form(false, &found), t);
    let t = walk_array(&x.array, t, setting, scope, tags, known)?;
    let again = is_again(setting, scope, x.name);
    judged(parameter(&known.structs, again, &t), at)?;
    Ok(add_parameter(all, scope, x.name, &t.ctype)?)
}

// The brackets of a parameter.
#[cycle(walk)]
fn walk_array(
    array: &ParameterArray,
    t: Shaped,
    setting: Setting<'_>,
    env: &Env<'_>,
    tags: &mut Tags<'_>,
    known: &mut Known,
) -> Result<Formed, Stop>
    ensures { Meets view_formed (pure.walk_array (view_setting setting.entry) (view_env env.now)
        (view_shaped t) (view_array array.now) (state_of tags.old known.old)) (state_of tags.new
        known.new) result }
{
    let (alloc, threads) = (setting.alloc, setting.threads);
    match array {
        ParameterArray::Absent => Ok(formed(alloc, threads, t, Vec::new(alloc))?),
        ParameterArray::Unsized { .. } => Ok(parameter_array(alloc, threads, t, None)?),
        ParameterArray::Sized { size, .. } => {
            let a = walk(size, Use::Plain, setting, env, tags, known)?;
            let size = constantly(setting, &a)?;
            Ok(parameter_array(alloc, threads, t, Some(size))?)
        }
    }
}
