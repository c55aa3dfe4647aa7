//! What grows on the way through a source beside the tags: the structs, and all functions declared so far.

ghost use Rattle.std.specs.Prelude.{◌≡◌, [], ◌<◌, List, map, OnOk, OnErr};
ghost use Rattle.upc_types.specs.View.{view_member};
ghost use Rattle.typed_tree.specs.Scopes as pure;
ghost use Rattle.typed_tree.specs.Scopes.{Tag as ScopeTag};
ghost use Rattle.typed_tree.specs.layer.ViewEnv.{view_env};
ghost use Rattle.typing_rules.specs.layer.Views.{view_signature};
ghost use Rattle.upc_checker_scopes.specs.Counts as counts;
ghost use Rattle.upc_checker_scopes.specs.layer.Ends.{Meets};
ghost use Rattle.upc_checker_scopes.specs.layer.Views.{view_setting, state_of, state_with};
ghost use Rattle.upc_checker_scopes.specs.declared.known.Known as seen;
ghost use Rattle.upc_checker_scopes.specs.Known as stands;

use crate::finish::judged;
use crate::functions::Functions;
use crate::own_tags::Tag;
use crate::setting::{Setting, is_known, is_taken};
use crate::tags::{Tags, find_tag, note_tag, tag_here};
use std::alloc::Global;
use typed_tree::env::{Env, here, level};
use typing_rules::structs::struct_members;
use typing_rules::{Meaning, Signature};
use upc_text::{OutOfMemory, Place, Stop};
use upc_tree::Name;
use upc_types::{Base, CType, Layout, Member, Structs, copy_type, same_base, same_type};

/// The structs, the functions in the order of their declarations, how many objects, parameters of definitions and
/// functions have
/// come, and the first declaration up to whose end there were too many of them and of structs.
#[derive(Drop)]
pub struct Known {
    pub structs: Structs,
    pub functions: Functions,
    pub come: u32,
    pub above: Option<Place>,
}

/// Nothing is known yet.
pub fn nothing_known(alloc: Global) -> Known
    ensures { state_with [] result ≡ pure.begin }
{
    Known {
        structs: Structs::new(alloc),
        functions: Functions::new(alloc),
        come: 0,
        above: None,
    }
}

/// So many more come in. After want of memory nothing is changed.
pub fn note_more(known: &mut Known, more: u32) -> Result<(), OutOfMemory>
    ensures ok { OnOk result ((tags : List ScopeTag) → state_with tags known.new ≡ counts.with_more
        more (state_with tags known.old)) }
    ensures err { OnErr result ((tags : List ScopeTag) → state_with tags known.new ≡ state_with tags
        known.old) }
{
    known.come = known.come.checked_add(more).ok_or(OutOfMemory)?;
    Ok(())
}

/// A declaration or a definition ends there.
pub fn note_end(known: &mut Known, at: Place)
    ensures { (tags : List ScopeTag) → state_with tags known.new ≡ counts.ended 65535 at (state_with
        tags known.old) }
{
    let all = u64::from(known.come) + u64::from(known.structs.declared());
    if known.above.is_none() && all > 65_535 {
        known.above = Some(at);
    }
}

/// One more function. After want of memory nothing is changed.
pub fn note_function(
    known: &mut Known,
    name: u32,
    signature: Signature,
    is_defined: bool,
) -> Result<(), OutOfMemory>
    ensures ok { OnOk result ((tags : List ScopeTag) → state_with tags known.new ≡
        pure.with_function name (view_signature signature) is_defined (state_with tags known.old)) }
    ensures err { OnErr result ((tags : List ScopeTag) → state_with tags known.new ≡ state_with tags
        known.old) }
{
    known.functions.note(name, signature, is_defined)
}

/// Whether the function was declared with other types.
pub fn differs(known: &Known, name: u32, signature: &Signature) -> bool
    ensures { (tags : List ScopeTag) → result ≡ pure.differs name (view_signature signature.now)
        (state_with tags known.now).functions }
{
    known.functions.differs(name, signature)
}

/// Whether the function was defined.
pub fn was_defined(known: &Known, name: u32) -> bool
    ensures { (tags : List ScopeTag) → result ≡ pure.was_defined name (state_with tags
        known.now).functions }
{
    known.functions.was_defined(name)
}

// Whether a scope itself has an object of that name.
fn has_object(env: &Env<'_>, name: u32) -> bool
    ensures { result ≡ pure.is_object (pure.here name (view_env env.now)) }
{
    matches!(here(name, env), Meaning::Object(_, _))
}

/// Whether a prototype declares its name again.
pub fn prototype_again(
    setting: Setting<'_>,
    env: &Env<'_>,
    known: &Known,
    name: u32,
    signature: &Signature,
) -> bool
    ensures { (tags : List ScopeTag) → result ≡ stands.prototype_again (view_setting setting.entry)
        (view_env env.now) (state_with tags known.now) name (view_signature signature.now) }
{
    is_taken(setting, name) || has_object(env, name) || differs(known, name, signature)
}

/// Whether a definition declares its name again.
pub fn definition_again(setting: Setting<'_>, env: &Env<'_>, known: &Known, name: u32) -> bool
    ensures { (tags : List ScopeTag) → result ≡ stands.definition_again (view_setting setting.entry)
        (view_env env.now) (state_with tags known.now) name }
{
    is_taken(setting, name) || has_object(env, name) || was_defined(known, name)
}

/// Whether an object declares its name again.
pub fn object_again(setting: Setting<'_>, env: &Env<'_>, name: Name) -> bool
    ensures { result ≡ stands.object_again (view_setting setting.entry) (view_env env.now) name }
{
    is_taken(setting, name.number) || is_known(here(name.number, env))
}

/// Whether a parameter declares its name again.
pub fn is_again(setting: Setting<'_>, env: &Env<'_>, name: Option<Name>) -> bool
    ensures { result ≡ stands.is_again (view_setting setting.entry) (view_env env.now) name }
{
    match name {
        None => false,
        Some(name) => object_again(setting, env, name),
    }
}

// The struct that a tag named alone means, if there is one.
fn tag_seen(alone: bool, env: &Env<'_>, name: u32, tags: &Tags<'_>) -> Option<u32>
    ensures { (other : seen.Known) → result ≡ stands.tag_seen alone (view_env env.now) name
        (state_of tags.now other) }
{
    if alone {
        tag_here(name, level(env), tags)
    } else {
        find_tag(name, tags)
    }
}

/// The struct of a tag that is named alone: the visible one, or a new one that is incomplete.
pub fn refer(
    alone: bool,
    env: &Env<'_>,
    name: u32,
    tags: &mut Tags<'_>,
    known: &mut Known,
) -> Result<u32, Stop>
    ensures { Meets (λ n. n) (stands.refer alone (view_env env.now) name (state_of tags.old
        known.old)) (state_of tags.new known.new) result }
{
    if let Some(number) = tag_seen(alone, env, name, tags) {
        return Ok(number);
    }
    let number = known.structs.declare()?;
    let level = level(env);
    note_tag(
        tags,
        Tag {
            name,
            level,
            number,
        },
    )?;
    Ok(number)
}

/// The struct that is defined under a tag, which belongs to the scope itself.
pub fn open_struct(
    env: &Env<'_>,
    name: u32,
    tags: &mut Tags<'_>,
    known: &mut Known,
) -> Result<u32, Stop>
    ensures { Meets (λ n. n) (stands.open_struct (view_env env.now) name (state_of tags.old
        known.old)) (state_of tags.new known.new) result }
{
    refer(true, env, name, tags, known)
}

// The bytes of a struct, more than an object can have where there is no layout.
fn size_or_more(layout: Option<Layout>) -> u32
    ensures { result ≡ stands.size_or_more layout }
{
    match layout {
        None => 16_777_217,
        Some(layout) => layout.size,
    }
}

/// All members of a struct are known.
pub fn close_struct(
    setting: Setting<'_>,
    at: Place,
    number: u32,
    members: Vec<Member>,
    known: &mut Known,
) -> Result<(), Stop>
    ensures { (tags : List ScopeTag) → Meets (λ u. tt {0}) (stands.close_struct (view_setting
        setting.entry) at number (map view_member members.items) (state_with tags known.old))
        (state_with tags known.new) result }
{
    let again = known.structs.is_complete(&Base::Struct(number));
    let layout = known.structs.members_layout(members.as_slice());
    let bytes = u64::from(size_or_more(layout));
    judged(struct_members(again, members.len(), bytes), at)?;
    match layout {
        Some(layout) => known.structs.complete(number, members, layout)?,
        None => unreachable!(),
    }
    Ok(())
}
