//! The tags in scope (C99 6.2.1, 6.2.3).

ghost use Rattle.std.specs.Prelude.{◌≡◌, ◌∷◌, [], OnOk, OnErr};
ghost use Rattle.typed_tree.specs.Scopes as pure;
ghost use Rattle.upc_checker_scopes.specs.code.ViewOwnTags.{view_tag};
ghost use Rattle.upc_checker_scopes.specs.layer.ViewTags.{view_tags};

use crate::own_tags::{OwnTags, Tag};
use std::alloc::Global;
use upc_text::OutOfMemory;

/// The tags of a part of the source in the order of their declarations, and those around it.
#[cycle(tags)]
#[derive(Drop)]
pub struct Tags<'o> {
    own: OwnTags,
    outer: Around<'o>,
}

/// What is around a part of the source.
#[cycle(tags)]
#[derive(Drop)]
pub enum Around<'o> {
    Nothing,
    Within(&'o Tags<'o>),
}

impl<'o> Tags<'o> {
    ghost use Rattle.std.specs.Prelude.{◌≡◌, []};
    ghost use Rattle.upc_checker_scopes.specs.layer.ViewTags.{view_tags};

    /// No tag.
    pub fn new(alloc: Global) -> Tags<'static>
        ensures { view_tags result ≡ [] }
    {
        Tags {
            own: OwnTags::new(alloc),
            outer: Around::Nothing,
        }
    }
}

/// The tags of a part inside: at first those around it.
pub fn enclosed<'o>(alloc: Global, tags: &'o Tags<'o>) -> Tags<'o>
    ensures { view_tags result ≡ view_tags tags.now }
{
    Tags {
        own: OwnTags::new(alloc),
        outer: Around::Within(tags),
    }
}

/// The struct of a tag: the innermost one. Takes no memory.
pub fn find_tag(name: u32, tags: &Tags<'_>) -> Option<u32>
    ensures { result ≡ pure.find_tag name (view_tags tags.now) }
{
    match tags.own.find(name) {
        Some(number) => Some(number),
        None => match &tags.outer {
            Around::Nothing => None,
            Around::Within(outer) => find_tag(name, outer),
        },
    }
}

/// The struct of a tag of a scope itself. Takes no memory.
pub fn tag_here(name: u32, level: u32, tags: &Tags<'_>) -> Option<u32>
    ensures { result ≡ pure.tag_here name level (view_tags tags.now) }
{
    match tags.own.here(name, level) {
        Some(number) => Some(number),
        None => match &tags.outer {
            Around::Nothing => None,
            Around::Within(outer) => tag_here(name, level, outer),
        },
    }
}

/// One more tag. After want of memory nothing is changed.
pub fn note_tag(tags: &mut Tags<'_>, tag: Tag) -> Result<(), OutOfMemory>
    ensures ok { OnOk result (view_tags tags.new ≡ view_tag tag ∷ view_tags tags.old) }
    ensures err { OnErr result (view_tags tags.new ≡ view_tags tags.old) }
{
    tags.own.note(tag)
}
