//! The tags of a part of the source itself, found by their names.

ghost use Rattle.std.specs.Prelude.{◌≡◌};
ghost use Rattle.upc_checker_scopes.specs.code.ViewOwnTags.{names_of};

use crate::places_of_names::{Places, last_place, no_places, note_place, place_before};
use std::alloc::Global;
use upc_text::OutOfMemory;

/// A tag of a struct, with the level of its scope.
#[derive(Clone, Copy)]
pub struct Tag {
    pub name: u32,
    pub level: u32,
    pub number: u32,
}

/// Tags in the order of their declarations, with the places of their names.
#[derive(Drop)]
pub struct OwnTags {
    list: Vec<Tag>,
    places: Places,
    ghost named: { places.names.items ≡ names_of list.items },
}

impl OwnTags {
    ghost use Rattle.std.specs.Prelude.{◌≡◌, ◌∷◌, [], OnOk, OnErr};
    ghost use Rattle.typed_tree.specs.Scopes as pure;
    ghost use Rattle.upc_checker_scopes.specs.layer.ViewTags.{view_own_tags};
    ghost use Rattle.upc_checker_scopes.specs.code.ViewOwnTags.{view_tag};

    /// No tag.
    pub fn new(alloc: Global) -> OwnTags
        ensures { view_own_tags result ≡ [] }
    {
        OwnTags {
            list: Vec::new(alloc),
            places: no_places(alloc),
        }
    }

    /// The struct of the latest tag with that name. Takes no memory.
    pub fn find(&self, name: u32) -> Option<u32>
        ensures { result ≡ pure.find_tag name (view_own_tags self.now) }
    {
        match last_place(&self.places, name) {
            None => None,
            Some(place) => Some(self.list[place].number),
        }
    }

    /// The struct of the latest tag with that name and that level. Takes no memory.
    pub fn here(&self, name: u32, level: u32) -> Option<u32>
        ensures { result ≡ pure.tag_here name level (view_own_tags self.now) }
    {
        let mut at = last_place(&self.places, name);
        while let Some(place) = at {
            let tag = self.list[place];
            if tag.level == level {
                return Some(tag.number);
            }
            at = place_before(&self.places, place);
        }
        None
    }

    /// One more tag. After want of memory nothing is changed.
    pub fn note(&mut self, tag: Tag) -> Result<(), OutOfMemory>
        ensures ok { OnOk result (view_own_tags self.new ≡ view_tag tag ∷ view_own_tags self.old) }
        ensures err { OnErr result (view_own_tags self.new ≡ view_own_tags self.old) }
    {
        self.list.reserve(1)?;
        note_place(&mut self.places, tag.name)?;
        self.list.push(tag).unwrap();
        Ok(())
    }
}
