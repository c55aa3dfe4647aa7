//! The cells of the objects of a block.

ghost use Rattle.std.specs.Prelude.{◌≡◌, ◌++◌, ◌∷◌, [], map, OnOk};
ghost use Rattle.block_layout.specs.Shapes.{IsShape};
ghost use Rattle.upc_types.specs.View.{view};
ghost use Rattle.upc_types.specs.ViewStructs.{view_structs};
ghost use Rattle.upc_values.specs.Lists.{Each};
ghost use Rattle.typed_tree.specs.Tree.{NoItems};
ghost use Rattle.typed_tree.specs.ViewStatements.{view_item, view_items, view_object};
ghost use Rattle.source_meaning.specs.Types as pure;
ghost use Rattle.source_meaning.specs.Statements.{shapes_of, objects_in};
ghost use Rattle.upc_meaning_settings.specs.layer.Settings.{running_seen};

use crate::setting::Setting;
use block_layout::Shape;
use meaning_types::shape_of;
use std::alloc::Global;
use typed_tree::{Item, Object};
use upc_text::OutOfMemory;
use upc_types::CType;

/// Shapes of objects.
#[derive(Drop)]
pub struct Shapes {
    pub items: Vec<Shape>,
}

impl Shapes {
    /// No shape.
    pub fn new(alloc: Global) -> Shapes
        ensures { result.items.items ≡ [] }
    {
        Shapes {
            items: Vec::new(alloc),
        }
    }

    // The cells of one object more.
    #[tactic(auto, using(crate::proofs::Rows::each_more))]
    fn push(&mut self, setting: Setting<'_>, t: &CType) -> Result<(), OutOfMemory>
        ensures valid { OnOk result (Each IsShape self.old.items.items → Each IsShape self.new.items.items) }
        ensures value { OnOk result (self.new.items.items ≡ self.old.items.items
            ++ (pure.shape_of (view_structs setting.entry.structs.now) (view t.now) ∷ [])) }
    {
        let shape = shape_of(setting.runner.alloc, setting.structs, t)?;
        self.items.push(shape)?;
        Ok(())
    }

    /// Adds the cells of objects of these types.
    pub fn push_types(&mut self, setting: Setting<'_>, types: &[CType]) -> Result<(), OutOfMemory>
        ensures valid { OnOk result (Each IsShape self.old.items.items → Each IsShape self.new.items.items) }
        ensures value { OnOk result (self.new.items.items ≡ self.old.items.items
            ++ map (pure.shape_of (view_structs setting.entry.structs.now)) (map view types.now)) }
    {
        for t in types {
            self.push(setting, t)?;
        }
        Ok(())
    }

    /// Adds the cells of some objects.
    pub fn push_objects(
        &mut self,
        setting: Setting<'_>,
        objects: &[Object],
    ) -> Result<(), OutOfMemory>
        ensures valid { OnOk result (Each IsShape self.old.items.items → Each IsShape self.new.items.items) }
        ensures value { OnOk result (self.new.items.items ≡ self.old.items.items
            ++ shapes_of (running_seen setting.entry) (map view_object objects.now)) }
    {
        for object in objects {
            self.push(setting, &object.ctype)?;
        }
        Ok(())
    }

    // Adds the cells of the objects that a part of a block declares.
    fn push_item(&mut self, setting: Setting<'_>, item: &Item) -> Result<(), OutOfMemory>
        ensures valid { OnOk result (Each IsShape self.old.items.items → Each IsShape self.new.items.items) }
        ensures value { OnOk result (self.new.items.items ≡ self.old.items.items
            ++ shapes_of (running_seen setting.entry) (objects_in (view_item item.now NoItems))) }
    {
        match item {
            Item::Declare(objects) => self.push_objects(setting, objects.as_slice()),
            Item::Do(_) => Ok(()),
        }
    }

    /// Adds the cells of the objects that a block itself declares.
    pub fn push_items(&mut self, setting: Setting<'_>, items: &[Item]) -> Result<(), OutOfMemory>
        ensures valid { OnOk result (Each IsShape self.old.items.items → Each IsShape self.new.items.items) }
        ensures value { OnOk result (self.new.items.items ≡ self.old.items.items
            ++ shapes_of (running_seen setting.entry) (objects_in (view_items items.now))) }
    {
        for item in items {
            self.push_item(setting, item)?;
        }
        Ok(())
    }
}
