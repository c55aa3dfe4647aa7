//! Operations by their names.

ghost use Rattle.std.specs.Prelude.{◌≡◌, [], ◌∷◌, ◌++◌, length, OnOk};

use std::alloc::Global;
use std::marker::Model;
use upc_text::OutOfMemory;
use upc_values::Op;

/// An operation by its name, and whether it is strict.
#[derive(Clone, Copy)]
pub struct Named {
    pub name: Op,
    pub strict: bool,
}

/// A list of them.
#[derive(Drop)]
pub struct Names {
    list: Vec<Named>,
}

impl Model for Names {
    ghost use Rattle.std.specs.Prelude.{List};
    ghost use Rattle.order_builder.specs.declared.names.Named.{Named};

    ghost Value = { List Named };

    ghost view = { λ s. s.list.items };
}

impl Names {
    /// The empty list.
    pub fn new(alloc: Global) -> Names
        ensures { result ≡ [] }
    {
        Names {
            list: Vec::new(alloc),
        }
    }

    /// The members.
    pub fn as_slice(&self) -> &[Named]
        ensures { result.now ≡ self.now }
    {
        self.list.as_slice()
    }

    /// How many members there are.
    pub fn len(&self) -> usize
        ensures { result ≡ length self.now }
    {
        self.list.len()
    }

    /// Adds one at the end.
    pub fn push(&mut self, named: Named) -> Result<(), OutOfMemory>
        ensures { OnOk result (self.new ≡ self.old ++ named ∷ []) }
    {
        self.list.push(named)?;
        Ok(())
    }

    /// Adds all of the slice at the end.
    pub fn extend(&mut self, names: &[Named]) -> Result<(), OutOfMemory>
        ensures { OnOk result (self.new ≡ self.old ++ names.now) }
    {
        self.list.extend_from_slice(names)
    }
}
