//! The functions that were declared, found by their names.

ghost use Rattle.std.specs.Prelude.{◌≡◌};
ghost use Rattle.upc_checker_scopes.specs.code.ViewFunctions.{names_of, AreNoted};

use crate::places_of_names::{Places, last_place, no_places, note_place, place_before};
use crate::signatures::same_signature;
use std::alloc::Global;
use typing_rules::Signature;
use upc_text::OutOfMemory;

/// A function that was declared, and whether it was defined.
#[derive(Drop)]
pub struct KnownFunction {
    pub name: u32,
    pub signature: Signature,
    pub is_defined: bool,
    // Whether all declared before it under its name have the same types.
    agrees: bool,
    // Whether one of them was defined.
    defined_before: bool,
}

/// The functions in the order of their declarations, with the places of their names.
#[derive(Drop)]
pub struct Functions {
    list: Vec<KnownFunction>,
    places: Places,
    ghost named: { places.names.items ≡ names_of list.items },
    ghost noted: { AreNoted list.items },
}

impl Functions {
    ghost use Rattle.std.specs.Prelude.{◌≡◌, ◌∷◌, [], OnOk, OnErr};
    ghost use Rattle.typed_tree.specs.Scopes as pure;
    ghost use Rattle.typing_rules.specs.layer.Views.{view_signature};
    ghost use Rattle.upc_checker_scopes.specs.layer.Views.{view_functions};

    /// No function.
    pub fn new(alloc: Global) -> Functions
        ensures { view_functions result ≡ [] }
    {
        Functions {
            list: Vec::new(alloc),
            places: no_places(alloc),
        }
    }

    /// One more function. After want of memory nothing is changed.
    pub fn note(
        &mut self,
        name: u32,
        signature: Signature,
        is_defined: bool,
    ) -> Result<(), OutOfMemory>
        ensures ok { OnOk result (view_functions self.new ≡ record {
          name = name;
          signature =
              view_signature signature;
          is_defined = is_defined;
        } ∷ view_functions self.old) }
        ensures err { OnErr result (view_functions self.new ≡ view_functions self.old) }
    {
        let agrees = !self.differs(name, &signature);
        let defined_before = self.was_defined(name);
        self.list.reserve(1)?;
        note_place(&mut self.places, name)?;
        let function = KnownFunction {
            name,
            signature,
            is_defined,
            agrees,
            defined_before,
        };
        self.list.push(function).unwrap();
        Ok(())
    }

    /// Whether a function was declared with other types.
    pub fn differs(&self, name: u32, signature: &Signature) -> bool
        ensures { result ≡ pure.differs name (view_signature signature.now) (view_functions
            self.now) }
    {
        let mut at = last_place(&self.places, name);
        while let Some(place) = at {
            let known = &self.list[place];
            if !same_signature(&known.signature, signature) {
                return true;
            }
            if known.agrees {
                return false;
            }
            at = place_before(&self.places, place);
        }
        false
    }

    /// Whether a function was defined.
    pub fn was_defined(&self, name: u32) -> bool
        ensures { result ≡ pure.was_defined name (view_functions self.now) }
    {
        match last_place(&self.places, name) {
            None => false,
            Some(place) => {
                let known = &self.list[place];
                known.is_defined || known.defined_before
            }
        }
    }
}
