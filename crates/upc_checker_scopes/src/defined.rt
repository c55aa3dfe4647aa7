//! The functions that a source defines, found by their names.

ghost use Rattle.std.specs.Prelude.{◌≡◌, ◌<◌, ◌^◌, ℕ, nat_eq, if◌then◌else◌, length, Some, None, OnOk, OnErr};
ghost use Rattle.std.specs.HashMap.{get};
ghost use Rattle.upc_checker_scopes.specs.code.ViewDefined.{IsNumbered, first_or};

use crate::places_of_names::keep;
use std::alloc::Global;
use std::collections::HashMap;
use upc_text::OutOfMemory;

/// The names of the functions in order of definition, and the number of the first function of each name.
#[derive(Drop)]
pub struct Defined {
    names: Vec<u32>,
    first: HashMap<u32, usize>,
    ghost few: { length names.items < 2 ^ 32 },
    ghost numbered: { IsNumbered first names.items },
}

// Keeps the number of a name that has none yet. After want of memory nothing is changed.
fn keep_first(first: &mut HashMap<u32, usize>, name: u32, number: usize) -> Result<(), OutOfMemory>
    ensures ok { OnOk result ((q : ℕ) → get nat_eq first.new q ≡ first_or (get nat_eq first.old q)
        (if nat_eq name q then Some number else None)) }
    ensures err { OnErr result ((q : ℕ) → get nat_eq first.new q ≡ get nat_eq first.old q) }
{
    if first.contains_key(&name) {
        return Ok(());
    }
    keep(first, name, number)
}

impl Defined {
    ghost use Rattle.std.specs.Prelude.{◌≡◌, ◌==◌, [], ◌∷◌, ◌++◌, OnOk};
    ghost use Rattle.std.specs.List.{list_any};
    ghost use Rattle.upc_checker_scopes.specs.Defined.{number_in};
    ghost use Rattle.upc_checker_scopes.specs.code.ViewDefined.{numbered};

    /// No function.
    pub fn new(alloc: Global) -> Defined
        ensures { result.names.items ≡ [] }
    {
        Defined {
            names: Vec::new(alloc),
            first: HashMap::new(alloc),
        }
    }

    /// One more function.
    pub fn note(&mut self, name: u32) -> Result<(), OutOfMemory>
        ensures { OnOk result (self.new.names.items ≡ self.old.names.items ++ (name ∷ [])) }
    {
        let number = self.names.len();
        if number >= u32::MAX as usize {
            return Err(OutOfMemory);
        }
        self.names.reserve(1)?;
        keep_first(&mut self.first, name, number)?;
        self.names.push(name).unwrap();
        Ok(())
    }

    // The number of a function that is defined.
    fn find(&self, name: u32) -> Option<usize>
        ensures { result ≡ numbered self.now.names.items name }
    {
        self.first.get(&name).copied()
    }

    /// The number of a function: how many there are where it is not defined.
    pub fn number(&self, name: u32) -> u32
        ensures { result ≡ number_in self.now.names.items name }
    {
        match self.find(name) {
            Some(number) => number as u32,
            None => self.names.len() as u32,
        }
    }

    /// Whether a function is defined.
    pub fn contains(&self, name: u32) -> bool
        ensures { result ≡ list_any (λ x. x == name) self.now.names.items }
    {
        self.first.contains_key(&name)
    }
}
