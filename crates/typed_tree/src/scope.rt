//! The names of a scope (C99 6.2.1).

ghost use Rattle.std.specs.Prelude.{◌≡◌, ℕ, nat_eq, OnOk, OnErr};
ghost use Rattle.std.specs.HashMap.{get};
ghost use Rattle.typed_tree.specs.code.ViewEntries.{view_entries, IsIndexed, latest};

use std::alloc::Global;
use std::collections::HashMap;
use typing_rules::{Home, Meaning, Signature};
use upc_text::OutOfMemory;
use upc_types::CType;

/// What a declaration makes of a name.
#[derive(Drop)]
pub enum Declared {
    Object(CType, Home),
    Function(Signature),
}

/// A name, by its number, with what it was declared as.
#[derive(Drop)]
pub struct Entry {
    pub name: u32,
    pub means: Declared,
}

/// The names of a scope in the order of their declarations.
#[derive(Drop)]
pub struct Scope {
    entries: Vec<Entry>,
    places: HashMap<u32, usize>,
    ghost indexed: { IsIndexed places (view_entries entries.items) },
}

// Keeps the place of the latest entry of a name.
fn note(places: &mut HashMap<u32, usize>, name: u32, place: usize) -> Result<(), OutOfMemory>
    ensures ok { OnOk result ((q : ℕ) → get nat_eq places.new q
        ≡ latest (nat_eq name q) place (get nat_eq places.old q)) }
    ensures err { OnErr result ((q : ℕ) → get nat_eq places.new q ≡ get nat_eq places.old q) }
{
    places.insert(name, place)?;
    Ok(())
}

impl Declared {
    ghost use Rattle.std.specs.Prelude.{◌≡◌};
    ghost use Rattle.typing_rules.specs.layer.Views.{view_meaning};
    ghost use Rattle.typed_tree.specs.code.ViewEntries.{view_declared};

    /// What the name stands for.
    pub fn meaning(&self) -> Meaning<'_>
        ensures { view_meaning result ≡ view_declared self.now }
    {
        match self {
            Declared::Object(t, home) => Meaning::Object(t, *home),
            Declared::Function(signature) => Meaning::Function(signature),
        }
    }
}

impl Scope {
    ghost use Rattle.std.specs.Prelude.{◌≡◌, [], ◌∷◌, OnOk, OnErr, IfSome, None};
    ghost use Rattle.typing_rules.specs.Meanings as pure;
    ghost use Rattle.typed_tree.specs.Scopes.{find_in};
    ghost use Rattle.typing_rules.specs.layer.Views.{view_meaning};
    ghost use Rattle.typed_tree.specs.code.ViewEntries.{view_declared};
    ghost use Rattle.typed_tree.specs.code.ViewScopes.{view_scope};

    /// A scope without names.
    pub fn new(alloc: Global) -> Scope
        ensures { view_scope result ≡ [] }
    {
        Scope {
            entries: Vec::new(alloc),
            places: HashMap::new(alloc),
        }
    }

    /// The latest declaration of a name in the scope itself. Takes no memory.
    pub fn get(&self, name: u32) -> Option<&Declared>
        ensures found { IfSome result (λ d. (other : pure.Meaning) →
            find_in name (view_scope self.now) other ≡ view_declared d.now) }
        ensures absent { result ≡ None → (other : pure.Meaning) → find_in name (view_scope self.now) other ≡ other }
    {
        match self.places.get(&name) {
            None => None,
            Some(place) => Some(&self.entries[*place].means),
        }
    }

    /// What the scope itself says of a name. Takes no memory.
    pub fn here(&self, name: u32) -> Meaning<'_>
        ensures { view_meaning result ≡ find_in name (view_scope self.now) pure.Unknown }
    {
        match self.get(name) {
            None => Meaning::Unknown,
            Some(declared) => declared.meaning(),
        }
    }

    /// Declares a name. After want of memory nothing is changed.
    pub fn enter(&mut self, name: u32, means: Declared) -> Result<(), OutOfMemory>
        ensures ok { OnOk result (view_scope self.new
            ≡ record { name = name; means = view_declared means } ∷ view_scope self.old) }
        ensures err { OnErr result (view_scope self.new ≡ view_scope self.old) }
    {
        let place = self.entries.len();
        self.entries.reserve(1)?;
        note(&mut self.places, name, place)?;
        self.entries.push(Entry { name, means }).unwrap();
        Ok(())
    }
}
