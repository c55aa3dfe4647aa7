//! A program: what its source declares and defines, and what it begins with.

ghost use Rattle.std.specs.Prelude.{◌≡◌, ◌<◌, ◌≤◌};
ghost use Rattle.upc_values.specs.Openings.{IsOpening};
ghost use Rattle.typed_tree.specs.Objects.{most_private_bytes, most_shared_bytes};
ghost use Rattle.typed_tree.specs.Beginnings.{opening_in, view_beginning};
ghost use Rattle.typed_tree.specs.layer.PrivateOpenings.{IsPrivateOpening};
ghost use Rattle.typed_tree.specs.layer.TypedNodes.{MeetsRules};
ghost use Rattle.typed_tree.specs.Programs as pure;
ghost use Rattle.typed_tree.specs.Programs.{start_of, view_parts};

use crate::beginning::{Beginning, SharedDecl};
use crate::tree::{Function, Object};
use block_layout::{Loc, LocalPtr, Shape};
use upc_types::Structs;
use upc_values::{Scalar, Value};

/// A program for a number of threads: its objects of the file, its functions, and what it begins with. It keeps the
/// limits on the bytes of its objects and on how many structs, objects, parameters and functions there are, begins with
/// what its parts say, which is an opening, and every node of its tree meets its typing rules.
#[derive(Drop)]
pub struct Program {
    threads: u32,
    objects: Vec<Object>,
    functions: Vec<Function>,
    beginning: Beginning,
    ghost least: { 0 < threads },
    ghost most: { threads ≤ 32 },
    ghost private_bytes: { pure.private_bytes (view_parts threads objects functions beginning)
        ≤ most_private_bytes },
    ghost shared_bytes: { pure.shared_bytes (view_parts threads objects functions beginning) ≤ most_shared_bytes },
    ghost count: { pure.count_of (view_parts threads objects functions beginning) ≤ pure.most_declared },
    ghost begins: { ∥ view_beginning beginning ≡ start_of (view_parts threads objects functions beginning) ∥₁ },
    ghost opening: { ∥ IsOpening (opening_in threads (view_beginning beginning)) ∥₁ },
    ghost private: { ∥ IsPrivateOpening threads (view_beginning beginning) ∥₁ },
    ghost nodes: { ∥ MeetsRules (view_parts threads objects functions beginning) ∥₁ },
}

impl Program {
    ghost use Rattle.std.specs.Prelude.{◌≡◌, ◌<◌, ◌≤◌};
    ghost use Rattle.upc_values.specs.Openings.{IsOpening};
    ghost use Rattle.typed_tree.specs.Objects.{most_private_bytes, most_shared_bytes};
    ghost use Rattle.typed_tree.specs.Beginnings.{opening_in, view_beginning};
    ghost use Rattle.typed_tree.specs.layer.PrivateOpenings.{IsPrivateOpening};
    ghost use Rattle.typed_tree.specs.layer.TypedNodes.{MeetsRules};
    ghost use Rattle.typed_tree.specs.Programs as pure;
    ghost use Rattle.typed_tree.specs.Programs.{start_of, view_parts};

    /// A program of its parts: it keeps the limits, begins with what these parts say, and its nodes meet their rules.
    pub fn make(
        threads: u32,
        objects: Vec<Object>,
        functions: Vec<Function>,
        beginning: Beginning,
    ) -> Program
        requires least { 0 < threads }
        requires most { threads ≤ 32 }
        requires private_bytes { pure.private_bytes (view_parts threads objects functions beginning)
            ≤ most_private_bytes }
        requires shared_bytes { pure.shared_bytes (view_parts threads objects functions beginning)
            ≤ most_shared_bytes }
        requires count { pure.count_of (view_parts threads objects functions beginning) ≤ pure.most_declared }
        requires begins { view_beginning beginning ≡ start_of (view_parts threads objects functions beginning) }
        requires opening { IsOpening (opening_in threads (view_beginning beginning)) }
        requires private { IsPrivateOpening threads (view_beginning beginning) }
        requires nodes { MeetsRules (view_parts threads objects functions beginning) }
        ensures threads { result.threads ≡ threads }
        ensures objects { result.objects ≡ objects }
        ensures functions { result.functions ≡ functions }
        ensures beginning { result.beginning ≡ beginning }
    {
        Program {
            threads,
            objects,
            functions,
            beginning,
        }
    }

    /// Every node of the program's tree meets its typing rules, and every expression has the attribute of its node.
    pub fn keeps_rules(&self)
        ensures { ∥ MeetsRules (view_parts self.now.threads self.now.objects self.now.functions self.now.beginning) ∥₁ }
    {}

    /// The number of threads, from 1 to 32.
    pub fn threads(&self) -> u32
        ensures { result ≡ self.now.threads }
    {
        self.threads
    }

    /// The shapes of shared elements, by number.
    pub fn shapes(&self) -> &[Shape]
        ensures { result.now ≡ self.now.beginning.shapes.items }
    {
        self.beginning.shapes.as_slice()
    }

    /// The shared objects of the file, numbered from 1 on in order of declaration.
    pub fn shared_objects(&self) -> &[SharedDecl]
        ensures { result.now ≡ self.now.beginning.shared_objects.items }
    {
        self.beginning.shared_objects.as_slice()
    }

    /// The initial values of shared objects; a cell without one begins with 0 or null.
    pub fn initials(&self) -> &[(Loc, Scalar)]
        ensures { result.now ≡ self.now.beginning.initials.items }
    {
        self.beginning.initials.as_slice()
    }

    /// The objects of the file, in order of declaration.
    pub fn objects(&self) -> &[Object]
        ensures { result.now ≡ self.now.objects.items }
    {
        self.objects.as_slice()
    }

    /// The functions that are defined, by number.
    pub fn functions(&self) -> &[Function]
        ensures { result.now ≡ self.now.functions.items }
    {
        self.functions.as_slice()
    }

    /// The structs, where each pointer in an object has a type with a number.
    pub fn structs(&self) -> &Structs
        ensures { result.now ≡ self.now.beginning.structs }
    {
        &self.beginning.structs
    }

    /// The shapes of the private objects of the file, numbered from 0 on in order of declaration.
    pub fn private_shapes(&self) -> &[Shape]
        ensures { result.now ≡ self.now.beginning.private_shapes.items }
    {
        self.beginning.private_shapes.as_slice()
    }

    /// The initial values of private objects; a cell without one begins with 0 or null.
    pub fn private_initials(&self) -> &[(LocalPtr, Value)]
        ensures { result.now ≡ self.now.beginning.private_initials.items }
    {
        self.beginning.private_initials.as_slice()
    }
}
