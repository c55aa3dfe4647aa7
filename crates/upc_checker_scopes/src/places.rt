//! Where parts of the source begin.

ghost use Rattle.std.specs.Prelude.{◌≡◌, map};
ghost use Rattle.upc_tree.specs.layer.View.{view_qual, view_spec, view_pointer, view_declarator};
ghost use Rattle.upc_tree.specs.layer.Lists.{specs_of, pointers_of};
ghost use Rattle.upc_checker_scopes.specs.Places as pure;

use upc_text::Place;
use upc_tree::{Declarator, Name, Pointer, Qual, Spec};

/// The first token of a qualifier.
pub fn qual_place(qual: &Qual) -> Place
    ensures { result ≡ pure.qual_place (view_qual qual.now) }
{
    match qual {
        Qual::Const(word) | Qual::Strict(word) | Qual::Relaxed(word) => word.place,
        Qual::Shared { word, .. } => word.place,
    }
}

/// The first token of a specifier.
pub fn spec_place(spec: &Spec) -> Place
    ensures { result ≡ pure.spec_place (view_spec spec.now) }
{
    match spec {
        Spec::Word { span, .. } => span.place,
        Spec::Qual(qual) => qual_place(qual),
        Spec::Tag { word, .. } | Spec::Struct { word, .. } => word.place,
    }
}

/// The first token of specifiers.
pub fn specs_place(specs: &[Spec]) -> Place
    ensures { result ≡ pure.specs_place (specs_of (map view_spec specs.now)) }
{
    match specs {
        [] => Place { line: 1, column: 1 },
        [spec, ..] => spec_place(spec),
    }
}

/// The first token of stars and a name after them.
pub fn pointers_place(pointers: &[Pointer], name: Name) -> Place
    ensures { result ≡ pure.pointers_place (pointers_of (map view_pointer pointers.now)) name }
{
    match pointers {
        [] => name.span.place,
        [pointer, ..] => pointer.star.place,
    }
}

/// The first token of a declarator.
pub fn declarator_place(declarator: &Declarator) -> Place
    ensures { result ≡ pure.declarator_place (view_declarator declarator.now) }
{
    match declarator {
        Declarator::Object { pointers, name, .. } => pointers_place(pointers.as_slice(), *name),
        Declarator::Function { pointers, name, .. } => pointers_place(pointers.as_slice(), *name),
    }
}
