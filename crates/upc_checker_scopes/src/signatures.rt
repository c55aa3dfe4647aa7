//! What functions give and take.

ghost use Rattle.std.specs.Prelude.{◌≡◌, IfOk, map};
ghost use Rattle.upc_types.specs.View.{view, view_base};
ghost use Rattle.upc_types.specs.Same as same;
ghost use Rattle.typed_tree.specs.Scopes as pure;
ghost use Rattle.typing_rules.specs.Values as values;
ghost use Rattle.typing_rules.specs.layer.Views.{view_signature, view_target};

use std::alloc::Global;
use typing_rules::Signature;
use upc_text::OutOfMemory;
use upc_types::{Base, CType, copy_type, same_base, same_type};

/// A copy of what a function gives and takes.
pub fn copy_signature(alloc: Global, s: &Signature) -> Result<Signature, OutOfMemory>
    ensures { IfOk result (λ copy. view_signature copy ≡ view_signature s.now) }
{
    let mut parameters = Vec::new(alloc);
    for t in &s.parameters {
        parameters.push(copy_type(t)?)?;
    }
    Ok(Signature {
        result: copy_type(&s.result)?,
        parameters,
    })
}

// What values of a type point to.
fn value_target(base: &Base) -> Option<&CType>
    ensures { view_target result ≡ values.base_target (view_base base.now) }
{
    match base {
        Base::Array(target, _) | Base::Pointer(target) => Some(target),
        _ => None,
    }
}

// Whether the values of two types have one type.
fn same_values(a: &CType, b: &CType) -> bool
    ensures { result ≡ same.same_type (values.value_type (view a.now)) (values.value_type (view
        b.now)) }
{
    match (value_target(&a.base), value_target(&b.base)) {
        (Some(s), Some(t)) => same_type(s, t),
        (None, None) => same_base(&a.base, &b.base),
        _ => false,
    }
}

// Whether the values of types, one by one, have one type each.
fn same_types(a: &[CType], b: &[CType]) -> bool
    ensures { result ≡ pure.same_types (map view a.now) (map view b.now) }
{
    if a.len() != b.len() {
        return false;
    }
    for i in 0..a.len() {
        if !same_values(&a[i], &b[i]) {
            return false;
        }
    }
    true
}

/// Whether two functions have the same types.
pub fn same_signature(s: &Signature, t: &Signature) -> bool
    ensures { result ≡ pure.same_signature (view_signature s.now) (view_signature t.now) }
{
    same_type(&s.result, &t.result) && same_types(s.parameters.as_slice(), t.parameters.as_slice())
}
