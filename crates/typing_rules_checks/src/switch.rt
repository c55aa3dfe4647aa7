//! The lowest typing rule that a `switch` breaks.

ghost use Rattle.std.specs.Prelude.{◌≡◌, ◌∷◌, false, List, IfSome, IfOk};
ghost use Rattle.integers.specs.Integers.{IsInteger};
ghost use Rattle.typing_rules.specs.Nodes as node;
ghost use Rattle.typing_rules.specs.Nodes.{view_attr};
ghost use Rattle.typing_rules.specs.Attributes.{Facts};
ghost use Rattle.typing_rules.specs.Rules as rules;
ghost use Rattle.typing_rules.specs.Rules.{lowest};
ghost use Rattle.typing_rules.specs.declared.attribute.Constant as constant;
ghost use Rattle.typing_rules_checks.specs.code.Labels.{AreValues};

use block_layout::Kind;
use std::alloc::Global;
use std::collections::BTreeSet;
use typing_rules::constants::label_kind;
use typing_rules::types::{counts, gives_void, kind_of};
use typing_rules::{Attr, Constant};
use upc_text::OutOfMemory;

// Whether a label is no integer constant, or has a value of the later ones, among which its own is from here on.
fn is_wrong(
    kind: Option<Kind>,
    label: Constant,
    values: &mut BTreeSet<i128>,
) -> Result<bool, OutOfMemory>
    requires { IfSome kind IsInteger }
    ensures { IfOk result (λ wrong. (later : List constant.Constant) → AreValues kind later values.old →
        (wrong ≡ rules.is_wrong_label kind label later)
        × (wrong ≡ false → AreValues kind (label ∷ later) values.new)) }
{
    match label {
        Constant::Known(v) => {
            let is_new = values.insert(label_kind(kind, v))?;
            Ok(!is_new)
        }
        _ => Ok(true),
    }
}

fn has_wrong_label(
    alloc: Global,
    kind: Option<Kind>,
    labels: &[Constant],
) -> Result<bool, OutOfMemory>
    requires { IfSome kind IsInteger }
    ensures { IfOk result (λ wrong. wrong ≡ rules.has_wrong_label kind labels.now) }
{
    let mut values = BTreeSet::new(alloc);
    for at in (0..labels.len()).rev() {
        if is_wrong(kind, labels[at], &mut values)? {
            return Ok(true);
        }
    }
    Ok(false)
}

/// A `switch` with its labels and the number of its `default`s.
pub fn switch(
    alloc: Global,
    a: &Attr,
    labels: &[Constant],
    defaults: usize,
) -> Result<Option<u8>, OutOfMemory>
    ensures { IfOk result (λ rule. (φ : Facts) → rule ≡ lowest φ (node.Switch (view_attr a.now) labels.now defaults)) }
{
    if gives_void(a) {
        return Ok(Some(14));
    }
    let wrong = has_wrong_label(alloc, kind_of(a), labels)?;
    if !counts(a) || wrong || defaults > 1 {
        Ok(Some(25))
    } else {
        Ok(None)
    }
}
