//! Whether the arguments of a printf fit its format (C99 7.19.6.1).

ghost use Rattle.std.specs.Prelude.{◌≡◌, map, drop};
ghost use Rattle.typing_rules.specs.Format as pure;
ghost use Rattle.typing_rules.specs.Attributes as attributes;
ghost use Rattle.typed_tree.specs.ViewTree.{attr_seen};

use typed_tree::Expr;
use typing_rules::format::{is_anything, prints_kind, step};
use typing_rules::types::kind_of;
use typing_rules::{Awaits, FormatStep, Printed};

// Whether there is one more argument, and it fits.
fn takes(p: Printed, args: &[Expr], used: usize) -> bool
    ensures { result ≡ pure.takes p (map attributes.base (map attr_seen (drop used args.now))) }
{
    match args.get(used) {
        Some(x) => prints_kind(p, kind_of(&x.attr)),
        None => false,
    }
}

/// Whether the text is a format and these values fit it.
pub fn prints(format: &[u8], args: &[Expr]) -> bool
    ensures { result ≡ pure.prints format.now (map attributes.base (map attr_seen args.now)) }
{
    let mut state = Awaits::Anything;
    let mut used = 0;
    for b in format {
        match step(state, *b) {
            FormatStep::Stops => return false,
            FormatStep::Goes(next) => state = next,
            FormatStep::Prints(p) => {
                if !takes(p, args, used) {
                    return false;
                }
                used += 1;
                state = Awaits::Anything;
            }
        }
    }
    is_anything(state) && used >= args.len()
}
