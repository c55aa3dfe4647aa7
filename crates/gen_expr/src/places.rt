//! Constants (C99 6.5.1).

ghost use Rattle.std.specs.Prelude.{◌≡◌, ◌∷◌, ◌++◌, [], OnOk};
ghost use Rattle.typed_tree.specs.Initials as initials;
ghost use Rattle.source_meaning.specs.Expressions as mean;
ghost use Rattle.thread_steps.specs.Values.{number};
ghost use Rattle.gen_expr.specs.layer.Codes as pure;

use crate::put::put_push;
use meaning_types::known_or_zero;
use stack_code::Instr;
use typing_rules::Constant;
use upc_text::{OutOfMemory, Place};
use upc_values::{Scalar, Value};

/// Appends the code of a constant.
pub(crate) fn put_constant(
    code: &mut Vec<Instr>,
    place: Place,
    constant: Constant,
) -> Result<(), OutOfMemory>
    ensures { OnOk result (code.new.items
        ≡ code.old.items ++ (pure.pushes place (number (initials.known_or_zero constant)) ∷ [])) }
{
    put_push(
        code,
        place,
        Value::Scalar(Scalar::Int(known_or_zero(constant))),
    )
}

/// Appends the code of what has no value.
pub(crate) fn put_nothing(code: &mut Vec<Instr>, place: Place) -> Result<(), OutOfMemory>
    ensures { OnOk result (code.new.items ≡ code.old.items ++ (pure.pushes place mean.no_value ∷ [])) }
{
    put_push(code, place, Value::Scalar(Scalar::Int(0)))
}
