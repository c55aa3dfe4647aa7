//! The code of expressions, in code that is being made.

ghost use Rattle.std.specs.Prelude.{◌≡◌, true, OnOk, OnErr, IsErr};
ghost use Rattle.typed_tree.specs.Beginnings.{view_beginning};
ghost use Rattle.typed_tree.specs.ViewProgram.{view_program};
ghost use Rattle.typed_tree.specs.ViewTree.{view_expr};
ghost use Rattle.stack_code.specs.layer.Making.{with_instructions};
ghost use Rattle.gen_expr.specs.layer.Codes as pure;
ghost use Rattle.gen_expr.specs.layer.Meanings.{AppendsMeaning};
ghost use Rattle.gen_expr.specs.layer.ViewSource.{source_with};

use crate::expressions::put_value_code;
use crate::source::Source;
use stack_code::Builder;
use typed_tree::{Expr, Program};
use upc_text::OutOfMemory;

/// Appends the code of the value of an expression of a program to the function that is not ended yet. `strict` says
/// whether accesses that do not say so themselves are strict where the expression stands (UPC 6.7).
pub fn expr_code(
    program: &Program,
    strict: bool,
    e: &Expr,
    into: &mut Builder,
) -> Result<(), OutOfMemory>
    ensures done { OnOk result (into.new
        ≡ with_instructions (pure.value_code (source_with (view_program program.now).functions
        (view_beginning program.now.beginning)) strict (view_expr e.now)) into.old) }
    ensures means { OnOk result (AppendsMeaning (source_with (view_program program.now).functions
        (view_beginning program.now.beginning)) strict (view_expr e.now) into.old into.new) }
    ensures failed { OnErr result (into.new.failed ≡ true) }
    ensures fails { into.old.failed ≡ true → IsErr result }
{
    let source = Source::of(program);
    let mut code = Vec::new(into.allocator());
    if put_value_code(&mut code, source, strict, e).is_err() {
        into.fail();
        return Err(OutOfMemory);
    }
    into.append_all(code)
}
