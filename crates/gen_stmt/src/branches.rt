//! The code of blocks, conditions and switches, from that of their parts (C99 6.8.2, 6.8.4).

ghost use Rattle.std.specs.Prelude.{◌≡◌, ◌+◌, ◌-◌, ◌++◌, ◌∷◌, length, reverse, IfSome, OnOk};
ghost use Rattle.integers.specs.Integers.{IsInteger};
ghost use Rattle.typed_tree.specs.ViewTree.{view_expr};
ghost use Rattle.typed_tree.specs.ViewStatements.{view_items};
ghost use Rattle.source_meaning.specs.Statements.{shapes_of, objects_in};
ghost use Rattle.gen_expr.specs.layer.Codes.{jumps, value_code};
ghost use Rattle.gen_expr.specs.layer.Sources.{running_of};
ghost use Rattle.gen_expr.specs.layer.ViewSource.{view_source};
ghost use Rattle.gen_stmt.specs.layer.Codes as pure;
ghost use Rattle.gen_stmt.specs.code.Parts as parts;
ghost use Rattle.gen_stmt.specs.code.Views.{view_labelled};

use crate::backwards::Backwards;
use crate::exits::sum;
use crate::labelled::Labelled;
use crate::put::{put_all, put_enter, put_leave};
use crate::shapes::push_block_shapes;
use crate::values::value_of;
use block_layout::Kind;
use gen_expr::{Source, put_cast, put_jump, put_stack, put_value_code};
use meaning_types::integer_of;
use stack_code::{Instr, Jump, Operation, StackWork};
use thread_steps::CastTo;
use typed_tree::{Expr, Item};
use upc_text::{OutOfMemory, Place};
use upc_types::promoted;

/// Appends a block, from the code of its parts.
pub(crate) fn put_blocked(
    code: &mut Vec<Instr>,
    source: Source<'_>,
    count: usize,
    place: Place,
    items: &[Item],
    body: Vec<Instr>,
) -> Result<(), OutOfMemory>
    ensures { OnOk result (code.new.items
        ≡ code.old.items
        ++ pure.block_code place count
        (shapes_of (running_of (view_source source.entry)) (objects_in (view_items items.now))) body.items) }
{
    let alloc = *code.allocator();
    let mut shapes = Vec::new(alloc);
    push_block_shapes(&mut shapes, alloc, source, items)?;
    put_enter(code, place, count, shapes)?;
    put_all(code, body)?;
    put_leave(code, place)
}

/// Puts a condition and what it guards before what else is tried.
pub(crate) fn put_tested(
    out: &mut Backwards,
    source: Source<'_>,
    strict: bool,
    place: Place,
    test: &Expr,
    body: Vec<Instr>,
) -> Result<(), OutOfMemory>
    ensures { OnOk result (out.new
        ≡ parts.arm_code place (value_code (view_source source.entry) strict (view_expr test.now)) body.items
        (length body.items) out.old (length out.old)) }
{
    let behind = out.len();
    let passed = body.len() + 1;
    let tested = value_of(out.alloc(), source, strict, test)?;
    put_way(out, place, Jump::GoOn(behind))?;
    out.put_code(body)?;
    put_way(out, place, Jump::SkipIfZero(passed))?;
    out.put_code(tested)
}

fn put_way(out: &mut Backwards, place: Place, work: Jump) -> Result<(), OutOfMemory>
    ensures { OnOk result (out.new ≡ jumps place work ∷ out.old) }
{
    out.put(Instr {
        place,
        does: Operation::Way(work),
    })
}

// The value of a switch at its kind.
fn put_label(code: &mut Vec<Instr>, place: Place, kind: Option<Kind>) -> Result<(), OutOfMemory>
    requires { IfSome kind IsInteger }
    ensures { OnOk result (code.new.items ≡ code.old.items ++ pure.label_code place kind) }
{
    match kind {
        Some(kind) => put_cast(code, place, CastTo::Integer(promoted(kind))),
        None => Ok(()),
    }
}

// The comparisons of a switch with so many instructions in its body.
fn put_labels(
    code: &mut Vec<Instr>,
    place: Place,
    labels: Vec<(i128, usize)>,
    total: usize,
) -> Result<(), OutOfMemory>
    ensures { OnOk result (code.new.items
        ≡ code.old.items ++ parts.labels_code place (reverse labels.items) total) }
{
    let mut left = labels;
    while let Some((label, behind)) = left.pop() {
        let before = total.saturating_sub(behind);
        let distance = sum(sum(left.len(), 2)?, before)?;
        put_jump(code, place, Jump::Case { label, distance })?;
    }
    Ok(())
}

/// Appends a switch, from its body.
pub(crate) fn put_switched(
    code: &mut Vec<Instr>,
    source: Source<'_>,
    strict: bool,
    place: Place,
    e: &Expr,
    body: Labelled,
) -> Result<(), OutOfMemory>
    ensures { OnOk result (code.new.items
        ≡ code.old.items
        ++ parts.labelled_code (view_source source.entry) strict place (view_expr e.now) (view_labelled body)) }
{
    let total = body.code.len();
    let before = total.saturating_sub(body.default);
    put_value_code(code, source, strict, e)?;
    put_label(code, place, integer_of(&e.attr.ctype))?;
    put_labels(code, place, body.labels, total)?;
    put_stack(code, place, StackWork::Pop)?;
    put_jump(code, place, Jump::GoOn(before))?;
    put_all(code, body.code.into_code())
}
