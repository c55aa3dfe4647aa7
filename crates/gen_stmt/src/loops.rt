//! The code of loops, from that of their parts (C99 6.8.5, UPC 6.6.2).

ghost use Rattle.std.specs.Prelude.{◌≡◌, ◌++◌, [], length, OnOk};
ghost use Rattle.typed_tree.specs.Tree.{AtValue};
ghost use Rattle.typed_tree.specs.ViewStatements.{view_affinity, view_head};
ghost use Rattle.gen_expr.specs.layer.Codes.{value_code};
ghost use Rattle.gen_expr.specs.layer.ViewSource.{view_source};
ghost use Rattle.typed_tree.specs.ViewTree.{view_expr};
ghost use Rattle.gen_stmt.specs.layer.Codes as pure;
ghost use Rattle.gen_stmt.specs.code.Parts as parts;
ghost use Rattle.gen_stmt.specs.code.Views.{view_standing};

use crate::initials::put_first;
use crate::put::{put_act, put_all, put_enter, put_leave};
use crate::shapes::push_shapes;
use crate::standing::Standing;
use crate::values::{aside_of, test_of, value_of};
use gen_expr::{Source, put_jump};
use stack_code::{Instr, Jump, ThreadWork};
use typed_tree::{Affinity, Expr, Head};
use upc_text::{OutOfMemory, Place};

/// Appends a loop, from the code of its test, its body and its last part.
pub(crate) fn put_loop(
    code: &mut Vec<Instr>,
    place: Place,
    test: Vec<Instr>,
    body: Vec<Instr>,
    last: Vec<Instr>,
) -> Result<(), OutOfMemory>
    ensures { OnOk result (code.new.items
        ≡ code.old.items ++ pure.loop_code place test.items body.items last.items (length body.items)) }
{
    let passed = body.len() + last.len() + 1;
    let back = test.len() + 1 + body.len() + last.len();
    put_jump(code, place, Jump::Tick)?;
    put_all(code, test)?;
    put_jump(code, place, Jump::SkipIfZero(passed))?;
    put_all(code, body)?;
    put_all(code, last)?;
    put_jump(code, place, Jump::GoBack(back))
}

/// Appends a while loop, from the code of its body.
pub(crate) fn put_while(
    code: &mut Vec<Instr>,
    source: Source<'_>,
    strict: bool,
    place: Place,
    test: &Expr,
    body: Vec<Instr>,
) -> Result<(), OutOfMemory>
    ensures { OnOk result (code.new.items
        ≡ code.old.items
        ++ pure.loop_code place (value_code (view_source source.entry) strict (view_expr test.now)) body.items []
        (length body.items)) }
{
    let alloc = *code.allocator();
    let tested = value_of(alloc, source, strict, test)?;
    put_loop(code, place, tested, body, Vec::new(alloc))
}

/// Appends a do loop, from the code of its body: it begins after its test.
pub(crate) fn put_do(
    code: &mut Vec<Instr>,
    source: Source<'_>,
    strict: bool,
    place: Place,
    test: &Expr,
    body: Vec<Instr>,
) -> Result<(), OutOfMemory>
    ensures { OnOk result (code.new.items
        ≡ code.old.items
        ++ parts.do_code (view_source source.entry) strict place (view_expr test.now) body.items) }
{
    let alloc = *code.allocator();
    let tested = value_of(alloc, source, strict, test)?;
    let passed = 1 + tested.len() + 1;
    put_jump(code, place, Jump::GoOn(passed))?;
    put_loop(code, place, tested, body, Vec::new(alloc))
}

/// Appends a loop with a head, from the code of its body and its last part.
pub(crate) fn put_headed(
    code: &mut Vec<Instr>,
    source: Source<'_>,
    standing: Standing<'_>,
    place: Place,
    head: &Head,
    body: Vec<Instr>,
    last: Vec<Instr>,
) -> Result<(), OutOfMemory>
    ensures { OnOk result (code.new.items
        ≡ code.old.items
        ++ parts.headed_code (view_source source.entry) (view_standing standing.entry) place (view_head head.now)
        body.items last.items) }
{
    let alloc = *code.allocator();
    let mut shapes = Vec::new(alloc);
    push_shapes(&mut shapes, alloc, source, head.objects.as_slice())?;
    put_enter(code, place, standing.count, shapes)?;
    put_first(code, source, standing.strict, head)?;
    let test = test_of(alloc, source, place, standing.strict, &head.test)?;
    put_loop(code, place, test, body, last)?;
    put_leave(code, place)
}

// A body in which a upc_forall controls.
fn put_control(code: &mut Vec<Instr>, place: Place, body: Vec<Instr>) -> Result<(), OutOfMemory>
    ensures { OnOk result (code.new.items ≡ code.old.items ++ pure.control_code place body.items) }
{
    put_act(code, place, ThreadWork::Control)?;
    put_all(code, body)?;
    put_act(code, place, ThreadWork::Release)
}

fn put_mine(
    code: &mut Vec<Instr>,
    source: Source<'_>,
    strict: bool,
    place: Place,
    e: &Expr,
    body: Vec<Instr>,
) -> Result<(), OutOfMemory>
    ensures { OnOk result (code.new.items
        ≡ code.old.items
        ++ pure.guard_code (view_source source.entry) place strict (AtValue (view_expr e.now)) body.items
        (length body.items)) }
{
    let alloc = *code.allocator();
    let value = value_of(alloc, source, strict, e)?;
    let passed = value.len() + 2;
    let skipped = 1 + body.len() + 1;
    put_jump(code, place, Jump::SkipIfControlled(passed))?;
    put_all(code, value)?;
    put_act(code, e.place, ThreadWork::Mine)?;
    put_jump(code, place, Jump::SkipIfZero(skipped))?;
    put_control(code, place, body)
}

/// Appends the body of a upc_forall, where the turn is this thread's.
pub(crate) fn put_guard(
    code: &mut Vec<Instr>,
    source: Source<'_>,
    strict: bool,
    place: Place,
    whose: &Affinity,
    body: Vec<Instr>,
) -> Result<(), OutOfMemory>
    ensures { OnOk result (code.new.items
        ≡ code.old.items
        ++ pure.guard_code (view_source source.entry) place strict (view_affinity whose.now) body.items
        (length body.items)) }
{
    match whose {
        Affinity::All => put_all(code, body),
        Affinity::Value(e) => put_mine(code, source, strict, place, e, body),
    }
}

/// Appends a upc_forall, from the code of its body.
pub(crate) fn put_controlled(
    code: &mut Vec<Instr>,
    source: Source<'_>,
    standing: Standing<'_>,
    place: Place,
    head: &Head,
    whose: &Affinity,
    body: Vec<Instr>,
) -> Result<(), OutOfMemory>
    ensures { OnOk result (code.new.items
        ≡ code.old.items
        ++ parts.forall_code (view_source source.entry) (view_standing standing.entry) place (view_head head.now)
        (view_affinity whose.now) body.items) }
{
    let alloc = *code.allocator();
    let mut guarded = Vec::new(alloc);
    put_guard(&mut guarded, source, standing.strict, place, whose, body)?;
    let step = aside_of(alloc, source, standing.strict, &head.step)?;
    put_headed(code, source, standing, place, head, guarded, step)
}
