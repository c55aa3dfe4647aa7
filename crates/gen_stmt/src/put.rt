//! Instructions of statements that are appended to code.

ghost use Rattle.std.specs.Prelude.{◌≡◌, [], ◌∷◌, ◌++◌, OnOk};
ghost use Rattle.gen_expr.specs.layer.Codes.{instruction};
ghost use Rattle.gen_stmt.specs.layer.Codes.{enters, leaves, acts, gives_back};

use block_layout::Shape;
use stack_code::{CallWork, Instr, ObjectWork, Operation, ThreadWork};
use upc_text::{OutOfMemory, Place};
use upc_values::Listing;

/// Appends an instruction.
pub(crate) fn put_operation(
    code: &mut Vec<Instr>,
    place: Place,
    does: Operation,
) -> Result<(), OutOfMemory>
    ensures { OnOk result (code.new.items ≡ code.old.items ++ (instruction place does ∷ [])) }
{
    code.push(Instr { place, does })?;
    Ok(())
}

/// Appends what a thread does among the others.
pub(crate) fn put_act(
    code: &mut Vec<Instr>,
    place: Place,
    work: ThreadWork,
) -> Result<(), OutOfMemory>
    ensures { OnOk result (code.new.items ≡ code.old.items ++ (acts place work ∷ [])) }
{
    put_operation(code, place, Operation::Thread(work))
}

/// Appends the begin of a block after so many names in scope.
pub(crate) fn put_enter(
    code: &mut Vec<Instr>,
    place: Place,
    count: usize,
    shapes: Vec<Shape>,
) -> Result<(), OutOfMemory>
    ensures { OnOk result (code.new.items ≡ code.old.items ++ (enters place count shapes.items ∷ [])) }
{
    match u32::try_from(count) {
        Ok(from) => {
            let shapes = Listing::from_vec(shapes);
            put_operation(
                code,
                place,
                Operation::Object(ObjectWork::Enter { from, shapes }),
            )
        }
        Err(_) => Err(OutOfMemory),
    }
}

/// Appends the end of the youngest block.
pub(crate) fn put_leave(code: &mut Vec<Instr>, place: Place) -> Result<(), OutOfMemory>
    ensures { OnOk result (code.new.items ≡ code.old.items ++ (leaves place ∷ [])) }
{
    put_operation(code, place, Operation::Object(ObjectWork::Leave))
}

/// Appends the return from a call in which so many blocks are open.
pub(crate) fn put_give_back(
    code: &mut Vec<Instr>,
    place: Place,
    blocks: usize,
) -> Result<(), OutOfMemory>
    ensures { OnOk result (code.new.items ≡ code.old.items ++ (gives_back place blocks ∷ [])) }
{
    put_operation(code, place, Operation::Call(CallWork::GiveBack(blocks)))
}

/// Appends code to code.
pub(crate) fn put_all(code: &mut Vec<Instr>, more: Vec<Instr>) -> Result<(), OutOfMemory>
    ensures { OnOk result (code.new.items ≡ code.old.items ++ more.items) }
{
    let mut more = more;
    code.append(&mut more)?;
    Ok(())
}
