//! Instructions that are appended to code.

ghost use Rattle.std.specs.Prelude.{◌≡◌, [], ◌∷◌, ◌++◌, OnOk};
ghost use Rattle.gen_expr.specs.layer.Codes.{instruction, stacks, makes, jumps, pushes, casts, loads, saves};

use block_layout::Kind;
use stack_code::{CellAccess, Instr, Jump, ObjectWork, Operation, StackWork, ValueWork};
use thread_steps::CastTo;
use upc_text::{OutOfMemory, Place};
use upc_values::Value;

/// Appends an instruction.
pub(crate) fn put(code: &mut Vec<Instr>, place: Place, does: Operation) -> Result<(), OutOfMemory>
    ensures { OnOk result (code.new.items ≡ code.old.items ++ (instruction place does ∷ [])) }
{
    code.push(Instr { place, does })?;
    Ok(())
}

/// Appends an instruction that works on the stack alone.
pub fn put_stack(code: &mut Vec<Instr>, place: Place, work: StackWork) -> Result<(), OutOfMemory>
    ensures { OnOk result (code.new.items ≡ code.old.items ++ (stacks place work ∷ [])) }
{
    put(code, place, Operation::Stack(work))
}

pub(crate) fn put_value(
    code: &mut Vec<Instr>,
    place: Place,
    work: ValueWork,
) -> Result<(), OutOfMemory>
    ensures { OnOk result (code.new.items ≡ code.old.items ++ (makes place work ∷ [])) }
{
    put(code, place, Operation::Value(work))
}

/// Appends a jump.
pub fn put_jump(code: &mut Vec<Instr>, place: Place, work: Jump) -> Result<(), OutOfMemory>
    ensures { OnOk result (code.new.items ≡ code.old.items ++ (jumps place work ∷ [])) }
{
    put(code, place, Operation::Way(work))
}

/// Appends a constant.
pub fn put_push(code: &mut Vec<Instr>, place: Place, value: Value) -> Result<(), OutOfMemory>
    ensures { OnOk result (code.new.items ≡ code.old.items ++ (pushes place value ∷ [])) }
{
    put_stack(code, place, StackWork::Push(value))
}

/// Appends a conversion.
pub fn put_cast(code: &mut Vec<Instr>, place: Place, into: CastTo) -> Result<(), OutOfMemory>
    ensures { OnOk result (code.new.items ≡ code.old.items ++ (casts place into ∷ [])) }
{
    put_value(code, place, ValueWork::Cast(into))
}

pub(crate) fn put_load(
    code: &mut Vec<Instr>,
    place: Place,
    kind: Kind,
    strict: bool,
) -> Result<(), OutOfMemory>
    ensures { OnOk result (code.new.items ≡ code.old.items ++ (loads place kind strict ∷ [])) }
{
    put(
        code,
        place,
        Operation::Object(ObjectWork::Load(CellAccess { kind, strict })),
    )
}

pub(crate) fn put_save(
    code: &mut Vec<Instr>,
    place: Place,
    kind: Kind,
    strict: bool,
) -> Result<(), OutOfMemory>
    ensures { OnOk result (code.new.items ≡ code.old.items ++ (saves place kind strict ∷ [])) }
{
    put(
        code,
        place,
        Operation::Object(ObjectWork::Save(CellAccess { kind, strict })),
    )
}
