//! Code by hand.

ghost use Rattle.std.specs.Prelude.{◌≡◌, [], ◌∷◌, IfOk};
ghost use Rattle.block_layout.specs.declared.kind.Kind.TheVariants as kind;

use block_layout::{Cells, Kind, LocalPtr, Shape};
use stack_code::{Builder, CallWork, CellAccess, Code, Instr, ObjectWork, Operation, StackWork};
use std::alloc::Global;
use upc_text::{OutOfMemory, Place};
use upc_values::{Scalar, Value};

// The shape of an int.
fn int_shape(alloc: Global) -> Result<Shape, OutOfMemory>
    ensures { IfOk result (λ shape. shape ≡ record { size = 4; cells = (0, kind.Int) ∷ [] }) }
{
    let mut cells = Vec::new(alloc);
    cells.push((0, Kind::Int))?;
    Ok(Shape {
        size: 4,
        cells: Cells::from_vec(cells),
    })
}

const OBJECT: LocalPtr = LocalPtr::Private {
    object: 0,
    offset: 0,
};

const INT: CellAccess = CellAccess {
    kind: Kind::Int,
    strict: false,
};

const HERE: Place = Place { line: 1, column: 1 };

/// Code for one thread, whose first function gives what the one object of the file holds, an int that begins with 7.
pub fn code_by_hand(alloc: Global) -> Result<Code, OutOfMemory> {
    let mut builder = Builder::make(alloc, 1, &[])?;
    builder.append_object(int_shape(alloc)?)?;
    builder.append_initial(OBJECT, Value::Scalar(Scalar::Int(7)))?;
    builder.append(Instr {
        place: HERE,
        does: Operation::Stack(StackWork::Push(Value::Local(OBJECT))),
    })?;
    builder.append(Instr {
        place: HERE,
        does: Operation::Object(ObjectWork::Load(INT)),
    })?;
    builder.append(Instr {
        place: HERE,
        does: Operation::Call(CallWork::GiveBack(0)),
    })?;
    builder.end_function()?;
    builder.finish()
}
