//! The code of a program.

ghost use Rattle.std.specs.Prelude.{◌≡◌, [], ◌∷◌, map, IfOk, OnOk};
ghost use Rattle.typed_tree.specs.ViewProgram.{view_program};
ghost use Rattle.typed_tree.specs.ViewStatements.{view_function};
ghost use Rattle.gen_expr.specs.layer.ViewSource.{view_source};
ghost use Rattle.gen_stmt.specs.layer.Programs as pure;
ghost use Rattle.gen_stmt.specs.layer.Meanings.{MeansProgram};
ghost use Rattle.upc_values.specs.Lists.{Each};
ghost use Rattle.stack_code.specs.layer.Kept.{IsKnown};
ghost use Rattle.stack_code.specs.layer.Names.{NamesOnly};
ghost use Rattle.source_meaning.specs.Laws.{opening_of};
ghost use Rattle.typed_tree.specs.Beginnings.{view_beginning};
ghost use Rattle.gen_stmt.specs.code.Compiled.{made, with_functions, with_initials, with_objects};

use crate::entry::entry_of;
use crate::functions::function_of;
use block_layout::{LocalPtr, Shape};
use gen_expr::Source;
use stack_code::{Builder, Code, Instr};
use std::alloc::Global;
use typed_tree::{Function, Program};
use upc_text::OutOfMemory;
use upc_values::{Value, copy_shape};

// A function of the code.
fn put_code(builder: &mut Builder, code: Vec<Instr>) -> Result<(), OutOfMemory>
    requires { builder.old.current ≡ [] }
    ensures { OnOk result (builder.new ≡ with_functions (code.items ∷ []) builder.old) }
{
    builder.append_all(code)?;
    builder.end_function()
}

// The functions of the program.
fn put_functions(
    builder: &mut Builder,
    alloc: Global,
    source: Source<'_>,
    functions: &[Function],
) -> Result<(), OutOfMemory>
    requires { builder.old.current ≡ [] }
    ensures { OnOk result (builder.new
        ≡ with_functions (map (pure.function_code (view_source source.entry)) (map view_function functions.now))
        builder.old) }
{
    for function in functions {
        let code = function_of(alloc, source, function)?;
        put_code(builder, code)?;
    }
    Ok(())
}

// The private objects of the file.
fn put_objects(builder: &mut Builder, alloc: Global, shapes: &[Shape]) -> Result<(), OutOfMemory>
    ensures { OnOk result (builder.new ≡ with_objects shapes.now builder.old) }
{
    for shape in shapes {
        let copy = copy_shape(alloc, shape)?;
        builder.append_object(copy)?;
    }
    Ok(())
}

// Their initial values, which the code may name.
fn put_initials(builder: &mut Builder, initials: &[(LocalPtr, Value)]) -> Result<(), OutOfMemory>
    requires { Each (λ x. IsKnown builder.old.codes.threads builder.old.codes.shapes x.1) initials.now }
    ensures { OnOk result (builder.new ≡ with_initials initials.now builder.old) }
{
    for given in initials {
        builder.append_initial(given.0, given.1)?;
    }
    Ok(())
}

// All of the code of a program.
fn builder_of(alloc: Global, program: &Program) -> Result<Builder, OutOfMemory>
    ensures { IfOk result (λ b. b ≡ made program.now.threads (view_program program.now).functions
        (view_beginning program.now.beginning)) }
{
    let source = Source::of(program);
    let mut builder = Builder::make(alloc, program.threads(), program.shapes())?;
    let entry = entry_of(alloc, source)?;
    put_code(&mut builder, entry)?;
    put_functions(&mut builder, alloc, source, source.functions)?;
    put_objects(&mut builder, alloc, program.private_shapes())?;
    put_initials(&mut builder, program.private_initials())?;
    Ok(builder)
}

/// The code of a program, which means what the program means: each of its threads has the same outcome, whatever it
/// is answered. It has the program's threads and its shapes of shared elements, and names no shared object but the
/// declared ones.
pub fn compile(alloc: Global, program: &Program) -> Result<Code, OutOfMemory>
    ensures code { IfOk result (λ code. code ≡ pure.program_code (view_program program.now)) }
    ensures means { IfOk result (λ code. MeansProgram code (view_program program.now)) }
    ensures threads { IfOk result (λ code. code.threads ≡ program.now.threads) }
    ensures shapes { IfOk result (λ code. code.shapes ≡ (opening_of (view_program program.now)).shapes) }
    ensures names { IfOk result (NamesOnly (opening_of (view_program program.now)).declared) }
{
    let builder = builder_of(alloc, program)?;
    builder.finish()
}
