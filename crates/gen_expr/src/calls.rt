//! Arguments and their conversions (C99 6.5.2.2, 7.19.6.3; UPC 7.2, 7.3).

ghost use Rattle.std.specs.Prelude.{◌≡◌, ◌+◌, suc, [], ◌∷◌, ◌++◌, map, IfOk, OnOk};
ghost use Rattle.upc_types.specs.View.{view};
ghost use Rattle.typing_rules.specs.Library as library;
ghost use Rattle.typed_tree.specs.Tree.{exprs_of};
ghost use Rattle.typed_tree.specs.ViewTree.{view_expr};
ghost use Rattle.upc_types.specs.ViewStructs.{view_structs};
ghost use Rattle.typed_tree.specs.Elements as elements;
ghost use Rattle.source_meaning.specs.Types as types;
ghost use Rattle.source_meaning.specs.Running as running;
ghost use Rattle.source_meaning.specs.Expressions as mean;
ghost use Rattle.stack_code.specs.declared.instruction.CallWork.TheVariants.{CallTo};
ghost use Rattle.stack_code.specs.declared.instruction.ThreadWork.TheVariants as thread;
ghost use Rattle.stack_code.specs.declared.instruction.Operation.TheVariants as work;
ghost use Rattle.gen_expr.specs.layer.Sources.{running_of};
ghost use Rattle.gen_expr.specs.layer.Codes as pure;
ghost use Rattle.gen_expr.specs.layer.ViewSource.{view_source};

use crate::put::put;
use crate::source::Source;
use meaning_types::{conversion, format_of, parameter_conversion, promotion, target_of};
use stack_code::{CallWork, Instr, Operation, ThreadWork};
use std::alloc::Global;
use thread_steps::CastTo;
use typed_tree::Expr;
use typed_tree_opening::{element_shape, number_among};
use typing_rules::calls::{call_parameters, is_allocation};
use upc_text::{OutOfMemory, Place};
use upc_types::CType;
use upc_values::LibraryCall;

/// The types of the parameters of a function of the source.
fn parameters_of<'p>(source: Source<'p>, number: u32) -> &'p [CType]
    ensures { map view result.now ≡ running.parameters_of (running_of (view_source source.entry)) number }
{
    match source.functions.get(number as usize) {
        Some(function) => function.parameters.as_slice(),
        None => &[],
    }
}

// The conversion of each argument into its parameter's type, while there are both.
fn conversions(
    alloc: Global,
    args: &[Expr],
    parameters: &[CType],
) -> Result<Vec<CastTo>, OutOfMemory>
    ensures { IfOk result (λ casts. casts.items
        ≡ types.conversions (mean.types_of (exprs_of (map view_expr args.now))) (map view parameters.now)) }
{
    let mut casts = Vec::new(alloc);
    let mut rest = parameters;
    for a in args {
        let Some((parameter, more)) = rest.split_first() else {
            return Ok(casts);
        };
        casts.push(conversion(&a.attr.ctype, parameter))?;
        rest = more;
    }
    Ok(casts)
}

/// The conversions of the arguments of a function of the source.
pub(crate) fn call_casts(
    alloc: Global,
    source: Source<'_>,
    number: u32,
    args: &[Expr],
) -> Result<Vec<CastTo>, OutOfMemory>
    ensures { IfOk result (λ casts. casts.items
        ≡ types.conversions (mean.types_of (exprs_of (map view_expr args.now)))
        (running.parameters_of (running_of (view_source source.entry)) number)) }
{
    conversions(alloc, args, parameters_of(source, number))
}

/// The conversions of the arguments of a call of the library.
pub(crate) fn library_casts(alloc: Global, call: LibraryCall) -> Result<Vec<CastTo>, OutOfMemory>
    ensures { IfOk result (λ casts. casts.items ≡ map types.parameter_conversion (library.call_parameters call)) }
{
    let parameters = call_parameters(call);
    let mut casts = Vec::new(alloc);
    for parameter in parameters {
        casts.push(parameter_conversion(*parameter))?;
    }
    Ok(casts)
}

/// The conversions of the arguments of a printf after its format.
pub(crate) fn promotions(alloc: Global, args: &[Expr]) -> Result<Vec<CastTo>, OutOfMemory>
    ensures { IfOk result (λ casts. casts.items
        ≡ map types.promotion (mean.types_of (exprs_of (map view_expr args.now)))) }
{
    let mut casts = Vec::new(alloc);
    for a in args {
        casts.push(promotion(&a.attr.ctype))?;
    }
    Ok(casts)
}

/// How many arguments have a conversion.
pub(crate) fn count(casts: &[CastTo], args: &[Expr]) -> usize
    ensures { result ≡ pure.arguments_count casts.now (exprs_of (map view_expr args.now)) }
{
    if casts.len() < args.len() {
        casts.len()
    } else {
        args.len()
    }
}

/// Appends the call of a function of the source, which the code has one place further.
pub(crate) fn put_call_to(
    code: &mut Vec<Instr>,
    place: Place,
    number: u32,
    arguments: usize,
) -> Result<(), OutOfMemory>
    ensures { OnOk result (code.new.items
        ≡ code.old.items ++ (pure.instruction place (work.Call (CallTo (suc number) arguments)) ∷ [])) }
{
    let function = number as usize + 1;
    put(
        code,
        place,
        Operation::Call(CallWork::CallTo {
            function,
            arguments,
        }),
    )
}

// The number of the shape of the elements that an allocation makes; no typed program makes any without a size.
fn allocated_shape(
    alloc: Global,
    source: Source<'_>,
    call: LibraryCall,
    t: &CType,
) -> Result<u32, OutOfMemory>
    ensures { IfOk result (λ number. number
        ≡ mean.allocated_shape (running_of (view_source source.entry)) call (view t.now)) }
{
    if !is_allocation(call) {
        return Ok(0);
    }
    match target_of(t) {
        Some(target) => shape_number(alloc, source, target),
        None => Ok(0),
    }
}

fn shape_number(alloc: Global, source: Source<'_>, t: &CType) -> Result<u32, OutOfMemory>
    ensures { IfOk result (λ number. number
        ≡ elements.number_among source.entry.shapes.now
        (elements.element_shape (view_structs source.entry.structs.now) (view t.now))) }
{
    if source.shapes.len() > u32::MAX as usize || source.structs.layout_of(&t.base).is_none() {
        return Err(OutOfMemory);
    }
    let shape = element_shape(alloc, t, source.structs)?;
    Ok(number_among(source.shapes, &shape))
}

/// Appends a call of the library, after so many arguments.
pub(crate) fn put_library(
    code: &mut Vec<Instr>,
    source: Source<'_>,
    place: Place,
    t: &CType,
    call: LibraryCall,
    arguments: usize,
) -> Result<(), OutOfMemory>
    ensures { OnOk result (code.new.items
        ≡ code.old.items ++ (pure.instruction place (work.Thread (thread.Library call
        (mean.allocated_shape (running_of (view_source source.entry)) call (view t.now)) arguments)) ∷ [])) }
{
    let shape = allocated_shape(*code.allocator(), source, call, t)?;
    let work = ThreadWork::Library {
        call,
        shape,
        arguments,
    };
    put(code, place, Operation::Thread(work))
}

/// Appends a printf, after so many arguments.
pub(crate) fn put_print(
    code: &mut Vec<Instr>,
    place: Place,
    format: &Expr,
    arguments: usize,
) -> Result<(), OutOfMemory>
    ensures { OnOk result (code.new.items
        ≡ code.old.items
        ++ (pure.instruction place
        (work.Thread (thread.Print (mean.format_of (view_expr format.now)) arguments)) ∷ [])) }
{
    let format = format_of(*code.allocator(), format)?;
    put(
        code,
        place,
        Operation::Thread(ThreadWork::Print { format, arguments }),
    )
}
