//! The height of expressions and types.

ghost use Rattle.std.specs.Prelude.{◌≡◌, ◌+◌, map};
ghost use Rattle.upc_tree.specs.Expression.{height, height_arguments, height_next_exprs, height_type, height_specs};
ghost use Rattle.upc_tree.specs.Expression.{height_spec, height_quals, height_qual, height_layout, height_pointers};
ghost use Rattle.upc_tree.specs.Expression.{height_dimensions, height_members, height_next_declarators};
ghost use Rattle.upc_tree.specs.Expression.{height_declarator, height_parameters, height_parameter};
ghost use Rattle.upc_tree.specs.Expression.{height_next_parameters, height_array};
ghost use Rattle.upc_tree.specs.layer.Lists.{capped, height_member, next_exprs_of, specs_of, quals_of, pointers_of};
ghost use Rattle.upc_tree.specs.layer.Lists.{dimensions_of, members_of, next_declarators_of, next_parameters_of};
ghost use Rattle.upc_tree.specs.layer.View.{view, view_arguments, view_next_expr, view_type, view_spec, view_qual};
ghost use Rattle.upc_tree.specs.layer.View.{view_layout, view_pointer, view_dimension};
ghost use Rattle.upc_tree.specs.layer.View.{view_member, view_next_declarator};
ghost use Rattle.upc_tree.specs.layer.View.{view_declarator, view_parameters, view_parameter, view_next_parameter};
ghost use Rattle.upc_tree.specs.layer.View.{view_array};

use crate::expression::{
    Arguments, Declarator, Dimension, Expr, Layout, Member, NextDeclarator, NextExpr,
    NextParameter, Parameter, ParameterArray, Parameters, Pointer, Qual, Spec, TypeName,
};

pub fn above(part: u32) -> u32
    ensures { result ≡ capped (part + 1) }
{
    part.saturating_add(1)
}

#[cycle(height)]
pub fn expr_height(e: &Expr) -> u32
    ensures { result ≡ capped (height (view e.now)) }
{
    match e {
        Expr::Name(_)
        | Expr::Number { .. }
        | Expr::Character { .. }
        | Expr::Strings { .. }
        | Expr::Constant { .. } => 1,
        Expr::Paren { inner, .. } => above(expr_height(inner)),
        Expr::Subscript { base, index, .. } => above(expr_height(base).max(expr_height(index))),
        Expr::Call {
            callee,
            arguments,
            ..
        } => { above(expr_height(callee).max(arguments_height(arguments))) }
        Expr::Member { base, .. } | Expr::Postfix { base, .. } => above(expr_height(base)),
        Expr::Unary { operand, .. } | Expr::SizeOfExpr { operand, .. } => above(expr_height(
            operand,
        )),
        Expr::SizeOfType { operand, .. } => above(type_height(operand)),
        Expr::Cast {
            target,
            operand,
            ..
        } => above(type_height(target).max(expr_height(operand))),
        Expr::Binary { left, right, .. } | Expr::Assign { left, right, .. } => {
            above(expr_height(left).max(expr_height(right)))
        }
        Expr::Conditional {
            test,
            chosen,
            other,
            ..
        } => { above(expr_height(test).max(expr_height(chosen).max(expr_height(other)))) }
        Expr::Comma { first, more } => above(expr_height(first).max(next_height(more.as_slice()))),
    }
}

#[cycle(height)]
fn arguments_height(a: &Arguments) -> u32
    ensures { result ≡ capped (height_arguments (view_arguments a.now)) }
{
    match a {
        Arguments::Empty { .. } => 1,
        Arguments::Filled { first, more, .. } => {
            above(expr_height(first).max(next_height(more.as_slice())))
        }
    }
}

#[cycle(height)]
pub fn next_height(more: &[NextExpr]) -> u32
    ensures { result ≡ capped (height_next_exprs (next_exprs_of (map view_next_expr more.now))) }
{
    let mut high = 0;
    for part in more {
        high = expr_height(&part.value).max(high);
    }
    high
}

#[cycle(height)]
fn type_height(t: &TypeName) -> u32
    ensures { result ≡ capped (height_type (view_type t.now)) }
{
    specs_height(t.specs.as_slice()).max(pointers_height(t.pointers.as_slice()).max(sizes_height(
        t.sizes.as_slice(),
    )))
}

#[cycle(height)]
pub fn specs_height(specs: &[Spec]) -> u32
    ensures { result ≡ capped (height_specs (specs_of (map view_spec specs.now))) }
{
    let mut high = 0;
    for part in specs {
        high = spec_height(part).max(high);
    }
    high
}

#[cycle(height)]
fn spec_height(spec: &Spec) -> u32
    ensures { result ≡ capped (height_spec (view_spec spec.now)) }
{
    match spec {
        Spec::Word { .. } => 0,
        Spec::Qual(qual) => qual_height(qual),
        Spec::Tag { .. } => 1,
        Spec::Struct { members, .. } => above(members_height(members.as_slice())),
    }
}

#[cycle(height)]
fn quals_height(quals: &[Qual]) -> u32
    ensures { result ≡ capped (height_quals (quals_of (map view_qual quals.now))) }
{
    let mut high = 0;
    for part in quals {
        high = qual_height(part).max(high);
    }
    high
}

#[cycle(height)]
fn qual_height(qual: &Qual) -> u32
    ensures { result ≡ capped (height_qual (view_qual qual.now)) }
{
    match qual {
        Qual::Const(_) | Qual::Strict(_) | Qual::Relaxed(_) => 0,
        Qual::Shared { layout, .. } => layout_height(layout),
    }
}

#[cycle(height)]
fn layout_height(layout: &Layout) -> u32
    ensures { result ≡ capped (height_layout (view_layout layout.now)) }
{
    match layout {
        Layout::Absent | Layout::Indefinite { .. } | Layout::Star { .. } => 0,
        Layout::Block { size, .. } => expr_height(size),
    }
}

#[cycle(height)]
pub fn pointers_height(pointers: &[Pointer]) -> u32
    ensures { result ≡ capped (height_pointers (pointers_of (map view_pointer pointers.now))) }
{
    let mut high = 0;
    for part in pointers {
        high = quals_height(part.quals.as_slice()).max(high);
    }
    high
}

#[cycle(height)]
fn sizes_height(sizes: &[Dimension]) -> u32
    ensures { result ≡ capped (height_dimensions (dimensions_of (map view_dimension sizes.now))) }
{
    let mut high = 0;
    for part in sizes {
        high = expr_height(&part.size).max(high);
    }
    high
}

#[cycle(height)]
fn members_height(members: &[Member]) -> u32
    ensures { result ≡ capped (height_members (members_of (map view_member members.now))) }
{
    let mut high = 0;
    for part in members {
        high = member_height(part).max(high);
    }
    high
}

#[cycle(height)]
fn member_height(member: &Member) -> u32
    ensures { result ≡ capped (height_member (view_member member.now)) }
{
    specs_height(member.specs.as_slice()).max(declarator_height(&member.first).max(
        declarators_height(member.more.as_slice()),
    ))
}

#[cycle(height)]
fn declarators_height(more: &[NextDeclarator]) -> u32
    ensures { result ≡ capped (height_next_declarators (next_declarators_of (map view_next_declarator more.now))) }
{
    let mut high = 0;
    for part in more {
        high = declarator_height(&part.declarator).max(high);
    }
    high
}

#[cycle(height)]
pub fn declarator_height(declarator: &Declarator) -> u32
    ensures { result ≡ capped (height_declarator (view_declarator declarator.now)) }
{
    match declarator {
        Declarator::Object {
            pointers,
            sizes,
            ..
        } => { pointers_height(pointers.as_slice()).max(sizes_height(sizes.as_slice())) }
        Declarator::Function {
            pointers,
            parameters,
            ..
        } => { pointers_height(pointers.as_slice()).max(parameters_height(parameters)) }
    }
}

#[cycle(height)]
pub fn parameters_height(parameters: &Parameters) -> u32
    ensures { result ≡ capped (height_parameters (view_parameters parameters.now)) }
{
    match parameters {
        Parameters::Empty { .. } | Parameters::Void { .. } => 0,
        Parameters::Filled { first, more, .. } => {
            parameter_height(first).max(next_parameters_height(more.as_slice()))
        }
    }
}

#[cycle(height)]
fn parameter_height(parameter: &Parameter) -> u32
    ensures { result ≡ capped (height_parameter (view_parameter parameter.now)) }
{
    specs_height(parameter.specs.as_slice()).max(pointers_height(parameter.pointers.as_slice()).max(
        array_height(&parameter.array),
    ))
}

#[cycle(height)]
fn next_parameters_height(more: &[NextParameter]) -> u32
    ensures { result ≡ capped (height_next_parameters (next_parameters_of (map view_next_parameter more.now))) }
{
    let mut high = 0;
    for part in more {
        high = parameter_height(&part.parameter).max(high);
    }
    high
}

#[cycle(height)]
fn array_height(array: &ParameterArray) -> u32
    ensures { result ≡ capped (height_array (view_array array.now)) }
{
    match array {
        ParameterArray::Absent | ParameterArray::Unsized { .. } => 0,
        ParameterArray::Sized { size, .. } => expr_height(size),
    }
}
