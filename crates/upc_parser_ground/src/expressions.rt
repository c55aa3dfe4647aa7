//! Expressions and types from their parts.

ghost use Rattle.std.specs.Prelude.{◌≡◌, IfOk, Vec};
ghost use Rattle.upc_tree.specs.Expression as expressions;
ghost use Rattle.upc_tree.specs.layer.View.{view, view_arguments, view_next_exprs, view_type, view_spec, view_specs};
ghost use Rattle.upc_tree.specs.layer.View.{view_layout, view_pointers, view_dimensions, view_members, view_member};
ghost use Rattle.upc_tree.specs.layer.View.{view_next_declarators, view_declarator, view_parameters, view_parameter};
ghost use Rattle.upc_tree.specs.layer.View.{view_next_parameter, view_next_parameters, view_array};

use crate::boxes::boxed;
use std::alloc::Global;
use upc_lexer::NumberKind;
use upc_text::OutOfMemory;
use upc_tree::{
    Arguments, AssignMark, BinaryMark, ConstantWord, Declarator, Dimension, Expr, Layout, Member,
    MemberMark, Name, NextDeclarator, NextExpr, NextParameter, Parameter, ParameterArray,
    Parameters, Pointer, PostfixMark, SizeWord, Span, Spec, StringLiteral, TypeName, UnaryMark,
};

/// A name, as an expression.
pub fn named(alloc: Global, name: Name) -> Result<Box<Expr>, OutOfMemory>
    ensures { IfOk result (λ made. view made.value ≡ expressions.Named name) }
{
    boxed(alloc, Expr::Name(name))
}

/// A number.
pub fn number(
    alloc: Global,
    value: u64,
    kind: NumberKind,
    span: Span,
) -> Result<Box<Expr>, OutOfMemory>
    ensures { IfOk result (λ made. view made.value ≡ expressions.Number value kind span) }
{
    boxed(alloc, Expr::Number { value, kind, span })
}

/// A character constant, by its value.
pub fn character(alloc: Global, value: u8, span: Span) -> Result<Box<Expr>, OutOfMemory>
    ensures { IfOk result (λ made. view made.value ≡ expressions.Character value span) }
{
    boxed(alloc, Expr::Character { value, span })
}

/// MYTHREAD, THREADS or UPC_MAX_BLOCK_SIZE.
pub fn constant(alloc: Global, word: ConstantWord, span: Span) -> Result<Box<Expr>, OutOfMemory>
    ensures { IfOk result (λ made. view made.value ≡ expressions.Constant word span) }
{
    boxed(alloc, Expr::Constant { word, span })
}

/// String literals next to each other.
pub fn string_literals(
    alloc: Global,
    first: StringLiteral,
    more: Vec<StringLiteral>,
) -> Result<Box<Expr>, OutOfMemory>
    ensures { IfOk result (λ made. view made.value ≡ expressions.Strings first more.items) }
{
    boxed(alloc, Expr::Strings { first, more })
}

/// An expression in parentheses.
pub fn paren(
    alloc: Global,
    left: Span,
    inner: Box<Expr>,
    right: Span,
) -> Result<Box<Expr>, OutOfMemory>
    ensures { IfOk result (λ made. view made.value ≡ expressions.Paren left (view inner.value) right) }
{
    boxed(
        alloc,
        Expr::Paren {
            open: left,
            inner,
            close: right,
        },
    )
}

/// An element by its index.
pub fn subscript(
    alloc: Global,
    base: Box<Expr>,
    left: Span,
    index: Box<Expr>,
    right: Span,
) -> Result<Box<Expr>, OutOfMemory>
    ensures { IfOk result (λ made. view made.value
        ≡ expressions.Subscript (view base.value) left (view index.value) right) }
{
    boxed(
        alloc,
        Expr::Subscript {
            base,
            open: left,
            index,
            close: right,
        },
    )
}

/// A call.
pub fn call(
    alloc: Global,
    callee: Box<Expr>,
    left: Span,
    arguments: Box<Arguments>,
) -> Result<Box<Expr>, OutOfMemory>
    ensures { IfOk result (λ made. view made.value
        ≡ expressions.Call (view callee.value) left (view_arguments arguments.value)) }
{
    boxed(
        alloc,
        Expr::Call {
            callee,
            open: left,
            arguments,
        },
    )
}

/// A member, after a dot or an arrow.
pub fn member_of(
    alloc: Global,
    base: Box<Expr>,
    mark: MemberMark,
    at: Span,
    member: Name,
) -> Result<Box<Expr>, OutOfMemory>
    ensures { IfOk result (λ made. view made.value ≡ expressions.MemberOf (view base.value) mark at member) }
{
    boxed(
        alloc,
        Expr::Member {
            base,
            mark,
            at,
            member,
        },
    )
}

/// An increment or a decrement after its operand.
pub fn step(
    alloc: Global,
    base: Box<Expr>,
    mark: PostfixMark,
    at: Span,
) -> Result<Box<Expr>, OutOfMemory>
    ensures { IfOk result (λ made. view made.value ≡ expressions.Postfix (view base.value) mark at) }
{
    boxed(alloc, Expr::Postfix { base, mark, at })
}

/// An operator before its operand.
pub fn unary(
    alloc: Global,
    mark: UnaryMark,
    at: Span,
    operand: Box<Expr>,
) -> Result<Box<Expr>, OutOfMemory>
    ensures { IfOk result (λ made. view made.value ≡ expressions.Unary mark at (view operand.value)) }
{
    boxed(alloc, Expr::Unary { mark, at, operand })
}

/// The size of an expression.
pub fn size_of_expr(
    alloc: Global,
    word: SizeWord,
    at: Span,
    operand: Box<Expr>,
) -> Result<Box<Expr>, OutOfMemory>
    ensures { IfOk result (λ made. view made.value ≡ expressions.SizeOfExpr word at (view operand.value)) }
{
    boxed(alloc, Expr::SizeOfExpr { word, at, operand })
}

/// The size of a type, in parentheses.
pub fn size_of_type(
    alloc: Global,
    word: SizeWord,
    at: Span,
    left: Span,
    operand: Box<TypeName>,
    right: Span,
) -> Result<Box<Expr>, OutOfMemory>
    ensures { IfOk result (λ made. view made.value
        ≡ expressions.SizeOfType word at left (view_type operand.value) right) }
{
    boxed(
        alloc,
        Expr::SizeOfType {
            word,
            at,
            open: left,
            operand,
            close: right,
        },
    )
}

/// A cast.
pub fn cast(
    alloc: Global,
    left: Span,
    target: Box<TypeName>,
    right: Span,
    operand: Box<Expr>,
) -> Result<Box<Expr>, OutOfMemory>
    ensures { IfOk result (λ made. view made.value
        ≡ expressions.Cast left (view_type target.value) right (view operand.value)) }
{
    boxed(
        alloc,
        Expr::Cast {
            open: left,
            target,
            close: right,
            operand,
        },
    )
}

/// Two operands with an operator between them.
pub fn binary(
    alloc: Global,
    left: Box<Expr>,
    mark: BinaryMark,
    at: Span,
    right: Box<Expr>,
) -> Result<Box<Expr>, OutOfMemory>
    ensures { IfOk result (λ made. view made.value ≡ expressions.Binary (view left.value) mark at (view right.value)) }
{
    boxed(
        alloc,
        Expr::Binary {
            left,
            mark,
            at,
            right,
        },
    )
}

/// An assignment.
pub fn assign(
    alloc: Global,
    left: Box<Expr>,
    mark: AssignMark,
    at: Span,
    right: Box<Expr>,
) -> Result<Box<Expr>, OutOfMemory>
    ensures { IfOk result (λ made. view made.value ≡ expressions.Assign (view left.value) mark at (view right.value)) }
{
    boxed(
        alloc,
        Expr::Assign {
            left,
            mark,
            at,
            right,
        },
    )
}

/// A conditional expression.
pub fn conditional(
    alloc: Global,
    test: Box<Expr>,
    question: Span,
    chosen: Box<Expr>,
    colon: Span,
    other: Box<Expr>,
) -> Result<Box<Expr>, OutOfMemory>
    ensures { IfOk result (λ made. view made.value ≡ expressions.Conditional (view test.value) question
        (view chosen.value) colon (view other.value)) }
{
    boxed(
        alloc,
        Expr::Conditional {
            test,
            question,
            chosen,
            colon,
            other,
        },
    )
}

/// Expressions with commas between them.
pub fn comma(alloc: Global, first: Box<Expr>, more: Vec<NextExpr>) -> Result<Box<Expr>, OutOfMemory>
    ensures { IfOk result (λ made. view made.value ≡ expressions.Comma (view first.value) (view_next_exprs more)) }
{
    boxed(alloc, Expr::Comma { first, more })
}

/// The arguments of a call, at least one.
pub fn arguments(
    alloc: Global,
    first: Box<Expr>,
    more: Vec<NextExpr>,
    right: Span,
) -> Result<Box<Arguments>, OutOfMemory>
    ensures { IfOk result (λ made. view_arguments made.value ≡ expressions.SomeArguments (view first.value)
        (view_next_exprs more) right) }
{
    boxed(
        alloc,
        Arguments::Filled {
            first,
            more,
            close: right,
        },
    )
}

/// A type.
pub fn type_name(
    alloc: Global,
    specs: Vec<Spec>,
    pointers: Vec<Pointer>,
    sizes: Vec<Dimension>,
) -> Result<Box<TypeName>, OutOfMemory>
    ensures { IfOk result (λ made. view_type made.value ≡ expressions.Typed (view_specs specs)
        (view_pointers pointers) (view_dimensions sizes)) }
{
    boxed(
        alloc,
        TypeName {
            specs,
            pointers,
            sizes,
        },
    )
}

/// A struct with its members, as a specifier.
pub fn struct_spec(word: Span, tag: Name, left: Span, members: Vec<Member>, right: Span) -> Spec
    ensures { view_spec result ≡ expressions.StructSpec word tag left (view_members members) right }
{
    Spec::Struct {
        word,
        tag,
        open: left,
        members,
        close: right,
    }
}

/// A block size in brackets, after `shared`.
pub fn block_layout(size: Dimension) -> Layout
    ensures { view_layout result ≡ expressions.BlockLayout size.open (view size.size.value) size.close }
{
    Layout::Block {
        open: size.open,
        size: size.size,
        close: size.close,
    }
}

/// A size in brackets, after the name of a parameter.
pub fn sized_array(size: Dimension) -> ParameterArray
    ensures { view_array result ≡ expressions.SizedArray size.open (view size.size.value) size.close }
{
    ParameterArray::Sized {
        open: size.open,
        size: size.size,
        close: size.close,
    }
}

/// A line of members.
pub fn member(
    specs: Vec<Spec>,
    first: Box<Declarator>,
    more: Vec<NextDeclarator>,
    semicolon: Span,
) -> Member
    ensures { view_member result ≡ (
      view_specs specs,
      view_declarator first.value,
      view_next_declarators more,
      semicolon,
    ) }
{
    Member {
        specs,
        first,
        more,
        semicolon,
    }
}

/// The declarator of an object.
pub fn object(
    alloc: Global,
    pointers: Vec<Pointer>,
    name: Name,
    sizes: Vec<Dimension>,
) -> Result<Box<Declarator>, OutOfMemory>
    ensures { IfOk result (λ made. view_declarator made.value ≡ expressions.ObjectDeclarator
        (view_pointers pointers) name (view_dimensions sizes)) }
{
    boxed(
        alloc,
        Declarator::Object {
            pointers,
            name,
            sizes,
        },
    )
}

/// The declarator of a function.
pub fn function(
    alloc: Global,
    pointers: Vec<Pointer>,
    name: Name,
    parameters: Box<Parameters>,
) -> Result<Box<Declarator>, OutOfMemory>
    ensures { IfOk result (λ made. view_declarator made.value ≡ expressions.FunctionDeclarator
        (view_pointers pointers) name (view_parameters parameters.value)) }
{
    boxed(
        alloc,
        Declarator::Function {
            pointers,
            name,
            parameters,
        },
    )
}

/// The parameters of a function, at least one.
pub fn parameters(
    alloc: Global,
    left: Span,
    first: Box<Parameter>,
    more: Vec<NextParameter>,
    right: Span,
) -> Result<Box<Parameters>, OutOfMemory>
    ensures { IfOk result (λ made. view_parameters made.value ≡ expressions.SomeParameters left
        (view_parameter first.value) (view_next_parameters more) right) }
{
    boxed(
        alloc,
        Parameters::Filled {
            open: left,
            first,
            more,
            close: right,
        },
    )
}

/// A parameter.
pub fn parameter(
    alloc: Global,
    specs: Vec<Spec>,
    pointers: Vec<Pointer>,
    name: Option<Name>,
    array: ParameterArray,
) -> Result<Box<Parameter>, OutOfMemory>
    ensures { IfOk result (λ made. view_parameter made.value ≡ expressions.Parametric (view_specs specs)
        (view_pointers pointers) name (view_array array)) }
{
    boxed(
        alloc,
        Parameter {
            specs,
            pointers,
            name,
            array,
        },
    )
}

/// A further parameter, after its comma.
pub fn next_parameter(comma: Span, parameter: Box<Parameter>) -> NextParameter
    ensures { view_next_parameter result ≡ (comma, view_parameter parameter.value) }
{
    NextParameter { comma, parameter }
}
