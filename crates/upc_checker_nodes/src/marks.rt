//! Operators of the tree as those of expressions with types.

ghost use Rattle.std.specs.Prelude.{◌≡◌};
ghost use Rattle.upc_types.specs.View.{view};
ghost use Rattle.typing_rules.specs.layer.Views.{view_use};
ghost use Rattle.upc_checker_nodes.specs.Marks as pure;

use block_layout::Kind;
use typed_tree::StepOperator;
use typing_rules::{SizeOperator, Use};
use upc_lexer::NumberKind;
use upc_tree::{AssignMark, PostfixMark, SizeWord};
use upc_types::CType;

/// The kind of a number, by its suffix and value.
pub fn number_kind(kind: NumberKind) -> Kind
    ensures { result ≡ pure.number_kind kind }
{
    match kind {
        NumberKind::Int => Kind::Int,
        NumberKind::UInt => Kind::UInt,
        NumberKind::Long => Kind::Long,
        NumberKind::ULong => Kind::ULong,
    }
}

/// The size operator of a word.
pub fn size_operator(word: SizeWord) -> SizeOperator
    ensures { result ≡ pure.size_operator word }
{
    match word {
        SizeWord::Sizeof => SizeOperator::Bytes,
        SizeWord::Localsizeof => SizeOperator::LocalBytes,
        SizeWord::Blocksizeof => SizeOperator::BlockSize,
        SizeWord::Elemsizeof => SizeOperator::ElementBytes,
    }
}

/// `++` or `--` after its operand.
pub fn postfix_operator(mark: PostfixMark) -> StepOperator
    ensures { result ≡ pure.postfix_operator mark }
{
    match mark {
        PostfixMark::Increment => StepOperator::IncrementAfter,
        PostfixMark::Decrement => StepOperator::DecrementAfter,
    }
}

/// How the right side of an assignment is used, whose left side has this type.
pub fn right_use(mark: AssignMark, t: &CType) -> Use<'_>
    ensures { view_use result ≡ pure.right_use mark (view t.now) }
{
    match mark {
        AssignMark::Assign => Use::Into(t),
        _ => Use::Plain,
    }
}
