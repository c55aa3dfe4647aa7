//! What reductions join (UPC 7.3).

ghost use Rattle.std.specs.Prelude.{◌≡◌, ◌<◌, not, is_none};
ghost use Rattle.integers.specs.Integers.{IsInteger};
ghost use Rattle.upc_values.specs.Reductions as said;
ghost use Rattle.collectives.specs.code.Reductions.{reduction_option};

use block_layout::Kind;

/// What joins two values.
#[derive(Clone, Copy)]
pub enum Reduction {
    Sum,
    Product,
    BitsAnd,
    BitsOr,
    BitsXor,
    Both,
    Either,
    Least,
    Greatest,
}

/// The operator with this number: `UPC_ADD` and so on.
pub fn reduction_of(number: i32) -> Option<Reduction>
    ensures { reduction_option result ≡ said.reduction number }
{
    match number {
        1 => Some(Reduction::Sum),
        2 => Some(Reduction::Product),
        4 => Some(Reduction::BitsAnd),
        8 => Some(Reduction::BitsOr),
        16 => Some(Reduction::BitsXor),
        32 => Some(Reduction::Both),
        64 => Some(Reduction::Either),
        128 => Some(Reduction::Least),
        256 => Some(Reduction::Greatest),
        _ => None,
    }
}

/// Whether there is an operator with this number.
pub fn is_operator(number: i32) -> bool
    ensures { result ≡ not (is_none (said.reduction number)) }
{
    reduction_of(number).is_some()
}

/// The type of elements with this number: those of the calls that end in C UC S US I UI L UL.
pub fn element_kind(number: u32) -> Kind
    ensures value { result ≡ said.element_kind number }
    ensures integer { IsInteger result }
{
    match number {
        0 => Kind::Char,
        1 => Kind::UChar,
        2 => Kind::Short,
        3 => Kind::UShort,
        5 => Kind::UInt,
        6 => Kind::Long,
        7 => Kind::ULong,
        _ => Kind::Int,
    }
}
