//! What holds of the meaning of every source that is accepted.
#![tactic(auto)]

ghost use Rattle.meaning_laws_accepted.specs.code.Laws.{AcceptedAreFormed, AcceptedAreLaid, AcceptedTakeNoDefault};

/// The types in the program of each source that is accepted are formed, and each call that allocates makes elements of
/// a size.
#[tactic(auto, using(crate::proofs::Sources::accepted_are_formed))]
pub fn accepted_are_formed()
    ensures { AcceptedAreFormed }
{}

/// In the program of each source that is accepted each object, of the file and of blocks, and each parameter has a
/// layout, and each block in these types and in those of results and expressions is at most 16,777,216 elements.
#[tactic(auto, using(crate::proofs::Laid::accepted_are_laid))]
pub fn accepted_are_laid()
    ensures { AcceptedAreLaid }
{}

/// In the program of each source that is accepted and has at most 2^64 shapes, as each thread runs it: each expression
/// gives a value of its type, each operator, conversion and call of the library takes all values of its operands'
/// types, what is written fits its cell, and each function gives a value of its result's type.
#[tactic(auto, using(crate::proofs::Laws::accepted_take_no_default))]
pub fn accepted_take_no_default()
    ensures { AcceptedTakeNoDefault }
{}
