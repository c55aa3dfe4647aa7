//! What holds of the meaning of every program that meets the typing rules.
#![tactic(auto)]

ghost use Rattle.meaning_laws.specs.code.Laws.{BeginningsAreFilled, BodiesAreCounted, CellsKeep, ChangesFit};
ghost use Rattle.meaning_laws.specs.code.Laws.{ChoicesAreTaken, ConversionsAreTaken, ConversionsFit, CopiesFit};
ghost use Rattle.meaning_laws.specs.code.Laws.{ExpressionsKeepTypes, FunctionsKeepTypes, MainsKeepTypes};
ghost use Rattle.meaning_laws.specs.code.Laws.{NamesAreFound, OperandsAreTaken, PrintedArePromoted, ScalarsAreKept};
ghost use Rattle.meaning_laws.specs.code.Laws.{PhasesStay, SharedAreThere, SharedHaveShapes, SizesAreKnown};
ghost use Rattle.meaning_laws.specs.code.Laws.{SteppedAreLaid};

/// A cell keeps what fits it.
#[tactic(auto, using(crate::proofs::Conversions::cells_keep))]
pub fn cells_keep()
    ensures { CellsKeep }
{}

/// What the conversion of a value of one type into another gives fits a cell of that type, which is of a kind of
/// integers where it is an integer type.
#[tactic(auto, using(crate::proofs::Conversions::conversions_fit))]
pub fn conversions_fit()
    ensures { ConversionsFit }
{}

/// What an operator makes of the value of an object, converted back, fits a cell of the object's type, which is of a
/// kind of integers where it is an integer type.
#[tactic(auto, using(crate::proofs::Operators::changes_fit))]
pub fn changes_fit()
    ensures { ChangesFit }
{}

/// The value of an expression that meets the rules is of the expression's type, where the types in it are formed, the
/// program has the shapes of what it allocates, and the functions that it calls give values of their types.
#[tactic(auto, using(crate::proofs::Expressions::expressions_keep_types))]
pub fn expressions_keep_types()
    ensures { ExpressionsKeepTypes }
{}

/// A function of a program that meets the rules gives values of the type of its result, however many calls may be
/// active, where the types in the functions are formed and the program has at most 2^64 shapes.
#[tactic(auto, using(crate::proofs::Statements::functions_keep_types))]
pub fn functions_keep_types()
    ensures { FunctionsKeepTypes }
{}

/// The main of a program that meets the rules gives a value of the type of its result, where the types in the functions
/// are formed and the program has at most 2^64 shapes.
#[tactic(auto, using(crate::proofs::Statements::mains_keep_types))]
pub fn mains_keep_types()
    ensures { MainsKeepTypes }
{}

/// The cells of what a thread begins with hold values that fit them, where the initial values of the program's private
/// objects fit their cells.
#[tactic(auto, using(crate::proofs::Stores::beginnings_are_filled))]
pub fn beginnings_are_filled()
    ensures { BeginningsAreFilled }
{}

/// What an operator takes in a program that meets the rules is what it is defined for, where the types of its operands
/// are formed and their values have their types.
#[tactic(auto, using(crate::proofs::Uses::operands_are_taken))]
pub fn operands_are_taken()
    ensures { OperandsAreTaken }
{}

/// Each local name has the number of an object, where the block of its function is open in the youngest call.
#[tactic(auto, using(crate::proofs::Scopes::names_are_found))]
pub fn names_are_found()
    ensures { NamesAreFound }
{}

/// A conversion that the table of conversions allows takes the value, so that no value counts as null or as 0 there but
/// that of the constant 0.
#[tactic(auto, using(crate::proofs::Taken::conversions_are_taken))]
pub fn conversions_are_taken()
    ensures { ConversionsAreTaken }
{}

/// The conversion of the two last operands of `? :` into the type of the whole takes the value, so that no value counts
/// as null or as 0 there but that of the constant 0.
#[tactic(auto, using(crate::proofs::Choices::choices_are_taken))]
pub fn choices_are_taken()
    ensures { ChoicesAreTaken }
{}

/// What is written to a cell of a shared object is a scalar, where it fits the cell.
#[tactic(auto, using(crate::proofs::Scalars::scalars_are_kept))]
pub fn scalars_are_kept()
    ensures { ScalarsAreKept }
{}

/// A call of the library with arguments of its parameters' types reads scalars of private cells, and writes to them
/// what fits, where what it reads of cells fits them; and what is read of a cell fits it.
#[tactic(auto, using(crate::proofs::Copies::copies_fit))]
pub fn copies_fit()
    ensures { CopiesFit }
{}

/// The arguments of printf after its format are integers, whose types have kinds of integers, and so is what comes of
/// them.
#[tactic(auto, using(crate::proofs::Printed::printed_are_promoted))]
pub fn printed_are_promoted()
    ensures { PrintedArePromoted }
{}

/// The elements of each declared shared object have a shape that the program has.
#[tactic(auto, using(crate::proofs::Shapes::shared_have_shapes))]
pub fn shared_have_shapes()
    ensures { SharedHaveShapes }
{}

/// What `+`, `-`, `++`, `--` and subscripts step over has a layout.
#[tactic(auto, using(crate::proofs::Layouts::stepped_are_laid))]
pub fn stepped_are_laid()
    ensures { SteppedAreLaid }
{}

/// A size operator has a known value.
#[tactic(auto, using(crate::proofs::Layouts::sizes_are_known))]
pub fn sizes_are_known()
    ensures { SizesAreKnown }
{}

/// Each name of a shared object has the object.
#[tactic(auto, using(crate::proofs::Layouts::shared_are_there))]
pub fn shared_are_there()
    ensures { SharedAreThere }
{}

/// A pointer-to-shared that fits a cell keeps its phase where it is stepped, if the block of what it leads to is at
/// most 16,777,216 elements.
#[tactic(auto, using(crate::proofs::Layouts::phases_stay))]
pub fn phases_stay()
    ensures { PhasesStay }
{}

/// A statement is left in the calls in which it was reached, each in as many controlling bodies; so a controlling body
/// is left only where one was entered.
#[tactic(auto, using(crate::proofs::Statements::bodies_are_counted))]
pub fn bodies_are_counted()
    ensures { BodiesAreCounted }
{}
