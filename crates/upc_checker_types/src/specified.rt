//! Specifiers and qualifiers (C99 6.7.1 to 6.7.3, UPC 6.5.1).

ghost use Rattle.std.specs.Prelude.{◌≡◌, OnOk};
ghost use Rattle.upc_checker_types.specs.Specifiers as pure;
ghost use Rattle.upc_checker_types.specs.Shapes as walks;
ghost use Rattle.upc_checker_types.specs.layer.ViewShapes.{view_quals, view_qualifier, view_specified, view_specifier};
ghost use Rattle.upc_checker_types.specs.layer.ViewShapes.{view_specifying};
ghost use Rattle.upc_checker_types.specs.code.ViewWords.{view_found};

use crate::words::{base_of_words, count, no_types};
use block_layout::limits;
use std::alloc::Global;
use typing_rules::Constant;
use upc_text::{OutOfMemory, Place};
use upc_tree::TypeWord;
use upc_types::Base;

/// A layout (UPC 6.5.1.1): a block size, 0 for indefinite, or `[*]`.
#[derive(Clone, Copy)]
pub enum Blocks {
    Size(u32),
    Star,
}

/// A qualifier.
#[derive(Clone, Copy)]
pub enum Qualifier {
    Const,
    Strict,
    Relaxed,
    Shared(Blocks),
}

/// The qualifiers at one place: const, the layout of each `shared`, and whether strict and relaxed stand there.
#[derive(Drop)]
pub struct Quals {
    pub constant: bool,
    pub layouts: Vec<Blocks>,
    pub strict: bool,
    pub relaxed: bool,
}

/// A word, a struct by its number, or a qualifier.
#[derive(Clone, Copy)]
pub enum Specifier {
    Word(TypeWord),
    Struct(u32),
    Qual(Qualifier),
}

/// What stands among specifiers.
#[derive(Drop)]
pub struct Specified {
    pub words: Vec<TypeWord>,
    pub structs: Vec<u32>,
    pub quals: Quals,
}

/// What stands around specifiers: where they are refused, whether `[*]` may stand there and whether `static` may, and
/// whether they declare nothing but a tag.
#[derive(Clone, Copy)]
pub struct Specifying {
    pub at: Place,
    pub star: bool,
    pub may_be_static: bool,
    pub alone: bool,
}

/// Around the specifiers of a type name, a parameter or a member, which are refused there.
pub fn in_type(at: Place) -> Specifying
    ensures { view_specifying result ≡ walks.in_type at }
{
    Specifying {
        at,
        star: false,
        may_be_static: false,
        alone: false,
    }
}

/// No qualifier.
pub fn no_quals(alloc: Global) -> Quals
    ensures { view_quals result ≡ pure.no_quals }
{
    Quals {
        constant: false,
        layouts: Vec::new(alloc),
        strict: false,
        relaxed: false,
    }
}

/// No specifier.
pub fn nothing_specified(alloc: Global) -> Specified
    ensures { view_specified result ≡ pure.nothing_specified }
{
    Specified {
        words: Vec::new(alloc),
        structs: Vec::new(alloc),
        quals: no_quals(alloc),
    }
}

/// One more qualifier.
pub fn add_qual(quals: &mut Quals, qualifier: Qualifier) -> Result<(), OutOfMemory>
    ensures { OnOk result (view_quals quals.new ≡ pure.both_quals (view_quals quals.old)
        (view_qualifier qualifier)) }
{
    match qualifier {
        Qualifier::Const => quals.constant = true,
        Qualifier::Strict => quals.strict = true,
        Qualifier::Relaxed => quals.relaxed = true,
        Qualifier::Shared(blocks) => quals.layouts.push(blocks)?,
    }
    Ok(())
}

/// One more specifier.
pub fn add_specifier(found: &mut Specified, specifier: Specifier) -> Result<(), OutOfMemory>
    ensures { OnOk result (view_specified found.new ≡ pure.both_specified (view_specified found.old)
        (view_specifier specifier)) }
{
    match specifier {
        Specifier::Word(word) => found.words.push(word)?,
        Specifier::Struct(number) => found.structs.push(number)?,
        Specifier::Qual(qualifier) => add_qual(&mut found.quals, qualifier)?,
    }
    Ok(())
}

/// Whether qualifiers go together.
pub fn quals_fit(quals: &Quals) -> bool
    ensures { result ≡ pure.quals_fit (view_quals quals.now) }
{
    let shares = quals.layouts.len();
    shares <= 1
        && !(quals.strict && quals.relaxed)
        && (shares == 1 || !(quals.strict || quals.relaxed))
}

fn base_of_parts(words: &[TypeWord], structs: &[u32]) -> Option<Base>
    ensures { view_found result ≡ pure.base_of_parts words.now structs.now }
{
    match structs {
        [] => base_of_words(words),
        [number] if no_types(words) => Some(Base::Struct(*number)),
        _ => None,
    }
}

/// The type that specifiers form, without its qualifiers.
pub fn specified_base(found: &Specified) -> Option<Base>
    ensures { view_found result ≡ pure.specified_base (view_specified found.now) }
{
    base_of_parts(found.words.as_slice(), found.structs.as_slice())
}

/// Whether specifiers form a type, and their qualifiers go together.
pub fn forms_type(found: &Specified) -> bool
    ensures { result ≡ pure.forms_type (view_specified found.now) }
{
    specified_base(found).is_some() && quals_fit(&found.quals)
}

/// Whether specifiers form a type, and the rest fits: `static` stands where it may.
pub fn specifiers_form(may_be_static: bool, found: &Specified) -> bool
    ensures { result ≡ pure.specifiers_form may_be_static (view_specified found.now) }
{
    let most = if may_be_static { 1 } else { 0 };
    forms_type(found) && count(TypeWord::Static, found.words.as_slice()) <= most
}

/// The block size that a constant says, 1 where it is none.
pub fn block_size(c: Constant) -> u32
    ensures { result ≡ walks.block_size c }
{
    match c {
        Constant::Known(v) if 0 <= v && v <= i128::from(limits::SHARED_BYTES) => v as u32,
        _ => 1,
    }
}
