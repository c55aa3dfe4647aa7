//! The types that specifiers, stars and sizes make.

ghost use Rattle.std.specs.Prelude.{◌≡◌, ◌≤◌, IfOk, map};
ghost use Rattle.upc_types.specs.View.{view, view_base};
ghost use Rattle.typing_rules.specs.layer.Views.{view_formed};
ghost use Rattle.upc_checker_types.specs.Specifiers as pure;
ghost use Rattle.upc_checker_types.specs.Shapes as walks;
ghost use Rattle.upc_checker_types.specs.layer.ViewShapes.{view_blocks, view_quals, view_shaped, view_specified};

use crate::specified::{Blocks, Quals, Specified, quals_fit, specified_base};
use block_layout::{Kind, limits};
use std::alloc::Global;
use typing_rules::{Constant, Formed};
use typing_rules_checks::attributes::value_type;
use upc_text::OutOfMemory;
use upc_types::{Access, Base, CType, Target, copy_type};

/// A type so far: whether its parts fit, and whether its last layout is `[*]`.
#[derive(Drop)]
pub struct Shaped {
    pub forms: bool,
    pub ctype: CType,
    pub star: bool,
}

fn layout_block(blocks: Blocks) -> u32
    ensures { result ≡ pure.layout_block (view_blocks blocks) }
{
    match blocks {
        Blocks::Size(size) => size,
        Blocks::Star => 1,
    }
}

fn first_block(layouts: &[Blocks]) -> Option<u32>
    ensures { result ≡ pure.first_block (map view_blocks layouts.now) }
{
    match layouts {
        [] => None,
        [blocks, ..] => Some(layout_block(*blocks)),
    }
}

fn first_star(layouts: &[Blocks]) -> bool
    ensures { result ≡ pure.first_star (map view_blocks layouts.now) }
{
    matches!(layouts, [Blocks::Star, ..])
}

fn access_by(strict: bool, relaxed: bool) -> Access
    ensures { result ≡ pure.access_by strict relaxed }
{
    if strict {
        Access::Strict
    } else if relaxed {
        Access::Relaxed
    } else {
        Access::Unsaid
    }
}

// A type with these qualifiers.
fn qualify(base: Base, quals: &Quals) -> CType
    ensures { view result ≡ pure.qualify (view_base base) (view_quals quals.now) }
{
    CType {
        base,
        constant: quals.constant,
        shared: first_block(quals.layouts.as_slice()),
        access: access_by(quals.strict, quals.relaxed),
    }
}

/// The type of specifiers. Those that form none are refused before.
pub fn specified_type(found: &Specified) -> Shaped
    ensures { view_shaped result ≡ pure.specified_type (view_specified found.now) }
{
    let base = specified_base(found).unwrap_or(Base::Integer(Kind::Int));
    Shaped {
        forms: true,
        ctype: qualify(base, &found.quals),
        star: first_star(found.quals.layouts.as_slice()),
    }
}

/// A pointer to that, with qualifiers of its own.
pub fn pointer_to(alloc: Global, t: Shaped, quals: &Quals) -> Result<Shaped, OutOfMemory>
    ensures { IfOk result (λ p. view_shaped p ≡ pure.pointer_to (view_shaped t) (view_quals
        quals.now)) }
{
    let base = Base::Pointer(Target::new(alloc, t.ctype)?);
    Ok(Shaped {
        forms: t.forms && quals_fit(quals),
        ctype: qualify(base, quals),
        star: first_star(quals.layouts.as_slice()),
    })
}

/// A copy of a type so far.
pub fn copy_shaped(t: &Shaped) -> Result<Shaped, OutOfMemory>
    ensures { IfOk result (λ copy. view_shaped copy ≡ view_shaped t.now) }
{
    Ok(Shaped {
        forms: t.forms,
        ctype: copy_type(&t.ctype)?,
        star: t.star,
    })
}

/// The type of a type name or a parameter, whose specifiers are judged with it.
pub fn named_type(forms: bool, t: Shaped) -> Shaped
    ensures { view_shaped result ≡ walks.named_type forms (view_shaped t) }
{
    Shaped {
        forms: forms && t.forms,
        ctype: t.ctype,
        star: t.star,
    }
}

// The number of elements that a size says, 1 where it is none, at most one more than an object can have.
fn elements(size: Constant) -> u32
    ensures value { result ≡ pure.elements size }
    ensures most { result ≤ 16777217 }
{
    match size {
        Constant::Known(v) if 1 <= v => {
            if v <= i128::from(limits::SHARED_BYTES) {
                v as u32
            } else {
                limits::SHARED_BYTES + 1
            }
        }
        _ => 1,
    }
}

// How many elements there are in all, at most one more than an object can have.
fn all_elements(sizes: &[Constant]) -> u32
    ensures value { result ≡ pure.all_elements sizes.now }
    ensures most { result ≤ 16777217 }
{
    let mut all = 1;
    for i in (0..sizes.len()).rev() {
        let some = u64::from(elements(sizes[i])) * u64::from(all);
        all = some.min(16_777_217) as u32;
    }
    all
}

// The block of `[*]`: the least with which no thread has two blocks.
fn star_size(threads: u32, count: u32) -> u32
    requires { count ≤ 16777217 }
    ensures { result ≡ pure.star_size threads count }
{
    if threads == 0 {
        return 0;
    }
    let most = u64::from(count) + u64::from(threads - 1);
    (most / u64::from(threads)) as u32
}

fn with_block(block: u32, t: CType) -> CType
    ensures { view result ≡ pure.with_block block (view t) }
{
    CType {
        base: t.base,
        constant: t.constant,
        shared: Some(block),
        access: t.access,
    }
}

fn element_type(threads: u32, t: Shaped, sizes: &[Constant]) -> CType
    ensures { view result ≡ pure.element_type threads (view_shaped t) sizes.now }
{
    if t.star {
        with_block(star_size(threads, all_elements(sizes)), t.ctype)
    } else {
        t.ctype
    }
}

// An array, which has the qualifiers of its elements (C99 6.7.3).
fn array_of(alloc: Global, t: CType, count: u32) -> Result<CType, OutOfMemory>
    ensures { IfOk result (λ a. view a ≡ pure.array_of (view t) count) }
{
    let (constant, shared, access) = (t.constant, t.shared, t.access);
    Ok(CType {
        base: Base::Array(Target::new(alloc, t)?, count),
        constant,
        shared,
        access,
    })
}

fn arrays_of(alloc: Global, t: CType, sizes: &[Constant]) -> Result<CType, OutOfMemory>
    ensures { IfOk result (λ a. view a ≡ pure.arrays_of (view t) sizes.now) }
{
    let mut t = t;
    for i in (0..sizes.len()).rev() {
        t = array_of(alloc, t, elements(sizes[i]))?;
    }
    Ok(t)
}

/// The type with sizes after it.
pub fn formed(
    alloc: Global,
    threads: u32,
    t: Shaped,
    sizes: Vec<Constant>,
) -> Result<Formed, OutOfMemory>
    ensures { IfOk result (λ f. view_formed f ≡ pure.formed threads (view_shaped t) sizes.items) }
{
    let forms = t.forms;
    let element = element_type(threads, t, sizes.as_slice());
    Ok(Formed {
        forms,
        ctype: arrays_of(alloc, element, sizes.as_slice())?,
        sizes,
    })
}

/// A parameter's type before its adjustment.
pub fn parameter_array(
    alloc: Global,
    threads: u32,
    t: Shaped,
    size: Option<Constant>,
) -> Result<Formed, OutOfMemory>
    ensures { IfOk result (λ f. view_formed f ≡ walks.parameter_array threads (view_shaped t) size) }
{
    let mut sizes = Vec::new(alloc);
    let count = match size {
        None => 1,
        Some(size) => {
            sizes.push(size)?;
            elements(size)
        }
    };
    Ok(Formed {
        forms: t.forms,
        ctype: array_of(alloc, t.ctype, count)?,
        sizes,
    })
}

/// An array as a parameter is a pointer to its first element (C99 6.7.5.3).
pub fn adjusted(t: &CType) -> Result<CType, OutOfMemory>
    ensures { IfOk result (λ a. view a ≡ walks.adjusted (view t.now)) }
{
    if matches!(t.base, Base::Array(_, _)) {
        value_type(t)
    } else {
        copy_type(t)
    }
}
