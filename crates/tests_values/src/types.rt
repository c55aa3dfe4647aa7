//! Sizes, shapes, kinds and conversions from the tables of docs/LANGUAGE.md.

use block_layout::{Kind, Shape};
use std::alloc::{AllocError as OutOfMemory, Global};
use std::test::Fail;
use upc_text::Text;
use upc_types::{
    Access, Base, CType, Layout, Member, Structs, Target, assignable, castable, copy_type,
    object_shape, same_type, shape_of, takes_allocation, to_shared_void, to_void_pointer, usual,
};
use upc_values::is_integer;

fn plain(base: Base) -> CType {
    CType {
        base,
        constant: false,
        shared: None,
        access: Access::Unsaid,
    }
}

fn shared(base: Base, block: u32) -> CType {
    CType {
        base,
        constant: false,
        shared: Some(block),
        access: Access::Unsaid,
    }
}

fn pointer(alloc: Global, target: CType) -> Result<CType, OutOfMemory> {
    Ok(plain(Base::Pointer(Target::new(alloc, target)?)))
}

fn array(alloc: Global, element: CType, count: u32) -> Result<CType, OutOfMemory> {
    Ok(plain(Base::Array(Target::new(alloc, element)?, count)))
}

// Types of the tables below.
#[derive(Clone, Copy)]
enum Sample {
    Void,
    Of(Kind),
    Lock,
    ToChar,
    // A pointer to int, to shared [3] int, to shared [] void, and to a shared struct that is incomplete.
    ToInt,
    ToShared,
    ToSharedVoid,
    ToOpen,
    Shorts,
    Grid,
    // A pointer to int with these qualifiers of its target.
    Pointer(bool, Option<u32>, Access),
}

fn type_of(alloc: Global, which: Sample) -> Result<CType, OutOfMemory> {
    match which {
        Sample::Void => Ok(plain(Base::Void)),
        Sample::Of(kind) => Ok(plain(Base::Integer(kind))),
        Sample::Lock => pointer(alloc, plain(Base::LockObject)),
        Sample::ToChar => pointer(alloc, plain(Base::Integer(Kind::Char))),
        Sample::ToInt => pointer(alloc, plain(Base::Integer(Kind::Int))),
        Sample::ToShared => pointer(alloc, shared(Base::Integer(Kind::Int), 3)),
        Sample::ToSharedVoid => pointer(alloc, shared(Base::Void, 0)),
        Sample::ToOpen => pointer(alloc, shared(Base::Struct(0), 1)),
        Sample::Shorts => array(alloc, plain(Base::Integer(Kind::Short)), 400),
        Sample::Grid => grid(alloc),
        Sample::Pointer(constant, shared, access) => int_pointer(alloc, constant, shared, access),
    }
}

// A char [5][3].
fn grid(alloc: Global) -> Result<CType, OutOfMemory> {
    let row = array(alloc, plain(Base::Integer(Kind::Char)), 3)?;
    array(alloc, row, 5)
}

// A pointer to int with these qualifiers of its target.
fn int_pointer(
    alloc: Global,
    constant: bool,
    shared: Option<u32>,
    access: Access,
) -> Result<CType, OutOfMemory> {
    pointer(alloc, int_with(constant, shared, access))
}

const I: Kind = Kind::Int;

const U: Kind = Kind::UInt;

const L: Kind = Kind::Long;

const M: Kind = Kind::ULong;

const INTEGERS: [Kind; 8] = [
    Kind::Char,
    Kind::UChar,
    Kind::Short,
    Kind::UShort,
    I,
    U,
    L,
    M,
];

// For each integer kind the kinds that the usual conversions give with each.
const USUAL: [[Kind; 8]; 8] = [
    [I, I, I, I, I, U, L, M],
    [I, I, I, I, I, U, L, M],
    [I, I, I, I, I, U, L, M],
    [I, I, I, I, I, U, L, M],
    [I, I, I, I, I, U, L, M],
    [U, U, U, U, U, U, L, M],
    [L, L, L, L, L, L, L, M],
    [M, M, M, M, M, M, M, M],
];

fn usual_of(a: Kind, b: Kind) -> Option<Kind> {
    if is_integer(a) && is_integer(b) {
        Some(usual(a, b))
    } else {
        None
    }
}

#[test]
fn usual_conversions(rt: HostRuntime) {
    for (a, wants) in INTEGERS.iter().zip(&USUAL) {
        for (b, want) in INTEGERS.iter().zip(wants) {
            assert_eq!(rt; usual_of(*a, *b), Some(*want), "{a:?} and {b:?}");
        }
    }
}

// Whether a value converts without a cast, and with one.
fn converts(from: &CType, into: &CType, zero: bool) -> (bool, bool) {
    (assignable(from, into, zero), castable(from, into, zero))
}

// The types of pointers to int with other targets.
const INT: Sample = Sample::Of(Kind::Int);

const OPEN: Sample = Sample::Pointer(false, None, Access::Unsaid);

const FIXED: Sample = Sample::Pointer(true, None, Access::Unsaid);

const THREES: Sample = Sample::Pointer(false, Some(3), Access::Unsaid);

const FOURS: Sample = Sample::Pointer(false, Some(4), Access::Unsaid);

const FIXED_THREES: Sample = Sample::Pointer(true, Some(3), Access::Unsaid);

const STRICT: Sample = Sample::Pointer(false, Some(3), Access::Strict);

const RELAXED: Sample = Sample::Pointer(false, Some(3), Access::Relaxed);

const INDEFINITE: Sample = Sample::Pointer(false, Some(0), Access::Unsaid);

const ONES: Sample = Sample::Pointer(false, Some(1), Access::Unsaid);

// A type, another, whether the value is 0, and whether it converts without a cast and with one.
const CONVERSIONS: [(Sample, Sample, bool, (bool, bool)); 22] = [
    (OPEN, FIXED, false, (true, true)),
    (FIXED, OPEN, false, (false, false)),
    (THREES, THREES, false, (true, true)),
    (STRICT, RELAXED, false, (true, true)),
    (THREES, FOURS, false, (false, true)),
    (INDEFINITE, ONES, false, (false, true)),
    (FIXED_THREES, FOURS, false, (false, false)),
    (THREES, OPEN, false, (false, true)),
    (FIXED_THREES, OPEN, false, (false, false)),
    (OPEN, THREES, false, (false, false)),
    (INT, Sample::Of(Kind::ULong), false, (true, true)),
    (INT, Sample::ToInt, false, (false, false)),
    (INT, Sample::ToInt, true, (true, true)),
    (INT, Sample::ToShared, true, (true, true)),
    (INT, Sample::Lock, true, (true, true)),
    (Sample::ToInt, INT, false, (false, false)),
    (Sample::ToInt, Sample::ToChar, false, (false, false)),
    (Sample::Lock, Sample::Lock, false, (true, true)),
    (Sample::Lock, Sample::ToInt, false, (false, false)),
    (Sample::ToInt, Sample::Lock, false, (false, false)),
    (Sample::ToInt, Sample::Void, false, (false, true)),
    (Sample::Void, INT, false, (false, false)),
];

// Whether a value of a type converts to another without a cast, and with one.
fn converts_so(
    alloc: Global,
    from: Sample,
    into: Sample,
    zero: bool,
) -> Result<(bool, bool), OutOfMemory> {
    let from = type_of(alloc, from)?;
    let into = type_of(alloc, into)?;
    Ok(converts(&from, &into, zero))
}

#[test]
fn conversions(rt: HostRuntime) -> Result<(), Fail> {
    for (from, into, zero, wanted) in &CONVERSIONS {
        assert!(rt; converts_so(rt.alloc(), *from, *into, *zero)? == *wanted);
    }
    Ok(())
}

// A type, whether the value is 0, whether it may be given for a `shared void *` and for a `void *`, and whether the
// type may take what a call allocates.
const LIBRARY: [(Sample, bool, (bool, bool, bool)); 7] = [
    (Sample::ToShared, false, (true, false, true)),
    (Sample::ToInt, false, (false, true, false)),
    (Sample::ToSharedVoid, false, (true, false, false)),
    (Sample::ToOpen, false, (true, false, false)),
    (Sample::Lock, false, (false, false, false)),
    (Sample::Of(Kind::Int), false, (false, false, false)),
    (Sample::Of(Kind::Int), true, (true, true, false)),
];

fn taken_so(alloc: Global, which: Sample, zero: bool) -> Result<(bool, bool, bool), Fail> {
    let structs = Structs::new(alloc);
    let ctype = type_of(alloc, which)?;
    Ok((
        to_shared_void(&ctype, zero),
        to_void_pointer(&ctype, zero),
        takes_allocation(&ctype, &structs),
    ))
}

#[test]
fn arguments_and_results_of_the_library(rt: HostRuntime) -> Result<(), Fail> {
    for (sample, zero, wanted) in &LIBRARY {
        assert!(rt; taken_so(rt.alloc(), *sample, *zero)? == *wanted);
    }
    Ok(())
}

fn member(alloc: Global, base: Base) -> Member {
    Member {
        name: Text::new(alloc),
        ctype: plain(base),
    }
}

// A struct of a char, this type and a char: its layout once it is complete.
fn between_chars(structs: &mut Structs, alloc: Global, base: Base) -> Result<Option<Layout>, Fail> {
    let byte = Kind::Char;
    let members = Vec::from_array(
        alloc,
        [
            member(alloc, Base::Integer(byte)),
            member(alloc, base),
            member(alloc, Base::Integer(byte)),
        ],
    )?;
    let number = structs.declare()?;
    if members.is_empty() || structs.is_complete(&Base::Struct(number)) {
        return Ok(None);
    }
    if let Some(layout) = structs.members_layout(members.as_slice()) {
        structs.complete(number, members, layout)?;
    }
    Ok(structs.layout_of(&Base::Struct(number)))
}

const SIZES: [(Kind, u32); 8] = [
    (Kind::Char, 1),
    (Kind::UChar, 1),
    (Kind::Short, 2),
    (Kind::UShort, 2),
    (Kind::Int, 4),
    (Kind::UInt, 4),
    (Kind::Long, 8),
    (Kind::ULong, 8),
];

fn has_layout(found: Option<Layout>, size: u32, align: u32) -> bool {
    found == Some(Layout { size, align })
}

#[test]
fn layouts(rt: HostRuntime) -> Result<(), Fail> {
    let mut known = Structs::new(rt.alloc());
    for (kind, size) in &SIZES {
        let layout = known.layout_of(&Base::Integer(*kind));
        assert!(rt; has_layout(layout, *size, *size));
    }
    assert!(rt; known.layout_of(&Base::Void).is_none());
    assert!(rt; known.layout_of(&Base::LockObject).is_none());
    assert!(rt; known.layout_of(&Base::Struct(0)).is_none());
    for (kind, size, align) in [(Kind::Short, 6, 2), (Kind::Long, 24, 8)] {
        let layout = between_chars(&mut known, rt.alloc(), Base::Integer(kind))?;
        assert!(rt; has_layout(layout, size, align));
    }
    for (number, size, align) in [(0, 10, 2), (1, 40, 8)] {
        let layout = between_chars(&mut known, rt.alloc(), Base::Struct(number))?;
        assert!(rt; has_layout(layout, size, align));
    }
    assert!(rt; known.layout_of(&Base::Struct(9)).is_none());
    Ok(())
}

// The shape of the leaf elements of a type, and how many cells a whole object has.
fn shapes(alloc: Global, t: &CType, structs: &Structs) -> Result<Option<(Shape, usize)>, Fail> {
    if structs.layout_of(&t.base).is_none() {
        return Ok(None);
    }
    let leaf = shape_of(alloc, t, structs)?;
    let whole = object_shape(alloc, t, structs)?;
    let all = whole.cells.to_vec(alloc)?;
    Ok(Some((leaf, all.len())))
}

// Whether a type has a leaf shape of this size with these cells, and so many cells as a whole.
fn has_shape(
    alloc: Global,
    t: &CType,
    structs: &Structs,
    size: u32,
    cells: &[(u32, Kind)],
    count: usize,
) -> Result<bool, Fail> {
    match shapes(alloc, t, structs)? {
        Some((leaf, all)) => {
            let found = leaf.cells.to_vec(alloc)?;
            Ok(leaf.size == size && found.as_slice() == cells && all == count)
        }
        None => Ok(false),
    }
}

// A type, the kind of its leaf elements, their size, and how many cells a whole object has.
const SHAPES: [(Sample, Kind, u32, usize); 6] = [
    (Sample::Of(Kind::Int), Kind::Int, 4, 1),
    (Sample::Shorts, Kind::Short, 2, 400),
    (Sample::Grid, Kind::Char, 1, 15),
    (Sample::Lock, Kind::Lock, 16, 1),
    (Sample::ToShared, Kind::Shared(0, 3), 16, 1),
    (Sample::ToInt, Kind::Private(1), 8, 1),
];

#[test]
fn shapes_of_scalars_and_arrays(rt: HostRuntime) -> Result<(), Fail> {
    let mut known = Structs::new(rt.alloc());
    known.note(&shared(Base::Integer(Kind::Int), 3))?;
    known.note(&plain(Base::Integer(Kind::Int)))?;
    for (which, kind, size, count) in &SHAPES {
        let t = type_of(rt.alloc(), *which)?;
        assert!(rt; has_shape(rt.alloc(), &t, &known, *size, &[(0, *kind)], *count)?);
    }
    Ok(())
}

// A struct of a char, two shorts and a char, and one of a char, that struct and a char.
fn nested(alloc: Global) -> Result<Structs, Fail> {
    let mut known = Structs::new(alloc);
    let pair = array(alloc, plain(Base::Integer(Kind::Short)), 2)?;
    between_chars(&mut known, alloc, pair.base)?;
    between_chars(&mut known, alloc, Base::Struct(0))?;
    Ok(known)
}

// The cells of the second.
const NESTED: [(u32, Kind); 6] = [
    (0, Kind::Char),
    (2, Kind::Char),
    (4, Kind::Short),
    (6, Kind::Short),
    (8, Kind::Char),
    (10, Kind::Char),
];

#[test]
fn shapes_of_structs(rt: HostRuntime) -> Result<(), Fail> {
    let known = nested(rt.alloc())?;
    let all = array(rt.alloc(), plain(Base::Struct(1)), 7)?;
    assert!(rt; has_shape(rt.alloc(), &all, &known, 12, &NESTED, 42)?);
    Ok(())
}

// A struct of a char, two pointers to int and a char; one of a char, three of those and a char; and one of a char, two
// rows of two of these and a char.
fn deep(alloc: Global) -> Result<Structs, Fail> {
    let mut known = Structs::new(alloc);
    let pointers = array(alloc, type_of(alloc, Sample::ToInt)?, 2)?;
    between_chars(&mut known, alloc, pointers.base)?;
    let three = array(alloc, plain(Base::Struct(0)), 3)?;
    between_chars(&mut known, alloc, three.base)?;
    let row = array(alloc, plain(Base::Struct(1)), 2)?;
    let rows = array(alloc, row, 2)?;
    between_chars(&mut known, alloc, rows.base)?;
    Ok(known)
}

// Whether two shapes are the same.
fn same_shape(a: &Shape, b: &Shape) -> bool {
    a.size == b.size && a.cells.same(&b.cells)
}

// Whether objects of a type have the same shapes in both.
fn shaped_alike(alloc: Global, t: &CType, a: &Structs, b: &Structs) -> Result<bool, Fail> {
    if a.layout_of(&t.base).is_none() || b.layout_of(&t.base).is_none() {
        return Ok(false);
    }
    let leaf = shape_of(alloc, t, a)?;
    let whole = object_shape(alloc, t, a)?;
    let other_leaf = shape_of(alloc, t, b)?;
    let other_whole = object_shape(alloc, t, b)?;
    Ok(same_shape(&leaf, &other_leaf) && same_shape(&whole, &other_whole))
}

// Whether objects of each struct, and five of it in a row, have the same shapes in both.
fn all_alike(alloc: Global, a: &Structs, b: &Structs) -> Result<bool, Fail> {
    for number in 0..a.declared() {
        let row = array(alloc, plain(Base::Struct(number)), 5)?;
        if !shaped_alike(alloc, &plain(Base::Struct(number)), a, b)?
            || !shaped_alike(alloc, &row, a, b)?
        {
            return Ok(false);
        }
    }
    Ok(true)
}

// One more target of pointers, and one more struct.
fn grow(known: &mut Structs, alloc: Global, block: u32) -> Result<(), Fail> {
    known.note(&shared(Base::Integer(Kind::Int), block))?;
    between_chars(known, alloc, Base::Struct(block))?;
    Ok(())
}

// Whether shapes are the same where the cells of marked structs are held, before and after there is one more.
fn held_alike(alloc: Global, wanted: &[bool]) -> Result<bool, Fail> {
    let mut known = deep(alloc)?;
    let mut fresh = deep(alloc)?;
    for block in [2, 3] {
        known.hold_cells(alloc, wanted)?;
        if !all_alike(alloc, &known, &fresh)? {
            return Ok(false);
        }
        grow(&mut known, alloc, block)?;
        grow(&mut fresh, alloc, block)?;
        if !all_alike(alloc, &known, &fresh)? {
            return Ok(false);
        }
    }
    Ok(true)
}

// Marks of all structs, of some of them, and of none.
const MARKS: [[bool; 4]; 5] = [
    [true, true, true, true],
    [true, false, true, false],
    [false, true, false, false],
    [false, false, false, true],
    [false, false, false, false],
];

#[test]
fn shapes_of_held_cells(rt: HostRuntime) -> Result<(), Fail> {
    for wanted in &MARKS {
        assert!(rt; held_alike(rt.alloc(), wanted)?);
    }
    assert!(rt; held_alike(rt.alloc(), &[true])?);
    Ok(())
}

// Qualifiers of an int, and the number of a pointer to it.
const NUMBERS: [(bool, Option<u32>, Access, u32); 6] = [
    (false, Some(3), Access::Unsaid, 0),
    (true, Some(3), Access::Strict, 0),
    (false, Some(4), Access::Unsaid, 1),
    (false, None, Access::Unsaid, 2),
    (true, None, Access::Relaxed, 2),
    (false, Some(4), Access::Relaxed, 1),
];

fn int_with(constant: bool, shared: Option<u32>, access: Access) -> CType {
    CType {
        base: Base::Integer(Kind::Int),
        constant,
        shared,
        access,
    }
}

#[test]
fn numbers_of_pointers(rt: HostRuntime) -> Result<(), Fail> {
    let mut known = Structs::new(rt.alloc());
    for (constant, shared, access, number) in &NUMBERS {
        let target = int_with(*constant, *shared, *access);
        assert_eq!(rt; known.note(&target)?, *number);
    }
    Ok(())
}

// Whether a copy of a type is the same type.
fn is_copied(t: &CType) -> Result<bool, OutOfMemory> {
    let copy = copy_type(t)?;
    Ok(same_type(&copy, t))
}

#[test]
fn a_long_chain_of_pointers(rt: HostRuntime) -> Result<(), Fail> {
    let mut t = plain(Base::Integer(Kind::Int));
    for _i in 0..300_000 {
        t = pointer(rt.alloc(), t)?;
    }
    assert!(rt; is_copied(&t)?);
    Ok(())
}

// A type of so many stars, whose targets have qualifiers in turn; the target of the star at this place is const where
// that of the others is not, and not const where theirs is.
fn starred(alloc: Global, stars: u32, changed: u32) -> Result<CType, OutOfMemory> {
    let mut t = plain(Base::Integer(Kind::Int));
    for i in 0..stars {
        t.constant = (i % 7 == 0) != (i == changed);
        if i % 11 == 0 {
            t.access = Access::Strict;
        }
        if i % 13 == 0 {
            t.shared = Some(i % 5);
        }
        if i % 17 == 0 {
            t.shared = Some(100);
        }
        t = pointer(alloc, t)?;
    }
    Ok(t)
}

#[test]
fn types_of_many_stars(rt: HostRuntime) -> Result<(), Fail> {
    let a = rt.alloc();
    let t = starred(a, 500, 500)?;
    assert!(rt; same_type(&t, &starred(a, 500, 500)?));
    assert!(rt; !same_type(&t, &starred(a, 501, 501)?));
    for changed in 0..500 {
        assert!(rt; !same_type(&t, &starred(a, 500, changed)?));
    }
    Ok(())
}

// A pointer to void, to shared void and to a lock, and the first two structs.
fn pointing(alloc: Global, number: u32) -> Result<CType, OutOfMemory> {
    match number {
        0 => pointer(alloc, plain(Base::Void)),
        1 => pointer(alloc, shared(Base::Void, 1)),
        2 => pointer(alloc, plain(Base::LockObject)),
        3 => Ok(plain(Base::Struct(0))),
        _ => Ok(plain(Base::Struct(1))),
    }
}

// Whether each holds a private pointer. The structs hold the first two.
const PRIVATE: [(u32, bool); 5] = [(0, true), (1, false), (2, false), (3, true), (4, false)];

#[test]
fn private_pointers(rt: HostRuntime) -> Result<(), Fail> {
    let a = rt.alloc();
    let mut known = Structs::new(a);
    for (number, private) in &PRIVATE {
        let t = pointing(a, *number)?;
        assert!(rt; is_copied(&t)?);
        assert_eq!(rt; known.holds_private(&t.base), *private);
        between_chars(&mut known, a, t.base)?;
    }
    Ok(())
}
