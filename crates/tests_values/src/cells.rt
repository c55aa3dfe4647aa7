//! Cells of elements that are held as copies of patterns, against lists that are made one by one.

ghost use Rattle.std.specs.Prelude.{◌+◌, ◌*◌, ◌≤◌, IsTrue};

use block_layout::{Cells, Kind, Shape};
use std::alloc::{AllocError as OutOfMemory, Global};
use std::test::Fail;

// Whether so many elements of a size end below 2^32.
fn is_near(start: u32, count: u32, size: u32) -> bool
    ensures { IsTrue result → start + count * size ≤ 4294967295 }
{
    match count.checked_mul(size) {
        Some(bytes) => bytes <= u32::MAX - start,
        None => false,
    }
}

// Copies of a part that lies in its size; nothing of any other.
fn add(
    cells: &mut Cells,
    start: u32,
    count: u32,
    size: u32,
    part: &Cells,
) -> Result<(), OutOfMemory> {
    if part.lie_within(size) && is_near(start, count, size) {
        cells.push_copies(start, count, size, part)?;
    }
    Ok(())
}

// The kind of the cell at a byte of a shape; None where it is no shape.
fn kind_in(shape: &Shape, place: u32) -> Option<Kind> {
    if shape.size > 0 && shape.cells.lie_within(shape.size) {
        shape.kind_at(place)
    } else {
        None
    }
}

// A list with these cells.
fn of(alloc: Global, list: &[(u32, Kind)]) -> Result<Cells, OutOfMemory> {
    let mut cells = Cells::new(alloc);
    for (place, kind) in list {
        cells.push(*place, *kind)?;
    }
    Ok(cells)
}

// Copies of a list, cell by cell.
fn plain(
    list: &mut Vec<(u32, Kind)>,
    start: u32,
    count: u32,
    size: u32,
    part: &[(u32, Kind)],
) -> Result<(), OutOfMemory> {
    let mut first = start;
    for _ in 0..count {
        for (place, kind) in part {
            list.push((first.wrapping_add(*place), *kind))?;
        }
        first = first.wrapping_add(size);
    }
    Ok(())
}

fn equal(a: &[(u32, Kind)], b: &[(u32, Kind)]) -> bool {
    a.len() == b.len()
        && a.iter()
            .zip(b.iter())
            .all(|(x, y)| x.0 == y.0 && x.1.is(y.1))
}

// How many chars, ints after them, elements in a row, and rows.
const GRIDS: [(u32, u32, u32, u32); 12] = [
    (0, 0, 3, 3),
    (1, 0, 1, 1),
    (3, 2, 2, 2),
    (256, 0, 1, 2),
    (257, 0, 1, 2),
    (260, 1, 1, 2),
    (260, 1, 3, 1),
    (260, 0, 3, 4),
    (40, 70, 2, 4),
    (300, 300, 2, 2),
    (12, 1, 40, 3),
    (1000, 1, 2, 0),
];

// An element of chars and ints, as cells and as a list.
fn element(alloc: Global, chars: u32, ints: u32) -> Result<(Cells, Vec<(u32, Kind)>), OutOfMemory> {
    let one = of(alloc, &[(0, Kind::Char)])?;
    let word = of(alloc, &[(0, Kind::Int)])?;
    let mut cells = Cells::new(alloc);
    add(&mut cells, 0, chars, 1, &one)?;
    add(&mut cells, chars, ints, 4, &word)?;
    let mut list = Vec::new(alloc);
    plain(&mut list, 0, chars, 1, &[(0, Kind::Char)])?;
    plain(&mut list, chars, ints, 4, &[(0, Kind::Int)])?;
    Ok((cells, list))
}

// A long, and after it rows of elements of chars and ints, as cells and as a list.
fn grid(
    alloc: Global,
    chars: u32,
    ints: u32,
    columns: u32,
    rows: u32,
) -> Result<(Cells, Vec<(u32, Kind)>), OutOfMemory> {
    let (part, list) = element(alloc, chars, ints)?;
    let size = chars.wrapping_add(ints.wrapping_mul(4));
    let mut row = Cells::new(alloc);
    add(&mut row, 0, columns, size, &part)?;
    let mut plain_row = Vec::new(alloc);
    plain(&mut plain_row, 0, columns, size, list.as_slice())?;
    let row_size = columns.wrapping_mul(size);
    let mut cells = of(alloc, &[(0, Kind::Long)])?;
    add(&mut cells, 8, rows, row_size, &row)?;
    let mut plain_grid = Vec::new(alloc);
    plain_grid.push((0, Kind::Long))?;
    plain(&mut plain_grid, 8, rows, row_size, plain_row.as_slice())?;
    Ok((cells, plain_grid))
}

// Whether these are the cells of the list, however it is held.
fn agree(alloc: Global, cells: &Cells, list: &[(u32, Kind)]) -> Result<bool, OutOfMemory> {
    let found = cells.to_vec(alloc)?;
    let copy = cells.copy(alloc)?;
    let pushed = of(alloc, list)?;
    let held = Cells::from_vec(list.to_vec(alloc)?);
    Ok(
        equal(found.as_slice(), list)
            && copy.same(cells)
            && cells.same(&pushed)
            && cells.same(&held),
    )
}

#[test]
fn copies_of_copies(rt: HostRuntime) -> Result<(), Fail> {
    for (chars, ints, columns, rows) in &GRIDS {
        let (cells, list) = grid(rt.alloc(), *chars, *ints, *columns, *rows)?;
        assert!(rt; agree(rt.alloc(), &cells, list.as_slice())?);
    }
    Ok(())
}

// A byte of `struct { long l; struct { int a, b; char c; } s[100]; char t; }`, where s begins at 8 and an element has
// 12 bytes, and the kind of the cell there.
const EDGES: [(u32, Option<Kind>); 14] = [
    (0, Some(Kind::Long)),
    (1, None),
    (7, None),
    (8, Some(Kind::Int)),
    (12, Some(Kind::Int)),
    (16, Some(Kind::Char)),
    (17, None),
    (20, Some(Kind::Int)),
    (1196, Some(Kind::Int)),
    (1200, Some(Kind::Int)),
    (1204, Some(Kind::Char)),
    (1205, None),
    (1208, Some(Kind::UChar)),
    (1212, None),
];

// Whether a shape has this cell at a byte and no other there.
fn is_found(shape: &Shape, place: u32, kind: Option<Kind>) -> bool {
    kind_in(shape, place) == kind
        && shape.cells.has(place, Kind::Int) == (kind == Some(Kind::Int))
        && shape.cells.has(place, Kind::Char) == (kind == Some(Kind::Char))
        && shape.cells.has(place, Kind::UChar) == (kind == Some(Kind::UChar))
        && !shape.cells.has(place, Kind::UInt)
}

// That element.
fn edges(alloc: Global) -> Result<Shape, OutOfMemory> {
    let part = of(alloc, &[(0, Kind::Int), (4, Kind::Int), (8, Kind::Char)])?;
    let mut cells = of(alloc, &[(0, Kind::Long)])?;
    add(&mut cells, 8, 100, 12, &part)?;
    cells.push(1208, Kind::UChar)?;
    Ok(Shape { size: 1216, cells })
}

#[test]
fn found_at_the_edges(rt: HostRuntime) -> Result<(), Fail> {
    let shape = edges(rt.alloc())?;
    for (place, kind) in &EDGES {
        assert!(rt; is_found(&shape, *place, *kind));
    }
    Ok(())
}

// A byte of that element, where the first cell from there on begins, and whether a cell is cut there.
const FROM: [(u32, Option<u32>, bool); 12] = [
    (0, Some(0), false),
    (1, Some(8), true),
    (7, Some(8), true),
    (8, Some(8), false),
    (9, Some(12), true),
    (16, Some(16), false),
    (17, Some(20), false),
    (1203, Some(1204), true),
    (1205, Some(1208), false),
    (1208, Some(1208), false),
    (1209, None, false),
    (1216, None, false),
];

// Whether the first cell from a byte on begins there, and a cell is cut at that byte or none is.
fn is_from(shape: &Shape, place: u32, first: Option<u32>, cut: bool) -> bool {
    if !shape.cells.lie_within(shape.size) {
        return false;
    }
    let begins = match shape.cells.from(place).next() {
        Some((start, _)) => first == Some(start),
        None => first.is_none(),
    };
    begins && shape.cells.cuts(place) == cut
}

#[test]
fn from_a_byte_on(rt: HostRuntime) -> Result<(), Fail> {
    let shape = edges(rt.alloc())?;
    for (place, first, cut) in &FROM {
        assert!(rt; is_from(&shape, *place, *first, *cut));
    }
    Ok(())
}

// The greatest object, and its cells at both ends.
#[test]
fn of_an_array_that_is_large(rt: HostRuntime) -> Result<(), Fail> {
    let one = of(rt.alloc(), &[(0, Kind::Char)])?;
    let mut cells = Cells::new(rt.alloc());
    if is_near(0, 16_777_216, 1) && one.lie_within(1) {
        cells.push_copies(0, 16_777_216, 1, &one)?;
    }
    assert!(rt; cells.has(0, Kind::Char));
    assert!(rt; cells.has(16_777_215, Kind::Char));
    assert!(rt; !cells.has(16_777_216, Kind::Char));
    assert!(rt; !cells.has(16_777_215, Kind::UChar));
    let copy = cells.copy(rt.alloc())?;
    assert!(rt; cells.same(&copy));
    let sharable = cells.sharable(rt.alloc())?;
    assert!(rt; sharable.same(&cells));
    Ok(())
}

// How many elements `{ int a; T *p; char c; }` of 24 bytes there are.
const COUNTS: [u32; 5] = [0, 1, 80, 100, 300];

// So many elements with pointers to private objects, as many such pointers, and a long.
fn with_pointers(alloc: Global, count: u32) -> Result<Cells, OutOfMemory> {
    let part = of(
        alloc,
        &[(0, Kind::Int), (8, Kind::Private(3)), (16, Kind::Char)],
    )?;
    let pointer = of(alloc, &[(0, Kind::Private(5))])?;
    let mut cells = Cells::new(alloc);
    add(&mut cells, 0, count, 24, &part)?;
    add(&mut cells, count.wrapping_mul(24), count, 8, &pointer)?;
    cells.push(count.wrapping_mul(32), Kind::Long)?;
    Ok(cells)
}

// Those of them that can be shared.
fn without_pointers(alloc: Global, count: u32) -> Result<Vec<(u32, Kind)>, OutOfMemory> {
    let mut list = Vec::new(alloc);
    plain(&mut list, 0, count, 24, &[(0, Kind::Int), (16, Kind::Char)])?;
    list.push((count.wrapping_mul(32), Kind::Long))?;
    Ok(list)
}

#[test]
fn those_that_can_be_shared(rt: HostRuntime) -> Result<(), Fail> {
    for count in &COUNTS {
        let cells = with_pointers(rt.alloc(), *count)?;
        let list = without_pointers(rt.alloc(), *count)?;
        let sharable = cells.sharable(rt.alloc())?;
        assert!(rt; agree(rt.alloc(), &sharable, list.as_slice())?);
        assert_eq!(rt; sharable.same(&cells), *count == 0);
    }
    Ok(())
}

// A list that begins with so many copies of a cell, and goes on with these.
fn begun(
    alloc: Global,
    count: u32,
    kind: Kind,
    rest: &[(u32, Kind)],
) -> Result<Cells, OutOfMemory> {
    let one = of(alloc, &[(0, kind)])?;
    let mut cells = Cells::new(alloc);
    add(&mut cells, 0, count, 8, &one)?;
    for (place, kind) in rest {
        cells.push(*place, *kind)?;
    }
    Ok(cells)
}

// Lists that are not the same as 300 longs with an int after them.
const OTHERS: [(u32, Kind, (u32, Kind)); 6] = [
    (299, Kind::Long, (2400, Kind::Int)),
    (301, Kind::Long, (2400, Kind::Int)),
    (300, Kind::ULong, (2400, Kind::Int)),
    (300, Kind::Long, (2401, Kind::Int)),
    (300, Kind::Long, (2400, Kind::UInt)),
    (0, Kind::Long, (2400, Kind::Int)),
];

#[test]
fn told_apart(rt: HostRuntime) -> Result<(), Fail> {
    let cells = begun(rt.alloc(), 300, Kind::Long, &[(2400, Kind::Int)])?;
    for (count, kind, last) in &OTHERS {
        let other = begun(rt.alloc(), *count, *kind, &[*last])?;
        assert!(rt; !cells.same(&other));
        assert!(rt; !other.same(&cells));
    }
    Ok(())
}

#[test]
fn a_list_that_is_shorter(rt: HostRuntime) -> Result<(), Fail> {
    let cells = begun(rt.alloc(), 300, Kind::Long, &[(2400, Kind::Int)])?;
    let mut list = cells.to_vec(rt.alloc())?;
    list.pop();
    let shorter = Cells::from_vec(list);
    assert!(rt; !cells.same(&shorter));
    assert!(rt; !shorter.same(&cells));
    Ok(())
}

// How often an element is doubled, and how many chars stand between the two halves.
const DOUBLED: [(u32, u32); 6] = [(0, 0), (6, 0), (7, 0), (10, 0), (8, 1), (9, 3)];

// An element `{ char c; int i; short s; }` of 12 bytes, doubled so often with so many chars between, and its size.
fn doubled(
    alloc: Global,
    times: u32,
    between: u32,
) -> Result<(Cells, Vec<(u32, Kind)>, u32), OutOfMemory> {
    let first = [(0, Kind::Char), (4, Kind::Int), (8, Kind::Short)];
    let char_cell = of(alloc, &[(0, Kind::Char)])?;
    let mut cells = of(alloc, &first)?;
    let mut list = first.to_vec(alloc)?;
    let mut size: u32 = 12;
    for _ in 0..times {
        let second = size.wrapping_add(between);
        let mut both = cells.copy(alloc)?;
        add(&mut both, size, between, 1, &char_cell)?;
        add(&mut both, second, 1, size, &cells)?;
        let half = list.to_vec(alloc)?;
        plain(&mut list, size, between, 1, &[(0, Kind::Char)])?;
        plain(&mut list, second, 1, size, half.as_slice())?;
        cells = both;
        size = second.wrapping_add(size);
    }
    Ok((cells, list, size))
}

// Whether the cells, whose last one ends 2 bytes before that, lie in exactly so many bytes or more.
fn ends_at(cells: &Cells, size: u32) -> bool {
    let end = size.wrapping_sub(2);
    cells.lie_within(end) && cells.lie_within(size) && !cells.lie_within(end.wrapping_sub(1))
}

#[test]
fn an_element_that_is_doubled(rt: HostRuntime) -> Result<(), Fail> {
    for (times, between) in &DOUBLED {
        let (cells, list, size) = doubled(rt.alloc(), *times, *between)?;
        assert!(rt; agree(rt.alloc(), &cells, list.as_slice())?);
        assert!(rt; ends_at(&cells, size));
    }
    Ok(())
}

// Lists that do not lie in 16 bytes, ascending and without overlap.
const OVERLAPPING: [&[(u32, Kind)]; 4] = [
    &[(0, Kind::Int), (3, Kind::Char)],
    &[(4, Kind::Int), (0, Kind::Int)],
    &[(0, Kind::Int), (13, Kind::Int)],
    &[(4_294_967_295, Kind::Long)],
];

#[test]
fn cells_that_overlap(rt: HostRuntime) -> Result<(), Fail> {
    for list in &OVERLAPPING {
        let cells = of(rt.alloc(), list)?;
        assert!(rt; !cells.lie_within(16));
    }
    assert!(rt; of(rt.alloc(), &[])?.lie_within(0));
    Ok(())
}
