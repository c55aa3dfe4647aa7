//! Values saved in the shared heap, across its pages.

ghost use Rattle.std.specs.Prelude.{◌≡◌, [], ◌∷◌, IfOk};
ghost use Rattle.block_layout.specs.declared.kind.Kind.TheVariants as kind;

use shared_heap::Heap;
use std::alloc::{AllocError as OutOfMemory, Global};
use upc_values::{Cells, Kind, Loc, ObjectRef, Scalar, Shape, SharedPtr};

// The shape of a char.
fn chars(alloc: Global) -> Result<Vec<Shape>, OutOfMemory>
    ensures { IfOk result (λ shapes. shapes.items ≡ record { size = 1; cells = (0, kind.Char) ∷ [] } ∷ []) }
{
    let mut cells = Vec::new(alloc);
    cells.push((0, Kind::Char))?;
    let mut shapes = Vec::new(alloc);
    shapes.push(Shape {
        size: 1,
        cells: Cells::from_vec(cells),
    })?;
    Ok(shapes)
}

// A heap of two threads and no object.
fn empty(alloc: Global) -> Result<Heap, OutOfMemory> {
    let shapes = chars(alloc)?;
    Heap::make(alloc, &[], &[], shapes.as_slice(), 2)
}

// Makes an object of 4,096 chars on each thread: whether it is made.
fn grow(heap: &mut Heap) -> bool {
    heap.beginning().threads() == 2
        && heap.beginning().may_alloc(2, 4096, 0)
        && heap.grow(2, 4096, None, 0).is_ok()
}

// A heap with two objects.
fn two(alloc: Global) -> Result<Option<Heap>, OutOfMemory> {
    let mut heap = empty(alloc)?;
    if grow(&mut heap) && grow(&mut heap) {
        return Ok(Some(heap));
    }
    Ok(None)
}

// An object, a thread and an offset.
type Place = (u32, u32, u32);

fn loc_of(place: Place) -> Loc {
    let (object, thread, offset) = place;
    Loc {
        object,
        thread,
        offset,
    }
}

// What the cell at the place holds, if there is one.
fn held(heap: &Heap, place: Place) -> Option<Scalar> {
    let loc = loc_of(place);
    match heap.cell_of(loc) {
        Some(_) => Some(heap.load(loc)),
        None => None,
    }
}

// A pointer to the sixth char of the second object on thread 1.
const POINTER: SharedPtr = SharedPtr {
    object: ObjectRef {
        number: 2,
        total: 8192,
        block: 4096,
        home: 0,
        shape: 0,
        base: 8192,
    },
    thread: 1,
    phase: 5,
    offset: 5,
};

// Values at both sides of the borders of pages, of all kinds in one page, on both threads and in both objects.
const SAVED: [(Place, Scalar); 13] = [
    ((1, 0, 0), Scalar::Int(1)),
    ((1, 0, 1023), Scalar::Int(2)),
    ((1, 0, 1024), Scalar::Int(-3)),
    ((1, 0, 1025), Scalar::Shared(POINTER)),
    ((1, 0, 1026), Scalar::Lock(4)),
    ((1, 0, 2047), Scalar::Int(5)),
    ((1, 0, 2048), Scalar::Shared(SharedPtr::NULL)),
    ((1, 1, 0), Scalar::Int(6)),
    ((1, 1, 1023), Scalar::Shared(POINTER)),
    ((1, 1, 1024), Scalar::Int(7)),
    ((2, 0, 1023), Scalar::Lock(8)),
    ((2, 0, 1024), Scalar::Int(9)),
    ((2, 1, 4095), Scalar::Int(10)),
];

// Cells where nothing is saved, each with an offset in its page that is saved in another page.
const BLANK: [Place; 5] = [
    (1, 0, 1),
    (1, 0, 3071),
    (1, 1, 2048),
    (2, 0, 0),
    (2, 1, 1023),
];

#[test]
fn saves_across_pages(rt: HostRuntime) -> Result<(), OutOfMemory> {
    let Some(mut heap) = two(rt.alloc())? else {
        panic!(rt; "no object");
    };
    for (place, value) in &SAVED {
        heap.save(loc_of(*place), *value)?;
    }
    for (place, value) in &SAVED {
        assert!(rt; held(&heap, *place) == Some(*value));
    }
    for place in &BLANK {
        assert!(rt; held(&heap, *place) == Some(Scalar::Int(0)));
    }
    assert!(rt; held(&heap, (2, 1, 4096)).is_none());
    Ok(())
}

const KINDS: [Scalar; 8] = [
    Scalar::Int(1),
    Scalar::Shared(POINTER),
    Scalar::Int(2),
    Scalar::Lock(3),
    Scalar::Shared(POINTER),
    Scalar::Lock(4),
    Scalar::Int(5),
    Scalar::Int(6),
];

// A location holds what was last saved there, of whatever kind, and the one beside it keeps its own.
#[test]
fn saves_another_kind(rt: HostRuntime) -> Result<(), OutOfMemory> {
    let Some(mut heap) = two(rt.alloc())? else {
        panic!(rt; "no object");
    };
    heap.save(loc_of((1, 1, 1025)), Scalar::Int(7))?;
    for value in &KINDS {
        heap.save(loc_of((1, 1, 1024)), *value)?;
        assert!(rt; held(&heap, (1, 1, 1024)) == Some(*value));
        assert!(rt; held(&heap, (1, 1, 1025)) == Some(Scalar::Int(7)));
    }
    Ok(())
}
