//! What the checker answers for sources that are well typed: programs, with what they begin with by the rules of the
//! languages.

use crate::sources::program_of;
use block_layout::{Kind, Loc, LocalPtr, ObjectRef, Shape, SharedPtr};
use std::test::Fail;
use upc_checker::{SharedDecl, Value};
use upc_values::Scalar;

// An object at the beginning of shared space.
const FIRST: ObjectRef = ObjectRef {
    number: 1,
    total: 40,
    block: 12,
    home: 0,
    shape: 0,
    base: 0,
};

// Whether these are the places of the declared objects.
fn lie_at(declared: &[SharedDecl], places: &[ObjectRef]) -> bool {
    if declared.len() != places.len() {
        return false;
    }
    for (declaration, place) in declared.iter().zip(places) {
        if declaration.object != *place {
            return false;
        }
    }
    true
}

// Whether these are the names of the declared objects, each with its block, its elements and their size.
fn are_named(declared: &[SharedDecl], rows: &[(&[u8], u32, u32, u32)]) -> bool {
    if declared.len() != rows.len() {
        return false;
    }
    for (declaration, (name, block, elements, size)) in declared.iter().zip(rows) {
        let is_sized = declaration.elements == *elements && declaration.size == *size;
        if declaration.name.as_slice() != *name || declaration.block != *block || !is_sized {
            return false;
        }
    }
    true
}

// Whether these are the sizes of the shapes, each with the kind of its first cell.
fn begin_with(shapes: &[Shape], rows: &[(u32, Kind)]) -> bool {
    if shapes.len() != rows.len() {
        return false;
    }
    for (shape, (size, kind)) in shapes.iter().zip(rows) {
        if shape.size != *size || shape.cells.iter().next() != Some((0, *kind)) {
            return false;
        }
    }
    true
}

const STRUCTS: &[u8] = b"struct s {shared [3] int *p; upc_lock_t *l; short n;};
shared [3] int a[10]; shared [] int b[7]; shared struct s c; shared int d = -1;
shared char *q; int main(void){q = upc_alloc(4); return 0;}";

const STRUCT_PLACES: [ObjectRef; 4] = [
    FIRST,
    ObjectRef {
        number: 2,
        total: 28,
        block: 0,
        home: 0,
        shape: 0,
        base: 40,
    },
    ObjectRef {
        number: 3,
        total: 48,
        block: 48,
        home: 0,
        shape: 1,
        base: 68,
    },
    ObjectRef {
        number: 4,
        total: 4,
        block: 4,
        home: 0,
        shape: 0,
        base: 116,
    },
];

const STRUCT_NAMES: [(&[u8], u32, u32, u32); 4] = [
    (b"a", 3, 10, 4),
    (b"b", 0, 7, 4),
    (b"c", 1, 1, 48),
    (b"d", 1, 1, 4),
];

const STRUCT_SHAPES: [(u32, Kind); 3] = [(4, Kind::Int), (48, Kind::Shared(0, 3)), (1, Kind::Char)];

const D: Loc = Loc {
    object: 4,
    thread: 0,
    offset: 0,
};

// Each shared object after the bytes of those before it, with its block, its elements and their size. The shapes of
// declared elements come first, then those of elements that calls allocate.
#[test]
fn shared_objects(rt: HostRuntime) -> Result<(), Fail> {
    let program = program_of(rt.alloc(), 4, STRUCTS)?;
    assert_eq!(rt; program.threads(), 4);
    assert_eq!(rt; program.functions().len(), 1);
    assert!(rt; lie_at(program.shared_objects(), &STRUCT_PLACES));
    assert!(rt; are_named(program.shared_objects(), &STRUCT_NAMES));
    assert!(rt; program.initials() == [(D, Scalar::Int(-1))].as_slice());
    assert!(rt; begin_with(program.shapes(), &STRUCT_SHAPES));
    Ok(())
}

const SUM: &[u8] = b"shared int a[400]; shared int total; int main(void){int i; int part = 0;
upc_lock_t *lk = upc_all_lock_alloc(); for (i = MYTHREAD; i < 400; i += THREADS) part += a[i];
upc_lock(lk); total += part; upc_unlock(lk); return 0;}";

const SUM_PLACES: [ObjectRef; 2] = [
    ObjectRef {
        number: 1,
        total: 1600,
        block: 4,
        home: 0,
        shape: 0,
        base: 0,
    },
    ObjectRef {
        number: 2,
        total: 4,
        block: 4,
        home: 0,
        shape: 0,
        base: 1600,
    },
];

// Whether each shape is that of an int.
fn are_ints(shapes: &[Shape]) -> bool {
    for shape in shapes {
        let mut cells = shape.cells.iter();
        if shape.size != 4 || cells.next() != Some((0, Kind::Int)) || cells.next().is_some() {
            return false;
        }
    }
    true
}

// The objects and elements of a program that adds up an array under a lock: a lock is no element.
#[test]
fn a_sum_under_a_lock(rt: HostRuntime) -> Result<(), Fail> {
    let program = program_of(rt.alloc(), 4, SUM)?;
    assert!(rt; lie_at(program.shared_objects(), &SUM_PLACES));
    assert_eq!(rt; program.shapes().len(), 1);
    assert!(rt; are_ints(program.shapes()));
    assert!(rt; program.initials().is_empty());
    assert!(rt; program.private_shapes().is_empty());
    Ok(())
}

const POINTERS: &[u8] =
    b"shared [3] int a[10]; int x[3] = {1, 2, 3}; int *y = x + 1; shared [3] int *z = &a[8];
int main(void){return 0;}";

// Element 8 in blocks of three lies on thread 2, in its phase 2.
const NAMED: SharedPtr = SharedPtr {
    object: FIRST,
    thread: 2,
    phase: 2,
    offset: 8,
};

const X: LocalPtr = LocalPtr::Private {
    object: 0,
    offset: 0,
};

const X1: LocalPtr = LocalPtr::Private {
    object: 0,
    offset: 4,
};

const X2: LocalPtr = LocalPtr::Private {
    object: 0,
    offset: 8,
};

const Y: LocalPtr = LocalPtr::Private {
    object: 1,
    offset: 0,
};

const Z: LocalPtr = LocalPtr::Private {
    object: 2,
    offset: 0,
};

const INITIALS: [(LocalPtr, Value); 5] = [
    (X, Value::Scalar(Scalar::Int(1))),
    (X1, Value::Scalar(Scalar::Int(2))),
    (X2, Value::Scalar(Scalar::Int(3))),
    (Y, Value::Local(X1)),
    (Z, Value::Scalar(Scalar::Shared(NAMED))),
];

// Whether these are the sizes of the shapes.
fn have_sizes(shapes: &[Shape], sizes: &[u32]) -> bool {
    if shapes.len() != sizes.len() {
        return false;
    }
    for (shape, size) in shapes.iter().zip(sizes) {
        if shape.size != *size {
            return false;
        }
    }
    true
}

#[test]
fn values_of_private_objects(rt: HostRuntime) -> Result<(), Fail> {
    let program = program_of(rt.alloc(), 4, POINTERS)?;
    assert!(rt; program.private_initials() == INITIALS.as_slice());
    assert!(rt; have_sizes(program.private_shapes(), &[12, 8, 16]));
    Ok(())
}
