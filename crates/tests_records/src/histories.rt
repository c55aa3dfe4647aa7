//! Small histories and records, with what the definitions say of them.

ghost use Rattle.std.specs.Prelude.{◌≡◌, [], ◌∷◌, IfOk};
ghost use Rattle.block_layout.specs.declared.kind.Kind.TheVariants as kind;
ghost use Rattle.upc_values.specs.layer.Basic as basic;

use memory_history::{Step, World};
use order_builder::drain;
use std::alloc::{AllocError as OutOfMemory, Global};
use upc_values::{
    Action, Cells, Entries, Item, Items, Kind, Loc, Mark, ObjectRef, Reply, Scalar, Shape,
};

/// An int on thread 0.
pub const X: Loc = Loc {
    object: 1,
    thread: 0,
    offset: 0,
};

/// Another.
pub const Y: Loc = Loc {
    object: 2,
    thread: 0,
    offset: 0,
};

/// Writes a number.
pub fn write(loc: Loc, value: i128, strict: bool) -> Action {
    Action::Write {
        loc,
        value: Scalar::Int(value),
        strict,
    }
}

/// Reads.
pub fn read(loc: Loc, strict: bool) -> Action {
    Action::Read { loc, strict }
}

fn int(value: i128) -> Reply {
    Reply::Value(Scalar::Int(value))
}

// The shape of an int.
fn ints(alloc: Global) -> Result<Vec<Shape>, OutOfMemory>
    ensures { IfOk result (λ shapes. shapes.items ≡ record { size = 4; cells = (0, kind.Int) ∷ [] } ∷ []) }
{
    let mut cells = Vec::new(alloc);
    cells.push((0, Kind::Int))?;
    let mut shapes = Vec::new(alloc);
    shapes.push(Shape {
        size: 4,
        cells: Cells::from_vec(cells),
    })?;
    Ok(shapes)
}

const INT_X: ObjectRef = ObjectRef {
    number: 1,
    total: 4,
    block: 4,
    home: 0,
    shape: 0,
    base: 0,
};

const INT_Y: ObjectRef = ObjectRef {
    number: 2,
    total: 4,
    block: 4,
    home: 0,
    shape: 0,
    base: 4,
};

fn is_unvalued(mark: Mark) -> bool
    ensures { result ≡ basic.is_unvalued mark }
{
    !matches!(mark, Mark::Given(_))
}

// Whether the action needs no lock, no new object, no collective call and no value at a barrier.
fn is_basic(action: &Action) -> bool
    ensures { result ≡ basic.is_basic action.now }
{
    match action {
        Action::Notify(mark) => is_unvalued(*mark),
        Action::Wait(mark) => is_unvalued(*mark),
        Action::Read { .. } => true,
        Action::Write { .. } => true,
        Action::Fence => true,
        Action::Beat => true,
        Action::Print(_) => true,
        _ => false,
    }
}

// Two threads, X and Y, of which Y begins with 5.
fn two(alloc: Global) -> Result<World, OutOfMemory>
    ensures { IfOk result (λ w. w.0.threads ≡ 2) }
{
    let shapes = ints(alloc)?;
    World::make(
        alloc,
        &[INT_X, INT_Y],
        &[(Y, Scalar::Int(5))],
        shapes.as_slice(),
        2,
    )
}

/// Two threads, X and Y, which begin with 0.
pub fn zeros(alloc: Global) -> Result<World, OutOfMemory>
    ensures { IfOk result (λ w. w.0.threads ≡ 2) }
{
    let shapes = ints(alloc)?;
    World::make(alloc, &[INT_X, INT_Y], &[], shapes.as_slice(), 2)
}

// An action of a small world, in a form that constants can have.
#[derive(Clone, Copy)]
enum Asked {
    Notify,
    Wait,
    Start,
    Fence,
    Read(Loc, bool),
    // A relaxed read of an object on a thread at an offset.
    At(u32, u32, u32),
    Write(Loc, i128, bool),
}

fn action_of(asked: Asked) -> Action {
    match asked {
        Asked::Notify => Action::Notify(Mark::Absent),
        Asked::Wait => Action::Wait(Mark::Absent),
        Asked::Start => Action::Wait(Mark::Start),
        Asked::Fence => Action::Fence,
        Asked::Read(loc, strict) => read(loc, strict),
        Asked::At(object, thread, offset) => read(
            Loc {
                object,
                thread,
                offset,
            },
            false,
        ),
        Asked::Write(loc, value, strict) => write(loc, value, strict),
    }
}

// Whether the action is legal, and what comes of it, where it may be asked for.
fn stepped(
    world: &mut World,
    thread: u32,
    index: u32,
    action: &Action,
) -> Result<Option<(bool, Step)>, OutOfMemory> {
    if !is_basic(action) || !world.is_well_formed(action) || thread >= world.threads() {
        return Ok(None);
    }
    if !world.takes_turn(thread, action) {
        return Ok(None);
    }
    let legal = world.is_legal(thread, action);
    let step = world.perform(thread, index, action)?;
    Ok(Some((legal, step)))
}

const DONE: Step = Step::Done(Reply::Done);

// A thread, the number of its action, the action, and what comes of it.
const STEPS: [(u32, u32, Asked, Step); 12] = [
    (0, 0, Asked::Notify, DONE),
    (0, 1, Asked::Wait, Step::Disabled),
    (1, 0, Asked::Notify, DONE),
    (0, 1, Asked::Wait, DONE),
    (
        1,
        1,
        Asked::Read(X, true),
        Step::Done(Reply::Value(Scalar::Int(0))),
    ),
    (
        1,
        2,
        Asked::Read(Y, true),
        Step::Done(Reply::Value(Scalar::Int(5))),
    ),
    (0, 2, Asked::Write(X, 7, true), DONE),
    (0, 3, Asked::Write(Y, 8, false), DONE),
    (
        1,
        3,
        Asked::Read(X, false),
        Step::Done(Reply::Value(Scalar::Int(7))),
    ),
    (
        1,
        4,
        Asked::Read(Y, false),
        Step::Done(Reply::Value(Scalar::Int(8))),
    ),
    (1, 5, Asked::Fence, DONE),
    (1, 6, Asked::Wait, DONE),
];

// A wait is legal once both have notified, and a read gives the last write, else the initial value.
#[test]
fn world_of_two(rt: HostRuntime) -> Result<(), OutOfMemory> {
    let mut world = two(rt.alloc())?;
    for (thread, index, asked, step) in &STEPS {
        let found = stepped(&mut world, *thread, *index, &action_of(*asked))?;
        assert!(rt; found == Some((*step != Step::Disabled, *step)));
    }
    assert_eq!(rt; world.beginning().declared().len(), 2);
    assert_eq!(rt; world.len(), 11);
    Ok(())
}

// What may be asked for: of a cell, with a value that fits it.
const ASKED: [(Asked, bool); 11] = [
    (Asked::Read(X, false), true),
    (Asked::At(1, 0, 2), false),
    (Asked::At(1, 0, 4), false),
    (Asked::At(1, 1, 0), false),
    (Asked::At(1, 2, 0), false),
    (Asked::At(3, 0, 0), false),
    (Asked::At(0, 0, 0), false),
    (Asked::Write(X, 2_147_483_647, false), true),
    (Asked::Write(X, 2_147_483_648, false), false),
    (Asked::Fence, true),
    (Asked::Start, true),
];

// Whether an action needs nothing that the small world lacks, and whether it may be asked for.
fn may_ask(world: &World, action: &Action) -> (bool, bool) {
    (is_basic(action), world.is_well_formed(action))
}

#[test]
fn asked_of_a_world(rt: HostRuntime) -> Result<(), OutOfMemory> {
    let world = two(rt.alloc())?;
    for (asked, may) in &ASKED {
        assert!(rt; may_ask(&world, &action_of(*asked)) == (true, *may));
    }
    Ok(())
}

// A Stall for None, or an action with its reply, which of a read has this value.
fn item_of(asked: &Option<Asked>, value: i128) -> Item {
    match asked {
        None => Item::Stall,
        Some(Asked::Read(loc, strict)) => Item::Did(read(*loc, *strict), int(value)),
        Some(asked) => Item::Did(action_of(*asked), Reply::Done),
    }
}

// A record of these.
fn record(alloc: Global, all: &[Option<Asked>], value: i128) -> Result<Items, OutOfMemory> {
    let mut items = Vec::new(alloc);
    for asked in all {
        items.push(item_of(asked, value))?;
    }
    Items::from_vec(alloc, items)
}

// Whether the entries have these numbers, in order.
fn are_numbered(entries: &Entries, numbers: &[u32]) -> bool {
    if entries.len() != numbers.len() {
        return false;
    }
    for (entry, number) in entries.iter().zip(numbers) {
        if entry.index != *number {
            return false;
        }
    }
    true
}

// Whether a record emits the entries with these numbers.
fn emits(alloc: Global, all: &[Option<Asked>], numbers: &[u32]) -> Result<bool, OutOfMemory> {
    let items = record(alloc, all, 1)?;
    match drain(alloc, 0, &items)? {
        Some(entries) => Ok(are_numbered(&entries, numbers)),
        None => Ok(false),
    }
}

// A record, and the numbers of the entries that it emits, in order.
const DRAINED: [(&[Option<Asked>], &[u32]); 5] = [
    // A write, and a read elsewhere.
    (
        &[
            Some(Asked::Write(X, 1, false)),
            Some(Asked::Read(Y, false)),
            Some(Asked::Fence),
        ],
        &[1, 0, 2],
    ),
    // A write, and a read of the same location, which is no entry.
    (
        &[
            Some(Asked::Write(X, 1, false)),
            Some(Asked::Read(X, false)),
            Some(Asked::Fence),
        ],
        &[0, 2],
    ),
    // Two writes of one location: the second takes the place of the first, which is no entry.
    (
        &[
            Some(Asked::Write(X, 1, false)),
            Some(Asked::Write(Y, 1, false)),
            Some(Asked::Write(X, 2, false)),
            Some(Asked::Fence),
        ],
        &[2, 1, 3],
    ),
    // A strict write empties the buffer.
    (
        &[
            Some(Asked::Write(X, 1, false)),
            Some(Asked::Write(Y, 1, true)),
        ],
        &[0, 1],
    ),
    // So do a Stall and the end.
    (
        &[Some(Asked::Write(X, 1, false)), None, Some(Asked::Wait)],
        &[0, 1],
    ),
];

#[test]
fn drains_in_order(rt: HostRuntime) -> Result<(), OutOfMemory> {
    for (all, numbers) in &DRAINED {
        assert!(rt; emits(rt.alloc(), all, numbers)?);
    }
    Ok(())
}
