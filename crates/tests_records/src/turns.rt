//! Two threads that add numbers to one list, in turns of a cell.

ghost use Rattle.std.specs.Prelude.{◌≡◌, ◌<◌, ◌^◌, ◌++◌, [], ◌∷◌, length, Some, OnOk, OnErr};
ghost use Rattle.turn_cell.specs.layer.Seats.{cell_of, id_of, number_of, opening_of, started, IsFree, IsSame};

use std::alloc::{AllocError as OutOfMemory, Global};
use std::sync::Wait;
use std::test::Fail;
use std::thread::{Threads, join_mut};
use turn_cell::{Kept, Seat, TurnCell};

// A number, and whose it is.
#[derive(Clone, Copy)]
struct Note {
    by: u32,
    value: u64,
}

// Numbers, in the order in which they were added.
#[derive(Drop)]
struct Notes {
    notes: Vec<Note>,
    name: u32,
}

impl Kept for Notes {
    type Member = Note;

    type Opening = u32;

    ghost members = { λ l. l.notes.items };

    ghost opening = { λ l. l.name };

    ghost number = { λ m. m.by };

    fn len(&self) -> u64 {
        self.notes.len() as u64
    }
}

impl Notes {
    // Adds a note.
    fn add(&mut self, note: Note) -> Result<(), OutOfMemory>
        ensures ok { OnOk result (self.new.notes.items ≡ self.old.notes.items ++ note ∷ []) }
        ensures err { OnErr result (self.new.notes.items ≡ self.old.notes.items) }
        ensures name { self.new.name ≡ self.old.name }
    {
        self.notes.push(note)?;
        Ok(())
    }
}

// Adds a number in a turn of its own: whether there was memory for it.
fn add_one<R: Wait>(rt: &R, cell: &TurnCell<Notes>, seat: &mut Seat<Notes>, note: Note) -> bool
    requires cell { cell_of seat.old ≡ id_of cell.now }
    requires free { IsFree (λ (m : Note). m.by) seat.old }
    requires own { (number_of seat.old ≡ note.by) × (opening_of seat.old ≡ Some (started cell.now).name) }
    ensures { IsFree (λ (m : Note). m.by) seat.new × IsSame seat.old seat.new }
{
    let mut turn = cell.enter(rt, seat);
    let added = turn.world.notes.len() + 1 < 1 << 62 && turn.world.add(note).is_ok();
    cell.leave(seat, turn);
    added
}

// Adds 0 to 999, each in a turn of its own: whether there was memory for all.
fn add_all<R: Wait>(rt: &R, cell: &TurnCell<Notes>, seat: &mut Seat<Notes>, by: u32) -> bool
    requires cell { cell_of seat.old ≡ id_of cell.now }
    requires free { IsFree (λ (m : Note). m.by) seat.old }
    requires own { (number_of seat.old ≡ by) × (opening_of seat.old ≡ Some (started cell.now).name) }
    ensures { IsFree (λ (m : Note). m.by) seat.new × IsSame seat.old seat.new }
{
    let mut all = true;
    for value in 0..1000 {
        all = add_one(rt, cell, seat, Note { by, value }) && all;
    }
    all
}

// Two threads add numbers at the same time.
fn add_both<R: Threads + Wait + Sync>(
    rt: &R,
    cell: &TurnCell<Notes>,
    one: &mut Seat<Notes>,
    other: &mut Seat<Notes>,
) -> bool
    requires cells { (cell_of one.old ≡ id_of cell.now) × (cell_of other.old ≡ id_of cell.now) }
    requires free { IsFree (λ (m : Note). m.by) one.old × IsFree (λ (m : Note). m.by) other.old }
    requires numbers { (number_of one.old ≡ 0) × (number_of other.old ≡ 1) }
    requires openings { (opening_of one.old ≡ Some (started cell.now).name)
        × (opening_of other.old ≡ Some (started cell.now).name) }
    ensures one { IsFree (λ (m : Note). m.by) one.new × IsSame one.old one.new }
    ensures other { IsFree (λ (m : Note). m.by) other.new × IsSame other.old other.new }
{
    let (x, y) = join_mut(
        rt,
        &mut || add_all(rt, cell, one, 0),
        &mut || add_all(rt, cell, other, 1),
    );
    x && y
}

// The list that two threads have added to, where there was memory for all.
fn notes_of_both<R: Threads + Wait + Sync>(
    rt: &R,
    alloc: Global,
) -> Result<Option<Notes>, OutOfMemory> {
    let world = Notes {
        notes: Vec::new(alloc),
        name: 7,
    };
    let (cell, mut seats) = TurnCell::start(alloc, world, 2)?;
    let Some(mut other) = seats.pop() else {
        unreachable!()
    };
    let Some(mut one) = seats.pop() else {
        unreachable!()
    };
    let all = add_both(rt, &cell, &mut one, &mut other);
    seats.push_reserved(one);
    seats.push_reserved(other);
    let notes = cell.close(seats);
    Ok(if all { Some(notes) } else { None })
}

// Whether the numbers of each thread are 0 to 999, in order.
fn are_in_order(notes: &[Note]) -> bool {
    let mut next = [0, 0];
    for note in notes {
        let by = note.by as usize;
        if by >= 2 || note.value != next[by] {
            return false;
        }
        next[by] = note.value.wrapping_add(1);
    }
    next == [1000, 1000]
}

#[test]
fn numbers_of_two_threads_stand_in_order(rt: HostRuntime) -> Result<(), Fail> {
    let notes = notes_of_both(&rt, rt.alloc())?;
    let holds = notes.is_some_and(|notes| are_in_order(notes.notes.as_slice()));
    assert!(rt; holds);
    Ok(())
}
