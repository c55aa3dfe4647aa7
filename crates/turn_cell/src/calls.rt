//! What a seat does at its cell. No call but `start` takes memory.
ghost use Rattle.std.specs.Prelude.{◌≡◌, ◌*◌, ◌^◌, ◌<◌, ◌≤◌, ◌++◌, List, [], ◌∷◌, length, Some, IfOk, vec_capacity};
ghost use mathlib.Core.List.{IsPrefix};
ghost use Rattle.turn_cell.specs.layer.Members.{Every, of, longer, added_to};
ghost use Rattle.turn_cell.specs.layer.Seats.{cell_of, id_of, number_of, own_of, seen_of, opening_of, started};
ghost use Rattle.turn_cell.specs.layer.Seats.{seats_of, IsFree, HasTurn, IsSame, AreNew, AreFree, HasAll};
ghost use Rattle.turn_cell.specs.code.Rule.{starting, collect};
ghost use Rattle.turn_cell.specs.declared.seat.Seat.{Seat};

use crate::cell::{Held, Turn, TurnCell};
use crate::kept::Kept;
use crate::plays::{Both, Deal, Enter, Law, Leave, Meet, Note};
use crate::seat::Seat;
use crate::view::{Begun, View};
use atomic_table::Table;
use std::alloc::{AllocError as OutOfMemory, Global};
use std::hint::spin_loop;
use std::snapshot::Snapshot;
use std::sync::Wait;
use std::time::Duration;

// How often a seat looks for the turn before it sleeps.
const LOOKS: u32 = 64;

impl<W: Kept + Drop> TurnCell<W> {
    // A seat for each number, from the seat that has all of them.
    fn deal(
        &self,
        mut first: atomic_table::Seat<Option<W>, View<W::Member, W::Opening>>,
        mut all: Vec<Seat<W>>,
        seats: usize,
    ) -> Vec<Seat<W>>
        requires cell { (first.table_id ≡ id_of self.now) × (all.items ≡ []) × (seats ≤ vec_capacity all) }
        requires first { first.me ≡ (starting (W.opening (started self.now)) 0 seats, []) }
        ensures { (length result.items ≡ seats)
            × AreNew (id_of self.now) (W.opening (started self.now)) 0 result.items }
    {
        for number in 0..seats {
            let place = self.table.shared.split_seat::<Deal>(&mut first);
            all.push_reserved(Seat { place });
        }
        all
    }

    /// A cell with a world whose list is empty, and this many seats, with the numbers 0, 1, ..
    ///
    /// Each seat has seen and added nothing. Want of memory drops the world.
    pub fn start(
        alloc: Global,
        world: W,
        seats: u32,
    ) -> Result<(TurnCell<W>, Vec<Seat<W>>), OutOfMemory>
        requires { W.members world ≡ [] }
        ensures cell { IfOk result (λ r. (started r.0 ≡ world) × (seats_of r.0 ≡ seats)) }
        ensures seats { IfOk result (λ r.
            (length r.1.items ≡ seats) × AreNew (id_of r.0) (W.opening world) 0 r.1.items) }
    {
        let all = Vec::with_capacity(alloc, seats as usize)?;
        let begun = Begun {
            world: Snapshot::of(&world),
            seats: seats as u64,
        };
        let mut slots = Vec::with_capacity(alloc, 1)?;
        slots.push_reserved(Some(world));
        let Ok((table, first)) = Table::new(alloc, &[0], slots, &begun) else {
            return Err(OutOfMemory);
        };
        let cell = TurnCell { table };
        let dealt = cell.deal(first, all, seats as usize);
        Ok((cell, dealt))
    }

    /// Lets the first seat see what the other has seen, and waits for nobody. Neither adds anything.
    pub fn meet(&self, seat: &mut Seat<W>, other: &mut Seat<W>)
        requires cell { (cell_of seat.old ≡ id_of self.now) × (cell_of other.old ≡ id_of self.now) }
        requires free { IsFree W.number seat.old × IsFree W.number other.old }
        ensures seat { IsFree W.number seat.new × IsSame seat.old seat.new × (own_of seat.new ≡ own_of seat.old) }
        ensures other { IsFree W.number other.new × IsSame other.old other.new
            × (own_of other.new ≡ own_of other.old) × (seen_of other.new ≡ seen_of other.old) }
        ensures begins { IsPrefix (seen_of seat.old) (seen_of seat.new)
            × IsPrefix (seen_of other.old) (seen_of seat.new) }
        ensures seen { seen_of seat.new ≡ longer (seen_of seat.old) (seen_of other.old) }
    {
        let shared = &self.table.shared;
        let note = shared.split_seat::<Note>(&mut other.place);
        shared.join_seat::<Both>(&mut seat.place, note);
        shared.load::<Meet>(&mut seat.place, 0);
    }

    /// Waits for the turn, and hands over the world. Its list has fewer than 2^62 members, begins with what the seat
    /// had seen, and has no further member of the seat's number. Then the seat has seen the whole list.
    pub fn enter<R: Wait>(&self, rt: &R, seat: &mut Seat<W>) -> Turn<W>
        requires cell { cell_of seat.old ≡ id_of self.now }
        requires free { IsFree W.number seat.old }
        ensures turn { HasTurn W.number seat.new × IsSame seat.old seat.new }
        ensures opening { (x : W.Opening) → opening_of seat.old ≡ Some x → W.opening result.world ≡ x }
        ensures seen { seen_of seat.new ≡ W.members result.world }
        ensures begins { IsPrefix (seen_of seat.old) (W.members result.world)
            × (length (W.members result.world) < 2 ^ 62) }
        ensures own { (own_of seat.new ≡ own_of seat.old)
            × (own_of seat.new ≡ of W.number (number_of seat.old) (W.members result.world)) }
    {
        let shared = &self.table.shared;
        let mut looks = 0;
        for _ in rt.forever() {
            let found = shared.peek(0);
            if found % 2 == 0 {
                if shared.compare_exchange::<Enter>(&mut seat.place, 0, found, found + 1) == found {
                    let Some(world) = shared.exchange(&mut seat.place, 0, None) else {
                        unreachable!()
                    };
                    return Turn { world, held: Held };
                }
            } else {
                self.pause(rt, found, looks);
                looks = looks.saturating_add(1);
            }
        }
        unreachable!()
    }

    // Waits a little while another seat has the turn: at first just long enough to look again, later asleep for up to a
    // millisecond. So nobody has to be woken, and whoever has the turn loses no time by others that want it.
    fn pause<R: Wait>(&self, rt: &R, found: u64, looks: u32) {
        if looks < LOOKS {
            spin_loop();
        } else {
            let longer = (looks - LOOKS).min(4);
            let sleep = Duration::from_micros(50 << longer);
            self.table
                .shared
                .park_timeout(rt, 0, (found % (1 << 32)) as u32, sleep);
        }
    }

    /// Gives the turn back. The list begins with what `enter` handed over, what was added names the seat's number, and
    /// the list has fewer than 2^62 members. Then the seat has seen the whole list.
    pub fn leave(&self, seat: &mut Seat<W>, turn: Turn<W>)
        requires cell { cell_of seat.old ≡ id_of self.now }
        requires turn { HasTurn W.number seat.old }
        requires opening { opening_of seat.old ≡ Some (W.opening turn.world) }
        requires begins { W.members turn.world
            ≡ seen_of seat.old ++ added_to (seen_of seat.old) (W.members turn.world) }
        requires added { Every (λ m. W.number m ≡ number_of seat.old)
            (added_to (seen_of seat.old) (W.members turn.world)) }
        requires short { length (W.members turn.world) < 2 ^ 62 }
        ensures free { IsFree W.number seat.new × IsSame seat.old seat.new }
        ensures seen { seen_of seat.new ≡ W.members turn.world }
        ensures own { own_of seat.new
            ≡ own_of seat.old ++ added_to (seen_of seat.old) (W.members turn.world) }
    {
        let Turn { world, held } = turn;
        let Held = held;
        let length = world.len();
        let shared = &self.table.shared;
        let None = shared.exchange(&mut seat.place, 0, Some(world)) else {
            unreachable!()
        };
        shared.store::<Leave>(&mut seat.place, 0, 2 * length);
    }

    /// Ends the cell, and gives the world back. It takes all seats, at least one, in the order of their numbers. The
    /// list begins with what each seat had seen, and has of each number just what that seat added, in order, each once.
    pub fn close(self, seats: Vec<Seat<W>>) -> W
        requires seats { AreFree W.number (id_of self) 0 seats.items × (length seats.items ≡ seats_of self)
            × (0 < length seats.items) }
        ensures opening { W.opening result ≡ W.opening (started self) }
        ensures all { HasAll W.number (W.members result) seats.items }
        ensures named { Every (λ m. W.number m < seats_of self) (W.members result) }
    {
        let TurnCell { table } = self;
        let last = gather(&table, seats);
        let mut closed = table.close_with(last);
        let slot = closed.take(0);
        closed.free();
        slot.unwrap()
    }
}

type Board<W> = Table<
    Option<W>,
    View<<W as Kept>::Member, <W as Kept>::Opening>,
    Begun<W>,
    Law,
    Global,
>;

type Place<W> = atomic_table::Seat<Option<W>, View<<W as Kept>::Member, <W as Kept>::Opening>>;

// All seats as one.
fn gather<W: Kept>(table: &Board<W>, mut seats: Vec<Seat<W>>) -> Place<W>
    requires seats { AreFree W.number table.now.shared.table_id 0 seats.items × (0 < length seats.items) }
    requires table { 0 < table.now.shared.table_id.words }
    ensures same { result.table_id ≡ table.now.shared.table_id }
    ensures all { (ss : List (Seat W W.Member W.Opening)) × (last : Seat W W.Member W.Opening)
        × (seats.items ≡ ss ++ last ∷ []) × (result.me ≡ (collect last.place.me.0 ss, [])) }
{
    let Some(last) = seats.pop() else {
        unreachable!()
    };
    let Seat { place: mut all } = last;
    while let Some(seat) = seats.pop() {
        let Seat { place } = seat;
        table.shared.join_seat::<Both>(&mut all, place);
    }
    all
}
