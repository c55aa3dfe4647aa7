//! A round of all threads.

ghost use Rattle.std.specs.Prelude.{ℕ, ◌≡◌, ◌<◌, All, IfOk, false, length, map, slice_index_or};
ghost use Rattle.upc_values.specs.Lists.{Numbered};
ghost use Rattle.turn_cell.specs.layer.Seats.{id_of, started};
ghost use Rattle.upc_task.specs.layer.Sources.{Outcomes};
ghost use Rattle.upc_rounds_base.specs.layer.Ending.{Rested};
ghost use Rattle.replica_space_crews.specs.layer.Crews.{GoesOn, StaysCrew};
ghost use Rattle.replica_space_parts.specs.declared.seated.Seated.{Seated};
ghost use Rattle.replica_space_parts.specs.layer.Parts.{begun_of};
ghost use Rattle.replica_space_parts.specs.layer.Seated.{IsSeated, Did};
ghost use Rattle.replica_space_rounds.specs.layer.Rounds.{StaysInRounds, seat_of, workers_of};

use crate::crew::Crew;
use replica_space_parts::{Part, Seated, play};
use replica_space_tasks::ReplicaWorker;
use stack_code::Code;
use std::alloc::Global;
use std::sync::Wait;
use std::thread;
use std::thread::Threads;
use turn_cell::{Seat, TurnCell};
use upc_text::{Gate, OutOfMemory};

// Each worker at the seat of its number.
fn seat_all(
    alloc: Global,
    workers: Vec<ReplicaWorker>,
    seats: Vec<Seat<Part>>,
) -> Result<Vec<Seated>, OutOfMemory>
    requires { length seats.items ≡ length workers.items }
    ensures workers { IfOk result (λ ks. workers_of ks.items ≡ workers.items) }
    ensures seats { IfOk result (λ ks. map seat_of ks.items ≡ seats.items) }
{
    let mut places = Vec::new(alloc);
    let mut free = seats.into_iter();
    for worker in workers {
        let Some(seat) = free.next() else {
            unreachable!()
        };
        let failed = false;
        places.push(Seated {
            worker,
            seat,
            failed,
        })?;
    }
    Ok(places)
}

// The workers and the seats, in order.
fn part_all(
    alloc: Global,
    places: Vec<Seated>,
) -> Result<(Vec<ReplicaWorker>, Vec<Seat<Part>>), OutOfMemory>
    ensures workers { IfOk result (λ r. r.0.items ≡ workers_of places.items) }
    ensures seats { IfOk result (λ r. r.1.items ≡ map seat_of places.items) }
{
    let mut workers = Vec::new(alloc);
    let mut seats = Vec::new(alloc);
    for place in places {
        let Seated { worker, seat, .. } = place;
        workers.push(worker)?;
        seats.push(seat)?;
    }
    Ok((workers, seats))
}

// The workers that have no end and stand at no Stall.
fn count_movers(places: &[Seated]) -> usize {
    let mut movers = 0usize;
    for place in places {
        if !place.worker.has_ended() && !place.worker.is_stalled() {
            movers = movers.saturating_add(1);
        }
    }
    movers
}

// A round of all, each on a thread of its own. Where at most one of them can move, no thread is started.
fn round_all<R: Threads + Wait + Sync, G: Gate>(
    rt: &R,
    places: &mut [Seated],
    code: &Code,
    cell: &TurnCell<Part>,
    gate: &G,
    number: u64,
)
    requires some { 0 < length places.old }
    requires kept { All (λ k. (f : Outcomes)
        × IsSeated (id_of cell.now) (begun_of (started cell.now)) code.now f k) places.old }
    ensures many { length places.new ≡ length places.old }
    ensures did { (i : ℕ) (d : Seated) → i < length places.old
        → Did (id_of cell.now) (begun_of (started cell.now)) code.now (slice_index_or places.old i d)
        (slice_index_or places.new i d) }
{
    let threads = if count_movers(places) <= 1 {
        1
    } else {
        places.len()
    };
    thread::for_each_mut(
        rt,
        places,
        threads,
        &|_, place: &mut Seated|
            requires { (f : Outcomes)
                × IsSeated (id_of cell.now) (begun_of (started cell.now)) code.now f place.old }
            ensures { Did (id_of cell.entry.now) (begun_of (started cell.entry.now)) code.entry.now place.old
                place.new }
        { play(rt, place, code, cell, gate, number) },
    );
}

// Whether some worker has answered want of memory.
fn has_failed(places: &[Seated]) -> bool
    ensures { result ≡ false → Numbered (λ _ k. k.failed ≡ false) places.now }
{
    for at in 0..places.len() {
        if places[at].failed {
            return true;
        }
    }
    false
}

// A round of all, which fails where one of them has answered want of memory.
fn play_all<R: Threads + Wait + Sync, G: Gate>(
    rt: &R,
    places: &mut Vec<Seated>,
    code: &Code,
    cell: &TurnCell<Part>,
    gate: &G,
    number: u64,
) -> Result<(), OutOfMemory>
    requires some { 0 < length places.old.items }
    requires kept { All (λ k. (f : Outcomes)
        × IsSeated (id_of cell.now) (begun_of (started cell.now)) code.now f k) places.old.items }
    ensures many { IfOk result (λ _. length places.new.items ≡ length places.old.items) }
    ensures did { IfOk result (λ _. (i : ℕ) (d : Seated) → i < length places.old.items
        → Did (id_of cell.now) (begun_of (started cell.now)) code.now (slice_index_or places.old.items i d)
        (slice_index_or places.new.items i d)) }
    ensures fine { IfOk result (λ _. Numbered (λ _ k. k.failed ≡ false) places.new.items) }
{
    round_all(rt, places.as_mut_slice(), code, cell, gate, number);
    if has_failed(places.as_slice()) {
        return Err(OutOfMemory);
    }
    Ok(())
}

/// A round of all workers: each that has no end goes on, at the same time as the others, to a Beat, a Stall or its end.
/// They take turns at the run. Want of memory of one is that of the round.
pub fn go<R: Threads + Wait + Sync, G: Gate>(
    rt: &R,
    alloc: Global,
    code: &Code,
    crew: Crew,
    gate: &G,
    number: u64,
) -> Result<Crew, OutOfMemory>
    requires some { 0 < length crew.workers.items }
    requires running { GoesOn code.now crew.run crew.workers.items }
    ensures running { IfOk result (λ m. StaysCrew code.now crew.run crew.workers.items m.run m.workers.items) }
    ensures rested { IfOk result (λ m. Numbered (λ _ k. Rested k.recorder) m.workers.items) }
    ensures rounds { IfOk result (StaysInRounds code.now crew) }
{
    let Crew { workers, run } = crew;
    let before = run.len();
    let threads = run.threads();
    let (cell, seats) = TurnCell::start(alloc, Part { run, before }, threads)?;
    let mut places = seat_all(alloc, workers, seats)?;
    play_all(rt, &mut places, code, &cell, gate, number)?;
    let (workers, seats) = part_all(alloc, places)?;
    let Part { run, .. } = cell.close(seats);
    Ok(Crew { workers, run })
}
