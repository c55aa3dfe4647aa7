//! The end of a run.

ghost use Rattle.std.specs.Prelude.{◌≡◌, ◌<◌, ◌≤◌, [], true, is_some, map, length, vec_capacity};
ghost use Rattle.upc_values.specs.Lists.{Numbered};
ghost use Rattle.turn_cell.specs.layer.Seats.{id_of, seats_of, seen_of, started};
ghost use Rattle.upc_values.specs.Openings.{Opening};
ghost use Rattle.stack_code.specs.layer.Codes.{Codes};
ghost use Rattle.upc_task.specs.layer.Sources.{Outcomes};
ghost use Rattle.upc_task.specs.layer.Kept.{IsKept, strand_of};
ghost use Rattle.upc_rounds_teams.specs.layer.Teams.{IsSeated, worker_of, workers_of, seat_at, seen_at, seen_among};

use memory_history::World;
use turn_cell::{Seat, TurnCell};
use upc_rounds_teams::place::Place;
use upc_values::Strand;

// The seats and the strands, in order.
fn part_all(
    places: Vec<Place>,
    mut seats: Vec<Seat<World>>,
    mut strands: Vec<Strand>,
) -> (Vec<Seat<World>>, Vec<Strand>)
    requires seats { (seats.items ≡ []) × (length places.items ≤ vec_capacity seats) }
    requires strands { (strands.items ≡ []) × (length places.items ≤ vec_capacity strands) }
    requires ended { Numbered (λ _ k. is_some k.task.worker.«end» ≡ true) places.items }
    ensures seats { result.0.items ≡ map seat_at places.items }
    ensures strands { (o : Opening) (c : Codes) (f : Outcomes)
        → Numbered (λ _ k. IsKept o c f (seen_at k) k.task.worker) places.items
        → result.1.items ≡ map (strand_of f) (workers_of places.items) }
{
    for place in places {
        let (strand, seat) = place.task.into_parts();
        seats.push_reserved(seat);
        strands.push_reserved(strand);
    }
    (seats, strands)
}

/// Ends the cell of a run that is over: its history is what each has seen. It takes no memory.
pub fn close_all(
    cell: TurnCell<World>,
    places: Vec<Place>,
    seats: Vec<Seat<World>>,
    strands: Vec<Strand>,
) -> (World, Vec<Strand>)
    requires seats { (seats.items ≡ []) × (length places.items ≤ vec_capacity seats) }
    requires strands { (strands.items ≡ []) × (length places.items ≤ vec_capacity strands) }
    requires many { (seats_of cell ≡ length places.items) × (0 < length places.items) }
    requires seated { Numbered (IsSeated (id_of cell) (seen_among places.items)) places.items }
    requires ended { Numbered (λ _ k. is_some k.task.worker.«end» ≡ true) places.items }
    ensures opening { result.0.0 ≡ (started cell).0 }
    ensures history { result.0.1 ≡ seen_among places.items }
    ensures strands { (o : Opening) (c : Codes) (f : Outcomes)
        → Numbered (λ _ k. IsKept o c f (seen_at k) k.task.worker) places.items
        → result.1.items ≡ map (strand_of f) (workers_of places.items) }
{
    let (seats, strands) = part_all(places, seats, strands);
    (cell.close(seats), strands)
}
