//! All tasks see what each has seen.

ghost use Rattle.std.specs.Prelude.{ℕ, ◌≡◌, ◌<◌, length, slice_index_or};
ghost use Rattle.upc_rounds_teams.specs.declared.place.Place.{Place};
ghost use mathlib.Core.List.{IsPrefix};
ghost use Rattle.turn_cell.specs.layer.Seats.{cell_of, id_of};
ghost use Rattle.upc_values.specs.Openings.{Opening};
ghost use Rattle.upc_values.specs.Lists.{Numbered};
ghost use Rattle.upc_task.specs.layer.Seated.{IsLawful};
ghost use Rattle.upc_rounds_teams.specs.layer.Teams.{AreOf, Met, HaveMet, seen_at};

use crate::place::Place;
use memory_history::World;
use turn_cell::TurnCell;

// One sees what the other has seen.
fn meet_two(cell: &TurnCell<World>, one: &mut Place, other: &mut Place)
    requires cell { (cell_of one.old.task.seat ≡ id_of cell.now) × (cell_of other.old.task.seat ≡ id_of cell.now) }
    ensures met { Met one.old one.new × Met other.old other.new }
    ensures begins { IsPrefix (seen_at other.old) (seen_at one.new) }
    ensures seen { seen_at other.new ≡ seen_at other.old }
    ensures whole { IsPrefix (seen_at one.old) (seen_at other.old) → seen_at one.new ≡ seen_at other.old }
    ensures lawful { (o : Opening) → IsLawful o (seen_at one.old) → IsLawful o (seen_at other.old)
        → IsLawful o (seen_at one.new) }
{
    one.task.meet(&mut other.task, cell);
}

// The first sees what each of the others has seen.
fn gather_all(cell: &TurnCell<World>, first: &mut Place, others: &mut [Place])
    requires first { cell_of first.old.task.seat ≡ id_of cell.now }
    requires others { AreOf (id_of cell.now) others.old }
    ensures many { length others.new ≡ length others.old }
    ensures first { Met first.old first.new }
    ensures others { (i : ℕ) (d : Place) → i < length others.old
        → Met (slice_index_or others.old i d) (slice_index_or others.new i d) }
    ensures same { (i : ℕ) (d : Place) → i < length others.old
        → seen_at (slice_index_or others.new i d) ≡ seen_at (slice_index_or others.old i d) }
    ensures begins { (i : ℕ) (d : Place) → i < length others.old
        → IsPrefix (seen_at (slice_index_or others.old i d)) (seen_at first.new) }
    ensures lawful { (o : Opening) → IsLawful o (seen_at first.old)
        → Numbered (λ i k. IsLawful o (seen_at k)) others.old → IsLawful o (seen_at first.new) }
{
    for i in 0..others.len() {
        meet_two(cell, first, &mut others[i]);
    }
}

// Each of the others sees what the first has seen.
fn spread_all(cell: &TurnCell<World>, first: &mut Place, others: &mut [Place])
    requires first { cell_of first.old.task.seat ≡ id_of cell.now }
    requires others { AreOf (id_of cell.now) others.old }
    requires begins { Numbered (λ i k. IsPrefix (seen_at k) (seen_at first.old)) others.old }
    ensures many { length others.new ≡ length others.old }
    ensures first { Met first.old first.new × (seen_at first.new ≡ seen_at first.old) }
    ensures others { (i : ℕ) (d : Place) → i < length others.old
        → Met (slice_index_or others.old i d) (slice_index_or others.new i d) }
    ensures seen { (i : ℕ) (d : Place) → i < length others.old
        → seen_at (slice_index_or others.new i d) ≡ seen_at first.old }
{
    for i in 0..others.len() {
        meet_two(cell, &mut others[i], first);
    }
}

/// The first task meets all the others, and then each of the others meets it: all have seen one list.
pub fn meet_all(cell: &TurnCell<World>, places: &mut [Place])
    requires some { 0 < length places.old }
    requires cell { AreOf (id_of cell.now) places.old }
    ensures { HaveMet places.old places.new }
{
    let Some((first, others)) = places.split_first_mut() else {
        unreachable!()
    };
    gather_all(cell, first, others);
    spread_all(cell, first, others);
}
