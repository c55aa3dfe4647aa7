//! What a run takes of its workers.

ghost use Rattle.replica_space_tasks.specs.layer.Laws.{StaysOverOthers, WishesAreFormed, StrandsAreSound, RunsDeliver};

/// Laws: what a worker keeps goes on to hold while others add events; what it wishes to do may be asked for; its strand
/// is one of a sound journal once it has its end; and a run of such workers delivers what is due.
pub fn what_workers_keep()
    ensures others { StaysOverOthers }
    ensures asks { WishesAreFormed }
    ensures strands { StrandsAreSound }
    ensures delivers { RunsDeliver }
{}
