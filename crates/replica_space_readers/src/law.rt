//! Independent reads of independent writes.

ghost use Rattle.replica_space.specs.layer.ReplicaRows.{two_readers};
ghost use Rattle.replica_space_readers.specs.code.Readers.{readers_after_start, ReadersAgree, NeedsCopies, StillDiffer};
ghost use Rattle.replica_space_readers.specs.code.Readers.{SomeOpening, IsOrdinaryToo};

/// Laws: in no legal history of the ordinary memory do two threads see two writes in opposite orders. A run with a copy
/// of the memory for each thread may show it: two such runs, without a barrier before and with one, of which no history
/// of the ordinary memory has the actions with their replies. In the orders of the second the two readers place the
/// writes the other way round. There is such an opening, and where one of the readers sees both writes, there is a
/// history.
pub fn readers_need_copies()
    ensures agree { ReadersAgree }
    ensures need { NeedsCopies two_readers }
    ensures need_after_start { NeedsCopies readers_after_start }
    ensures differ { StillDiffer }
    ensures opens { SomeOpening }
    ensures ordinary { IsOrdinaryToo }
{}
