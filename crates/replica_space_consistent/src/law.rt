//! The orders of a run with a copy of the shared memory for each thread.

ghost use Rattle.replica_space_consistent.specs.Consistent.{OrdersAreConsistent};

/// A law: in every run the list of each thread, with the messages that still wait put in their places, and the strict
/// list make the operations UPC consistent.
pub fn orders_are_consistent()
    ensures { OrdersAreConsistent }
{}
