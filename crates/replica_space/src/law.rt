//! Two runs by hand.

ghost use Rattle.replica_space.specs.layer.ReplicaRows.{ReadersDiffer, WritesAgree};

/// Laws: in one run two threads place two writes differently; in another two threads' writes on one location end in one
/// order, that of their stamps.
pub fn rows_hold()
    ensures differ { ReadersDiffer }
    ensures agree { WritesAgree }
{}
