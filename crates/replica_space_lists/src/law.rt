//! What the lists of every replica run keep.

ghost use Rattle.replica_space_lists.specs.layer.Keeping.{AreKept, CopiesAgree};

/// A law: after every run each thread's list has its writes by their stamps and its own operations in program order,
/// each operation once there or in the mail, and its copy the last writes.
pub fn lists_are_kept()
    ensures { AreKept }
{}

/// A law: where no message waits all copies are alike.
pub fn copies_agree()
    ensures { CopiesAgree }
{}
