//! The serial order of every journal is right.

ghost use Rattle.race_report.specs.Serial.{SerialIsRight};

/// A law: the serial order has each operation of a journal once and keeps the program order of each thread, and where
/// the history is legal and no two operations race, each read has the value of the last write before it.
pub fn serial_order_is_right()
    ensures { SerialIsRight }
{}
