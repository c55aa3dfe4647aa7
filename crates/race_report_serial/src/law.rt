//! What an empty report says of a run.

ghost use Rattle.race_report_serial.specs.Sequential.{EmptyIsRaceFree, EmptyIsSequential};

/// A law: where the report of a run is empty, no two operations race; and where its history is legal too, the serial
/// order is one total order of all operations that keeps the program order of each thread and gives each read the value
/// of the last write before it.
pub fn empty_report_is_sequential()
    ensures free { EmptyIsRaceFree }
    ensures sequential { EmptyIsSequential }
{}
