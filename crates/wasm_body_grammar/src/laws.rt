//! Laws: functions with nothing to do, whose contracts hold of all bodies and bytes.

ghost use Rattle.wasm_body_grammar.specs.Codes.{ParsingReadsAll};
ghost use Rattle.wasm_body_grammar.specs.Laws.{BodiesReadOnce, ReadDontStop, BodiesReadOrStop, BodiesStopOnce, BodiesStopInside, BodiesStopForGood, BodiesEnd, BodiesArePrefixFree, ParsingReads};
ghost use Rattle.wasm_body_grammar.specs.Numbers.{FaultsGoByNumber};

/// Bytes read as one body at most.
pub fn bodies_read_once()
    ensures { BodiesReadOnce }
{}

/// Bytes that read as a body don't stop.
pub fn read_dont_stop()
    ensures { ReadDontStop }
{}

/// Bytes that don't read stop.
pub fn bodies_read_or_stop()
    ensures { BodiesReadOrStop }
{}

/// No bytes stop with two faults, or at two places.
pub fn bodies_stop_once()
    ensures { BodiesStopOnce }
{}

/// A fault stands in the bytes, or at their end.
pub fn bodies_stop_inside()
    ensures { BodiesStopInside }
{}

/// Bytes behind a fault don't change it, but for faults that can come of the end of the bytes.
pub fn bodies_stop_for_good()
    ensures { BodiesStopForGood }
{}

/// What follows a body is refused at its first byte.
pub fn bodies_end()
    ensures { BodiesEnd }
{}

/// No body's bytes are a proper front of another's.
pub fn bodies_are_prefix_free()
    ensures { BodiesArePrefixFree }
{}

/// What is parsed from left to right reads, or stops; and what reads or stops is parsed so.
pub fn parsing_reads()
    ensures { ParsingReads }
{}

/// The same of the bodies of a module, one after another; where one stops lies in the bytes of the file, and stays there where the file
/// goes on.
pub fn parsing_reads_all()
    ensures { ParsingReadsAll }
{}

/// Of the faults that are due at an operator the one of the smallest number is told.
pub fn faults_go_by_number()
    ensures { FaultsGoByNumber }
{}
