//! Laws: functions with nothing to do, whose contracts hold of all bytes.

ghost use Rattle.wasm_modules.specs.Laws.{ReadsOnce, ReadDontStop, ReadOrStop, StopsOnce, StopsInside, StopsForGood, BodiesStopForGood, ParsingReads};

/// Bytes read as one module at most.
pub fn reads_once()
    ensures { ReadsOnce }
{}

/// Bytes that read as a module don't stop.
pub fn read_dont_stop()
    ensures { ReadDontStop }
{}

/// Bytes that don't read stop, where there are at most 2^30.
pub fn read_or_stop()
    ensures { ReadOrStop }
{}

/// No bytes stop with two faults, or at two places.
pub fn stops_once()
    ensures { StopsOnce }
{}

/// A fault stands in the bytes, or at their end.
pub fn stops_inside()
    ensures { StopsInside }
{}

/// Bytes behind a fault of the sections don't change it, unless the file ends too early: in its header, in a section, or before counts that are missing.
pub fn stops_for_good()
    ensures { StopsForGood }
{}

/// A fault of a body is decided by the bodies and what is around them, whatever else the file holds.
pub fn bodies_stop_for_good()
    ensures { BodiesStopForGood }
{}

/// What is parsed from left to right reads, or stops; and what reads or stops is parsed so.
pub fn parsing_reads()
    ensures { ParsingReads }
{}
