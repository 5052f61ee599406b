//! Laws: functions with nothing to do, whose contracts hold of all lists of locals.

ghost use Rattle.walrus_local_numbers.specs.Laws.{ArgumentsFirst, OthersFollow};

/// Of the numbers that are given, each argument has its place among the arguments, where none stands there twice; each local that is
/// declared has its place among these, behind the arguments.
pub fn numbers_follow()
    ensures arguments { ArgumentsFirst }
    ensures others { OthersFollow }
{}
