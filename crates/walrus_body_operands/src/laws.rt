//! Laws: functions with nothing to do, whose contracts hold of all operators.

ghost use Rattle.walrus_body_operands.specs.Counted.{FramesAskLast, LabelsAreCounted, ReadIsListed};

/// An operator that is read has the immediates that the table lists for its code, and the labels that it may name are counted as the
/// grammar of bodies counts them. All that is asked of it inside frames is what is asked of what it names, and then what its frames ask.
pub fn operators_are_listed()
    ensures read { ReadIsListed }
    ensures labels { LabelsAreCounted }
    ensures frames { FramesAskLast }
{}
