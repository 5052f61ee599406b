//! Laws: functions with nothing to do, whose contracts hold of all modules.

ghost use Rattle.walrus_body_rules.specs.Agreeing.{TestsAgree};

/// What is asked of an operator is what the grammar of bodies asks, of a file that the environment tells of.
pub fn rules_are_the_grammars()
    ensures { TestsAgree }
{}
