//! Laws: functions with nothing to do, whose contracts hold of all bodies.

ghost use Rattle.walrus_body_steps.specs.Picks.{PicksStand};
ghost use Rattle.walrus_body_steps.specs.Laws.{BodiesStart, EndsAreSteps, HandsAreSteps, OpeningsAreSteps, PassesAreSteps, RunsAreSteps, TurnsAreSteps};

/// Before its first operator a body stands as the normal form of the tree of what is to come; each operator that is read keeps that, of
/// what is then to come; and once its last `end` was read, it stands as the normal form.
pub fn operators_are_steps()
    ensures starts { BodiesStart }
    ensures passes { PassesAreSteps }
    ensures runs { RunsAreSteps }
    ensures opens { OpeningsAreSteps }
    ensures turns { TurnsAreSteps }
    ensures ends { EndsAreSteps }
    ensures hands { HandsAreSteps }
{}

/// What stands as a normal form with block types as they are written stands as the normal form with their picks.
pub fn picks_stand()
    ensures { PicksStand }
{}
