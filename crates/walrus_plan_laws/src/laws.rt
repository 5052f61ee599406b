//! Laws: functions with nothing to do, whose contracts hold of all modules that are ready to be written.

ghost use Rattle.walrus_plan_laws.specs.Behind.{SegmentsNameNoLocals};
ghost use Rattle.walrus_plan_laws.specs.Emissions.{EmissionsHavePlans};
ghost use Rattle.walrus_plan_laws.specs.Written.{WrittenModulesAreReady};

/// By the numbers that emission gives a module's items, each new number is a place in the plan: first what imports bring, in the order of
/// the imports, then the module's own, functions with bodies from the largest on and others by id; all that lives has its place.
pub fn emissions_have_plans<B>()
    ensures { EmissionsHavePlans B }
{}

/// A linked module that was written was ready, with the segment that was added: so it was written by its plan's numbers.
pub fn written_modules_are_ready<B>()
    ensures { WrittenModulesAreReady B }
{}

/// Behind code, where locals have their numbers, data segments are due as they are by the numbers before it: so the plan serves there, too.
pub fn segments_name_no_locals<B>()
    ensures { SegmentsNameNoLocals B }
{}
