//! How many functions, and locals of each, a file has at most (Core Specification, implementation limitations: syntactic limits).
#![tactic(auto)]

ghost use Rattle.walrus_local_counts.specs.Locals.{FewLocals, FewAreNumbered};

/// No function of a module that was read has more than 50,000 locals, its parameters among them.
pub fn few_locals()
    ensures { FewLocals }
{}

/// Maps that number a module that was read have fewer than 2^32 functions, and locals of each.
pub fn few_are_numbered()
    ensures { FewAreNumbered }
{}
