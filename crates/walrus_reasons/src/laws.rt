//! Laws of roots and references.
ghost use Rattle.walrus_reasons.specs.RootLists.{RootsAreListed};

/// Just the roots stand in the list of `roots`.
pub fn roots_are_listed()
    ensures { RootsAreListed }
{}
