//! Laws of the words that the contracts of this crate cite. Each function is its contract alone.
ghost use Rattle.walrus_type_index.specs.OrderedLaws.{PutsBack, Lends, Writes, Dies, Sweeps, IsBorn, FindsLast};

/// A lent id goes back into the order.
pub fn lent_goes_back()
    ensures { PutsBack }
{}

/// An id that is taken out leaves the others in order.
pub fn lending_keeps_order()
    ensures { Lends }
{}

/// What becomes of a lent type touches nothing that is in the index.
pub fn writing_keeps_order()
    ensures { Writes }
{}

/// A type that is out of the index dies, and touches nothing that is in it.
pub fn dying_keeps_order()
    ensures { Dies }
{}

/// Types die while the index isn't looked at, and are then taken out of it together.
pub fn sweeping_keeps_order()
    ensures { Sweeps }
{}

/// A new type is as one that was lent: it is yet to be put into the order.
pub fn birth_keeps_order()
    ensures { IsBorn }
{}

/// A search of the order finds the highest id of its kind.
pub fn search_finds_last()
    ensures { FindsLast }
{}
