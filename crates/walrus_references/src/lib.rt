//! Which items of a module are kept: roots, references, and what chains of these reach.
#![tactic(auto)]

ghost use Rattle.walrus_references.specs.Kept.{KeptIsLeast};

/// What is reached lies in each set of items that has the roots and is closed under references.
pub fn kept_is_least()
    ensures { KeptIsLeast }
{}
