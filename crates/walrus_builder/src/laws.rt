//! Laws of the words that the contracts of this crate cite. Each function is its contract alone.
ghost use Rattle.walrus_builder.specs.OwnIds.{NewHaveOwnIds, EditsKeepOwnIds, AddedHaveOwnIds};

/// Each sequence of a new function has the id that it is found by. What edits a sequence and leaves its id, or
/// adds an empty one, keeps that.
pub fn sequences_have_their_own_ids()
    ensures new { NewHaveOwnIds }
    ensures edited { EditsKeepOwnIds }
    ensures added { AddedHaveOwnIds }
{}
