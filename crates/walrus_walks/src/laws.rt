//! Laws of the words that the contracts of this crate cite. Each function is its contract alone.
ghost use Rattle.walrus_walks.specs.Plain.{HeldAreNested, RanksFit, WalkIsPlain, PlainWalkIsOne, BodyWalkIsWalk, OrderIsPlain, PlainOrderIsOne, OrderIsKept, ChangesArePlain};

use crate::visitor_mut::VisitorMut;

/// The sequences that a nested sequence holds are nested.
pub fn held_are_nested()
    ensures { HeldAreNested }
{}

/// A nested sequence has a rank, and no rank need pass the number of sequences: a nest is no deeper than that.
pub fn ranks_fit()
    ensures { RanksFit }
{}

/// The walk of a nested sequence is its start, what its block type names, each instruction with what it
/// names and the walks of what it holds, and its end; and nothing else is so.
pub fn walk_is_plain()
    ensures plain { WalkIsPlain }
    ensures one { PlainWalkIsOne }
{}

/// The walk of a body is the walk of its own sequence, but for what that sequence's block type names.
pub fn body_walk_is_walk()
    ensures { BodyWalkIsWalk }
{}

/// The order of the walk that changes is a nested sequence, then the orders of what it holds; and
/// nothing else is so. It is the same after the walk.
pub fn order_is_plain()
    ensures plain { OrderIsPlain }
    ensures one { PlainOrderIsOne }
    ensures kept { OrderIsKept }
{}

/// A walk that changes a nested sequence changes that, and then walks what it holds, one after the other.
pub fn changes_are_plain<V: VisitorMut>()
    ensures { ChangesArePlain V.step }
{}
