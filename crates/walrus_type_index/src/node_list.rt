//! Nodes of trees that stand in one list.

// A node of a tree. Where its sides have no node, there are none.
#[derive(Clone, Copy)]
pub(crate) struct FlatNode {
    pub(crate) hash: u128,
    pub(crate) left: u32,
    pub(crate) right: u32,
    // What the sides are kept near each other by. No answer rests on it.
    pub(crate) height: u32,
}

impl FlatNode {
    // One that is in no tree.
    pub(crate) fn apart() -> FlatNode {
        FlatNode {
            hash: 0,
            left: u32::MAX,
            right: u32::MAX,
            height: 0,
        }
    }
}
