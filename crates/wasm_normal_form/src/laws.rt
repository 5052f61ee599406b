//! Laws: functions with nothing to do, whose contracts hold of all bodies.

ghost use Rattle.wasm_normal_form.specs.Laws.{NormalAgain, NormalNests, RenamedAgain, TreeIsOne};
ghost use Rattle.wasm_normal_form.specs.Rows.{Added, Cut, Handed, Handled, Inner, Kept, Nops, Segments, Unused};

/// Operators nest as one tree at most.
#[tactic(auto, using(crate::proofs::Nesting::tree_is_one))]
pub fn trees_are_one()
    ensures { TreeIsOne }
{}

/// The operators of a normal form nest, and its normal form is itself, also where its locals have new numbers.
pub fn normal_forms_are_normal()
    ensures nests { NormalNests }
    ensures again { NormalAgain }
    ensures renamed { RenamedAgain }
{}

/// Bodies and their normal forms, byte for byte.
pub fn worked_bodies()
    ensures nops { Nops }
    ensures added { Added }
    ensures unused { Unused }
    ensures cut { Cut }
    ensures kept { Kept }
    ensures segments { Segments }
    ensures handled { Handled }
    ensures inner { Inner }
    ensures handed { Handed }
{}
