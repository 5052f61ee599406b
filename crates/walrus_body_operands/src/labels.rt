//! What the labels of a body name.

ghost use Rattle.std.specs.Prelude.{◌≡◌, ◌-◌, ℕ, List, length, slice_get, Some};
ghost use Rattle.walrus_body_operands.specs.Asked.{Meets, label_test};

use crate::faults::no_item;
use walrus_arena::InstrSeqId;
use walrus_body_env::BodyError;
use walrus_body_stack::Stack;
use wasm_formats::Space;

/// The open sequences of a body, the innermost first, each with its label: its place in that order.
pub trait Labels {
    /// The sequences.
    ghost ids: { Self → List ℕ };

    /// The sequence that a label names; none where there are fewer.
    fn label(&self, depth: u32) -> Option<InstrSeqId>
        ensures { result ≡ slice_get (ids self.now) depth };

    /// How many sequences lie around the innermost.
    fn outer_count(&self) -> usize
        ensures { result ≡ length (ids self.now) - 1 };
}

/// The sequence that a label names.
#[inline(always)]
pub(crate) fn label<L: Labels>(labels: &L, depth: u32, offset: u64) -> Result<InstrSeqId, BodyError>
    ensures { Meets result (label_test (L.ids labels.now) depth) offset (λ k. slice_get (L.ids labels.now) depth ≡ Some k) }
{
    match labels.label(depth) {
        Some(block) => Ok(block),
        None => Err(no_item(Space::Label, offset)),
    }
}

impl Labels for Stack {
    ghost use Rattle.walrus_body_steps.specs.walrus_body_nesting.Opens.{ids_of};
    ghost use Rattle.walrus_body_steps.specs.walrus_body_stack.Frames.{opens};

    ghost ids = { λ s. ids_of (opens s) };

    fn label(&self, depth: u32) -> Option<InstrSeqId> {
        Stack::label(self, depth)
    }

    fn outer_count(&self) -> usize {
        Stack::outer_count(self)
    }
}
