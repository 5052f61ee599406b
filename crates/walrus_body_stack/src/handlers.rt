//! The handlers of a legacy `try` that is read.

ghost use Rattle.std.specs.Prelude.{◌≡◌, [], ◌∷◌, ◌++◌, IfOk, OnOk};
ghost use Rattle.walrus_body_nesting.specs.Stands.{part, Handles, HandlesAll, Ended, Delegated, block};
ghost use Rattle.walrus_body_nesting.specs.Opens.{Makes};
ghost use Rattle.walrus_body_nesting.specs.declared.frames.Opener.TheVariants as openers;

use std::alloc::{AllocError, Global};
use std::marker::Model;
use walrus_arena::{InstrSeqId, TagId};
use walrus_instr::{Instr, LegacyCatch};

/// The handlers so far, none of which hands an exception on.
#[derive(Drop)]
pub(crate) struct Handlers {
    catches: Vec<LegacyCatch>,
}

impl Model for Handlers {
    ghost use Rattle.std.specs.Prelude.{List};
    ghost use Rattle.walrus_body_nesting.specs.Stands.{Part, parts_of};
    ghost use Rattle.walrus_body_stack.specs.Catches.{AreHandlers};

    ghost Value = { List Part };

    ghost view = { λ h. parts_of h.catches.items };

    ghost invariant = { λ h. AreHandlers h.catches.items };
}

impl Handlers {
    /// None. Takes no memory.
    pub(crate) fn new(alloc: Global) -> Self
        ensures { result ≡ [] }
    {
        Handlers {
            catches: Vec::new(alloc),
        }
    }

    /// One more, for the exceptions of a tag.
    #[tactic(auto, using(crate::proofs::Handling::parts_tag, crate::proofs::Handling::handlers_tag))]
    pub(crate) fn push(&mut self, tag: TagId, handler: InstrSeqId) -> Result<(), AllocError>
        ensures { OnOk result (self.new ≡ self.old ++ part (Handles tag) handler ∷ []) }
    {
        self.catches.push(LegacyCatch::Catch { tag, handler })?;
        Ok(())
    }

    /// One more, for all exceptions.
    #[tactic(auto, using(crate::proofs::Handling::parts_all, crate::proofs::Handling::handlers_all))]
    pub(crate) fn push_all(&mut self, handler: InstrSeqId) -> Result<(), AllocError>
        ensures { OnOk result (self.new ≡ self.old ++ part HandlesAll handler ∷ []) }
    {
        self.catches.push(LegacyCatch::CatchAll { handler })?;
        Ok(())
    }

    /// The `try` of this first sequence and these handlers.
    pub(crate) fn into_try(self, first: InstrSeqId) -> Instr
        ensures { Makes openers.Try result (block first self Ended) }
    {
        Instr::Try {
            seq: first,
            catches: self.catches,
        }
    }

    /// The `try` of this first sequence and these handlers, which then hands exceptions on.
    pub(crate) fn into_delegating(self, first: InstrSeqId, depth: u32) -> Result<Instr, AllocError>
        ensures { IfOk result (λ instr. Makes openers.Try instr (block first self (Delegated depth))) }
    {
        let mut catches = self.catches;
        catches.push(LegacyCatch::Delegate {
            relative_depth: depth,
        })?;
        Ok(Instr::Try {
            seq: first,
            catches,
        })
    }
}
