//! Further parts of a block that is read.

ghost use Rattle.std.specs.Prelude.{◌≡◌, ◌<◌, [], ◌∷◌, ◌++◌, None, Bool, length, IfOk, IfErr, OnOk};
ghost use Rattle.walrus_body_nesting.specs.wasm_body_grammar.Frames.{Plain, Catching, Caught};
ghost use Rattle.walrus_body_nesting.specs.walrus_builder.Built.{empty_seq};
ghost use Rattle.walrus_body_nesting.specs.Faults.{IsRefusal};
ghost use Rattle.walrus_body_nesting.specs.walrus_body_env.declared.error.BodyError.TheVariants.{Memory};
ghost use Rattle.walrus_body_nesting.specs.Stands.{Handles, HandlesAll, Otherwise};
ghost use Rattle.walrus_body_nesting.specs.Opens.{Shaped};
ghost use Rattle.walrus_body_stack.specs.Frames.{IsTested, IsTurned, blocks, delegate_test, filled, handler_test, heading_of, inner, is_then, opens, other_test};
ghost use Rattle.walrus_body_stack.specs.Held.{as_frame, emptied, turned};

use crate::frame::Sort;
use crate::handlers::Handlers;
use crate::stack::Stack;
use std::alloc::AllocError;
use walrus_arena::{InstrSeqId, TagId};
use walrus_body_env::BodyError;
use walrus_instr::{InstrLocId, InstrSeqType};

impl Sort {
    fn is_then(self) -> bool
        ensures { result ≡ is_then self }
    {
        matches!(self, Sort::Then)
    }
}

impl Stack {
    // Closes the innermost sequence, and gives an empty one of this type to go on with.
    #[inline(always)]
    fn next_part(&mut self, place: InstrLocId, ty: InstrSeqType) -> Result<InstrSeqId, AllocError>
        requires { self.old.nest.inner.frame.seq < length (blocks self.old) }
        ensures ty { OnOk result (heading_of self.new ≡ heading_of self.old) }
        ensures id { IfOk result (λ id. id ≡ length (filled place self.old)) }
        ensures added { OnOk result (blocks self.new ≡ filled place self.old ++ empty_seq (length (filled place self.old)) ty ∷ []) }
        ensures nest { OnOk result (self.new.nest ≡ emptied self.old.nest) }
        ensures handlers { self.new.handlers ≡ self.old.handlers }
        ensures clauses { self.new.clauses ≡ self.old.clauses }
    {
        self.close(place)?;
        let seq = self.fresh(ty)?;
        Ok(seq)
    }

    // Goes on with this sequence, as this part.
    fn turn(&mut self, seq: InstrSeqId, sort: Sort)
        ensures { self.new ≡ record self.old { nest = as_frame (turned seq sort self.old.nest.inner.frame) self.old.nest } }
    {
        self.nest.turn(seq, sort);
    }

    // Keeps the handlers of the innermost legacy `try`.
    fn keep(&mut self, handlers: Handlers) -> Result<(), AllocError>
        ensures kept { OnOk result (self.new.handlers ≡ handlers ∷ self.old.handlers) }
        ensures rest { self.new ≡ record self.old { handlers = self.new.handlers } }
    {
        self.handlers.push(handlers)
    }

    /// Begins the other part of an `if`, of the type of the first.
    ///
    /// # Errors
    ///
    /// `Nesting` at this offset, where the innermost sequence is no first part of an `if`, which is asked first; want of memory.
    pub fn begin_else(&mut self, place: InstrLocId, offset: u64) -> Result<(), BodyError>
        requires { Shaped (blocks self.old) (opens self.old) }
        ensures ty { OnOk result (heading_of self.new ≡ heading_of self.old) }
        ensures passed { OnOk result (other_test (inner self.old).kind ≡ None) }
        ensures refused { IfErr result (IsRefusal (other_test (inner self.old).kind) offset) }
        ensures wants { IfErr result (λ e. e ≡ Memory → other_test (inner self.old).kind ≡ None) }
        ensures turned { OnOk result (IsTurned Otherwise Plain (inner self.old).ty place self.old self.new) }
    {
        if !self.nest.frame().sort.is_then() {
            return Err(BodyError::Nesting {
                offset: Some(offset),
            });
        }
        let ty = self.nest.frame().ty;
        let seq = self.next_part(place, ty)?;
        self.turn(seq, Sort::Else);
        Ok(())
    }

    /// Whether a handler may stand here.
    ///
    /// # Errors
    ///
    /// At this offset, `Nesting` outside a legacy `try`, `Position` behind its handler for all exceptions.
    pub fn check_handler(&self, offset: u64) -> Result<(), BodyError>
        ensures { IsTested result (handler_test (inner self.now).kind) offset }
    {
        match self.nest.frame().sort {
            Sort::Try => Ok(()),
            Sort::Catch => Ok(()),
            Sort::CatchAll => Err(BodyError::Position {
                offset: Some(offset),
            }),
            Sort::Block | Sort::Loop | Sort::Then | Sort::Else | Sort::TryTable => {
                Err(BodyError::Nesting {
                    offset: Some(offset),
                })
            }
        }
    }

    /// Whether a `delegate` may stand here.
    ///
    /// # Errors
    ///
    /// At this offset, `Nesting` outside a legacy `try`, `Position` behind a handler.
    pub fn check_delegate(&self, offset: u64) -> Result<(), BodyError>
        ensures { IsTested result (delegate_test (inner self.now).kind) offset }
    {
        match self.nest.frame().sort {
            Sort::Try => Ok(()),
            Sort::Catch => Err(BodyError::Position {
                offset: Some(offset),
            }),
            Sort::CatchAll => Err(BodyError::Position {
                offset: Some(offset),
            }),
            Sort::Block | Sort::Loop | Sort::Then | Sort::Else | Sort::TryTable => {
                Err(BodyError::Nesting {
                    offset: Some(offset),
                })
            }
        }
    }

    /// Begins a handler, of this type, for the exceptions of a tag, where one may stand.
    ///
    /// # Errors
    ///
    /// Want of memory.
    pub fn begin_handler(
        &mut self,
        tag: TagId,
        ty: InstrSeqType,
        place: InstrLocId,
    ) -> Result<(), AllocError>
        requires shaped { Shaped (blocks self.old) (opens self.old) }
        requires may { handler_test (inner self.old).kind ≡ None }
        ensures ty { OnOk result (heading_of self.new ≡ heading_of self.old) }
        ensures turned { OnOk result (IsTurned (Handles tag) Catching ty place self.old self.new) }
    {
        let seq = self.next_part(place, ty)?;
        let mut handlers = self.handlers();
        handlers.push(tag, seq)?;
        self.keep(handlers)?;
        self.turn(seq, Sort::Catch);
        Ok(())
    }

    /// Begins a handler, of this type, for all exceptions, where one may stand.
    ///
    /// # Errors
    ///
    /// Want of memory.
    pub fn begin_last_handler(
        &mut self,
        ty: InstrSeqType,
        place: InstrLocId,
    ) -> Result<(), AllocError>
        requires shaped { Shaped (blocks self.old) (opens self.old) }
        requires may { handler_test (inner self.old).kind ≡ None }
        ensures ty { OnOk result (heading_of self.new ≡ heading_of self.old) }
        ensures turned { OnOk result (IsTurned HandlesAll Caught ty place self.old self.new) }
    {
        let seq = self.next_part(place, ty)?;
        let mut handlers = self.handlers();
        handlers.push_all(seq)?;
        self.keep(handlers)?;
        self.turn(seq, Sort::CatchAll);
        Ok(())
    }
}
