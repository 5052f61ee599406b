//! The open sequences of a body that is read.

ghost use Rattle.std.specs.Prelude.{◌≡◌, ◌<◌, [], ◌∷◌, ◌++◌, length, slice_get, IfOk, IfSome, OnErr, OnOk, Some};
ghost use Rattle.walrus_body_nesting.specs.wasm_body_grammar.Frames.{Plain};
ghost use Rattle.walrus_body_nesting.specs.walrus_builder.Built.{contents, empty_seq, no_place};
ghost use Rattle.walrus_body_nesting.specs.walrus_builder.Functions.{seqs_of};
ghost use Rattle.walrus_body_nesting.specs.declared.frames.Opener.TheVariants as openers;
ghost use Rattle.walrus_body_nesting.specs.declared.frames.Reach.TheVariants.{Live};
ghost use Rattle.walrus_body_nesting.specs.Opens.{Shaped, begun, ids_of, ran, type_at};
ghost use Rattle.walrus_body_stack.specs.Frames.{IsEnded, IsFirst, IsHanded, IsMade, IsOpened, IsStraight, IsTrying, around, below, blocks, clauses_around, filled, handlers_around, heading, heading_of, inner, opens, top};
ghost use Rattle.walrus_body_stack.specs.Held.{emptied, entered, first_frame, joined};
ghost use Rattle.walrus_instr.specs.declared.seq.InstrSeqType.{InstrSeqType as BlockTy};

use crate::frame::{Frame, Sort, inner_reach};
use crate::handlers::Handlers;
use crate::nest::Nest;
use crate::pile::Pile;
use std::alloc::{AllocError, Global};
use walrus_arena::InstrSeqId;
use walrus_body_nesting::{Opener, Reach};
use walrus_builder::FunctionBuilder;
use walrus_instr::{Instr, InstrLocId, InstrSeqType, TryTableCatch};

/// A body that is read: its open sequences, in a list, so that their number is bounded by memory alone.
#[derive(Drop)]
pub struct Stack {
    pub(crate) alloc: Global,
    pub(crate) builder: FunctionBuilder,
    pub(crate) nest: Nest,
    // The handlers of each legacy `try` that is open, and the clauses of each `try_table`.
    pub(crate) handlers: Pile<Handlers>,
    pub(crate) clauses: Pile<Vec<TryTableCatch>>,
}

// The instruction of a block that ends with this sequence, where the sequences are all that is needed.
#[inline(always)]
fn straight(frame: Frame) -> Option<Instr>
    ensures { IfSome result (λ instr. IsStraight frame instr) }
{
    match frame.sort {
        Sort::Block => Some(Instr::Block { seq: frame.first }),
        Sort::Loop => Some(Instr::Loop { seq: frame.first }),
        Sort::Else => Some(Instr::IfElse {
            consequent: frame.first,
            alternative: frame.seq,
        }),
        Sort::Then | Sort::Try | Sort::Catch | Sort::CatchAll | Sort::TryTable => None,
    }
}

impl Stack {
    /// The body's own sequence is open. Takes no memory.
    pub fn new(alloc: Global, builder: FunctionBuilder) -> Self
        requires { 0 < length (seqs_of builder) }
        ensures ty { heading_of result ≡ heading builder }
        ensures blocks { blocks result ≡ contents builder.builder }
        ensures opens { (ty : BlockTy) × (type_at (contents builder.builder) 0 ≡ Some ty) × (opens result ≡ begun openers.Block no_place ty Plain 0 Live ∷ []) }
    {
        let first = builder.func_body_id();
        let ty = builder.seqs()[0].ty.get();
        let frame = Frame {
            ty,
            place: InstrLocId::default(),
            first,
            seq: first,
            sort: Sort::Block,
            reach: Reach::Live,
        };
        Stack {
            alloc,
            builder,
            nest: Nest::new(alloc, frame),
            handlers: Pile::new(alloc),
            clauses: Pile::new(alloc),
        }
    }

    /// What was built, without room to spare.
    pub fn into_builder(self) -> FunctionBuilder
        ensures blocks { contents result.builder ≡ blocks self }
        ensures ty { heading result ≡ heading_of self }
    {
        let Stack { mut builder, .. } = self;
        builder.shrink_to_fit();
        builder
    }

    /// Whether the next operator of the innermost sequence is reached.
    #[inline(always)]
    pub fn reach(&self) -> Reach
        ensures { result ≡ (inner self.now).reach }
    {
        self.nest.reach()
    }

    /// The type of the innermost block.
    pub fn block_type(&self) -> InstrSeqType
        ensures { result ≡ (inner self.now).ty }
    {
        self.nest.frame().ty
    }

    /// The sequence that a label names: the innermost has the label 0.
    #[inline(always)]
    pub fn label(&self, depth: u32) -> Option<InstrSeqId>
        ensures { result ≡ slice_get (ids_of (opens self.now)) depth }
    {
        self.nest.seq_at(depth)
    }

    /// How many open sequences lie around the innermost.
    pub fn outer_count(&self) -> usize
        ensures { result ≡ length (around self.now) }
    {
        self.nest.outer_count()
    }

    /// Adds an instruction where it is reached; what follows it isn't, where it cuts. Takes no memory where it isn't reached.
    ///
    /// # Errors
    ///
    /// Want of memory.
    #[inline(always)]
    pub fn run(&mut self, instr: Instr, place: InstrLocId, cuts: bool) -> Result<(), AllocError>
        ensures ty { heading_of self.new ≡ heading_of self.old }
        ensures opens { OnOk result (opens self.new ≡ ran (instr, place) cuts (inner self.old) ∷ around self.old) }
        ensures blocks { blocks self.new ≡ blocks self.old }
        ensures reached { OnErr result ((inner self.old).reach ≡ Live) }
    {
        match self.nest.reach() {
            Reach::Live => {
                self.nest.add(instr, place)?;
                if cuts {
                    self.nest.cut();
                }
                Ok(())
            }
            Reach::Cut => Ok(()),
            Reach::Dropped => Ok(()),
        }
    }

    // An empty sequence of this type.
    #[inline(always)]
    pub(crate) fn fresh(&mut self, ty: InstrSeqType) -> Result<InstrSeqId, AllocError>
        ensures ty { OnOk result (heading_of self.new ≡ heading_of self.old) }
        ensures id { IfOk result (λ id. id ≡ length (blocks self.old)) }
        ensures added { OnOk result (blocks self.new ≡ blocks self.old ++ empty_seq (length (blocks self.old)) ty ∷ []) }
        ensures nest { self.new.nest ≡ self.old.nest }
        ensures handlers { self.new.handlers ≡ self.old.handlers }
        ensures clauses { self.new.clauses ≡ self.old.clauses }
    {
        let id = self.builder.dangling_instr_seq(ty)?;
        Ok(id)
    }

    // The first part of a block, and what has to be kept of the block.
    #[inline(always)]
    fn noted(&mut self, opener: Opener) -> Result<Sort, AllocError>
        ensures builder { self.new.builder ≡ self.old.builder }
        ensures nest { self.new.nest ≡ self.old.nest }
        ensures first { IfOk result (λ s. IsFirst opener s self.old.handlers self.new.handlers self.old.clauses self.new.clauses) }
    {
        match opener {
            Opener::Block => Ok(Sort::Block),
            Opener::Loop => Ok(Sort::Loop),
            Opener::If => Ok(Sort::Then),
            Opener::Try => {
                let none = Handlers::new(self.alloc);
                self.handlers.push(none)?;
                Ok(Sort::Try)
            }
            Opener::TryTable(clauses) => {
                self.clauses.push(clauses)?;
                Ok(Sort::TryTable)
            }
        }
    }

    /// Opens a block of this type.
    ///
    /// # Errors
    ///
    /// Want of memory.
    #[inline(always)]
    pub fn open(
        &mut self,
        opener: Opener,
        place: InstrLocId,
        ty: InstrSeqType,
    ) -> Result<(), AllocError>
        ensures ty { OnOk result (heading_of self.new ≡ heading_of self.old) }
        ensures opened { OnOk result (IsOpened opener place ty self.old self.new) }
    {
        let own = ty;
        let seq = self.fresh(ty)?;
        let sort = self.noted(opener)?;
        if self.nest.is_long() {
            return self.enter_apart(seq, sort, place, own);
        }
        let reach = inner_reach(self.nest.reach());
        self.nest.enter(Frame {
            ty: own,
            place,
            first: seq,
            seq,
            sort,
            reach,
        })
    }

    // Enters the first sequence of a block, with a list of its own. It stands apart, so that elsewhere the frame is made where it is to be.
    #[inline(never)]
    fn enter_apart(
        &mut self,
        seq: InstrSeqId,
        sort: Sort,
        place: InstrLocId,
        ty: InstrSeqType,
    ) -> Result<(), AllocError>
        ensures nest { OnOk result (self.new.nest ≡ entered (first_frame seq sort place ty self.old.nest.inner.frame.reach) self.old.nest) }
        ensures rest { self.new ≡ record self.old { nest = self.new.nest } }
    {
        let reach = inner_reach(self.nest.reach());
        self.nest.enter_apart(Frame {
            ty,
            place,
            first: seq,
            seq,
            sort,
            reach,
        })
    }

    // Gives the innermost sequence its instructions, and its end this location.
    #[inline(always)]
    pub(crate) fn close(&mut self, place: InstrLocId) -> Result<(), AllocError>
        requires { self.old.nest.inner.frame.seq < length (blocks self.old) }
        ensures ty { heading_of self.new ≡ heading_of self.old }
        ensures filled { OnOk result (blocks self.new ≡ filled place self.old) }
        ensures nest { OnOk result (self.new.nest ≡ emptied self.old.nest) }
        ensures handlers { self.new.handlers ≡ self.old.handlers }
        ensures clauses { self.new.clauses ≡ self.old.clauses }
    {
        let seq = self.nest.frame().seq;
        let instrs = self.nest.take()?;
        self.builder.fill(seq, instrs, place);
        Ok(())
    }

    // Takes the handlers of the innermost legacy `try`.
    pub(crate) fn handlers(&mut self) -> Handlers
        ensures top { result ≡ top self.old.handlers }
        ensures rest { self.new ≡ record self.old { handlers = below self.old.handlers } }
    {
        match self.handlers.pop() {
            Some(handlers) => handlers,
            None => Handlers::new(self.alloc),
        }
    }

    // The instruction of a block that ended; an `if` without `else` gets an empty one.
    fn block_of(&mut self, frame: Frame) -> Result<Instr, AllocError>
        ensures ty { OnOk result (heading_of self.new ≡ heading_of self.old) }
        ensures made { IfOk result (λ instr. IsMade frame.sort frame.ty frame.first frame.seq self.old.handlers self.old.clauses (blocks self.old) (blocks self.new) instr) }
        ensures nest { self.new.nest ≡ self.old.nest }
        ensures handlers { OnOk result (self.new.handlers ≡ handlers_around frame.sort self.old.handlers) }
        ensures clauses { OnOk result (self.new.clauses ≡ clauses_around frame.sort self.old.clauses) }
    {
        let first = frame.first;
        match frame.sort {
            Sort::Block => Ok(Instr::Block { seq: first }),
            Sort::Loop => Ok(Instr::Loop { seq: first }),
            Sort::Then => {
                let alternative = self.fresh(frame.ty)?;
                Ok(Instr::IfElse {
                    consequent: first,
                    alternative,
                })
            }
            Sort::Else => Ok(Instr::IfElse {
                consequent: first,
                alternative: frame.seq,
            }),
            Sort::Try => Ok(self.handlers().into_try(first)),
            Sort::Catch => Ok(self.handlers().into_try(first)),
            Sort::CatchAll => Ok(self.handlers().into_try(first)),
            Sort::TryTable => match self.clauses.pop() {
                Some(catches) => Ok(Instr::TryTable {
                    seq: first,
                    catches,
                }),
                None => Ok(Instr::Block { seq: first }),
            },
        }
    }

    // Adds a block where it was reached.
    #[inline(always)]
    fn nested(&mut self, instr: Instr, place: InstrLocId, reach: Reach) -> Result<(), AllocError>
        ensures nest { OnOk result (self.new.nest ≡ joined reach (instr, place) self.old.nest) }
        ensures rest { self.new ≡ record self.old { nest = self.new.nest } }
    {
        match reach {
            Reach::Live => self.nest.add(instr, place),
            Reach::Cut => self.nest.add(instr, place),
            Reach::Dropped => Ok(()),
        }
    }

    /// Closes the innermost block, the location of whose last `end` this is, and adds it to the sequence around it where it was
    /// reached. Says whether it was the body itself.
    ///
    /// # Errors
    ///
    /// Want of memory.
    pub fn end(&mut self, place: InstrLocId) -> Result<bool, AllocError>
        requires { Shaped (blocks self.old) (opens self.old) }
        ensures ty { OnOk result (heading_of self.new ≡ heading_of self.old) }
        ensures ended { IfOk result (λ done. IsEnded done place self.old self.new) }
    {
        let frame = self.nest.frame();
        let opened = frame.place;
        let reach = frame.reach;
        let Some(instr) = straight(frame) else {
            return self.end_any(place);
        };
        self.close(place)?;
        if !self.nest.leave() {
            return Ok(true);
        }
        self.nested(instr, opened, reach)?;
        Ok(false)
    }

    // The same for any block, whose instruction may need more than its sequences.
    #[inline(never)]
    fn end_any(&mut self, place: InstrLocId) -> Result<bool, AllocError>
        requires { Shaped (blocks self.old) (opens self.old) }
        ensures ty { OnOk result (heading_of self.new ≡ heading_of self.old) }
        ensures ended { IfOk result (λ done. IsEnded done place self.old self.new) }
    {
        self.close(place)?;
        let frame = self.nest.frame();
        let opened = frame.place;
        let reach = frame.reach;
        if !self.nest.leave() {
            return Ok(true);
        }
        let instr = self.block_of(frame)?;
        self.nested(instr, opened, reach)?;
        Ok(false)
    }

    /// Closes the innermost block, a legacy `try` without handlers, and adds it to the sequence around it where it was reached. Says
    /// whether there is such a sequence.
    ///
    /// # Errors
    ///
    /// Want of memory.
    pub fn delegate(&mut self, depth: u32) -> Result<bool, AllocError>
        requires shaped { Shaped (blocks self.old) (opens self.old) }
        requires trying { IsTrying (inner self.old).kind }
        ensures ty { OnOk result (heading_of self.new ≡ heading_of self.old) }
        ensures handed { IfOk result (λ done. IsHanded done depth self.old self.new) }
    {
        self.close(InstrLocId::default())?;
        let frame = self.nest.frame();
        if !self.nest.leave() {
            return Ok(true);
        }
        let handlers = self.handlers();
        let instr = handlers.into_delegating(frame.first, depth)?;
        self.nested(instr, frame.place, frame.reach)?;
        Ok(false)
    }
}
