//! The open frames of a body, and its sequences.

ghost use Rattle.std.specs.Prelude.{◌≡◌, ◌-◌, ◌<◌, ◌≤◌, List, [], ◌∷◌, ◌++◌, length, OnOk, IfOk, IfErr, OnErr, MatchOption, MatchResult, slice_get, Some, false};
ghost use Rattle.walrus_builder.specs.Built.{contents, edited, filled_with};
ghost use Rattle.walrus_body_frames.specs.Frames.{IsRefused, IsUnadded, IsUnopened, Leaves, Opens, cut_off, frame, frames, with_catch, with_instr, with_instrs};
ghost use Rattle.walrus_body_env.specs.declared.error.BodyError.TheVariants.{Nesting};

use crate::frame::{BlockKind, ControlFrame};
use std::alloc::{AllocError, Global};
use walrus_arena::{InstrSeqId, TypeId};
use walrus_body_env::{BodyEnv, BodyError};
use walrus_builder::FunctionBuilder;
use walrus_instr::{Instr, InstrLocId, InstrSeqType, LegacyCatch};
use walrus_types::ValType;

const NESTING: BodyError = BodyError::Nesting { offset: None };

/// A body that is read: its open frames, and the function whose sequences they fill. Frames stand in a list, so that their number is
/// bounded by memory alone.
#[derive(Drop)]
pub struct ValidationContext {
    alloc: Global,
    function: FunctionBuilder,
    controls: Vec<ControlFrame>,
}

impl ValidationContext {
    /// No frame is open. Takes no memory.
    pub fn new(alloc: Global, function: FunctionBuilder) -> Self
        ensures frames { frames result.controls.items ≡ [] }
        ensures function { result.function ≡ function }
    {
        ValidationContext {
            alloc,
            function,
            controls: Vec::new(alloc),
        }
    }

    /// The function, once its frames are closed; what open ones hold is dropped.
    pub fn into_function(self) -> FunctionBuilder
        ensures { result ≡ self.function }
    {
        let ValidationContext { function, .. } = self;
        function
    }

    // Opens a frame of this type, and gives its sequence.
    fn push(&mut self, kind: BlockKind, ty: InstrSeqType) -> Result<InstrSeqId, AllocError>
        ensures opened { IfOk result (λ block. Opens kind ty block (frames self.old.controls.items) (frames self.new.controls.items) (contents self.old.function.builder) (contents self.new.function.builder)) }
        ensures refused { OnErr result (frames self.new.controls.items ≡ frames self.old.controls.items) }
        ensures left { OnErr result (Leaves ty (contents self.old.function.builder) (contents self.new.function.builder)) }
        ensures ty { self.new.function.ty ≡ self.old.function.ty }
        ensures name { self.new.function.name ≡ self.old.function.name }
    {
        let own = ty;
        let block = self.function.dangling_instr_seq(ty)?;
        let frame = ControlFrame::new(self.alloc, kind, own, block);
        self.controls.push(frame)?;
        Ok(block)
    }

    /// Opens a frame of these parameters and results, and gives its sequence, which is empty.
    ///
    /// # Errors
    ///
    /// `TypeForm`, without a place, where no block type has them: the frames and the sequences stay as they were. Want of memory: the
    /// frames stay as they were; the function may have got an empty sequence that none of them fills.
    pub fn push_control<E: BodyEnv>(
        &mut self,
        env: &E,
        kind: BlockKind,
        params: &[ValType],
        results: &[ValType],
    ) -> Result<InstrSeqId, BodyError>
        ensures opened { IfOk result (λ block. (ty : InstrSeqType) × (E.block_type env.now params.now results.now ≡ Some ty)
            × Opens kind ty block (frames self.old.controls.items) (frames self.new.controls.items) (contents self.old.function.builder) (contents self.new.function.builder)) }
        ensures refused { OnErr result (frames self.new.controls.items ≡ frames self.old.controls.items) }
        ensures cause { IfErr result (IsRefused (E.block_type env.now params.now results.now) (contents self.old.function.builder) (contents self.new.function.builder)) }
        ensures ty { self.new.function.ty ≡ self.old.function.ty }
        ensures name { self.new.function.name ≡ self.old.function.name }
    {
        let Some(ty) = env.block_type(params, results) else {
            return Err(BodyError::TypeForm { offset: None });
        };
        let block = self.push(kind, ty)?;
        Ok(block)
    }

    /// Opens a frame of this function type, and gives its sequence, which is empty.
    ///
    /// # Errors
    ///
    /// Want of memory. The frames stay as they were; the function may have got an empty sequence that none of them fills.
    pub fn push_control_with_ty(
        &mut self,
        kind: BlockKind,
        ty: TypeId,
    ) -> Result<InstrSeqId, AllocError>
        ensures opened { IfOk result (λ block. Opens kind (InstrSeqType.MultiValue ty) block (frames self.old.controls.items) (frames self.new.controls.items) (contents self.old.function.builder) (contents self.new.function.builder)) }
        ensures refused { OnErr result (frames self.new.controls.items ≡ frames self.old.controls.items) }
        ensures left { OnErr result (Leaves (InstrSeqType.MultiValue ty) (contents self.old.function.builder) (contents self.new.function.builder)) }
        ensures ty { self.new.function.ty ≡ self.old.function.ty }
        ensures name { self.new.function.name ≡ self.old.function.name }
    {
        self.push(kind, InstrSeqType::MultiValue(ty))
    }

    // The place in the list of the frame that so many lie inside.
    fn index_of(&self, n: usize) -> Option<usize>
        ensures { MatchOption result (length self.now.controls.items ≤ n) (λ k. (k ≡ length self.now.controls.items - 1 - n) × (n < length self.now.controls.items)) }
    {
        let count = self.controls.len();
        if n >= count {
            return None;
        }
        Some(count - 1 - n)
    }

    /// The frame that so many lie inside.
    ///
    /// # Errors
    ///
    /// `Nesting`, without a place, where fewer are open.
    pub fn control(&self, n: usize) -> Result<&ControlFrame, BodyError>
        ensures within { OnOk result (n < length self.now.controls.items) }
        ensures found { IfOk result (λ found. slice_get self.now.controls.items (length self.now.controls.items - 1 - n) ≡ Some found.now) }
        ensures refused { IfErr result (λ e. (e ≡ Nesting None) × (length self.now.controls.items ≤ n)) }
    {
        let Some(index) = self.index_of(n) else {
            return Err(NESTING);
        };
        Ok(&self.controls[index])
    }

    /// Marks what comes next in the innermost frame as not reached.
    ///
    /// # Errors
    ///
    /// `Nesting`, without a place, where no frame is open.
    pub fn unreachable(&mut self) -> Result<(), BodyError>
        ensures within { OnOk result (0 < length self.old.controls.items) }
        ensures marked { OnOk result (frames self.new.controls.items ≡ edited cut_off (frames self.old.controls.items) (length self.old.controls.items - 1)) }
        ensures refused { IfErr result (λ e. (e ≡ Nesting None) × (self.old.controls.items ≡ []) × (self.new.controls.items ≡ [])) }
        ensures function { self.new.function ≡ self.old.function }
    {
        let Some(index) = self.index_of(0) else {
            return Err(NESTING);
        };
        self.controls[index].unreachable = true;
        Ok(())
    }
}

impl ControlFrame {
    // What is not reached is dropped.
    fn add(&mut self, instr: Instr, place: InstrLocId) -> Result<(), AllocError>
        ensures { MatchResult result (λ _. frame self.new ≡ with_instr instr place (frame self.old)) (λ _. (frame self.new ≡ frame self.old) × (self.old.unreachable ≡ false)) }
    {
        if self.unreachable {
            return Ok(());
        }
        self.instrs.push((instr, place))?;
        Ok(())
    }

    fn add_catch(&mut self, part: LegacyCatch) -> Result<(), AllocError>
        ensures { MatchResult result (λ _. frame self.new ≡ with_catch part (frame self.old)) (λ _. frame self.new ≡ frame self.old) }
    {
        self.catches.push(part)?;
        Ok(())
    }
}

impl ValidationContext {
    /// Puts an instruction at the end of the frame that so many lie inside; drops it where that is not reached, which takes no memory.
    ///
    /// # Errors
    ///
    /// `Nesting`, without a place, where fewer frames are open; want of memory. The frames stay as they were.
    pub fn alloc_instr_in_control(
        &mut self,
        n: usize,
        instr: Instr,
        place: InstrLocId,
    ) -> Result<(), BodyError>
        ensures within { OnOk result (n < length self.old.controls.items) }
        ensures added { OnOk result (frames self.new.controls.items ≡ edited (with_instr instr place) (frames self.old.controls.items) (length self.old.controls.items - 1 - n)) }
        ensures refused { OnErr result (frames self.new.controls.items ≡ frames self.old.controls.items) }
        ensures cause { IfErr result (IsUnadded (frames self.old.controls.items) n) }
        ensures function { self.new.function ≡ self.old.function }
    {
        let Some(index) = self.index_of(n) else {
            return Err(NESTING);
        };
        self.controls[index].add(instr, place)?;
        Ok(())
    }

    /// Puts an instruction at the end of the innermost frame; drops it where that is not reached, which takes no memory.
    ///
    /// # Errors
    ///
    /// `Nesting`, without a place, where no frame is open; want of memory. The frames stay as they were.
    pub fn alloc_instr(&mut self, instr: Instr, place: InstrLocId) -> Result<(), BodyError>
        ensures within { OnOk result (0 < length self.old.controls.items) }
        ensures added { OnOk result (frames self.new.controls.items ≡ edited (with_instr instr place) (frames self.old.controls.items) (length self.old.controls.items - 1)) }
        ensures refused { OnErr result (frames self.new.controls.items ≡ frames self.old.controls.items) }
        ensures cause { IfErr result (IsUnadded (frames self.old.controls.items) 0) }
        ensures function { self.new.function ≡ self.old.function }
    {
        self.alloc_instr_in_control(0, instr, place)
    }

    /// Adds a part to the legacy `try` of the innermost frame.
    ///
    /// # Errors
    ///
    /// `Nesting`, without a place, where no frame is open; want of memory. The frames stay as they were.
    pub fn add_legacy_catch(&mut self, part: LegacyCatch) -> Result<(), BodyError>
        ensures within { OnOk result (0 < length self.old.controls.items) }
        ensures added { OnOk result (frames self.new.controls.items ≡ edited (with_catch part) (frames self.old.controls.items) (length self.old.controls.items - 1)) }
        ensures refused { OnErr result (frames self.new.controls.items ≡ frames self.old.controls.items) }
        ensures cause { IfErr result (IsUnopened (length self.old.controls.items) 0) }
        ensures function { self.new.function ≡ self.old.function }
    {
        let Some(index) = self.index_of(0) else {
            return Err(NESTING);
        };
        self.controls[index].add_catch(part)?;
        Ok(())
    }

    /// Closes the innermost frame, whose sequence gets its instructions and this location of its end. Gives the frame, without its
    /// instructions, and its sequence. Takes no memory.
    ///
    /// # Errors
    ///
    /// `Nesting`, without a place, where no frame is open. All stays as it was.
    pub fn pop_control(&mut self, end: InstrLocId) -> Result<(ControlFrame, InstrSeqId), BodyError>
        ensures closed { IfOk result (λ r. (instrs : List (Instr × InstrLocId)) × (frames self.old.controls.items ≡ frames self.new.controls.items ++ with_instrs instrs (frame r.0) ∷ [])
            × ((frame r.0).instrs ≡ []) × (r.1 ≡ r.0.block) × (contents self.new.function.builder ≡ edited (filled_with instrs end) (contents self.old.function.builder) r.1)) }
        ensures refused { IfErr result (λ e. (e ≡ Nesting None) × (self.old.controls.items ≡ []) × (self.new.controls.items ≡ [])) }
        ensures unfilled { OnErr result (self.new.function ≡ self.old.function) }
        ensures ty { self.new.function.ty ≡ self.old.function.ty }
        ensures name { self.new.function.name ≡ self.old.function.name }
    {
        let Some(closed) = self.controls.pop() else {
            return Err(NESTING);
        };
        let ControlFrame {
            kind,
            ty,
            block,
            unreachable,
            catches,
            instrs,
        } = closed;
        self.fill(block, instrs, end);
        let frame = ControlFrame {
            kind,
            ty,
            block,
            unreachable,
            catches,
            instrs: Vec::new(self.alloc),
        };
        Ok((frame, block))
    }

    // Gives a sequence its instructions and the location of its end, where it is there.
    fn fill(&mut self, block: InstrSeqId, instrs: Vec<(Instr, InstrLocId)>, end: InstrLocId)
        ensures filled { contents self.new.function.builder ≡ edited (filled_with instrs.items end) (contents self.old.function.builder) block }
        ensures frames { self.new.controls ≡ self.old.controls }
        ensures ty { self.new.function.ty ≡ self.old.function.ty }
        ensures name { self.new.function.name ≡ self.old.function.name }
    {
        if block.index() < self.function.seqs().len() {
            self.function.fill(block, instrs, end);
        }
    }
}
