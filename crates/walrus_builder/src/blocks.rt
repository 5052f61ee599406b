//! Blocks: instructions that hold sequences, which closures fill.
ghost use Rattle.std.specs.Prelude.{◌≡◌, ◌<◌, ◌≤◌, length, slice_get, Some, IfOk, IfErr};
ghost use Rattle.walrus_builder.specs.Built.{contents, pushes, inserts, Keeps, Extends, ExtendsAlways, IsMade, IsMadeOfTwo, IsRefused, IsRefusedOfTwo, EditsAt};
ghost use Rattle.walrus_builder.specs.Holders.{held, puts};

use crate::seq_builder::InstrSeqBuilder;
use std::alloc::AllocError;
use walrus_arena::InstrSeqId;
use walrus_walks::instr::{Instr, InstrSeqType};

// What holds one sequence.
#[derive(Clone, Copy)]
enum Holder {
    Block,
    Loop,
}

// The instruction of this form that holds the sequence.
fn holding(holder: Holder, seq: InstrSeqId) -> Instr
    ensures { result ≡ held holder seq }
{
    match holder {
        Holder::Block => Instr::Block { seq },
        Holder::Loop => Instr::Loop { seq },
    }
}

// An `if` with these arms.
fn if_else_of(consequent: InstrSeqId, alternative: InstrSeqId) -> Instr
    ensures { result ≡ Instr.IfElse consequent alternative }
{
    Instr::IfElse {
        consequent,
        alternative,
    }
}

impl InstrSeqBuilder {
    // Puts an instruction into the outer sequence, which is at hand if it is there: at a position, or at the end.
    fn put_in(
        &mut self,
        outer: InstrSeqId,
        position: Option<usize>,
        instr: Instr,
    ) -> Result<(), AllocError>
        requires { outer < length self.old.seqs → self.old.id ≡ outer }
        ensures { EditsAt self.old outer (puts position instr) result self.new }
    {
        match position {
            None => self.instr_in(outer, instr),
            Some(position) => self.instr_at_in(outer, position, instr),
        }
    }

    // Puts what holds one sequence, which the closure fills, at a position or at the end.
    #[tactic(auto, using(crate::proofs::BuiltLemmas::left_back))]
    fn nest<F: FnOnce(&mut InstrSeqBuilder) -> Result<(), AllocError>>(
        &mut self,
        position: Option<usize>,
        holder: Holder,
        ty: InstrSeqType,
        make: F,
    ) -> Result<(), AllocError>
        requires callable { F.IsAlwaysCallable make }
        ensures made { IfOk result (λ _. IsMade F.FnOnce make ty self.old (λ seq. puts position (held holder seq)) self.new) }
        ensures left { IfErr result (λ _. IsRefused F.FnOnce make ty self.old.id self.old self.new) }
        ensures id { ExtendsAlways F.FnOnce make → self.new.id ≡ self.old.id }
        ensures others { ExtendsAlways F.FnOnce make → Extends self.old self.new }
        ensures refused { ExtendsAlways F.FnOnce make → IfErr result (λ _. Keeps self.old self.new) }
    {
        let outer = self.id();
        let seq = self.fill_seq(outer, ty, make)?;
        self.put_in(outer, position, holding(holder, seq))?;
        Ok(())
    }

    // Puts an `if`, whose arms the closures fill, the first one first, at a position or at the end.
    #[tactic(auto, using(crate::proofs::BuiltLemmas::left_back))]
    fn nest_arms<
        F: FnOnce(&mut InstrSeqBuilder) -> Result<(), AllocError>,
        G: FnOnce(&mut InstrSeqBuilder) -> Result<(), AllocError> + Drop,
    >(
        &mut self,
        position: Option<usize>,
        ty: InstrSeqType,
        make_consequent: F,
        make_alternative: G,
    ) -> Result<(), AllocError>
        requires callable { F.IsAlwaysCallable make_consequent }
        requires callable_too { G.IsAlwaysCallable make_alternative }
        ensures made { IfOk result (λ _. IsMadeOfTwo F.FnOnce make_consequent G.FnOnce make_alternative ty self.old (λ consequent alternative. puts position (Instr.IfElse consequent alternative)) self.new) }
        ensures left { IfErr result (λ _. IsRefusedOfTwo F.FnOnce make_consequent G.FnOnce make_alternative ty self.old self.new) }
        ensures id { ExtendsAlways F.FnOnce make_consequent → ExtendsAlways G.FnOnce make_alternative → self.new.id ≡ self.old.id }
        ensures others { ExtendsAlways F.FnOnce make_consequent → ExtendsAlways G.FnOnce make_alternative → Extends self.old self.new }
        ensures refused { ExtendsAlways F.FnOnce make_consequent → ExtendsAlways G.FnOnce make_alternative → IfErr result (λ _. Keeps self.old self.new) }
    {
        let outer = self.id();
        let alternative_ty = ty;
        let consequent = self.fill_seq(outer, ty, make_consequent)?;
        let alternative = self.fill_seq(outer, alternative_ty, make_alternative)?;
        self.put_in(outer, position, if_else_of(consequent, alternative))?;
        Ok(())
    }

    /// Appends a block: the closure fills its body. A closure that only builds leaves all other sequences alone.
    /// If it puts another builder in place, that one stays; its sequence of the same id, if it has one, is at hand
    /// then and gets the block.
    ///
    /// # Errors
    ///
    /// Want of memory, or what the closure answers. The sequence stays as it was, and those begun may dangle; what a
    /// closure put in place stays.
    pub fn block<F: FnOnce(&mut InstrSeqBuilder) -> Result<(), AllocError>>(
        &mut self,
        ty: InstrSeqType,
        make: F,
    ) -> Result<(), AllocError>
        requires callable { F.IsAlwaysCallable make }
        ensures made { IfOk result (λ _. IsMade F.FnOnce make ty self.old (λ seq. pushes (Instr.Block seq)) self.new) }
        ensures left { IfErr result (λ _. IsRefused F.FnOnce make ty self.old.id self.old self.new) }
        ensures id { ExtendsAlways F.FnOnce make → self.new.id ≡ self.old.id }
        ensures others { ExtendsAlways F.FnOnce make → Extends self.old self.new }
        ensures refused { ExtendsAlways F.FnOnce make → IfErr result (λ _. Keeps self.old self.new) }
    {
        self.nest(None, Holder::Block, ty, make)
    }

    /// Inserts a block at a position, which is at most the sequence's length: the closure fills its body. If it puts
    /// another builder in place, all is as with `block`, and a position past the end there is the end.
    ///
    /// # Errors
    ///
    /// Want of memory, or what the closure answers. What is left is as with `block`.
    pub fn block_at<F: FnOnce(&mut InstrSeqBuilder) -> Result<(), AllocError>>(
        &mut self,
        position: usize,
        ty: InstrSeqType,
        make: F,
    ) -> Result<(), AllocError>
        requires callable { F.IsAlwaysCallable make }
        requires within { (s : _) → slice_get (contents self.old) self.old.id ≡ Some s → position ≤ length s.instrs }
        ensures made { IfOk result (λ _. IsMade F.FnOnce make ty self.old (λ seq. inserts position (Instr.Block seq)) self.new) }
        ensures left { IfErr result (λ _. IsRefused F.FnOnce make ty self.old.id self.old self.new) }
        ensures id { ExtendsAlways F.FnOnce make → self.new.id ≡ self.old.id }
        ensures others { ExtendsAlways F.FnOnce make → Extends self.old self.new }
        ensures refused { ExtendsAlways F.FnOnce make → IfErr result (λ _. Keeps self.old self.new) }
    {
        self.nest(Some(position), Holder::Block, ty, make)
    }

    /// Appends a loop: the closure fills its body. If it puts another builder in place, all is as with `block`.
    ///
    /// # Errors
    ///
    /// Want of memory, or what the closure answers. What is left is as with `block`.
    pub fn loop_<F: FnOnce(&mut InstrSeqBuilder) -> Result<(), AllocError>>(
        &mut self,
        ty: InstrSeqType,
        make: F,
    ) -> Result<(), AllocError>
        requires callable { F.IsAlwaysCallable make }
        ensures made { IfOk result (λ _. IsMade F.FnOnce make ty self.old (λ seq. pushes (Instr.Loop seq)) self.new) }
        ensures left { IfErr result (λ _. IsRefused F.FnOnce make ty self.old.id self.old self.new) }
        ensures id { ExtendsAlways F.FnOnce make → self.new.id ≡ self.old.id }
        ensures others { ExtendsAlways F.FnOnce make → Extends self.old self.new }
        ensures refused { ExtendsAlways F.FnOnce make → IfErr result (λ _. Keeps self.old self.new) }
    {
        self.nest(None, Holder::Loop, ty, make)
    }

    /// Inserts a loop at a position, which is at most the sequence's length: the closure fills its body. If it puts
    /// another builder in place, all is as with `block`, and a position past the end there is the end.
    ///
    /// # Errors
    ///
    /// Want of memory, or what the closure answers. What is left is as with `block`.
    pub fn loop_at<F: FnOnce(&mut InstrSeqBuilder) -> Result<(), AllocError>>(
        &mut self,
        position: usize,
        ty: InstrSeqType,
        make: F,
    ) -> Result<(), AllocError>
        requires callable { F.IsAlwaysCallable make }
        requires within { (s : _) → slice_get (contents self.old) self.old.id ≡ Some s → position ≤ length s.instrs }
        ensures made { IfOk result (λ _. IsMade F.FnOnce make ty self.old (λ seq. inserts position (Instr.Loop seq)) self.new) }
        ensures left { IfErr result (λ _. IsRefused F.FnOnce make ty self.old.id self.old self.new) }
        ensures id { ExtendsAlways F.FnOnce make → self.new.id ≡ self.old.id }
        ensures others { ExtendsAlways F.FnOnce make → Extends self.old self.new }
        ensures refused { ExtendsAlways F.FnOnce make → IfErr result (λ _. Keeps self.old self.new) }
    {
        self.nest(Some(position), Holder::Loop, ty, make)
    }

    /// Appends an `if` with both arms: the closures fill them, the first one first. If one of them puts another
    /// builder in place, all is as with `block`.
    ///
    /// # Errors
    ///
    /// Want of memory, or what a closure answers. What is left is as with `block`.
    pub fn if_else<
        F: FnOnce(&mut InstrSeqBuilder) -> Result<(), AllocError>,
        G: FnOnce(&mut InstrSeqBuilder) -> Result<(), AllocError> + Drop,
    >(
        &mut self,
        ty: InstrSeqType,
        make_consequent: F,
        make_alternative: G,
    ) -> Result<(), AllocError>
        requires callable { F.IsAlwaysCallable make_consequent }
        requires callable_too { G.IsAlwaysCallable make_alternative }
        ensures made { IfOk result (λ _. IsMadeOfTwo F.FnOnce make_consequent G.FnOnce make_alternative ty self.old (λ consequent alternative. pushes (Instr.IfElse consequent alternative)) self.new) }
        ensures left { IfErr result (λ _. IsRefusedOfTwo F.FnOnce make_consequent G.FnOnce make_alternative ty self.old self.new) }
        ensures id { ExtendsAlways F.FnOnce make_consequent → ExtendsAlways G.FnOnce make_alternative → self.new.id ≡ self.old.id }
        ensures others { ExtendsAlways F.FnOnce make_consequent → ExtendsAlways G.FnOnce make_alternative → Extends self.old self.new }
        ensures refused { ExtendsAlways F.FnOnce make_consequent → ExtendsAlways G.FnOnce make_alternative → IfErr result (λ _. Keeps self.old self.new) }
    {
        self.nest_arms(None, ty, make_consequent, make_alternative)
    }

    /// Inserts an `if` with both arms at a position, which is at most the sequence's length: the closures fill the
    /// arms, the first one first. If one of them puts another builder in place, all is as with `block`, and a
    /// position past the end there is the end.
    ///
    /// # Errors
    ///
    /// Want of memory, or what a closure answers. What is left is as with `block`.
    pub fn if_else_at<
        F: FnOnce(&mut InstrSeqBuilder) -> Result<(), AllocError>,
        G: FnOnce(&mut InstrSeqBuilder) -> Result<(), AllocError> + Drop,
    >(
        &mut self,
        position: usize,
        ty: InstrSeqType,
        make_consequent: F,
        make_alternative: G,
    ) -> Result<(), AllocError>
        requires callable { F.IsAlwaysCallable make_consequent }
        requires callable_too { G.IsAlwaysCallable make_alternative }
        requires within { (s : _) → slice_get (contents self.old) self.old.id ≡ Some s → position ≤ length s.instrs }
        ensures made { IfOk result (λ _. IsMadeOfTwo F.FnOnce make_consequent G.FnOnce make_alternative ty self.old (λ consequent alternative. inserts position (Instr.IfElse consequent alternative)) self.new) }
        ensures left { IfErr result (λ _. IsRefusedOfTwo F.FnOnce make_consequent G.FnOnce make_alternative ty self.old self.new) }
        ensures id { ExtendsAlways F.FnOnce make_consequent → ExtendsAlways G.FnOnce make_alternative → self.new.id ≡ self.old.id }
        ensures others { ExtendsAlways F.FnOnce make_consequent → ExtendsAlways G.FnOnce make_alternative → Extends self.old self.new }
        ensures refused { ExtendsAlways F.FnOnce make_consequent → ExtendsAlways G.FnOnce make_alternative → IfErr result (λ _. Keeps self.old self.new) }
    {
        self.nest_arms(Some(position), ty, make_consequent, make_alternative)
    }
}
