//! Exact heap types in bodies.
ghost use Rattle.std.specs.Prelude.{◌≡◌};
ghost use Rattle.walrus_exact.specs.Exact.{block_exact, instr_exact, instrs_exact, seq_exact};

use crate::types::{ref_exact, written_exact};
use walrus_instr::{Instr, InstrLocId, InstrSeq, InstrSeqType};

fn instr_exact(instr: &Instr) -> bool
    ensures { result ≡ instr_exact instr.now }
{
    match instr {
        Instr::Select { ty } => written_exact(ty),
        Instr::RefNull { ty } => ref_exact(ty),
        Instr::RefTest { ty } => ref_exact(ty),
        Instr::RefCast { ty } => ref_exact(ty),
        Instr::BrOnCast { from_ty, to_ty, .. } => ref_exact(from_ty) || ref_exact(to_ty),
        Instr::BrOnCastFail { from_ty, to_ty, .. } => ref_exact(from_ty) || ref_exact(to_ty),
        _ => false,
    }
}

fn instrs_exact(instrs: &[(Instr, InstrLocId)]) -> bool
    ensures { result ≡ instrs_exact instrs.now }
{
    instrs.iter().any(|entry| instr_exact(&entry.0))
}

fn block_exact(ty: &InstrSeqType) -> bool
    ensures { result ≡ block_exact ty.now }
{
    match ty {
        InstrSeqType::Simple(ty) => written_exact(ty),
        InstrSeqType::MultiValue(_) => false,
    }
}

/// Whether an instruction of the sequence of this number writes an exact heap type, or its block type, which of the body's own isn't
/// written.
pub fn seq_exact(index: usize, seq: &InstrSeq) -> bool
    ensures { result ≡ seq_exact index seq.now }
{
    (index != 0 && block_exact(&seq.ty.get())) || instrs_exact(seq.instrs.as_slice())
}
