//! What instructions take in memory, and the text of a location.
use std::alloc::{AllocError, Global};
use std::mem::size_of;
use walrus_instr::{
    Bits128, ConstExpr, ConstOp, Instr, InstrLocId, InstrSeq, InstrSeqType, SeqType, Value,
};

// In bytes.
#[test]
fn instructions_are_compact(rt: HostRuntime) {
    let sizes = [
        (size_of::<Bits128>(), 16),
        (size_of::<Value>(), 24),
        (size_of::<ConstOp>(), 24),
        (size_of::<ConstExpr>(), 32),
        (size_of::<Instr>(), 32),
        (size_of::<(Instr, InstrLocId)>(), 40),
        (size_of::<InstrSeqType>(), 24),
        (size_of::<SeqType>(), 8),
        (size_of::<InstrSeq>(), 40),
    ];
    for (size, wanted) in sizes {
        assert!(rt; size == wanted);
    }
}

fn is_written(alloc: Global, place: InstrLocId, text: &str) -> Result<bool, AllocError> {
    Ok(format!(in alloc; "{place:?}")?.as_bytes() == text.as_bytes())
}

#[test]
fn text_of_a_location(rt: HostRuntime) {
    assert!(rt; is_written(rt.alloc(), InstrLocId::new(5), "InstrLocId(5)") == Ok(true));
}
