//! Instructions one by one.
use crate::bodies::calls::add;
use crate::bodies::walks::log::Log;
use std::alloc::{AllocError, Global};
use test_words::cut;
use walrus_builder::InstrSeqBuilder;
use walrus_instr::{Instr, InstrLocId};
use walrus_walks::{Visit, VisitMut};

// Adds the instruction of each row.
fn add_all(alloc: Global, seq: &mut InstrSeqBuilder, text: &str) -> Result<(), AllocError> {
    let mut rest = text.as_bytes();
    for _ in 0..text.len() {
        if rest.is_empty() {
            return Ok(());
        }
        let (row, more) = cut(rest, b'\n');
        let (word, _) = cut(row, b' ');
        add(alloc, seq, word)?;
        rest = more;
    }
    Ok(())
}

fn tells(alloc: Global, instr: &Instr, words: &[u8]) -> Result<bool, AllocError> {
    let mut log = Log::new(alloc, 0)?;
    instr.visit(&mut log);
    Ok(log.says(words))
}

fn tells_changing(alloc: Global, instr: &mut Instr, words: &[u8]) -> Result<bool, AllocError> {
    let mut log = Log::new(alloc, 0)?;
    instr.visit_mut(&mut log);
    Ok(log.says(words))
}

// Whether the instructions, copies of them, and then they as they are changed tell of what their rows name.
fn all_tell(
    alloc: Global,
    instrs: &mut [(Instr, InstrLocId)],
    text: &str,
) -> Result<bool, AllocError> {
    let mut rest = text.as_bytes();
    for (instr, _) in instrs {
        let (row, more) = cut(rest, b'\n');
        let (_, words) = cut(row, b'|');
        if !tells(alloc, instr, words)?
            || !tells(alloc, &instr.clone()?, words)?
            || !tells_changing(alloc, instr, words)?
        {
            return Ok(false);
        }
        rest = more;
    }
    Ok(rest.is_empty())
}

/// Whether the rows add just so many instructions, of which each tells of what it names, in both walks.
pub fn adds_rows(alloc: Global, seq: &mut InstrSeqBuilder, text: &str) -> Result<bool, AllocError> {
    add_all(alloc, seq, text)?;
    all_tell(alloc, seq.instrs_mut().as_mut_slice(), text)
}
