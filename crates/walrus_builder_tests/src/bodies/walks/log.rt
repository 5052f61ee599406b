//! A visitor that writes down what it is told.
ghost use Rattle.std.specs.Prelude.{⊤};

use std::alloc::{AllocError, Global};
use test_words::nth;
use walrus_arena::{
    DataId, ElementId, FunctionId, GlobalId, InstrSeqId, LocalId, MemoryId, TableId, TagId, TypeId,
};
use walrus_instr::{Instr, InstrLocId, InstrSeq, Value};
use walrus_walks::Visitor;

#[derive(Drop)]
pub struct Log {
    /// Words, each with a blank before it.
    pub text: Vec<u8>,
    pub refused: bool,
}

impl Log {
    /// With room for that many bytes, so that so much takes no memory in a walk.
    pub fn new(alloc: Global, room: usize) -> Result<Self, AllocError> {
        Ok(Log {
            text: Vec::with_capacity(alloc, room)?,
            refused: false,
        })
    }

    /// Whether it was told just this.
    pub fn says(&self, text: &[u8]) -> bool {
        !self.refused && self.text.as_slice() == text
    }

    fn write(&mut self, word: &[u8]) {
        if self.text.push(b' ').is_err() || self.text.extend_from_slice(word).is_err() {
            self.refused = true;
        }
    }

    pub fn word(&mut self, word: &str) {
        self.write(word.as_bytes())
    }
}

// The forms that have a word, since they are told of before what they hold.
const FORMS: &str = "drop block if-else try";

fn form(instr: &Instr) -> Option<u32> {
    match instr {
        Instr::Drop => Some(0),
        Instr::Block { .. } => Some(1),
        Instr::IfElse { .. } => Some(2),
        Instr::Try { .. } => Some(3),
        _ => None,
    }
}

// Small numbers of 32 bits are told apart.
const VALUES: &str = "value 1 2 3 4 5 6 7 8 9 10";

fn constant(value: &Value) -> u32 {
    match value {
        Value::I32(number) if *number > 0 && *number < 11 => number.cast_unsigned(),
        _ => 0,
    }
}

impl Visitor for Log {
    ghost step = { λ _ _ _. ⊤ };

    fn start_instr_seq(&mut self, _seq: &InstrSeq) {
        self.word("start")
    }

    fn end_instr_seq(&mut self, _seq: &InstrSeq) {
        self.word("end")
    }

    fn visit_instr(&mut self, instr: &Instr, _place: &InstrLocId) {
        if let Some(place) = form(instr) {
            self.write(nth(FORMS.as_bytes(), place));
        }
    }

    fn visit_value(&mut self, value: &Value) {
        self.write(nth(VALUES.as_bytes(), constant(value)))
    }

    fn visit_instr_seq_id(&mut self, _id: &InstrSeqId) {
        self.word("label")
    }

    fn visit_local_id(&mut self, _id: &LocalId) {
        self.word("local")
    }

    fn visit_memory_id(&mut self, _id: &MemoryId) {
        self.word("memory")
    }

    fn visit_table_id(&mut self, _id: &TableId) {
        self.word("table")
    }

    fn visit_global_id(&mut self, _id: &GlobalId) {
        self.word("global")
    }

    fn visit_function_id(&mut self, _id: &FunctionId) {
        self.word("function")
    }

    fn visit_data_id(&mut self, _id: &DataId) {
        self.word("data")
    }

    fn visit_type_id(&mut self, _id: &TypeId) {
        self.word("type")
    }

    fn visit_element_id(&mut self, _id: &ElementId) {
        self.word("element")
    }

    fn visit_tag_id(&mut self, _id: &TagId) {
        self.word("tag")
    }
}
