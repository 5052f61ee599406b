//! The same visitor in a walk that changes. It moves functions and locals to later numbers, adds one to each
//! constant, and puts `unreachable` in place of `drop`, once it has written down what it was told.
ghost use Rattle.std.specs.Prelude.{⊤};

use super::log::Log;
use super::renamer::{add_one, later, replace_drop};
use walrus_arena::{
    DataId, ElementId, FunctionId, GlobalId, InstrSeqId, LocalId, MemoryId, TableId, TagId, TypeId,
};
use walrus_instr::{Instr, InstrLocId, InstrSeq, Value};
use walrus_walks::{Visitor, VisitorMut};

impl VisitorMut for Log {
    ghost step = { λ _ _ _ _. ⊤ };

    fn start_instr_seq_mut(&mut self, _seq: &mut InstrSeq) {
        self.word("start")
    }

    fn end_instr_seq_mut(&mut self, _seq: &mut InstrSeq) {
        self.word("end")
    }

    fn visit_instr_mut(&mut self, instr: &mut Instr, place: &mut InstrLocId) {
        self.visit_instr(&*instr, &*place);
        replace_drop(instr)
    }

    fn visit_value_mut(&mut self, value: &mut Value) {
        self.visit_value(&*value);
        add_one(value)
    }

    fn visit_instr_seq_id_mut(&mut self, _id: &mut InstrSeqId) {
        self.word("label")
    }

    fn visit_local_id_mut(&mut self, id: &mut LocalId) {
        self.word("local");
        *id = later(*id, 20)
    }

    fn visit_memory_id_mut(&mut self, _id: &mut MemoryId) {
        self.word("memory")
    }

    fn visit_table_id_mut(&mut self, _id: &mut TableId) {
        self.word("table")
    }

    fn visit_global_id_mut(&mut self, _id: &mut GlobalId) {
        self.word("global")
    }

    fn visit_function_id_mut(&mut self, id: &mut FunctionId) {
        self.word("function");
        *id = later(*id, 10)
    }

    fn visit_data_id_mut(&mut self, _id: &mut DataId) {
        self.word("data")
    }

    fn visit_type_id_mut(&mut self, _id: &mut TypeId) {
        self.word("type")
    }

    fn visit_element_id_mut(&mut self, _id: &mut ElementId) {
        self.word("element")
    }

    fn visit_tag_id_mut(&mut self, _id: &mut TagId) {
        self.word("tag")
    }
}
