//! Meeting what instructions and constant expressions name.
ghost use Rattle.std.specs.Prelude.{◌≡◌};
ghost use Rattle.std.specs.List.{fold};
ghost use Rattle.walrus_marks.specs.Marks.{meet};
ghost use Rattle.walrus_marks.specs.Named.{event_items, items_of};

use crate::marks::Marks;
use walrus_arena::{
    DataId, ElementId, FunctionId, GlobalId, InstrSeqId, LocalId, MemoryId, TableId, TagId, TypeId,
};
use walrus_instr::{Instr, InstrLocId, InstrSeq, Value};
use walrus_roots::Item;
use walrus_walks::{Visit, Visitor};
use wasm_formats::Space;

/// Meets each item that it is told of. Labels name no item.
impl Visitor for Marks {
    ghost step = { λ old event new. new ≡ fold meet old (event_items event) };

    fn start_instr_seq(&mut self, _seq: &InstrSeq) {}

    fn end_instr_seq(&mut self, _seq: &InstrSeq) {}

    fn visit_instr(&mut self, _instr: &Instr, _place: &InstrLocId) {}

    fn visit_instr_seq_id(&mut self, _id: &InstrSeqId) {}

    fn visit_local_id(&mut self, id: &LocalId) {
        self.meet(Item::new(Space::Local, *id));
    }

    fn visit_memory_id(&mut self, id: &MemoryId) {
        self.meet(Item::new(Space::Memory, *id));
    }

    fn visit_table_id(&mut self, id: &TableId) {
        self.meet(Item::new(Space::Table, *id));
    }

    fn visit_global_id(&mut self, id: &GlobalId) {
        self.meet(Item::new(Space::Global, *id));
    }

    fn visit_function_id(&mut self, id: &FunctionId) {
        self.meet(Item::new(Space::Function, *id));
    }

    fn visit_data_id(&mut self, id: &DataId) {
        self.meet(Item::new(Space::Data, *id));
    }

    fn visit_type_id(&mut self, id: &TypeId) {
        self.meet(Item::new(Space::Type, *id));
    }

    fn visit_element_id(&mut self, id: &ElementId) {
        self.meet(Item::new(Space::Element, *id));
    }

    fn visit_tag_id(&mut self, id: &TagId) {
        self.meet(Item::new(Space::Tag, *id));
    }

    fn visit_value(&mut self, _value: &Value) {}
}

impl Marks {
    /// Meets the items that it names.
    pub fn meet_told<T: Visit>(&mut self, told: &T)
        ensures { self.new ≡ fold meet self.old (items_of (T.tells told.now)) }
    {
        told.visit(self);
    }
}
