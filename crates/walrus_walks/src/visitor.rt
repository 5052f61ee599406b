//! What is told of a walk that reads.
ghost use Rattle.walrus_walks.specs.Events.{Event, StartOf, EndOf, Visits, NamesSeq, NamesLocal, NamesMemory, NamesTable, NamesGlobal, NamesFunction, NamesData, NamesType, NamesElement, NamesTag, Holds};

use walrus_arena::{
    DataId, ElementId, FunctionId, GlobalId, InstrSeqId, LocalId, MemoryId, TableId, TagId, TypeId,
};
use walrus_instr::{Instr, InstrLocId, InstrSeq, Value};

/// The hooks of a walk that reads. Each changes the visitor by one step of its own.
///
/// A visitor that can fail keeps that in itself.
pub trait Visitor {
    /// How an event may change the visitor.
    ghost step: { Self → Event → Self → Type 0 };

    /// A sequence begins.
    fn start_instr_seq(&mut self, seq: &InstrSeq)
        ensures { step self.old (StartOf seq.now) self.new };

    /// A sequence ends.
    fn end_instr_seq(&mut self, seq: &InstrSeq)
        ensures { step self.old (EndOf seq.now) self.new };

    /// An instruction, with the location that it has. Told before what it names and holds.
    fn visit_instr(&mut self, instr: &Instr, place: &InstrLocId)
        ensures { step self.old (Visits instr.now place.now) self.new };

    /// The label of a branch.
    fn visit_instr_seq_id(&mut self, id: &InstrSeqId)
        ensures { step self.old (NamesSeq id.now) self.new };

    /// A local that an instruction names.
    fn visit_local_id(&mut self, id: &LocalId)
        ensures { step self.old (NamesLocal id.now) self.new };

    /// A memory that an instruction names.
    fn visit_memory_id(&mut self, id: &MemoryId)
        ensures { step self.old (NamesMemory id.now) self.new };

    /// A table that an instruction names.
    fn visit_table_id(&mut self, id: &TableId)
        ensures { step self.old (NamesTable id.now) self.new };

    /// A global that an instruction names.
    fn visit_global_id(&mut self, id: &GlobalId)
        ensures { step self.old (NamesGlobal id.now) self.new };

    /// A function that an instruction names.
    fn visit_function_id(&mut self, id: &FunctionId)
        ensures { step self.old (NamesFunction id.now) self.new };

    /// A data segment that an instruction names.
    fn visit_data_id(&mut self, id: &DataId)
        ensures { step self.old (NamesData id.now) self.new };

    /// A type that an instruction or a block type names.
    fn visit_type_id(&mut self, id: &TypeId)
        ensures { step self.old (NamesType id.now) self.new };

    /// An element segment that an instruction names.
    fn visit_element_id(&mut self, id: &ElementId)
        ensures { step self.old (NamesElement id.now) self.new };

    /// A tag that an instruction names.
    fn visit_tag_id(&mut self, id: &TagId)
        ensures { step self.old (NamesTag id.now) self.new };

    /// A constant.
    fn visit_value(&mut self, value: &Value)
        ensures { step self.old (Holds value.now) self.new };
}
