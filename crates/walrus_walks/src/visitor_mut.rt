//! What is handed over in a walk that changes.
ghost use Rattle.std.specs.Prelude.{◌≡◌};
ghost use Rattle.walrus_walks.specs.Events.{Event, StartOf, EndOf, Visits, NamesSeq, NamesLocal, NamesMemory, NamesTable, NamesGlobal, NamesFunction, NamesData, NamesType, NamesElement, NamesTag, Holds};
ghost use Rattle.walrus_walks.specs.Order.{held_by};
ghost use Rattle.walrus_walks.specs.Tree.{children};

use walrus_arena::{
    DataId, ElementId, FunctionId, GlobalId, InstrSeqId, LocalId, MemoryId, TableId, TagId, TypeId,
};
use walrus_instr::{Instr, InstrLocId, InstrSeq, Value};

/// The hooks of a walk that changes. Each changes the visitor, and what it is handed, by one step
/// of its own. Those that are handed instructions leave the sequences that these hold, in their order.
///
/// A visitor that can fail keeps that in itself.
pub trait VisitorMut {
    /// How the visitor may answer an event: what it leaves in its place, and itself.
    ghost step: { Self → Event → Event → Self → Type 0 };

    /// A sequence, before its instructions are met. Instructions may be added and taken away here,
    /// but for those that hold sequences.
    fn start_instr_seq_mut(&mut self, seq: &mut InstrSeq)
        ensures step { step self.old (StartOf seq.old) (StartOf seq.new) self.new }
        ensures keeps { held_by seq.new ≡ held_by seq.old };

    /// A sequence, after its instructions were met, and before those that it holds. Instructions
    /// may be added and taken away here, but for those that hold sequences.
    fn end_instr_seq_mut(&mut self, seq: &mut InstrSeq)
        ensures step { step self.old (EndOf seq.old) (EndOf seq.new) self.new }
        ensures keeps { held_by seq.new ≡ held_by seq.old };

    /// An instruction, with the location that it has. It keeps the sequences that it holds. What
    /// it then names is handed over next.
    fn visit_instr_mut(&mut self, instr: &mut Instr, place: &mut InstrLocId)
        ensures step { step self.old (Visits instr.old place.old) (Visits instr.new place.new) self.new }
        ensures keeps { children instr.new ≡ children instr.old };

    /// The label of a branch.
    fn visit_instr_seq_id_mut(&mut self, id: &mut InstrSeqId)
        ensures { step self.old (NamesSeq id.old) (NamesSeq id.new) self.new };

    /// A local that an instruction names.
    fn visit_local_id_mut(&mut self, id: &mut LocalId)
        ensures { step self.old (NamesLocal id.old) (NamesLocal id.new) self.new };

    /// A memory that an instruction names.
    fn visit_memory_id_mut(&mut self, id: &mut MemoryId)
        ensures { step self.old (NamesMemory id.old) (NamesMemory id.new) self.new };

    /// A table that an instruction names.
    fn visit_table_id_mut(&mut self, id: &mut TableId)
        ensures { step self.old (NamesTable id.old) (NamesTable id.new) self.new };

    /// A global that an instruction names.
    fn visit_global_id_mut(&mut self, id: &mut GlobalId)
        ensures { step self.old (NamesGlobal id.old) (NamesGlobal id.new) self.new };

    /// A function that an instruction names.
    fn visit_function_id_mut(&mut self, id: &mut FunctionId)
        ensures { step self.old (NamesFunction id.old) (NamesFunction id.new) self.new };

    /// A data segment that an instruction names.
    fn visit_data_id_mut(&mut self, id: &mut DataId)
        ensures { step self.old (NamesData id.old) (NamesData id.new) self.new };

    /// A type that an instruction or a block type names.
    fn visit_type_id_mut(&mut self, id: &mut TypeId)
        ensures { step self.old (NamesType id.old) (NamesType id.new) self.new };

    /// An element segment that an instruction names.
    fn visit_element_id_mut(&mut self, id: &mut ElementId)
        ensures { step self.old (NamesElement id.old) (NamesElement id.new) self.new };

    /// A tag that an instruction names.
    fn visit_tag_id_mut(&mut self, id: &mut TagId)
        ensures { step self.old (NamesTag id.old) (NamesTag id.new) self.new };

    /// A constant.
    fn visit_value_mut(&mut self, value: &mut Value)
        ensures { step self.old (Holds value.old) (Holds value.new) self.new };
}
