//! Items that are told.
ghost use Rattle.std.specs.Prelude.{◌≡◌, ◌++◌, [], ◌∷◌, OnOk};
ghost use Rattle.walrus_marks.specs.Named.{event_items, items_of};
ghost use Rattle.walrus_roots.specs.Items.{item};
ghost use Rattle.walrus_reasons.specs.Told.{Tells};

use std::alloc::AllocError;
use std::mem;
use walrus_arena::{
    DataId, ElementId, FunctionId, GlobalId, Id, InstrSeqId, LocalId, MemoryId, TableId, TagId,
    TypeId,
};
use walrus_instr::{Instr, InstrLocId, InstrSeq, Value};
use walrus_roots::Item;
use walrus_walks::{Visit, Visitor};
use wasm_formats::Space;

// The items that a visitor was told of, and whether it lacked memory for one, as it can't answer that.
#[derive(Drop)]
pub(crate) struct Told {
    items: Vec<Item>,
    is_short: bool,
}

impl Told {
    fn add<S>(&mut self, space: Space, id: Id<S>)
        ensures { Tells (item space id ∷ []) self.old self.new }
    {
        match self.items.push(Item::new(space, id)) {
            Ok(()) => {}
            Err(_) => self.is_short = true,
        }
    }
}

/// Adds each item that it is told of. Labels name no item.
impl Visitor for Told {
    ghost step = { λ old event new. Tells (event_items event) old new };

    fn start_instr_seq(&mut self, _seq: &InstrSeq) {}

    fn end_instr_seq(&mut self, _seq: &InstrSeq) {}

    fn visit_instr(&mut self, _instr: &Instr, _place: &InstrLocId) {}

    fn visit_instr_seq_id(&mut self, _id: &InstrSeqId) {}

    fn visit_local_id(&mut self, id: &LocalId) {
        self.add(Space::Local, *id);
    }

    fn visit_memory_id(&mut self, id: &MemoryId) {
        self.add(Space::Memory, *id);
    }

    fn visit_table_id(&mut self, id: &TableId) {
        self.add(Space::Table, *id);
    }

    fn visit_global_id(&mut self, id: &GlobalId) {
        self.add(Space::Global, *id);
    }

    fn visit_function_id(&mut self, id: &FunctionId) {
        self.add(Space::Function, *id);
    }

    fn visit_data_id(&mut self, id: &DataId) {
        self.add(Space::Data, *id);
    }

    fn visit_type_id(&mut self, id: &TypeId) {
        self.add(Space::Type, *id);
    }

    fn visit_element_id(&mut self, id: &ElementId) {
        self.add(Space::Element, *id);
    }

    fn visit_tag_id(&mut self, id: &TagId) {
        self.add(Space::Tag, *id);
    }

    fn visit_value(&mut self, _value: &Value) {}
}

/// Adds the items that it names.
///
/// # Errors
///
/// Want of memory.
#[tactic(auto, using(crate::proofs::ToldLemmas::folds_tell))]
pub(crate) fn add_told<T: Visit>(named: &mut Vec<Item>, told: &T) -> Result<(), AllocError>
    ensures { OnOk result (named.new.items ≡ named.old.items ++ items_of (T.tells told.now)) }
{
    let alloc = *named.allocator();
    let mut visitor = Told {
        items: mem::replace(named, Vec::new(alloc)),
        is_short: false,
    };
    told.visit(&mut visitor);
    let Told { items, is_short } = visitor;
    *named = items;
    if is_short { Err(AllocError) } else { Ok(()) }
}
